//! Finds the links of a chain that race themselves: a write and a read of what it wrote.
ghost use Rattle.std.specs.Prelude.{◌≡◌, find};
ghost use Rattle.explain_report.specs.Chains.{CandidatesAreTold, is_candidate, is_raced, is_written, race_note, raced_step};
ghost use Rattle.rapid_text.specs.Appended.{Appended};

use crate::pieces::{append_number, append_words};
use must_order::{Analysis, Chain, Reason, Step};
use rapid_text::OutOfMemory;

/// The text says that two events race exactly if they are a candidate.
pub fn candidates_are_told()
    ensures { CandidatesAreTold }
{}

/// Whether the two events are a candidate, and the first is the earlier.
fn is_race(analysis: &Analysis<'_>, first: u32, second: u32) -> bool
    ensures { result ≡ is_candidate analysis.now.events first second }
{
    if first >= second || second >= analysis.indexed().len() {
        return false;
    }
    analysis.is_candidate(first, second)
}

/// Appends a note that the two events race, if they do.
pub(crate) fn append_race_note(
    out: &mut Vec<u8>,
    analysis: &Analysis<'_>,
    first: u32,
    second: u32,
) -> Result<(), OutOfMemory>
    ensures { Appended result out.old out.new (race_note analysis.now.events first second) }
{
    if !is_race(analysis, first, second) {
        return Ok(());
    }
    append_words(out, b" (these two race: explain ")?;
    append_number(out, u64::from(first))?;
    append_words(out, b" ")?;
    append_number(out, u64::from(second))?;
    append_words(out, b")")?;
    Ok(())
}

/// The first step of the chains that leads from a write to a read of what it wrote, and whose events race.
pub fn first_raced(analysis: &Analysis<'_>, chains: &[Chain]) -> Option<Step>
    ensures { result ≡ raced_step analysis.now.events chains.now }
{
    for chain in chains {
        if let Some(step) = raced_of(analysis, chain.steps.as_slice()) {
            return Some(step);
        }
    }
    None
}

/// The same for the steps of one chain.
fn raced_of(analysis: &Analysis<'_>, steps: &[Step]) -> Option<Step>
    ensures { result ≡ find (is_raced analysis.now.events) steps.now }
{
    for step in steps {
        if is_raced_step(analysis, *step) {
            return Some(*step);
        }
    }
    None
}

/// Whether the step leads from a write to a read of what it wrote, and the two race.
fn is_raced_step(analysis: &Analysis<'_>, step: Step) -> bool
    ensures { result ≡ is_raced analysis.now.events step }
{
    is_written(step.reason) && is_race(analysis, step.from, step.to)
}

fn is_written(reason: Reason) -> bool
    ensures { result ≡ is_written reason }
{
    match reason {
        Reason::Written => true,
        Reason::Later => false,
        Reason::Forked => false,
        Reason::Joined => false,
        Reason::ForkJoined => false,
        Reason::Ended(_) => false,
    }
}
