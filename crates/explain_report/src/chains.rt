//! Prints chains of steps from event to event.
ghost use Rattle.std.specs.Prelude.{◌≡◌, ◌++◌, Some, None, IfOk};
ghost use Rattle.explain_report.specs.Causes.{AreTold};
ghost use Rattle.explain_report.specs.Chains.{GoesTo, chain_text, ended_text, is_later, later_text, reason_text, step_text, steps_text};
ghost use Rattle.must_order.specs.declared.chains.Reason.TheVariants.{Written};
ghost use Rattle.rapid_text.specs.Appended.{Appended, AppendedOne};

use crate::causes::{append_causes, waiting_for};
use crate::event_lines::{append_line, append_lock_of};
use crate::pieces::{append_indent, append_words};
use crate::raced::append_race_note;
use event_index::Indexed;
use must_order::{Analysis, Chain, Reason, Step};
use rapid_text::OutOfMemory;

/// Appends the first chain, and below it the chains that show why a section began before another. Each such chain is
/// printed once, one step deeper than the chain that needs it.
pub(crate) fn append_chains(
    out: &mut Vec<u8>,
    analysis: &Analysis<'_>,
    chains: &[Chain],
) -> Result<(), OutOfMemory>
    ensures { AppendedOne result out.old out.new (AreTold analysis.now chains.now) }
{
    let Some(chain) = chains.first() else {
        return Ok(());
    };
    append_chain(out, analysis, chain, 0)?;
    let alloc = *out.allocator();
    match waiting_for(alloc, chains, chain.steps.as_slice()) {
        Ok(mut waiting) => append_causes(out, analysis, chains, &mut waiting),
        Err(refused) => Err(refused),
    }
}

/// Appends a chain at this depth: the event where it begins, and its steps.
pub(crate) fn append_chain(
    out: &mut Vec<u8>,
    analysis: &Analysis<'_>,
    chain: &Chain,
    depth: u32,
) -> Result<(), OutOfMemory>
    ensures { Appended result out.old out.new (chain_text analysis.now depth chain.now) }
{
    append_indent(out, depth)?;
    append_line(out, analysis.indexed(), chain.first)?;
    append_steps(out, analysis, chain.steps.as_slice(), depth)?;
    Ok(())
}

/// Appends the steps. Steps along one thread are printed as one.
fn append_steps(
    out: &mut Vec<u8>,
    analysis: &Analysis<'_>,
    steps: &[Step],
    depth: u32,
) -> Result<(), OutOfMemory>
    ensures { Appended result out.old out.new (steps_text analysis.now depth None steps.now) }
{
    let mut later = None;
    for step in steps {
        later = append_next(out, analysis, later, *step, depth)?;
    }
    append_later(out, analysis.indexed(), later, depth)?;
    Ok(())
}

/// Appends a step, after the steps along one thread that wait to be printed. A step along the thread waits itself.
/// Returns the event to which the waiting steps lead.
fn append_next(
    out: &mut Vec<u8>,
    analysis: &Analysis<'_>,
    later: Option<u32>,
    step: Step,
    depth: u32,
) -> Result<Option<u32>, OutOfMemory>
    ensures { IfOk result (GoesTo analysis.now depth later step out.old.items out.new.items) }
{
    if is_later(step.reason) {
        return Ok(Some(step.to));
    }
    append_later(out, analysis.indexed(), later, depth)?;
    append_step(out, analysis, step, depth)?;
    Ok(None)
}

fn is_later(reason: Reason) -> bool
    ensures { result ≡ is_later reason }
{
    match reason {
        Reason::Later => true,
        Reason::Forked => false,
        Reason::Written => false,
        Reason::Joined => false,
        Reason::ForkJoined => false,
        Reason::Ended(_) => false,
    }
}

/// Appends the later event of the thread, if steps wait.
pub(crate) fn append_later(
    out: &mut Vec<u8>,
    indexed: &Indexed,
    later: Option<u32>,
    depth: u32,
) -> Result<(), OutOfMemory>
    ensures { Appended result out.old out.new (later_text indexed.now depth later) }
{
    match later {
        Some(event) => append_later_line(out, indexed, event, depth),
        None => Ok(()),
    }
}

fn append_later_line(
    out: &mut Vec<u8>,
    indexed: &Indexed,
    event: u32,
    depth: u32,
) -> Result<(), OutOfMemory>
    ensures { Appended result out.old out.new (later_text indexed.now depth (Some event)) }
{
    append_indent(out, depth)?;
    append_words(out, b"  and later in its thread\n")?;
    append_indent(out, depth)?;
    append_line(out, indexed, event)
}

/// Appends the reason of the step, and the event to which it leads.
fn append_step(
    out: &mut Vec<u8>,
    analysis: &Analysis<'_>,
    step: Step,
    depth: u32,
) -> Result<(), OutOfMemory>
    ensures { Appended result out.old out.new (step_text analysis.now depth step) }
{
    append_indent(out, depth)?;
    append_reason(out, analysis, step)?;
    append_indent(out, depth)?;
    append_line(out, analysis.indexed(), step.to)
}

/// Appends the reason of the step. For a read that races with the write that it reads, adds a note.
fn append_reason(out: &mut Vec<u8>, analysis: &Analysis<'_>, step: Step) -> Result<(), OutOfMemory>
    ensures { Appended result out.old out.new (reason_text analysis.now step.from step.to step.reason) }
{
    match step.reason {
        Reason::Later => append_words(out, b"  and later in its thread\n"),
        Reason::Forked => append_words(out, b"  begins the thread of\n"),
        Reason::Written => append_written(out, analysis, step.from, step.to),
        Reason::Joined => append_words(out, b"  ends the thread that is joined by\n"),
        Reason::ForkJoined => append_words(out, b"  forks the thread that is joined by\n"),
        Reason::Ended(acquire) => append_ended(out, analysis.indexed(), acquire),
    }
}

/// Appends that the second event reads what the first wrote, and a note if the two race.
pub(crate) fn append_written(
    out: &mut Vec<u8>,
    analysis: &Analysis<'_>,
    first: u32,
    second: u32,
) -> Result<(), OutOfMemory>
    ensures { Appended result out.old out.new (reason_text analysis.now first second Written) }
{
    append_words(out, b"  is read by")?;
    append_race_note(out, analysis, first, second)?;
    append_words(out, b"\n")?;
    Ok(())
}

/// Appends that a section ends of the lock that the event `acquire` acquires.
fn append_ended(out: &mut Vec<u8>, indexed: &Indexed, acquire: u32) -> Result<(), OutOfMemory>
    ensures { Appended result out.old out.new (ended_text indexed.now acquire) }
{
    append_words(out, b"  ends a section of ")?;
    append_lock_of(out, indexed, acquire)?;
    append_words(out, b" that comes before the one of\n")?;
    Ok(())
}
