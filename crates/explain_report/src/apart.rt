//! Prints why a pair is not a race, or why it is undecided.
ghost use Rattle.std.specs.Prelude.{◌<◌, ◌++◌, length, codes};
ghost use Rattle.explain_report.specs.Chains.{line_at};
ghost use Rattle.explain_report.specs.Sections.{IsSectionTold, section_text, until_text};
ghost use Rattle.explain_report.specs.Told.{IsForcedTold, IsGuardedTold, IsUndecidedTold};
ghost use Rattle.explain_report.specs.Verdicts.{forced_head, guarded_head, undecided_head};
ghost use Rattle.rapid_text.specs.Appended.{Appended, AppendedOne};

use crate::accesses::append_pair;
use crate::chains::append_chains;
use crate::event_lines::{append_line, append_lock, append_thread_of};
use crate::pieces::{append_number, append_words};
use crate::shb_order::append_shb_chain;
use event_index::Indexed;
use must_order::{Analysis, Chain};
use rapid_text::OutOfMemory;

/// Appends the line with which a forced pair begins.
pub(crate) fn append_forced_head(
    out: &mut Vec<u8>,
    first: u32,
    second: u32,
) -> Result<(), OutOfMemory>
    ensures { Appended result out.old out.new (forced_head first second) }
{
    append_words(out, b"apart: ")?;
    append_number(out, u64::from(first))?;
    append_words(out, b" comes before ")?;
    append_number(out, u64::from(second))?;
    append_words(out, b" in every correct reordering\n")?;
    Ok(())
}

/// Appends the text of a forced pair: its first line, the two events, and the chains.
pub(crate) fn append_forced(
    out: &mut Vec<u8>,
    analysis: &Analysis<'_>,
    chains: &[Chain],
    pair: (u32, u32),
) -> Result<(), OutOfMemory>
    ensures { AppendedOne result out.old out.new (IsForcedTold analysis.now chains.now pair.0 pair.1) }
{
    append_forced_head(out, pair.0, pair.1)?;
    append_pair(out, analysis, pair.0, pair.1)?;
    append_words(out, b"since\n")?;
    append_chains(out, analysis, chains)
}

/// Appends the line with which a guarded pair begins.
pub(crate) fn append_guarded_head(
    out: &mut Vec<u8>,
    indexed: &Indexed,
    lock: u32,
) -> Result<(), OutOfMemory>
    ensures { Appended result out.old out.new (guarded_head indexed.now lock) }
{
    append_words(out, b"apart: both threads hold ")?;
    append_lock(out, indexed, lock)?;
    append_words(out, b"\n")?;
    Ok(())
}

/// Appends the text of a guarded pair: its first line, the two events, and the section of the lock for each.
pub(crate) fn append_guarded(
    out: &mut Vec<u8>,
    analysis: &Analysis<'_>,
    lock: u32,
    pair: (u32, u32),
) -> Result<(), OutOfMemory>
    ensures { AppendedOne result out.old out.new (IsGuardedTold analysis.now lock pair.0 pair.1) }
{
    append_guarded_head(out, analysis.indexed(), lock)?;
    append_pair(out, analysis, pair.0, pair.1)?;
    append_section(out, analysis, lock, pair.0)?;
    append_section(out, analysis, lock, pair.1)
}

/// Appends the section of the lock that the event is in, if there is one.
fn append_section(
    out: &mut Vec<u8>,
    analysis: &Analysis<'_>,
    lock: u32,
    event: u32,
) -> Result<(), OutOfMemory>
    ensures { AppendedOne result out.old out.new (IsSectionTold analysis.now event lock) }
{
    let indexed = analysis.indexed();
    if lock >= indexed.locks() {
        return Ok(());
    }
    if event >= indexed.len() {
        return Ok(());
    }
    match analysis.held_since(event, lock) {
        Some(acquire) => append_held(out, indexed, event, acquire),
        None => Ok(()),
    }
}

/// Appends that the event's thread holds a lock since this acquire, and until which event.
fn append_held(
    out: &mut Vec<u8>,
    indexed: &Indexed,
    event: u32,
    acquire: u32,
) -> Result<(), OutOfMemory>
    requires { acquire < length indexed.now.events }
    ensures { Appended result out.old out.new (section_text indexed.now event acquire) }
{
    append_thread_of(out, indexed, event)?;
    append_words(out, b" holds it from ")?;
    append_line(out, indexed, acquire)?;
    append_until(out, indexed, indexed.section(acquire))
}

/// Appends the end of a section, or that it lasts to the end.
fn append_until(
    out: &mut Vec<u8>,
    indexed: &Indexed,
    release: Option<u32>,
) -> Result<(), OutOfMemory>
    ensures { Appended result out.old out.new (until_text indexed.now release) }
{
    match release {
        Some(event) => append_release(out, indexed, event),
        None => append_words(out, b"  to the end\n"),
    }
}

fn append_release(out: &mut Vec<u8>, indexed: &Indexed, event: u32) -> Result<(), OutOfMemory>
    ensures { Appended result out.old out.new (codes "  to " ++ line_at indexed.now event) }
{
    append_words(out, b"  to ")?;
    append_line(out, indexed, event)?;
    Ok(())
}

/// Appends the line with which an undecided pair begins.
pub(crate) fn append_undecided_head(out: &mut Vec<u8>) -> Result<(), OutOfMemory>
    ensures { Appended result out.old out.new undecided_head }
{
    append_words(
        out,
        b"undecided: no schedule was found, and neither order nor lock forbids one\n",
    )
}

/// Appends the text of an undecided pair: its first line, the two events, and the events by which SHB orders it.
pub(crate) fn append_undecided(
    out: &mut Vec<u8>,
    analysis: &Analysis<'_>,
    events: &[u32],
    pair: (u32, u32),
) -> Result<(), OutOfMemory>
    ensures { AppendedOne result out.old out.new (IsUndecidedTold analysis.now pair.0 pair.1) }
{
    append_undecided_head(out)?;
    append_pair(out, analysis, pair.0, pair.1)?;
    append_words(out, b"in SHB\n")?;
    append_shb_chain(out, analysis, events)?;
    Ok(())
}
