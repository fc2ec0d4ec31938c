//! Prints the verdicts as text.
ghost use Rattle.std.specs.Prelude.{◌≡◌, OnErr, OnOk};
ghost use Rattle.rapid_text.specs.Appended.{Appended};
ghost use Rattle.race_triage.specs.Texts.{left_out_text};
ghost use Rattle.deadlock_report.specs.Counts.{AreCountsIn};
ghost use Rattle.deadlock_report.specs.Texts.{AppendsDeadlocks, counts_text, deadlocks_words, kind_blocks, kind_lines, left_out_lines, trace_lines, verdict_blocks};

use crate::blocks::append_block_if;
use crate::chosen::Chosen;
use crate::counts::{Counts, counts_of};
use crate::kinds::Kind;
use crate::pieces::append_count;
use deadlock_triage::{Deadlocks, Verdict};
use must_order::Analysis;
use rapid_text::OutOfMemory;

/// Appends the counts of all verdicts, and a block for each chosen one: deadlocks, then undecided patterns, and then
/// those that are apart. The last lines say how many known deadlocks are left out, and how many blocks the filters
/// leave out, if that is counted.
pub fn deadlocks_text(
    analysis: &Analysis<'_>,
    found: &Deadlocks,
    chosen: &Chosen,
    out: &mut Vec<u8>,
) -> Result<(), OutOfMemory>
    // The text is exactly the one for the trace, the verdicts and the chosen ones.
    ensures ok { OnOk result (AppendsDeadlocks analysis.now found.now chosen.now out.old out.new) }
    // If memory runs out, `out` stays as it was.
    ensures err { OnErr result (out.new.items ≡ out.old.items) }
{
    let counts = counts_of(analysis.indexed(), found);
    let mut text = Vec::new(*out.allocator());
    append_all(&mut text, analysis, &counts, chosen)?;
    out.extend_from_slice(&text)?;
    Ok(())
}

// Appends the counts, the blocks, and how many are left out.
fn append_all(
    out: &mut Vec<u8>,
    analysis: &Analysis<'_>,
    counts: &Counts,
    chosen: &Chosen,
) -> Result<(), OutOfMemory>
    ensures { Appended result out.old out.new (deadlocks_words analysis.now counts.now chosen.now) }
{
    append_counts(out, counts)?;
    append_verdicts(out, analysis, chosen.verdicts.as_slice())?;
    append_lines(out, chosen)?;
    Ok(())
}

// Appends the blocks: deadlocks, then undecided patterns, then patterns that are apart.
fn append_verdicts(
    out: &mut Vec<u8>,
    analysis: &Analysis<'_>,
    verdicts: &[Verdict],
) -> Result<(), OutOfMemory>
    ensures { Appended result out.old out.new (verdict_blocks analysis.now verdicts.now) }
{
    append_blocks(out, analysis, verdicts, Kind::Shown)?;
    append_blocks(out, analysis, verdicts, Kind::Open)?;
    append_blocks(out, analysis, verdicts, Kind::Never)?;
    Ok(())
}

// Appends how many known deadlocks are left out, and how many blocks the filters leave out.
fn append_lines(out: &mut Vec<u8>, chosen: &Chosen) -> Result<(), OutOfMemory>
    ensures { Appended result out.old out.new (left_out_lines chosen.now) }
{
    append_left_out(out, b"known", chosen.known)?;
    append_left_out(out, b"hidden", chosen.hidden)?;
    Ok(())
}

// Appends how many blocks are left out, if that is counted.
fn append_left_out(out: &mut Vec<u8>, word: &[u8], count: Option<u64>) -> Result<(), OutOfMemory>
    ensures { Appended result out.old out.new (left_out_text word.now count) }
{
    match count {
        Some(count) => append_count(out, word, count),
        None => Ok(()),
    }
}

// Appends the eight counts.
fn append_counts(out: &mut Vec<u8>, counts: &Counts) -> Result<(), OutOfMemory>
    ensures { Appended result out.old out.new (counts_text counts.now) }
{
    append_trace(out, counts)?;
    append_kinds(out, counts)?;
    Ok(())
}

// Appends the counts of events, threads, nested requests and patterns.
fn append_trace(out: &mut Vec<u8>, counts: &Counts) -> Result<(), OutOfMemory>
    ensures { Appended result out.old out.new (trace_lines counts.now) }
{
    append_count(out, b"events", counts.events)?;
    append_count(out, b"threads", counts.threads)?;
    append_count(out, b"nested", counts.nested)?;
    append_count(out, b"patterns", counts.patterns)?;
    Ok(())
}

// Appends the number of patterns of each kind, and which cycles were looked at.
fn append_kinds(out: &mut Vec<u8>, counts: &Counts) -> Result<(), OutOfMemory>
    ensures { Appended result out.old out.new (kind_lines counts.now) }
{
    append_count(out, b"deadlocks", counts.deadlocks)?;
    append_count(out, b"undecided", counts.undecided)?;
    append_count(out, b"apart", counts.apart)?;
    append_count(out, b"whole", counts.whole)?;
    Ok(())
}

// Appends the blocks of the verdicts of this kind.
fn append_blocks(
    out: &mut Vec<u8>,
    analysis: &Analysis<'_>,
    verdicts: &[Verdict],
    kind: Kind,
) -> Result<(), OutOfMemory>
    ensures { Appended result out.old out.new (kind_blocks analysis.now kind verdicts.now) }
{
    for verdict in verdicts {
        append_block_if(out, analysis, verdict, kind)?;
    }
    Ok(())
}
