//! The verdicts as objects of JSON, a line each.
ghost use Rattle.std.specs.Prelude.{◌≡◌, OnErr};
ghost use Rattle.rapid_text.specs.Appended.{Appended};
ghost use Rattle.triage_report.specs.Appending.{AppendedText};
ghost use Rattle.triage_report.specs.json.Lines.{json_line};
ghost use Rattle.deadlock_report.specs.json.Lines.{deadlocks_lines, kind_lines, line_if, verdict_lines, IsDeadlocksJson};
ghost use Rattle.deadlock_report.specs.json.Objects.{counts_object, verdict_object};

use crate::chosen::Chosen;
use crate::counts::{Counts, counts_of};
use crate::json::objects::{object_of_counts, object_of_verdict};
use crate::kinds::{Kind, belongs};
use deadlock_triage::{Deadlocks, Verdict};
use must_order::Analysis;
use rapid_text::OutOfMemory;
use triage_report::json::{append_left_out, append_line};

/// Appends what `deadlocks_text` prints, as JSON (docs/formats/deadlocks.md). Each line is an object: first the counts,
/// and then one for each chosen verdict: deadlocks, then undecided patterns, and then those that are apart. Last come
/// objects that count what was left out. If memory runs out, `out` stays as it was.
pub fn deadlocks_json(
    analysis: &Analysis<'_>,
    found: &Deadlocks,
    chosen: &Chosen,
    out: &mut Vec<u8>,
) -> Result<(), OutOfMemory>
    // The objects are exactly those for the trace, the verdicts and the chosen ones.
    ensures ok { AppendedText result out.old out.new (IsDeadlocksJson analysis.now found.now chosen.now) }
    ensures err { OnErr result (out.new.items ≡ out.old.items) }
{
    let counts = counts_of(analysis.indexed(), found);
    let mut text = Vec::new(*out.allocator());
    append_all(&mut text, analysis, &counts, chosen)?;
    out.extend_from_slice(text.as_slice())?;
    Ok(())
}

// Appends the lines of the counts, of the chosen verdicts, and of how many were left out.
fn append_all(
    out: &mut Vec<u8>,
    analysis: &Analysis<'_>,
    counts: &Counts,
    chosen: &Chosen,
) -> Result<(), OutOfMemory>
    ensures { Appended result out.old out.new (deadlocks_lines analysis.now counts.now chosen.now) }
{
    append_counts(out, counts)?;
    append_verdicts(out, analysis, chosen.verdicts.as_slice())?;
    append_left_out(out, "known", chosen.known)?;
    append_left_out(out, "hidden", chosen.hidden)?;
    Ok(())
}

// Appends the line of the counts.
fn append_counts(out: &mut Vec<u8>, counts: &Counts) -> Result<(), OutOfMemory>
    ensures { Appended result out.old out.new (json_line (counts_object counts.now)) }
{
    let object = object_of_counts(*out.allocator(), counts)?;
    append_line(out, &object)
}

// Appends a line for each verdict: deadlocks, then undecided patterns, then patterns that are apart.
fn append_verdicts(
    out: &mut Vec<u8>,
    analysis: &Analysis<'_>,
    verdicts: &[Verdict],
) -> Result<(), OutOfMemory>
    ensures { Appended result out.old out.new (verdict_lines analysis.now verdicts.now) }
{
    append_kind(out, analysis, verdicts, Kind::Shown)?;
    append_kind(out, analysis, verdicts, Kind::Open)?;
    append_kind(out, analysis, verdicts, Kind::Never)?;
    Ok(())
}

// Appends a line for each verdict of this kind.
fn append_kind(
    out: &mut Vec<u8>,
    analysis: &Analysis<'_>,
    verdicts: &[Verdict],
    kind: Kind,
) -> Result<(), OutOfMemory>
    ensures { Appended result out.old out.new (kind_lines analysis.now kind verdicts.now) }
{
    for verdict in verdicts {
        append_if(out, analysis, verdict, kind)?;
    }
    Ok(())
}

// Appends the line of a verdict if it is of this kind.
fn append_if(
    out: &mut Vec<u8>,
    analysis: &Analysis<'_>,
    verdict: &Verdict,
    kind: Kind,
) -> Result<(), OutOfMemory>
    ensures { Appended result out.old out.new (line_if analysis.now kind verdict.now) }
{
    if belongs(verdict, kind) {
        append_verdict(out, analysis, verdict)
    } else {
        Ok(())
    }
}

// Appends the line of a verdict.
fn append_verdict(
    out: &mut Vec<u8>,
    analysis: &Analysis<'_>,
    verdict: &Verdict,
) -> Result<(), OutOfMemory>
    ensures { Appended result out.old out.new (json_line (verdict_object analysis.now verdict.now)) }
{
    let object = object_of_verdict(*out.allocator(), analysis, verdict)?;
    append_line(out, &object)
}
