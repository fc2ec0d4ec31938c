//! The report as objects of JSON, a line each.
ghost use Rattle.std.specs.Prelude.{◌≡◌, OnErr, false};
ghost use Rattle.rapid_text.specs.Appended.{Appended};
ghost use Rattle.serde_json.specs.View.{view};
ghost use Rattle.serde_json.specs.Written.{has_float};
ghost use Rattle.triage_report.specs.Appending.{AppendedText};
ghost use Rattle.triage_report.specs.json.Lines.{json_line, left_out_line, triage_lines, verdict_lines, IsJsonOf};
ghost use Rattle.triage_report.specs.json.Objects.{counts_object, verdict_object};

use crate::json::objects::{counts_of, left_out_of, verdict_of};
use must_order::Analysis;
use race_triage::{Chosen, Totals, Verdict, Verdicts};
use rapid_text::OutOfMemory;
use serde_json::Value;

/// Appends the report that `triage_text` prints, as JSON (docs/FORMATS.md, "The races of a trace"). Each line is an
/// object: first the counts, and then one for each chosen verdict, in order. Last come objects that count what was left
/// out. If memory runs out, `out` stays as it was.
pub fn triage_json(
    analysis: &Analysis<'_>,
    found: &Verdicts,
    chosen: &Chosen,
    out: &mut Vec<u8>,
) -> Result<(), OutOfMemory>
    // The text is determined by the trace, the counts of all verdicts, and the chosen verdicts.
    ensures ok { AppendedText result out.old out.new (IsJsonOf analysis.now found.now chosen.now) }
    ensures err { OnErr result (out.new.items ≡ out.old.items) }
{
    let mut text = Vec::new(*out.allocator());
    append_all(
        &mut text,
        analysis,
        &found.totals(analysis.indexed()),
        chosen,
    )?;
    out.extend_from_slice(text.as_slice())?;
    Ok(())
}

/// Appends the lines of the counts, of the chosen verdicts, and of how many were left out.
fn append_all(
    out: &mut Vec<u8>,
    analysis: &Analysis<'_>,
    totals: &Totals,
    chosen: &Chosen,
) -> Result<(), OutOfMemory>
    ensures { Appended result out.old out.new (triage_lines analysis.now totals.now chosen.now) }
{
    append_counts(out, totals)?;
    append_verdicts(out, analysis, chosen.verdicts.as_slice())?;
    append_left_out(out, "known", chosen.known)?;
    append_left_out(out, "hidden", chosen.hidden)?;
    Ok(())
}

/// Appends the line of the counts.
fn append_counts(out: &mut Vec<u8>, totals: &Totals) -> Result<(), OutOfMemory>
    ensures { Appended result out.old out.new (json_line (counts_object totals.now)) }
{
    let object = counts_of(*out.allocator(), totals)?;
    append_line(out, &object)
}

/// Appends a line for each of the verdicts.
fn append_verdicts(
    out: &mut Vec<u8>,
    analysis: &Analysis<'_>,
    verdicts: &[Verdict],
) -> Result<(), OutOfMemory>
    ensures { Appended result out.old out.new (verdict_lines analysis.now verdicts.now) }
{
    for verdict in verdicts {
        append_verdict(out, analysis, verdict)?;
    }
    Ok(())
}

/// Appends the line of a verdict.
fn append_verdict(
    out: &mut Vec<u8>,
    analysis: &Analysis<'_>,
    verdict: &Verdict,
) -> Result<(), OutOfMemory>
    ensures { Appended result out.old out.new (json_line (verdict_object analysis.now verdict.now)) }
{
    let object = verdict_of(*out.allocator(), analysis, verdict)?;
    append_line(out, &object)
}

/// Appends a line with how many verdicts were left out, if there is a number. If memory runs out, part of the line may be
/// there. `kind` is `known` or `hidden`.
pub fn append_left_out(out: &mut Vec<u8>, kind: &str, count: Option<u64>) -> Result<(), OutOfMemory>
    ensures { Appended result out.old out.new (left_out_line kind.now count) }
{
    match count {
        Some(count) => {
            let object = left_out_of(*out.allocator(), kind, count)?;
            append_line(out, &object)
        }
        None => Ok(()),
    }
}

/// Appends the text of an object, and a line end. The object must have no fraction in it. If memory runs out, part of the
/// text may be there.
pub fn append_line(out: &mut Vec<u8>, object: &Value) -> Result<(), OutOfMemory>
    requires { has_float (view object.now) ≡ false }
    ensures { Appended result out.old out.new (json_line (view object.now)) }
{
    let text = object.to_vec(*out.allocator())?;
    out.extend_from_slice(text.as_slice())?;
    out.push(b'\n')?;
    Ok(())
}
