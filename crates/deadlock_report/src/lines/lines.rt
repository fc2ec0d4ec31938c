//! The lines of all verdicts.
ghost use Rattle.std.specs.Prelude.{◌≡◌, OnErr};
ghost use Rattle.rapid_text.specs.Appended.{Appended};
ghost use Rattle.deadlock_report.specs.lines.Lines.{all_lines, kind_lines, lines_if};

use crate::chosen::Chosen;
use crate::kinds::{Kind, belongs};
use crate::lines::blocks::append_verdict;
use deadlock_triage::Verdict;
use must_order::Analysis;
use rapid_text::OutOfMemory;
use triage_report::folder::Folder;

/// Appends the lines of the chosen verdicts (docs/formats/deadlocks.md): deadlocks, then undecided patterns, and then
/// those that are apart. Each has a line `FILE:LINE: KIND: TEXT` at its later request, and then notes in the same form.
/// If exactly one file in the folder fits a FILE, the lines have its path from the folder. If memory runs out, `out`
/// stays as it was.
pub fn deadlocks_lines(
    analysis: &Analysis<'_>,
    chosen: &Chosen,
    folder: &Folder,
    out: &mut Vec<u8>,
) -> Result<(), OutOfMemory>
    // The lines are exactly those for the trace, the chosen verdicts and the folder.
    ensures ok { Appended result out.old out.new (all_lines analysis.now folder.now chosen.now.verdicts.items) }
    ensures err { OnErr result (out.new.items ≡ out.old.items) }
{
    let mut text = Vec::new(*out.allocator());
    append_all(&mut text, analysis, folder, chosen.verdicts.as_slice())?;
    out.extend_from_slice(text.as_slice())?;
    Ok(())
}

// Appends the lines of the verdicts: deadlocks, then undecided patterns, then patterns that are apart.
fn append_all(
    out: &mut Vec<u8>,
    analysis: &Analysis<'_>,
    folder: &Folder,
    verdicts: &[Verdict],
) -> Result<(), OutOfMemory>
    ensures { Appended result out.old out.new (all_lines analysis.now folder.now verdicts.now) }
{
    append_kind(out, analysis, folder, verdicts, Kind::Shown)?;
    append_kind(out, analysis, folder, verdicts, Kind::Open)?;
    append_kind(out, analysis, folder, verdicts, Kind::Never)?;
    Ok(())
}

// Appends the lines of the verdicts of this kind.
fn append_kind(
    out: &mut Vec<u8>,
    analysis: &Analysis<'_>,
    folder: &Folder,
    verdicts: &[Verdict],
    kind: Kind,
) -> Result<(), OutOfMemory>
    ensures { Appended result out.old out.new (kind_lines analysis.now folder.now kind verdicts.now) }
{
    for verdict in verdicts {
        append_if(out, analysis, folder, verdict, kind)?;
    }
    Ok(())
}

// Appends the lines of a verdict if it is of this kind.
fn append_if(
    out: &mut Vec<u8>,
    analysis: &Analysis<'_>,
    folder: &Folder,
    verdict: &Verdict,
    kind: Kind,
) -> Result<(), OutOfMemory>
    ensures { Appended result out.old out.new (lines_if analysis.now folder.now kind verdict.now) }
{
    if belongs(verdict, kind) {
        append_verdict(out, analysis, folder, verdict)
    } else {
        Ok(())
    }
}
