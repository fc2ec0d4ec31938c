//! The lines of all verdicts.
ghost use Rattle.std.specs.Prelude.{◌≡◌, OnErr};
ghost use Rattle.rapid_text.specs.Appended.{Appended};
ghost use Rattle.triage_report.specs.Appending.{AppendedText};
ghost use Rattle.triage_report.specs.lines.Lines.{all_lines, IsLinesText};

use crate::folder::Folder;
use crate::lines::blocks::append_verdict;
use must_order::Analysis;
use race_triage::{Chosen, Verdict};
use rapid_text::OutOfMemory;

/// Appends the lines of the chosen verdicts, in order (docs/FORMATS.md, "Lines for editors"). Each has a line
/// `FILE:LINE: KIND: TEXT` at its later access, and then notes in the same form. If exactly one file in the folder fits
/// a FILE, the lines have its path from the folder. If memory runs out, `out` stays as it was.
pub fn triage_lines(
    analysis: &Analysis<'_>,
    chosen: &Chosen,
    folder: &Folder,
    out: &mut Vec<u8>,
) -> Result<(), OutOfMemory>
    // The text is determined by the trace, the chosen verdicts and the folder.
    ensures ok { AppendedText result out.old out.new (IsLinesText analysis.now folder.now chosen.now) }
    ensures err { OnErr result (out.new.items ≡ out.old.items) }
{
    let mut text = Vec::new(*out.allocator());
    append_all(&mut text, analysis, folder, chosen.verdicts.as_slice())?;
    out.extend_from_slice(text.as_slice())?;
    Ok(())
}

/// Appends the lines of each of the verdicts.
fn append_all(
    out: &mut Vec<u8>,
    analysis: &Analysis<'_>,
    folder: &Folder,
    verdicts: &[Verdict],
) -> Result<(), OutOfMemory>
    ensures { Appended result out.old out.new (all_lines analysis.now folder.now verdicts.now) }
{
    for verdict in verdicts {
        append_verdict(out, analysis, folder, verdict)?;
    }
    Ok(())
}
