//! In how many parts a pair of a merged page is a race, undecided, apart, or not met.
ghost use Rattle.std.specs.Prelude.{◌≡◌, ◌-◌};
ghost use Rattle.race_page.specs.MergedTally.{counts_text, part_text, tally_text, unmet_of, unmet_text};
ghost use Rattle.rapid_text.specs.Appended.{Appended};

use crate::marks::{Mark, append_marks};
use race_parts::Pair;
use rapid_text::OutOfMemory;

/// Appends in how many parts the pair is a race, undecided, apart, or not met, and which part has the row.
pub(crate) fn append_tally(
    out: &mut Vec<u8>,
    parts: usize,
    pair: Pair<'_>,
) -> Result<(), OutOfMemory>
    ensures { Appended result out.old out.new (tally_text parts pair.entry) }
{
    append_counts(out, pair)?;
    append_unmet_of(out, parts, pair)?;
    append_part(out, pair.part)
}

/// Appends in how many of `parts` parts the pair is not met.
fn append_unmet_of(out: &mut Vec<u8>, parts: usize, pair: Pair<'_>) -> Result<(), OutOfMemory>
    ensures { Appended result out.old out.new (unmet_of parts pair.entry) }
{
    append_unmet(out, unmet_in(parts, pair))
}

/// Appends in how many parts the pair is a race, undecided, or apart.
fn append_counts(out: &mut Vec<u8>, pair: Pair<'_>) -> Result<(), OutOfMemory>
    ensures { Appended result out.old out.new (counts_text pair.entry) }
{
    append_marks(
        out,
        &[
            Mark::Own(b"<h4>In the parts</h4>\n<p>Race: "),
            Mark::Number(pair.races as u64),
            Mark::Own(b", undecided: "),
            Mark::Number(pair.undecided as u64),
            Mark::Own(b", apart: "),
            Mark::Number(pair.apart as u64),
        ],
    )
}

/// In how many of `parts` parts the pair is not met.
fn unmet_in(parts: usize, pair: Pair<'_>) -> usize
    ensures { result ≡ parts - pair.entry.races - pair.entry.undecided - pair.entry.apart }
{
    parts
        .saturating_sub(pair.races)
        .saturating_sub(pair.undecided)
        .saturating_sub(pair.apart)
}

/// Appends in how many parts a pair is not met.
fn append_unmet(out: &mut Vec<u8>, unmet: usize) -> Result<(), OutOfMemory>
    ensures { Appended result out.old out.new (unmet_text unmet) }
{
    append_marks(
        out,
        &[
            Mark::Own(b", not met: "),
            Mark::Number(unmet as u64),
            Mark::Own(b".</p>\n"),
        ],
    )
}

/// Appends the name of the part that has the row, and ends the row.
fn append_part(out: &mut Vec<u8>, name: &[u8]) -> Result<(), OutOfMemory>
    ensures { Appended result out.old out.new (part_text name.now) }
{
    append_marks(
        out,
        &[
            Mark::Own(b"<p>This row is of the part <bdi>"),
            Mark::Text(name),
            Mark::Own(b"</bdi>.</p>\n</details>\n"),
        ],
    )
}
