//! The page of a merged report: a row for each pair of locations, with what the parts say of it.
ghost use Rattle.std.specs.Prelude.{◌≡◌, IfOk, OnErr, take};
ghost use Rattle.std.specs.List.{filter};
ghost use Rattle.race_page.specs.Heads.{top_text};
ghost use Rattle.race_page.specs.Merged.{apart_section, has_rank, heading_of, kept_text, lead_text, left_text, merged_text, none_text, opening_text, rank_section, section_text, words_text};
ghost use Rattle.race_page.specs.declared.style.TheConstants.{TOP};
ghost use Rattle.rapid_text.specs.Appended.{Appended};

use crate::marks::{Mark, append_marks};
use crate::merged_head::{LeftOut, append_begin};
use crate::merged_rows::append_rows;
use crate::rows::MOST_ROWS;
use race_parts::Pair;
use rapid_text::OutOfMemory;
use std::alloc::Global;

/// What comes at the end of the page.
const END: &[u8] = b"<section>
<h2>What the words mean</h2>
<p>A part is the report of one trace, or of one window that <code>triage --windows</code> cuts from a trace. Events have
their numbers in that trace, and not in the window.</p>
<p>Race: a schedule of the part, a correct reordering of its trace, brings the two accesses next to each other. The row
is that of the part with the shortest schedule.</p>
<p>Undecided: no part has a schedule for the pair, and the search of one was not complete.</p>
<p>Apart: no correct reordering of the trace of a part that met the pair brings the two next to each other.</p>
<p>If the part is a window, <code>racebench cut</code> and the name of the part print the window as a trace.</p>
</section>
</main>
</body>
</html>
";

/// Appends a page (HTML) of a merged report of `parts` parts. Its first line says how many races there are in how many
/// parts, and what was left out.
///
/// Then there is a row for each race and for each pair of locations that is undecided. If `apart` is true, there is one
/// also for each that is apart. Each sort has at most 2,000 rows, in the order of `pairs`. If memory runs out, `out`
/// stays as it was.
pub fn merged_page(
    parts: usize,
    pairs: &[Pair<'_>],
    apart: bool,
    left: LeftOut,
    out: &mut Vec<u8>,
) -> Result<(), OutOfMemory>
    ensures ok { Appended result out.old out.new (merged_text parts pairs.now apart left) }
    ensures err { OnErr result (out.new.items ≡ out.old.items) }
    // The head of each page has the policy `default-src 'none'`: a page fetches nothing and runs nothing.
    ensures policy { TOP.now ≡ top_text }
    ensures words { END.now ≡ words_text }
{
    let mut text = Vec::new(*out.allocator());
    append_page(&mut text, parts, pairs, apart, left)?;
    out.extend_from_slice(text.as_slice())?;
    Ok(())
}

/// Appends the page.
fn append_page(
    out: &mut Vec<u8>,
    parts: usize,
    pairs: &[Pair<'_>],
    apart: bool,
    left: LeftOut,
) -> Result<(), OutOfMemory>
    ensures { Appended result out.old out.new (merged_text parts pairs.now apart left) }
{
    append_races_of(out, parts, pairs, left)?;
    append_rank(out, parts, pairs, 1)?;
    append_apart(out, parts, pairs, apart)?;
    append_marks(out, &[Mark::Own(END)])
}

/// Appends the beginning of the page, and the section of the races.
fn append_races_of(
    out: &mut Vec<u8>,
    parts: usize,
    pairs: &[Pair<'_>],
    left: LeftOut,
) -> Result<(), OutOfMemory>
    ensures { Appended result out.old out.new (lead_text parts (filter (has_rank 0) pairs.now) left) }
{
    let races = of_rank(*out.allocator(), pairs, 0)?;
    append_lead(out, parts, races.as_slice(), left)
}

/// Appends the beginning of the page, and a section of the races.
#[tactic(auto, unfolding(crate::specs::Merged::lead_text))]
fn append_lead(
    out: &mut Vec<u8>,
    parts: usize,
    races: &[Pair<'_>],
    left: LeftOut,
) -> Result<(), OutOfMemory>
    ensures { Appended result out.old out.new (lead_text parts races.now left) }
{
    append_begin(out, races.len() as u64, parts as u64, left)?;
    append_section(out, parts, races, 0)
}

/// Appends the section of what is apart, if it was requested.
fn append_apart(
    out: &mut Vec<u8>,
    parts: usize,
    pairs: &[Pair<'_>],
    apart: bool,
) -> Result<(), OutOfMemory>
    ensures { Appended result out.old out.new (apart_section apart parts pairs.now) }
{
    if apart {
        append_rank(out, parts, pairs, 2)
    } else {
        Ok(())
    }
}

/// Appends the section of the pairs with this rank.
fn append_rank(
    out: &mut Vec<u8>,
    parts: usize,
    pairs: &[Pair<'_>],
    rank: u8,
) -> Result<(), OutOfMemory>
    ensures { Appended result out.old out.new (rank_section rank parts pairs.now) }
{
    let kept = of_rank(*out.allocator(), pairs, rank)?;
    append_section(out, parts, kept.as_slice(), rank)
}

/// The pairs with this rank, in their order.
fn of_rank<'a>(alloc: Global, pairs: &[Pair<'a>], rank: u8) -> Result<Vec<Pair<'a>>, OutOfMemory>
    ensures { IfOk result (λ kept. kept.items ≡ filter (has_rank rank) pairs.now) }
{
    let mut kept = Vec::new(alloc);
    for pair in pairs {
        if pair.rank == rank {
            kept.push(*pair)?;
        }
    }
    Ok(kept)
}

/// Appends the section of the pairs of a rank.
#[tactic(auto, unfolding(crate::specs::Merged::section_text))]
fn append_section(
    out: &mut Vec<u8>,
    parts: usize,
    kept: &[Pair<'_>],
    rank: u8,
) -> Result<(), OutOfMemory>
    ensures { Appended result out.old out.new (section_text rank parts kept.now) }
{
    append_opening(out, rank)?;
    append_kept(out, parts, kept)?;
    append_marks(out, &[Mark::Own(b"</section>\n")])
}

/// Appends the beginning of the section for this rank.
fn append_opening(out: &mut Vec<u8>, rank: u8) -> Result<(), OutOfMemory>
    ensures { Appended result out.old out.new (opening_text rank) }
{
    append_marks(
        out,
        &[
            Mark::Own(b"<section>\n<h2>"),
            Mark::Own(heading_of(rank)),
            Mark::Own(b"</h2>\n"),
        ],
    )
}

/// The heading for a rank: 0 is a race, 1 is undecided, and any other is apart.
fn heading_of(rank: u8) -> &'static [u8]
    ensures { result.now ≡ heading_of rank }
{
    match rank {
        0 => b"Races",
        1 => b"Undecided",
        _ => b"Apart",
    }
}

/// Appends the rows of the first 2,000 pairs, and how many more there are.
#[tactic(auto, unfolding(crate::specs::Merged::kept_text))]
fn append_kept(out: &mut Vec<u8>, parts: usize, kept: &[Pair<'_>]) -> Result<(), OutOfMemory>
    ensures { Appended result out.old out.new (kept_text parts kept.now) }
{
    append_none(out, kept)?;
    append_rows(out, parts, first_of(kept))?;
    append_left(out, kept.len())
}

/// Appends `None.` if there are no pairs.
fn append_none(out: &mut Vec<u8>, kept: &[Pair<'_>]) -> Result<(), OutOfMemory>
    ensures { Appended result out.old out.new (none_text kept.now) }
{
    if kept.is_empty() {
        append_marks(out, &[Mark::Own(b"<p>None.</p>\n")])
    } else {
        Ok(())
    }
}

/// The pairs that have a row: the first 2,000.
fn first_of<'a, 'b>(kept: &'a [Pair<'b>]) -> &'a [Pair<'b>]
    ensures { result.now ≡ take 2000 kept.now }
{
    &kept[..MOST_ROWS.min(kept.len())]
}

/// Appends how many of `count` pairs have no row, if there are more than 2,000.
fn append_left(out: &mut Vec<u8>, count: usize) -> Result<(), OutOfMemory>
    ensures { Appended result out.old out.new (left_text count) }
{
    if count > MOST_ROWS {
        append_marks(
            out,
            &[
                Mark::Own(b"<p>Left out here: "),
                Mark::Number((count - MOST_ROWS) as u64),
                Mark::Own(b". Without --page, racebench prints all of them as text.</p>\n"),
            ],
        )
    } else {
        Ok(())
    }
}
