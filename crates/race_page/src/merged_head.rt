//! The beginning of a merged page: how many races there are, and how many pairs of locations were left out.
ghost use Rattle.race_page.specs.Heads.{hidden_text, known_text, left_text};
ghost use Rattle.race_page.specs.MergedHead.{first_text, head_text, merged_begin, parts_text, title_text};
ghost use Rattle.rapid_text.specs.Appended.{Appended};

use crate::heading::append_races;
use crate::marks::{Mark, append_marks};
use crate::style::{BODY, TOP};
use rapid_text::OutOfMemory;

/// How many pairs of locations were left out of a report.
#[derive(Clone, Copy)]
pub struct LeftOut {
    /// How many were left out as known races. None if neither known races nor a triage file were given.
    pub known: Option<u64>,
    /// How many the filters left out. None if there is no filter.
    pub hidden: Option<u64>,
}

/// Appends the beginning of the page.
#[tactic(auto, unfolding(crate::specs::MergedHead::merged_begin))]
pub(crate) fn append_begin(
    out: &mut Vec<u8>,
    races: u64,
    parts: u64,
    left: LeftOut,
) -> Result<(), OutOfMemory>
    ensures { Appended result out.old out.new (merged_begin races parts left) }
{
    append_head(out, races, parts, left)?;
    append_first(out, races, parts, left)
}

/// Appends the head of the page, with its title and style.
fn append_head(out: &mut Vec<u8>, races: u64, parts: u64, left: LeftOut) -> Result<(), OutOfMemory>
    ensures { Appended result out.old out.new (head_text races parts left) }
{
    append_marks(out, &[Mark::Own(TOP), Mark::Own(b"<title>")])?;
    append_title(out, races, parts, left)?;
    append_marks(out, &[Mark::Own(b"</title>\n"), Mark::Own(BODY)])
}

/// Appends the first line of the page.
fn append_first(out: &mut Vec<u8>, races: u64, parts: u64, left: LeftOut) -> Result<(), OutOfMemory>
    ensures { Appended result out.old out.new (first_text races parts left) }
{
    append_marks(out, &[Mark::Own(b"<header>\n<h1>")])?;
    append_title(out, races, parts, left)?;
    append_marks(out, &[Mark::Own(b"</h1>\n</header>\n<main>\n")])
}

/// Appends how many races there are in how many parts, and what was left out.
fn append_title(out: &mut Vec<u8>, races: u64, parts: u64, left: LeftOut) -> Result<(), OutOfMemory>
    ensures { Appended result out.old out.new (title_text races parts left) }
{
    append_races(out, races)?;
    append_parts(out, parts)?;
    append_known(out, left.known)?;
    append_hidden(out, left.hidden)
}

/// Appends ` in N parts`.
fn append_parts(out: &mut Vec<u8>, parts: u64) -> Result<(), OutOfMemory>
    ensures { Appended result out.old out.new (parts_text parts) }
{
    append_marks(
        out,
        &[
            Mark::Own(b" in "),
            Mark::Number(parts),
            Mark::Own(if parts == 1 { b" part" } else { b" parts" }),
        ],
    )
}

/// Appends how many pairs of locations were left out.
pub(crate) fn append_left(out: &mut Vec<u8>, left: LeftOut) -> Result<(), OutOfMemory>
    ensures { Appended result out.old out.new (left_text left) }
{
    append_known(out, left.known)?;
    append_hidden(out, left.hidden)
}

/// Appends how many known races were left out, if there is a number.
fn append_known(out: &mut Vec<u8>, known: Option<u64>) -> Result<(), OutOfMemory>
    ensures { Appended result out.old out.new (known_text known) }
{
    match known {
        Some(count) => append_marks(
            out,
            &[
                Mark::Own(b"; "),
                Mark::Number(count),
                Mark::Own(if count == 1 {
                    b" known race"
                } else {
                    b" known races"
                }),
                Mark::Own(b" left out"),
            ],
        ),
        None => Ok(()),
    }
}

/// Appends how many pairs of locations the filters left out, if there is a number.
fn append_hidden(out: &mut Vec<u8>, hidden: Option<u64>) -> Result<(), OutOfMemory>
    ensures { Appended result out.old out.new (hidden_text hidden) }
{
    match hidden {
        Some(count) => append_marks(
            out,
            &[
                Mark::Own(b"; "),
                Mark::Number(count),
                Mark::Own(if count == 1 { b" pair" } else { b" pairs" }),
                Mark::Own(b" left out by --only and --hide"),
            ],
        ),
        None => Ok(()),
    }
}
