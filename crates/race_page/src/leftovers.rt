//! What is left out of a page, and how to see it.
use crate::own::{Part, Tag};
use crate::piece::{Item, Piece};
use crate::rows::{MOST_PICTURES, MOST_ROWS};
use crate::shown::Sort;
use race_triage::Chosen;
use rapid_text::OutOfMemory;

/// Writes how many rows and pictures of a sort are left out, and how to see them. A page has at most 2,000 rows of a
/// sort, and 200 pictures.
pub(crate) fn write_left_out(
    piece: &mut Piece,
    word: &[u8],
    sort: Sort,
    kept: usize,
) -> Result<(), OutOfMemory> {
    if sort == Sort::Race && kept > MOST_PICTURES {
        write_undrawn(piece, word, kept.saturating_sub(MOST_PICTURES) as u64)?;
    }
    if kept > MOST_ROWS {
        write_more(piece, word, sort, kept.saturating_sub(MOST_ROWS) as u64)?;
    }
    Ok(())
}

/// Writes how many races have no picture, and the command that draws one.
fn write_undrawn(piece: &mut Piece, word: &[u8], undrawn: u64) -> Result<(), OutOfMemory> {
    piece.write(&[
        Item::Begin(Tag::Paragraph),
        Item::Text(b"Without a picture here: "),
        Item::Count(undrawn, b"race"),
        Item::Text(b". The picture of one, by its two events:"),
        Item::End(Tag::Paragraph),
        Item::Begin(Tag::Lines),
        Item::Text(b"racebench witness "),
        Item::Element(Tag::Isolated, word),
        Item::Text(b" FIRST SECOND --svg > picture.svg"),
        Item::Part(Part::LineEnd),
        Item::End(Tag::Lines),
    ])
}

/// Writes how many more rows there are, and the command that lists them.
fn write_more(piece: &mut Piece, word: &[u8], sort: Sort, more: u64) -> Result<(), OutOfMemory> {
    piece.write(&[
        Item::Begin(Tag::Paragraph),
        Item::Text(b"Left out here: "),
        Item::Count(more, b"row"),
        Item::Text(b". All of them, as text:"),
        Item::End(Tag::Paragraph),
        Item::Begin(Tag::Lines),
        Item::Text(b"racebench triage "),
        Item::Element(Tag::Isolated, word),
        Item::Text(option_of(sort)),
        Item::Part(Part::LineEnd),
        Item::End(Tag::Lines),
    ])
}

/// The option of `triage` that lists this sort; empty if none is needed.
fn option_of(sort: Sort) -> &'static [u8] {
    match sort {
        Sort::Race => b"",
        Sort::Undecided => b"",
        Sort::Apart => b" --apart",
    }
}

/// Writes what the options left out.
pub(crate) fn write_unlisted(
    piece: &mut Piece,
    chosen: &Chosen,
    apart: bool,
) -> Result<(), OutOfMemory> {
    if !apart {
        piece.write(&[Item::Element(
            Tag::Paragraph,
            b"Pairs of places that are apart have no rows here; with --apart they have.",
        )])?;
    }
    write_count(piece, chosen.known, b" left out as known before.")?;
    write_count(piece, chosen.hidden, b" left out by --only and --hide.")
}

/// Writes how many rows were left out, and why. Writes nothing if the number is 0 or missing.
fn write_count(piece: &mut Piece, left_out: Option<u64>, words: &[u8]) -> Result<(), OutOfMemory> {
    let number = left_out.unwrap_or(0);
    if number == 0 {
        return Ok(());
    }
    piece.write(&[
        Item::Begin(Tag::Paragraph),
        Item::Count(number, b"row"),
        Item::Text(words),
        Item::End(Tag::Paragraph),
    ])
}
