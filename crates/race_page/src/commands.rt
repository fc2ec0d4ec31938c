//! The commands with which a reader of the page can go on.
use crate::own::{Part, Tag};
use crate::piece::{Item, Piece};
use crate::shown::{Shown, Sort};
use rapid_text::OutOfMemory;

/// Writes the commands for a row. `word` is the trace's name as one word of a shell.
pub(crate) fn write_commands(
    piece: &mut Piece,
    word: &[u8],
    shown: Shown,
) -> Result<(), OutOfMemory> {
    piece.write(&[
        Item::Element(Tag::PartHeading, b"To go on"),
        Item::Begin(Tag::Lines),
        Item::Text(b"racebench explain "),
        Item::Element(Tag::Isolated, word),
        Item::Text(b" "),
        Item::Number(u64::from(shown.first)),
        Item::Text(b" "),
        Item::Number(u64::from(shown.second)),
        Item::Text(b" --all"),
        Item::Part(Part::LineEnd),
    ])?;
    match shown.sort {
        Sort::Race => write_race_commands(piece, word, shown)?,
        Sort::Undecided => piece.write(&[
            Item::Text(b"racebench triage "),
            Item::Element(Tag::Isolated, word),
            Item::Text(b" --tries 4096"),
            Item::Part(Part::LineEnd),
        ])?,
        Sort::Apart => {}
    }
    piece.write(&[Item::End(Tag::Lines)])
}

/// Writes the commands that make a script of the schedule, replay it, and open it in a session.
fn write_race_commands(piece: &mut Piece, word: &[u8], shown: Shown) -> Result<(), OutOfMemory> {
    piece.write(&[
        Item::Text(b"racebench witness "),
        Item::Element(Tag::Isolated, word),
        Item::Text(b" "),
        Item::Number(u64::from(shown.first)),
        Item::Text(b" "),
        Item::Number(u64::from(shown.second)),
        Item::Text(b" --script > script.txt"),
        Item::Part(Part::LineEnd),
        Item::Text(b"racebench replay "),
        Item::Element(Tag::Isolated, word),
        Item::Text(b" script.txt"),
        Item::Part(Part::LineEnd),
        Item::Text(b"racebench session "),
        Item::Element(Tag::Isolated, word),
        Item::Text(b" session.log < script.txt"),
        Item::Part(Part::LineEnd),
    ])
}
