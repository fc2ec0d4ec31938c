//! What was found when a race was followed on the real program. The texts come from a file, and nothing about them is
//! proved.
use crate::about::About;
use crate::own::{Part, Tag};
use crate::piece::{Item, Piece};
use crate::selecting::entry_of;
use crate::shown::{Seen, Shown};
use event_index::Indexed;
use explain_report::places::cut_at_arrow;
use followed_races::Followed;
use rapid_text::OutOfMemory;

const BESIDE: &[u8] =
    b"The word beside a race is what following it on the real program came to, once with each access first. Runs showed it, \
and it is not proved. The file has ";

const NOT_FOLLOWED: &[u8] =
    b"No line of the file has these two locations, so nothing is known of this race on the real program.";

const ELSEWHERE: &[u8] =
    b"The two locations are those of this race, and the events are not. The file is of another recording, or of another triage \
of this one.";

/// Writes how to read the text beside a race, and how many lines the file of followed races has. Writes nothing if
/// there is no such file.
pub(crate) fn write_beside(piece: &mut Piece, about: About<'_>) -> Result<(), OutOfMemory> {
    match about.followed {
        Some(all) => piece.write(&[
            Item::Begin(Tag::Paragraph),
            Item::Text(BESIDE),
            Item::Count(all.len() as u64, b"line"),
            Item::Text(b"."),
            Item::End(Tag::Paragraph),
        ]),
        None => Ok(()),
    }
}

/// Writes what was found when the race of a row was followed. Writes nothing if the row has no word beside it.
pub(crate) fn write_followed(
    piece: &mut Piece,
    indexed: &Indexed,
    about: About<'_>,
    shown: Shown,
) -> Result<(), OutOfMemory> {
    if shown.seen == Seen::Unasked {
        return Ok(());
    }
    piece.write(&[Item::Element(Tag::PartHeading, b"Seen in a run, not proved")])?;
    match entry_of(about, indexed, shown.first, shown.second) {
        Some(entry) => write_entry(piece, entry, shown),
        None => piece.write(&[Item::Element(Tag::Paragraph, NOT_FOLLOWED)]),
    }
}

/// Writes what an entry says.
fn write_entry(piece: &mut Piece, entry: &Followed, shown: Shown) -> Result<(), OutOfMemory> {
    write_accesses(piece, entry, shown.seen != Seen::Departed)?;
    piece.write(&[
        Item::Begin(Tag::Paragraph),
        Item::Text(outcome_words(shown.seen)),
    ])?;
    if !entry.why.is_empty() {
        piece.write(&[
            Item::Text(b": "),
            Item::Element(Tag::Isolated, entry.why.as_slice()),
        ])?;
    }
    piece.write(&[
        Item::Text(b"."),
        Item::End(Tag::Paragraph),
        Item::Begin(Tag::Lines),
        Item::Element(Tag::Isolated, entry.text.as_slice()),
        Item::Part(Part::LineEnd),
        Item::End(Tag::Lines),
    ])?;
    if !is_of(entry, shown) {
        piece.write(&[Item::Element(Tag::Paragraph, ELSEWHERE)])?;
    }
    Ok(())
}

/// Whether the entry has the two events of the row.
fn is_of(entry: &Followed, shown: Shown) -> bool {
    entry.first_event == u64::from(shown.first) && entry.second_event == u64::from(shown.second)
}

/// Writes a table of the two accesses. If the run followed the schedule to the race, the table also says how the
/// program ended with each access first.
fn write_accesses(piece: &mut Piece, entry: &Followed, stood: bool) -> Result<(), OutOfMemory> {
    piece.write(&[
        Item::Begin(Tag::Table),
        Item::Begin(Tag::TableHead),
        Item::Begin(Tag::Line),
        Item::Element(Tag::ColumnHead, b"Access"),
        Item::Element(Tag::ColumnHead, b"Event"),
        Item::Element(Tag::ColumnHead, b"Place"),
    ])?;
    if stood {
        piece.write(&[Item::Element(Tag::ColumnHead, b"How the program ended with it first")])?;
    }
    piece.write(&[
        Item::End(Tag::Line),
        Item::End(Tag::TableHead),
        Item::Begin(Tag::TableBody),
    ])?;
    write_access(
        piece,
        b"A",
        entry.first_event,
        entry.first_location.as_slice(),
    )?;
    end_access(piece, entry.first.as_slice(), stood)?;
    write_access(
        piece,
        b"B",
        entry.second_event,
        entry.second_location.as_slice(),
    )?;
    end_access(piece, entry.second.as_slice(), stood)?;
    piece.write(&[Item::End(Tag::TableBody), Item::End(Tag::Table)])
}

/// Writes the first cells of a table line: the access's letter, event and place.
fn write_access<'a>(
    piece: &mut Piece,
    letter: &'a [u8],
    event: u64,
    location: &'a [u8],
) -> Result<(), OutOfMemory> {
    let (place, _) = cut_at_arrow(location);
    piece.write(&[
        Item::Begin(Tag::Line),
        Item::Element(Tag::LineHead, letter),
        Item::Begin(Tag::NumberCell),
        Item::Number(event),
        Item::End(Tag::NumberCell),
        Item::Begin(Tag::Cell),
        Item::Element(Tag::Isolated, place),
        Item::End(Tag::Cell),
    ])
}

/// Ends a table line. If the run followed the schedule to the race, writes first how the program ended.
fn end_access(piece: &mut Piece, ending: &[u8], stood: bool) -> Result<(), OutOfMemory> {
    if stood {
        piece.write(&[
            Item::Begin(Tag::Cell),
            Item::Element(Tag::Isolated, ending),
            Item::End(Tag::Cell),
        ])?;
    }
    piece.write(&[Item::End(Tag::Line)])
}

/// The outcome in words; empty if the race was not followed.
fn outcome_words(seen: Seen) -> &'static [u8] {
    match seen {
        Seen::Unasked => b"",
        Seen::NotFollowed => b"",
        Seen::Departed => b"The run went another way than the schedule, so the race did not stand",
        Seen::OtherMemory => b"Both threads were at their accesses, on different memory",
        Seen::Matters => b"The order matters",
        Seen::Same => b"The program ended the same with either access first",
        Seen::Unknown => b"Whether the order matters is not known",
    }
}
