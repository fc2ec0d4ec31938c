//! The table of a row's two accesses: for each its line of the trace, and the locks that its thread holds before it.
ghost use Rattle.std.specs.Prelude.{◌≡◌, ◌<◌, ◌++◌, [], length, option_map, slice_get};
ghost use Rattle.race_triage.specs.Pieces.{event_words_at};
ghost use Rattle.race_triage.specs.Texts.{held_locks};
ghost use Rattle.race_page.specs.Items.{Written};
ghost use Rattle.race_page.specs.Told.{access_text, accesses_text, cells_text, line_end, line_text, lock_text, locks_text, more_locks, next_lock, table_begin};

use crate::own::Tag;
use crate::piece::{Item, Piece};
use event_index::Indexed;
use must_order::Analysis;
use race_triage::append_event;
use rapid_text::{OutOfMemory, RawTrace};

/// Writes a heading and a table of the two accesses.
pub(crate) fn write_accesses(
    piece: &mut Piece,
    analysis: &Analysis<'_>,
    first: u32,
    second: u32,
) -> Result<(), OutOfMemory>
    ensures { Written result piece.old piece.new (accesses_text analysis.now first second) }
{
    begin_table(piece)?;
    write_access(piece, analysis, first)?;
    write_access(piece, analysis, second)?;
    piece.write(&[Item::End(Tag::TableBody), Item::End(Tag::Table)])
}

/// Writes the heading, and the head of the table.
fn begin_table(piece: &mut Piece) -> Result<(), OutOfMemory>
    ensures { Written result piece.old piece.new table_begin }
{
    piece.write(&[
        Item::Element(Tag::PartHeading, b"The two accesses"),
        Item::Begin(Tag::Table),
        Item::Begin(Tag::TableHead),
        Item::Begin(Tag::Line),
        Item::Element(Tag::ColumnHead, b"Event"),
        Item::Element(Tag::ColumnHead, b"Line of the trace"),
        Item::Element(Tag::ColumnHead, b"Locks held before it"),
        Item::End(Tag::Line),
        Item::End(Tag::TableHead),
        Item::Begin(Tag::TableBody),
    ])
}

/// Writes the table line of an access. Writes nothing if the trace has no such event.
fn write_access(piece: &mut Piece, analysis: &Analysis<'_>, event: u32) -> Result<(), OutOfMemory>
    ensures { Written result piece.old piece.new (access_text analysis.now event) }
{
    if event < analysis.indexed().len() {
        write_line(piece, analysis, event)?;
        write_locks(piece, analysis, event)?;
        piece.write(&[Item::End(Tag::Cell), Item::End(Tag::Line)])
    } else {
        Ok(())
    }
}

/// Writes the cells of an access before that of its locks.
fn write_line(piece: &mut Piece, analysis: &Analysis<'_>, event: u32) -> Result<(), OutOfMemory>
    ensures { Written result piece.old piece.new (line_text analysis.now event) }
{
    let mut words = Vec::new(piece.allocator());
    append_event(&mut words, analysis.indexed(), event)?;
    write_words(piece, event, words.as_slice())
}

/// Writes the same, with these words as the line of the trace.
fn write_words(piece: &mut Piece, event: u32, words: &[u8]) -> Result<(), OutOfMemory>
    ensures { Written result piece.old piece.new (cells_text event words.now) }
{
    piece.write(&[
        Item::Begin(Tag::Line),
        Item::Begin(Tag::LineHead),
        Item::Number(u64::from(event)),
        Item::End(Tag::LineHead),
        Item::Begin(Tag::Cell),
        Item::Element(Tag::Code, words),
        Item::End(Tag::Cell),
        Item::Begin(Tag::Cell),
    ])
}

/// Writes the locks that the thread holds before the event.
fn write_locks(piece: &mut Piece, analysis: &Analysis<'_>, event: u32) -> Result<(), OutOfMemory>
    requires event { event < length analysis.now.events }
    ensures { Written result piece.old piece.new (locks_text analysis.now (held_locks analysis.now event)) }
{
    let locks = analysis.locks_held(piece.allocator(), event)?;
    write_held(piece, analysis.indexed(), locks.as_slice())?;
    Ok(())
}

/// Writes the names of the locks, or `none`.
fn write_held(piece: &mut Piece, indexed: &Indexed, locks: &[u32]) -> Result<(), OutOfMemory>
    ensures { Written result piece.old piece.new (locks_text indexed.now locks.now) }
{
    match locks.split_first() {
        Some((first, more)) => {
            write_lock(piece, indexed, *first)?;
            write_more(piece, indexed, more)
        }
        None => piece.write(&[Item::Text(b"none")]),
    }
}

/// Writes a comma and the name, for each lock.
fn write_more(piece: &mut Piece, indexed: &Indexed, locks: &[u32]) -> Result<(), OutOfMemory>
    ensures { Written result piece.old piece.new (more_locks indexed.now locks.now) }
{
    for lock in locks {
        write_next(piece, indexed, *lock)?;
    }
    Ok(())
}

/// Writes a comma, and the name of the lock.
fn write_next(piece: &mut Piece, indexed: &Indexed, lock: u32) -> Result<(), OutOfMemory>
    ensures { Written result piece.old piece.new (next_lock indexed.now lock) }
{
    piece.write(&[Item::Text(b", ")])?;
    write_lock(piece, indexed, lock)
}

/// Writes the name of the lock, if the trace has such a lock.
fn write_lock(piece: &mut Piece, indexed: &Indexed, lock: u32) -> Result<(), OutOfMemory>
    ensures { Written result piece.old piece.new (lock_text indexed.now lock) }
{
    match lock_name(indexed.trace().raw(), lock) {
        Some(name) => piece.write(&[Item::Element(Tag::Isolated, name)]),
        None => Ok(()),
    }
}

/// The name of the lock, if the trace has such a lock.
fn lock_name(raw: &RawTrace, lock: u32) -> Option<&[u8]>
    ensures { option_map (λ name. name.now) result ≡ slice_get raw.now.locks lock }
{
    if lock < raw.locks() {
        Some(raw.lock_name(lock))
    } else {
        None
    }
}
