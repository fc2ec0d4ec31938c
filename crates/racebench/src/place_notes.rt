//! The note on names that mean no pair, if at least one is a location. A name fits no access, or several places; or
//! nothing conflicts.

ghost use Rattle.std.specs.Prelude.{◌≡◌, length};

use crate::pair_notes::append_no_event;
use crate::quoted::append_shown;
use calls::pair::Name;
use event_index::Indexed;
use explain_report::places::{are_apart, are_at_one_place, flags_of, place_of};
use memchr::memrchr;
use rapid_text::OutOfMemory;
use std::alloc::Global;

/// The most locations that a note lists.
const MAX_LISTED: usize = 4;

/// Appends the note on why two names mean no pair of this trace, if at least one is a location.
pub(crate) fn append_place_reason(
    alloc: Global,
    out: &mut Vec<u8>,
    indexed: &Indexed,
    one: Name<'_>,
    other: Name<'_>,
) -> Result<(), OutOfMemory> {
    let ones = flags_of(alloc, indexed, one)?;
    if append_name_note(alloc, out, indexed, one, ones.as_slice())? {
        return Ok(());
    }
    let others = flags_of(alloc, indexed, other)?;
    if append_name_note(alloc, out, indexed, other, others.as_slice())? {
        return Ok(());
    }
    append_both_note(out, one, other, ones.as_slice(), others.as_slice())
}

/// Appends the note on a name that means no access, or accesses at several places. Returns whether there was a note.
fn append_name_note(
    alloc: Global,
    out: &mut Vec<u8>,
    indexed: &Indexed,
    name: Name<'_>,
    flags: &[bool],
) -> Result<bool, OutOfMemory>
    requires { length flags.now ≡ length indexed.now.events }
{
    match name {
        Name::Event(number) => append_event_note(out, indexed, number),
        Name::Place(word) => {
            if !flags.contains(&true) {
                append_unknown(alloc, out, indexed, word)?;
                return Ok(true);
            }
            if are_at_one_place(indexed, flags) {
                return Ok(false);
            }
            append_several(out, indexed, word, flags)?;
            Ok(true)
        }
    }
}

/// Appends the note on a number that is no event. Returns whether the number is no event.
fn append_event_note(
    out: &mut Vec<u8>,
    indexed: &Indexed,
    number: u32,
) -> Result<bool, OutOfMemory> {
    if number < indexed.len() {
        return Ok(false);
    }
    append_no_event(out, number, u64::from(indexed.len()))?;
    Ok(true)
}

/// Appends a word in back quotes.
fn append_word(out: &mut Vec<u8>, word: &[u8]) -> Result<(), OutOfMemory> {
    out.extend_from_slice(b"`")?;
    append_shown(out, word)?;
    out.extend_from_slice(b"`")?;
    Ok(())
}

/// Whether a variable of the trace has this name.
fn is_variable(indexed: &Indexed, word: &[u8]) -> bool {
    for variable in 0..indexed.variables() {
        if indexed.variable_name(variable) == word {
            return true;
        }
    }
    false
}

/// Appends the note on a word that fits no access, with places of accesses in the word's file, if there are any.
fn append_unknown(
    alloc: Global,
    out: &mut Vec<u8>,
    indexed: &Indexed,
    word: &[u8],
) -> Result<(), OutOfMemory> {
    out.extend_from_slice(b"note: no access is at ")?;
    append_word(out, word)?;
    if is_variable(indexed, word) {
        out.extend_from_slice(b", which is a variable, not a location\n")?;
        return Ok(());
    }
    let file = file_of(word);
    let flags = flags_of(alloc, indexed, Name::Place(file))?;
    append_places(
        out,
        b"; there are accesses at ",
        indexed,
        flags.as_slice(),
        file,
    )?;
    out.extend_from_slice(b"\n")?;
    Ok(())
}

/// The file of a word `FILE:LINE`; any other word as it is.
fn file_of(word: &[u8]) -> &[u8] {
    match memrchr(b':', word) {
        Some(at) => &word[..at],
        None => word,
    }
}

/// Appends the note on a word that fits accesses at several places.
fn append_several(
    out: &mut Vec<u8>,
    indexed: &Indexed,
    word: &[u8],
    flags: &[bool],
) -> Result<(), OutOfMemory> {
    out.extend_from_slice(b"note: ")?;
    append_word(out, word)?;
    append_places(out, b" names several locations: ", indexed, flags, b"")?;
    Ok(out.extend_from_slice(b"\n")?)
}

/// Appends these words and the places of the events with a flag, each once, four at most. Only places whose file ends
/// with `file` count. If there are none, appends nothing.
fn append_places(
    out: &mut Vec<u8>,
    words: &[u8],
    indexed: &Indexed,
    flags: &[bool],
    file: &[u8],
) -> Result<(), OutOfMemory> {
    let mut listed: Vec<u32> = Vec::new(*out.allocator());
    for event in 0..indexed.len() {
        let place = place_of(indexed, event);
        let is_meant = flags.get(event as usize) == Some(&true) && file_of(place).ends_with(file);
        if is_meant && !is_listed(indexed, listed.as_slice(), place) {
            if listed.len() == MAX_LISTED {
                out.extend_from_slice(b" and others")?;
                return Ok(());
            }
            append_place(out, if listed.is_empty() { words } else { b", " }, place)?;
            listed.push(event)?;
        }
    }
    Ok(())
}

/// Whether an event of the list is at the place.
fn is_listed(indexed: &Indexed, listed: &[u32], place: &[u8]) -> bool {
    listed
        .iter()
        .any(|event| place_of(indexed, *event) == place)
}

/// Appends these words, and a place.
fn append_place(out: &mut Vec<u8>, words: &[u8], place: &[u8]) -> Result<(), OutOfMemory> {
    out.extend_from_slice(words)?;
    append_shown(out, place)
}

/// Whether the name is a location.
fn is_place(name: Name<'_>) -> bool {
    match name {
        Name::Place(_) => true,
        Name::Event(_) => false,
    }
}

/// Appends the note on two names that each mean accesses at one place, but no pair.
fn append_both_note(
    out: &mut Vec<u8>,
    one: Name<'_>,
    other: Name<'_>,
    ones: &[bool],
    others: &[bool],
) -> Result<(), OutOfMemory>
    requires { length ones.now ≡ length others.now }
{
    if is_place(one) && is_place(other) && ones != others && !are_apart(ones, others) {
        out.extend_from_slice(b"note: both names mean some of the same accesses, but not all\n")?;
        return Ok(());
    }
    out.extend_from_slice(
        b"note: no two accesses there conflict: a pair accesses one variable in two threads, and one of them writes\n",
    )?;
    Ok(())
}
