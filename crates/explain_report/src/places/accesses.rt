//! The accesses that a word means.
ghost use Rattle.std.specs.Prelude.{◌≡◌, ℕ, IfOk, IfSome, None, length, true, false};
ghost use Rattle.explain_report.specs.places.Accesses.{AreApart, HasFlag, HaveSeveral, HaveShared, IsAtOnePlace, flags_of, flags_of_event, flags_of_place, is_use, least_misfit, misfit_at, misfits_of, place_of};

use crate::places::arrows::cut_at_arrow;
use crate::places::located::location_of;
use crate::places::name::Name;
use crate::places::names::{NO_FIT, misfit};
use event_index::Indexed;
use rapid_text::{Op, OutOfMemory};
use std::alloc::Global;

/// For each event, whether the name means it. A word means the accesses whose locations it fits best. Fails if memory
/// runs out.
pub fn flags_of(alloc: Global, indexed: &Indexed, name: Name<'_>) -> Result<Vec<bool>, OutOfMemory>
    ensures flags { IfOk result (λ flags. flags.items ≡ flags_of indexed.now name.entry) }
    ensures len { IfOk result (λ flags. length flags.items ≡ length indexed.now.events) }
{
    match name {
        Name::Event(number) => flags_of_event(alloc, indexed, number),
        Name::Place(word) => flags_of_place(alloc, indexed, word),
    }
}

/// The flags of one event.
fn flags_of_event(alloc: Global, indexed: &Indexed, number: u32) -> Result<Vec<bool>, OutOfMemory>
    ensures { IfOk result (λ flags. flags.items ≡ flags_of_event indexed.now number) }
{
    let flags = (0..indexed.len())
        .map(|event| event == number)
        .collect(alloc)?;
    Ok(flags)
}

/// The flags of the accesses whose locations the word fits best.
fn flags_of_place(alloc: Global, indexed: &Indexed, word: &[u8]) -> Result<Vec<bool>, OutOfMemory>
    ensures { IfOk result (λ flags. flags.items ≡ flags_of_place indexed.now word.now) }
{
    let misfits = misfits_of(alloc, indexed, word)?;
    let least = least_misfit(misfits.as_slice());
    let flags = misfits
        .iter()
        .map(|misfit| *misfit < NO_FIT && *misfit == least)
        .collect(alloc)?;
    Ok(flags)
}

/// The misfit of the word and the location of each event.
fn misfits_of(alloc: Global, indexed: &Indexed, word: &[u8]) -> Result<Vec<u32>, OutOfMemory>
    ensures { IfOk result (λ misfits. misfits.items ≡ misfits_of indexed.now word.now) }
{
    let misfits = (0..indexed.len())
        .map(|event| misfit_at(indexed, word, event))
        .collect(alloc)?;
    Ok(misfits)
}

/// The misfit of the word and the event's location; `NO_FIT` if the event is not an access.
fn misfit_at(indexed: &Indexed, word: &[u8], event: u32) -> u32
    ensures { result ≡ misfit_at indexed.now word.now event }
{
    match indexed.get(event) {
        Some(found) => {
            if is_use(found.op) {
                misfit(word, location_of(indexed, event))
            } else {
                NO_FIT
            }
        }
        None => NO_FIT,
    }
}

/// Whether the operation reads or writes a variable.
fn is_use(op: Op) -> bool
    ensures { result ≡ is_use op }
{
    match op {
        Op::Read(_) | Op::Write(_) => true,
        _ => false,
    }
}

/// The least misfit of the list, at most `NO_FIT`.
fn least_misfit(misfits: &[u32]) -> u32
    ensures { result ≡ least_misfit misfits.now }
{
    misfits
        .iter()
        .fold(NO_FIT, |least, misfit| least.min(*misfit))
}

/// Whether all events with a flag are at one place.
pub fn are_at_one_place(indexed: &Indexed, flags: &[bool]) -> bool
    requires { length flags.now ≡ length indexed.now.events }
    ensures one { result ≡ true → IsAtOnePlace indexed.now flags.now }
    ensures several { result ≡ false → HaveSeveral indexed.now flags.now }
{
    match first_flagged(indexed, flags) {
        Some(first) => are_where(indexed, flags, first),
        None => true,
    }
}

/// The first event with a flag.
fn first_flagged(indexed: &Indexed, flags: &[bool]) -> Option<u32>
    requires { length flags.now ≡ length indexed.now.events }
    ensures some { IfSome result (HasFlag flags.now) }
    ensures none { result ≡ None → (e : ℕ) → ¬ HasFlag flags.now e }
{
    for event in 0..indexed.len() {
        if flags[event as usize] {
            return Some(event);
        }
    }
    None
}

/// Whether all events with a flag are at the place of event `first`.
fn are_where(indexed: &Indexed, flags: &[bool], first: u32) -> bool
    requires len { length flags.now ≡ length indexed.now.events }
    requires first { HasFlag flags.now first }
    ensures one { result ≡ true → IsAtOnePlace indexed.now flags.now }
    ensures several { result ≡ false → HaveSeveral indexed.now flags.now }
{
    let place = place_of(indexed, first);
    for event in 0..indexed.len() {
        if flags[event as usize] && place_of(indexed, event) != place {
            return false;
        }
    }
    true
}

/// Whether no event has both flags.
pub fn are_apart(one: &[bool], other: &[bool]) -> bool
    requires { length one.now ≡ length other.now }
    ensures apart { result ≡ true → AreApart one.now other.now }
    ensures shared { result ≡ false → HaveShared one.now other.now }
{
    for event in 0..one.len() {
        if one[event] && other[event] {
            return false;
        }
    }
    true
}

/// The place of the event's location, which comes before its calls.
pub fn place_of(indexed: &Indexed, event: u32) -> &[u8]
    ensures { result.now ≡ place_of indexed.now event }
{
    let (place, _) = cut_at_arrow(location_of(indexed, event));
    place
}
