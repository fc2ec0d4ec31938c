//! Which races are known: those that a text of known races lists, and those that a triage file leaves out.
ghost use Rattle.std.specs.Prelude.{◌≡◌, Some, IfOk};
ghost use Rattle.race_triage.specs.Chosen.{is_known, known_places};
ghost use Rattle.race_triage.specs.declared.verdicts.Verdict.{Verdict as Told};
ghost use Rattle.calls.specs.triage.Listings.{AreGivenBy, AreKnownMore, AreKnownPlus, AreKnownWith, IsGivenIn};

use event_index::Indexed;
use race_triage::{Known, Places, Verdicts, known_of};
use rapid_text::{OutOfMemory, TextKeyed};
use std::alloc::Global;
use triage_file::{Value, add_triaged};

/// The pairs of locations that a text lists as races; None if there is no text.
fn known_in(
    alloc: Global,
    places: &Places,
    listed: &Option<Vec<u8>>,
) -> Result<Option<Known>, OutOfMemory>
    ensures { IfOk result (IsGivenIn places.now listed.now) }
{
    match listed {
        Some(text) => Ok(Some(known_of(alloc, places, text.as_slice())?)),
        None => Ok(None),
    }
}

/// The pairs of locations whose races are known: those that a text lists, and those with a race that a triage file
/// leaves out. None if there is neither.
pub(crate) fn known_by(
    alloc: Global,
    indexed: &Indexed,
    found: &Verdicts,
    listed: &Option<Vec<u8>>,
    triage: Option<&[Value]>,
) -> Result<Option<Known>, OutOfMemory>
    ensures { IfOk result (AreGivenBy indexed.now found.now listed.now triage.entry) }
{
    match known_in(alloc, &found.places, listed) {
        Ok(known) => known_with(alloc, indexed, found, known, triage),
        Err(refused) => Err(refused),
    }
}

/// Adds those with a race that a triage file leaves out, if there is such a file.
fn known_with(
    alloc: Global,
    indexed: &Indexed,
    found: &Verdicts,
    known: Option<Known>,
    triage: Option<&[Value]>,
) -> Result<Option<Known>, OutOfMemory>
    ensures { IfOk result (AreKnownWith indexed.now found.now triage.entry known) }
{
    match triage {
        Some(entries) => known_plus(alloc, indexed, found, known, entries),
        None => Ok(known),
    }
}

/// Adds those with a race that these entries leave out.
fn known_plus(
    alloc: Global,
    indexed: &Indexed,
    found: &Verdicts,
    known: Option<Known>,
    entries: &[Value],
) -> Result<Option<Known>, OutOfMemory>
    ensures { IfOk result (AreKnownPlus indexed.now found.now entries.now known) }
{
    let keyed = *found.places.locations.hasher();
    match known_more(indexed, found, or_nothing(alloc, known, keyed), entries) {
        Ok(more) => Ok(Some(more)),
        Err(refused) => Err(refused),
    }
}

/// These pairs; an empty set with these hashers if there are none.
fn or_nothing(alloc: Global, known: Option<Known>, keyed: TextKeyed) -> Known
    ensures { (v : Told) → is_known (Some result.keys) v ≡ is_known (known_places known) v }
{
    match known {
        Some(known) => known,
        None => Known::with_hasher(alloc, keyed),
    }
}

/// These pairs, and those with a race that the entries leave out.
fn known_more(
    indexed: &Indexed,
    found: &Verdicts,
    mut known: Known,
    entries: &[Value],
) -> Result<Known, OutOfMemory>
    ensures { IfOk result (AreKnownMore indexed.now found.now entries.now known) }
{
    let numbers = found.places.numbers.as_slice();
    match add_triaged(
        &mut known,
        indexed,
        numbers,
        found.verdicts.as_slice(),
        entries,
    ) {
        Ok(()) => Ok(known),
        Err(refused) => Err(refused),
    }
}
