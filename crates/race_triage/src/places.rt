//! Numbers the locations of events in the order of their first use.
ghost use Rattle.std.specs.Prelude.{◌≡◌, [], IfNone, IfOk, OnOk};
ghost use Rattle.rapid_text.specs.Appended.{IfFound};
ghost use Rattle.race_triage.specs.Places.{AreFirstUsesOf, AreKept, AreNumbered, AreNumbers, AreSpotsOf, AreTextsWith, HasNoSpot, IsSpot, IsSpotIn, texts_of};

use event_index::Indexed;
use indexmap::IndexSet;
use rapid_text::{OutOfMemory, TextKeyed};
use std::alloc::Global;

/// The different locations of a trace. The index of a location is its number.
pub type Locations = IndexSet<Vec<u8>, TextKeyed>;

/// The locations of a trace, and for each event the number of its location.
#[derive(Drop)]
pub struct Places {
    /// The locations.
    pub locations: Locations,
    /// For each event, the number of its location.
    pub numbers: Vec<u32>,
}

impl Places {
    /// Returns the locations of all events.
    pub fn of(alloc: Global, indexed: &Indexed) -> Result<Places, OutOfMemory>
        ensures numbers { IfOk result (λ places. AreNumbers indexed.now places.numbers.items) }
        // The number of an event is the number of its location.
        ensures spots { IfOk result (AreSpotsOf indexed.now) }
        // Locations have their numbers in the order of their first use.
        ensures firsts { IfOk result (AreFirstUsesOf indexed.now) }
    {
        let numbers = Vec::with_capacity(alloc, indexed.len() as usize)?;
        let mut places = Places {
            locations: IndexSet::with_hasher(alloc, indexed.trace().raw().keyed()),
            numbers,
        };
        match places.number_all(alloc, indexed) {
            Ok(()) => Ok(places),
            Err(refused) => Err(refused),
        }
    }

    // Numbers the locations of all events. No event may have a number yet.
    fn number_all(&mut self, alloc: Global, indexed: &Indexed) -> Result<(), OutOfMemory>
        requires numbered { AreNumbered indexed.now 0 self.old.locations.keys self.old.numbers.items }
        requires empty { texts_of self.old.locations.keys ≡ [] }
        ensures numbers { OnOk result (AreNumbers indexed.now self.new.numbers.items) }
        ensures spots { OnOk result (AreSpotsOf indexed.now self.new) }
        ensures firsts { OnOk result (AreFirstUsesOf indexed.now self.new) }
    {
        let _len = indexed.len();
        let raw = indexed.trace().raw();
        for event in 0..raw.len() {
            let number = number_of(&mut self.locations, alloc, raw.location(event))?;
            self.numbers.push(number)?;
        }
        Ok(())
    }

    /// Returns the number of a location. Returns None if the trace does not have it.
    pub fn number(&self, location: &[u8]) -> Result<Option<u32>, OutOfMemory>
        ensures some { IfFound result (IsSpotIn self.now location.now) }
        ensures none { IfOk result (λ number. IfNone number (HasNoSpot self.now location.now)) }
    {
        match self.locations.get_index_of(location) {
            Some(at) => Ok(Some(small(at)?)),
            None => Ok(None),
        }
    }
}

// The number of the location. Adds it at the end if it is new.
fn number_of(locations: &mut Locations, alloc: Global, location: &[u8]) -> Result<u32, OutOfMemory>
    ensures at { IfOk result (λ n. IsSpot locations.new.keys location.now n) }
    ensures kept { OnOk result (AreKept locations.old.keys locations.new.keys) }
    ensures noted { OnOk result (AreTextsWith locations.old.keys locations.new.keys location.now) }
{
    if let Some(at) = locations.get_index_of(location) {
        return small(at);
    }
    let owned = Vec::from_slice(alloc, location)?;
    let (at, _) = locations.insert_full(owned)?;
    small(at)
}

/// The number of a location or a list in 32 bits. There are no more locations or lists than events.
pub(crate) fn small(number: usize) -> Result<u32, OutOfMemory>
    ensures { IfOk result (λ small. small ≡ number) }
{
    match u32::try_from(number) {
        Ok(number) => Ok(number),
        Err(_) => Err(OutOfMemory),
    }
}
