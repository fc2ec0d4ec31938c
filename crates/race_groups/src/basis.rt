//! The tables from which the pairs of a trace are counted.
ghost use Rattle.std.specs.Prelude.{◌≡◌, ◌<◌, slice_index};
ghost use Rattle.race_groups.specs.Basis.{IsBasis};
ghost use Rattle.race_groups.specs.ClassTables.{AreFewClasses, HaveClasses, HaveMembers};
ghost use Rattle.race_groups.specs.Owners.{AreClassConflicts};

use crate::classes::Classes;
use crate::writers::Conflicts;
use event_index::Indexed;
use must_order::Must;
use shb_clocks::{Clocks, SharedRows, known_tells_shb};

/// A trace, its orders and its classes.
#[derive(Clone, Copy)]
pub(crate) struct Basis<'a> {
    pub(crate) indexed: &'a Indexed,
    pub(crate) clocks: &'a Clocks,
    /// The counts of must-before.
    pub(crate) forced: &'a SharedRows,
    pub(crate) classes: &'a Classes,
    pub(crate) conflicts: &'a Conflicts,
    /// The number of workers that share the counting.
    pub(crate) every: usize,
    /// The number of this worker. It counts the threads and classes whose numbers, divided by `every`, leave it as
    /// the remainder.
    pub(crate) from: usize,
}

impl<'a> Basis<'a> {
    /// The tables of the first of `every` workers. `_places` has the number of each event's place.
    pub(crate) fn of(
        indexed: &'a Indexed,
        _places: &[u32],
        clocks: &'a Clocks,
        must: &'a Must,
        classes: &'a Classes,
        conflicts: &'a Conflicts,
        every: usize,
    ) -> Basis<'a>
        requires clocks { clocks.now ≡ indexed.now }
        requires must { must.now ≡ indexed.now }
        requires classes { HaveClasses indexed.now.events (slice_index _places.now) classes.now }
        requires few { AreFewClasses classes.now }
        requires members { HaveMembers classes.now }
        requires conflicts { AreClassConflicts indexed.now classes.now conflicts.now }
        requires every { 0 < every }
        ensures basis { IsBasis result }
        ensures indexed { result.indexed.now ≡ indexed.now }
        ensures classes { result.classes.now ≡ classes.now }
        ensures every { result.every ≡ every }
        ensures from { result.from ≡ 0 }
    {
        known_tells_shb();
        let _len = indexed.len();
        let forced = must.rows();
        Basis {
            indexed,
            clocks,
            forced,
            classes,
            conflicts,
            every,
            from: 0,
        }
    }
}
