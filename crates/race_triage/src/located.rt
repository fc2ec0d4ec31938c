//! Numbers the locations of a trace's events, and groups its accesses into classes.
ghost use Rattle.std.specs.Prelude.{IfOk};
ghost use Rattle.race_triage.specs.Located.{IsLocated};
ghost use Rattle.race_triage.specs.Places.{AreFirstUsesOf, AreNumbers, AreSpotsOf};
ghost use Rattle.race_triage.specs.Tables.{AreClassesOf};

use crate::places::Places;
use event_index::Indexed;
use race_groups::Classes;
use rapid_text::OutOfMemory;
use std::alloc::Global;
use std::thread;
use std::thread::Threads;
use witness_search::trace_order::Acquires;

/// What `triage` needs of a trace besides its orders: the locations of its events, and the classes of its accesses.
#[derive(Drop)]
pub struct Located {
    pub(crate) places: Places,
    pub(crate) classes: Classes,
    pub(crate) acquires: Acquires,
}

impl Located {
    /// Numbers the locations of the trace, and groups its accesses. This needs no orders, so another thread can
    /// compute them at the same time. Fails if memory runs out.
    pub fn of(alloc: Global, indexed: &Indexed) -> Result<Located, OutOfMemory>
        ensures { IfOk result (IsLocated indexed.now) }
    {
        let (places, classes) = grouped_of(alloc, indexed)?;
        let acquires = Acquires::new(alloc, indexed)?;
        Ok(Located {
            places,
            classes,
            acquires,
        })
    }

    /// The same, in two threads if a thread can be started.
    pub fn at_once<R: Threads>(
        rt: &R,
        alloc: Global,
        indexed: &Indexed,
    ) -> Result<Located, OutOfMemory>
        ensures { IfOk result (IsLocated indexed.now) }
    {
        let (acquires, grouped) = thread::join(
            rt,
            move || Acquires::new(alloc, indexed),
            move || grouped_of(alloc, indexed),
        );
        let (places, classes) = grouped?;
        Ok(Located {
            places,
            classes,
            acquires: acquires?,
        })
    }
}

// The locations of the trace, and the classes of its accesses.
fn grouped_of(alloc: Global, indexed: &Indexed) -> Result<(Places, Classes), OutOfMemory>
    ensures numbers { IfOk result (λ made. AreNumbers indexed.now made.0.numbers.items) }
    ensures spots { IfOk result (λ made. AreSpotsOf indexed.now made.0) }
    ensures firsts { IfOk result (λ made. AreFirstUsesOf indexed.now made.0) }
    ensures classes { IfOk result (λ made. AreClassesOf indexed.now made.0.numbers.items made.1) }
{
    let places = Places::of(alloc, indexed)?;
    let classes = Classes::of(alloc, indexed, places.numbers.as_slice())?;
    Ok((places, classes))
}
