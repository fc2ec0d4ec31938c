//! For all events of one class of a thread together: the number of events of each class below their cuts.
ghost use Rattle.std.specs.Prelude.{◌≡◌, ◌<◌, IfOk, length};
ghost use Rattle.race_groups.specs.Basis.{AreBelow, AreBlank, IsBasis};

use crate::basis::Basis;
use crate::counting::{Classed, Front};
use crate::cuts::{Earlier, Forced, Known};
use crate::shares::Loose;
use crate::sums::sum_below;
use rapid_text::OutOfMemory;
use std::alloc::Global;

/// The sums below the three cuts.
#[derive(Drop)]
pub(crate) struct Below {
    pub(crate) earlier: Front,
    pub(crate) known: Front,
    pub(crate) forced: Front,
}

impl Below {
    /// The sums before any event is counted.
    pub(crate) fn new(alloc: Global, basis: Basis<'_>) -> Result<Below, OutOfMemory>
        ensures { IfOk result (AreBlank basis.entry) }
    {
        let threads = basis.indexed.threads() as usize;
        let size = basis.classes.infos.as_slice().len();
        Ok(Below {
            earlier: Front::new(alloc, threads, size)?,
            known: Front::new(alloc, threads, size)?,
            forced: Front::new(alloc, threads, size)?,
        })
    }

    /// Counts, for all events of the thread that are of the class together, the events of each class below their
    /// cuts.
    pub(crate) fn sum_up(&mut self, basis: Basis<'_>, thread: u32, class: u32)
        requires basis { IsBasis basis }
        requires thread { thread < length basis.indexed.now.threads }
        requires blank { AreBlank basis self.old }
        ensures { AreBelow basis.entry thread class self.new }
    {
        let indexed = basis.indexed;
        let numbers = basis.classes.numbers.as_slice();
        let earlier = Earlier { indexed };
        let known = Known {
            indexed,
            clocks: basis.clocks,
        };
        let forced = Forced {
            indexed,
            rows: basis.forced,
        };
        let classed = Classed { indexed, numbers };
        sum_below(&mut self.earlier, classed, &earlier, thread, class);
        sum_below(&mut self.known, classed, &known, thread, class);
        sum_below(&mut self.forced, classed, &forced, thread, class);
    }

    /// The counts from which the loose pairs follow.
    pub(crate) fn loose(&self) -> Loose<'_>
        ensures earlier { result.earlier.now ≡ self.now.earlier.counts.items }
        ensures known { result.known.now ≡ self.now.known.counts.items }
        ensures forced { result.forced.now ≡ self.now.forced.counts.items }
    {
        Loose {
            earlier: self.earlier.counts.as_slice(),
            known: self.known.counts.as_slice(),
            forced: self.forced.counts.as_slice(),
        }
    }
}
