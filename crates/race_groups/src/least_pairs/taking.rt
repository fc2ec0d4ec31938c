//! Adds the pairs of a window: each one, or the first one of each class.
ghost use Rattle.std.specs.Prelude.{◌≡◌, ℕ, ◌<◌, ◌≤◌, Contains, OnOk, Some};
ghost use Rattle.race_groups.specs.least_pairs.Going.{AreFound, AreMore, AreTakenBefore, IsSound, IsWindow, WasSeen, has_some, HasOfBunch, HasOfKind, HasWindow, WereSeen};
ghost use Rattle.race_groups.specs.least_pairs.Noted.{AreTrueNotes};

use crate::least_pairs::lanes::Bunch;
use crate::least_pairs::least::Least;
use crate::least_pairs::leasts::{Search, Sought};
use crate::least_pairs::noted::Noted;
use crate::least_pairs::reach::reach;
use crate::least_pairs::tries::Between;
use crate::least_pairs::windows::{Two, Window};
use rapid_text::OutOfMemory;

impl Search<'_> {
    /// Adds the pairs of a window, if the trace has pairs of the kind that the search visits.
    pub(crate) fn take(
        &self,
        sought: Sought,
        leasts: &mut [Least],
        noted: &mut Noted,
        window: Window,
    ) -> Result<(), OutOfMemory>
        requires sound { IsSound self.now }
        requires window { IsWindow sought self.now window }
        requires before { AreTakenBefore self.now window.later.variable leasts.old window.later.event }
        requires found { AreFound self.now window.later.variable leasts.old }
        requires noted { AreTrueNotes self.now window.later.variable leasts.old noted.old }
        ensures found { OnOk result (AreFound self.now window.entry.later.variable leasts.new) }
        ensures more { OnOk result (AreMore self.now.most window.entry.later.variable leasts.old leasts.new) }
        ensures noted { OnOk result (AreTrueNotes self.now window.entry.later.variable leasts.new noted.new) }
        ensures held { OnOk result (HasOfKind sought self.now leasts.new window.entry) }
    {
        if !self.has(sought) || window.from >= window.end {
            return Ok(());
        }
        let fresh = Window {
            lane: window.lane,
            later: window.later,
            from: self.fresh(sought, window),
            end: window.end,
        };
        if fresh.end.saturating_sub(fresh.from) <= fresh.lane.bunches.len() {
            self.take_each(sought, leasts, noted, fresh)?;
        } else {
            self.take_firsts(sought, leasts, noted, fresh)?;
        }
        Ok(())
    }

    // Whether the trace has any pairs of this kind.
    fn has(&self, sought: Sought) -> bool
        ensures { result ≡ has_some sought self.now }
    {
        match sought {
            Sought::Candidates => self.has_candidates,
            Sought::Opens => self.has_open,
        }
    }

    // The index in the window from which events were not compared with the last access of the same lane and class.
    fn fresh(&self, sought: Sought, window: Window) -> usize
        requires sound { IsSound self.now }
        requires window { IsWindow sought self.now window }
        requires some { window.from < window.end }
        ensures from { window.entry.from ≤ result }
        ensures within { result ≤ window.entry.end }
        ensures seen { WereSeen sought self.now window.entry result }
    {
        match window.later.previous {
            Some(previous) => self.seen(sought, window, previous).max(window.from),
            None => window.from,
        }
    }

    // How many events of the lane were compared with the last access of the same lane and class.
    fn seen(&self, sought: Sought, window: Window, previous: u32) -> usize
        requires sound { IsSound self.now }
        requires window { IsWindow sought self.now window }
        requires previous { window.later.previous ≡ Some previous }
        ensures within { result ≤ window.entry.end }
        ensures seen { (k : ℕ) → k < result → WasSeen sought self.now window.entry previous k }
    {
        match sought {
            Sought::Candidates => reach(window.lane.events.as_slice(), window.end, previous),
            Sought::Opens => reach(
                window.lane.places.as_slice(),
                window.end,
                self.known_end(previous, window.lane.thread),
            ),
        }
    }

    // Adds all pairs of a window.
    fn take_each(
        &self,
        sought: Sought,
        leasts: &mut [Least],
        noted: &mut Noted,
        window: Window,
    ) -> Result<(), OutOfMemory>
        requires sound { IsSound self.now }
        requires window { IsWindow sought self.now window }
        requires found { AreFound self.now window.later.variable leasts.old }
        requires noted { AreTrueNotes self.now window.later.variable leasts.old noted.old }
        ensures found { OnOk result (AreFound self.now window.entry.later.variable leasts.new) }
        ensures more { OnOk result (AreMore self.now.most window.entry.later.variable leasts.old leasts.new) }
        ensures noted { OnOk result (AreTrueNotes self.now window.entry.later.variable leasts.new noted.new) }
        ensures held { OnOk result (HasWindow sought self.now leasts.new window.entry) }
    {
        for at in window.from..window.end {
            let two = Two {
                first: window.lane.events[at],
                second: window.later.event,
                of: Between {
                    variable: window.later.variable,
                    earlier: window.lane.thread,
                    later: window.later.thread,
                },
            };
            self.take_pair(sought, leasts, noted, two)?;
        }
        Ok(())
    }

    // Adds the first pair of each class in a window.
    fn take_firsts(
        &self,
        sought: Sought,
        leasts: &mut [Least],
        noted: &mut Noted,
        window: Window,
    ) -> Result<(), OutOfMemory>
        requires sound { IsSound self.now }
        requires window { IsWindow sought self.now window }
        requires some { window.from < window.end }
        requires found { AreFound self.now window.later.variable leasts.old }
        requires noted { AreTrueNotes self.now window.later.variable leasts.old noted.old }
        ensures found { OnOk result (AreFound self.now window.entry.later.variable leasts.new) }
        ensures more { OnOk result (AreMore self.now.most window.entry.later.variable leasts.old leasts.new) }
        ensures noted { OnOk result (AreTrueNotes self.now window.entry.later.variable leasts.new noted.new) }
        ensures held { OnOk result (HasWindow sought self.now leasts.new window.entry) }
    {
        for at in 0..window.lane.bunches.len() {
            self.take_first(sought, leasts, noted, window, &window.lane.bunches[at])?;
        }
        Ok(())
    }

    // Adds the first pair of one class in a window.
    fn take_first(
        &self,
        sought: Sought,
        leasts: &mut [Least],
        noted: &mut Noted,
        window: Window,
        bunch: &Bunch,
    ) -> Result<(), OutOfMemory>
        requires sound { IsSound self.now }
        requires window { IsWindow sought self.now window }
        requires some { window.from < window.end }
        requires bunch { Contains window.lane.now.bunches.items bunch.now }
        requires found { AreFound self.now window.later.variable leasts.old }
        requires noted { AreTrueNotes self.now window.later.variable leasts.old noted.old }
        ensures found { OnOk result (AreFound self.now window.entry.later.variable leasts.new) }
        ensures more { OnOk result (AreMore self.now.most window.entry.later.variable leasts.old leasts.new) }
        ensures noted { OnOk result (AreTrueNotes self.now window.entry.later.variable leasts.new noted.new) }
        ensures held { OnOk result (HasOfBunch sought self.now leasts.new window.entry bunch.now) }
    {
        let Some(first) = bunch.first(window.lane.events[window.from]) else {
            return Ok(());
        };
        if first > window.lane.events[window.end - 1] {
            return Ok(());
        }
        let two = Two {
            first,
            second: window.later.event,
            of: Between {
                variable: window.later.variable,
                earlier: window.lane.thread,
                later: window.later.thread,
            },
        };
        self.take_pair(sought, leasts, noted, two)?;
        Ok(())
    }
}
