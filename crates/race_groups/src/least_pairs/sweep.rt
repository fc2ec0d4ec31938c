//! Compares an access of a variable with all accesses before it.
ghost use Rattle.std.specs.Prelude.{◌≡◌, ◌+◌, ◌<◌, true, OnOk, length};
ghost use Rattle.race_groups.specs.Ends.{known_before};
ghost use Rattle.race_groups.specs.least_pairs.Going.{AreClashing, AreFound, AreMore, AreTakenBefore, AreTakenWith, IsSound, AreTakenWithAll, forced_below};
ghost use Rattle.race_groups.specs.least_pairs.Lanes.{IsLater};
ghost use Rattle.race_groups.specs.least_pairs.Making.{AreBegun, IsBegun};
ghost use Rattle.race_groups.specs.least_pairs.Noted.{AreTrueNotes};

use crate::least_pairs::lanes::{Lane, Later};
use crate::least_pairs::least::Least;
use crate::least_pairs::leasts::{Search, Sought};
use crate::least_pairs::noted::Noted;
use crate::least_pairs::reach::reach;
use crate::least_pairs::windows::{Window, are_clashing};
use rapid_text::OutOfMemory;

/// The number of a thread's events that SHB keeps before an access, and the number that are must-before it.
#[derive(Clone, Copy)]
struct Ends {
    known: u32,
    forced: u32,
}

impl Search<'_> {
    /// Adds the pairs of an access with the events of all lanes.
    pub(crate) fn access(
        &self,
        leasts: &mut [Least],
        noted: &mut Noted,
        lanes: &[Lane],
        later: Later,
    ) -> Result<(), OutOfMemory>
        requires sound { IsSound self.now }
        requires variable { later.variable < length self.now.indexed.now.variables }
        requires later { IsLater self.now.indexed.now.events self.now.classes.now.numbers.items later }
        requires lanes { AreBegun self.now.indexed.now.events self.now.classes.now.numbers.items later.variable (later.event + 1) lanes.now }
        requires before { AreTakenBefore self.now later.variable leasts.old later.event }
        requires found { AreFound self.now later.variable leasts.old }
        requires noted { AreTrueNotes self.now later.variable leasts.old noted.old }
        ensures found { OnOk result (AreFound self.now later.variable leasts.new) }
        ensures more { OnOk result (AreMore self.now.most later.variable leasts.old leasts.new) }
        ensures noted { OnOk result (AreTrueNotes self.now later.variable leasts.new noted.new) }
        ensures taken { OnOk result (AreTakenWithAll self.now leasts.new lanes.now later) }
    {
        for at in 0..lanes.len() {
            self.below(leasts, noted, &lanes[at], later)?;
        }
        Ok(())
    }

    // Adds the pairs of an access with the events of a lane.
    fn below(
        &self,
        leasts: &mut [Least],
        noted: &mut Noted,
        lane: &Lane,
        later: Later,
    ) -> Result<(), OutOfMemory>
        requires sound { IsSound self.now }
        requires variable { later.variable < length self.now.indexed.now.variables }
        requires later { IsLater self.now.indexed.now.events self.now.classes.now.numbers.items later }
        requires lane { IsBegun self.now.indexed.now.events self.now.classes.now.numbers.items later.variable (later.event + 1) lane.now }
        requires before { AreTakenBefore self.now later.variable leasts.old later.event }
        requires found { AreFound self.now later.variable leasts.old }
        requires noted { AreTrueNotes self.now later.variable leasts.old noted.old }
        ensures found { OnOk result (AreFound self.now later.variable leasts.new) }
        ensures more { OnOk result (AreMore self.now.most later.variable leasts.old leasts.new) }
        ensures noted { OnOk result (AreTrueNotes self.now later.variable leasts.new noted.new) }
        ensures taken { OnOk result (AreTakenWith self.now leasts.new lane.now later) }
    {
        if !are_clashing(lane, later) {
            return Ok(());
        }
        if self.are_forced(lane, later) {
            return Ok(());
        }
        self.compare(leasts, noted, lane, later)?;
        Ok(())
    }

    // Whether all events of the lane are must-before the access's base, or are that base.
    fn are_forced(&self, lane: &Lane, later: Later) -> bool
        requires sound { IsSound self.now }
        requires lanes { AreClashing self.now lane.now later }
        ensures { result ≡ true → lane.now.last < forced_below self.now later.event lane.now.thread }
    {
        lane.last < self.forced_end(later.event, lane.thread)
    }

    // The ends of the two orders in the lane's thread.
    fn ends(&self, lane: &Lane, later: Later) -> Ends
        requires sound { IsSound self.now }
        requires lanes { AreClashing self.now lane.now later }
        ensures known { result.known ≡ known_before self.now.indexed.now.events later.event lane.now.thread }
        ensures forced { result.forced ≡ forced_below self.now later.event lane.now.thread }
    {
        Ends {
            known: self.known_end(later.event, lane.thread),
            forced: self.forced_end(later.event, lane.thread),
        }
    }

    // Adds the candidates of an access in a lane, and then the pairs that SHB orders and must-before does not.
    fn compare(
        &self,
        leasts: &mut [Least],
        noted: &mut Noted,
        lane: &Lane,
        later: Later,
    ) -> Result<(), OutOfMemory>
        requires sound { IsSound self.now }
        requires lanes { AreClashing self.now lane.now later }
        requires before { AreTakenBefore self.now later.variable leasts.old later.event }
        requires found { AreFound self.now later.variable leasts.old }
        requires noted { AreTrueNotes self.now later.variable leasts.old noted.old }
        ensures found { OnOk result (AreFound self.now later.variable leasts.new) }
        ensures more { OnOk result (AreMore self.now.most later.variable leasts.old leasts.new) }
        ensures noted { OnOk result (AreTrueNotes self.now later.variable leasts.new noted.new) }
        ensures taken { OnOk result (AreTakenWith self.now leasts.new lane.now later) }
    {
        let ends = self.ends(lane, later);
        let places = lane.places.as_slice();
        let end = lane.places.len();
        let known = reach(places, end, ends.known);
        let forced = reach(places, known, ends.forced);
        let candidates = Window {
            lane,
            later,
            from: known,
            end,
        };
        self.take(Sought::Candidates, leasts, noted, candidates)?;
        let opens = Window {
            lane,
            later,
            from: forced,
            end: known,
        };
        self.take(Sought::Opens, leasts, noted, opens)?;
        Ok(())
    }

    /// The number of events of the thread that SHB keeps before the event's base, with that base.
    pub(crate) fn known_end(&self, event: u32, thread: u32) -> u32
        requires sound { IsSound self.now }
        requires event { event < length self.now.indexed.now.events }
        requires thread { thread < length self.now.indexed.now.threads }
        ensures { result ≡ known_before self.now.indexed.now.events event thread }
    {
        match self.indexed.base(event) {
            None => 0,
            Some(base) => self.clocks.known(self.indexed, base, thread),
        }
    }

    // The number of events of the thread that are must-before the event's base, with that base.
    fn forced_end(&self, event: u32, thread: u32) -> u32
        requires sound { IsSound self.now }
        requires event { event < length self.now.indexed.now.events }
        requires thread { thread < length self.now.indexed.now.threads }
        ensures { result ≡ forced_below self.now event thread }
    {
        match self.indexed.base(event) {
            None => 0,
            Some(base) => self.rows.count(base, thread),
        }
    }
}
