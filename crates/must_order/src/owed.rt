//! The sections that have to end before an event although its row does not count their ends.
ghost use Rattle.std.specs.Prelude.{◌≡◌, ◌≢◌, ◌<◌, ◌+◌, length, None, Some, IfSome, slice_index};
ghost use Rattle.trace_rules.specs.Rules.{IsDisciplined};
ghost use Rattle.event_index.specs.Events.{thread_at};
ghost use Rattle.event_index.specs.Lookups.{place_of};
ghost use Rattle.must_order.specs.Layout.{IsBegun, IsClosed, row_in};
ghost use Rattle.must_order.specs.Sections.{AreSections, IsOwed, IsSettledOn, IsSettledBy, IsSettledWithin, IsSettledAt, LiesInSection, EndsLater, EndsBy};

use crate::sections::{Sections, is_open_at};
use event_index::Indexed;
use rapid_text::Op;

impl Sections {
    /// An acquire and the end of its section, which has to end before the event: the row counts the acquire and not
    /// the end.
    pub(crate) fn owed(&self, indexed: &Indexed, row: &[u32], event: u32) -> Option<(u32, u32)>
        requires rules { IsDisciplined indexed.now.events }
        requires event { event < length indexed.now.events }
        requires known { AreSections indexed.now event self.now }
        requires row { length row.now ≡ length indexed.now.threads }
        requires begun { IsBegun indexed.now.events event (row_in row.now) }
        ensures owed { IfSome result (IsOwed indexed.now.events event (row_in row.now)) }
        ensures earlier { IfSome result (λ owed. owed.1 < event) }
        ensures none { result ≡ None → IsClosed indexed.now.events event (row_in row.now) }
    {
        for at in 0..self.held.len() {
            if let Some(owed) = self.owed_within(indexed, row, event, self.held[at]) {
                return Some(owed);
            }
        }
        self.owed_at(indexed, row, event)
    }

    /// The same for the lock that the event acquires, if it acquires one.
    pub(crate) fn owed_at(&self, indexed: &Indexed, row: &[u32], event: u32) -> Option<(u32, u32)>
        requires event { event < length indexed.now.events }
        requires known { AreSections indexed.now event self.now }
        requires row { length row.now ≡ length indexed.now.threads }
        requires begun { IsBegun indexed.now.events event (row_in row.now) }
        ensures owed { IfSome result (IsOwed indexed.now.events event (row_in row.now)) }
        ensures earlier { IfSome result (λ owed. owed.1 < event) }
        ensures none { result ≡ None → IsSettledAt indexed.now.events event (row_in row.now) }
    {
        match indexed.event(event).op {
            Op::Acquire(lock) => self.owed_on(indexed, row, event, lock),
            Op::Read(_) => None,
            Op::Write(_) => None,
            Op::Release(_) => None,
            Op::Fork(_) => None,
            Op::Join(_) => None,
        }
    }

    // The same for the lock of the acquire `begun`, if the event is in its section.
    fn owed_within(
        &self,
        indexed: &Indexed,
        row: &[u32],
        event: u32,
        begun: u32,
    ) -> Option<(u32, u32)>
        requires event { event < length indexed.now.events }
        requires known { AreSections indexed.now event self.now }
        requires row { length row.now ≡ length indexed.now.threads }
        requires begun { IsBegun indexed.now.events event (row_in row.now) }
        requires earlier { begun < event }
        ensures owed { IfSome result (IsOwed indexed.now.events event (row_in row.now)) }
        ensures earlier { IfSome result (λ owed. owed.1 < event) }
        ensures none { result ≡ None → IsSettledWithin indexed.now.events event (row_in row.now) begun }
    {
        let taken = indexed.event(begun);
        if taken.thread != indexed.event(event).thread {
            return None;
        }
        if !is_open_at(indexed, begun, event) {
            return None;
        }
        match taken.op {
            Op::Acquire(lock) => self.owed_on(indexed, row, event, lock),
            Op::Read(_) => None,
            Op::Write(_) => None,
            Op::Release(_) => None,
            Op::Fork(_) => None,
            Op::Join(_) => None,
        }
    }

    // The same for one lock, if the event is in a section of it.
    fn owed_on(&self, indexed: &Indexed, row: &[u32], event: u32, lock: u32) -> Option<(u32, u32)>
        requires event { event < length indexed.now.events }
        requires known { AreSections indexed.now event self.now }
        requires row { length row.now ≡ length indexed.now.threads }
        requires begun { IsBegun indexed.now.events event (row_in row.now) }
        requires lock { lock < length indexed.now.locks }
        requires inside { LiesInSection indexed.now.events event lock }
        ensures owed { IfSome result (IsOwed indexed.now.events event (row_in row.now)) }
        ensures earlier { IfSome result (λ owed. owed.1 < event) }
        ensures none { result ≡ None → IsSettledOn indexed.now.events event (row_in row.now) lock }
    {
        for thread in 0..indexed.threads() {
            if let Some(owed) = self.owed_by(indexed, row, event, lock, thread) {
                return Some(owed);
            }
        }
        None
    }

    // The same for one lock and one thread.
    fn owed_by(
        &self,
        indexed: &Indexed,
        row: &[u32],
        event: u32,
        lock: u32,
        thread: u32,
    ) -> Option<(u32, u32)>
        requires event { event < length indexed.now.events }
        requires known { AreSections indexed.now event self.now }
        requires row { length row.now ≡ length indexed.now.threads }
        requires begun { IsBegun indexed.now.events event (row_in row.now) }
        requires lock { lock < length indexed.now.locks }
        requires inside { LiesInSection indexed.now.events event lock }
        requires thread { thread < length indexed.now.threads }
        ensures owed { IfSome result (IsOwed indexed.now.events event (row_in row.now)) }
        ensures earlier { IfSome result (λ owed. owed.1 < event) }
        ensures none { result ≡ None → IsSettledBy indexed.now.events event (row_in row.now) lock thread }
    {
        let own = indexed.event(event).thread;
        if own == thread {
            return None;
        }
        if row[thread as usize] == 0 {
            return None;
        }
        let last = last_counted(indexed, row, event, thread);
        match self.last_before(indexed, event, lock, last + 1) {
            None => None,
            Some(begun) => end_after(indexed, begun, thread, last),
        }
    }
}

// The last event of another thread that the row counts.
fn last_counted(indexed: &Indexed, row: &[u32], event: u32, thread: u32) -> u32
    requires rules { IsDisciplined indexed.now.events }
    requires event { event < length indexed.now.events }
    requires row { length row.now ≡ length indexed.now.threads }
    requires begun { IsBegun indexed.now.events event (row_in row.now) }
    requires thread { thread < length indexed.now.threads }
    requires other { thread_at indexed.now.events event ≢ Some thread }
    requires some { 0 < slice_index row.now thread }
    ensures place { place_of indexed.now.events result + 1 ≡ slice_index row.now thread }
    ensures of { thread_at indexed.now.events result ≡ Some thread }
    ensures earlier { result < event }
{
    indexed.thread_events(thread)[row[thread as usize] as usize - 1]
}

// The acquire and the end of its section, if the acquire is of the thread and its section ends after the event
// `last`.
fn end_after(indexed: &Indexed, begun: u32, thread: u32, last: u32) -> Option<(u32, u32)>
    requires begun { begun < length indexed.now.events }
    ensures found { IfSome result (EndsLater indexed.now.events begun thread last) }
    ensures none { result ≡ None → EndsBy indexed.now.events begun thread last }
{
    if indexed.event(begun).thread != thread {
        return None;
    }
    match indexed.section(begun) {
        None => None,
        Some(release) => if last < release {
            Some((begun, release))
        } else {
            None
        },
    }
}
