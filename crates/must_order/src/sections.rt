//! The critical sections among the events seen so far.
ghost use Rattle.std.specs.Prelude.{◌≡◌, ◌<◌, ◌≤◌, ◌+◌, ℕ, [], true, false, length, None, Some, IfOk, OnOk, IfSome, IsTrue, ◌↔◌};
ghost use Rattle.rapid_text.specs.declared.event.Op.TheVariants.{Acquire, Release};
ghost use Rattle.trace_rules.specs.Rules.{IsDisciplined};
ghost use Rattle.event_index.specs.Events.{op_at};
ghost use Rattle.must_order.specs.Held.{IsHeldFrom, AreLocksHeld};
ghost use Rattle.must_order.specs.MustBefore.{IsHeldBefore, IsSharedBefore};
ghost use Rattle.must_order.specs.Sections.{is_outer, last_outer, AreSections, IsOpenAt, EndsHeld, EndsNone, AreEmptyLists, LiesIn, LiesOutside};

use event_index::Indexed;
use rapid_text::{Op, OutOfMemory};
use std::alloc::Global;

/// The acquires whose thread did not hold the lock before.
#[derive(Drop)]
pub(crate) struct Sections {
    // For each lock these acquires, in the order of the trace.
    pub(crate) by_lock: Vec<Vec<u32>>,
    // Those of them whose section is open.
    pub(crate) held: Vec<u32>,
}

impl Sections {
    /// The state before the first event. Fails if memory runs out.
    pub(crate) fn new(alloc: Global, indexed: &Indexed) -> Result<Sections, OutOfMemory>
        ensures { IfOk result (AreSections indexed.now 0) }
    {
        let mut by_lock = Vec::new(alloc);
        match add_lists(alloc, &mut by_lock, indexed.trace().raw().locks()) {
            Ok(()) => Ok(Sections {
                by_lock,
                held: Vec::new(alloc),
            }),
            Err(refused) => Err(refused),
        }
    }

    /// Adds the event. Fails if memory runs out.
    pub(crate) fn note(&mut self, indexed: &Indexed, event: u32) -> Result<(), OutOfMemory>
        requires event { event < length indexed.now.events }
        requires known { AreSections indexed.now event self.old }
        ensures { OnOk result (AreSections indexed.now (event + 1) self.new) }
    {
        match indexed.event(event).op {
            Op::Acquire(lock) => self.begin(indexed, event, lock),
            Op::Release(_) => {
                self.end(indexed, event);
                Ok(())
            }
            Op::Read(_) => Ok(()),
            Op::Write(_) => Ok(()),
            Op::Fork(_) => Ok(()),
            Op::Join(_) => Ok(()),
        }
    }

    /// Whether both threads hold the lock before their events.
    pub(crate) fn is_shared(&self, indexed: &Indexed, first: u32, second: u32, lock: u32) -> bool
        requires known { AreSections indexed.now (length indexed.now.events) self.now }
        requires first { first < length indexed.now.events }
        requires second { second < length indexed.now.events }
        requires lock { lock < length indexed.now.locks }
        ensures { IsTrue result ↔ IsSharedBefore indexed.now.events first second lock }
    {
        if self.is_held(indexed, first, lock) {
            return self.is_held(indexed, second, lock);
        }
        false
    }

    /// The acquire since which the event's thread holds the lock before the event, or None.
    pub(crate) fn holder(&self, indexed: &Indexed, event: u32, lock: u32) -> Option<u32>
        requires known { AreSections indexed.now (length indexed.now.events) self.now }
        requires event { event < length indexed.now.events }
        requires lock { lock < length indexed.now.locks }
        ensures some { IfSome result (IsHeldFrom indexed.now.events event lock) }
        ensures none { result ≡ None → ¬ IsHeldBefore indexed.now.events event lock }
    {
        match self.last_before(indexed, indexed.len(), lock, event) {
            None => None,
            Some(begun) => if is_held_from(indexed, begun, event) {
                Some(begun)
            } else {
                None
            },
        }
    }

    // Appends the lock to `locks`, if the event's thread holds it before the event.
    pub(crate) fn add_held(
        &self,
        indexed: &Indexed,
        event: u32,
        lock: u32,
        locks: &mut Vec<u32>,
    ) -> Result<(), OutOfMemory>
        requires known { AreSections indexed.now (length indexed.now.events) self.now }
        requires event { event < length indexed.now.events }
        requires lock { lock < length indexed.now.locks }
        requires held { AreLocksHeld indexed.now.events event lock locks.old.items }
        ensures { OnOk result (AreLocksHeld indexed.now.events event (lock + 1) locks.new.items) }
    {
        if self.is_held(indexed, event, lock) {
            locks.push(lock)?;
        }
        Ok(())
    }

    // Whether the event's thread holds the lock before it.
    fn is_held(&self, indexed: &Indexed, event: u32, lock: u32) -> bool
        requires known { AreSections indexed.now (length indexed.now.events) self.now }
        requires event { event < length indexed.now.events }
        requires lock { lock < length indexed.now.locks }
        ensures { IsTrue result ↔ IsHeldBefore indexed.now.events event lock }
    {
        match self.last_before(indexed, indexed.len(), lock, event) {
            None => false,
            Some(begun) => is_held_from(indexed, begun, event),
        }
    }

    // Adds an acquire.
    fn begin(&mut self, indexed: &Indexed, event: u32, lock: u32) -> Result<(), OutOfMemory>
        requires rules { IsDisciplined indexed.now.events }
        requires event { event < length indexed.now.events }
        requires acquires { op_at indexed.now.events event ≡ Some (Acquire lock) }
        requires lock { lock < length indexed.now.locks }
        requires known { AreSections indexed.now event self.old }
        ensures { OnOk result (AreSections indexed.now (event + 1) self.new) }
    {
        if self.is_free(indexed, event, lock) {
            self.held.push(event)?;
            self.by_lock[lock as usize].push(event)?;
        }
        Ok(())
    }

    // Adds a release.
    fn end(&mut self, indexed: &Indexed, event: u32)
        requires event { event < length indexed.now.events }
        requires releases { (l : ℕ) × (op_at indexed.now.events event ≡ Some (Release l)) }
        requires known { AreSections indexed.now event self.old }
        ensures { AreSections indexed.now (event + 1) self.new }
    {
        if let Some(at) = self.ended_by(indexed, event) {
            self.held.swap_remove(at);
        }
    }

    // The index in `held` of the acquire whose section the event ends, or None.
    fn ended_by(&self, indexed: &Indexed, event: u32) -> Option<usize>
        requires known { AreSections indexed.now event self.now }
        requires event { event < length indexed.now.events }
        ensures found { IfSome result (EndsHeld indexed.now.events self.now event) }
        ensures none { result ≡ None → EndsNone indexed.now.events self.now event }
    {
        // The section that began last usually ends first.
        let mut at = self.held.len();
        while at > 0 {
            at -= 1;
            if indexed.section(self.held[at]) == Some(event) {
                return Some(at);
            }
        }
        None
    }

    // Whether no thread holds the lock before the event, which acquires it.
    fn is_free(&self, indexed: &Indexed, event: u32, lock: u32) -> bool
        requires rules { IsDisciplined indexed.now.events }
        requires event { event < length indexed.now.events }
        requires acquires { op_at indexed.now.events event ≡ Some (Acquire lock) }
        requires lock { lock < length indexed.now.locks }
        requires known { AreSections indexed.now event self.now }
        ensures { result ≡ is_outer indexed.now.events lock event }
    {
        match self.last_before(indexed, event, lock, event) {
            None => true,
            Some(begun) => match indexed.section(begun) {
                Some(end) => end < event,
                None => false,
            },
        }
    }

    /// The last acquire among the first `end` events whose thread did not hold the lock before. `seen` is the number
    /// of events added.
    pub(crate) fn last_before(
        &self,
        indexed: &Indexed,
        seen: u32,
        lock: u32,
        end: u32,
    ) -> Option<u32>
        requires known { AreSections indexed.now seen self.now }
        requires lock { lock < length indexed.now.locks }
        requires end { end ≤ seen }
        ensures last { result ≡ last_outer indexed.now.events lock end }
        ensures within { IfSome result (λ p. p < end) }
    {
        let begun = self.by_lock[lock as usize].as_slice();
        let count = begun.partition_point(|event| *event < end);
        if count == 0 {
            None
        } else {
            Some(begun[count - 1])
        }
    }
}

// Adds `count` empty lists.
fn add_lists(alloc: Global, lists: &mut Vec<Vec<u32>>, count: u32) -> Result<(), OutOfMemory>
    requires { lists.old.items ≡ [] }
    ensures len { OnOk result (length lists.new.items ≡ count) }
    ensures empty { OnOk result (AreEmptyLists lists.new.items count) }
{
    lists.reserve(count as usize)?;
    for _list in 0..count {
        lists.push(Vec::new(alloc))?;
    }
    Ok(())
}

/// Whether no event before this one ends the section of the acquire.
pub(crate) fn is_open_at(indexed: &Indexed, acquire: u32, event: u32) -> bool
    requires acquire { acquire < length indexed.now.events }
    ensures { IsTrue result ↔ IsOpenAt indexed.now.events event acquire }
{
    match indexed.section(acquire) {
        None => true,
        Some(release) => event <= release,
    }
}

// Whether the event is in the section of the acquire.
fn is_held_from(indexed: &Indexed, begun: u32, event: u32) -> bool
    requires begun { begun < length indexed.now.events }
    requires event { event < length indexed.now.events }
    ensures within { result ≡ true → LiesIn indexed.now.events begun event }
    ensures outside { result ≡ false → LiesOutside indexed.now.events begun event }
{
    if indexed.event(begun).thread != indexed.event(event).thread {
        return false;
    }
    is_open_at(indexed, begun, event)
}
