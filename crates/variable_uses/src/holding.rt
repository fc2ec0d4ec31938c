//! The locks that threads hold while the events of a trace are visited.
ghost use Rattle.std.specs.Prelude.{◌≡◌, ◌+◌, ◌<◌, ℕ, Some, None, IfOk, IfSome, OnOk, length, All, false, slice_get, cond, ◌==◌};
ghost use Rattle.rapid_text.specs.Operations.{is_acquire, is_release};
ghost use Rattle.rapid_text.specs.declared.event.Op.TheVariants.{Acquire, Release};
ghost use Rattle.variable_uses.specs.Held.{AreHeld, times};

use event_index::Indexed;
use rapid_text::{Event, Op, OutOfMemory};
use std::alloc::Global;

/// A list of locks for each thread. A lock that is held twice is in the list twice.
pub(crate) type Held = Vec<Vec<u32>>;

/// The lists before the first event: no lock is held.
pub(crate) fn begin(alloc: Global, indexed: &Indexed) -> Result<Held, OutOfMemory>
    ensures held { IfOk result (λ held. AreHeld indexed.now.events 0 held.items) }
    ensures len { IfOk result (λ held. length held.items ≡ length indexed.now.threads) }
{
    let threads = indexed.threads();
    let mut held = Vec::with_capacity(alloc, threads as usize)?;
    for _thread in 0..threads {
        held.push(Vec::new(alloc))?;
    }
    Ok(held)
}

/// Updates the lists for an event: they are then those after it.
pub(crate) fn note(held: &mut Held, indexed: &Indexed, event: u32) -> Result<(), OutOfMemory>
    requires event { event < length indexed.now.events }
    requires held { AreHeld indexed.now.events event held.old.items }
    requires len { length held.old.items ≡ length indexed.now.threads }
    ensures held { OnOk result (AreHeld indexed.now.events (event + 1) held.new.items) }
    ensures len { OnOk result (length held.new.items ≡ length held.old.items) }
{
    let _len = indexed.len();
    let found = indexed.event(event);
    if let Some(lock) = acquired(found.op) {
        return take(held, indexed, event, found, lock);
    }
    if let Some(lock) = released(found.op) {
        free(held, indexed, event, found, lock);
    }
    Ok(())
}

// Adds the lock that the event acquires.
fn take(
    held: &mut Held,
    indexed: &Indexed,
    event: u32,
    found: Event,
    lock: u32,
) -> Result<(), OutOfMemory>
    requires found { slice_get indexed.now.events event ≡ Some found }
    requires op { found.op ≡ Acquire lock }
    requires thread { found.thread < length held.old.items }
    requires held { AreHeld indexed.now.events event held.old.items }
    ensures held { OnOk result (AreHeld indexed.now.events (event + 1) held.new.items) }
    ensures len { OnOk result (length held.new.items ≡ length held.old.items) }
{
    let _len = indexed.len();
    held[found.thread as usize].push(lock)?;
    Ok(())
}

// Removes the lock that the event releases.
fn free(held: &mut Held, indexed: &Indexed, event: u32, found: Event, lock: u32)
    requires found { slice_get indexed.now.events event ≡ Some found }
    requires op { found.op ≡ Release lock }
    requires thread { found.thread < length held.old.items }
    requires held { AreHeld indexed.now.events event held.old.items }
    ensures held { AreHeld indexed.now.events (event + 1) held.new.items }
    ensures len { length held.new.items ≡ length held.old.items }
{
    let _len = indexed.len();
    let_go(&mut held[found.thread as usize], lock);
}

// The lock that the operation acquires, or None.
fn acquired(op: Op) -> Option<u32>
    ensures some { IfSome result (λ l. op ≡ Acquire l) }
    ensures none { result ≡ None → (l : ℕ) → is_acquire l op ≡ false }
{
    match op {
        Op::Acquire(lock) => Some(lock),
        Op::Read(_) | Op::Write(_) | Op::Release(_) | Op::Fork(_) | Op::Join(_) => None,
    }
}

// The lock that the operation releases, or None.
fn released(op: Op) -> Option<u32>
    ensures some { IfSome result (λ l. op ≡ Release l) }
    ensures none { result ≡ None → (l : ℕ) → is_release l op ≡ false }
{
    match op {
        Op::Release(lock) => Some(lock),
        Op::Read(_) | Op::Write(_) | Op::Acquire(_) | Op::Fork(_) | Op::Join(_) => None,
    }
}

// Removes the lock from the list once.
fn let_go(locks: &mut Vec<u32>, lock: u32)
    requires { 0 < times lock locks.old.items }
    ensures { (k : ℕ) → times k locks.new.items + cond (lock == k) 1 0 ≡ times k locks.old.items }
{
    // The lock that was acquired last is usually released first.
    let mut at = locks.len();
    while at > 0 {
        at -= 1;
        if locks[at] == lock {
            locks.remove(at);
            return;
        }
    }
}
