//! Whether a request waits for another one.
ghost use Rattle.std.specs.Prelude.{◌≡◌, ◌≢◌, ◌<◌, ◌↔◌, ℕ, IsTrue, IfSome, None, Some, length};
ghost use Rattle.rapid_text.specs.declared.event.Op.TheVariants.{Acquire};
ghost use Rattle.event_index.specs.Events.{op_at};
ghost use Rattle.must_order.specs.MustBefore.{IsHeldBefore};
ghost use Rattle.lock_waits.specs.Waits.{WaitsFor};

use event_index::Indexed;
use must_order::Analysis;
use rapid_text::Op;

/// Whether the first request acquires a lock that the second one's thread holds. False also if the trace lacks one of
/// them.
pub fn waits_for(analysis: &Analysis, first: u32, second: u32) -> bool
    ensures waits { IsTrue result ↔ WaitsFor analysis.now.events first second }
{
    let indexed = analysis.indexed();
    if first >= indexed.len() {
        return false;
    }
    if second >= indexed.len() {
        return false;
    }
    match lock_of(indexed, first) {
        None => false,
        Some(lock) => is_held(analysis, second, lock),
    }
}

// Whether the event's thread holds the lock before it.
fn is_held(analysis: &Analysis, event: u32, lock: u32) -> bool
    requires event { event < length analysis.now.events }
    requires lock { lock < length analysis.now.locks }
    ensures { IsTrue result ↔ IsHeldBefore analysis.now.events event lock }
{
    match analysis.held_since(event, lock) {
        None => false,
        Some(_) => true,
    }
}

/// The lock that the event acquires, or None.
pub(crate) fn lock_of(indexed: &Indexed, event: u32) -> Option<u32>
    requires event { event < length indexed.now.events }
    ensures acquires { IfSome result (λ l. op_at indexed.now.events event ≡ Some (Acquire l)) }
    ensures named { IfSome result (λ l. l < length indexed.now.locks) }
    ensures none { result ≡ None → (l : ℕ) → op_at indexed.now.events event ≢ Some (Acquire l) }
{
    match indexed.event(event).op {
        Op::Acquire(lock) => Some(lock),
        Op::Read(_) => None,
        Op::Write(_) => None,
        Op::Release(_) => None,
        Op::Fork(_) => None,
        Op::Join(_) => None,
    }
}
