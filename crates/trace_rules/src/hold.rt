//! Who holds a lock.
ghost use Rattle.std.specs.Prelude.{◌≡◌, ℕ, ◌<◌, []};
ghost use Rattle.rapid_text.specs.declared.event.Op.{Op};
ghost use Rattle.trace_rules.specs.Rules.{breach_of_op};
ghost use Rattle.trace_rules.specs.Tables.{IsHoldOf, IsOpenTo, AfterHold, IsTakenBy, IsLetGoBy};

use crate::refusal::RuleCause;

/// The thread that holds a lock, and its acquires of the lock minus its releases of it.
#[derive(Clone, Copy)]
pub(crate) struct Hold {
    pub(crate) owner: Option<u32>,
    pub(crate) depth: u32,
}

/// The hold of a lock that no thread has acquired yet.
pub(crate) fn free() -> Hold
    ensures { (l : ℕ) → IsHoldOf [] l result }
{
    Hold {
        owner: None,
        depth: 0,
    }
}

/// The rule that the thread breaks if it acquires the lock now.
#[tactic(auto, using(crate::proofs::HoldLemmas::acquire_kept, crate::proofs::HoldLemmas::acquire_held))]
pub(crate) fn breach_of_acquire(hold: Hold, thread: u32) -> Option<RuleCause>
    ensures breach { AfterHold hold (λ es l. result ≡ breach_of_op es thread (Op.Acquire l)) }
    ensures allowed { result ≡ None → IsOpenTo thread hold }
{
    match hold.owner {
        Some(owner) if owner == thread => None,
        Some(_) => Some(RuleCause::AcquireHeld),
        None => None,
    }
}

/// The rule that the thread breaks if it releases the lock now.
pub(crate) fn breach_of_release(hold: Hold, thread: u32) -> Option<RuleCause>
    ensures breach { AfterHold hold (λ es l. result ≡ breach_of_op es thread (Op.Release l)) }
    ensures owned { result ≡ None → hold.owner ≡ Some thread }
{
    if hold.owner == Some(thread) {
        None
    } else {
        Some(RuleCause::ReleaseNotHeld)
    }
}

/// The hold after one more acquire by the thread.
pub(crate) fn taken(hold: Hold, thread: u32) -> Hold
    requires allowed { IsOpenTo thread hold }
    requires room { hold.depth < u32.MAX }
    ensures { IsTakenBy hold thread result }
{
    Hold {
        owner: Some(thread),
        depth: hold.depth + 1,
    }
}

/// The hold after one more release by the thread that holds the lock.
pub(crate) fn let_go(hold: Hold, thread: u32) -> Hold
    requires owned { hold.owner ≡ Some thread }
    requires deep { 0 < hold.depth }
    ensures { IsLetGoBy hold thread result }
{
    let depth = hold.depth - 1;
    if depth == 0 {
        free()
    } else {
        Hold {
            owner: Some(thread),
            depth,
        }
    }
}
