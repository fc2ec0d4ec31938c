//! What a thread has gone through so far.
ghost use Rattle.std.specs.Prelude.{◌≡◌, ℕ, List, []};
ghost use Rattle.rapid_text.specs.declared.event.Event.{Event};
ghost use Rattle.rapid_text.specs.declared.event.Op.{Op};
ghost use Rattle.trace_rules.specs.Rules.{breach_of_op};
ghost use Rattle.trace_rules.specs.Tables.{IsLifeOf};

use crate::refusal::RuleCause;

/// Whether the thread has an event, whether it was forked, and whether it was joined.
#[derive(Clone, Copy)]
pub(crate) struct Life {
    pub(crate) has_event: bool,
    pub(crate) was_forked: bool,
    pub(crate) was_joined: bool,
}

/// The life of any thread before the first event of the trace.
pub(crate) fn unborn() -> Life
    ensures { (t : ℕ) → IsLifeOf [] t result }
{
    Life {
        has_event: false,
        was_forked: false,
        was_joined: false,
    }
}

/// The rule that the thread `by` breaks if it forks the thread `thread`, which has this life, now.
#[tactic(auto, using(std::proofs::lemmas::Bool::Decides::nat_tests, crate::proofs::LifeLemmas::fork_late))]
pub(crate) fn breach_of_fork(life: Life, thread: u32, by: u32) -> Option<RuleCause>
    ensures { (es : List Event) → IsLifeOf es thread life → result ≡ breach_of_op es by (Op.Fork thread) }
{
    if thread == by {
        return Some(RuleCause::OwnThread);
    }
    if life.was_forked {
        return Some(RuleCause::ForkTwice);
    }
    if life.has_event || life.was_joined {
        return Some(RuleCause::ForkLate);
    }
    None
}

/// The rule that the thread `by` breaks if it joins the thread `thread`.
#[tactic(auto, using(std::proofs::lemmas::Bool::Decides::nat_tests))]
pub(crate) fn breach_of_join(thread: u32, by: u32) -> Option<RuleCause>
    ensures { (es : List Event) → result ≡ breach_of_op es by (Op.Join thread) }
{
    if thread == by {
        Some(RuleCause::OwnThread)
    } else {
        None
    }
}
