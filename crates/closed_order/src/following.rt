//! Whether a step follows by must-before, or by a chain of earlier steps.
ghost use Rattle.std.specs.Prelude.{◌≡◌, ◌≢◌, ◌<◌, ◌↔◌, ℕ, All, IsTrue, IfSome, Option, None, Some, length};
ghost use Rattle.event_index.specs.Lookups.{base_of};
ghost use Rattle.closed_order.specs.Known.{IsBefore, IsKnown, IsTrueAfter, events_in};

use crate::known::{Known, is_must_before, is_said, is_there};
use crate::steps::Step;

// Whether the first event is the base of the request.
pub(crate) fn is_base(known: &Known<'_>, step: Step, request: u32) -> bool
    requires { IsKnown known.now }
    ensures { IsTrue result → IsTrueAfter known.now step }
{
    if !is_there(step) {
        return false;
    }
    match known.requests.get(request as usize) {
        None => false,
        Some(event) => has_base(known, *event, step.first),
    }
}

// Whether the event has this base.
fn has_base(known: &Known<'_>, event: u32, base: u32) -> bool
    requires { event < length (events_in known.now) }
    ensures { IsTrue result → base_of (events_in known.now) event ≡ Some base }
{
    known.analysis.indexed().base(event) == Some(base)
}

// Whether the first event is must-before the second one.
pub(crate) fn is_by_must(known: &Known<'_>, step: Step) -> bool
    ensures { IsTrue result → IsTrueAfter known.now step }
{
    match step.second {
        None => false,
        Some(second) => {
            if step.first == second {
                return false;
            }
            is_must_before(known, step.first, second)
        }
    }
}

// Whether the step is a chain of two earlier ones.
pub(crate) fn is_chain(known: &Known<'_>, step: Step, left: u32, right: u32) -> bool
    requires { IsKnown known.now }
    ensures { IsTrue result → IsTrueAfter known.now step }
{
    match middle_of(known, step, left) {
        None => false,
        Some(middle) => is_said(known, right, middle, step.second),
    }
}

// The event that the first one precedes by the earlier step with this number.
fn middle_of(known: &Known<'_>, step: Step, left: u32) -> Option<u32>
    requires { IsKnown known.now }
    ensures { IfSome result (λ m. IsBefore known.now step.first (Some m)) }
{
    match known.earlier.get(left as usize) {
        None => None,
        Some(earlier) => {
            if earlier.first != step.first {
                return None;
            }
            earlier.second
        }
    }
}
