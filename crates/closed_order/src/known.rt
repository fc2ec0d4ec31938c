//! What is known when a step is looked at.
ghost use Rattle.std.specs.Prelude.{◌≡◌, ◌≢◌, ◌<◌, ◌↔◌, ℕ, All, IsTrue, IfSome, Option, None, Some, length};
ghost use Rattle.must_order.specs.MustBefore.{IsMustBefore};
ghost use Rattle.closed_order.specs.Known.{IsBefore, IsKnown, events_in};

use crate::steps::Step;
use event_index::Indexed;
use must_order::Analysis;

// A trace, the requests, and the steps that were found true.
#[derive(Clone, Copy)]
pub(crate) struct Known<'a> {
    pub(crate) analysis: &'a Analysis<'a>,
    pub(crate) requests: &'a [u32],
    pub(crate) earlier: &'a [Step],
}

// Whether the earlier step with this number says that the first event precedes the second one.
pub(crate) fn is_said(known: &Known<'_>, at: u32, first: u32, second: Option<u32>) -> bool
    requires { IsKnown known.now }
    ensures { IsTrue result → IsBefore known.now first second }
{
    match known.earlier.get(at as usize) {
        None => false,
        Some(step) => step.first == first && step.second == second,
    }
}

// Whether this event is the second one of the step.
pub(crate) fn is_before(step: Step, event: u32) -> bool
    ensures { IsTrue result → step.second ≡ Some event }
{
    step.second == Some(event)
}

// Whether the step says that its first event is there.
pub(crate) fn is_there(step: Step) -> bool
    ensures { IsTrue result → step.second ≡ None }
{
    step.second == None
}

// Whether both are events, and the first one is must-before the second one.
pub(crate) fn is_must_before(known: &Known<'_>, first: u32, second: u32) -> bool
    ensures { IsTrue result → IsMustBefore (events_in known.now) first second }
{
    let indexed = known.analysis.indexed();
    if first >= indexed.len() || second >= indexed.len() {
        return false;
    }
    known.analysis.must().before(first, second)
}
