//! Laws of the lists in the order of the trace. Each function here does nothing: its contract is a law of the
//! definitions, which `specs/trace_order/Laws.antt` states.
ghost use Rattle.witness_search.specs.trace_order.Laws.{RisingReorderingsAreClosed, InOrderIsSound, InOrderIsLeast, CandidatesAreInOrder, ReadyInOrderIsLeast};

/// A list in the order of the trace is a correct reordering exactly if it is closed.
pub fn rising_reorderings_are_closed()
    ensures { RisingReorderingsAreClosed }
{}

/// The list in order is a correct reordering, and shows the pair exactly if it has neither of the two.
pub fn in_order_is_sound()
    ensures { InOrderIsSound }
{}

/// Each list in the order of the trace that is a correct reordering and shows the pair has all events of the list in
/// order.
pub fn in_order_is_least()
    ensures { InOrderIsLeast }
{}

/// The events that any pair needs are in its slice, and a candidate has a list in order.
pub fn candidates_are_in_order()
    ensures { CandidatesAreInOrder }
{}

/// The events that one event needs before it are the least list in the order of the trace after which it can be
/// ready.
pub fn ready_in_order_is_least()
    ensures { ReadyInOrderIsLeast }
{}
