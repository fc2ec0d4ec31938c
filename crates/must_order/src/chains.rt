//! Chains of steps that show why an event is must-before another.

/// Why the first event of a step comes before its second event.
#[derive(Clone, Copy, PartialEq, Eq, Debug)]
pub enum Reason {
    /// The first event is the one before the second in its thread.
    Later,
    /// The first event forks the thread of the second, which is that thread's first event.
    Forked,
    /// The first event is the write that the second reads.
    Written,
    /// The first event is of the thread that the second joins.
    Joined,
    /// The first event forks the thread that the second joins.
    ForkJoined,
    /// The first event ends the section of this acquire. The second is in a section of the same lock, or begins one,
    /// and the acquire comes before it.
    Ended(u32),
}

/// One step of a chain, from an event to a later one. Events are numbers, counted from 0.
#[derive(Clone, Copy, PartialEq, Eq, Debug)]
pub struct Step {
    /// The first event of the step.
    pub from: u32,
    /// The second event of the step.
    pub to: u32,
    /// Why the first comes before the second.
    pub reason: Reason,
}

/// Steps that lead from one event to another. There are none if both are the same.
#[derive(Drop)]
pub struct Chain {
    /// The event that the chain leads from.
    pub first: u32,
    /// The event that the chain leads to.
    pub last: u32,
    /// The steps in order. Each begins at the event where the one before it ends.
    pub steps: Vec<Step>,
}
