//! Why `check` refuses a trace, and at which event.

/// The rule that an event breaks. Each variant's comment starts with the number that the program prints.
#[derive(Clone, Copy, PartialEq, Eq, Debug)]
pub enum RuleCause {
    /// 11: the event releases a lock that its thread does not hold.
    ReleaseNotHeld,
    /// 12: the event acquires a lock that another thread holds.
    AcquireHeld,
    /// 13: the event forks a thread that an earlier event forked.
    ForkTwice,
    /// 14: the event forks a thread that already has an event or that an earlier event joined.
    ForkLate,
    /// 15: the event forks or joins its own thread.
    OwnThread,
    /// 16: an earlier event joined the event's thread.
    AfterJoin,
    /// 17: out of memory.
    OutOfMemory,
}

/// The first event that breaks a rule, and the first rule that it breaks. `check` tries the rules in the order 16,
/// 15, 13, 14, 12, 11.
#[derive(Clone, Copy, PartialEq, Eq, Debug)]
pub struct RuleRefusal {
    /// The event's number, counted from 0; 0 if memory ran out.
    pub event: u32,
    /// The rule that the event breaks, or `OutOfMemory`.
    pub why: RuleCause,
}
