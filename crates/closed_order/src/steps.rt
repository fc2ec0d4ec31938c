//! The steps of a derivation.

/// A step of a derivation: the first event is in each correct reordering after which the requests are next. If there is
/// a second event, this holds of those that have it, and the first one comes before it.
#[derive(Clone, Copy)]
pub struct Step {
    pub first: u32,
    pub second: Option<u32>,
    pub rule: Rule,
}

/// By which rule a step follows. A premise is the number of an earlier step.
#[derive(Clone, Copy)]
pub enum Rule {
    /// The first event is the base of this request.
    Base { request: u32 },
    /// The first event is must-before the second one.
    Must,
    /// The steps are a chain: the first event precedes another one, which precedes the second one.
    Through { left: u32, right: u32 },
    /// The first event writes before this read, which reads what the second one wrote. It is there by `due`.
    Overwritten { read: u32, before: u32, due: u32 },
    /// The first event reads what another one wrote, which comes before the second one, a write.
    Unseen { after: u32, due: u32 },
    /// The first event reads what nobody wrote, and the second one is a write.
    Initial { due: u32 },
    /// The first event acquires a lock before this event, whose thread holds it since the second one.
    Enters { event: u32, before: u32, due: u32 },
    /// The first event ends the section that begins here. The second event is in a section of the same lock.
    Ends { start: u32, before: u32 },
    /// The second event's section never ends: its end comes after this request, or it has no end.
    Lasts { request: u32, due: u32 },
}
