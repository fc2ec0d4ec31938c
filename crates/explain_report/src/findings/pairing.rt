//! Which two events form a pair.
ghost use Rattle.std.specs.Prelude.{◌≡◌, ◌<◌, length, min, max, None, IfSome};
ghost use Rattle.event_index.specs.Relations.{IsConflicting};

use event_index::Indexed;

/// The two events, the earlier first, if they conflict. None if they do not, or if a number is no event of the trace.
pub fn pair_of(indexed: &Indexed, one: u32, other: u32) -> Option<(u32, u32)>
    ensures first { IfSome result (λ pair. pair.0 ≡ min one other) }
    ensures second { IfSome result (λ pair. pair.1 ≡ max one other) }
    ensures within { IfSome result (λ pair. pair.1 < length indexed.now.events) }
    ensures conflict { IfSome result (λ pair. IsConflicting indexed.now.events pair.0 pair.1) }
    ensures none { result ≡ None → ¬ IsConflicting indexed.now.events (min one other) (max one other) }
{
    let first = one.min(other);
    let second = one.max(other);
    if second >= indexed.len() {
        return None;
    }
    if !indexed.conflict(first, second) {
        return None;
    }
    Some((first, second))
}
