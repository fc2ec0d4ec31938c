//! The pattern of two requests that wait for each other: the locations of both and of their holds.
ghost use Rattle.std.specs.Prelude.{◌≡◌, ◌≢◌, ◌<◌, ◌⊎◌, ◌↔◌, [], ◌∷◌, IfSome, IsTrue, None, Some, length, slice_index};
ghost use Rattle.rapid_text.specs.declared.event.Op.TheVariants.{Acquire};
ghost use Rattle.event_index.specs.Events.{op_at};
ghost use Rattle.lock_waits.specs.Waits.{IsCycle, WaitsFor};
ghost use Rattle.deadlock_triage.specs.Patterns.{HasPattern, IsPart, IsPartBefore};

use crate::requests::acquired;
use lock_waits::is_cycle;
use must_order::Analysis;

/// The locations of a request and of its hold, as numbers.
#[derive(Clone, Copy, PartialEq, Eq, Debug)]
pub struct Part {
    /// The location of the hold: the acquire since which the request's thread holds the lock that the other request
    /// acquires.
    pub hold: u32,
    /// The location of the request.
    pub request: u32,
}

/// The locations of two requests that wait for each other and of their holds. The lesser part comes first.
#[derive(Clone, Copy, PartialEq, Eq, Debug)]
pub struct Pattern {
    /// The lesser part.
    pub least: Part,
    /// The other part.
    pub other: Part,
}

/// The pattern of the two events if they are requests that wait for each other. Otherwise None.
pub(crate) fn pattern_of(
    analysis: &Analysis<'_>,
    places: &[u32],
    first: u32,
    second: u32,
) -> Option<Pattern>
    requires places { length places.now ≡ length analysis.now.events }
    requires first { first < length analysis.now.events }
    requires second { second < length analysis.now.events }
    ensures pattern { IfSome result (HasPattern analysis.now.events (slice_index places.now) first second) }
    ensures cycle { IfSome result (λ p. IsCycle analysis.now.events (first ∷ second ∷ [])) }
    ensures none { result ≡ None → ¬ IsCycle analysis.now.events (first ∷ second ∷ []) }
{
    if !is_cycle(analysis, &[first, second]) {
        return None;
    }
    match part_of(analysis, places, first, second) {
        None => None,
        Some(one) => with_part(analysis, places, first, second, one),
    }
}

// The pattern of two requests that wait for each other, given the part of the first one.
fn with_part(
    analysis: &Analysis<'_>,
    places: &[u32],
    first: u32,
    second: u32,
    one: Part,
) -> Option<Pattern>
    requires places { length places.now ≡ length analysis.now.events }
    requires first { first < length analysis.now.events }
    requires second { second < length analysis.now.events }
    requires one { IsPart analysis.now.events (slice_index places.now) first second one }
    requires cycle { IsCycle analysis.now.events (first ∷ second ∷ []) }
    ensures pattern { IfSome result (HasPattern analysis.now.events (slice_index places.now) first second) }
    ensures none { result ≢ None }
{
    match part_of(analysis, places, second, first) {
        None => None,
        Some(two) => Some(arranged(one, two)),
    }
}

// The part of a request, if its thread holds the lock that the other request acquires.
fn part_of(analysis: &Analysis<'_>, places: &[u32], request: u32, other: u32) -> Option<Part>
    requires places { length places.now ≡ length analysis.now.events }
    requires request { request < length analysis.now.events }
    requires other { other < length analysis.now.events }
    ensures part { IfSome result (IsPart analysis.now.events (slice_index places.now) request other) }
    ensures none { result ≡ None → ¬ WaitsFor analysis.now.events other request }
{
    match acquired(analysis.indexed(), other) {
        None => None,
        Some(lock) => part_by(analysis, places, request, other, lock),
    }
}

// The same, given the lock that the other request acquires.
fn part_by(
    analysis: &Analysis<'_>,
    places: &[u32],
    request: u32,
    _other: u32,
    lock: u32,
) -> Option<Part>
    requires places { length places.now ≡ length analysis.now.events }
    requires request { request < length analysis.now.events }
    requires lock { lock < length analysis.now.locks }
    requires acquires { op_at analysis.now.events _other ≡ Some (Acquire lock) }
    ensures part { IfSome result (IsPart analysis.now.events (slice_index places.now) request _other) }
    ensures none { result ≡ None → ¬ WaitsFor analysis.now.events _other request }
{
    match analysis.held_since(request, lock) {
        None => None,
        Some(hold) => Some(Part {
            hold: places[hold as usize],
            request: places[request as usize],
        }),
    }
}

// The pattern with these parts.
fn arranged(one: Part, two: Part) -> Pattern
    ensures parts { ((result.least ≡ one) × (result.other ≡ two)) ⊎ ((result.least ≡ two) × (result.other ≡ one)) }
    ensures arranged { ¬ IsPartBefore result.other result.least }
{
    if is_before(two, one) {
        Pattern {
            least: two,
            other: one,
        }
    } else {
        Pattern {
            least: one,
            other: two,
        }
    }
}

// Whether the one part is less than the other: by the hold, and then by the request.
fn is_before(one: Part, two: Part) -> bool
    ensures { IsTrue result ↔ IsPartBefore one two }
{
    one.hold < two.hold || (one.hold == two.hold && one.request < two.request)
}
