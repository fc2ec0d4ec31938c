//! The critical sections that are open before an event.
ghost use Rattle.std.specs.Prelude.{◌≡◌, ◌<◌, ◌↔◌, length, IsTrue, IfSome, None, Option};
ghost use Rattle.event_index.specs.Events.{thread_at};
ghost use Rattle.witness_search.specs.trace_order.Aims.{AreFronts};
ghost use Rattle.witness_search.specs.trace_order.Orders.{HasNoFront, IsFront, IsOpenSection};

use event_index::Indexed;
use rapid_text::Op;

/// The beginnings of the first sections that are open before the two events. If none is open before one of the two,
/// the event itself stands for it. Returns None if no section is open before either.
pub(crate) fn fronts_of(indexed: &Indexed, pair: (u32, u32)) -> Option<(u32, u32)>
    requires first { pair.0 < length indexed.now.events }
    requires second { pair.1 < length indexed.now.events }
    ensures fronts { IfSome result (AreFronts indexed.now.events pair.0 pair.1) }
    ensures none { result ≡ None → HasNoFront indexed.now.events pair.0 pair.1 }
{
    let first = front_of(indexed, pair.0);
    let second = front_of(indexed, pair.1);
    if first != pair.0 {
        return Some((first, second));
    }
    if second != pair.1 {
        return Some((first, second));
    }
    None
}

// The beginning of the first section that is open before the event, or the event.
fn front_of(indexed: &Indexed, event: u32) -> u32
    requires event { event < length indexed.now.events }
    ensures front { IsFront indexed.now.events event result }
    ensures within { result < length indexed.now.events }
{
    let events = indexed.thread_events(indexed.event(event).thread);
    for place in 0..indexed.place(event) as usize {
        if is_open(indexed, events[place], event) {
            return events[place];
        }
    }
    event
}

// Whether the earlier event begins a section that is open before the event.
fn is_open(indexed: &Indexed, earlier: u32, event: u32) -> bool
    requires earlier { earlier < event }
    requires event { event < length indexed.now.events }
    requires thread { thread_at indexed.now.events earlier ≡ thread_at indexed.now.events event }
    ensures { IsTrue result ↔ IsOpenSection indexed.now.events event earlier }
{
    let Op::Acquire(_lock) = indexed.event(earlier).op else {
        return false;
    };
    match indexed.section(earlier) {
        Some(end) => event < end,
        None => true,
    }
}
