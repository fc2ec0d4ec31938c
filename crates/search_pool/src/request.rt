//! The requests to a pool.
ghost use Rattle.std.specs.Prelude.{◌≡◌, IfOk, IsTrue};
ghost use Rattle.search_pool.specs.declared.request.Way.TheVariants.{Slice, Greedy};

use event_index::EventList;
use rapid_text::OutOfMemory;
use std::alloc::Global;

/// How a worker searches for a schedule that shows a pair.
#[derive(Drop)]
pub enum Way {
    /// As `slice` does.
    Slice,
    /// As `greedy` does, from a schedule of these events.
    Greedy {
        /// The events to begin with, in their order.
        base: EventList,
        /// The most events that the search adds.
        budget: u32,
    },
}

/// A pair to be shown, and the way to search for a schedule that shows it.
#[derive(Drop)]
pub struct Request {
    /// One event of the pair.
    pub first: u32,
    /// The other event.
    pub second: u32,
    /// The way to search.
    pub way: Way,
}

/// A request and its number.
#[derive(Drop)]
pub(crate) struct Posed {
    pub(crate) number: u32,
    pub(crate) request: Request,
}

fn way_copy(alloc: Global, way: &Way) -> Result<Way, OutOfMemory>
    ensures { IfOk result (λ copy. copy ≡ way.now) }
{
    match way {
        Way::Slice => Ok(Way::Slice),
        Way::Greedy { base, budget } => {
            let events = Vec::from_slice(alloc, base.items())?;
            Ok(Way::Greedy {
                base: EventList::from(events),
                budget: *budget,
            })
        }
    }
}

/// A copy of the request.
pub(crate) fn request_copy(alloc: Global, request: &Request) -> Result<Request, OutOfMemory>
    ensures { IfOk result (λ copy. copy ≡ request.now) }
{
    let way = way_copy(alloc, &request.way)?;
    Ok(Request {
        first: request.first,
        second: request.second,
        way,
    })
}

fn is_slice(way: &Way) -> bool
    ensures { IsTrue result → way.now ≡ Slice }
{
    match way {
        Way::Slice => true,
        Way::Greedy { base: _, budget: _ } => false,
    }
}

fn is_greedy(way: &Way, base: &[u32], budget: u32) -> bool
    ensures { IsTrue result → way.now ≡ Greedy base.now budget }
{
    match way {
        Way::Slice => false,
        Way::Greedy {
            base: own,
            budget: most,
        } => *most == budget && own.items() == base,
    }
}

fn is_same_way(one: &Way, other: &Way) -> bool
    ensures { IsTrue result → one.now ≡ other.now }
{
    match one {
        Way::Slice => is_slice(other),
        Way::Greedy { base, budget } => is_greedy(other, base.items(), *budget),
    }
}

/// Whether both are the same request with the same number.
pub(crate) fn is_same(one: &Posed, other: &Posed) -> bool
    ensures { IsTrue result → one.now ≡ other.now }
{
    one.number == other.number
        && one.request.first == other.request.first
        && one.request.second == other.request.second
        && is_same_way(&one.request.way, &other.request.way)
}
