//! What no clause says: that each worker runs in a separate thread, that answers come, and that `start` and `submit`
//! succeed if memory suffices. A pool that serves on one thread, or always answers that it has stopped or is out of
//! memory, fails here.
ghost use Rattle.std.specs.Prelude.{◌≡◌, IfSome};
ghost use Rattle.std.specs.Arc.{arc_value};

use crate::fixtures::{ONE_LOCK, indexed_of};
use event_index::{EventList, Indexed};
use search_pool::{
    CollectRefusal, Found, Gate, Outcome, Pool, Request, StartRefusal, SubmitRefusal, Way,
};
use shb_clocks::Clocks;
use std::alloc::Global;
use std::sync::atomic::{AtomicBool, Ordering};
use std::sync::{Arc, Wait};
use std::thread;
use std::thread::Threads;
use witness_search::SliceRefusal;

fn shared_of(alloc: Global, text: &[u8]) -> Option<Arc<Indexed>> {
    match indexed_of(alloc, text) {
        Some(indexed) => Arc::new(alloc, indexed).ok(),
        None => None,
    }
}

fn shared_clocks(alloc: Global, clocks: Clocks) -> Option<Arc<Clocks>>
    ensures { IfSome result (λ shared. arc_value shared ≡ clocks) }
{
    match Arc::new(alloc, clocks) {
        Ok(shared) => Some(shared),
        Err(_) => None,
    }
}

// The clocks of the index, to be shared.
fn clocks_of(alloc: Global, indexed: &Indexed) -> Option<Arc<Clocks>>
    ensures { IfSome result (λ clocks. arc_value clocks ≡ indexed.now) }
{
    match Clocks::new(alloc, indexed) {
        Ok(clocks) => shared_clocks(alloc, clocks),
        Err(_) => None,
    }
}

// A gate that holds up the request of this number until the flag is set, or 10,000,000 looks were made.
#[derive(Drop)]
struct Holds {
    number: u32,
    is_open: Arc<AtomicBool>,
}

impl Gate for Holds {
    fn pass<R: Wait>(&mut self, _rt: &R, request: u32) {
        if request != self.number {
            return;
        }
        for _look in 0..10_000_000u32 {
            if self.is_open.load(Ordering::SeqCst) {
                return;
            }
            thread::yield_now();
        }
    }
}

fn gates_of(alloc: Global, count: u32, is_open: &Arc<AtomicBool>) -> Option<Vec<Holds>> {
    let mut gates = Vec::new(alloc);
    for _gate in 0..count {
        let is_open = match Arc::try_clone(is_open) {
            Ok(flag) => flag,
            Err(_) => return None,
        };
        if gates.push(Holds { number: 0, is_open }).is_err() {
            return None;
        }
    }
    Some(gates)
}

fn flag_of(alloc: Global, is_set: bool) -> Option<Arc<AtomicBool>> {
    match Arc::new(alloc, AtomicBool::new(is_set)) {
        Ok(flag) => Some(flag),
        Err(_) => None,
    }
}

fn pool_on<R: Threads + Wait + Clone + Send + Drop + 'static>(
    rt: &R,
    alloc: Global,
    indexed: Arc<Indexed>,
    gates: Vec<Holds>,
) -> Option<Result<Pool<Holds>, StartRefusal>> {
    match clocks_of(alloc, &indexed) {
        Some(clocks) => Some(Pool::start(rt, alloc, indexed, clocks, gates)),
        None => {
            drop(indexed);
            drop(gates);
            None
        }
    }
}

fn pool_behind<R: Threads + Wait + Clone + Send + Drop + 'static>(
    rt: &R,
    alloc: Global,
    gates: Vec<Holds>,
) -> Option<Result<Pool<Holds>, StartRefusal>> {
    match shared_of(alloc, ONE_LOCK) {
        Some(indexed) => pool_on(rt, alloc, indexed, gates),
        None => {
            drop(gates);
            None
        }
    }
}

// A pool of `count` workers on the trace.
fn pool_of<R: Threads + Wait + Clone + Send + Drop + 'static>(
    rt: &R,
    alloc: Global,
    count: u32,
    is_open: &Arc<AtomicBool>,
) -> Option<Result<Pool<Holds>, StartRefusal>> {
    match gates_of(alloc, count, is_open) {
        Some(gates) => pool_behind(rt, alloc, gates),
        None => None,
    }
}

fn is_refused<R: Threads + Wait + Clone + Send + Drop + 'static>(
    rt: &R,
    alloc: Global,
    count: u32,
) -> bool {
    let Some(is_open) = flag_of(alloc, true) else {
        return false;
    };
    match pool_of(rt, alloc, count, &is_open) {
        Some(Err(why)) => why == StartRefusal::BadCount,
        Some(Ok(pool)) => {
            pool.stop(rt);
            false
        }
        None => false,
    }
}

#[test]
fn a_pool_has_one_to_32_workers(rt: HostRuntime) {
    let alloc = rt.alloc();
    assert!(rt; is_refused(&rt, alloc, 0));
    assert!(rt; is_refused(&rt, alloc, 33));
}

fn greedy_request(alloc: Global) -> Request {
    Request {
        first: 0,
        second: 5,
        way: Way::Greedy {
            base: EventList::new(alloc),
            budget: 10,
        },
    }
}

fn slice_request() -> Request {
    Request {
        first: 0,
        second: 5,
        way: Way::Slice,
    }
}

// Whether this is what was found of the slice: the pair is no candidate.
fn is_no_slice(found: Result<Found, CollectRefusal>) -> bool {
    match found {
        Ok(
            Found {
                request,
                first,
                second,
                outcome: Outcome::NoSlice(why),
            },
        ) => { request == 1 && first == 0 && second == 5 && why == SliceRefusal::NotCandidate }
        _ => false,
    }
}

// Whether this is what was found by the search of this number.
fn is_witness(found: Result<Found, CollectRefusal>, number: u32) -> bool {
    match found {
        Ok(
            Found {
                request,
                first,
                second,
                outcome: Outcome::Witness(list),
            },
        ) => { request == number && first == 0 && second == 5 && list.items() == [3, 4].as_slice() }
        _ => false,
    }
}

fn is_pending(found: Result<Found, CollectRefusal>) -> bool {
    match found {
        Err(why) => why != CollectRefusal::NothingPending,
        Ok(_) => true,
    }
}

// The worker of request 0 is held up until the answer to request 1 was collected.
fn is_served_beside<R: Wait>(
    rt: &R,
    alloc: Global,
    pool: &mut Pool<Holds>,
    is_open: &AtomicBool,
) -> bool {
    if pool.submit(rt, greedy_request(alloc)) != Ok(0) {
        return false;
    }
    if pool.submit(rt, slice_request()) != Ok(1) {
        return false;
    }
    let is_first = is_no_slice(pool.collect(rt));
    is_open.store(true, Ordering::SeqCst);
    let is_second = is_witness(pool.collect(rt), 0);
    is_first && is_second && !is_pending(pool.collect(rt))
}

fn pool_serves<R: Threads + Wait + Clone + Send + Drop + 'static>(rt: &R, alloc: Global) -> bool {
    let Some(is_open) = flag_of(alloc, false) else {
        return false;
    };
    match pool_of(rt, alloc, 2, &is_open) {
        Some(Ok(mut pool)) => {
            let is_right = is_served_beside(rt, alloc, &mut pool, &is_open);
            is_open.store(true, Ordering::SeqCst);
            pool.stop(rt);
            is_right
        }
        _ => false,
    }
}

#[test]
fn pool_serves_on_one_thread(rt: HostRuntime) {
    assert!(rt; pool_serves(&rt, rt.alloc()));
}

// Whether a pool of one worker, asked once, starts, takes a request and answers it.
fn pool_answers<R: Threads + Wait + Clone + Send + Drop + 'static>(rt: &R, alloc: Global) -> bool {
    let Some(is_open) = flag_of(alloc, true) else {
        return false;
    };
    match pool_of(rt, alloc, 1, &is_open) {
        Some(Ok(mut pool)) => {
            let is_taken = pool.submit(rt, greedy_request(alloc)) == Ok(0);
            let is_answered = is_witness(pool.collect(rt), 0);
            pool.stop(rt);
            is_taken && is_answered
        }
        _ => false,
    }
}

#[test]
fn pool_always_out_of_memory(rt: HostRuntime) {
    assert!(rt; pool_answers(&rt, rt.alloc()));
}

// How many requests are taken, up to 70, before one is refused; and whether the reason is that too many are pending.
fn count_taken<R: Wait>(rt: &R, pool: &mut Pool<Holds>) -> (u32, bool) {
    for taken in 0..70u32 {
        match pool.submit(rt, slice_request()) {
            Ok(number) => {
                if number != taken {
                    return (taken, false);
                }
            }
            Err(why) => return (taken, why == SubmitRefusal::Busy),
        }
    }
    (70, false)
}

// The same, and whether a request is taken once an answer was collected, under the next number.
fn is_full_at_64<R: Wait>(rt: &R, pool: &mut Pool<Holds>) -> bool {
    if count_taken(rt, pool) != (64, true) {
        return false;
    }
    if !is_pending(pool.collect(rt)) {
        return false;
    }
    pool.submit(rt, slice_request()) == Ok(64)
}

fn pool_fills<R: Threads + Wait + Clone + Send + Drop + 'static>(rt: &R, alloc: Global) -> bool {
    let Some(is_open) = flag_of(alloc, true) else {
        return false;
    };
    match pool_of(rt, alloc, 1, &is_open) {
        Some(Ok(mut pool)) => {
            let is_right = is_full_at_64(rt, &mut pool);
            pool.stop(rt);
            is_right
        }
        _ => false,
    }
}

#[test]
fn a_65th_request_is_refused(rt: HostRuntime) {
    assert!(rt; pool_fills(&rt, rt.alloc()));
}

fn flag_again(alloc: Global) -> Option<Arc<AtomicBool>> {
    match flag_of(alloc, true) {
        Some(flag) => Some(flag),
        None => flag_of(alloc, true),
    }
}

// A pool of two workers, started at a second call where memory or a thread was wanting at the first.
fn pool_again<R: Threads + Wait + Clone + Send + Drop + 'static>(
    rt: &R,
    alloc: Global,
    is_open: &Arc<AtomicBool>,
) -> Option<Pool<Holds>> {
    match pool_of(rt, alloc, 2, is_open) {
        Some(Ok(pool)) => return Some(pool),
        Some(Err(why)) => {
            if why == StartRefusal::BadCount {
                return None;
            }
        }
        None => {}
    }
    match pool_of(rt, alloc, 2, is_open) {
        Some(Ok(pool)) => Some(pool),
        _ => None,
    }
}

// A search from the first list, which has an event.
fn request_from(alloc: Global) -> Option<Request> {
    let mut base = EventList::new(alloc);
    if base.push(3).is_err() && base.push(3).is_err() {
        return None;
    }
    Some(Request {
        first: 0,
        second: 5,
        way: Way::Greedy { base, budget: 10 },
    })
}

// Whether the request gets this number, at a second call where memory was wanting at the first.
fn is_taken_again<R: Wait>(rt: &R, alloc: Global, pool: &mut Pool<Holds>, number: u32) -> bool {
    let (Some(request), Some(again)) = (request_from(alloc), request_from(alloc)) else {
        return false;
    };
    match pool.submit(rt, request) {
        Err(SubmitRefusal::OutOfMemory) => pool.submit(rt, again) == Ok(number),
        answer => answer == Ok(number),
    }
}

// Whether the request of this number wanted memory.
fn is_wanting(found: &Result<Found, CollectRefusal>, number: u32) -> bool {
    match found {
        Ok(
            Found {
                request,
                first: _,
                second: _,
                outcome: Outcome::OutOfMemory,
            },
        ) => *request == number,
        _ => false,
    }
}

// Whether the search is answered, asked once more where its worker found no memory.
fn is_served_again<R: Wait>(rt: &R, alloc: Global, pool: &mut Pool<Holds>) -> bool {
    if !is_taken_again(rt, alloc, pool, 0) {
        return false;
    }
    let found = pool.collect(rt);
    if !is_wanting(&found, 0) {
        return is_witness(found, 0);
    }
    is_taken_again(rt, alloc, pool, 1) && is_witness(pool.collect(rt), 1)
}

fn pool_serves_again<R: Threads + Wait + Clone + Send + Drop + 'static>(
    rt: &R,
    alloc: Global,
) -> bool {
    let Some(is_open) = flag_again(alloc) else {
        return false;
    };
    match pool_again(rt, alloc, &is_open) {
        Some(mut pool) => {
            let is_right = is_served_again(rt, alloc, &mut pool) && !is_pending(pool.collect(rt));
            pool.stop(rt);
            is_right
        }
        None => false,
    }
}

#[test]
fn memory_a_pool_serves_when_asked_again(rt: HostRuntime) {
    assert!(rt; pool_serves_again(&rt, rt.alloc()));
}
