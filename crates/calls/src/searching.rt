//! Workers that slice the first candidates of a trace, and a client that proposes the witnesses that they find.
ghost use Rattle.std.specs.Prelude.{◌≡◌, ◌⊎◌, ◌<◌, ◌≤◌, [], IfOk, IfErr, vec_len};
ghost use Rattle.std.specs.Arc.{arc_value};
ghost use Rattle.client_scripts.specs.declared.fault.ReplayFault.TheVariants.{OutOfMemory as NoMemory};
ghost use Rattle.calls.specs.declared.fault.BenchFault.TheVariants.{Replay, NoThread};
ghost use Rattle.calls.specs.Searches.{AreToSlice, ProposesSlices};
ghost use Rattle.calls.specs.Requests.{AreSlices, ProposesOutcome};

use crate::fault::BenchFault;
use client_scripts::ReplayFault;
use event_index::{Indexed, Pairs};
use inverse_log::{Call, Refusal};
use rapid_text::OutOfMemory;
use search_pool::{Found, Gate, Outcome, Pool, Request, StartRefusal, SubmitRefusal, Way};
use shb_clocks::Clocks;
use std::alloc::{AllocError, Global};
use std::sync::{Arc, Wait};
use std::thread::Threads;
use workspace_lock::{Seat, SeatRefusal};

/// The most workers of one run.
pub const MAX_WORKERS: u32 = 16;

/// How many candidates are sliced: the first 64, which is as many as a pool takes at a time.
const MAX_SLICED: u32 = 64;

/// A worker's gate that is always open.
#[derive(Clone, Copy)]
pub(crate) struct Open;

impl Gate for Open {
    fn pass<R: Wait>(&mut self, _rt: &R, _request: u32) {}
}

/// An open gate for each worker.
fn open_gates(alloc: Global, count: u32) -> Result<Vec<Open>, AllocError>
    ensures { IfOk result (λ gates. vec_len gates ≡ count) }
{
    let mut gates = Vec::new(alloc);
    for _ in 0..count {
        gates.push(Open)?;
    }
    Ok(gates)
}

/// Workers on a trace, and the pairs for which they compute slices.
pub(crate) struct Slicing {
    pub(crate) pool: Pool<Open>,
    pub(crate) pairs: Pairs,
}

/// Starts workers on the trace, which have no requests yet, and finds the pairs for which they will compute slices.
pub(crate) fn start_workers<R: Threads + Wait + Clone + Send + Drop + 'static>(
    rt: &R,
    alloc: Global,
    indexed: &Arc<Indexed, Global>,
    workers: u32,
) -> Result<Slicing, BenchFault>
    requires { (0 < workers) × (workers ≤ 16) }
    ensures trace { IfOk result (λ search. search.pool.trace ≡ arc_value indexed.now) }
    ensures pending { IfOk result (λ search. search.pool.pending ≡ []) }
    ensures pairs { IfOk result (λ search. AreToSlice (arc_value indexed.now) search.pairs) }
    ensures fault { IfErr result (λ fault. (fault ≡ Replay NoMemory) ⊎ (fault ≡ NoThread)) }
{
    let clocks = Clocks::new(alloc, indexed)?;
    let pairs = clocks.candidates(alloc, indexed, MAX_SLICED)?;
    let gates = open_gates(alloc, workers)?;
    let clocks = Arc::new(alloc, clocks)?;
    let theirs = Arc::try_clone(indexed)?;
    match Pool::start(rt, alloc, theirs, clocks, gates) {
        Ok(pool) => Ok(Slicing { pool, pairs }),
        Err(StartRefusal::OutOfMemory) => Err(BenchFault::Replay(ReplayFault::OutOfMemory)),
        Err(StartRefusal::NoThread) => Err(BenchFault::NoThread),
        Err(StartRefusal::BadCount) => unreachable!(),
    }
}

/// Requests a slice of each pair. Returns false if the workers have stopped, or have too many requests.
fn ask_all<R: Wait>(
    rt: &R,
    pool: &mut Pool<Open>,
    pairs: &[(u32, u32)],
) -> Result<bool, OutOfMemory>
    requires { pool.old.pending ≡ [] }
    ensures trace { pool.new.trace ≡ pool.old.trace }
    ensures asked { AreSlices pairs.now pool.new.pending }
{
    for pair in pairs {
        let request = Request {
            first: pair.0,
            second: pair.1,
            way: Way::Slice,
        };
        match pool.submit(rt, request) {
            Ok(_) => {}
            Err(SubmitRefusal::OutOfMemory) => return Err(OutOfMemory),
            Err(SubmitRefusal::Busy | SubmitRefusal::Stopped) => return Ok(false),
        }
    }
    Ok(true)
}

/// Proposes a witness through the seat, if the worker found one. A refusal is ignored, unless memory ran out.
fn propose<R: Wait>(rt: &R, seat: &mut Seat, found: Found) -> Result<(), OutOfMemory>
    ensures proposes { ProposesOutcome found.first found.second found.outcome seat.old seat.new }
    ensures seat { (seat.new.site ≡ seat.old.site) × (seat.new.number ≡ seat.old.number) }
{
    let Found {
        request: _,
        first,
        second,
        outcome,
    } = found;
    let Outcome::Witness(events) = outcome else {
        return Ok(());
    };
    let call = Call::Propose {
        first,
        second,
        events,
    };
    let outcome = match seat.run(rt, &call) {
        Err(SeatRefusal::Bench(Refusal::OutOfMemory)) => Err(OutOfMemory),
        _ => Ok(()),
    };
    drop(call);
    outcome
}

/// Proposes the witnesses for these pairs, as the workers find them.
fn propose_all<R: Wait>(
    rt: &R,
    pool: &mut Pool<Open>,
    pairs: &[(u32, u32)],
    seat: &mut Seat,
) -> Result<(), OutOfMemory>
    requires { AreSlices pairs.now pool.old.pending }
    ensures proposes { ProposesSlices pool.old.trace.events pairs.now seat.old seat.new }
    ensures seat { (seat.new.site ≡ seat.old.site) × (seat.new.number ≡ seat.old.number) }
{
    for _ in 0..pairs.len() {
        let Ok(found) = pool.collect(rt) else {
            return Ok(());
        };
        propose(rt, seat, found)?;
    }
    Ok(())
}

/// Requests a slice of each pair from the workers, and proposes each witness through the seat as it comes. Once the
/// workers have stopped, nothing more is requested.
pub(crate) fn search<R: Wait>(
    rt: &R,
    pool: &mut Pool<Open>,
    pairs: &Pairs,
    seat: &mut Seat,
) -> Result<(), OutOfMemory>
    requires { pool.old.pending ≡ [] }
    ensures proposes { ProposesSlices pool.old.trace.events pairs.now seat.old seat.new }
    ensures seat { (seat.new.site ≡ seat.old.site) × (seat.new.number ≡ seat.old.number) }
{
    if !ask_all(rt, pool, pairs.items())? {
        return Ok(());
    }
    propose_all(rt, pool, pairs.items(), seat)
}
