//! Runs scripts at the same time, with a client in the background that proposes the witnesses of the workers.
ghost use Rattle.std.specs.Prelude.{[], ◌≡◌, ◌≤◌, ◌<◌, ◌⊎◌, ◌++◌, List, Option, All, IfOk, IfErr, OnOk, suc, None, length, replicate};
ghost use Rattle.std.specs.Arc.{arc_value};
ghost use Rattle.std.specs.Thread.{IsSync};
ghost use Rattle.shb_clocks.specs.Candidates.{AreFirstCandidates};
ghost use Rattle.workspace_lock.specs.Seating.{Site, SeatView, fresh_rows, fresh_seat};
ghost use Rattle.calls.specs.Jobs.{AnswerJobs};
ghost use Rattle.calls.specs.Requests.{AreBehind, SearchesBy};
ghost use Rattle.calls.specs.Searches.{further_clients, ProposesSlices};
ghost use Rattle.calls.specs.Threads.{IsRunFault};

use crate::fault::BenchFault;
use crate::searching::{Open, Slicing, search, start_workers};
use crate::seating::{Job, Told, give_back, run_all};
use event_index::{Indexed, Pairs};
use rapid_text::OutOfMemory;
use search_pool::Pool;
use std::alloc::{AllocError, Global};
use std::sync::{Arc, Wait};
use std::thread;
use std::thread::Threads;
use workspace_lock::{Seat, Seats};

/// How many clients there are besides those of the scripts: 1 if there are workers, else 0. This client proposes the
/// witnesses that the workers find.
pub(crate) fn clients_beside(workers: u32) -> u32
    ensures count { result ≡ further_clients workers }
    ensures few { result ≤ 1 }
{
    if workers == 0 { 0 } else { 1 }
}

/// Looks for witnesses and proposes them through the seat. Gives the seat back.
fn search_through<R: Wait>(
    rt: &R,
    pool: &mut Pool<Open>,
    pairs: &Pairs,
    mut seat: Seat,
) -> (Seat, Result<(), OutOfMemory>)
    requires { pool.old.pending ≡ [] }
    ensures proposes { ProposesSlices pool.old.trace.events pairs.now seat result.0 }
    ensures seat { (result.0.site ≡ seat.site) × (result.0.number ≡ seat.number) }
{
    let outcome = search(rt, pool, pairs, &mut seat);
    (seat, outcome)
}

/// Makes the calls of the scripts, each in a separate thread, while this thread proposes witnesses through the seat.
fn run_both<R: Threads + Wait + Sync>(
    rt: &R,
    alloc: Global,
    indexed: &Indexed,
    jobs: Vec<Job>,
    work: &mut Slicing,
    seat: Seat,
) -> (
    Result<Vec<Told>, AllocError>,
    (Seat, Result<(), OutOfMemory>),
)
    requires { work.old.pool.pending ≡ [] }
    ensures told { IfOk result.0 (λ told. AnswerJobs indexed.now jobs.items told.items) }
    ensures site { IfOk result.0
        (λ told. (s : Site) → All (λ job. job.0.site ≡ s) jobs.items → All (λ t. t.0.site ≡ s) told.items) }
    ensures proposes { ProposesSlices work.old.pool.trace.events work.old.pairs seat result.1.0 }
    ensures seat { (result.1.0.site ≡ seat.site) × (result.1.0.number ≡ seat.number) }
{
    let Slicing { pool, pairs } = work;
    let pairs: &Pairs = pairs;
    thread::join(
        rt,
        move || -> Result<Vec<Told>, AllocError>
            requires { IsSync R.row }
            ensures told { IfOk result (λ told. AnswerJobs indexed.entry.now jobs.items told.items) }
            ensures site { IfOk result
                (λ told. (s : Site) → All (λ job. job.0.site ≡ s) jobs.items → All (λ t. t.0.site ≡ s) told.items) }
        { run_all(rt, alloc, indexed, jobs) },
        move || -> (Seat, Result<(), OutOfMemory>)
            requires { pool.now.pending ≡ [] }
            ensures proposes { ProposesSlices pool.entry.now.trace.events pairs.entry.now seat result.0 }
            ensures seat { (result.0.site ≡ seat.site) × (result.0.number ≡ seat.number) }
        { search_through(rt, pool, pairs, seat) },
    )
}

/// Starts workers, runs the scripts beside them, and stops the workers.
fn run_searched<R: Threads + Wait + Sync + Clone + Send + Drop + 'static>(
    rt: &R,
    alloc: Global,
    indexed: &Arc<Indexed, Global>,
    jobs: Vec<Job>,
    workers: u32,
    seat: Seat,
) -> Result<(Vec<Told>, Seat), BenchFault>
    requires { (0 < workers) × (workers ≤ 16) }
    ensures told { IfOk result (λ r. AnswerJobs (arc_value indexed.now) jobs.items r.0.items) }
    ensures site { IfOk result
        (λ r. (s : Site) → All (λ job. job.0.site ≡ s) jobs.items → All (λ t. t.0.site ≡ s) r.0.items) }
    ensures searches { IfOk result (λ r. SearchesBy (arc_value indexed.now) seat r.1) }
    ensures seat { IfOk result (λ r. (r.1.site ≡ seat.site) × (r.1.number ≡ seat.number)) }
    ensures fault { IfErr result (λ fault. IsRunFault workers fault) }
{
    let mut work = start_workers(rt, alloc, indexed, workers)?;
    let (told, (seat, outcome)) = run_both(rt, alloc, indexed, jobs, &mut work, seat);
    let Slicing { pool, pairs: _ } = work;
    pool.stop(rt);
    outcome?;
    Ok((told?, seat))
}

/// Makes the calls of the scripts, each in a separate thread. If there are workers, the client of the seat that is
/// still in proposes what they find at the same time.
pub(crate) fn run_beside<R: Threads + Wait + Sync + Clone + Send + Drop + 'static>(
    rt: &R,
    alloc: Global,
    indexed: &Arc<Indexed, Global>,
    seats: &mut Seats,
    jobs: Vec<Job>,
    workers: u32,
) -> Result<Vec<Told>, BenchFault>
    requires workers { workers ≤ 16 }
    requires rows { seats.old.rows ≡ replicate (length jobs.items) None ++ fresh_rows seats.old.site (suc (length jobs.items)) (further_clients workers) }
    ensures told { IfOk result (λ told. AnswerJobs (arc_value indexed.now) jobs.items told.items) }
    ensures site { IfOk result
        (λ told. (s : Site) → All (λ job. job.0.site ≡ s) jobs.items → All (λ t. t.0.site ≡ s) told.items) }
    ensures seats { seats.new.site ≡ seats.old.site }
    ensures rows { OnOk result ((rows : List (Option SeatView))
        × AreBehind workers (arc_value indexed.now) seats.old.site (suc (length jobs.items)) rows
        × (seats.new.rows ≡ replicate (length jobs.items) None ++ rows)) }
    ensures fault { IfErr result (λ fault. IsRunFault workers fault) }
{
    if workers == 0 {
        return Ok(run_all(rt, alloc, indexed, jobs)?);
    }
    let Some(seat) = seats.take() else {
        unreachable!()
    };
    let (told, seat) = run_searched(rt, alloc, indexed, jobs, workers, seat)?;
    give_back(seats, seat);
    Ok(told)
}
