//! Runs scripts at the same time, each in a separate thread, through the seats of one bench.
ghost use Rattle.std.specs.Prelude.{◌≡◌, ◌≤◌, ◌<◌, ◌+◌, ◌-◌, All, vec_len, IfOk, IfErr, IsOk, OnOk, Some};
ghost use Rattle.std.specs.Arc.{arc_value};
ghost use Rattle.rapid_text.specs.Appended.{Appended};
ghost use Rattle.workspace_lock.specs.Seating.{Opened, Site};
ghost use Rattle.report.specs.Log.{log_text};
ghost use Rattle.calls.specs.Told.{fresh_bench, AreTold};
ghost use Rattle.calls.specs.Jobs.{AnswersJob, AnswerJobs, AppendsAll, AppendsLines, AppendsLog, GivesBack, LacksMemory};
ghost use Rattle.calls.specs.Jobs.{PutsAllBack, SeatsEach};
ghost use Rattle.calls.specs.Threads.{IsRunFault};

use crate::beside::{clients_beside, run_beside};
use crate::fault::BenchFault;
use client_scripts::{Script, run_seat};
use event_index::Indexed;
use inverse_log::Bench;
use rapid_text::{OutOfMemory, TextKeyed};
use report::{Piece, append_pieces};
use std::alloc::{AllocError, Global};
use std::sync::{Arc, Wait};
use std::thread;
use std::thread::Threads;
use workspace_lock::{Seat, Seats, open_with_room};

/// What a thread gets: a seat, and the script whose calls it makes through the seat.
pub(crate) type Job = (Seat, Script);

/// What a thread gives back: its seat, and the lines of its answers, or `OutOfMemory` if they did not fit.
pub(crate) type Told = (Seat, Result<Vec<u8>, OutOfMemory>);

/// Makes all calls of a script through the seat, and collects the answers.
fn run_script<R: Wait>(
    rt: &R,
    alloc: Global,
    indexed: &Indexed,
    mut seat: Seat,
    script: &Script,
) -> Told
    ensures same { (result.0.site ≡ seat.site) × (result.0.number ≡ seat.number) }
    ensures told { AnswersJob indexed.now (seat, script.now) result }
{
    let mut lines = Vec::new(alloc);
    match run_seat(&mut seat, rt, indexed, script, &mut lines) {
        Ok(()) => (seat, Ok(lines)),
        Err(refused) => (seat, Err(refused)),
    }
}

/// Makes the calls of each script through its seat, each in a separate thread if one can be started. The results are in
/// the order of the jobs.
pub(crate) fn run_all<R: Threads + Wait + Sync>(
    rt: &R,
    alloc: Global,
    indexed: &Indexed,
    jobs: Vec<Job>,
) -> Result<Vec<Told>, AllocError>
    ensures told { IfOk result (λ told. AnswerJobs indexed.now jobs.items told.items) }
    ensures site { IfOk result
        (λ told. (s : Site) → All (λ job. job.0.site ≡ s) jobs.items → All (λ t. t.0.site ≡ s) told.items) }
{
    let run = |job: Job| -> Told
        ensures site { result.0.site ≡ job.0.site }
        ensures told { AnswersJob indexed.entry.now job result }
    {
        let (seat, script) = job;
        run_script(rt, alloc, indexed, seat, &script)
    };
    thread::map_vec(rt, jobs, &run)
}

/// Takes a seat for each script, in the order of the clients.
fn seat_all(alloc: Global, seats: &mut Seats, scripts: Vec<Script>) -> Result<Vec<Job>, BenchFault>
    ensures seats { seats.new.site ≡ seats.old.site }
    ensures site { IfOk result (λ jobs. All (λ job. job.0.site ≡ seats.old.site) jobs.items) }
    // If all seats are in, and there are seats for all scripts, each script gets its own seat, in order. Then only the
    // other seats are in.
    ensures jobs { SeatsEach seats.old seats.new scripts result }
    ensures fault { LacksMemory seats.old scripts result }
{
    let mut jobs = Vec::new(alloc);
    for script in scripts {
        let Some(seat) = seats.take() else {
            return Err(BenchFault::NoThread);
        };
        jobs.push((seat, script))?;
    }
    Ok(jobs)
}

/// Appends the line `client N` and the lines of this client's answers.
fn append_client(
    out: &mut Vec<u8>,
    client: u32,
    lines: Result<Vec<u8>, OutOfMemory>,
) -> Result<(), OutOfMemory>
    ensures ok { OnOk result (AppendsLines client lines out.old.items out.new.items) }
{
    let lines = lines?;
    append_pieces(
        out,
        &[
            Piece::Words(b"client "),
            Piece::Number(u64::from(client)),
            Piece::Words(b"\n"),
            Piece::Words(&lines),
        ],
    )
}

/// Appends the same for the next client, if everything before was appended.
fn append_next(
    out: &mut Vec<u8>,
    so_far: Result<(), OutOfMemory>,
    client: u32,
    lines: Result<Vec<u8>, OutOfMemory>,
) -> Result<(), OutOfMemory>
    ensures before { OnOk result (IsOk so_far) }
    ensures ok { OnOk result (AppendsLines client lines out.old.items out.new.items) }
{
    so_far?;
    append_client(out, client, lines)
}

/// Puts a seat back.
pub(crate) fn give_back(seats: &mut Seats, seat: Seat)
    requires { seat.site ≡ seats.old.site }
    ensures site { seats.new.site ≡ seats.old.site }
    ensures back { GivesBack seats.old seats.new seat }
{
    let _ = seats.give(seat);
}

/// Puts all seats back, and appends the answers of each client. After the first that did not fit in memory, nothing
/// more is appended.
fn give_all(seats: &mut Seats, told: Vec<Told>, out: &mut Vec<u8>) -> Result<(), OutOfMemory>
    requires { All (λ t. t.0.site ≡ seats.old.site) told.items }
    ensures text { OnOk result (AppendsAll told.items out.old.items out.new.items) }
    ensures site { seats.new.site ≡ seats.old.site }
    // If no seat of `told` was in, and each has its number, all are in afterwards.
    ensures back { PutsAllBack seats.old seats.new told.items }
{
    let mut outcome = Ok(());
    for (seat, lines) in told {
        outcome = append_next(out, outcome, seat.number(), lines);
        give_back(seats, seat);
    }
    outcome
}

/// Appends the log of the bench. All seats must be back.
fn append_log(seats: Seats, out: &mut Vec<u8>) -> Result<(), OutOfMemory>
    ensures { OnOk result (AppendsLog seats out.old.items out.new.items) }
{
    match seats.close() {
        Ok(bench) => append_log_of(bench, out),
        Err((seats, _)) => {
            drop(seats);
            Err(OutOfMemory)
        }
    }
}

/// Appends the log of a bench, and drops the bench.
fn append_log_of(bench: Bench, out: &mut Vec<u8>) -> Result<(), OutOfMemory>
    ensures { Appended result out.old out.new (log_text bench.log) }
{
    let outcome = report::log(&bench, out);
    drop(bench);
    outcome
}

/// Opens a bench of the trace with an empty log, and a seat for each client, from 1 to `clients`. At most `room` seats
/// may queue for a turn at a time.
fn open_seats(
    alloc: Global,
    indexed: &Arc<Indexed, Global>,
    names: TextKeyed,
    clients: u32,
    room: u32,
) -> Result<Seats, OutOfMemory>
    ensures { IfOk result (λ s. Opened (fresh_bench (arc_value indexed.now)) clients s) }
{
    match Arc::try_clone(indexed) {
        Ok(theirs) => open_on(alloc, theirs, names, clients, room),
        Err(_) => Err(OutOfMemory),
    }
}

/// Opens the same with this share of the trace.
fn open_on(
    alloc: Global,
    indexed: Arc<Indexed, Global>,
    names: TextKeyed,
    clients: u32,
    room: u32,
) -> Result<Seats, OutOfMemory>
    ensures { IfOk result (λ s. Opened (fresh_bench (arc_value indexed)) clients s) }
{
    match Bench::keyed(alloc, indexed, names) {
        Ok(bench) => open_at(alloc, bench, clients, room),
        Err(_) => Err(OutOfMemory),
    }
}

/// Opens the seats at a bench that was made.
fn open_at(alloc: Global, bench: Bench, clients: u32, room: u32) -> Result<Seats, OutOfMemory>
    ensures { IfOk result (λ s. Opened bench clients s) }
{
    match open_with_room(alloc, bench, clients, room) {
        Ok(seats) => Ok(seats),
        Err(_) => Err(OutOfMemory),
    }
}

/// How `threads` runs scripts at the same time.
#[derive(Clone, Copy)]
pub struct Running {
    /// How many workers look for witnesses in the background, 0 to 16. If there are any, one more client, after those
    /// of the scripts, proposes the witnesses.
    pub workers: u32,
    /// How many seats may queue for a turn at a time (`workspace_lock::open_with_room`), 1 to 32. A higher limit
    /// interleaves the calls of the clients more finely, and is slower. No promise depends on it.
    pub room: u32,
}

/// Runs each script in a separate thread, with workers in the background. After all have ended, returns the answers of
/// each client and then the log.
pub(crate) fn run_scripts<R: Threads + Wait + Sync + Clone + Send + Drop + 'static>(
    rt: &R,
    alloc: Global,
    indexed: Indexed,
    names: TextKeyed,
    scripts: Vec<Script>,
    running: Running,
) -> Result<Vec<u8>, BenchFault>
    requires scripts { (0 < vec_len scripts) × (vec_len scripts ≤ 31) }
    requires workers { running.workers ≤ 16 }
    ensures told { IfOk result (λ text. AreTold indexed scripts.items running.workers text.items) }
    ensures fault { IfErr result (λ fault. IsRunFault running.workers fault) }
{
    let Running { workers, room } = running;
    let shared = Arc::new(alloc, indexed)?;
    let clients = scripts.len() as u32 + clients_beside(workers);
    let mut seats = open_seats(alloc, &shared, names, clients, room)?;
    let jobs = seat_all(alloc, &mut seats, scripts)?;
    let told = run_beside(rt, alloc, &shared, &mut seats, jobs, workers)?;
    let mut out = Vec::new(alloc);
    give_all(&mut seats, told, &mut out)?;
    append_log(seats, &mut out)?;
    Ok(out)
}
