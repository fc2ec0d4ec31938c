//! Prints what is known of two requests that wait for each other.
ghost use Rattle.std.specs.Prelude.{◌≡◌, ◌↔◌, ◌<◌, ℕ, AllPairs, OnErr, Some, length};
ghost use Rattle.rapid_text.specs.Appended.{Appended, AppendedOne};
ghost use Rattle.rapid_text.specs.declared.event.Op.TheVariants.{Acquire};
ghost use Rattle.event_index.specs.Events.{op_at};
ghost use Rattle.must_order.specs.Held.{IsHeldFrom};
ghost use Rattle.explain_report.specs.Runs.{run_total};
ghost use Rattle.deadlock_triage.specs.Findings.{AreOpen, IsFinding};
ghost use Rattle.deadlock_triage.specs.declared.outcomes.How.TheVariants.{Ordered};
ghost use Rattle.deadlock_report.specs.Explained.{AreWaitsTold, IsDeadlockTold, IsEndTold, IsReason, IsShownTold, IsUndecidedTold, IsWaitTold, deadlock_head, holder_words, requests_text, wait_line, wait_words};

use crate::blocks::how_text;
use crate::pieces::append_words;
use crate::requests::{append_request, lock_of};
use deadlock_triage::{Finding, How, how_of};
use event_index::Indexed;
use explain_report::{
    Verdict, append_count, append_head, append_lock, append_number, append_runs, append_thread_of,
    run_count,
};
use must_order::Analysis;
use rapid_text::OutOfMemory;

/// Appends what is known of two requests: the verdict, both with the locks that their threads hold, and the runs of a
/// schedule that shows them. If the schedule has more than eleven runs, all but the last ten become one block, unless
/// `all` is true. If memory runs out, `out` stays as it was.
pub fn deadlock_text(
    analysis: &Analysis<'_>,
    finding: &Finding,
    pair: (u32, u32),
    all: bool,
    out: &mut Vec<u8>,
) -> Result<(), OutOfMemory>
    requires first { pair.0 < length analysis.now.events }
    requires second { pair.1 < length analysis.now.events }
    requires finding { IsFinding analysis.now pair.0 pair.1 finding.now }
    ensures ok { AppendedOne result out.old out.new (IsDeadlockTold analysis.now finding.now pair.0 pair.1 all) }
    ensures err { OnErr result (out.new.items ≡ out.old.items) }
{
    let mut text = Vec::new(*out.allocator());
    append_finding(&mut text, analysis, finding, pair, all)?;
    out.extend_from_slice(text.as_slice())?;
    Ok(())
}

// The same. If memory runs out, part of it may already be appended.
fn append_finding(
    out: &mut Vec<u8>,
    analysis: &Analysis<'_>,
    finding: &Finding,
    pair: (u32, u32),
    all: bool,
) -> Result<(), OutOfMemory>
    requires first { pair.0 < length analysis.now.events }
    requires second { pair.1 < length analysis.now.events }
    requires finding { IsFinding analysis.now pair.0 pair.1 finding.now }
    ensures { AppendedOne result out.old out.new (IsDeadlockTold analysis.now finding.now pair.0 pair.1 all) }
{
    match finding {
        Finding::Shown(schedule) => append_shown(out, analysis, schedule.events(), pair, all),
        Finding::Apart => {
            append_reason(out, analysis, pair.0, pair.1)?;
            append_requests(out, analysis, pair.0, pair.1)
        }
        Finding::Undecided => append_undecided(out, analysis, pair.0, pair.1),
    }
}

// Appends two requests which neither order nor a lock keeps apart, and for which no schedule was found.
fn append_undecided(
    out: &mut Vec<u8>,
    analysis: &Analysis<'_>,
    first: u32,
    second: u32,
) -> Result<(), OutOfMemory>
    requires { AreOpen analysis.now.events first second }
    ensures { AppendedOne result out.old out.new (IsUndecidedTold analysis.now first second) }
{
    let undecided = Verdict::Undecided { events: &[] };
    append_head(out, analysis.indexed(), &undecided, first, second)?;
    append_requests(out, analysis, first, second)
}

// Appends a deadlock that the schedule shows.
fn append_shown(
    out: &mut Vec<u8>,
    analysis: &Analysis<'_>,
    events: &[u32],
    pair: (u32, u32),
    all: bool,
) -> Result<(), OutOfMemory>
    requires first { pair.0 < length analysis.now.events }
    requires second { pair.1 < length analysis.now.events }
    ensures { AppendedOne result out.old out.new (IsShownTold analysis.now events.now pair.0 pair.1 all) }
{
    let how = how_of(events);
    let runs = run_count(*out.allocator(), analysis.indexed(), events)?;
    append_deadlock_head(out, how, events.len() as u64, runs)?;
    append_requests(out, analysis, pair.0, pair.1)?;
    append_end(out, analysis, events, pair, all)?;
    Ok(())
}

// Appends the first line of a deadlock.
fn append_deadlock_head(
    out: &mut Vec<u8>,
    how: How,
    events: u64,
    runs: u64,
) -> Result<(), OutOfMemory>
    ensures { Appended result out.old out.new (deadlock_head how events runs) }
{
    append_words(out, b"deadlock")?;
    append_words(out, how_text(how))?;
    append_words(out, b": after ")?;
    append_count(out, events, b"event")?;
    append_words(out, b" in ")?;
    append_count(out, runs, b"run")?;
    append_words(out, b" each of 2 threads waits for the next\n")?;
    Ok(())
}

// Appends both requests with their numbers, and the locks that their threads hold.
fn append_requests(
    out: &mut Vec<u8>,
    analysis: &Analysis<'_>,
    first: u32,
    second: u32,
) -> Result<(), OutOfMemory>
    ensures { Appended result out.old out.new (requests_text analysis.now first second) }
{
    append_number(out, u64::from(first))?;
    append_request(out, analysis, first, second)?;
    append_number(out, u64::from(second))?;
    append_request(out, analysis, second, first)?;
    Ok(())
}

// Appends the runs of the schedule, and then for whom each thread waits.
fn append_end(
    out: &mut Vec<u8>,
    analysis: &Analysis<'_>,
    events: &[u32],
    pair: (u32, u32),
    all: bool,
) -> Result<(), OutOfMemory>
    requires first { pair.0 < length analysis.now.events }
    requires second { pair.1 < length analysis.now.events }
    ensures { AppendedOne result out.old out.new (IsEndTold analysis.now events.now pair.0 pair.1 all) }
{
    append_runs(out, analysis.indexed(), events, all)?;
    append_waits(out, analysis, pair.0, pair.1)
}

// Appends for whom each of the two threads waits.
fn append_waits(
    out: &mut Vec<u8>,
    analysis: &Analysis<'_>,
    first: u32,
    second: u32,
) -> Result<(), OutOfMemory>
    requires first { first < length analysis.now.events }
    requires second { second < length analysis.now.events }
    ensures { AppendedOne result out.old out.new (AreWaitsTold analysis.now first second) }
{
    append_wait(out, analysis, first, second)?;
    append_wait(out, analysis, second, first)
}

// Appends for which lock the request's thread waits, if the other one's thread holds it.
fn append_wait(
    out: &mut Vec<u8>,
    analysis: &Analysis<'_>,
    request: u32,
    other: u32,
) -> Result<(), OutOfMemory>
    requires other { other < length analysis.now.events }
    ensures { AppendedOne result out.old out.new (IsWaitTold analysis.now request other) }
{
    match lock_of(analysis.indexed(), request) {
        Some(lock) => append_wait_for(out, analysis, (request, other), lock),
        None => Ok(()),
    }
}

// The same for a request that acquires the lock.
fn append_wait_for(
    out: &mut Vec<u8>,
    analysis: &Analysis<'_>,
    pair: (u32, u32),
    lock: u32,
) -> Result<(), OutOfMemory>
    requires other { pair.1 < length analysis.now.events }
    requires lock { lock < length analysis.now.locks }
    requires acquires { op_at analysis.now.events pair.0 ≡ Some (Acquire lock) }
    ensures { AppendedOne result out.old out.new (IsWaitTold analysis.now pair.0 pair.1) }
{
    match analysis.held_since(pair.1, lock) {
        Some(since) => append_wait_line(out, analysis.indexed(), pair, lock, since),
        None => Ok(()),
    }
}

// Appends the line of a thread that waits for a lock, which the other one holds since an acquire.
fn append_wait_line(
    out: &mut Vec<u8>,
    indexed: &Indexed,
    pair: (u32, u32),
    lock: u32,
    since: u32,
) -> Result<(), OutOfMemory>
    ensures { Appended result out.old out.new (wait_line indexed.now pair.0 pair.1 lock since) }
{
    append_waiting(out, indexed, pair.0, lock)?;
    append_holder(out, indexed, pair.1, since)?;
    Ok(())
}

// Appends for which lock the request's thread waits.
fn append_waiting(
    out: &mut Vec<u8>,
    indexed: &Indexed,
    request: u32,
    lock: u32,
) -> Result<(), OutOfMemory>
    ensures { Appended result out.old out.new (wait_words indexed.now request lock) }
{
    append_thread_of(out, indexed, request)?;
    append_words(out, b" waits for ")?;
    append_lock(out, indexed, lock)?;
    Ok(())
}

// Appends which thread holds the lock, and since when.
fn append_holder(
    out: &mut Vec<u8>,
    indexed: &Indexed,
    request: u32,
    since: u32,
) -> Result<(), OutOfMemory>
    ensures { Appended result out.old out.new (holder_words indexed.now request since) }
{
    append_words(out, b", which ")?;
    append_thread_of(out, indexed, request)?;
    append_words(out, b" holds since ")?;
    append_number(out, u64::from(since))?;
    append_words(out, b"\n")?;
    Ok(())
}

// Appends why two requests are apart.
fn append_reason(
    out: &mut Vec<u8>,
    analysis: &Analysis<'_>,
    first: u32,
    second: u32,
) -> Result<(), OutOfMemory>
    requires first { first < length analysis.now.events }
    requires second { second < length analysis.now.events }
    ensures { AppendedOne result out.old out.new (IsReason analysis.now first second) }
{
    match analysis.guard(first, second) {
        Some(lock) => {
            let guarded = Verdict::Guarded { lock };
            append_head(out, analysis.indexed(), &guarded, first, second)
        }
        None => append_order(out, analysis, first, second),
    }
}

// The same for two threads that hold no common lock.
fn append_order(
    out: &mut Vec<u8>,
    analysis: &Analysis<'_>,
    first: u32,
    second: u32,
) -> Result<(), OutOfMemory>
    requires first { first < length analysis.now.events }
    requires second { second < length analysis.now.events }
    ensures { AppendedOne result out.old out.new (IsReason analysis.now first second) }
{
    if analysis.is_forced(first, second) {
        let forced = Verdict::Forced { chains: &[] };
        return append_head(out, analysis.indexed(), &forced, first, second);
    }
    append_words(
        out,
        b"apart: no correct reordering leads to both requests\n",
    )
}
