//! Requests as objects of JSON.
ghost use Rattle.std.specs.Prelude.{◌≡◌, ◌<◌, ◌∷◌, [], IfOk, IfSome, Some, codes, length};
ghost use Rattle.serde_json.specs.View.{view};
ghost use Rattle.race_parts.specs.Made.{MadeAs};
ghost use Rattle.triage_report.specs.Appending.{AppendedViews, FilledBut};
ghost use Rattle.triage_report.specs.json.Objects.{lock_names};
ghost use Rattle.deadlock_report.specs.Holds.{other_locks};
ghost use Rattle.deadlock_report.specs.json.Objects.{hold_data, hold_object, request_at, request_object, requests, told_request};

use crate::holds::{other_locks, since_of};
use crate::requests::{lock_name, lock_of};
use deadlock_triage::Verdict;
use event_index::Indexed;
use explain_report::places::location_of;
use must_order::Analysis;
use rapid_text::OutOfMemory;
use serde_json::{Map, Value, put};
use std::alloc::{AllocError, Global};
use triage_report::json::{names_of, object_with, put_number, put_text};
use triage_report::lines::{thread_of, variable_of};

/// The list of the two requests of a verdict, the earlier first.
pub(crate) fn requests_of(
    alloc: Global,
    analysis: &Analysis<'_>,
    verdict: &Verdict,
) -> Result<Value, OutOfMemory>
    ensures { MadeAs result (requests analysis.now verdict.now) }
{
    let mut both = Vec::new(alloc);
    push_request(&mut both, analysis, verdict.first, verdict.second)?;
    push_request(&mut both, analysis, verdict.second, verdict.first)?;
    Ok(Value::Array(both))
}

// Adds a request, with the locks that its thread holds. Adds nothing if the trace has no such event.
fn push_request(
    both: &mut Vec<Value>,
    analysis: &Analysis<'_>,
    request: u32,
    other: u32,
) -> Result<(), OutOfMemory>
    ensures { AppendedViews result both.old both.new (request_at analysis.now request other) }
{
    if request >= analysis.indexed().len() {
        return Ok(());
    }
    let object = request_of(*both.allocator(), analysis, request, other)?;
    both.push(object)?;
    Ok(())
}

// The object of a request, with the locks that its thread holds.
fn request_of(
    alloc: Global,
    analysis: &Analysis<'_>,
    request: u32,
    other: u32,
) -> Result<Value, OutOfMemory>
    requires { request < length analysis.now.events }
    ensures { IfOk result (λ object. view object ∷ [] ≡ request_at analysis.now request other) }
{
    let wanted = lock_of(analysis.indexed(), other);
    told_request(alloc, analysis, request, wanted)
}

// The same. The other request acquires the lock `wanted`.
fn told_request(
    alloc: Global,
    analysis: &Analysis<'_>,
    request: u32,
    wanted: Option<u32>,
) -> Result<Value, OutOfMemory>
    requires request { request < length analysis.now.events }
    requires wanted { IfSome wanted (λ l. l < length analysis.now.locks) }
    ensures { MadeAs result (told_request analysis.now request wanted) }
{
    let hold = hold_of(alloc, analysis, request, wanted)?;
    let holds = others_of(alloc, analysis, request, wanted)?;
    let object = told(alloc, analysis.indexed(), request, hold, holds)?;
    Ok(object)
}

// The object of a request with this hold and these other locks.
fn told(
    alloc: Global,
    indexed: &Indexed,
    request: u32,
    hold: Value,
    holds: Value,
) -> Result<Value, AllocError>
    ensures { MadeAs result (request_object indexed.now request (view hold) (view holds)) }
{
    let mut members = Map::new(alloc);
    put_told(&mut members, alloc, indexed, request, hold)?;
    object_with(alloc, members, "holds", holds)
}

// Puts all members of a request, except the other locks.
fn put_told(
    members: &mut Map<String, Value>,
    alloc: Global,
    indexed: &Indexed,
    request: u32,
    hold: Value,
) -> Result<(), AllocError>
    requires { members.old.entries ≡ [] }
    ensures { FilledBut result members.new (codes "holds") (request_object indexed.now request (view hold)) }
{
    put_number(members, alloc, "event", u64::from(request))?;
    put(members, alloc, "hold", hold)?;
    put_text(members, alloc, "location", location_of(indexed, request))?;
    put_text(members, alloc, "lock", variable_of(indexed, request))?;
    put_text(members, alloc, "thread", thread_of(indexed, request))?;
    Ok(())
}

// Since when the request's thread holds the lock that is waited for; null if it does not hold it.
fn hold_of(
    alloc: Global,
    analysis: &Analysis<'_>,
    request: u32,
    wanted: Option<u32>,
) -> Result<Value, AllocError>
    requires request { request < length analysis.now.events }
    requires wanted { IfSome wanted (λ l. l < length analysis.now.locks) }
    ensures { MadeAs result (hold_data analysis.now request wanted) }
{
    match wanted {
        Some(lock) => held(alloc, analysis, request, lock),
        None => Ok(Value::Null),
    }
}

// Since when the request's thread holds the lock; null if it does not hold it.
fn held(
    alloc: Global,
    analysis: &Analysis<'_>,
    request: u32,
    lock: u32,
) -> Result<Value, AllocError>
    requires request { request < length analysis.now.events }
    requires lock { lock < length analysis.now.locks }
    ensures { MadeAs result (hold_data analysis.now request (Some lock)) }
{
    match since_of(analysis, request, lock) {
        Some(since) => held_since(alloc, analysis.indexed(), lock, since),
        None => Ok(Value::Null),
    }
}

// The object of a lock that is held since an acquire.
fn held_since(alloc: Global, indexed: &Indexed, lock: u32, since: u32) -> Result<Value, AllocError>
    ensures { MadeAs result (hold_object indexed.now lock since) }
{
    let mut members = Map::new(alloc);
    put_number(&mut members, alloc, "event", u64::from(since))?;
    put_text(&mut members, alloc, "location", location_of(indexed, since))?;
    put_text(&mut members, alloc, "lock", lock_name(indexed, lock))?;
    Ok(Value::Object(members))
}

// The list of the names of the other locks that the request's thread holds.
fn others_of(
    alloc: Global,
    analysis: &Analysis<'_>,
    request: u32,
    but: Option<u32>,
) -> Result<Value, OutOfMemory>
    requires { request < length analysis.now.events }
    ensures { MadeAs result (lock_names analysis.now (other_locks analysis.now request but)) }
{
    let others = other_locks(alloc, analysis, request, but)?;
    names_of(alloc, analysis.indexed(), others.as_slice())
}
