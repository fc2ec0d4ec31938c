//! The counts and the verdicts as objects of JSON.
ghost use Rattle.std.specs.Prelude.{◌≡◌, [], codes};
ghost use Rattle.serde_json.specs.View.{view};
ghost use Rattle.race_parts.specs.Made.{FilledAs, MadeAs};
ghost use Rattle.triage_report.specs.Appending.{FilledBut};
ghost use Rattle.deadlock_report.specs.json.Objects.{apart_object, counts_object, deadlock_object, how_word, outcome_object, undecided_object, verdict_object};

use crate::counts::Counts;
use crate::json::requests::requests_of;
use deadlock_triage::{How, Outcome, Verdict};
use must_order::Analysis;
use rapid_text::OutOfMemory;
use serde_json::{Map, Value};
use std::alloc::{AllocError, Global};
use triage_report::json::{object_with, put_number, put_word};

/// The object with the counts of the trace and of all verdicts.
pub(crate) fn object_of_counts(alloc: Global, counts: &Counts) -> Result<Value, AllocError>
    ensures { MadeAs result (counts_object counts.now) }
{
    let mut members = Map::new(alloc);
    put_counts(&mut members, alloc, counts)?;
    Ok(Value::Object(members))
}

// Puts the members of the counts.
fn put_counts(
    members: &mut Map<String, Value>,
    alloc: Global,
    counts: &Counts,
) -> Result<(), AllocError>
    requires { members.old.entries ≡ [] }
    ensures { FilledAs result members.new (counts_object counts.now) }
{
    put_word(members, alloc, "kind", "counts")?;
    put_number(members, alloc, "events", counts.events)?;
    put_number(members, alloc, "threads", counts.threads)?;
    put_number(members, alloc, "nested", counts.nested)?;
    put_number(members, alloc, "patterns", counts.patterns)?;
    put_number(members, alloc, "deadlocks", counts.deadlocks)?;
    put_number(members, alloc, "undecided", counts.undecided)?;
    put_number(members, alloc, "apart", counts.apart)?;
    put_number(members, alloc, "whole", counts.whole)?;
    Ok(())
}

/// The object of a verdict, with its two requests.
pub(crate) fn object_of_verdict(
    alloc: Global,
    analysis: &Analysis<'_>,
    verdict: &Verdict,
) -> Result<Value, OutOfMemory>
    ensures { MadeAs result (verdict_object analysis.now verdict.now) }
{
    let requests = requests_of(alloc, analysis, verdict)?;
    let object = told_of(alloc, verdict.outcome, requests)?;
    Ok(object)
}

// The object of an outcome, with the list of its requests.
fn told_of(alloc: Global, outcome: Outcome, requests: Value) -> Result<Value, AllocError>
    ensures { MadeAs result (outcome_object outcome (view requests)) }
{
    let mut members = Map::new(alloc);
    put_outcome(&mut members, alloc, outcome)?;
    object_with(alloc, members, "requests", requests)
}

// Puts all members of an outcome, except its requests.
fn put_outcome(
    members: &mut Map<String, Value>,
    alloc: Global,
    outcome: Outcome,
) -> Result<(), AllocError>
    requires { members.old.entries ≡ [] }
    ensures { FilledBut result members.new (codes "requests") (outcome_object outcome) }
{
    match outcome {
        Outcome::Deadlock {
            how,
            events,
            threads,
        } => put_deadlock(members, alloc, how, events, threads),
        Outcome::Undecided { tried } => put_undecided(members, alloc, tried),
        Outcome::Apart => put_apart(members, alloc),
    }
}

// Puts all members of a deadlock, except its requests.
fn put_deadlock(
    members: &mut Map<String, Value>,
    alloc: Global,
    how: How,
    events: u32,
    threads: u32,
) -> Result<(), AllocError>
    requires { members.old.entries ≡ [] }
    ensures { FilledBut result members.new (codes "requests") (deadlock_object how events threads) }
{
    put_word(members, alloc, "kind", "deadlock")?;
    put_word(members, alloc, "how", how_word(how))?;
    put_number(members, alloc, "events", u64::from(events))?;
    put_number(members, alloc, "threads", u64::from(threads))?;
    Ok(())
}

// Puts all members of what is undecided, except its requests.
fn put_undecided(
    members: &mut Map<String, Value>,
    alloc: Global,
    tried: u32,
) -> Result<(), AllocError>
    requires { members.old.entries ≡ [] }
    ensures { FilledBut result members.new (codes "requests") (undecided_object tried) }
{
    put_word(members, alloc, "kind", "undecided")?;
    put_number(members, alloc, "tried", u64::from(tried))?;
    Ok(())
}

// Puts all members of what is apart, except its requests.
fn put_apart(members: &mut Map<String, Value>, alloc: Global) -> Result<(), AllocError>
    requires { members.old.entries ≡ [] }
    ensures { FilledBut result members.new (codes "requests") apart_object }
{
    put_word(members, alloc, "kind", "apart")?;
    Ok(())
}

// The word for the order of a schedule.
fn how_word(how: How) -> &'static str
    ensures { result.now ≡ how_word how }
{
    match how {
        How::Ordered => "ordered",
        How::Turned => "turned",
    }
}
