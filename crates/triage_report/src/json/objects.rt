//! The findings as objects of JSON.
ghost use Rattle.std.specs.Prelude.{◌≡◌, [], codes};
ghost use Rattle.serde_json.specs.Data.{object};
ghost use Rattle.serde_json.specs.View.{view};
ghost use Rattle.race_parts.specs.Made.{FilledAs, MadeAs};
ghost use Rattle.triage_report.specs.Appending.{FilledBut};
ghost use Rattle.triage_report.specs.json.Objects.{apart_object, counts_object, how_word, left_out_object, race_object, told_object, undecided_object, verdict_object};

use crate::json::accesses::accesses_of;
use crate::json::members::{object_with, put_number, put_word};
use explain_report::How;
use must_order::Analysis;
use race_triage::{Outcome, Totals, Verdict};
use rapid_text::OutOfMemory;
use serde_json::{Map, Value, json};
use std::alloc::{AllocError, Global};

/// The object with the counts of the whole trace.
pub(crate) fn counts_of(alloc: Global, totals: &Totals) -> Result<Value, AllocError>
    ensures { MadeAs result (counts_object totals.now) }
{
    let mut members = Map::new(alloc);
    put_counts(&mut members, alloc, totals)?;
    Ok(Value::Object(members))
}

/// Puts the members of the counts.
fn put_counts(
    members: &mut Map<String, Value>,
    alloc: Global,
    totals: &Totals,
) -> Result<(), AllocError>
    requires { members.old.entries ≡ [] }
    ensures { FilledAs result members.new (counts_object totals.now) }
{
    put_word(members, alloc, "kind", "counts")?;
    put_number(members, alloc, "events", totals.events)?;
    put_number(members, alloc, "threads", totals.threads)?;
    put_number(members, alloc, "pairs", totals.pairs)?;
    put_number(members, alloc, "candidates", totals.candidates)?;
    put_number(members, alloc, "open", totals.open_pairs)?;
    put_number(members, alloc, "guarded", totals.guarded)?;
    put_number(members, alloc, "forced", totals.forced)?;
    put_number(members, alloc, "places", totals.places)?;
    put_number(members, alloc, "races", totals.races)?;
    put_number(members, alloc, "undecided", totals.undecided)?;
    put_number(members, alloc, "apart", totals.apart)?;
    Ok(())
}

/// The object that says how many verdicts were left out. `kind` is `known` or `hidden`.
pub(crate) fn left_out_of(alloc: Global, kind: &str, count: u64) -> Result<Value, AllocError>
    ensures { MadeAs result (left_out_object kind.now count) }
{
    json!(in alloc; {"kind": kind, "count": count})
}

/// The object of a verdict, with its two accesses.
pub(crate) fn verdict_of(
    alloc: Global,
    analysis: &Analysis<'_>,
    verdict: &Verdict,
) -> Result<Value, OutOfMemory>
    ensures { MadeAs result (verdict_object analysis.now verdict.now) }
{
    let accesses = accesses_of(alloc, analysis, verdict.first, verdict.second)?;
    let object = told_of(alloc, verdict, accesses)?;
    Ok(object)
}

/// The object of a verdict, with the list of its accesses.
fn told_of(alloc: Global, verdict: &Verdict, accesses: Value) -> Result<Value, AllocError>
    ensures { MadeAs result (told_object verdict.now (view accesses)) }
{
    let mut members = Map::new(alloc);
    put_told(&mut members, alloc, verdict)?;
    object_with(alloc, members, "accesses", accesses)
}

/// Puts all members of a verdict, except its accesses.
fn put_told(
    members: &mut Map<String, Value>,
    alloc: Global,
    verdict: &Verdict,
) -> Result<(), AllocError>
    requires { members.old.entries ≡ [] }
    ensures { FilledBut result members.new (codes "accesses") (told_object verdict.now) }
{
    let reach = Reach {
        pairs: verdict.pairs(),
        variables: verdict.variables,
    };
    match verdict.outcome {
        Outcome::Race {
            how,
            events,
            threads,
        } => put_race(members, alloc, how, events, threads, reach),
        Outcome::Undecided { tried } => put_undecided(members, alloc, tried, reach),
        Outcome::Apart => put_apart(members, alloc, reach.pairs),
    }
}

/// How many pairs of events and how many variables a verdict is about.
#[derive(Clone, Copy)]
struct Reach {
    pairs: u64,
    variables: u32,
}

/// Puts all members of a race, except its accesses.
fn put_race(
    members: &mut Map<String, Value>,
    alloc: Global,
    how: How,
    events: u32,
    threads: u32,
    reach: Reach,
) -> Result<(), AllocError>
    requires { members.old.entries ≡ [] }
    ensures { FilledBut result members.new (codes "accesses") (race_object how events threads reach.pairs reach.variables) }
{
    put_word(members, alloc, "kind", "race")?;
    put_word(members, alloc, "how", word_of(how))?;
    put_number(members, alloc, "pairs", reach.pairs)?;
    put_number(members, alloc, "variables", u64::from(reach.variables))?;
    put_number(members, alloc, "events", u64::from(events))?;
    put_number(members, alloc, "threads", u64::from(threads))?;
    Ok(())
}

/// Puts all members of what is undecided, except its accesses.
fn put_undecided(
    members: &mut Map<String, Value>,
    alloc: Global,
    tried: u32,
    reach: Reach,
) -> Result<(), AllocError>
    requires { members.old.entries ≡ [] }
    ensures { FilledBut result members.new (codes "accesses") (undecided_object tried reach.pairs reach.variables) }
{
    put_word(members, alloc, "kind", "undecided")?;
    put_number(members, alloc, "pairs", reach.pairs)?;
    put_number(members, alloc, "variables", u64::from(reach.variables))?;
    put_number(members, alloc, "tried", u64::from(tried))?;
    Ok(())
}

/// Puts all members of what is apart, except its accesses.
fn put_apart(members: &mut Map<String, Value>, alloc: Global, pairs: u64) -> Result<(), AllocError>
    requires { members.old.entries ≡ [] }
    ensures { FilledBut result members.new (codes "accesses") (apart_object pairs) }
{
    put_word(members, alloc, "kind", "apart")?;
    put_number(members, alloc, "pairs", pairs)?;
    Ok(())
}

fn word_of(how: How) -> &'static str
    ensures { result.now ≡ how_word how }
{
    match how {
        How::Candidate => "candidate",
        How::Beyond => "beyond",
        How::Turned => "turned",
    }
}
