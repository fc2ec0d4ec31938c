//! Gives a verdict on each pattern.
ghost use Rattle.std.specs.Prelude.{◌≡◌, ◌≤◌, IfOk, length, slice_index, true};
ghost use Rattle.std.specs.List.Sorted.{IsPermutation};
ghost use Rattle.deadlock_triage.specs.Rows.{IsJudge};
ghost use Rattle.deadlock_triage.specs.Requests.{AreNested, IsNestedCount};
ghost use Rattle.deadlock_triage.specs.Verdicts.{AreApart, AreComplete, ArePatternsOnce, AreVerdicts};

use crate::judge::{Judge, Left};
use crate::outcomes::Verdict;
use crate::refusal::Refusal;
use crate::requests::nested_requests;
use crate::rows::Rows;
use closed_order::{Closing, USUAL_WORK};
use indexmap::IndexSet;
use must_order::Analysis;
use std::alloc::Global;

/// The most pairs of requests that can be tried for a pattern.
pub const MAX_TRIES: u32 = 4_096;

// The most nested requests whose pairs are looked at: 67,108,864 pairs.
const MAX_NESTED: usize = 11_585;

// The most work on all pairs together: visited events, and threads that the steps of a search look at.
const MOST_WORK: u64 = 268_435_456;

/// All verdicts on a trace.
#[derive(Drop)]
pub struct Deadlocks {
    /// The verdicts.
    pub verdicts: Vec<Verdict>,
    /// How many requests there are whose thread holds another lock.
    pub nested: u32,
    /// Whether all pairs of requests were looked at.
    pub is_whole: bool,
}

/// Gives a verdict on each pattern of two requests that wait for each other. It tries at most `tries` pairs of requests
/// for a pattern. `places` has the number of each event's location.
pub fn deadlocks_of(
    alloc: Global,
    analysis: &Analysis<'_>,
    places: &[u32],
    tries: u32,
) -> Result<Deadlocks, Refusal>
    requires places { length places.now ≡ length analysis.now.events }
    // Each verdict names two requests of its pattern that wait for each other. No two verdicts are on one pattern.
    // A deadlock has a schedule that shows its two requests.
    ensures verdicts { IfOk result (λ found. AreVerdicts analysis.now (slice_index places.now) found.verdicts.items) }
    ensures once { IfOk result (λ found. ArePatternsOnce found.verdicts.items) }
    // No correct reordering shows two requests of a pattern that is apart.
    ensures apart { IfOk result (λ found. AreApart analysis.now (slice_index places.now) found.verdicts.items) }
    // If all pairs of requests were looked at, each two that wait for each other have a verdict on their pattern.
    ensures complete { IfOk result (λ found. found.is_whole ≡ true → AreComplete analysis.now (slice_index places.now) found.verdicts.items) }
    // There are this many requests whose thread holds another lock.
    ensures nested { IfOk result (λ found. IsNestedCount analysis.now found.nested) }
{
    let nested = nested_requests(alloc, analysis)?;
    deadlocks_by(alloc, analysis, places, nested.as_slice(), tries)
}

// The same, given the nested requests.
fn deadlocks_by(
    alloc: Global,
    analysis: &Analysis<'_>,
    places: &[u32],
    nested: &[u32],
    tries: u32,
) -> Result<Deadlocks, Refusal>
    requires places { length places.now ≡ length analysis.now.events }
    requires nested { AreNested analysis.now nested.now }
    ensures verdicts { IfOk result (λ found. AreVerdicts analysis.now (slice_index places.now) found.verdicts.items) }
    ensures once { IfOk result (λ found. ArePatternsOnce found.verdicts.items) }
    ensures apart { IfOk result (λ found. AreApart analysis.now (slice_index places.now) found.verdicts.items) }
    ensures complete { IfOk result (λ found. found.is_whole ≡ true → AreComplete analysis.now (slice_index places.now) found.verdicts.items) }
    ensures nested { IfOk result (λ found. IsNestedCount analysis.now found.nested) }
{
    let count = nested.len().min(MAX_NESTED);
    let judge = Judge {
        alloc,
        analysis,
        places,
        nested,
        tries,
        is_whole: count == nested.len(),
    };
    let verdicts = verdicts_of(&judge, count)?;
    Ok(Deadlocks {
        verdicts,
        nested: count_of(analysis, nested),
        is_whole: judge.is_whole,
    })
}

// The number of nested requests, at most one for each event.
fn count_of(analysis: &Analysis<'_>, nested: &[u32]) -> u32
    requires { length nested.now ≤ length analysis.now.events }
    ensures { result ≡ length nested.now }
{
    let indexed = analysis.indexed();
    let _len = indexed.len();
    nested.len() as u32
}

// The verdicts on the pairs of the first `count` nested requests.
fn verdicts_of(judge: &Judge<'_>, count: usize) -> Result<Vec<Verdict>, Refusal>
    requires judge { IsJudge judge.now }
    requires count { count ≤ length judge.now.nested.now }
    requires whole { judge.now.is_whole ≡ true → count ≡ length judge.now.nested.now }
    ensures verdicts { IfOk result (λ vs. AreVerdicts judge.now.analysis.now (slice_index judge.now.places.now) vs.items) }
    ensures once { IfOk result (λ vs. ArePatternsOnce vs.items) }
    ensures apart { IfOk result (λ vs. AreApart judge.now.analysis.now (slice_index judge.now.places.now) vs.items) }
    ensures complete { IfOk result (λ vs. judge.now.is_whole ≡ true → AreComplete judge.now.analysis.now (slice_index judge.now.places.now) vs.items) }
{
    let indexed = judge.analysis.indexed();
    let mut rows = Rows {
        patterns: IndexSet::with_hasher(judge.alloc, indexed.trace().raw().keyed()),
        verdicts: Vec::new(judge.alloc),
    };
    let mut left = Left {
        work: MOST_WORK,
        closing: Closing::new(USUAL_WORK),
    };
    for later in 0..count {
        judge.visit_all(&mut rows, &mut left, later)?;
    }
    let Rows { mut verdicts, .. } = rows;
    sort(&mut verdicts);
    Ok(verdicts)
}

// Sorts the verdicts by their later request, and then by the earlier one.
fn sort(verdicts: &mut Vec<Verdict>)
    ensures { IsPermutation verdicts.old.items verdicts.new.items }
{
    verdicts.sort_unstable_by_key(|verdict| {
        u64::from(verdict.second) * 4_294_967_296 + u64::from(verdict.first)
    });
}
