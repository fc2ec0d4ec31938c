//! What one more pair of requests makes of a verdict.
ghost use Rattle.std.specs.Prelude.{◌≡◌, ◌≢◌, ◌<◌, true};
ghost use Rattle.deadlock_triage.specs.Rows.{IsNext, first_outcome};
ghost use Rattle.deadlock_triage.specs.Verdicts.{IsJudged};
ghost use Rattle.deadlock_triage.specs.declared.outcomes.Outcome.TheVariants.{Apart};

use crate::judging::Judgement;
use crate::outcomes::{Outcome, Verdict};
use crate::patterns::Pattern;
use event_index::Indexed;

/// The first verdict on a pattern. Unless all pairs of requests are visited, it is not apart.
pub(crate) fn fresh(first: u32, second: u32, pattern: Pattern, is_whole: bool) -> Verdict
    ensures first { result.first ≡ first }
    ensures second { result.second ≡ second }
    ensures pattern { result.pattern ≡ pattern }
    ensures outcome { result.outcome ≡ first_outcome is_whole }
{
    Verdict {
        first,
        second,
        pattern,
        judged: 0,
        outcome: first_outcome(is_whole),
    }
}

// The first outcome for a pattern.
fn first_outcome(is_whole: bool) -> Outcome
    ensures { result ≡ first_outcome is_whole }
{
    if is_whole {
        Outcome::Apart
    } else {
        Outcome::Undecided { tried: 0 }
    }
}

/// Whether no more pairs are judged: the pattern is a deadlock, or `tries` pairs were tried.
pub(crate) fn is_settled(row: Verdict, tries: u32) -> bool
    ensures { result ≡ true → row.outcome ≢ Apart }
{
    match row.outcome {
        Outcome::Deadlock {
            how: _,
            events: _,
            threads: _,
        } => true,
        Outcome::Undecided { tried } => tried >= tries,
        Outcome::Apart => false,
    }
}

/// The verdict if a pair is not judged.
pub(crate) fn given_up(row: Verdict, _first: u32, _second: u32, _trace: &Indexed) -> Verdict
    ensures { IsNext _trace.now.events _first _second row result }
{
    match row.outcome {
        Outcome::Apart => named(row, row.first, row.second, Outcome::Undecided { tried: 0 }),
        Outcome::Undecided { tried: _ } => row,
        Outcome::Deadlock {
            how: _,
            events: _,
            threads: _,
        } => row,
    }
}

/// The verdict after a pair was judged.
pub(crate) fn after(
    row: Verdict,
    first: u32,
    second: u32,
    answer: Judgement,
    tries: u32,
    _trace: &Indexed,
) -> Verdict
    requires { IsJudged _trace.now.events first second answer }
    ensures { IsNext _trace.now.events first second row result }
{
    match answer {
        Judgement::Never => named(row, row.first, row.second, row.outcome),
        Judgement::Shown {
            how,
            events,
            threads,
        } => {
            let outcome = Outcome::Deadlock {
                how,
                events,
                threads,
            };
            named(row, first, second, outcome)
        }
        Judgement::Missed => missed(row, first, second, tries, _trace),
    }
}

// The verdict after no schedule was found for a pair.
fn missed(row: Verdict, first: u32, second: u32, tries: u32, _trace: &Indexed) -> Verdict
    ensures { IsNext _trace.now.events first second row result }
{
    match row.outcome {
        Outcome::Apart => first_miss(row, first, second, tries, _trace),
        Outcome::Undecided { tried } => later_miss(row, first, second, tried, tries, _trace),
        Outcome::Deadlock {
            how: _,
            events: _,
            threads: _,
        } => row,
    }
}

// The verdict after the first pair for which no schedule was found.
fn first_miss(row: Verdict, first: u32, second: u32, tries: u32, _trace: &Indexed) -> Verdict
    ensures { IsNext _trace.now.events first second row result }
{
    let tried = tries.min(1);
    named(row, first, second, Outcome::Undecided { tried })
}

// The same if `tried` pairs were tried before.
fn later_miss(
    row: Verdict,
    first: u32,
    second: u32,
    tried: u32,
    tries: u32,
    _trace: &Indexed,
) -> Verdict
    ensures { IsNext _trace.now.events first second row result }
{
    if tried == 0 {
        return first_miss(row, first, second, tries, _trace);
    }
    let tried = tried.saturating_add(1);
    named(row, row.first, row.second, Outcome::Undecided { tried })
}

// The verdict with one more judged pair, these requests and this outcome.
fn named(row: Verdict, first: u32, second: u32, outcome: Outcome) -> Verdict
    ensures first { result.first ≡ first }
    ensures second { result.second ≡ second }
    ensures pattern { result.pattern ≡ row.pattern }
    ensures outcome { result.outcome ≡ outcome }
{
    Verdict {
        first,
        second,
        pattern: row.pattern,
        judged: row.judged.saturating_add(1),
        outcome,
    }
}
