//! The schedule that shows a pair, followed by the two accesses.
ghost use Rattle.std.specs.Prelude.{◌≡◌, ◌<◌, ◌++◌, ◌∷◌, [], IfOk};
ghost use Rattle.explain_report.specs.findings.Findings.{IsFinding};
ghost use Rattle.triage_report.specs.sarif.Flows.{is_race, AreSteps, IsFlowOf};

use explain_report::findings::{Finding, find};
use must_order::Analysis;
use race_triage::{Outcome, Verdict};
use rapid_text::OutOfMemory;
use std::alloc::Global;

/// The steps of a code flow for the verdict; None if it is no race or `is_drawn` is false.
pub(crate) fn steps_of(
    alloc: Global,
    analysis: &Analysis<'_>,
    is_drawn: bool,
    verdict: &Verdict,
) -> Result<Option<Vec<u32>>, OutOfMemory>
    ensures { IfOk result (IsFlowOf analysis.now is_drawn verdict.now) }
{
    if !is_drawn || !is_race(verdict.outcome) {
        return Ok(None);
    }
    steps_to(alloc, analysis, verdict.first, verdict.second)
}

/// Whether the outcome is a race.
fn is_race(outcome: Outcome) -> bool
    ensures { result ≡ is_race outcome }
{
    match outcome {
        Outcome::Race {
            how: _,
            events: _,
            threads: _,
        } => true,
        Outcome::Undecided { tried: _ } => false,
        Outcome::Apart => false,
    }
}

/// The steps that show a pair; None if no schedule is found, or if the trace lacks one of the two events.
fn steps_to(
    alloc: Global,
    analysis: &Analysis<'_>,
    first: u32,
    second: u32,
) -> Result<Option<Vec<u32>>, OutOfMemory>
    ensures { IfOk result (AreSteps analysis.now first second) }
{
    let indexed = analysis.indexed();
    if first >= indexed.len() || second >= indexed.len() {
        return Ok(None);
    }
    match find(alloc, analysis, first, second) {
        Ok(finding) => steps_in(alloc, analysis, &finding, first, second),
        Err(refused) => Err(refused),
    }
}

/// The steps for a finding on a pair; None if it is no race.
fn steps_in(
    alloc: Global,
    _analysis: &Analysis<'_>,
    finding: &Finding,
    first: u32,
    second: u32,
) -> Result<Option<Vec<u32>>, OutOfMemory>
    requires { IsFinding _analysis.now first second finding.now }
    ensures { IfOk result (AreSteps _analysis.now first second) }
{
    match finding {
        Finding::Race { how: _, events } => {
            let steps = steps_behind(alloc, events.items(), first, second)?;
            Ok(Some(steps))
        }
        Finding::Forced { chains: _ } => Ok(None),
        Finding::Guarded { lock: _ } => Ok(None),
        Finding::Contradicted { steps: _ } => Ok(None),
        Finding::Undecided { events: _ } => Ok(None),
    }
}

/// These events, followed by the two of the pair.
fn steps_behind(
    alloc: Global,
    events: &[u32],
    first: u32,
    second: u32,
) -> Result<Vec<u32>, OutOfMemory>
    ensures { IfOk result (λ steps. steps.items ≡ events.now ++ first ∷ second ∷ []) }
{
    let mut steps = Vec::from_slice(alloc, events)?;
    steps.extend_from_slice(&[first, second])?;
    Ok(steps)
}
