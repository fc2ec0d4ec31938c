//! Decides all pairs of locations of a trace.
ghost use Rattle.std.specs.Prelude.{◌≡◌, All, Err, IfOk};
ghost use Rattle.race_triage.specs.declared.verdicts.TriageRefusal.TheVariants.{OutOfMemory, TooMany};
ghost use Rattle.outside.specs.triage.Decided.{AreDecided, IsNeverShownIfApart, IsShownIfRace};

use must_order::Analysis;
use race_triage::{Effort, Located, MAX_TRIES, Silent, TriageRefusal, Verdicts, triage};
use std::alloc::Global;
use std::thread::Threads;

/// A verdict for each pair of locations with conflicting accesses. Fails if there are more than 1,048,576 such pairs of
/// locations, or if memory runs out.
pub fn decide<R: Threads + Sync>(
    rt: &R,
    alloc: Global,
    analysis: &Analysis<'_>,
) -> Result<Verdicts, TriageRefusal>
    // Each race has a schedule that is a correct reordering of the trace and shows its two events.
    ensures shown { IfOk result (λ found. All (IsShownIfRace analysis.now.events) found.verdicts.items) }
    // No correct reordering shows two events at two locations that are apart.
    ensures apart { IfOk result (λ found. All (IsNeverShownIfApart analysis.now) found.verdicts.items) }
    // Each two conflicting events have a verdict on their locations.
    ensures decided { IfOk result (λ found. AreDecided analysis.now found.verdicts.items) }
{
    let effort = Effort {
        tries: MAX_TRIES,
        apart: true,
        workers: 0,
    };
    let located = Located::of(alloc, analysis.indexed())?;
    triage(rt, alloc, analysis, located, effort, &Silent)
}
