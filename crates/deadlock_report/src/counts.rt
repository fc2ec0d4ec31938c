//! Counts a trace's verdicts.
ghost use Rattle.std.specs.Prelude.{◌≡◌, cond};
ghost use Rattle.deadlock_report.specs.Counts.{AreCountsIn, AreCountsWith, is_of};

use crate::kinds::{Kind, belongs};
use deadlock_triage::{Deadlocks, Verdict};
use event_index::Indexed;

/// The counts of a trace and of the verdicts on its patterns.
#[derive(Clone, Copy, PartialEq, Eq, Debug)]
pub struct Counts {
    /// How many events the trace has.
    pub events: u64,
    /// How many threads the trace has.
    pub threads: u64,
    /// How many requests there are whose thread holds another lock.
    pub nested: u64,
    /// How many patterns have a verdict: the sum of the next three. These counts are at most 2^64 - 1.
    pub patterns: u64,
    /// How many patterns are deadlocks.
    pub deadlocks: u64,
    /// How many patterns are undecided.
    pub undecided: u64,
    /// How many patterns are apart.
    pub apart: u64,
    /// Each cycle of up to this many threads was looked at: 2, or 1 if not all of two were.
    pub whole: u64,
}

/// The counts of the trace and of its verdicts.
pub fn counts_of(indexed: &Indexed, found: &Deadlocks) -> Counts
    // The counts are those of the trace and of the verdicts.
    ensures counts { AreCountsIn indexed.now found.now result }
{
    let mut counts = Counts {
        events: u64::from(indexed.len()),
        threads: u64::from(indexed.threads()),
        nested: u64::from(found.nested),
        patterns: 0,
        deadlocks: 0,
        undecided: 0,
        apart: 0,
        whole: whole_of(found.is_whole),
    };
    for verdict in found.verdicts.iter() {
        counts.add(verdict);
    }
    counts
}

impl Counts {
    // Counts one more verdict.
    fn add(&mut self, verdict: &Verdict)
        ensures { AreCountsWith verdict.now self.old self.new }
    {
        self.patterns = self.patterns.saturating_add(1);
        self.deadlocks = self.deadlocks.saturating_add(one_if(verdict, Kind::Shown));
        self.undecided = self.undecided.saturating_add(one_if(verdict, Kind::Open));
        self.apart = self.apart.saturating_add(one_if(verdict, Kind::Never));
    }
}

// Each cycle of up to this many threads was looked at.
fn whole_of(is_whole: bool) -> u64
    ensures { result ≡ cond is_whole 2 1 }
{
    if is_whole { 2 } else { 1 }
}

/// 1 if the verdict is of this kind, otherwise 0.
pub(crate) fn one_if(verdict: &Verdict, kind: Kind) -> u64
    ensures { result ≡ cond (is_of kind verdict.now) 1 0 }
{
    if belongs(verdict, kind) { 1 } else { 0 }
}
