//! Counts over a whole trace.
ghost use Rattle.std.specs.Prelude.{◌≡◌, nat_lt, cond};
ghost use Rattle.race_triage.specs.Chosen.{is_of};
ghost use Rattle.race_triage.specs.Texts.{all_in, pairs_covered, AreTotalsIn, AreTotalsWith};

use crate::chosen::{Part, belongs};
use crate::verdicts::{Outcome, Verdict, Verdicts};
use event_index::Indexed;
use race_groups::Counts;

/// The counts of a trace and of its pairs of locations.
#[derive(Clone, Copy, PartialEq, Eq, Debug)]
pub struct Totals {
    /// How many events the trace has.
    pub events: u64,
    /// How many threads the trace has.
    pub threads: u64,
    /// How many pairs of events conflict: the sum of the next four. This and all counts below are at most 2^64 - 1.
    pub pairs: u64,
    /// How many pairs of events are candidates.
    pub candidates: u64,
    /// How many pairs of events are open.
    pub open_pairs: u64,
    /// How many pairs of events are guarded.
    pub guarded: u64,
    /// How many pairs of events are forced.
    pub forced: u64,
    /// How many pairs of locations have conflicting events: the sum of the next three.
    pub places: u64,
    /// How many pairs of locations are races.
    pub races: u64,
    /// How many pairs of locations are undecided.
    pub undecided: u64,
    /// How many pairs of locations are apart.
    pub apart: u64,
}

impl Verdicts {
    /// Returns the counts of the whole trace. `indexed` is the trace of the verdicts.
    pub fn totals(&self, indexed: &Indexed) -> Totals
        ensures { AreTotalsIn indexed.now self.now result }
    {
        let mut totals = Totals {
            events: u64::from(indexed.len()),
            threads: u64::from(indexed.threads()),
            pairs: 0,
            candidates: 0,
            open_pairs: 0,
            guarded: 0,
            forced: 0,
            places: 0,
            races: 0,
            undecided: 0,
            apart: 0,
        };
        for verdict in self.verdicts.iter() {
            totals.add(verdict);
        }
        totals
    }
}

impl Totals {
    // Adds a verdict and its pairs to the counts.
    fn add(&mut self, verdict: &Verdict)
        ensures { AreTotalsWith verdict.now self.old self.new }
    {
        let counts = verdict.row.counts;
        self.candidates = self.candidates.saturating_add(counts.candidates);
        self.open_pairs = self.open_pairs.saturating_add(counts.open_pairs);
        self.guarded = self.guarded.saturating_add(counts.guarded);
        self.forced = self.forced.saturating_add(counts.forced);
        self.pairs = self.pairs.saturating_add(all_of(counts));
        self.places = self.places.saturating_add(1);
        self.races = self.races.saturating_add(one_if(verdict, Part::Races));
        self.undecided = self.undecided.saturating_add(one_if(verdict, Part::Open));
        self.apart = self.apart.saturating_add(one_if(verdict, Part::Never));
    }
}

// 1 if the verdict is of this kind, otherwise 0.
fn one_if(verdict: &Verdict, part: Part) -> u64
    ensures { result ≡ cond (is_of part verdict.now) 1 0 }
{
    if belongs(verdict, part) { 1 } else { 0 }
}

impl Verdict {
    /// Returns the number of pairs of events that the verdict covers. For an apart verdict these are all pairs.
    /// Otherwise they are the candidates, or the open pairs if there is no candidate.
    pub fn pairs(&self) -> u64
        ensures { result ≡ pairs_covered self.now }
    {
        let counts = self.row.counts;
        match self.outcome {
            Outcome::Apart => all_of(counts),
            Outcome::Race {
                how: _,
                events: _,
                threads: _,
            } => shown_of(counts),
            Outcome::Undecided { tried: _ } => shown_of(counts),
        }
    }
}

// The number of candidates, or of open pairs if there is no candidate.
fn shown_of(counts: Counts) -> u64
    ensures { result ≡ cond (nat_lt 0 counts.candidates) counts.candidates counts.open_pairs }
{
    match counts.candidates {
        0 => counts.open_pairs,
        candidates => candidates,
    }
}

// The number of pairs of all kinds.
fn all_of(counts: Counts) -> u64
    ensures { result ≡ all_in counts }
{
    let shown = counts.candidates.saturating_add(counts.open_pairs);
    let apart = counts.guarded.saturating_add(counts.forced);
    shown.saturating_add(apart)
}
