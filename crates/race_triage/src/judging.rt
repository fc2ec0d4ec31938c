//! Gives the verdict on a row.
ghost use Rattle.std.specs.Prelude.{◌≡◌, ◌<◌, ◌≤◌, IfOk, Some, length, slice_get, slice_index, take};
ghost use Rattle.race_groups.specs.Kinds.{IsNeverShownBetween};
ghost use Rattle.explain_report.specs.findings.Findings.{search_limit};
ghost use Rattle.race_triage.specs.Tables.{AreLeastsIn, AreTables, HasConflictIn, IsFirstPairIn, IsRowIn};
ghost use Rattle.race_triage.specs.Verdicts.{AreAllMissed, AreOpenPairs, IfNoneFound, IsBudgetIn, IsFirstShown, IsFoundIn, IsVerdictBy, IsVerdictOf};
ghost use Rattle.rapid_text.specs.Appended.{IfFound};

use crate::found::Found;
use crate::places::small;
use crate::tables::Tables;
use crate::verdicts::{Effort, Outcome, Verdict};
use race_groups::least_pairs::{Least, Pair, Try};
use race_groups::{Row, is_apart};
use rapid_text::OutOfMemory;

impl Found<'_> {
    /// The verdict on the row with this index.
    pub(crate) fn verdict(&self, at: usize) -> Result<Verdict, OutOfMemory>
        requires found { IsFoundIn self.now }
        requires at { at < length self.now.groups.rows.items }
        ensures verdict { IfOk result (IsVerdictOf self.now) }
        ensures row { IfOk result (λ v. slice_get self.now.groups.rows.items at ≡ Some v.row) }
    {
        let row = self.groups.rows[at];
        let first = self.first(at);
        let least = &self.leasts[at];
        let verdict = self
            .tables
            .verdict(row, least, first, self.effort, self.budget)?;
        Ok(verdict)
    }
}

impl Tables<'_> {
    /// The verdict on a row, given its least pairs. `first` is its least conflicting pair, if apart verdicts need it.
    /// All its open pairs share `budget` search steps.
    pub(crate) fn verdict(
        &self,
        row: Row,
        least: &Least,
        first: Option<Pair>,
        effort: Effort,
        budget: u32,
    ) -> Result<Verdict, OutOfMemory>
        requires tables { AreTables self.now }
        requires row { IsRowIn self.now row }
        requires there { HasConflictIn self.now row.places }
        requires least { AreLeastsIn self.now effort row.places least.now }
        requires first { IsFirstPairIn self.now effort row.places first }
        requires shared { IsBudgetIn self.now budget }
        ensures { IfOk result (IsVerdictBy self.now effort row) }
    {
        if is_apart(self.indexed, self.places, row) {
            return Ok(self.apart_row(row, least, first, effort));
        }
        if row.counts.candidates > 0 {
            return self.candidate_row(row, least, effort);
        }
        self.open_row(row, least, effort, budget)
    }

    // The verdict on a row with candidates.
    fn candidate_row(
        &self,
        row: Row,
        least: &Least,
        _effort: Effort,
    ) -> Result<Verdict, OutOfMemory>
        requires tables { AreTables self.now }
        requires row { IsRowIn self.now row }
        requires there { HasConflictIn self.now row.places }
        requires least { AreLeastsIn self.now _effort row.places least.now }
        requires candidates { 0 < row.counts.candidates }
        ensures { IfOk result (IsVerdictBy self.now _effort row) }
    {
        let Some(pair) = least.candidate else {
            unreachable!()
        };
        let outcome = self.race_of_candidate(pair.1, pair.0)?;
        Ok(of_pair(row, least.variables, pair, outcome))
    }

    // The verdict on a row without candidates that has open pairs.
    fn open_row(
        &self,
        row: Row,
        least: &Least,
        effort: Effort,
        budget: u32,
    ) -> Result<Verdict, OutOfMemory>
        requires tables { AreTables self.now }
        requires row { IsRowIn self.now row }
        requires there { HasConflictIn self.now row.places }
        requires least { AreLeastsIn self.now effort row.places least.now }
        requires candidates { row.counts.candidates ≡ 0 }
        requires open_pairs { 0 < row.counts.open_pairs }
        requires shared { IsBudgetIn self.now budget }
        ensures { IfOk result (IsVerdictBy self.now effort row) }
    {
        let all = least.tries.as_slice();
        if all.is_empty() {
            unreachable!()
        }
        let tried = beginning(all, effort.tries as usize);
        match self.first_shown(tried, budget)? {
            Some((pair, outcome)) => Ok(of_pair(row, least.variables, pair, outcome)),
            None => {
                let pair = all[0].pair;
                let tried = small(tried.len())?;
                Ok(of_pair(row, least.variables, pair, Outcome::Undecided { tried }))
            }
        }
    }

    // The first open pair of the list for which a schedule is found. All pairs share `budget` search steps.
    fn first_shown(
        &self,
        tried: &[Try],
        budget: u32,
    ) -> Result<Option<(Pair, Outcome)>, OutOfMemory>
        requires tables { AreTables self.now }
        requires opens { AreOpenPairs self.now.indexed.now tried.now }
        requires few { budget ≤ search_limit }
        ensures shown { IfFound result (IsFirstShown self.now.indexed.now budget tried.now) }
        ensures none { IfNoneFound result (AreAllMissed self.now.indexed.now budget tried.now) }
    {
        let mut left = budget;
        for at in 0..tried.len() {
            let pair = tried[at].pair;
            if let Some(outcome) = self.race_of_open(pair.1, pair.0, &mut left)? {
                return Ok(Some((pair, outcome)));
            }
        }
        Ok(None)
    }

    // The verdict on a row whose pairs are all forced or guarded.
    fn apart_row(&self, row: Row, least: &Least, first: Option<Pair>, effort: Effort) -> Verdict
        requires row { IsRowIn self.now row }
        requires there { HasConflictIn self.now row.places }
        requires least { AreLeastsIn self.now effort row.places least.now }
        requires first { IsFirstPairIn self.now effort row.places first }
        requires candidates { row.counts.candidates ≡ 0 }
        requires open_pairs { row.counts.open_pairs ≡ 0 }
        requires never { IsNeverShownBetween self.now.indexed.now.events (slice_index self.now.places.now) row.places.0 row.places.1 }
        ensures { IsVerdictBy self.now effort row result }
    {
        if !effort.apart {
            return of_pair(row, least.variables, (0, 0), Outcome::Apart);
        }
        match first {
            Some(pair) => of_pair(row, least.variables, pair, Outcome::Apart),
            None => unreachable!(),
        }
    }
}

// The first `most` tries; all if there are fewer.
fn beginning(tries: &[Try], most: usize) -> &[Try]
    ensures { result.now ≡ take most tries.now }
{
    &tries[..most.min(tries.len())]
}

fn of_pair(row: Row, variables: u32, pair: Pair, outcome: Outcome) -> Verdict
    ensures first { result.first ≡ pair.1 }
    ensures second { result.second ≡ pair.0 }
    ensures row { result.row ≡ row }
    ensures variables { result.variables ≡ variables }
    ensures outcome { result.outcome ≡ outcome }
{
    Verdict {
        first: pair.1,
        second: pair.0,
        row,
        variables,
        outcome,
    }
}
