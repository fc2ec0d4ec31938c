//! Finds out that two locations are apart, where the search found no schedule for their open pairs: the closed order
//! contradicts each such pair.
ghost use Rattle.std.specs.Prelude.{◌≡◌, ◌+◌, ◌<◌, ℕ, [], ◌∷◌, All, IfOk, IfSome, IsTrue, OnOk, length, slice_index};
ghost use Rattle.closed_order.specs.Steps.{IsContradiction};
ghost use Rattle.explain_report.specs.findings.Findings.{IsShownByNone};
ghost use Rattle.race_groups.specs.Groups.{is_between};
ghost use Rattle.race_triage.specs.Settled.{AreAllApartIn, AreApartFromIn, AreCorrect, AreMembers, IsApartIn, IsMember, IsNeverShownIn};
ghost use Rattle.race_triage.specs.Verdicts.{IsFoundIn, IsVerdictOf};
ghost use Rattle.race_triage.specs.declared.verdicts.Outcome.TheVariants.{Undecided};

use crate::found::Found;
use crate::places::small;
use crate::verdicts::{Outcome, Verdict};
use closed_order::{Closing, Step, USUAL_WORK, contradicted_is_never_shown};
use must_order::{Analysis, apart_is_never_shown};
use race_groups::Row;
use rapid_text::OutOfMemory;
use std::alloc::Global;

/// What is looked at for one row: the trace, the number of each event's location, and the two locations.
#[derive(Clone, Copy)]
pub(crate) struct Settling<'a> {
    pub(crate) alloc: Global,
    pub(crate) analysis: &'a Analysis<'a>,
    pub(crate) places: &'a [u32],
    pub(crate) between: (u32, u32),
}

/// Settles each undecided verdict if it can, in the order of the list. All share one budget.
pub(crate) fn settle_all(
    found: &Found<'_>,
    analysis: &Analysis<'_>,
    verdicts: &mut Vec<Verdict>,
) -> Result<(), OutOfMemory>
    requires found { IsFoundIn found.now }
    requires trace { analysis.now ≡ found.now.tables.indexed.now }
    requires verdicts { AreCorrect found.now verdicts.old.items }
    ensures { OnOk result (AreCorrect found.now verdicts.new.items) }
{
    let mut closing = Closing::new(USUAL_WORK);
    for at in 0..verdicts.len() {
        let verdict = settled(found, analysis, &mut closing, verdicts[at])?;
        verdicts[at] = verdict;
    }
    Ok(())
}

/// The verdict. If it is undecided, and all its open pairs are found to be contradicted, its locations are apart.
pub(crate) fn settled(
    found: &Found<'_>,
    analysis: &Analysis<'_>,
    closing: &mut Closing,
    verdict: Verdict,
) -> Result<Verdict, OutOfMemory>
    requires found { IsFoundIn found.now }
    requires trace { analysis.now ≡ found.now.tables.indexed.now }
    requires verdict { IsVerdictOf found.now verdict }
    ensures verdict { IfOk result (IsVerdictOf found.now) }
    ensures row { IfOk result (λ v. v.row ≡ verdict.row) }
{
    if !is_undecided(verdict.outcome) {
        return Ok(verdict);
    }
    if !are_apart(found, analysis, closing, verdict.row)? {
        return Ok(verdict);
    }
    Ok(apart_of(found, verdict))
}

/// Whether the outcome is undecided.
pub(crate) fn is_undecided(outcome: Outcome) -> bool
    ensures { IsTrue result → (tried : ℕ) × (outcome ≡ Undecided tried) }
{
    match outcome {
        Outcome::Undecided { tried: _ } => true,
        Outcome::Race { .. } => false,
        Outcome::Apart => false,
    }
}

// The verdict that the locations of an undecided one are apart.
fn apart_of(found: &Found<'_>, verdict: Verdict) -> Verdict
    requires verdict { IsVerdictOf found.now verdict }
    requires undecided { (tried : ℕ) × (verdict.outcome ≡ Undecided tried) }
    requires never { IsNeverShownIn found.now verdict.row }
    ensures verdict { IsVerdictOf found.now result }
    ensures row { result.row ≡ verdict.row }
{
    if found.effort.apart {
        return Verdict {
            first: verdict.first,
            second: verdict.second,
            row: verdict.row,
            variables: verdict.variables,
            outcome: Outcome::Apart,
        };
    }
    Verdict {
        first: 0,
        second: 0,
        row: verdict.row,
        variables: verdict.variables,
        outcome: Outcome::Apart,
    }
}

// Whether no correct reordering was found to show two events at the row's locations.
fn are_apart(
    found: &Found<'_>,
    analysis: &Analysis<'_>,
    closing: &mut Closing,
    row: Row,
) -> Result<bool, OutOfMemory>
    requires found { IsFoundIn found.now }
    requires trace { analysis.now ≡ found.now.tables.indexed.now }
    ensures { IfOk result (λ so. IsTrue so → IsNeverShownIn found.now row) }
{
    let settling = Settling {
        alloc: found.tables.alloc,
        analysis: &*analysis,
        places: found.tables.places,
        between: row.places,
    };
    if found.effort.tries == 0 {
        return Ok(false);
    }
    if !settling.has_work(closing, row) {
        return Ok(false);
    }
    let members = settling.members()?;
    settling.all_apart(closing, members.as_slice())
}

impl Settling<'_> {
    // Whether the budget has enough for the row: for its open pairs, and for going over the trace.
    fn has_work(&self, closing: &mut Closing, row: Row) -> bool {
        let events = u64::from(self.analysis.indexed().len());
        let pairs = row.counts.open_pairs.saturating_mul(events / 8);
        closing.may(pairs) && closing.spend(events / 4)
    }

    // The events at the two locations.
    fn members(&self) -> Result<Vec<u32>, OutOfMemory>
        ensures { IfOk result (λ es. AreMembers self.now (length self.now.places.now) es.items) }
    {
        let mut members = Vec::new(self.alloc);
        for at in 0..self.places.len() {
            self.add_member(&mut members, at)?;
        }
        Ok(members)
    }

    // Adds the event if it is at one of the two locations.
    fn add_member(&self, members: &mut Vec<u32>, at: usize) -> Result<(), OutOfMemory>
        requires at { at < length self.now.places.now }
        requires members { AreMembers self.now at members.old.items }
        ensures { OnOk result (AreMembers self.now (at + 1) members.new.items) }
    {
        if !self.is_member(at) {
            return Ok(());
        }
        members.push(small(at)?)?;
        Ok(())
    }

    // Whether the event is at one of the two locations.
    fn is_member(&self, at: usize) -> bool
        requires at { at < length self.now.places.now }
        ensures { IsMember self.now at → IsTrue result }
    {
        let place = self.places[at];
        place == self.between.0 || place == self.between.1
    }

    // Whether each two of the events are found to be apart, or are not at the two locations.
    fn all_apart(&self, closing: &mut Closing, members: &[u32]) -> Result<bool, OutOfMemory>
        requires members { All (λ e. e < length self.now.analysis.now.events) members.now }
        ensures { IfOk result (λ so. IsTrue so → AreAllApartIn self.now members.now) }
    {
        for at in 0..members.len() {
            if !self.apart_from(closing, members, members[at])? {
                return Ok(false);
            }
        }
        Ok(true)
    }

    // The same for one later event.
    fn apart_from(
        &self,
        closing: &mut Closing,
        members: &[u32],
        later: u32,
    ) -> Result<bool, OutOfMemory>
        requires members { All (λ e. e < length self.now.analysis.now.events) members.now }
        requires later { later < length self.now.analysis.now.events }
        ensures { IfOk result (λ so. IsTrue so → AreApartFromIn self.now members.now later) }
    {
        if !closing.spend(members.len() as u64) {
            return Ok(false);
        }
        for at in 0..members.len() {
            if !self.is_apart(closing, members[at], later)? {
                return Ok(false);
            }
        }
        Ok(true)
    }

    // The same for two events.
    fn is_apart(&self, closing: &mut Closing, first: u32, second: u32) -> Result<bool, OutOfMemory>
        requires first { first < length self.now.analysis.now.events }
        requires second { second < length self.now.analysis.now.events }
        ensures { IfOk result (λ so. IsTrue so → IsApartIn self.now first second) }
    {
        if first >= second {
            return Ok(true);
        }
        if !self.is_at(first, second) {
            return Ok(true);
        }
        if self.is_known_apart(first, second) {
            return Ok(true);
        }
        let found = closing.contradiction(self.alloc, self.analysis, first, second)?;
        Ok(self.is_contradicted(&found, first, second))
    }

    // Whether the two events are at the two locations.
    fn is_at(&self, first: u32, second: u32) -> bool
        requires first { first < length self.now.analysis.now.events }
        requires second { second < length self.now.analysis.now.events }
        ensures { result ≡ is_between self.now.between.0 self.now.between.1 (slice_index self.now.places.now first) (slice_index self.now.places.now second) }
    {
        is_between(self.between, self.place(first), self.place(second))
    }

    // The number of the event's location.
    fn place(&self, event: u32) -> u32
        ensures { result ≡ slice_index self.now.places.now event }
    {
        match self.places.get(event as usize) {
            Some(place) => *place,
            None => 0,
        }
    }

    // Whether the two events do not conflict, or are forced or guarded.
    fn is_known_apart(&self, first: u32, second: u32) -> bool
        requires first { first < length self.now.analysis.now.events }
        requires second { second < length self.now.analysis.now.events }
        ensures { IsTrue result → IsShownByNone self.now.analysis.now.events first second }
    {
        apart_is_never_shown();
        let indexed = self.analysis.indexed();
        let _len = indexed.len();
        if !indexed.conflict(first, second) {
            return true;
        }
        if self.analysis.is_forced(first, second) {
            return true;
        }
        match self.analysis.guard(first, second) {
            Some(_) => true,
            None => false,
        }
    }

    // Whether steps were found that contradict the two events.
    fn is_contradicted(&self, found: &Option<Vec<Step>>, _first: u32, _second: u32) -> bool
        requires { IfSome found.now (λ steps. IsContradiction self.now.analysis.now.events (_first ∷ _second ∷ []) steps.items) }
        ensures { IsTrue result → IsShownByNone self.now.analysis.now.events _first _second }
    {
        contradicted_is_never_shown();
        let indexed = self.analysis.indexed();
        let _len = indexed.len();
        match found {
            None => false,
            Some(_) => true,
        }
    }
}

// Whether the two locations are these, in one order or the other.
fn is_between(between: (u32, u32), one: u32, other: u32) -> bool
    ensures { result ≡ is_between between.0 between.1 one other }
{
    one == between.0 && other == between.1 || one == between.1 && other == between.0
}
