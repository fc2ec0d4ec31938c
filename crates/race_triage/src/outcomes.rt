//! Finds the size of a schedule that shows a pair: its events and its threads.
ghost use Rattle.std.specs.Prelude.{◌≡◌, ◌≢◌, ◌<◌, ◌≤◌, IfOk, false, length};
ghost use Rattle.event_index.specs.Relations.{IsConflicting};
ghost use Rattle.must_order.specs.Kinds.{IsKind};
ghost use Rattle.must_order.specs.declared.kind.Kind.TheVariants.{Candidate as CandidateKind, Open as OpenKind};
ghost use Rattle.rapid_text.specs.Appended.{IfFound};
ghost use Rattle.witness_search.specs.trace_order.Laws.{HasListInOrder};
ghost use Rattle.witness_search.specs.trace_order.Refusals.{IsNeverShownInOrder};
ghost use Rattle.witness_search.specs.trace_order.Sizes.{IsSizeInOrder};
ghost use Rattle.witness_search.specs.declared.trace_order.refusal.InOrderRefusal.TheVariants.{OutOfMemory as NoMemory};
ghost use Rattle.explain_report.specs.declared.verdict.How.TheVariants.{Candidate, Turned};
ghost use Rattle.explain_report.specs.findings.Findings.{search_limit};
ghost use Rattle.race_triage.specs.Tables.{AreTables};
ghost use Rattle.race_triage.specs.Verdicts.{IfNoneFound, IsFoundBy, IsMissed, IsOpenRace, IsRaceOf};
ghost use Rattle.race_triage.specs.declared.verdicts.Outcome.TheVariants.{Race};

use crate::tables::Tables;
use crate::verdicts::Outcome;
use event_index::Indexed;
use explain_report::How;
use rapid_text::OutOfMemory;
use witness_search::trace_order::{
    InOrderRefusal, candidates_are_in_order, in_order_is_sound, in_order_size, turned_size,
};

impl Tables<'_> {
    /// The race of a candidate. The least schedule in the order of the trace always shows it.
    pub(crate) fn race_of_candidate(&self, first: u32, second: u32) -> Result<Outcome, OutOfMemory>
        requires tables { AreTables self.now }
        requires first { first < length self.now.indexed.now.events }
        requires second { second < length self.now.indexed.now.events }
        requires kind { IsKind self.now.indexed.now first second CandidateKind }
        ensures { IfOk result (IsRaceOf self.now.indexed.now first second Candidate) }
    {
        candidates_are_in_order();
        in_order_is_sound();
        let _len = self.indexed.len();
        match self.size_in_order(first, second)? {
            Some(size) => Ok(race(How::Candidate, size)),
            None => unreachable!(),
        }
    }

    /// The race of an open pair, if a schedule shows it. Tries the least schedule in the order of the trace, and then
    /// a search with at most `left` steps. If the search finds nothing, it subtracts its steps from `left`.
    pub(crate) fn race_of_open(
        &self,
        first: u32,
        second: u32,
        left: &mut u32,
    ) -> Result<Option<Outcome>, OutOfMemory>
        requires tables { AreTables self.now }
        requires first { first < length self.now.indexed.now.events }
        requires second { second < length self.now.indexed.now.events }
        requires conflict { IsConflicting self.now.indexed.now.events first second }
        requires few { left.old ≤ search_limit }
        requires kind { IsKind self.now.indexed.now first second OpenKind }
        ensures race { IfFound result (IsOpenRace self.now.indexed.now first second) }
        ensures none { IfNoneFound result (IsMissed self.now.indexed.now.events first second left.old left.new) }
        ensures found { IfFound result (λ outcome. IsFoundBy self.now.indexed.now.events first second left.old) }
        ensures fewer { left.new ≤ left.old }
    {
        in_order_is_sound();
        let _len = self.indexed.len();
        match self.size_in_order(first, second)? {
            Some(size) => Ok(Some(race(How::Beyond, size))),
            None => self.race_turned(first, second, left),
        }
    }

    // The race of an open pair that no schedule in the order of the trace shows, if the search finds one.
    fn race_turned(
        &self,
        first: u32,
        second: u32,
        left: &mut u32,
    ) -> Result<Option<Outcome>, OutOfMemory>
        requires tables { AreTables self.now }
        requires conflict { IsConflicting self.now.indexed.now.events first second }
        requires few { left.old ≤ search_limit }
        requires kind { IsKind self.now.indexed.now first second OpenKind }
        requires never { IsNeverShownInOrder self.now.indexed.now.events first second }
        ensures race { IfFound result (IsRaceOf self.now.indexed.now first second Turned) }
        ensures none { IfNoneFound result (IsMissed self.now.indexed.now.events first second left.old left.new) }
        ensures found { IfFound result (λ outcome. IsFoundBy self.now.indexed.now.events first second left.old) }
        ensures fewer { left.new ≤ left.old }
    {
        let pair = (first, second);
        match turned_size(
            self.alloc,
            self.indexed,
            self.must,
            self.acquires,
            pair,
            left,
        )? {
            Some(size) => Ok(Some(race(How::Turned, size))),
            None => Ok(None),
        }
    }

    // The numbers of events and threads in the least schedule in the order of the trace that shows the pair. Returns
    // None if there is no such schedule.
    fn size_in_order(&self, first: u32, second: u32) -> Result<Option<(u32, u32)>, OutOfMemory>
        requires tables { AreTables self.now }
        ensures size { IfFound result (IsSizeInOrder self.now.indexed.now.events first second) }
        ensures there { IfFound result (λ size. HasListInOrder self.now.indexed.now.events first second) }
        ensures never { IfNoneFound result (IsNeverShownInOrder self.now.indexed.now.events first second) }
        ensures none { IfNoneFound result (¬ HasListInOrder self.now.indexed.now.events first second) }
    {
        match in_order_size(
            self.alloc,
            self.indexed,
            self.must,
            self.acquires,
            first,
            second,
        ) {
            Ok(size) => Ok(Some(size)),
            Err(refusal) => {
                if wants_memory(refusal) {
                    return Err(OutOfMemory);
                }
                Ok(None)
            }
        }
    }
}

// Whether there may be such a schedule, but memory ran out.
fn wants_memory(refusal: InOrderRefusal) -> bool
    ensures { result ≡ false → refusal ≢ NoMemory }
{
    match refusal {
        InOrderRefusal::NoSuchEvent => false,
        InOrderRefusal::NotConflicting => false,
        InOrderRefusal::NotInOrder => false,
        InOrderRefusal::OutOfMemory => true,
    }
}

// The race that a schedule with this size shows.
fn race(how: How, size: (u32, u32)) -> Outcome
    ensures { result ≡ Race how size.0 size.1 }
{
    Outcome::Race {
        how,
        events: size.0,
        threads: size.1,
    }
}
