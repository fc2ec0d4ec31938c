//! The least conflicting pair of each pair of places.
ghost use Rattle.std.specs.Prelude.{◌≡◌, true, filter, All, IfOk, IfSome, None, OnOk, length, slice_index};
ghost use Rattle.event_index.specs.Lookups.{before};
ghost use Rattle.race_groups.specs.least_pairs.Pairs.{AreAt, IsPair, is_access_at, AreFirstPairs, AreGroupsOf, IsOneForEach};
ghost use Rattle.race_groups.specs.least_pairs.Uses.{AreRuns, HoldsBetween, IsAsked, IsBehind, IsPairBetween, IsPairOf, AreUsesOf, HasFirsts, HasNoted, HoldsAllUses, HoldsPair, HoldsUses, HoldsVariable, IsAccessNoted, IsUseOf, StayBehind};

use crate::least_pairs::lanes::accesses_of;
use crate::least_pairs::tries::{Pair, lesser};
use crate::least_pairs::uses::{Index, Of, Use, are_of_one_thread, is_writing, note_use, runs_of};
use crate::{Classes, Groups};
use event_index::Indexed;
use indexmap::IndexMap;
use rapid_text::OutOfMemory;
use std::alloc::Global;

/// For each row of `groups` its least conflicting pair, in the order of the rows. `places` has the number of each
/// event's place. Fails if memory runs out.
pub fn firsts_of(
    alloc: Global,
    indexed: &Indexed,
    places: &[u32],
    classes: &Classes,
    groups: &Groups,
) -> Result<Vec<Option<Pair>>, OutOfMemory>
    requires places { length places.now ≡ length indexed.now.events }
    requires groups { AreGroupsOf indexed.now (slice_index places.now) classes.now groups.now }
    ensures len { IfOk result (IsOneForEach groups.now) }
    ensures firsts { IfOk result (AreFirstPairs indexed.now (slice_index places.now) groups.now) }
{
    let asked = Places {
        indexed,
        places,
        groups,
    };
    let accesses = accesses_of(alloc, indexed)?;
    let mut firsts: Vec<Option<Pair>> = vec![in alloc; None; groups.rows.len()]?;
    for variable in 0..indexed.variables() {
        let of_variable = accesses[variable as usize].as_slice();
        asked.note_variable(alloc, &mut firsts, variable, of_variable)?;
    }
    Ok(firsts)
}

/// The places of a trace's events, and the rows of all pairs of places.
#[derive(Clone, Copy)]
struct Places<'a> {
    indexed: &'a Indexed,
    places: &'a [u32],
    groups: &'a Groups,
}

impl Places<'_> {
    // Adds the pairs of one variable.
    fn note_variable(
        &self,
        alloc: Global,
        firsts: &mut Vec<Option<Pair>>,
        variable: u32,
        accesses: &[u32],
    ) -> Result<(), OutOfMemory>
        requires asked { IsAsked self.now }
        requires accesses { accesses.now ≡ filter (is_access_at self.now.indexed.now.events variable) (before (length self.now.indexed.now.events)) }
        requires firsts { HasFirsts self.now firsts.old.items }
        ensures noted { OnOk result (HasNoted self.now firsts.old.items firsts.new.items) }
        ensures held { OnOk result (HoldsVariable self.now variable firsts.new.items) }
    {
        let found = self.uses_of(alloc, variable, accesses)?;
        let uses = found.as_slice();
        let ends = runs_of(alloc, uses)?;
        let runs = ends.as_slice();
        for at in 0..uses.len() {
            self.note_all(firsts, variable, uses, runs, uses[at]);
        }
        Ok(())
    }

    // The uses of one variable.
    fn uses_of(
        &self,
        alloc: Global,
        variable: u32,
        accesses: &[u32],
    ) -> Result<Vec<Use>, OutOfMemory>
        requires asked { IsAsked self.now }
        requires accesses { accesses.now ≡ filter (is_access_at self.now.indexed.now.events variable) (before (length self.now.indexed.now.events)) }
        ensures { IfOk result (λ uses. AreUsesOf self.now variable accesses.now uses.items) }
    {
        let mut uses = Vec::new(alloc);
        let mut index = IndexMap::new(alloc);
        for event in accesses {
            self.note_event(&mut uses, &mut index, variable, *event)?;
        }
        Ok(uses)
    }

    // Adds one access of the variable.
    fn note_event(
        &self,
        uses: &mut Vec<Use>,
        index: &mut Index,
        variable: u32,
        event: u32,
    ) -> Result<(), OutOfMemory>
        requires asked { IsAsked self.now }
        requires access { is_access_at self.now.indexed.now.events variable event ≡ true }
        requires behind { All (IsBehind event) uses.old.items }
        ensures uses { OnOk result (IsAccessNoted self.now variable event uses.old.items uses.new.items) }
        ensures behind { OnOk result (StayBehind event uses.old.items uses.new.items) }
    {
        let found = self.indexed.event(event);
        let of = Of {
            event,
            thread: found.thread,
        };
        let writing = is_writing(found.op, variable);
        note_use(uses, index, self.places[event as usize], writing, of)?;
        Ok(())
    }

    // Adds the pairs of one use that writes with all uses. Uses that only one thread has are skipped if that thread
    // has this use too.
    fn note_all(
        &self,
        firsts: &mut Vec<Option<Pair>>,
        variable: u32,
        uses: &[Use],
        runs: &[usize],
        one: Use,
    )
        requires asked { IsAsked self.now }
        requires firsts { HasFirsts self.now firsts.old.items }
        requires uses { All (IsUseOf self.now variable) uses.now }
        requires one { IsUseOf self.now variable one }
        requires runs { AreRuns uses.now runs.now }
        ensures noted { HasNoted self.now firsts.old.items firsts.new.items }
        ensures held { HoldsAllUses self.now variable uses.now firsts.new.items one }
    {
        if !one.is_writing {
            return;
        }
        let mut at = 0;
        while at < uses.len() {
            if are_of_one_thread(one, uses[at]) {
                at = runs[at];
            } else {
                self.note_uses(firsts, variable, one, uses[at]);
                at += 1;
            }
        }
    }

    // Adds the least pair of two uses, the first of which writes.
    fn note_uses(&self, firsts: &mut Vec<Option<Pair>>, _variable: u32, one: Use, other: Use)
        requires asked { IsAsked self.now }
        requires firsts { HasFirsts self.now firsts.old.items }
        requires one { IsUseOf self.now _variable one }
        requires other { IsUseOf self.now _variable other }
        requires writes { one.is_writing ≡ true }
        ensures noted { HasNoted self.now firsts.old.items firsts.new.items }
        ensures held { HoldsUses self.now _variable firsts.new.items one other }
    {
        if let Some(pair) = least_of(one, other) {
            self.note_pair(firsts, one.place, other.place, pair);
        }
    }

    // Adds a conflicting pair of two places.
    fn note_pair(&self, firsts: &mut Vec<Option<Pair>>, first: u32, second: u32, pair: Pair)
        requires asked { IsAsked self.now }
        requires firsts { HasFirsts self.now firsts.old.items }
        requires pair { IsPair self.now.indexed.now.events pair.1 pair.0 }
        requires places { AreAt (slice_index self.now.places.now) (first, second) pair.1 pair.0 }
        ensures noted { HasNoted self.now firsts.old.items firsts.new.items }
        ensures held { HoldsPair self.now firsts.new.items pair.1 pair.0 }
    {
        if let Some(row) = self.groups.row_of(first, second) {
            firsts[row] = lesser(firsts[row], Some(pair));
        }
    }
}

// The least pair of two uses, one of which writes, or None.
fn least_of(one: Use, other: Use) -> Option<Pair>
    ensures some { IfSome result (λ p. IsPairBetween one other p) }
    ensures holds { HoldsBetween one other result }
{
    let both = pair_of(one.first, other.first);
    let later = lesser(
        pair_of(one.other, other.first),
        pair_of(one.first, other.other),
    );
    lesser(both, later)
}

// The pair of two events, or None if they are of one thread.
fn pair_of(one: Of, other: Of) -> Option<Pair>
    ensures some { IfSome result (λ p. IsPairOf one other p) }
    ensures none { result ≡ None → one.thread ≡ other.thread }
{
    if one.thread == other.thread {
        return None;
    }
    if one.event < other.event {
        Some((other.event, one.event))
    } else {
        Some((one.event, other.event))
    }
}
