//! For each pair of places its least candidate, its least open pairs, and the number of variables with one of either.
ghost use Rattle.std.specs.Prelude.{◌≡◌, ◌+◌, ◌<◌, All, IfOk, OnOk, true, false, filter, length, slice_index};
ghost use Rattle.event_index.specs.Lookups.{before};
ghost use Rattle.race_groups.specs.declared.kinds.Row.{Row as Counted};
ghost use Rattle.race_groups.specs.least_pairs.Going.{AreFound, AreFoundBelow, AreFoundOf, AreMore, IsOwn, IsSound, AreAllTakenOf};
ghost use Rattle.race_groups.specs.least_pairs.Lanes.{AreAllAccesses};
ghost use Rattle.race_groups.specs.least_pairs.Noted.{AreTrueNotes};
ghost use Rattle.race_groups.specs.least_pairs.Noting.{IsNothing};
ghost use Rattle.race_groups.specs.least_pairs.Pairs.{is_access_at, AreAllLeasts, AreGroupsOf, IsOneForEach};

use crate::least_pairs::lanes::{Lanes, accesses_of};
use crate::least_pairs::least::Least;
use crate::least_pairs::noted::Noted;
use crate::{Classes, Groups};
use event_index::Indexed;
use must_order::Must;
use rapid_text::OutOfMemory;
use shb_clocks::{Clocks, SharedRows, known_tells_shb};
use std::alloc::Global;

/// The findings on each row of `groups`, in the order of the rows. For each row at most `most` of the least open
/// pairs are kept. `places` has the number of each event's place. Fails if memory runs out.
pub fn leasts_of(
    alloc: Global,
    indexed: &Indexed,
    places: &[u32],
    clocks: &Clocks,
    must: &Must,
    classes: &Classes,
    groups: &Groups,
    most: usize,
) -> Result<Vec<Least>, OutOfMemory>
    requires clocks { clocks.now ≡ indexed.now }
    requires must { must.now ≡ indexed.now }
    requires places { length places.now ≡ length indexed.now.events }
    requires groups { AreGroupsOf indexed.now (slice_index places.now) classes.now groups.now }
    requires most { 0 < most }
    ensures len { IfOk result (IsOneForEach groups.now) }
    ensures leasts { IfOk result (AreAllLeasts indexed.now (slice_index places.now) groups.now most) }
{
    known_tells_shb();
    let _len = indexed.len();
    let search = Search {
        indexed,
        places,
        clocks,
        rows: must.rows(),
        classes,
        groups,
        most,
        has_candidates: has_candidates(groups),
        has_open: has_open(groups),
        every: 1,
        from: 0,
    };
    let leasts = search.found(alloc)?;
    Ok(leasts)
}

/// The kind of pairs that a search visits.
#[derive(Clone, Copy)]
pub(crate) enum Sought {
    Candidates,
    Opens,
}

/// The trace and the options of a search.
#[derive(Clone, Copy)]
pub(crate) struct Search<'a> {
    pub(crate) indexed: &'a Indexed,
    pub(crate) places: &'a [u32],
    pub(crate) clocks: &'a Clocks,
    // The counts of must-before.
    pub(crate) rows: &'a SharedRows,
    pub(crate) classes: &'a Classes,
    pub(crate) groups: &'a Groups,
    pub(crate) most: usize,
    pub(crate) has_candidates: bool,
    pub(crate) has_open: bool,
    // The number of workers that share the variables.
    pub(crate) every: usize,
    // The number of this worker. It visits the variables whose numbers, divided by `every`, leave it as the
    // remainder.
    pub(crate) from: usize,
}

impl Search<'_> {
    /// The findings on each row, for the variables of this worker.
    pub(crate) fn found(&self, alloc: Global) -> Result<Vec<Least>, OutOfMemory>
        requires sound { IsSound self.now }
        ensures { IfOk result (λ leasts. AreFoundOf self.now (IsOwn self.now) leasts.items) }
    {
        let mut leasts = self.nothing(alloc)?;
        if self.has_none() {
            return Ok(leasts);
        }
        let accesses = accesses_of(alloc, self.indexed)?;
        self.all(alloc, accesses.as_slice(), leasts.as_mut_slice())?;
        Ok(leasts)
    }

    /// Whether the trace has neither a candidate nor an open pair.
    pub(crate) fn has_none(&self) -> bool
        ensures candidates { result ≡ true → self.now.has_candidates ≡ false }
        ensures opens { result ≡ true → self.now.has_open ≡ false }
    {
        !self.has_candidates && !self.has_open
    }

    /// Empty findings for each row.
    pub(crate) fn nothing(&self, alloc: Global) -> Result<Vec<Least>, OutOfMemory>
        requires sound { IsSound self.now }
        ensures found { IfOk result (λ leasts. AreFoundBelow self.now 0 leasts.items) }
        ensures len { IfOk result (λ leasts. length leasts.items ≡ length self.now.groups.now.rows.items) }
        ensures nothing { IfOk result (λ leasts. All IsNothing leasts.items) }
    {
        let mut leasts = Vec::with_capacity(alloc, self.groups.rows.len())?;
        for _row in 0..self.groups.rows.len() {
            leasts.push(Least::new(alloc))?;
        }
        Ok(leasts)
    }

    /// Visits all variables.
    pub(crate) fn all(
        &self,
        alloc: Global,
        accesses: &[Vec<u32>],
        leasts: &mut [Least],
    ) -> Result<(), OutOfMemory>
        requires sound { IsSound self.now }
        requires len { length accesses.now ≡ length self.now.indexed.now.variables }
        requires accesses { AreAllAccesses self.now.indexed.now accesses.now }
        requires found { AreFoundBelow self.now 0 leasts.old }
        ensures { OnOk result (AreFoundOf self.now (IsOwn self.now) leasts.new) }
    {
        let mut noted = Noted::new(alloc, self.places, self.groups.rows.len())?;
        for variable in 0..self.indexed.variables() {
            let of_variable = accesses[variable as usize].as_slice();
            self.in_turn(alloc, leasts, &mut noted, variable, of_variable)?;
        }
        Ok(())
    }

    // Visits all accesses of the variable, if it is the variable's turn.
    fn in_turn(
        &self,
        alloc: Global,
        leasts: &mut [Least],
        noted: &mut Noted,
        variable: u32,
        accesses: &[u32],
    ) -> Result<(), OutOfMemory>
        requires sound { IsSound self.now }
        requires variable { variable < length self.now.indexed.now.variables }
        requires accesses { accesses.now ≡ filter (is_access_at self.now.indexed.now.events variable) (before (length self.now.indexed.now.events)) }
        requires found { AreFoundBelow self.now variable leasts.old }
        requires noted { AreTrueNotes self.now variable leasts.old noted.old }
        ensures found { OnOk result (AreFoundBelow self.now (variable + 1) leasts.new) }
        ensures more { OnOk result (AreMore self.now.most variable leasts.old leasts.new) }
        ensures noted { OnOk result (AreTrueNotes self.now (variable + 1) leasts.new noted.new) }
        ensures taken { OnOk result (IsOwn self.now variable → AreAllTakenOf self.now variable leasts.new) }
    {
        if !self.is_own(variable) {
            return Ok(());
        }
        self.variable(alloc, leasts, noted, variable, accesses)?;
        Ok(())
    }

    // Whether it is the turn of the variable.
    fn is_own(&self, variable: u32) -> bool
        requires sound { IsSound self.now }
        ensures own { result ≡ true → IsOwn self.now variable }
        ensures other { result ≡ false → ¬ IsOwn self.now variable }
    {
        variable as usize % self.every == self.from
    }

    // Visits all accesses of the variable.
    fn variable(
        &self,
        alloc: Global,
        leasts: &mut [Least],
        noted: &mut Noted,
        variable: u32,
        accesses: &[u32],
    ) -> Result<(), OutOfMemory>
        requires sound { IsSound self.now }
        requires variable { variable < length self.now.indexed.now.variables }
        requires accesses { accesses.now ≡ filter (is_access_at self.now.indexed.now.events variable) (before (length self.now.indexed.now.events)) }
        requires found { AreFound self.now variable leasts.old }
        requires noted { AreTrueNotes self.now variable leasts.old noted.old }
        ensures found { OnOk result (AreFound self.now variable leasts.new) }
        ensures more { OnOk result (AreMore self.now.most variable leasts.old leasts.new) }
        ensures noted { OnOk result (AreTrueNotes self.now variable leasts.new noted.new) }
        ensures taken { OnOk result (AreAllTakenOf self.now variable leasts.new) }
    {
        let mut lanes = Lanes::new(alloc, self.classes);
        for event in accesses {
            let later = lanes.note(alloc, self.indexed, self.classes, variable, *event)?;
            self.access(leasts, noted, lanes.list.as_slice(), later)?;
        }
        Ok(())
    }
}

/// Whether some row has a candidate.
pub(crate) fn has_candidates(groups: &Groups) -> bool
    ensures { result ≡ false → All (λ (row : Counted). row.counts.candidates ≡ 0) groups.now.rows.items }
{
    groups.rows.iter().any(|row| row.counts.candidates > 0)
}

/// Whether some row has an open pair.
pub(crate) fn has_open(groups: &Groups) -> bool
    ensures { result ≡ false → All (λ (row : Counted). row.counts.open_pairs ≡ 0) groups.now.rows.items }
{
    groups.rows.iter().any(|row| row.counts.open_pairs > 0)
}
