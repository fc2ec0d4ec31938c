//! Adds a pair that a search visits to the findings.
ghost use Rattle.std.specs.Prelude.{◌≡◌, ◌≢◌, ℕ, ◌<◌, IfSome, OnOk, None, true, length};
ghost use Rattle.must_order.specs.Kinds.{IsKind};
ghost use Rattle.must_order.specs.MustBefore.{IsForced};
ghost use Rattle.must_order.specs.declared.kind.Kind.TheVariants.{Candidate as CandidateKind};
ghost use Rattle.race_groups.specs.Ends.{IsKnownBefore};
ghost use Rattle.race_groups.specs.least_pairs.Going.{AreFound, AreMore, Has, HasCandidate, HasOpen, IsSought, IsSound, IsRowOfPair, is_guarded_pair};
ghost use Rattle.race_groups.specs.least_pairs.Noted.{AreTrueNotes};
ghost use Rattle.race_groups.specs.least_pairs.Pairs.{IsOf, IsPair, is_access_at};

use crate::are_sharing;
use crate::least_pairs::least::Least;
use crate::least_pairs::leasts::{Search, Sought};
use crate::least_pairs::noted::{Note, Noted};
use crate::least_pairs::tries::{Between, Try};
use crate::least_pairs::windows::Two;
use rapid_text::OutOfMemory;

impl Search<'_> {
    /// Adds a pair of the kind that the search visits.
    pub(crate) fn take_pair(
        &self,
        sought: Sought,
        leasts: &mut [Least],
        noted: &mut Noted,
        two: Two,
    ) -> Result<(), OutOfMemory>
        requires sound { IsSound self.now }
        requires variable { two.of.variable < length self.now.indexed.now.variables }
        requires found { AreFound self.now two.of.variable leasts.old }
        requires noted { AreTrueNotes self.now two.of.variable leasts.old noted.old }
        requires pair { IsPair self.now.indexed.now.events two.first two.second }
        requires of_these { IsOf self.now.indexed.now.events two.of two.first two.second }
        requires sought { IsSought sought self.now.indexed.now two.first two.second }
        ensures found { OnOk result (AreFound self.now two.of.variable leasts.new) }
        ensures more { OnOk result (AreMore self.now.most two.of.variable leasts.old leasts.new) }
        ensures noted { OnOk result (AreTrueNotes self.now two.of.variable leasts.new noted.new) }
        ensures held { OnOk result (Has sought self.now leasts.new two.of two.first two.second) }
    {
        match sought {
            Sought::Candidates => {
                self.take_candidate(leasts, noted, two.first, two.second, two.of.variable);
                Ok(())
            }
            Sought::Opens => {
                self.note_open(leasts, two.first, two.second, two.of)?;
                Ok(())
            }
        }
    }

    // Adds a candidate, unless a better one of its variable and places is remembered.
    fn take_candidate(
        &self,
        leasts: &mut [Least],
        noted: &mut Noted,
        first: u32,
        second: u32,
        variable: u32,
    )
        requires sound { IsSound self.now }
        requires variable { variable < length self.now.indexed.now.variables }
        requires found { AreFound self.now variable leasts.old }
        requires noted { AreTrueNotes self.now variable leasts.old noted.old }
        requires pair { IsPair self.now.indexed.now.events first second }
        requires kind { IsKind self.now.indexed.now first second CandidateKind }
        requires access { is_access_at self.now.indexed.now.events variable first ≡ true }
        ensures found { AreFound self.now variable leasts.new }
        ensures more { AreMore self.now.most variable leasts.old leasts.new }
        ensures noted { AreTrueNotes self.now variable leasts.new noted.new }
        ensures held { HasCandidate self.now variable leasts.new first second }
    {
        let _len = self.indexed.len();
        let one = self.places[first as usize];
        let other = self.places[second as usize];
        if noted.has(variable, one, other, second) {
            return;
        }
        self.note_candidate(leasts, first, second, variable);
        noted.note(Note {
            variable,
            first: one,
            second: other,
            later: second,
        });
    }

    // Adds a candidate.
    fn note_candidate(&self, leasts: &mut [Least], first: u32, second: u32, variable: u32)
        requires sound { IsSound self.now }
        requires variable { variable < length self.now.indexed.now.variables }
        requires found { AreFound self.now variable leasts.old }
        requires pair { IsPair self.now.indexed.now.events first second }
        requires kind { IsKind self.now.indexed.now first second CandidateKind }
        requires access { is_access_at self.now.indexed.now.events variable first ≡ true }
        ensures found { AreFound self.now variable leasts.new }
        ensures more { AreMore self.now.most variable leasts.old leasts.new }
        ensures held { HasCandidate self.now variable leasts.new first second }
    {
        let _len = self.indexed.len();
        if let Some(row) = self.row_of(first, second) {
            leasts[row].note_candidate(variable, (second, first));
        }
    }

    // Adds an open pair. A guarded pair is skipped.
    fn note_open(
        &self,
        leasts: &mut [Least],
        first: u32,
        second: u32,
        of: Between,
    ) -> Result<(), OutOfMemory>
        requires sound { IsSound self.now }
        requires variable { of.variable < length self.now.indexed.now.variables }
        requires found { AreFound self.now of.variable leasts.old }
        requires pair { IsPair self.now.indexed.now.events first second }
        requires of_these { IsOf self.now.indexed.now.events of first second }
        requires known { IsKnownBefore self.now.indexed.now.events first second }
        requires loose { ¬ IsForced self.now.indexed.now.events first second }
        ensures found { OnOk result (AreFound self.now of.variable leasts.new) }
        ensures more { OnOk result (AreMore self.now.most of.variable leasts.old leasts.new) }
        ensures held { OnOk result (HasOpen self.now leasts.new of first second) }
    {
        let _len = self.indexed.len();
        if self.is_guarded(first, second) {
            return Ok(());
        }
        let Some(row) = self.row_of(first, second) else {
            return Ok(());
        };
        if self.groups.rows[row].counts.candidates > 0 {
            leasts[row].note_variable(of.variable);
            return Ok(());
        }
        leasts[row].note_open(
            self.most,
            Try {
                between: of,
                pair: (second, first),
            },
        )?;
        Ok(())
    }

    // The index of the row of two events.
    fn row_of(&self, first: u32, second: u32) -> Option<usize>
        requires sound { IsSound self.now }
        requires pair { IsPair self.now.indexed.now.events first second }
        ensures found { IfSome result (IsRowOfPair self.now first second) }
        ensures some { result ≢ None }
    {
        self.groups
            .row_of(self.places[first as usize], self.places[second as usize])
    }

    // Whether the threads of two accesses hold a common lock before them.
    fn is_guarded(&self, first: u32, second: u32) -> bool
        requires sound { IsSound self.now }
        requires pair { IsPair self.now.indexed.now.events first second }
        ensures { result ≡ is_guarded_pair self.now first second }
    {
        let numbers = self.classes.numbers.as_slice();
        let infos = self.classes.infos.as_slice();
        let one = infos[numbers[first as usize] as usize];
        let other = infos[numbers[second as usize] as usize];
        are_sharing(&self.classes.lists, one.held, other.held)
    }
}
