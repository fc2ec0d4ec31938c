//! The findings on a pair of places, and the update for one more pair of events.
ghost use Rattle.std.specs.Prelude.{◌≡◌, ◌+◌, ◌<◌, ◌≤◌, ◌⊎◌, ℕ, [], OnOk, Some, None};
ghost use Rattle.race_groups.specs.least_pairs.Joining.{IsJoined};
ghost use Rattle.race_groups.specs.least_pairs.Taking.{AreTries, IsCandidateNoted, IsOpenNoted, IsVariableNoted};
ghost use Rattle.race_groups.specs.least_pairs.Order.{IsUpTo};

use crate::least_pairs::tries::{Pair, Try, is_less, join_tries, lesser, note_try};
use rapid_text::OutOfMemory;
use std::alloc::Global;

/// The findings on a pair of places.
#[derive(Drop)]
pub struct Least {
    /// The number of variables with a candidate or an open pair.
    pub variables: u32,
    /// The least candidate.
    pub candidate: Option<Pair>,
    /// If there is no candidate: the least open pair of each variable and two threads, of which the first ones are
    /// kept, in rising order.
    pub tries: Vec<Try>,
    /// The last variable that was counted.
    pub last: Option<u32>,
}

impl Least {
    /// No findings yet.
    pub(crate) fn new(alloc: Global) -> Least
        ensures variables { result.variables ≡ 0 }
        ensures candidate { result.candidate ≡ None }
        ensures tries { result.tries.items ≡ [] }
        ensures last { result.last ≡ None }
    {
        Least {
            variables: 0,
            candidate: None,
            tries: Vec::new(alloc),
            last: None,
        }
    }

    /// Counts the variable, which has a candidate or an open pair, unless it is the last one counted. Variables are
    /// visited one after the other.
    pub(crate) fn note_variable(&mut self, variable: u32)
        requires { self.old.variables < 4294967295 }
        ensures noted { IsVariableNoted variable self.old self.new }
        ensures candidate { self.new.candidate ≡ self.old.candidate }
        ensures tries { self.new.tries ≡ self.old.tries }
    {
        if self.last != Some(variable) {
            self.last = Some(variable);
            self.variables += 1;
        }
    }

    /// Adds a candidate of the variable.
    pub(crate) fn note_candidate(&mut self, variable: u32, pair: Pair)
        requires { self.old.variables < 4294967295 }
        ensures { IsCandidateNoted variable pair self.old self.new }
    {
        self.note_variable(variable);
        self.candidate = Some(lesser_pair(self.candidate, pair));
    }

    /// Adds an open pair. At most `most` open pairs are kept.
    pub(crate) fn note_open(&mut self, most: usize, new: Try) -> Result<(), OutOfMemory>
        requires variables { self.old.variables < 4294967295 }
        requires tries { AreTries most self.old.tries.items }
        requires most { 0 < most }
        ensures { OnOk result (IsOpenNoted most new self.old self.new) }
    {
        self.note_variable(new.between.variable);
        note_try(&mut self.tries, most, new)
    }

    /// Adds the findings on other variables.
    pub(crate) fn join(&mut self, most: usize, part: &Least) -> Result<(), OutOfMemory>
        requires room { self.old.variables + part.now.variables ≤ 4294967295 }
        requires tries { AreTries most self.old.tries.items }
        requires part { AreTries most part.now.tries.items }
        requires most { 0 < most }
        ensures { OnOk result (IsJoined most part.now self.old self.new) }
    {
        self.variables += part.variables;
        self.last = None;
        self.candidate = lesser(self.candidate, part.candidate);
        join_tries(&mut self.tries, most, part.tries.as_slice())
    }
}

// The lesser one of `pair` and the known pair.
fn lesser_pair(known: Option<Pair>, pair: Pair) -> Pair
    ensures one { (result ≡ pair) ⊎ (Some result ≡ known) }
    ensures up { IsUpTo result pair }
    ensures known { (q : ℕ × ℕ) → known ≡ Some q → IsUpTo result q }
{
    match known {
        Some(known) if is_less(known, pair) => known,
        _ => pair,
    }
}
