//! Chooses the verdicts to print.
ghost use Rattle.std.specs.Prelude.{◌≡◌, ◌∷◌, [], IfOk, OnOk, Some, None, cond, false};
ghost use Rattle.race_triage.specs.Chosen.{is_known, is_of, keeps_block, known_places, more_of, AreChosenBy, AreConsideredBy, IsPartChosen, KeepsUnfiltered};
ghost use Rattle.race_triage.specs.declared.chosen.Part.TheVariants.{Races, Open, Never};

use crate::filters::Filters;
use crate::known::Known;
use crate::pieces::append_event;
use crate::verdicts::{Outcome, Verdict, Verdicts};
use event_index::Indexed;
use rapid_text::OutOfMemory;
use std::alloc::Global;

/// The verdicts to print, and how many were left out.
#[derive(Drop)]
pub struct Chosen {
    /// Races first, then undecided verdicts, then apart verdicts if they are wanted. Each kind keeps the order of all
    /// verdicts.
    pub verdicts: Vec<Verdict>,
    /// How many of the verdicts are races.
    pub races: u64,
    /// How many races are left out because they are known; None if no text of known races was given.
    pub known: Option<u64>,
    /// How many blocks the filters leave out; None if there is no filter.
    pub hidden: Option<u64>,
}

/// The kinds of blocks, in the order in which they are printed.
#[derive(Clone, Copy, PartialEq, Eq)]
pub(crate) enum Part {
    Races,
    Open,
    Never,
}

/// Chooses the verdicts to print. It takes races whose locations are not known, then undecided verdicts, then apart
/// verdicts if `apart` is true. It leaves out all blocks that the filters drop.
pub fn chosen_of(
    alloc: Global,
    indexed: &Indexed,
    verdicts: &Verdicts,
    known: &Option<Known>,
    filters: Filters<'_>,
    apart: bool,
) -> Result<Chosen, OutOfMemory>
    // The result has exactly these verdicts, and counts those that are left out.
    ensures { IfOk result (AreChosenBy indexed.now known.now filters.entry apart verdicts.now) }
{
    let all = verdicts.verdicts.as_slice();
    let mut chosen = nothing(alloc, known.is_some(), filters.is_any());
    chosen.choose(indexed, all, Part::Races, known, filters)?;
    chosen.choose(indexed, all, Part::Open, known, filters)?;
    chosen.choose(indexed, never_of(all, apart), Part::Never, known, filters)?;
    Ok(chosen)
}

// No verdicts yet. `is_known` says whether known races were given, and `is_any` whether there is a filter.
fn nothing(alloc: Global, is_known: bool, is_any: bool) -> Chosen
    ensures verdicts { result.verdicts.items ≡ [] }
    ensures races { result.races ≡ 0 }
    ensures known { result.known ≡ cond is_known (Some 0) None }
    ensures hidden { result.hidden ≡ cond is_any (Some 0) None }
{
    Chosen {
        verdicts: Vec::new(alloc),
        races: 0,
        known: if is_known { Some(0) } else { None },
        hidden: if is_any { Some(0) } else { None },
    }
}

impl Chosen {
    // Considers all verdicts of one kind.
    fn choose(
        &mut self,
        indexed: &Indexed,
        all: &[Verdict],
        part: Part,
        known: &Option<Known>,
        filters: Filters<'_>,
    ) -> Result<(), OutOfMemory>
        ensures { OnOk result (IsPartChosen indexed.now known.now filters.entry part all.now self.old self.new) }
    {
        for verdict in all {
            self.consider_of(indexed, verdict, part, known, filters)?;
        }
        Ok(())
    }

    // Considers the verdict, if it is of this kind.
    fn consider_of(
        &mut self,
        indexed: &Indexed,
        verdict: &Verdict,
        part: Part,
        known: &Option<Known>,
        filters: Filters<'_>,
    ) -> Result<(), OutOfMemory>
        ensures { OnOk result (IsPartChosen indexed.now known.now filters.entry part (verdict.now ∷ []) self.old self.new) }
    {
        if !belongs(verdict, part) {
            return Ok(());
        }
        self.consider(indexed, verdict, known, filters)
    }

    // Takes the verdict, or counts why it is left out.
    fn consider(
        &mut self,
        indexed: &Indexed,
        verdict: &Verdict,
        known: &Option<Known>,
        filters: Filters<'_>,
    ) -> Result<(), OutOfMemory>
        ensures { OnOk result (AreConsideredBy indexed.now known.now filters.entry (verdict.now ∷ []) self.old self.new) }
    {
        let is_race = belongs(verdict, Part::Races);
        if is_race && is_known(known, verdict) {
            self.known = one_more(self.known);
            return Ok(());
        }
        if !is_kept(*self.verdicts.allocator(), indexed, filters, verdict)? {
            self.hidden = one_more(self.hidden);
            return Ok(());
        }
        if is_race {
            self.races = self.races.saturating_add(1);
        }
        self.verdicts.push(*verdict)?;
        Ok(())
    }
}

// The count plus one; None if nothing is counted.
fn one_more(count: Option<u64>) -> Option<u64>
    ensures { result ≡ more_of count 1 }
{
    match count {
        Some(count) => Some(count.saturating_add(1)),
        None => None,
    }
}

// All verdicts if apart verdicts are wanted, otherwise none.
fn never_of(all: &[Verdict], apart: bool) -> &[Verdict]
    ensures { result.now ≡ cond apart all.now [] }
{
    if apart { all } else { &[] }
}

/// Whether the verdict is of this kind.
pub(crate) fn belongs(verdict: &Verdict, part: Part) -> bool
    ensures { result ≡ is_of part verdict.now }
{
    match verdict.outcome {
        Outcome::Race {
            how: _,
            events: _,
            threads: _,
        } => match part {
            Part::Races => true,
            Part::Open | Part::Never => false,
        },
        Outcome::Undecided { tried: _ } => match part {
            Part::Open => true,
            Part::Races | Part::Never => false,
        },
        Outcome::Apart => match part {
            Part::Never => true,
            Part::Races | Part::Open => false,
        },
    }
}

/// Whether the races of the verdict's two locations are known.
pub fn is_known(known: &Option<Known>, verdict: &Verdict) -> bool
    ensures known { result ≡ is_known (known_places known.now) verdict.now }
    ensures none { known.now ≡ None → result ≡ false }
{
    match known {
        Some(known) => known.contains(&verdict.row.places),
        None => false,
    }
}

/// Whether the filters keep the verdict's block.
pub fn is_kept(
    alloc: Global,
    indexed: &Indexed,
    filters: Filters<'_>,
    verdict: &Verdict,
) -> Result<bool, OutOfMemory>
    ensures all { KeepsUnfiltered filters.entry result }
    ensures kept { IfOk result (λ kept. kept ≡ keeps_block indexed.now filters.entry verdict.now) }
{
    let mut first = Vec::new(alloc);
    let mut second = Vec::new(alloc);
    append_event(&mut first, indexed, verdict.first)?;
    append_event(&mut second, indexed, verdict.second)?;
    Ok(filters.keeps(first.as_slice(), second.as_slice()))
}
