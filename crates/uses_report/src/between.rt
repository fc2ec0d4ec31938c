//! The table between two names.
ghost use Rattle.std.specs.Prelude.{◌≡◌, ◌<◌, All, IfErr, IfOk, length, ℕ, slice_index_or, true, false};
ghost use Rattle.race_triage.specs.Places.{AreFirstUsesOf, AreNumbers, AreSpotsOf};
ghost use Rattle.uses_report.specs.Between.{AreMeant, AreNoUses, AreTooMany, AreUsesTold, HaveNoTable, IsTableOf, IsTableText, flags_like, have_one_location, named_of};

use crate::pieces::flag_at;
use crate::refusal::UsesFault;
use crate::text::uses_text;
use event_index::Indexed;
use explain_report::places::{Name, are_at_one_place, flags_of, location_of};
use must_order::Analysis;
use race_triage::Places;
use rapid_text::OutOfMemory;
use std::alloc::Global;
use variable_uses::{Asked, shared_variables, uses_of};

/// The text of the table between two names: all accesses of the variables on which an access that the one name means
/// conflicts with one that the other means. A number means all events at the location of that event, and a word the
/// accesses whose locations it fits best. The accesses that the names mean are those of the race.
pub fn uses_between(
    alloc: Global,
    indexed: &Indexed,
    one: Name<'_>,
    other: Name<'_>,
) -> Result<Vec<u8>, UsesFault>
    // The text is that of the right table.
    ensures text { IfOk result (λ text. AreUsesTold indexed.now one.entry other.entry text.items) }
    // A fault comes only for its reason.
    ensures fault { IfErr result (AreNoUses indexed.now one.entry other.entry) }
{
    let places = Places::of(alloc, indexed)?;
    uses_by(alloc, indexed, &places, one, other)
}

// The same, given the locations of the trace.
fn uses_by(
    alloc: Global,
    indexed: &Indexed,
    places: &Places,
    one: Name<'_>,
    other: Name<'_>,
) -> Result<Vec<u8>, UsesFault>
    requires numbers { AreNumbers indexed.now places.now.numbers.items }
    requires spots { AreSpotsOf indexed.now places.now }
    requires firsts { AreFirstUsesOf indexed.now places.now }
    ensures text { IfOk result (λ text. AreUsesTold indexed.now one.entry other.entry text.items) }
    ensures fault { IfErr result (AreNoUses indexed.now one.entry other.entry) }
{
    let _len = indexed.len();
    let ones = accesses_of(alloc, indexed, one)?;
    let others = accesses_of(alloc, indexed, other)?;
    let numbers = places.numbers.as_slice();
    table_between(alloc, indexed, numbers, ones.as_slice(), others.as_slice())
}

// For each event whether the name means it.
fn accesses_of(alloc: Global, indexed: &Indexed, name: Name<'_>) -> Result<Vec<bool>, OutOfMemory>
    ensures meant { IfOk result (λ flags. AreMeant indexed.now name.entry flags.items) }
    ensures len { IfOk result (λ flags. length flags.items ≡ length indexed.now.events) }
{
    match name {
        Name::Event(number) => alike(alloc, indexed, number),
        Name::Place(_) => flags_of(alloc, indexed, name),
    }
}

// For each event whether it is at the location of this event.
fn alike(alloc: Global, indexed: &Indexed, number: u32) -> Result<Vec<bool>, OutOfMemory>
    ensures alike { IfOk result (λ flags. flags.items ≡ flags_like indexed.now number) }
    ensures len { IfOk result (λ flags. length flags.items ≡ length indexed.now.events) }
{
    let is_event = number < indexed.len();
    let flags = (0..indexed.len())
        .map(|event| is_event && are_at_one_location(indexed, event, number))
        .collect(alloc)?;
    Ok(flags)
}

// Whether both events have one location.
fn are_at_one_location(indexed: &Indexed, one: u32, other: u32) -> bool
    ensures { result ≡ have_one_location indexed.now one other }
{
    location_of(indexed, one) == location_of(indexed, other)
}

// The text of the table between two sets of events.
fn table_between(
    alloc: Global,
    indexed: &Indexed,
    places: &[u32],
    ones: &[bool],
    others: &[bool],
) -> Result<Vec<u8>, UsesFault>
    requires numbers { AreNumbers indexed.now places.now }
    requires few { All (λ n. n < 1048576) places.now }
    requires ones { length ones.now ≡ length indexed.now.events }
    requires others { length others.now ≡ length indexed.now.events }
    ensures text { IfOk result (λ text. IsTableOf indexed.now ones.now others.now text.items) }
    ensures fault { IfErr result (HaveNoTable indexed.now ones.now others.now) }
{
    if !are_at_one_place(indexed, ones) {
        return Err(UsesFault::NoSuchPair);
    }
    if !are_at_one_place(indexed, others) {
        return Err(UsesFault::NoSuchPair);
    }
    let chosen = shared_variables(alloc, indexed, ones, others)?;
    if !has_some(chosen.as_slice()) {
        return Err(UsesFault::NoSuchPair);
    }
    let named = named_of(alloc, ones, others)?;
    text_of(alloc, indexed, places, chosen.as_slice(), named.as_slice())
}

// Whether a flag is set.
fn has_some(flags: &[bool]) -> bool
    ensures some { result ≡ true → (x : ℕ) × (slice_index_or flags.now x false ≡ true) }
    ensures none { result ≡ false → (x : ℕ) → ¬ (slice_index_or flags.now x false ≡ true) }
{
    for at in 0..flags.len() {
        if flags[at] {
            return true;
        }
    }
    false
}

// For each event whether one of the sets has it.
fn named_of(alloc: Global, ones: &[bool], others: &[bool]) -> Result<Vec<bool>, OutOfMemory>
    ensures { IfOk result (λ named. named.items ≡ named_of ones.now others.now) }
{
    let named = (0..ones.len())
        .map(|event| flag_at(ones, event) || flag_at(others, event))
        .collect(alloc)?;
    Ok(named)
}

// The text of the table of the chosen variables.
fn text_of(
    alloc: Global,
    indexed: &Indexed,
    places: &[u32],
    chosen: &[bool],
    named: &[bool],
) -> Result<Vec<u8>, UsesFault>
    requires numbers { AreNumbers indexed.now places.now }
    requires few { All (λ n. n < 1048576) places.now }
    ensures text { IfOk result (λ text. IsTableText indexed.now named.now chosen.now text.items) }
    ensures fault { IfErr result (AreTooMany indexed.now chosen.now) }
{
    match Analysis::new(alloc, indexed) {
        Ok(analysis) => text_in(alloc, &analysis, places, chosen, named),
        Err(refused) => Err(UsesFault::from(refused)),
    }
}

// The same, by the orders of the trace.
fn text_in(
    alloc: Global,
    analysis: &Analysis<'_>,
    places: &[u32],
    chosen: &[bool],
    named: &[bool],
) -> Result<Vec<u8>, UsesFault>
    requires numbers { AreNumbers analysis.now places.now }
    requires few { All (λ n. n < 1048576) places.now }
    ensures text { IfOk result (λ text. IsTableText analysis.now named.now chosen.now text.items) }
    ensures fault { IfErr result (AreTooMany analysis.now chosen.now) }
{
    let asked = Asked {
        places,
        chosen,
        named,
    };
    match uses_of(alloc, analysis, asked) {
        Ok(uses) => {
            let mut text = Vec::new(alloc);
            uses_text(analysis.indexed(), chosen, &uses, &mut text)?;
            Ok(text)
        }
        Err(refusal) => Err(UsesFault::from(refusal)),
    }
}
