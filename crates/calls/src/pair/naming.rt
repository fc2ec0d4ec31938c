//! The pair of events that two names mean.
ghost use Rattle.std.specs.Prelude.{◌≡◌, ◌<◌, ℕ, IfOk, IfSome, None, Ok, false, true, length, slice_index, slice_index_or};
ghost use Rattle.event_index.specs.Relations.{IsConflicting};
ghost use Rattle.race_groups.specs.Found.{HaveConflict};
ghost use Rattle.explain_report.specs.places.Accesses.{flags_of};
ghost use Rattle.calls.specs.pair.Named.{AreMixed, ArePlaced, AreSame, AreUnplaced, IsMeant, IsNamedPair, IsNoPair, IsPlaced, IsReported, IsUnplaced, mark, marks_of};
ghost use Rattle.rapid_text.specs.Appended.{IfFound};

use event_index::Indexed;
use explain_report::findings::pair_of;
use explain_report::places::{Name, are_apart, are_at_one_place, flags_of};
use must_order::Analysis;
use race_triage::verdict_between;
use rapid_text::OutOfMemory;
use std::alloc::Global;

/// The pair of events that two names mean, the earlier first. Two events mean themselves. Else it is the pair that
/// `triage` reports of the accesses that the names mean.
///
/// None if no two of the accesses conflict, if a name means accesses at several places, or if the names share some
/// accesses. If one name is an event, or both mean the same accesses, they may share.
pub(crate) fn named_pair(
    alloc: Global,
    indexed: &Indexed,
    one: Name<'_>,
    other: Name<'_>,
) -> Result<Option<(u32, u32)>, OutOfMemory>
    ensures named { IfFound result (λ p. IsNamedPair indexed.now one.entry other.entry p.0 p.1) }
    ensures none { result ≡ Ok None → IsNoPair indexed.now one.entry other.entry }
    ensures first { IfFound result (λ p. p.0 < length indexed.now.events) }
    ensures second { IfFound result (λ p. p.1 < length indexed.now.events) }
    ensures conflict { IfFound result (λ p. IsConflicting indexed.now.events p.0 p.1) }
{
    match (one, other) {
        (Name::Event(one), Name::Event(other)) => Ok(pair_of(indexed, one, other)),
        (Name::Event(one), Name::Place(other)) => {
            pair_of_names(alloc, indexed, Name::Event(one), Name::Place(other), true)
        }
        (Name::Place(one), Name::Event(other)) => {
            pair_of_names(alloc, indexed, Name::Event(other), Name::Place(one), true)
        }
        (Name::Place(one), Name::Place(other)) => {
            pair_of_names(alloc, indexed, Name::Place(one), Name::Place(other), false)
        }
    }
}

/// The pair of two names. `is_event` says whether the first is an event.
fn pair_of_names(
    alloc: Global,
    indexed: &Indexed,
    one: Name<'_>,
    other: Name<'_>,
    is_event: bool,
) -> Result<Option<(u32, u32)>, OutOfMemory>
    ensures placed { IfFound result (λ p. ArePlaced indexed.now is_event one.entry other.entry p.0 p.1) }
    ensures none { result ≡ Ok None → AreUnplaced indexed.now is_event one.entry other.entry }
    ensures first { IfFound result (λ p. p.0 < length indexed.now.events) }
    ensures second { IfFound result (λ p. p.1 < length indexed.now.events) }
    ensures conflict { IfFound result (λ p. IsConflicting indexed.now.events p.0 p.1) }
{
    let ones = flags_of(alloc, indexed, one)?;
    let others = flags_of(alloc, indexed, other)?;
    pair_of_flags(alloc, indexed, ones.as_slice(), others.as_slice(), is_event)
}

/// The pair of the accesses with these flags, which say for each event whether a name means it.
fn pair_of_flags(
    alloc: Global,
    indexed: &Indexed,
    ones: &[bool],
    others: &[bool],
    is_event: bool,
) -> Result<Option<(u32, u32)>, OutOfMemory>
    requires ones { length ones.now ≡ length indexed.now.events }
    requires others { length others.now ≡ length indexed.now.events }
    ensures placed { IfFound result (λ p. IsPlaced indexed.now is_event ones.now others.now p.0 p.1) }
    ensures none { result ≡ Ok None → IsUnplaced indexed.now is_event ones.now others.now }
    ensures first { IfFound result (λ p. p.0 < length indexed.now.events) }
    ensures second { IfFound result (λ p. p.1 < length indexed.now.events) }
    ensures conflict { IfFound result (λ p. IsConflicting indexed.now.events p.0 p.1) }
{
    if !are_at_one_place(indexed, ones) {
        return Ok(None);
    }
    if !are_at_one_place(indexed, others) {
        return Ok(None);
    }
    match meant(ones, others, is_event) {
        Some(between) => {
            let marks = marks_of(alloc, ones, others)?;
            reported(alloc, indexed, marks.as_slice(), between)
        }
        None => Ok(None),
    }
}

/// The marks of the pair's two events: 1 and 1 if both names mean the same accesses, else 1 and 2. None if the names
/// share some accesses and not all, and none is an event.
fn meant(ones: &[bool], others: &[bool], is_event: bool) -> Option<(u32, u32)>
    requires { length ones.now ≡ length others.now }
    ensures some { IfSome result (IsMeant is_event ones.now others.now) }
    ensures none { result ≡ None → AreMixed is_event ones.now others.now }
{
    if are_same(ones, others) {
        return Some((1, 1));
    }
    if is_event || are_apart(ones, others) {
        return Some((1, 2));
    }
    None
}

/// Whether both names mean the same accesses.
fn are_same(ones: &[bool], others: &[bool]) -> bool
    requires { length ones.now ≡ length others.now }
    ensures same { result ≡ true → AreSame ones.now others.now }
    ensures other { result ≡ false → ¬ AreSame ones.now others.now }
{
    for event in 0..ones.len() {
        if ones[event] != others[event] {
            return false;
        }
    }
    true
}

/// The mark of each event: 1 if the first name means it, 2 if only the other does, else 0.
fn marks_of(alloc: Global, ones: &[bool], others: &[bool]) -> Result<Vec<u32>, OutOfMemory>
    ensures { IfOk result (λ marks. marks.items ≡ marks_of ones.now others.now) }
{
    let marks = (0..ones.len())
        .map(|event| mark(flag_at(ones, event), flag_at(others, event)))
        .collect(alloc)?;
    Ok(marks)
}

/// Whether the name means this event.
fn flag_at(flags: &[bool], event: usize) -> bool
    ensures { result ≡ slice_index_or flags.now event false }
{
    match flags.get(event) {
        Some(flag) => *flag,
        None => false,
    }
}

/// The mark of an event, by whether each name means it.
fn mark(one: bool, other: bool) -> u32
    ensures { result ≡ mark one other }
{
    if one {
        1
    } else if other {
        2
    } else {
        0
    }
}

/// The pair that `triage` reports of the events with these two marks.
fn reported(
    alloc: Global,
    indexed: &Indexed,
    marks: &[u32],
    between: (u32, u32),
) -> Result<Option<(u32, u32)>, OutOfMemory>
    requires len { length marks.now ≡ length indexed.now.events }
    requires few { (e : ℕ) → slice_index marks.now e < 3 }
    ensures reported { IfFound result (λ p. IsReported indexed.now (slice_index marks.now) between p.0 p.1) }
    ensures none { result ≡ Ok None → ¬ HaveConflict indexed.now.events (slice_index marks.now) between }
    ensures first { IfFound result (λ p. p.0 < length indexed.now.events) }
    ensures second { IfFound result (λ p. p.1 < length indexed.now.events) }
    ensures conflict { IfFound result (λ p. IsConflicting indexed.now.events p.0 p.1) }
{
    match Analysis::new(alloc, indexed) {
        Ok(analysis) => reported_in(alloc, &analysis, marks, between),
        Err(refused) => Err(refused),
    }
}

/// The same, by the orders of the trace.
fn reported_in(
    alloc: Global,
    analysis: &Analysis<'_>,
    marks: &[u32],
    between: (u32, u32),
) -> Result<Option<(u32, u32)>, OutOfMemory>
    requires len { length marks.now ≡ length analysis.now.events }
    requires few { (e : ℕ) → slice_index marks.now e < 3 }
    ensures reported { IfFound result (λ p. IsReported analysis.now (slice_index marks.now) between p.0 p.1) }
    ensures none { result ≡ Ok None → ¬ HaveConflict analysis.now.events (slice_index marks.now) between }
    ensures first { IfFound result (λ p. p.0 < length analysis.now.events) }
    ensures second { IfFound result (λ p. p.1 < length analysis.now.events) }
    ensures conflict { IfFound result (λ p. IsConflicting analysis.now.events p.0 p.1) }
{
    match verdict_between(alloc, analysis, marks, between) {
        Ok(Some(verdict)) => Ok(Some((verdict.first, verdict.second))),
        Ok(None) => Ok(None),
        Err(refused) => Err(refused),
    }
}
