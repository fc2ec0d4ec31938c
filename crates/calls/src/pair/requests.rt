//! Two names that mean requests which wait for each other: what is known, and a schedule that shows both.
ghost use Rattle.std.specs.Prelude.{◌≡◌, ◌<◌, None, length, IfErr, IfOk, IfSome};
ghost use Rattle.deadlock_triage.specs.Findings.{IsFinding};
ghost use Rattle.rapid_text.specs.Appended.{AppendedOne};
ghost use Rattle.calls.specs.pair.Answers.{IsExplanation, IsUnexplained, IsUnwitnessed, IsWitness};
ghost use Rattle.calls.specs.pair.Named.{IsNoPair};
ghost use Rattle.calls.specs.pair.Requests.{AreNamedRequests, AreNoRequests, AreRequestsTold};

use crate::pair::fault::PairFault;
use crate::pair::form::{Form, append_deadlock};
use deadlock_report::deadlock_text;
use deadlock_triage::{Finding, are_requests, find};
use event_index::Indexed;
use explain_report::places::Name;
use must_order::Analysis;
use rapid_text::OutOfMemory;
use std::alloc::Global;

/// The two requests that the names are the numbers of, the earlier first. None if they do not wait for each other.
fn named_requests(analysis: &Analysis<'_>, one: Name<'_>, other: Name<'_>) -> Option<(u32, u32)>
    ensures named { IfSome result (λ p. AreNamedRequests analysis.now one.entry other.entry p.0 p.1) }
    ensures none { result ≡ None → AreNoRequests analysis.now one.entry other.entry }
    ensures first { IfSome result (λ p. p.0 < length analysis.now.events) }
    ensures second { IfSome result (λ p. p.1 < length analysis.now.events) }
{
    match (one, other) {
        (Name::Event(one), Name::Event(other)) => {
            let pair = (one.min(other), one.max(other));
            if are_requests(analysis, pair.0, pair.1) {
                Some(pair)
            } else {
                None
            }
        }
        (Name::Event(_), Name::Place(_)) => None,
        (Name::Place(_), Name::Event(_)) => None,
        (Name::Place(_), Name::Place(_)) => None,
    }
}

/// The text of a schedule that shows the two requests, which the names mean.
fn witness_of_named(
    alloc: Global,
    analysis: &Analysis<'_>,
    _one: Name<'_>,
    _other: Name<'_>,
    pair: (u32, u32),
    form: Form,
) -> Result<Vec<u8>, PairFault>
    requires named { AreNamedRequests analysis.now _one _other pair.0 pair.1 }
    requires first { pair.0 < length analysis.now.events }
    requires second { pair.1 < length analysis.now.events }
    ensures text { IfOk result (λ text. IsWitness analysis.now _one.entry _other.entry form text.items) }
    ensures fault { IfErr result (IsUnwitnessed analysis.now _one.entry _other.entry) }
{
    match find(alloc, analysis, pair.0, pair.1)? {
        Finding::Shown(schedule) => {
            let mut text = Vec::new(alloc);
            append_deadlock(&mut text, analysis, schedule.events(), pair, form)?;
            Ok(text)
        }
        Finding::Apart => Err(PairFault::NoDeadlock { is_apart: true }),
        Finding::Undecided => Err(PairFault::NoDeadlock { is_apart: false }),
    }
}

/// The same, by the orders of the trace. The names mean no pair of conflicting events.
fn witness_in(
    alloc: Global,
    analysis: &Analysis<'_>,
    one: Name<'_>,
    other: Name<'_>,
    form: Form,
) -> Result<Vec<u8>, PairFault>
    requires none { IsNoPair analysis.now one other }
    ensures text { IfOk result (λ text. IsWitness analysis.now one.entry other.entry form text.items) }
    ensures fault { IfErr result (IsUnwitnessed analysis.now one.entry other.entry) }
{
    match named_requests(analysis, one, other) {
        Some(pair) => witness_of_named(alloc, analysis, one, other, pair, form),
        None => Err(PairFault::NoSuchPair),
    }
}

/// The text of a schedule that shows the requests that the two names mean. They mean no pair of conflicting events.
pub(crate) fn witness_of_requests(
    alloc: Global,
    indexed: &Indexed,
    one: Name<'_>,
    other: Name<'_>,
    form: Form,
) -> Result<Vec<u8>, PairFault>
    requires none { IsNoPair indexed.now one other }
    ensures text { IfOk result (λ text. IsWitness indexed.now one.entry other.entry form text.items) }
    ensures fault { IfErr result (IsUnwitnessed indexed.now one.entry other.entry) }
{
    match Analysis::new(alloc, indexed) {
        Ok(analysis) => witness_in(alloc, &analysis, one, other, form),
        Err(refused) => Err(PairFault::from(refused)),
    }
}

/// Appends what is known of the two requests.
fn append_told(
    text: &mut Vec<u8>,
    analysis: &Analysis<'_>,
    pair: (u32, u32),
    all: bool,
) -> Result<(), OutOfMemory>
    requires first { pair.0 < length analysis.now.events }
    requires second { pair.1 < length analysis.now.events }
    ensures { AppendedOne result text.old text.new (AreRequestsTold analysis.now pair.0 pair.1 all) }
{
    let finding = find(*text.allocator(), analysis, pair.0, pair.1)?;
    deadlock_text(analysis, &finding, pair, all, text)?;
    Ok(())
}

/// The text that explains the two requests, which the names mean.
fn explanation_of_named(
    alloc: Global,
    analysis: &Analysis<'_>,
    _one: Name<'_>,
    _other: Name<'_>,
    pair: (u32, u32),
    all: bool,
) -> Result<Vec<u8>, PairFault>
    requires named { AreNamedRequests analysis.now _one _other pair.0 pair.1 }
    requires first { pair.0 < length analysis.now.events }
    requires second { pair.1 < length analysis.now.events }
    ensures text { IfOk result (λ text. IsExplanation analysis.now _one.entry _other.entry all text.items) }
    ensures fault { IfErr result (IsUnexplained analysis.now _one.entry _other.entry) }
{
    let mut text = Vec::new(alloc);
    append_told(&mut text, analysis, pair, all)?;
    Ok(text)
}

/// The same, by the orders of the trace. The names mean no pair of conflicting events.
fn explanation_in(
    alloc: Global,
    analysis: &Analysis<'_>,
    one: Name<'_>,
    other: Name<'_>,
    all: bool,
) -> Result<Vec<u8>, PairFault>
    requires none { IsNoPair analysis.now one other }
    ensures text { IfOk result (λ text. IsExplanation analysis.now one.entry other.entry all text.items) }
    ensures fault { IfErr result (IsUnexplained analysis.now one.entry other.entry) }
{
    match named_requests(analysis, one, other) {
        Some(pair) => explanation_of_named(alloc, analysis, one, other, pair, all),
        None => Err(PairFault::NoSuchPair),
    }
}

/// The text that explains the requests that the two names mean. They mean no pair of conflicting events.
pub(crate) fn explanation_of_requests(
    alloc: Global,
    indexed: &Indexed,
    one: Name<'_>,
    other: Name<'_>,
    all: bool,
) -> Result<Vec<u8>, PairFault>
    requires none { IsNoPair indexed.now one other }
    ensures text { IfOk result (λ text. IsExplanation indexed.now one.entry other.entry all text.items) }
    ensures fault { IfErr result (IsUnexplained indexed.now one.entry other.entry) }
{
    match Analysis::new(alloc, indexed) {
        Ok(analysis) => explanation_in(alloc, &analysis, one, other, all),
        Err(refused) => Err(PairFault::from(refused)),
    }
}
