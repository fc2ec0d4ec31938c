//! Finds the acquires that may wait for ever, and those of them whose thread holds another lock.
ghost use Rattle.std.specs.Prelude.{◌≡◌, ◌≢◌, ◌<◌, ◌≤◌, ◌⊎◌, ◌+◌, ◌↔◌, ℕ, IfOk, IfSome, IsTrue, None, OnOk, Some, length, replicate, true};
ghost use Rattle.rapid_text.specs.declared.event.Op.TheVariants.{Acquire};
ghost use Rattle.event_index.specs.Events.{op_at};
ghost use Rattle.event_index.specs.Lookups.{section_end};
ghost use Rattle.deadlock_triage.specs.Nesting.{AreNestedBelow, IsReach};
ghost use Rattle.deadlock_triage.specs.Requests.{AreNested, IsNested, IsRequest};

use crate::tries::is_try;
use event_index::Indexed;
use must_order::Analysis;
use rapid_text::{Op, OutOfMemory};
use std::alloc::Global;

/// Whether the event acquires a lock and may wait for ever: its location marks no try, and its thread does not hold the
/// lock yet. False also if the trace lacks the event.
pub fn is_request(analysis: &Analysis<'_>, event: u32) -> bool
    ensures request { IsTrue result ↔ IsRequest analysis.now event }
    ensures within { result ≡ true → event < length analysis.now.events }
{
    let indexed = analysis.indexed();
    if event >= indexed.len() {
        return false;
    }
    match acquired(indexed, event) {
        None => false,
        Some(lock) => may_wait(analysis, event, lock),
    }
}

/// The lock that the event acquires, or None.
pub(crate) fn acquired(indexed: &Indexed, event: u32) -> Option<u32>
    requires event { event < length indexed.now.events }
    ensures acquires { IfSome result (λ l. op_at indexed.now.events event ≡ Some (Acquire l)) }
    ensures named { IfSome result (λ l. l < length indexed.now.locks) }
    ensures none { result ≡ None → (l : ℕ) → op_at indexed.now.events event ≢ Some (Acquire l) }
{
    match indexed.event(event).op {
        Op::Acquire(lock) => Some(lock),
        Op::Read(_) => None,
        Op::Write(_) => None,
        Op::Release(_) => None,
        Op::Fork(_) => None,
        Op::Join(_) => None,
    }
}

// The same for an acquire of the lock.
fn may_wait(analysis: &Analysis<'_>, event: u32, lock: u32) -> bool
    requires event { event < length analysis.now.events }
    requires acquires { op_at analysis.now.events event ≡ Some (Acquire lock) }
    requires lock { lock < length analysis.now.locks }
    ensures { IsTrue result ↔ IsRequest analysis.now event }
{
    if is_try(analysis.indexed().trace().raw().location(event)) {
        return false;
    }
    match analysis.held_since(event, lock) {
        None => true,
        Some(_) => false,
    }
}

/// All requests whose thread holds another lock, in rising order.
pub(crate) fn nested_requests(
    alloc: Global,
    analysis: &Analysis<'_>,
) -> Result<Vec<u32>, OutOfMemory>
    ensures { IfOk result (λ nested. AreNested analysis.now nested.items) }
{
    let indexed = analysis.indexed();
    let mut reach = zeros(alloc, indexed.threads() as usize)?;
    let mut nested = Vec::new(alloc);
    for event in 0..indexed.len() {
        note(&mut nested, analysis, reach.as_slice(), event)?;
        extend_reach(&mut reach, indexed, event);
    }
    Ok(nested)
}

fn zeros(alloc: Global, count: usize) -> Result<Vec<u32>, OutOfMemory>
    ensures items { IfOk result (λ made. made.items ≡ replicate count 0) }
    ensures len { IfOk result (λ made. length made.items ≡ count) }
{
    Ok(vec![in alloc; 0u32; count]?)
}

// Adds the event if it is nested.
fn note(
    nested: &mut Vec<u32>,
    analysis: &Analysis<'_>,
    reach: &[u32],
    event: u32,
) -> Result<(), OutOfMemory>
    requires event { event < length analysis.now.events }
    requires reach { IsReach analysis.now event reach.now }
    requires nested { AreNestedBelow analysis.now event nested.old.items }
    ensures { OnOk result (AreNestedBelow analysis.now (event + 1) nested.new.items) }
{
    if !is_nested(analysis, reach, event) {
        return Ok(());
    }
    nested.push(event)?;
    Ok(())
}

// Whether the event is a request whose thread is in a section that goes on after the event.
fn is_nested(analysis: &Analysis<'_>, reach: &[u32], event: u32) -> bool
    requires event { event < length analysis.now.events }
    requires reach { IsReach analysis.now event reach.now }
    ensures { IsTrue result ↔ IsNested analysis.now event }
{
    let indexed = analysis.indexed();
    if reach[indexed.event(event).thread as usize] <= event {
        return false;
    }
    is_request(analysis, event)
}

// Notes how far the section of the event reaches, if the event is an acquire.
fn extend_reach(reach: &mut Vec<u32>, indexed: &Indexed, event: u32)
    requires event { event < length indexed.now.events }
    requires reach { IsReach indexed.now event reach.old.items }
    ensures reach { IsReach indexed.now (event + 1) reach.new.items }
{
    match acquired(indexed, event) {
        None => {}
        Some(_) => {
            let end = end_of(indexed, event);
            let thread = indexed.event(event).thread as usize;
            let most = greater(reach[thread], end);
            reach[thread] = most;
        }
    }
}

// The greater number.
fn greater(one: u32, other: u32) -> u32
    ensures one { one ≤ result }
    ensures other { other ≤ result }
    ensures either { (result ≡ one) ⊎ (result ≡ other) }
{
    if one < other { other } else { one }
}

// The end of the section that the event begins, or the number of events if it does not end.
fn end_of(indexed: &Indexed, event: u32) -> u32
    requires { event < length indexed.now.events }
    ensures ends { (e : ℕ) → section_end indexed.now.events event ≡ Some e → result ≡ e }
    ensures never { section_end indexed.now.events event ≡ None → result ≡ length indexed.now.events }
{
    match indexed.section(event) {
        Some(end) => end,
        None => indexed.len(),
    }
}
