//! The chains that show why an event is must-before another. Each chain is built backwards from its end.
ghost use Rattle.std.specs.Prelude.{◌≡◌, ◌≢◌, ◌⊎◌, ◌+◌, ◌<◌, ◌≤◌, ◌↔◌, ℕ, None, Some, length, IfOk, OnOk, IfSome, IsTrue, All, [], slice_get, slice_index};
ghost use Rattle.event_index.specs.Lookups.{base_of};
ghost use Rattle.must_order.specs.Chains.{IsReason, IsChain, AreReasons};
ghost use Rattle.must_order.specs.Joins.{KeepsMarks, AreAllJoins, IsJoinedBelow, IsLedBelow, LeadsTo, NeedsJoin, AreToldBy, StepsFrom, StepsOn, IsNotBefore};
ghost use Rattle.must_order.specs.Layout.{source_of};
ghost use Rattle.must_order.specs.MustBefore.{IsMustBefore};
ghost use Rattle.must_order.specs.declared.chains.Reason.TheVariants.{Ended};

use crate::chains::{Chain, Reason, Step};
use crate::joins::{Join, Joins};
use crate::must::Must;
use crate::rows::source_at;
use event_index::Indexed;
use rapid_text::{Op, OutOfMemory};
use std::alloc::Global;

// The step to the event from its base, or None.
fn base_step(indexed: &Indexed, event: u32) -> Option<Step>
    requires event { event < length indexed.now.events }
    ensures some { IfSome result (StepsFrom (base_of indexed.now.events event) event) }
    ensures reason { IfSome result (λ s. IsReason indexed.now.events s.from event s.reason) }
    ensures plain { IfSome result (λ s. (p : ℕ) → s.reason ≢ Ended p) }
    ensures none { result ≡ None → base_of indexed.now.events event ≡ None }
{
    let base = indexed.base(event)?;
    let reason = if indexed.event(base).thread == indexed.event(event).thread {
        Reason::Later
    } else {
        Reason::Forked
    };
    Some(Step {
        from: base,
        to: event,
        reason,
    })
}

// Why the event's source comes before it.
fn source_reason(indexed: &Indexed, event: u32, source: u32) -> Reason
    requires event { event < length indexed.now.events }
    requires within { source < length indexed.now.events }
    requires source { source_of indexed.now.events event ≡ Some source }
    ensures reason { IsReason indexed.now.events source event result }
    ensures plain { (p : ℕ) → result ≢ Ended p }
{
    match indexed.event(event).op {
        Op::Join(thread) => {
            if indexed.event(source).thread == thread {
                Reason::Joined
            } else {
                Reason::ForkJoined
            }
        }
        Op::Read(_) | Op::Write(_) | Op::Acquire(_) | Op::Release(_) | Op::Fork(_) => {
            Reason::Written
        }
    }
}

// The step to the event from its source, or None.
fn source_step(indexed: &Indexed, event: u32) -> Option<Step>
    requires event { event < length indexed.now.events }
    ensures some { IfSome result (StepsFrom (source_of indexed.now.events event) event) }
    ensures reason { IfSome result (λ s. IsReason indexed.now.events s.from event s.reason) }
    ensures plain { IfSome result (λ s. (p : ℕ) → s.reason ≢ Ended p) }
    ensures none { result ≡ None → source_of indexed.now.events event ≡ None }
{
    let source = source_at(indexed, event)?;
    let reason = source_reason(indexed, event, source);
    Some(Step {
        from: source,
        to: event,
        reason,
    })
}

// The step to the event from its base or its source, if the first event is must-before that one or is it.
fn link_back(must: &Must, indexed: &Indexed, first: u32, event: u32) -> Option<Step>
    requires trace { must.now ≡ indexed.now }
    requires first { first < length indexed.now.events }
    requires event { event < length indexed.now.events }
    ensures some { IfSome result (StepsOn indexed.now.events first event) }
    ensures reason { IfSome result (λ s. IsReason indexed.now.events s.from event s.reason) }
    ensures plain { IfSome result (λ s. (p : ℕ) → s.reason ≢ Ended p) }
    ensures base { result ≡ None → IsNotBefore indexed.now.events first (base_of indexed.now.events event) }
    ensures source { result ≡ None → IsNotBefore indexed.now.events first (source_of indexed.now.events event) }
{
    if let Some(step) = base_step(indexed, event) {
        if must.before(first, step.from) {
            return Some(step);
        }
    }
    if let Some(step) = source_step(indexed, event) {
        if must.before(first, step.from) {
            return Some(step);
        }
    }
    None
}

// Whether the join is one of this event, and the first event is must-before the join's release or is it.
fn leads_through(must: &Must, indexed: &Indexed, join: Join, first: u32, event: u32) -> bool
    requires trace { must.now ≡ indexed.now }
    requires first { first < length indexed.now.events }
    requires release { join.release < length indexed.now.events }
    ensures { IsTrue result ↔ LeadsTo indexed.now.events first event join }
{
    if join.event != event {
        return false;
    }
    must.before(first, join.release)
}

// The index of one of the event's joins below `high` whose release the first event is must-before.
fn join_back(
    must: &Must,
    joins: &Joins,
    indexed: &Indexed,
    first: u32,
    event: u32,
    high: usize,
) -> usize
    requires trace { must.now ≡ indexed.now }
    requires known { AreAllJoins indexed.now.events joins.now }
    requires first { first < length indexed.now.events }
    requires event { event < length indexed.now.events }
    requires high { high ≤ length joins.now.list.items }
    requires joined { IsJoinedBelow indexed.now.events joins.now high first event }
    ensures below { result < high }
    ensures found { IfSome (slice_get joins.now.list.items result) (LeadsTo indexed.now.events first event) }
{
    for at in joins.starts[event as usize]..high {
        if leads_through(must, indexed, joins.list[at], first, event) {
            return at;
        }
    }
    unreachable!()
}

// One step back from the event, towards the first event. If the step is the end of a section, its join is marked.
fn step_back(
    must: &Must,
    joins: &Joins,
    indexed: &Indexed,
    needed: &mut Vec<bool>,
    first: u32,
    event: u32,
    high: usize,
) -> Step
    requires trace { must.now ≡ indexed.now }
    requires known { AreAllJoins indexed.now.events joins.now }
    requires marks { length needed.old.items ≡ length joins.now.list.items }
    requires first { first < length indexed.now.events }
    requires event { event < length indexed.now.events }
    requires high { high ≤ length joins.now.list.items }
    requires led { IsLedBelow indexed.now.events joins.now high first event }
    ensures to { result.to ≡ event }
    ensures earlier { result.from < event }
    ensures before { IsMustBefore indexed.now.events first result.from }
    ensures reason { IsReason indexed.now.events result.from event result.reason }
    ensures section { NeedsJoin joins.now needed.new high event result }
    ensures marks { KeepsMarks needed.old.items needed.new.items }
{
    if let Some(step) = link_back(must, indexed, first, event) {
        return step;
    }
    let at = join_back(must, joins, indexed, first, event, high);
    let join = joins.list[at];
    needed[at] = true;
    Step {
        from: join.release,
        to: event,
        reason: Reason::Ended(join.acquire),
    }
}

// The chain from the first event to the last, which uses only joins below `limit`. The joins that it uses are marked.
fn chain_of(
    alloc: Global,
    must: &Must,
    joins: &Joins,
    indexed: &Indexed,
    needed: &mut Vec<bool>,
    first: u32,
    last: u32,
    limit: usize,
) -> Result<Chain, OutOfMemory>
    requires trace { must.now ≡ indexed.now }
    requires known { AreAllJoins indexed.now.events joins.now }
    requires marks { length needed.old.items ≡ length joins.now.list.items }
    requires first { first < length indexed.now.events }
    requires last { last < length indexed.now.events }
    requires low { slice_index joins.now.starts.items last ≤ limit }
    requires high { limit ≤ length joins.now.list.items }
    requires led { (first ≡ last) ⊎ IsLedBelow indexed.now.events joins.now limit first last }
    ensures ends { IfOk result (λ c. (c.first ≡ first) × (c.last ≡ last)) }
    ensures chain { IfOk result (IsChain indexed.now.events) }
    ensures sections { IfOk result (λ c. All (λ s. NeedsJoin joins.now needed.new limit s.to s) c.steps.items) }
    ensures marks { OnOk result (KeepsMarks needed.old.items needed.new.items) }
{
    let mut steps = Vec::new(alloc);
    let mut event = last;
    let mut high = limit;
    while event != first {
        let step = step_back(must, joins, indexed, needed, first, event, high);
        steps.push(step)?;
        event = step.from;
        high = joins.starts[event as usize + 1];
    }
    steps.reverse();
    Ok(Chain { first, last, steps })
}

// Adds the chain to the event of join `at`, if that join is marked.
fn justify(
    alloc: Global,
    must: &Must,
    joins: &Joins,
    indexed: &Indexed,
    needed: &mut Vec<bool>,
    chains: &mut Vec<Chain>,
    at: usize,
) -> Result<(), OutOfMemory>
    requires trace { must.now ≡ indexed.now }
    requires known { AreAllJoins indexed.now.events joins.now }
    requires at { at < length joins.now.list.items }
    requires told { AreToldBy indexed.now.events joins.now needed.old (at + 1) chains.old }
    ensures told { OnOk result (AreToldBy indexed.now.events joins.now needed.new at chains.new) }
    ensures begins { OnOk result (slice_get chains.new.items 0 ≡ slice_get chains.old.items 0) }
{
    if !needed[at] {
        return Ok(());
    }
    let join = joins.list[at];
    let chain = chain_of(
        alloc,
        must,
        joins,
        indexed,
        needed,
        join.acquire,
        join.event,
        at,
    )?;
    chains.push(chain)?;
    Ok(())
}

/// The chains that show why the first event is must-before the last. Fails if memory runs out.
pub(crate) fn chains_of(
    alloc: Global,
    must: &Must,
    joins: &Joins,
    indexed: &Indexed,
    first: u32,
    last: u32,
) -> Result<Vec<Chain>, OutOfMemory>
    requires trace { must.now ≡ indexed.now }
    requires known { AreAllJoins indexed.now.events joins.now }
    requires first { first < length indexed.now.events }
    requires last { last < length indexed.now.events }
    requires before { IsMustBefore indexed.now.events first last }
    ensures { IfOk result (λ chains. AreReasons indexed.now.events first last chains.items) }
{
    let mut chains = Vec::new(alloc);
    match add_chains(alloc, must, joins, indexed, &mut chains, first, last) {
        Ok(()) => Ok(chains),
        Err(refused) => Err(refused),
    }
}

// Adds these chains to the empty list.
fn add_chains(
    alloc: Global,
    must: &Must,
    joins: &Joins,
    indexed: &Indexed,
    chains: &mut Vec<Chain>,
    first: u32,
    last: u32,
) -> Result<(), OutOfMemory>
    requires trace { must.now ≡ indexed.now }
    requires known { AreAllJoins indexed.now.events joins.now }
    requires first { first < length indexed.now.events }
    requires last { last < length indexed.now.events }
    requires before { IsMustBefore indexed.now.events first last }
    requires empty { chains.old.items ≡ [] }
    ensures { OnOk result (AreReasons indexed.now.events first last chains.new.items) }
{
    let mut needed = vec![in alloc; false; joins.list.len()]?;
    add_marked(
        alloc,
        must,
        joins,
        indexed,
        &mut needed,
        chains,
        first,
        last,
    )
}

// The same, with marks for the joins that chains use.
fn add_marked(
    alloc: Global,
    must: &Must,
    joins: &Joins,
    indexed: &Indexed,
    needed: &mut Vec<bool>,
    chains: &mut Vec<Chain>,
    first: u32,
    last: u32,
) -> Result<(), OutOfMemory>
    requires trace { must.now ≡ indexed.now }
    requires known { AreAllJoins indexed.now.events joins.now }
    requires marks { length needed.old.items ≡ length joins.now.list.items }
    requires first { first < length indexed.now.events }
    requires last { last < length indexed.now.events }
    requires before { IsMustBefore indexed.now.events first last }
    requires empty { chains.old.items ≡ [] }
    ensures { OnOk result (AreReasons indexed.now.events first last chains.new.items) }
{
    let limit = joins.starts[last as usize + 1];
    let chain = chain_of(alloc, must, joins, indexed, needed, first, last, limit)?;
    chains.push(chain)?;
    for done in 0..limit {
        justify(
            alloc,
            must,
            joins,
            indexed,
            needed,
            chains,
            limit - 1 - done,
        )?;
    }
    Ok(())
}
