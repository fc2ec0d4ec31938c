//! Prints the chains that show why sections began before others.
ghost use Rattle.std.specs.Prelude.{◌≡◌, ◌<◌, ◌++◌, ℕ, List, length, slice_get, Some, OnOk, IfOk};
ghost use Rattle.explain_report.specs.Causes.{AreCausesTold, IsWaiting, cause_for, cause_of, caused_text, is_taken, leads, lock_taken, none_waits, wait_by, waits, waits_for};
ghost use Rattle.explain_report.specs.Chains.{cause_text, holding};
ghost use Rattle.rapid_text.specs.Appended.{Appended, AppendedOne};

use crate::chains::append_chain;
use crate::event_lines::{append_lock_of, append_thread_of, op_of};
use crate::pieces::{append_indent, append_number, append_words};
use event_index::Indexed;
use must_order::{Analysis, Chain, Reason, Step};
use rapid_text::{Op, OutOfMemory};
use std::alloc::Global;

/// The chains that wait to be printed.
#[derive(Drop)]
pub(crate) struct Waiting {
    /// For each chain, whether it waits or was printed.
    told: Vec<bool>,
    /// The chains that wait, each with its depth. The last one is next.
    left: Vec<(usize, u32)>,
}

/// The causes of the steps wait, at depth 1.
pub(crate) fn waiting_for(
    alloc: Global,
    chains: &[Chain],
    steps: &[Step],
) -> Result<Waiting, OutOfMemory>
    ensures waits { IfOk result (λ w. waits w ≡ waits_for chains.now 1 steps.now (none_waits chains.now)) }
    ensures kept { IfOk result (λ w. IsWaiting chains.now 0 (waits w)) }
{
    let mut waiting = Waiting {
        told: vec![in alloc; false; chains.len()]?,
        left: Vec::new(alloc),
    };
    add_causes(&mut waiting, chains, steps, 1)?;
    Ok(waiting)
}

/// Appends the chains that wait, each once, and after each those that it needs.
pub(crate) fn append_causes(
    out: &mut Vec<u8>,
    analysis: &Analysis<'_>,
    chains: &[Chain],
    waiting: &mut Waiting,
) -> Result<(), OutOfMemory>
    requires { IsWaiting chains.now 0 (waits waiting.old) }
    ensures { AppendedOne result out.old out.new (AreCausesTold analysis.now chains.now (waits waiting.old).0 (waits waiting.old).1) }
{
    for _chain in 0..chains.len() {
        let Some((at, depth)) = waiting.left.pop() else {
            return Ok(());
        };
        let chain = chain_at(chains, at);
        append_caused(out, analysis, chain, depth)?;
        add_causes(
            waiting,
            chains,
            chain.steps.as_slice(),
            depth.saturating_add(1),
        )?;
    }
    Ok(())
}

fn chain_at(chains: &[Chain], at: usize) -> &Chain
    requires { at < length chains.now }
    ensures { slice_get chains.now at ≡ Some result.now }
{
    &chains[at]
}

/// Adds the causes of the steps to those that wait. The cause of the first step is next.
fn add_causes(
    waiting: &mut Waiting,
    chains: &[Chain],
    steps: &[Step],
    depth: u32,
) -> Result<(), OutOfMemory>
    requires { length waiting.old.told.items ≡ length chains.now }
    ensures { OnOk result (waits waiting.new ≡ waits_for chains.now depth steps.now (waits waiting.old)) }
{
    for passed in 0..steps.len() {
        let step = steps[steps.len() - 1 - passed];
        add_cause(waiting, chains, step, depth)?;
    }
    Ok(())
}

/// Adds the cause of the step, if it has one.
fn add_cause(
    waiting: &mut Waiting,
    chains: &[Chain],
    step: Step,
    depth: u32,
) -> Result<(), OutOfMemory>
    requires { length waiting.old.told.items ≡ length chains.now }
    ensures { OnOk result (waits waiting.new ≡ wait_by depth (waits waiting.old) (cause_of chains.now step.to step.reason)) }
{
    match cause_of(chains, step.to, step.reason) {
        Some(at) => add_chain(waiting, at, depth),
        None => Ok(()),
    }
}

/// Adds the chain, unless it waits already or was printed.
fn add_chain(waiting: &mut Waiting, at: usize, depth: u32) -> Result<(), OutOfMemory>
    requires { at < length waiting.old.told.items }
    ensures { OnOk result (waits waiting.new ≡ wait_by depth (waits waiting.old) (Some at)) }
{
    if waiting.told[at] {
        return Ok(());
    }
    waiting.told[at] = true;
    waiting.left.push((at, depth))?;
    Ok(())
}

/// The index of the chain that shows why a step to the event may be taken, if it ends a section.
fn cause_of(chains: &[Chain], event: u32, reason: Reason) -> Option<usize>
    ensures { result ≡ cause_of chains.now event reason }
{
    match reason {
        Reason::Ended(acquire) => cause_for(chains, acquire, event),
        Reason::Later => None,
        Reason::Forked => None,
        Reason::Written => None,
        Reason::Joined => None,
        Reason::ForkJoined => None,
    }
}

/// The index of the first chain that leads from the one event to the other.
fn cause_for(chains: &[Chain], first: u32, last: u32) -> Option<usize>
    ensures { result ≡ cause_for chains.now first last }
{
    chains.iter().position(|chain| leads(chain, first, last))
}

fn leads(chain: &Chain, first: u32, last: u32) -> bool
    ensures { result ≡ leads first last chain.now }
{
    chain.first == first && chain.last == last
}

/// Appends what a chain is for, one step less deep, and the chain.
fn append_caused(
    out: &mut Vec<u8>,
    analysis: &Analysis<'_>,
    chain: &Chain,
    depth: u32,
) -> Result<(), OutOfMemory>
    ensures { Appended result out.old out.new (caused_text analysis.now depth chain.now) }
{
    append_cause(out, analysis.indexed(), chain, depth.saturating_sub(1))?;
    append_chain(out, analysis, chain, depth)?;
    Ok(())
}

/// Appends what the chain is for: the section where it begins began before the one where it ends.
fn append_cause(
    out: &mut Vec<u8>,
    indexed: &Indexed,
    chain: &Chain,
    depth: u32,
) -> Result<(), OutOfMemory>
    ensures { Appended result out.old out.new (cause_text indexed.now depth chain.now (holding (is_taken indexed.now.events chain.now))) }
{
    append_holding(out, indexed, chain, depth, is_taken(indexed, chain))
}

/// Whether the last event of the chain acquires the lock of the first one.
fn is_taken(indexed: &Indexed, chain: &Chain) -> bool
    ensures { result ≡ is_taken indexed.now.events chain.now }
{
    lock_taken(indexed, chain.last) == lock_taken(indexed, chain.first)
}

/// The lock that the event acquires.
fn lock_taken(indexed: &Indexed, event: u32) -> Option<u32>
    ensures { result ≡ lock_taken indexed.now.events event }
{
    match op_of(indexed, event) {
        Some(Op::Acquire(lock)) => Some(lock),
        _ => None,
    }
}

/// The same if it is known whether the chain's last event acquires the lock.
fn append_holding(
    out: &mut Vec<u8>,
    indexed: &Indexed,
    chain: &Chain,
    depth: u32,
    takes: bool,
) -> Result<(), OutOfMemory>
    ensures { Appended result out.old out.new (cause_text indexed.now depth chain.now (holding takes)) }
{
    append_indent(out, depth)?;
    append_words(out, b"for ")?;
    append_thread_of(out, indexed, chain.last)?;
    append_words(out, holding_of(takes))?;
    append_lock_of(out, indexed, chain.first)?;
    append_words(out, b" at ")?;
    append_number(out, u64::from(chain.last))?;
    append_words(out, b", and that section began before:\n")?;
    Ok(())
}

fn holding_of(takes: bool) -> &'static [u8]
    ensures { result.now ≡ holding takes }
{
    if takes { b" takes " } else { b" holds " }
}
