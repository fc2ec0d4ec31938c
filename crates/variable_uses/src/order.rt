//! Which rows come before all accesses of a race, and which come after them.
ghost use Rattle.std.specs.Prelude.{◌≡◌, ◌<◌, ◌≤◌, ◌+◌, ◌↔◌, ℕ, length, All, IfOk, IfSome, IsTrue, None, Some, replicate};
ghost use Rattle.must_order.specs.MustBefore.{IsMustBefore};
ghost use Rattle.variable_uses.specs.Edges.{AreEdges, AreSidesBefore, AreWithin, IsAfterEdges, IsBeforeEdges, IsNoted};
ghost use Rattle.variable_uses.specs.Ends.{is_end_of};

use crate::ends::is_end;
use event_index::Indexed;
use must_order::Must;
use rapid_text::OutOfMemory;
use std::alloc::Global;

/// Whether all events of a row come before all accesses of the race, and whether they come after them.
#[derive(Clone, Copy)]
pub struct Side {
    /// Each event of the row comes before each access of the race in every correct reordering.
    pub is_before: bool,
    /// Each access of the race comes before each event of the row in every correct reordering.
    pub is_after: bool,
}

/// For each thread its first and its last access of the race, if it has one.
#[derive(Drop)]
pub(crate) struct Edges {
    pub(crate) firsts: Vec<Option<u32>>,
    pub(crate) lasts: Vec<Option<u32>>,
}

/// The edges of the race whose rows have these flags.
pub(crate) fn edges_of(
    alloc: Global,
    indexed: &Indexed,
    numbers: &[u32],
    flags: &[bool],
) -> Result<Edges, OutOfMemory>
    requires len { length numbers.now ≡ length indexed.now.events }
    ensures edges { IfOk result (λ edges. AreEdges indexed.now.events (is_end_of numbers.now flags.now) (length indexed.now.events) edges.firsts.items edges.lasts.items) }
{
    let _len = indexed.len();
    let threads = indexed.threads() as usize;
    let mut firsts = no_entries(alloc, threads)?;
    let mut lasts = no_entries(alloc, threads)?;
    for event in 0..indexed.len() {
        let is_race = is_end(flags, numbers, event);
        note_edge(&mut firsts, &mut lasts, indexed, event, is_race);
    }
    Ok(Edges { firsts, lasts })
}

// So many entries, all None.
fn no_entries(alloc: Global, count: usize) -> Result<Vec<Option<u32>>, OutOfMemory>
    ensures { IfOk result (λ v. v.items ≡ replicate count None) }
{
    Ok(vec![in alloc; None; count]?)
}

// Notes the next event if it is an access of the race.
fn note_edge(
    firsts: &mut Vec<Option<u32>>,
    lasts: &mut Vec<Option<u32>>,
    indexed: &Indexed,
    event: u32,
    is_race: bool,
)
    requires event { event < length indexed.now.events }
    requires firsts { length firsts.old.items ≡ length indexed.now.threads }
    requires lasts { length lasts.old.items ≡ length indexed.now.threads }
    ensures len { length firsts.new.items ≡ length firsts.old.items }
    ensures lens { length lasts.new.items ≡ length lasts.old.items }
    ensures noted { IsNoted indexed.now.events event is_race firsts.old.items lasts.old.items firsts.new.items lasts.new.items }
{
    if !is_race {
        return;
    }
    let thread = indexed.event(event).thread as usize;
    firsts[thread] = firsts[thread].or(Some(event));
    lasts[thread] = Some(event);
}

/// The side of each of the first `rows` rows.
pub(crate) fn sides_of(
    alloc: Global,
    must: &Must,
    numbers: &[u32],
    edges: &Edges,
    rows: usize,
) -> Result<Vec<Side>, OutOfMemory>
    requires len { length numbers.now ≡ length must.now.events }
    requires few { length numbers.now ≤ 1048576 }
    requires numbers { All (λ m. m ≤ rows) numbers.now }
    requires firsts { AreWithin must.now.events edges.now.firsts.items }
    requires lasts { AreWithin must.now.events edges.now.lasts.items }
    ensures len { IfOk result (λ sides. length sides.items ≡ rows) }
    ensures sides { IfOk result (λ sides. AreSidesBefore must.now.events numbers.now (length numbers.now) edges.now.firsts.items edges.now.lasts.items sides.items) }
{
    let both = Side {
        is_before: true,
        is_after: true,
    };
    let mut sides = vec![in alloc; both; rows]?;
    for event in 0..numbers.len() {
        narrow(sides.as_mut_slice(), must, numbers, edges, event as u32);
    }
    Ok(sides)
}

// Updates the side of the row of the next event.
fn narrow(sides: &mut [Side], must: &Must, numbers: &[u32], edges: &Edges, event: u32)
    requires len { length numbers.now ≡ length must.now.events }
    requires event { event < length numbers.now }
    requires numbers { All (λ m. m ≤ length sides.old) numbers.now }
    requires firsts { AreWithin must.now.events edges.now.firsts.items }
    requires lasts { AreWithin must.now.events edges.now.lasts.items }
    requires sides { AreSidesBefore must.now.events numbers.now event edges.now.firsts.items edges.now.lasts.items sides.old }
    ensures len { length sides.new ≡ length sides.old }
    ensures sides { AreSidesBefore must.now.events numbers.now (event + 1) edges.now.firsts.items edges.now.lasts.items sides.new }
{
    let number = numbers[event as usize];
    if number == 0 {
        return;
    }
    let row = number as usize - 1;
    let side = sides[row];
    sides[row] = Side {
        is_before: is_still_before(must, side, event, edges.firsts.as_slice()),
        is_after: is_still_after(must, side, event, edges.lasts.as_slice()),
    };
}

// Whether the row and the event come before all of these.
fn is_still_before(must: &Must, side: Side, event: u32, firsts: &[Option<u32>]) -> bool
    requires event { event < length must.now.events }
    requires firsts { AreWithin must.now.events firsts.now }
    ensures { IsTrue result ↔ (IsTrue side.is_before × IsBeforeEdges must.now.events firsts.now event) }
{
    if !side.is_before {
        return false;
    }
    is_before_all(must, event, firsts)
}

// Whether the row and the event come after all of these.
fn is_still_after(must: &Must, side: Side, event: u32, lasts: &[Option<u32>]) -> bool
    requires event { event < length must.now.events }
    requires lasts { AreWithin must.now.events lasts.now }
    ensures { IsTrue result ↔ (IsTrue side.is_after × IsAfterEdges must.now.events lasts.now event) }
{
    if !side.is_after {
        return false;
    }
    is_after_all(must, event, lasts)
}

// Whether the event is must-before all of these.
fn is_before_all(must: &Must, event: u32, firsts: &[Option<u32>]) -> bool
    requires event { event < length must.now.events }
    requires firsts { AreWithin must.now.events firsts.now }
    ensures { IsTrue result ↔ IsBeforeEdges must.now.events firsts.now event }
{
    for thread in 0..firsts.len() {
        if !is_before_edge(must, event, firsts[thread]) {
            return false;
        }
    }
    true
}

// Whether all of these are must-before the event.
fn is_after_all(must: &Must, event: u32, lasts: &[Option<u32>]) -> bool
    requires event { event < length must.now.events }
    requires lasts { AreWithin must.now.events lasts.now }
    ensures { IsTrue result ↔ IsAfterEdges must.now.events lasts.now event }
{
    for thread in 0..lasts.len() {
        if !is_after_edge(must, event, lasts[thread]) {
            return false;
        }
    }
    true
}

// Whether the event is must-before the edge, if there is one.
fn is_before_edge(must: &Must, event: u32, edge: Option<u32>) -> bool
    requires event { event < length must.now.events }
    requires edge { IfSome edge (λ f. f < length must.now.events) }
    ensures { IsTrue result ↔ ((f : ℕ) → edge ≡ Some f → IsMustBefore must.now.events event f) }
{
    match edge {
        None => true,
        Some(other) => must.before(event, other),
    }
}

// Whether the edge, if there is one, is must-before the event.
fn is_after_edge(must: &Must, event: u32, edge: Option<u32>) -> bool
    requires event { event < length must.now.events }
    requires edge { IfSome edge (λ f. f < length must.now.events) }
    ensures { IsTrue result ↔ ((f : ℕ) → edge ≡ Some f → IsMustBefore must.now.events f event) }
{
    match edge {
        None => true,
        Some(other) => must.before(other, event),
    }
}
