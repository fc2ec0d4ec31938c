//! Counts a trace's conflicting pairs between three cuts: what is earlier in the trace, what SHB keeps before, and
//! what is forced. For each later thread, the events of the others are counted by class when they come below the
//! cuts. Several workers may share the threads and the classes.
ghost use Rattle.std.specs.Prelude.{◌≡◌, ℕ, ◌+◌, ◌<◌, ◌≤◌, length, All, IfOk, OnOk, Some, slice_get, slice_index, sum_by};
ghost use Rattle.indexmap.specs.IndexMap.{index_map_len};
ghost use Rattle.event_index.specs.Lookups.{events_of};
ghost use Rattle.race_groups.specs.Basis.{AreAdded, AreFewAll, AreFrontsBefore, AreJoined, HasRoom, IsBasis, IsPart, thread_of, AreAllInTurn, AreMoreThan, IsLaterAdded, IsLightAdded, IsOwnAdded};
ghost use Rattle.race_groups.specs.ClassTables.{AreFewClasses, HaveClasses, HaveMembers};
ghost use Rattle.race_groups.specs.Counts.{AreCountedBy};
ghost use Rattle.race_groups.specs.Found.{AreTooMany, IfTooMany};
ghost use Rattle.race_groups.specs.Rows.{Part, count_at, AreMore, AreRows};

use crate::basis::Basis;
use crate::class::Class;
use crate::classes::{Classes, variable_of};
use crate::fronts::Fronts;
use crate::heavy::{add_classes, heavies};
use crate::loose::add_loose;
use crate::rows::{GrowingRows, Rows, RowsRefusal};
use crate::totals::add_totals;
use crate::writers::Conflicts;
use event_index::Indexed;
use must_order::Must;
use rapid_text::OutOfMemory;
use shb_clocks::Clocks;
use std::alloc::Global;

// The class of an event.
fn class_of(classes: &Classes, event: u32) -> Class
    requires event { event < length classes.now.numbers.items }
    requires within { All (λ c. c < length classes.now.infos.items) classes.now.numbers.items }
    ensures { slice_get classes.now.infos.items (slice_index classes.now.numbers.items event) ≡ Some result }
{
    classes.infos[classes.numbers[event as usize] as usize]
}

// Adds the pairs whose later event is the one at this index of the thread.
fn add_later(
    rows: &mut GrowingRows,
    fronts: &mut Fronts,
    basis: Basis<'_>,
    thread: u32,
    at: usize,
) -> Result<(), OutOfMemory>
    requires basis { IsBasis basis }
    requires thread { thread < length basis.indexed.now.threads }
    requires at { at < length (events_of basis.indexed.now.events thread) }
    requires fronts { AreFrontsBefore basis thread at fronts.old }
    requires rows { AreRows rows.old }
    requires room { HasRoom 0 rows.old }
    ensures fronts { OnOk result (AreFrontsBefore basis.entry thread (at + 1) fronts.new) }
    ensures ok { OnOk result (IsLaterAdded basis.entry thread at rows.old rows.new) }
    ensures rows { OnOk result (AreRows rows.new) }
{
    let class = class_of(basis.classes, basis.indexed.thread_events(thread)[at]);
    let Some(variable) = variable_of(class.op) else {
        fronts.pass(basis, thread, at);
        return Ok(());
    };
    fronts.advance(basis, thread, at);
    add_loose(rows, fronts.loose(), basis, variable, class, thread)?;
    Ok(())
}

// The same, unless the event is of a flagged class.
fn add_light(
    rows: &mut GrowingRows,
    fronts: &mut Fronts,
    basis: Basis<'_>,
    thread: u32,
    at: usize,
    flags: &[u32],
) -> Result<(), OutOfMemory>
    requires basis { IsBasis basis }
    requires thread { thread < length basis.indexed.now.threads }
    requires at { at < length (events_of basis.indexed.now.events thread) }
    requires flags { length flags.now ≡ length basis.classes.now.infos.items }
    requires fronts { AreFrontsBefore basis thread at fronts.old }
    requires rows { AreRows rows.old }
    requires room { HasRoom 0 rows.old }
    ensures fronts { OnOk result (AreFrontsBefore basis.entry thread (at + 1) fronts.new) }
    ensures ok { OnOk result (IsLightAdded basis.entry thread at flags.now rows.old rows.new) }
    ensures rows { OnOk result (AreRows rows.new) }
{
    let classes = basis.classes;
    let event = basis.indexed.thread_events(thread)[at];
    if flags[classes.numbers[event as usize] as usize] == 1 {
        fronts.pass(basis, thread, at);
        return Ok(());
    }
    add_later(rows, fronts, basis, thread, at)?;
    Ok(())
}

// Adds the pairs whose later event is of the thread.
fn add_thread(
    alloc: Global,
    rows: &mut GrowingRows,
    basis: Basis<'_>,
    limit: u32,
    thread: u32,
) -> Result<(), RowsRefusal>
    requires basis { IsBasis basis }
    requires thread { thread < length basis.indexed.now.threads }
    requires rows { AreRows rows.old }
    requires kept { index_map_len rows.old ≤ limit }
    requires room { HasRoom (sum_by (λ e. length basis.indexed.now.events) (events_of basis.indexed.now.events thread)) rows.old }
    ensures ok { OnOk result (AreAdded basis.entry (thread_of basis.entry thread) rows.old rows.new) }
    ensures rows { OnOk result (AreRows rows.new) }
    ensures kept { OnOk result (index_map_len rows.new ≤ limit) }
    // If there are too many rows, no row counts more pairs than exist.
    ensures too_many { IfTooMany result (AreMoreThan limit basis.entry thread rows.old rows.new) }
{
    let flags = heavies(alloc, basis, thread)?;
    add_flags(alloc, rows, basis, limit, thread, flags.as_slice())
}

// The same, if it is the turn of the thread.
fn add_own(
    alloc: Global,
    rows: &mut GrowingRows,
    basis: Basis<'_>,
    limit: u32,
    thread: u32,
) -> Result<(), RowsRefusal>
    requires basis { IsBasis basis }
    requires thread { thread < length basis.indexed.now.threads }
    requires rows { AreRows rows.old }
    requires kept { index_map_len rows.old ≤ limit }
    requires room { HasRoom (sum_by (λ e. length basis.indexed.now.events) (events_of basis.indexed.now.events thread)) rows.old }
    ensures ok { OnOk result (IsOwnAdded basis.entry thread rows.old rows.new) }
    ensures rows { OnOk result (AreRows rows.new) }
    ensures kept { OnOk result (index_map_len rows.new ≤ limit) }
    ensures too_many { IfTooMany result (AreMoreThan limit basis.entry thread rows.old rows.new) }
{
    if thread as usize % basis.every != basis.from {
        return Ok(());
    }
    match add_thread(alloc, rows, basis, limit, thread) {
        Ok(()) => Ok(()),
        Err(refusal) => Err(refusal),
    }
}

// The same; the pairs of each flagged class are counted together.
fn add_flags(
    alloc: Global,
    rows: &mut GrowingRows,
    basis: Basis<'_>,
    limit: u32,
    thread: u32,
    flags: &[u32],
) -> Result<(), RowsRefusal>
    requires basis { IsBasis basis }
    requires thread { thread < length basis.indexed.now.threads }
    requires flags { length flags.now ≡ length basis.classes.now.infos.items }
    requires rows { AreRows rows.old }
    requires kept { index_map_len rows.old ≤ limit }
    requires room { HasRoom (sum_by (λ e. length basis.indexed.now.events) (events_of basis.indexed.now.events thread)) rows.old }
    ensures ok { OnOk result (AreAdded basis.entry (thread_of basis.entry thread) rows.old rows.new) }
    ensures rows { OnOk result (AreRows rows.new) }
    ensures kept { OnOk result (index_map_len rows.new ≤ limit) }
    ensures too_many { IfTooMany result (AreMoreThan limit basis.entry thread rows.old rows.new) }
{
    add_classes(alloc, rows, basis, limit, thread, flags)?;
    let mut fronts = Fronts::new(alloc, basis)?;
    for at in 0..basis.indexed.thread_events(thread).len() {
        add_light(rows, &mut fronts, basis, thread, at, flags)?;
        if rows.len() > limit as usize {
            return Err(RowsRefusal::TooMany);
        }
    }
    Ok(())
}

/// The counts of a trace's conflicting pairs. Fails if there are more than `limit` pairs of places, or if memory runs
/// out. `places` has the number of each event's place.
pub(crate) fn count_cuts(
    alloc: Global,
    indexed: &Indexed,
    places: &[u32],
    clocks: &Clocks,
    must: &Must,
    classes: &Classes,
    limit: u32,
) -> Result<Rows, RowsRefusal>
    requires clocks { clocks.now ≡ indexed.now }
    requires must { must.now ≡ indexed.now }
    requires classes { HaveClasses indexed.now.events (slice_index places.now) classes.now }
    requires few { AreFewClasses classes.now }
    requires members { HaveMembers classes.now }
    ensures counted { IfOk result (AreCountedBy indexed.now.events (slice_index places.now) classes.now) }
    ensures kept { IfOk result (λ rows. index_map_len rows ≤ limit) }
    ensures too_many { IfTooMany result (AreTooMany indexed.now.events (slice_index places.now) limit) }
{
    let conflicts = Conflicts::of(alloc, indexed, classes)?;
    let basis = Basis::of(indexed, places, clocks, must, classes, &conflicts, 1);
    match count_in_turn(alloc, places, basis, limit) {
        Ok(rows) => {
            are_all(&rows, places, basis);
            Ok(rows)
        }
        Err(refusal) => Err(refusal),
    }
}

/// The counts of one worker. Fails if there are more than `limit` pairs of places, or if memory runs out.
pub(crate) fn count_in_turn(
    alloc: Global,
    _places: &[u32],
    basis: Basis<'_>,
    limit: u32,
) -> Result<Rows, RowsRefusal>
    requires basis { IsBasis basis }
    requires classes { HaveClasses basis.indexed.now.events (slice_index _places.now) basis.classes.now }
    ensures { IsPart basis.entry (slice_index _places.now) limit basis.entry.from result }
{
    let mut rows = GrowingRows::new(alloc, basis.classes)?;
    match add_pairs(alloc, &mut rows, basis, limit) {
        Ok(()) => Ok(rows.into_rows()),
        Err(refusal) => Err(refusal),
    }
}

/// The sums of all workers are the counts of the trace.
pub(crate) fn are_all(_rows: &Rows, _places: &[u32], _basis: Basis<'_>)
    requires basis { IsBasis _basis }
    requires classes { HaveClasses _basis.indexed.now.events (slice_index _places.now) _basis.classes.now }
    requires rows { AreRows _rows.now }
    requires joined { AreJoined _basis _basis.every _rows.now }
    ensures { AreCountedBy _basis.entry.indexed.now.events (slice_index _places.now) _basis.entry.classes.now
        _rows.now }
{}

// Adds all pairs of the worker's classes, and the pairs of its threads below one cut and not below the next.
fn add_pairs(
    alloc: Global,
    rows: &mut GrowingRows,
    basis: Basis<'_>,
    limit: u32,
) -> Result<(), RowsRefusal>
    requires basis { IsBasis basis }
    requires rows { AreRows rows.old }
    requires kept { index_map_len rows.old ≤ limit }
    requires empty { (k : Part) (p q : ℕ) → p ≤ q → count_at k rows.old p q ≡ 0 }
    ensures ok { OnOk result (AreAllInTurn basis.entry basis.entry.from rows.new) }
    ensures rows { OnOk result (AreRows rows.new) }
    ensures kept { OnOk result (index_map_len rows.new ≤ limit) }
    ensures too_many { IfTooMany result (AreMore limit rows.new × AreFewAll basis.entry rows.new) }
{
    let indexed = basis.indexed;
    add_totals(alloc, rows, basis, limit)?;
    for thread in 0..indexed.threads() {
        match add_own(alloc, rows, basis, limit, thread) {
            Ok(()) => {}
            Err(refusal) => return Err(refusal),
        }
    }
    Ok(())
}
