//! Counts all conflicting pairs of each pair of places, class by class: the events of two classes are multiplied,
//! without the pairs within one thread. No pair is visited, and each is counted twice, once for each of its two
//! events.
ghost use Rattle.std.specs.Prelude.{◌≡◌, ℕ, ◌^◌, ◌<◌, ◌≤◌, length, All, IfOk, OnOk};
ghost use Rattle.indexmap.specs.IndexMap.{index_map_len};
ghost use Rattle.race_groups.specs.Basis.{HasRoom, IsBasis, total_of, totals_in, totals_of, own_total};
ghost use Rattle.race_groups.specs.Found.{IfTooMany};
ghost use Rattle.race_groups.specs.Rows.{Part, count_at, AreMore, AreRows, AreGrownBy, HaveAtMost, HaveCounts};
ghost use Rattle.race_groups.specs.Totals.{AreWeights, weighed_sum, AreClassTotals, AreThreadCounts, IsClassSpread};

use crate::basis::Basis;
use crate::classes::{Classes, variable_of};
use crate::counting::count;
use crate::owners::only_owner;
use crate::rows::{GrowingRows, RowsRefusal};
use crate::shares::Total;
use crate::walk::add_all;
use crate::writers::conflicting;
use event_index::Indexed;
use rapid_text::OutOfMemory;
use std::alloc::Global;

/// The number of events of each class. Fails if memory runs out.
pub(crate) fn totals_of(
    alloc: Global,
    indexed: &Indexed,
    classes: &Classes,
) -> Result<Vec<u64>, OutOfMemory>
    requires numbers { length classes.now.numbers.items ≡ length indexed.now.events }
    requires classes { All (λ c. c < length classes.now.infos.items) classes.now.numbers.items }
    ensures { IfOk result (λ totals. AreClassTotals indexed.now classes.now totals.items) }
{
    let _len = indexed.len();
    let numbers = classes.numbers.as_slice();
    let mut made = vec![in alloc; 0u64; classes.infos.as_slice().len()]?;
    let totals = made.as_mut_slice();
    for thread in 0..indexed.threads() {
        count(totals, numbers, indexed.thread_events(thread));
    }
    Ok(made)
}

// The number of events of a class in each thread, from its entries.
fn weights_of(alloc: Global, threads: u32, entries: &[(u32, u32)]) -> Result<Vec<u64>, OutOfMemory>
    requires within { All (λ e. e.0 < threads) entries.now }
    requires few { weighed_sum (λ t. 1) entries.now < 2 ^ 64 }
    ensures len { IfOk result (λ weights. length weights.items ≡ threads) }
    ensures weights { IfOk result (λ weights. AreThreadCounts threads entries.now weights.items) }
{
    let mut made = vec![in alloc; 0u64; threads as usize]?;
    let weights = made.as_mut_slice();
    for entry in entries {
        weights[entry.0 as usize] += u64::from(entry.1);
    }
    Ok(made)
}

// Adds all pairs of an event of class number `class` with one of a class whose number is not greater.
fn add_total(
    alloc: Global,
    rows: &mut GrowingRows,
    basis: Basis<'_>,
    totals: &[u64],
    spread: &[Vec<(u32, u32)>],
    class: u32,
) -> Result<(), OutOfMemory>
    requires basis { IsBasis basis }
    requires totals { AreClassTotals basis.indexed.now basis.classes.now totals.now }
    requires spread { IsClassSpread basis.indexed.now basis.classes.now spread.now }
    requires class { class < length basis.classes.now.infos.items }
    requires rows { AreRows rows.old }
    requires room { HasRoom 0 rows.old }
    ensures ok { OnOk result (AreGrownBy (λ k p q. total_of basis.entry k p q class) rows.old rows.new) }
    ensures rows { OnOk result (AreRows rows.new) }
{
    let entries = spread[class as usize].as_slice();
    let weights = weights_of(alloc, basis.indexed.threads(), entries)?;
    add_weighed(rows, basis, totals, spread, weights.as_slice(), class)
}

// The same, given the number of events of the class in each thread.
fn add_weighed(
    rows: &mut GrowingRows,
    basis: Basis<'_>,
    totals: &[u64],
    spread: &[Vec<(u32, u32)>],
    weights: &[u64],
    class: u32,
) -> Result<(), OutOfMemory>
    requires basis { IsBasis basis }
    requires totals { AreClassTotals basis.indexed.now basis.classes.now totals.now }
    requires spread { IsClassSpread basis.indexed.now basis.classes.now spread.now }
    requires weights { AreWeights basis.indexed.now.events (length basis.indexed.now.threads) basis.classes.now.numbers.items class weights.now }
    requires class { class < length basis.classes.now.infos.items }
    requires rows { AreRows rows.old }
    requires room { HasRoom 0 rows.old }
    ensures ok { OnOk result (AreGrownBy (λ k p q. total_of basis.entry k p q class) rows.old rows.new) }
    ensures rows { OnOk result (AreRows rows.new) }
{
    let info = basis.classes.infos[class as usize];
    let Some(variable) = variable_of(info.op) else {
        return Ok(());
    };
    let times = totals[class as usize];
    let total = Total {
        totals,
        spread,
        weights,
        times,
        class,
    };
    let owner = only_owner(
        basis.conflicts.owners.as_slice(),
        class,
        basis.indexed.threads(),
    );
    let walk = conflicting(basis.classes, basis.conflicts, variable, info.op);
    add_all(rows, &total, basis.classes, walk, info, owner)?;
    Ok(())
}

// The same, if it is the turn of the class.
fn add_own(
    alloc: Global,
    rows: &mut GrowingRows,
    basis: Basis<'_>,
    totals: &[u64],
    spread: &[Vec<(u32, u32)>],
    class: u32,
) -> Result<(), OutOfMemory>
    requires basis { IsBasis basis }
    requires totals { AreClassTotals basis.indexed.now basis.classes.now totals.now }
    requires spread { IsClassSpread basis.indexed.now basis.classes.now spread.now }
    requires class { class < length basis.classes.now.infos.items }
    requires rows { AreRows rows.old }
    requires room { HasRoom 0 rows.old }
    ensures ok { OnOk result (AreGrownBy (own_total basis.entry class) rows.old rows.new) }
    ensures rows { OnOk result (AreRows rows.new) }
{
    if class as usize % basis.every != basis.from {
        return Ok(());
    }
    add_total(alloc, rows, basis, totals, spread, class)?;
    Ok(())
}

/// Counts all conflicting pairs of the classes whose turn it is, each twice. Fails if there are more than `limit`
/// pairs of places, or if memory runs out.
pub(crate) fn add_totals(
    alloc: Global,
    rows: &mut GrowingRows,
    basis: Basis<'_>,
    limit: u32,
) -> Result<(), RowsRefusal>
    requires basis { IsBasis basis }
    requires rows { AreRows rows.old }
    requires kept { index_map_len rows.old ≤ limit }
    requires empty { (k : Part) (p q : ℕ) → p ≤ q → count_at k rows.old p q ≡ 0 }
    ensures ok { OnOk result (HaveCounts (totals_in basis.entry basis.entry.from) rows.new) }
    ensures rows { OnOk result (AreRows rows.new) }
    ensures kept { OnOk result (index_map_len rows.new ≤ limit) }
    ensures too_many { IfTooMany result (AreMore limit rows.new × HaveAtMost (totals_of basis.entry) rows.new) }
{
    let totals = basis.conflicts.totals.as_slice();
    let spread = basis.conflicts.spread.as_slice();
    add_each(alloc, rows, basis, limit, totals, spread)
}

// The same, given the number of events of each class and their threads, class by class.
fn add_each(
    alloc: Global,
    rows: &mut GrowingRows,
    basis: Basis<'_>,
    limit: u32,
    totals: &[u64],
    spread: &[Vec<(u32, u32)>],
) -> Result<(), RowsRefusal>
    requires basis { IsBasis basis }
    requires totals { AreClassTotals basis.indexed.now basis.classes.now totals.now }
    requires spread { IsClassSpread basis.indexed.now basis.classes.now spread.now }
    requires rows { AreRows rows.old }
    requires kept { index_map_len rows.old ≤ limit }
    requires empty { (k : Part) (p q : ℕ) → p ≤ q → count_at k rows.old p q ≡ 0 }
    ensures ok { OnOk result (HaveCounts (totals_in basis.entry basis.entry.from) rows.new) }
    ensures rows { OnOk result (AreRows rows.new) }
    ensures kept { OnOk result (index_map_len rows.new ≤ limit) }
    ensures too_many { IfTooMany result (AreMore limit rows.new × HaveAtMost (totals_of basis.entry) rows.new) }
{
    for class in 0..totals.len() {
        add_own(alloc, rows, basis, totals, spread, class as u32)?;
        if rows.len() > limit as usize {
            return Err(RowsRefusal::TooMany);
        }
    }
    Ok(())
}
