//! The locks of each row, from the accesses at which each lock is held.
ghost use Rattle.std.specs.Prelude.{◌≡◌, ◌<◌, ◌≤◌, ◌+◌, ◌++◌, ◌==◌, ℕ, length, All, IfOk, OnOk, cond, slice_index};
ghost use Rattle.variable_uses.specs.Columns.{AreColumnsBefore, AreEmptyColumns, AreFewUses, AreNone, IsColumnPut, IsPutOne, entry, totals_of};

use rapid_text::OutOfMemory;
use std::alloc::Global;

/// A lock, and at how many accesses it is held.
#[derive(Clone, Copy)]
pub struct LockCount {
    /// The number of the lock.
    pub lock: u32,
    /// The number of accesses.
    pub count: u32,
}

/// For each of the first `rows` rows the locks that are held at some of its accesses, with how many these are, in
/// rising order of the locks. `lists` has the accesses at which each lock is held.
pub(crate) fn locks_of_rows(
    alloc: Global,
    numbers: &[u32],
    lists: &[Vec<u32>],
    rows: usize,
) -> Result<Vec<Vec<LockCount>>, OutOfMemory>
    requires numbers { All (λ m. m ≤ rows) numbers.now }
    requires locks { length lists.now ≤ 1048576 }
    requires lists { AreFewUses numbers.now lists.now }
    ensures len { IfOk result (λ columns. length columns.items ≡ rows) }
    ensures columns { IfOk result (λ columns. AreColumnsBefore lists.now numbers.now (length lists.now) columns.items) }
{
    let mut counts = vec![in alloc; 0u32; rows]?;
    let mut columns = empty_columns(alloc, rows)?;
    match put_all(&mut columns, counts.as_mut_slice(), numbers, lists) {
        Ok(()) => Ok(columns),
        Err(refused) => Err(refused),
    }
}

// A column without locks for each row.
fn empty_columns(alloc: Global, rows: usize) -> Result<Vec<Vec<LockCount>>, OutOfMemory>
    ensures len { IfOk result (λ columns. length columns.items ≡ rows) }
    ensures empty { IfOk result (λ columns. AreEmptyColumns columns.items) }
{
    let mut columns = Vec::with_capacity(alloc, rows)?;
    for _row in 0..rows {
        columns.push(Vec::new(alloc))?;
    }
    Ok(columns)
}

// Adds all locks.
fn put_all(
    columns: &mut Vec<Vec<LockCount>>,
    counts: &mut [u32],
    numbers: &[u32],
    lists: &[Vec<u32>],
) -> Result<(), OutOfMemory>
    requires columns { length columns.old.items ≡ length counts.old }
    requires none { AreNone counts.old }
    requires empty { AreEmptyColumns columns.old.items }
    requires numbers { All (λ m. m ≤ length counts.old) numbers.now }
    requires locks { length lists.now ≤ 1048576 }
    requires lists { AreFewUses numbers.now lists.now }
    ensures len { length columns.new.items ≡ length columns.old.items }
    ensures columns { OnOk result (AreColumnsBefore lists.now numbers.now (length lists.now) columns.new.items) }
{
    for lock in 0..lists.len() {
        put_lock(
            columns,
            counts,
            numbers,
            lists[lock].as_slice(),
            lock as u32,
        )?;
    }
    Ok(())
}

// Adds a lock to the columns of the rows that have accesses in the list.
fn put_lock(
    columns: &mut Vec<Vec<LockCount>>,
    counts: &mut [u32],
    numbers: &[u32],
    list: &[u32],
    lock: u32,
) -> Result<(), OutOfMemory>
    requires columns { length columns.old.items ≡ length counts.old }
    requires none { AreNone counts.old }
    requires numbers { All (λ m. m ≤ length counts.old) numbers.now }
    requires few { length list.now ≤ 1048576 }
    requires list { All (λ e. e < length numbers.now) list.now }
    ensures len { length columns.new.items ≡ length columns.old.items }
    ensures lens { length counts.new ≡ length counts.old }
    ensures none { OnOk result (AreNone counts.new) }
    ensures put { OnOk result (IsColumnPut numbers.now list.now lock columns.old.items columns.new.items) }
{
    for at in 0..list.len() {
        count(counts, numbers[list[at] as usize]);
    }
    for at in 0..list.len() {
        put(columns, counts, numbers[list[at] as usize], lock)?;
    }
    Ok(())
}

// Counts an access by the number of its row.
fn count(counts: &mut [u32], number: u32)
    requires number { number ≤ length counts.old }
    requires room { (k : ℕ) → k < length counts.old → slice_index counts.old k < 1048576 }
    ensures len { length counts.new ≡ length counts.old }
    ensures counts { (k : ℕ) → k < length counts.old → slice_index counts.new k ≡ slice_index counts.old k + cond (number == k + 1) 1 0 }
{
    if number != 0 {
        counts[number as usize - 1] += 1;
    }
}

// Moves the count of a row, if there is one, to its column.
fn put(
    columns: &mut Vec<Vec<LockCount>>,
    counts: &mut [u32],
    number: u32,
    lock: u32,
) -> Result<(), OutOfMemory>
    requires columns { length columns.old.items ≡ length counts.old }
    requires number { number ≤ length counts.old }
    ensures len { length columns.new.items ≡ length columns.old.items }
    ensures lens { length counts.new ≡ length counts.old }
    ensures counts { OnOk result ((k : ℕ) → k < length counts.old → slice_index counts.new k ≡ cond (number == k + 1) 0 (slice_index counts.old k)) }
    ensures put { OnOk result (IsPutOne number lock counts.old columns.old.items columns.new.items) }
{
    if number == 0 {
        return Ok(());
    }
    let row = number as usize - 1;
    let count = counts[row];
    if count == 0 {
        return Ok(());
    }
    columns[row].push(LockCount { lock, count })?;
    counts[row] = 0;
    Ok(())
}

/// The locks that are held at some access, with how many these are, in rising order.
pub(crate) fn totals_of(alloc: Global, lists: &[Vec<u32>]) -> Result<Vec<LockCount>, OutOfMemory>
    requires locks { length lists.now ≤ 1048576 }
    requires few { All (λ v. length v.items ≤ 1048576) lists.now }
    ensures { IfOk result (λ totals. totals.items ≡ totals_of lists.now (length lists.now)) }
{
    let mut totals = Vec::new(alloc);
    for lock in 0..lists.len() {
        add_total(&mut totals, lock as u32, lists[lock].as_slice())?;
    }
    Ok(totals)
}

// Appends the lock if it has accesses.
fn add_total(totals: &mut Vec<LockCount>, lock: u32, list: &[u32]) -> Result<(), OutOfMemory>
    requires { length list.now ≤ 1048576 }
    ensures { OnOk result (totals.new.items ≡ totals.old.items ++ entry lock (length list.now)) }
{
    let count = list.len() as u32;
    if count == 0 {
        return Ok(());
    }
    totals.push(LockCount { lock, count })?;
    Ok(())
}
