//! Counts the pairs of many later events of one class together. It visits each earlier event once for all later ones,
//! however many there are.
ghost use Rattle.std.specs.Prelude.{◌≡◌, ℕ, ◌<◌, ◌≤◌, length, true, IfOk, OnOk, sum_by};
ghost use Rattle.indexmap.specs.IndexMap.{index_map_len};
ghost use Rattle.event_index.specs.Lookups.{events_of};
ghost use Rattle.event_index.specs.Relations.{is_access};
ghost use Rattle.race_groups.specs.Basis.{AreAdded, AreBlank, HasRoom, IsBasis, class_of, AreFlaggedAdded, AreMoreThan, IsFlaggedAdded};
ghost use Rattle.race_groups.specs.Found.{IfTooMany};
ghost use Rattle.race_groups.specs.Owners.{AreRuns};
ghost use Rattle.race_groups.specs.Rows.{AreRows};

use crate::basis::Basis;
use crate::below::Below;
use crate::classes::variable_of;
use crate::loose::add_loose;
use crate::owners::owner_of;
use crate::rows::{GrowingRows, RowsRefusal};
use crate::writers::{Walk, conflicting};
use rapid_text::{Op, OutOfMemory};
use std::alloc::Global;

// Adds the pairs whose later event is of the thread and of class number `class`.
fn add_class(
    alloc: Global,
    rows: &mut GrowingRows,
    basis: Basis<'_>,
    thread: u32,
    class: u32,
) -> Result<(), OutOfMemory>
    requires basis { IsBasis basis }
    requires thread { thread < length basis.indexed.now.threads }
    requires class { class < length basis.classes.now.infos.items }
    requires rows { AreRows rows.old }
    requires room { HasRoom 0 rows.old }
    ensures ok { OnOk result (AreAdded basis.entry (class_of basis.entry thread class) rows.old rows.new) }
    ensures rows { OnOk result (AreRows rows.new) }
{
    let mut below = Below::new(alloc, basis)?;
    add_sums(rows, &mut below, basis, thread, class)
}

// The same with sums that are still empty.
fn add_sums(
    rows: &mut GrowingRows,
    below: &mut Below,
    basis: Basis<'_>,
    thread: u32,
    class: u32,
) -> Result<(), OutOfMemory>
    requires basis { IsBasis basis }
    requires thread { thread < length basis.indexed.now.threads }
    requires class { class < length basis.classes.now.infos.items }
    requires below { AreBlank basis below.old }
    requires rows { AreRows rows.old }
    requires room { HasRoom 0 rows.old }
    ensures ok { OnOk result (AreAdded basis.entry (class_of basis.entry thread class) rows.old rows.new) }
    ensures rows { OnOk result (AreRows rows.new) }
{
    let info = basis.classes.infos[class as usize];
    let Some(variable) = variable_of(info.op) else {
        return Ok(());
    };
    below.sum_up(basis, thread, class);
    add_loose(rows, below.loose(), basis, variable, info, thread)?;
    Ok(())
}

// The same if the class is flagged with 1.
fn add_flagged(
    alloc: Global,
    rows: &mut GrowingRows,
    basis: Basis<'_>,
    thread: u32,
    flags: &[u32],
    class: u32,
) -> Result<(), OutOfMemory>
    requires basis { IsBasis basis }
    requires thread { thread < length basis.indexed.now.threads }
    requires class { class < length basis.classes.now.infos.items }
    requires flags { length flags.now ≡ length basis.classes.now.infos.items }
    requires rows { AreRows rows.old }
    requires room { HasRoom 0 rows.old }
    ensures ok { OnOk result (IsFlaggedAdded basis.entry thread flags.now class rows.old rows.new) }
    ensures rows { OnOk result (AreRows rows.new) }
{
    if flags[class as usize] != 1 {
        return Ok(());
    }
    add_class(alloc, rows, basis, thread, class)?;
    Ok(())
}

/// Adds the pairs whose later event is of the thread and of a class that is flagged with 1.
pub(crate) fn add_classes(
    alloc: Global,
    rows: &mut GrowingRows,
    basis: Basis<'_>,
    limit: u32,
    thread: u32,
    flags: &[u32],
) -> Result<(), RowsRefusal>
    requires basis { IsBasis basis }
    requires thread { thread < length basis.indexed.now.threads }
    requires flags { length flags.now ≡ length basis.classes.now.infos.items }
    requires rows { AreRows rows.old }
    requires kept { index_map_len rows.old ≤ limit }
    requires room { HasRoom (sum_by (λ e. length basis.indexed.now.events) (events_of basis.indexed.now.events thread)) rows.old }
    ensures ok { OnOk result (AreFlaggedAdded basis.entry thread flags.now rows.old rows.new) }
    ensures rows { OnOk result (AreRows rows.new) }
    ensures kept { OnOk result (index_map_len rows.new ≤ limit) }
    ensures too_many { IfTooMany result (AreMoreThan limit basis.entry thread rows.old rows.new) }
{
    for class in 0..flags.len() {
        add_flagged(alloc, rows, basis, thread, flags, class as u32)?;
        if rows.len() > limit as usize {
            return Err(RowsRefusal::TooMany);
        }
    }
    Ok(())
}

/// Flags with 1 each class with enough events in the thread that counting them together takes fewer steps.
pub(crate) fn heavies(alloc: Global, basis: Basis<'_>, thread: u32) -> Result<Vec<u32>, OutOfMemory>
    requires basis { IsBasis basis }
    requires thread { thread < length basis.indexed.now.threads }
    ensures { IfOk result (λ flags. length flags.items ≡ length basis.entry.classes.now.infos.items) }
{
    let mut flags = vec![in alloc; 0u32; basis.classes.infos.as_slice().len()]?;
    flag(flags.as_mut_slice(), basis, thread);
    Ok(flags)
}

// Flags the heavy classes. No class is flagged before.
fn flag(flags: &mut [u32], basis: Basis<'_>, thread: u32)
    requires basis { IsBasis basis }
    requires thread { thread < length basis.indexed.now.threads }
    requires flags { length flags.old ≡ length basis.classes.now.infos.items }
    ensures { length flags.new ≡ length flags.old }
{
    let infos = basis.classes.infos.as_slice();
    let numbers = basis.classes.numbers.as_slice();
    for event in basis.indexed.thread_events(thread) {
        let class = numbers[*event as usize] as usize;
        flags[class] = flags[class].saturating_add(1);
    }
    for class in 0..infos.len() {
        let count = flags[class];
        flags[class] = if count > 1 {
            flag_of(basis, infos[class].op, count, thread)
        } else {
            0
        };
    }
}

// 1 if counting `count` events together saves steps, otherwise 0.
fn flag_of(basis: Basis<'_>, op: Op, count: u32, thread: u32) -> u32
    requires basis { IsBasis basis }
    requires op { (x : ℕ) → is_access x op ≡ true → x < length basis.classes.now.members.items }
{
    let Some(variable) = variable_of(op) else {
        return 0;
    };
    let steps = u64::from(count).saturating_mul(steps_of(
        conflicting(basis.classes, basis.conflicts, variable, op),
        thread,
    ));
    u32::from(steps > u64::from(basis.indexed.len()).saturating_mul(4))
}

// The number of classes to visit that are not the thread's own.
fn steps_of(walk: Walk<'_>, thread: u32) -> u64
    requires runs { AreRuns walk.owners.now walk.members.now walk.runs.now }
{
    let mut steps = 0u64;
    let mut at = 0;
    while at < walk.members.len() {
        if owner_of(walk.owners, walk.members[at]) != thread {
            steps = steps.saturating_add((walk.runs[at] - at) as u64);
        }
        at = walk.runs[at];
    }
    steps
}
