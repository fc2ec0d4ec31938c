//! Adds to the rows what one later event, or all those of one class of a thread, have with earlier events.
ghost use Rattle.std.specs.Prelude.{◌≡◌, ℕ, ◌+◌, ◌^◌, ◌<◌, ◌≤◌, length, All, Bool, true, false, IfSome, OnOk, slice_index};
ghost use Rattle.event_index.specs.Relations.{is_clash_of_ops};
ghost use Rattle.race_groups.specs.Adding.{AreGrown, HasRoomFor, class_share, kept_share, numbered_share};
ghost use Rattle.race_groups.specs.Counts.{is_counted};
ghost use Rattle.race_groups.specs.Owners.{AreRuns};
ghost use Rattle.race_groups.specs.Rows.{Part, part, amount, count_at, AreRows, AreGrownBy};

use crate::class::{Class, LockLists};
use crate::classes::Classes;
use crate::owners::owner_of;
use crate::rows::{GrowingRows, Sums};
use crate::shares::{Share, Shares};
use crate::sharing::are_sharing;
use crate::writers::Walk;
use rapid_text::{Op, OutOfMemory};

// The sums of pairs of two classes. A common lock of the two matters only if SHB orders some of the pairs.
fn sums_of(lists: &LockLists, earlier: Class, later: Class, share: Share) -> Sums
    ensures { (k : Part) → part k result ≡ kept_share lists.now.keys earlier later share k }
{
    if share.ordered == 0 {
        return share.sums(false);
    }
    share.sums(are_sharing(lists, earlier.held, later.held))
}

// Adds the pairs of the events of one class with one event of another. Only few classes get here, so the walk over them
// all stays short.
#[inline(never)]
fn add_pairs(
    rows: &mut GrowingRows,
    lists: &LockLists,
    earlier: Class,
    later: Class,
    share: Share,
) -> Result<(), OutOfMemory>
    requires some { (k : Part) × (0 < amount k share) × ((b : Bool) → is_counted k b ≡ true) }
    requires rows { AreRows rows.old }
    requires room { (k : Part) (p q : ℕ) → p ≤ q → count_at k rows.old p q + amount k share < 2 ^ 64 }
    ensures ok { OnOk result (AreGrownBy (class_share lists.now.keys earlier later share) rows.old rows.new) }
    ensures rows { OnOk result (AreRows rows.new) }
{
    if !clash(earlier.op, later.op) {
        return Ok(());
    }
    let sums = sums_of(lists, earlier, later, share);
    rows.add(earlier.place, later.place, sums)?;
    Ok(())
}

// The same for the class with this number. It is looked up only if there is something to add. For most classes this
// test is all, and a call would cost more than the test.
#[inline(always)]
fn add_share(
    rows: &mut GrowingRows,
    classes: &Classes,
    member: u32,
    later: Class,
    share: Share,
) -> Result<(), OutOfMemory>
    requires member { member < length classes.now.infos.items }
    requires rows { AreRows rows.old }
    requires room { (k : Part) (p q : ℕ) → p ≤ q → count_at k rows.old p q + amount k share < 2 ^ 64 }
    ensures ok { OnOk result (AreGrownBy (numbered_share classes.now member later share) rows.old rows.new) }
    ensures rows { OnOk result (AreRows rows.new) }
{
    if share.is_nothing() {
        return Ok(());
    }
    let earlier = classes.infos[member as usize];
    add_pairs(rows, &classes.lists, earlier, later, share)?;
    Ok(())
}

// Whether the two operations access one variable, and at least one writes it.
fn clash(first: Op, second: Op) -> bool
    ensures { result ≡ is_clash_of_ops first second }
{
    match (first, second) {
        (Op::Write(x), Op::Read(y) | Op::Write(y)) | (Op::Read(x), Op::Write(y)) => x == y,
        _ => false,
    }
}

// The same for each class of `members`, none of which is the thread's own.
fn add_run<A: Shares>(
    rows: &mut GrowingRows,
    shares: &A,
    classes: &Classes,
    members: &[u32],
    later: Class,
) -> Result<(), OutOfMemory>
    requires members { All (λ c. c < length classes.now.infos.items) members.now }
    requires can { (c : ℕ) → c < length classes.now.infos.items → A.can_tell shares.now c }
    requires rows { AreRows rows.old }
    requires room { HasRoomFor (A.amount_of shares.now) members.now rows.old }
    ensures ok { OnOk result (AreGrown classes.now later (A.amount_of shares.now) members.now rows.old rows.new) }
    ensures rows { OnOk result (AreRows rows.new) }
{
    for member in members {
        add_share(rows, classes, *member, later, shares.share(*member))?;
    }
    Ok(())
}

/// Adds the pairs of one or several events of a class with the events of other threads, whose shares are given by
/// class.
pub(crate) fn add_members<A: Shares>(
    rows: &mut GrowingRows,
    shares: &A,
    classes: &Classes,
    walk: Walk<'_>,
    later: Class,
    thread: u32,
) -> Result<(), OutOfMemory>
    requires members { All (λ c. c < length classes.now.infos.items) walk.members.now }
    requires runs { AreRuns walk.owners.now walk.members.now walk.runs.now }
    requires can { (c : ℕ) → c < length classes.now.infos.items → A.can_tell shares.now c }
    // The thread's own classes add nothing.
    requires own { (c : ℕ) → c < length classes.now.infos.items → slice_index walk.owners.now c ≡ thread → (k : Part)
        → A.amount_of shares.now k c ≡ 0 }
    requires rows { AreRows rows.old }
    requires room { HasRoomFor (A.amount_of shares.now) walk.members.now rows.old }
    ensures ok { OnOk result (AreGrown classes.now later (A.amount_of shares.now) walk.entry.members.now rows.old rows.new) }
    ensures rows { OnOk result (AreRows rows.new) }
{
    let members = walk.members;
    let mut at = 0;
    while at < members.len() {
        let to = walk.runs[at];
        if owner_of(walk.owners, members[at]) == thread {
            at = to;
        } else {
            add_run(rows, shares, classes, &members[at..to], later)?;
            at = to;
        }
    }
    Ok(())
}

/// The same for a class whose events all belong to `owner`, if there is one.
pub(crate) fn add_all<A: Shares>(
    rows: &mut GrowingRows,
    shares: &A,
    classes: &Classes,
    walk: Walk<'_>,
    later: Class,
    owner: Option<u32>,
) -> Result<(), OutOfMemory>
    requires members { All (λ c. c < length classes.now.infos.items) walk.members.now }
    requires runs { AreRuns walk.owners.now walk.members.now walk.runs.now }
    requires can { (c : ℕ) → c < length classes.now.infos.items → A.can_tell shares.now c }
    requires own { IfSome owner (λ o. (c : ℕ) → c < length classes.now.infos.items → slice_index walk.owners.now c ≡ o → (k : Part)
        → A.amount_of shares.now k c ≡ 0) }
    requires rows { AreRows rows.old }
    requires room { HasRoomFor (A.amount_of shares.now) walk.members.now rows.old }
    ensures ok { OnOk result (AreGrown classes.now later (A.amount_of shares.now) walk.entry.members.now rows.old rows.new) }
    ensures rows { OnOk result (AreRows rows.new) }
{
    match owner {
        Some(thread) => add_members(rows, shares, classes, walk, later, thread),
        None => add_run(rows, shares, classes, walk.members, later),
    }
}
