//! The reads of a variable at one place, or the writes, represented by the first ones.
ghost use Rattle.std.specs.Prelude.{◌≡◌, ℕ, ◌<◌, true, IfOk, IfSome, OnOk, length, slice_index};
ghost use Rattle.event_index.specs.Relations.{is_access};
ghost use Rattle.race_groups.specs.least_pairs.Lanes.{access_op};
ghost use Rattle.race_groups.specs.least_pairs.Uses.{AreRuns, IsOwner, IsRun, IsUseNoted, IsWidened, IsUseAt};

use indexmap::IndexMap;
use rapid_text::{Op, OutOfMemory};
use std::alloc::Global;

/// An event and its thread.
#[derive(Clone, Copy)]
pub(crate) struct Of {
    pub(crate) event: u32,
    pub(crate) thread: u32,
}

/// The reads of a variable at one place, or the writes. Kept are the first event, and the first event of another
/// thread; if there is no other thread, the first event again. A least conflicting pair has no other event of a use.
#[derive(Clone, Copy)]
pub(crate) struct Use {
    pub(crate) place: u32,
    pub(crate) is_writing: bool,
    pub(crate) first: Of,
    pub(crate) other: Of,
}

/// The index of each use of one variable, by place and by whether it writes. It is compared with the use before it is
/// used.
pub(crate) type Index = IndexMap<(u32, u32), usize>;

/// Whether the operation, which accesses the variable, writes it.
pub(crate) fn is_writing(op: Op, _variable: u32) -> bool
    requires { is_access _variable op ≡ true }
    ensures { op ≡ access_op result _variable }
{
    match op {
        Op::Write(_) => true,
        _ => false,
    }
}

/// Adds one access.
pub(crate) fn note_use(
    uses: &mut Vec<Use>,
    index: &mut Index,
    place: u32,
    is_writing: bool,
    of: Of,
) -> Result<(), OutOfMemory>
    ensures { OnOk result (IsUseNoted place is_writing of uses.old.items uses.new.items) }
{
    if let Some(at) = use_number(uses.as_slice(), index, place, is_writing) {
        uses[at] = widened(uses[at], of);
        return Ok(());
    }
    index.insert((place, u32::from(is_writing)), uses.len())?;
    uses.push(Use {
        place,
        is_writing,
        first: of,
        other: of,
    })?;
    Ok(())
}

// The index of the use of this place, if it is known.
fn use_number(uses: &[Use], index: &Index, place: u32, is_writing: bool) -> Option<usize>
    ensures { IfSome result (IsUseAt uses.now place is_writing) }
{
    let at = *index.get(&(place, u32::from(is_writing)))?;
    is_at(uses, at, place, is_writing).then_some(at)
}

// Whether the use at this index is of this place and kind of access.
fn is_at(uses: &[Use], at: usize, place: u32, is_writing: bool) -> bool
    ensures { result ≡ true → IsUseAt uses.now place is_writing at }
{
    match uses.get(at) {
        Some(found) => found.place == place && found.is_writing == is_writing,
        None => false,
    }
}

// The use with one more event, which is not earlier than the events it has.
fn widened(one: Use, of: Of) -> Use
    ensures { IsWidened one of result }
{
    if one.first.thread != one.other.thread {
        return one;
    }
    if one.first.thread == of.thread {
        return one;
    }
    Use {
        place: one.place,
        is_writing: one.is_writing,
        first: one.first,
        other: of,
    }
}

/// Whether one thread has all events of both uses.
pub(crate) fn are_of_one_thread(one: Use, other: Use) -> bool
    ensures { result ≡ true → (t : ℕ) × IsOwner t one × IsOwner t other }
{
    one.first.thread == one.other.thread
        && other.first.thread == one.first.thread
        && other.other.thread == one.first.thread
}

/// For each use, the end of the uses from it on that are those of one thread alone.
pub(crate) fn runs_of(alloc: Global, uses: &[Use]) -> Result<Vec<usize>, OutOfMemory>
    ensures { IfOk result (λ runs. AreRuns uses.now runs.items) }
{
    let mut runs = vec![in alloc; 0usize; uses.len()]?;
    for done in 0..uses.len() {
        let at = uses.len() - 1 - done;
        runs[at] = run_at(uses, runs.as_slice(), at);
    }
    Ok(runs)
}

// The end of the run at this index, from the ends of the later runs.
fn run_at(uses: &[Use], runs: &[usize], at: usize) -> usize
    requires at { at < length uses.now }
    requires len { length runs.now ≡ length uses.now }
    requires runs { (i : ℕ) → at < i → i < length uses.now → IsRun uses.now i (slice_index runs.now i) }
    ensures { IsRun uses.now at result }
{
    let next = at + 1;
    if next == uses.len() {
        return next;
    }
    if are_of_one_thread(uses[at], uses[next]) {
        return runs[next];
    }
    next
}
