//! The accesses of a race: those in a row that has a named event.
ghost use Rattle.std.specs.Prelude.{◌≡◌, ◌<◌, ◌≤◌, ◌+◌, length, All, IfOk, false, slice_index_or};
ghost use Rattle.variable_uses.specs.Ends.{AreNamedBefore, is_end_of};

use rapid_text::OutOfMemory;
use std::alloc::Global;

/// For each of the first `rows` rows whether it has a named event.
pub(crate) fn named_rows(
    alloc: Global,
    numbers: &[u32],
    named: &[bool],
    rows: usize,
) -> Result<Vec<bool>, OutOfMemory>
    requires numbers { All (λ m. m ≤ rows) numbers.now }
    ensures len { IfOk result (λ flags. length flags.items ≡ rows) }
    ensures named { IfOk result (λ flags. AreNamedBefore numbers.now named.now (length numbers.now) flags.items) }
{
    let mut flags = vec![in alloc; false; rows]?;
    for event in 0..numbers.len() {
        name_row(flags.as_mut_slice(), numbers, named, event);
    }
    Ok(flags)
}

// Sets the flag of the next event's row if the event is named.
fn name_row(flags: &mut [bool], numbers: &[u32], named: &[bool], event: usize)
    requires event { event < length numbers.now }
    requires numbers { All (λ m. m ≤ length flags.old) numbers.now }
    requires named { AreNamedBefore numbers.now named.now event flags.old }
    ensures named { AreNamedBefore numbers.now named.now (event + 1) flags.new }
    ensures len { length flags.new ≡ length flags.old }
{
    let number = numbers[event];
    if number == 0 {
        return;
    }
    if !flag_at(named, event) {
        return;
    }
    flags[number as usize - 1] = true;
}

/// The flag at an index; false past the end.
pub(crate) fn flag_at(flags: &[bool], at: usize) -> bool
    ensures { result ≡ slice_index_or flags.now at false }
{
    match flags.get(at) {
        Some(flag) => *flag,
        None => false,
    }
}

/// Whether the event is in a row with a flag.
pub(crate) fn is_end(flags: &[bool], numbers: &[u32], event: u32) -> bool
    requires event { event < length numbers.now }
    ensures { result ≡ is_end_of numbers.now flags.now event }
{
    let number = numbers[event as usize];
    if number == 0 {
        return false;
    }
    flag_at(flags, number as usize - 1)
}
