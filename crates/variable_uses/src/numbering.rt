//! Numbers the rows in the order of their first access.
ghost use Rattle.std.specs.Prelude.{◌≡◌, ◌<◌, ◌≤◌, ◌+◌, ℕ, length, All, IfOk, OnOk, slice_index};
ghost use Rattle.variable_uses.specs.Numbers.{AreNumbers, IsNumbered};

use rapid_text::OutOfMemory;
use std::alloc::Global;

/// The number of keys: two for each of 1,048,576 places, and one for events that are in no row.
const SLOTS: usize = 2_097_153;

/// The rows, and the row of each event.
#[derive(Drop)]
pub(crate) struct Numbering {
    /// The first access of each row, in rising order.
    pub(crate) firsts: Vec<u32>,
    /// For each event the number of its row, counted from 1; 0 if it is in no row.
    pub(crate) numbers: Vec<u32>,
}

/// Numbers the rows of these keys, one for each event.
pub(crate) fn numbering_of(alloc: Global, keys: &[u32]) -> Result<Numbering, OutOfMemory>
    requires few { length keys.now ≤ 1048576 }
    requires most { All (λ k. k ≤ 2097152) keys.now }
    ensures { IfOk result (AreNumbers keys.now) }
{
    let mut slots = zeros(alloc, SLOTS)?;
    let mut numbering = Numbering {
        firsts: Vec::new(alloc),
        numbers: Vec::with_capacity(alloc, keys.len())?,
    };
    match numbering.add_all(&mut slots, keys) {
        Ok(()) => Ok(numbering),
        Err(refused) => Err(refused),
    }
}

// So many zeros.
fn zeros(alloc: Global, count: usize) -> Result<Vec<u32>, OutOfMemory>
    ensures len { IfOk result (λ v. length v.items ≡ count) }
    ensures zeros { IfOk result (λ v. (k : ℕ) → slice_index v.items k ≡ 0) }
{
    Ok(vec![in alloc; 0u32; count]?)
}

impl Numbering {
    // Adds all events. `slots` has the row of each key.
    fn add_all(&mut self, slots: &mut Vec<u32>, keys: &[u32]) -> Result<(), OutOfMemory>
        requires few { length keys.now ≤ 1048576 }
        requires slots { All (λ k. k < length slots.old.items) keys.now }
        requires none { IsNumbered keys.now 0 0 slots.old.items self.old }
        ensures { OnOk result (AreNumbers keys.now self.new) }
    {
        for event in 0..keys.len() {
            self.add(slots, keys, event as u32)?;
        }
        Ok(())
    }

    // Adds the next event.
    fn add(&mut self, slots: &mut Vec<u32>, keys: &[u32], event: u32) -> Result<(), OutOfMemory>
        requires few { length keys.now ≤ 1048576 }
        requires event { event < length keys.now }
        requires slots { All (λ k. k < length slots.old.items) keys.now }
        requires numbered { IsNumbered keys.now event event slots.old.items self.old }
        ensures numbered { OnOk result (IsNumbered keys.now (event + 1) (event + 1) slots.new.items self.new) }
        ensures len { OnOk result (length slots.new.items ≡ length slots.old.items) }
    {
        self.begin(slots, keys, event)?;
        let slot = slots[keys[event as usize] as usize];
        self.numbers.push(slot)?;
        Ok(())
    }

    // Begins a row if the event is the first of one.
    fn begin(&mut self, slots: &mut Vec<u32>, keys: &[u32], event: u32) -> Result<(), OutOfMemory>
        requires few { length keys.now ≤ 1048576 }
        requires event { event < length keys.now }
        requires slots { All (λ k. k < length slots.old.items) keys.now }
        requires numbered { IsNumbered keys.now event event slots.old.items self.old }
        ensures numbered { OnOk result (IsNumbered keys.now (event + 1) event slots.new.items self.new) }
        ensures len { OnOk result (length slots.new.items ≡ length slots.old.items) }
    {
        let key = keys[event as usize];
        if key == 0 {
            return Ok(());
        }
        if slots[key as usize] != 0 {
            return Ok(());
        }
        self.firsts.push(event)?;
        slots[key as usize] = self.firsts.len() as u32;
        Ok(())
    }
}
