//! The key of each event: which accesses belong to one row.
ghost use Rattle.std.specs.Prelude.{◌≡◌, ◌<◌, ◌≤◌, ◌*◌, ◌+◌, length, All, IfOk, slice_index, slice_index_or, false};
ghost use Rattle.variable_uses.specs.Rows.{key_at, key_of, keys_of};

use event_index::Indexed;
use rapid_text::{Op, OutOfMemory};
use std::alloc::Global;

/// The key of each event: 0 if it accesses no chosen variable. Otherwise the key is odd for a read and even for a write
/// of the place.
pub(crate) fn keys_of(
    alloc: Global,
    indexed: &Indexed,
    places: &[u32],
    chosen: &[bool],
) -> Result<Vec<u32>, OutOfMemory>
    requires places { length places.now ≡ length indexed.now.events }
    requires few { All (λ p. p < 1048576) places.now }
    ensures keys { IfOk result (λ keys. keys.items ≡ keys_of indexed.now.events places.now chosen.now) }
    ensures len { IfOk result (λ keys. length keys.items ≡ length indexed.now.events) }
    ensures most { IfOk result (λ keys. All (λ k. k ≤ 2097152) keys.items) }
{
    let mut keys = Vec::with_capacity(alloc, indexed.len() as usize)?;
    for event in 0..indexed.len() {
        keys.push(key_at(indexed, places, chosen, event))?;
    }
    Ok(keys)
}

// The key of one event.
fn key_at(indexed: &Indexed, places: &[u32], chosen: &[bool], event: u32) -> u32
    requires event { event < length indexed.now.events }
    requires places { length places.now ≡ length indexed.now.events }
    requires few { All (λ p. p < 1048576) places.now }
    ensures key { result ≡ key_at indexed.now.events places.now chosen.now event }
    ensures most { result ≤ 2097152 }
{
    key_of(chosen, places[event as usize], indexed.event(event).op)
}

// The key of an operation at a place.
fn key_of(chosen: &[bool], place: u32, op: Op) -> u32
    requires { place < 1048576 }
    ensures key { result ≡ key_of chosen.now place op }
    ensures most { result ≤ 2097152 }
{
    match op {
        Op::Read(variable) => {
            if is_chosen(chosen, variable) {
                2 * place + 1
            } else {
                0
            }
        }
        Op::Write(variable) => {
            if is_chosen(chosen, variable) {
                2 * place + 2
            } else {
                0
            }
        }
        Op::Acquire(_) | Op::Release(_) | Op::Fork(_) | Op::Join(_) => 0,
    }
}

// Whether the variable is chosen.
fn is_chosen(chosen: &[bool], variable: u32) -> bool
    ensures { result ≡ slice_index_or chosen.now variable false }
{
    match chosen.get(variable as usize) {
        Some(flag) => *flag,
        None => false,
    }
}
