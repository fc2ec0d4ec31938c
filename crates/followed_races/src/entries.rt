//! An entry: what a line of `record/confirm` reports about a race.
ghost use Rattle.std.specs.Prelude.{◌≡◌, IfOk};
ghost use Rattle.serde_json.specs.View.{view};
ghost use Rattle.followed_races.specs.Entries.{IsSaid};

use crate::members::{flag_of, number_at, text_at, text_of};
use rapid_text::OutOfMemory;
use serde_json::Value;
use std::alloc::Global;

/// What a line reports about a race that was followed on the real program, once with each access first. Texts and
/// numbers are those of the line. If a text is missing, it is empty.
#[derive(Drop)]
pub struct Followed {
    /// The event number of the access A, in the trace that was followed.
    pub first_event: u64,
    /// The event number of the access B.
    pub second_event: u64,
    /// The location of A.
    pub first_location: Vec<u8>,
    /// The location of B.
    pub second_location: Vec<u8>,
    /// `stands` or `departed`.
    pub ended: Vec<u8>,
    /// What `record/follow` printed about the race.
    pub text: Vec<u8>,
    /// Whether the two accesses were on the same memory; None if the line does not say so.
    pub same_memory: Option<bool>,
    /// How the program ended with A first.
    pub first: Vec<u8>,
    /// How the program ended with B first.
    pub second: Vec<u8>,
    /// Whether the order matters; None if that is not known.
    pub matters: Option<bool>,
    /// Why `record/confirm` says so.
    pub why: Vec<u8>,
}

/// The entry for the JSON value of a line.
pub(crate) fn entry_of(alloc: Global, value: &Value) -> Result<Followed, OutOfMemory>
    ensures { IfOk result (IsSaid (view value.now)) }
{
    Ok(Followed {
        first_event: number_at(value, "events", 0),
        second_event: number_at(value, "events", 1),
        first_location: copied(alloc, text_at(value, "locations", 0))?,
        second_location: copied(alloc, text_at(value, "locations", 1))?,
        ended: copied(alloc, text_of(value, "ended"))?,
        text: copied(alloc, text_of(value, "text"))?,
        same_memory: flag_of(value, "same_memory"),
        first: copied(alloc, text_of(value, "first"))?,
        second: copied(alloc, text_of(value, "second"))?,
        matters: flag_of(value, "matters"),
        why: copied(alloc, text_of(value, "why"))?,
    })
}

/// A copy of the bytes.
fn copied(alloc: Global, bytes: &[u8]) -> Result<Vec<u8>, OutOfMemory>
    ensures { IfOk result (λ copy. copy.items ≡ bytes.now) }
{
    Ok(Vec::from_slice(alloc, bytes)?)
}
