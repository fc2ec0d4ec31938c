//! A row for each pattern.
ghost use Rattle.std.specs.Prelude.{◌≡◌, ◌≢◌, ℕ, IfSome, None, OnOk, Some};
ghost use Rattle.deadlock_triage.specs.Patterns.{locations_of};
ghost use Rattle.deadlock_triage.specs.Rows.{IsAdded, text_at};

use crate::outcomes::Verdict;
use crate::patterns::Pattern;
use indexmap::IndexSet;
use rapid_text::{OutOfMemory, TextKeyed};
use std::alloc::Global;

/// The locations of each pattern, in the order of their rows. A stranger chooses the locations, so the key of their hash
/// is made of the trace's names and locations.
pub(crate) type Patterns = IndexSet<Vec<u32>, TextKeyed>;

/// The verdicts so far, and for each the locations of its pattern.
#[derive(Drop)]
pub(crate) struct Rows {
    pub(crate) patterns: Patterns,
    pub(crate) verdicts: Vec<Verdict>,
}

// The four locations of a pattern.
fn locations_of(pattern: Pattern) -> [u32; 4]
    ensures { result ≡ locations_of pattern }
{
    [
        pattern.least.hold,
        pattern.least.request,
        pattern.other.hold,
        pattern.other.request,
    ]
}

/// The index of the pattern, or None if it is new.
pub(crate) fn index_of(patterns: &Patterns, pattern: Pattern) -> Option<usize>
    ensures some { IfSome result (λ at. text_at patterns.now.keys at ≡ Some (locations_of pattern)) }
    ensures none { result ≡ None → (k : ℕ) → text_at patterns.now.keys k ≢ Some (locations_of pattern) }
{
    let locations = locations_of(pattern);
    patterns.get_index_of(locations.as_slice())
}

/// Adds a pattern that is new.
pub(crate) fn add(
    patterns: &mut Patterns,
    alloc: Global,
    pattern: Pattern,
) -> Result<(), OutOfMemory>
    requires { (k : ℕ) → text_at patterns.old.keys k ≢ Some (locations_of pattern) }
    ensures { OnOk result (IsAdded (locations_of pattern) patterns.old.keys patterns.new.keys) }
{
    let locations = locations_of(pattern);
    let owned = Vec::from_slice(alloc, locations.as_slice())?;
    patterns.insert_full(owned)?;
    Ok(())
}
