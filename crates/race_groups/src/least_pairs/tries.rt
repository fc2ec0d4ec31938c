//! The least open pairs of a pair of places, by variable and two threads.
ghost use Rattle.std.specs.Prelude.{◌≡◌, ◌≢◌, ◌⊎◌, ℕ, ◌<◌, ◌≤◌, ◌↔◌, All, IfSome, IsTrue, None, OnOk, length, slice_index_or};
ghost use Rattle.race_groups.specs.least_pairs.Joining.{AreTriesJoined};
ghost use Rattle.race_groups.specs.least_pairs.Taking.{AreTries, HoldsUp, IsTryNoted};
ghost use Rattle.race_groups.specs.least_pairs.Order.{IsAhead, IsUpTo};
ghost use Rattle.race_groups.specs.declared.least_pairs.tries.Try.{Try as Other};

use rapid_text::OutOfMemory;

/// A variable, and the threads of the earlier and of the later access.
#[derive(Clone, Copy, PartialEq, Eq, Debug)]
pub struct Between {
    /// The number of the variable.
    pub variable: u32,
    /// The thread of the earlier access.
    pub earlier: u32,
    /// The thread of the later access.
    pub later: u32,
}

/// A pair of events: the later event, and then the earlier one.
pub type Pair = (u32, u32);

/// The least open pair of a variable and two threads.
#[derive(Clone, Copy, PartialEq, Eq, Debug)]
pub struct Try {
    /// The variable and the two threads.
    pub between: Between,
    /// The pair.
    pub pair: Pair,
}

/// Whether the first pair comes before the second.
pub(crate) fn is_less(first: Pair, second: Pair) -> bool
    ensures { IsTrue result ↔ IsAhead first second }
{
    first.0 < second.0 || (first.0 == second.0 && first.1 < second.1)
}

/// The lesser of two pairs, or the one that exists.
pub(crate) fn lesser(one: Option<Pair>, other: Option<Pair>) -> Option<Pair>
    ensures either { (result ≡ one) ⊎ (result ≡ other) }
    ensures one { (p : ℕ × ℕ) → HoldsUp p one → HoldsUp p result }
    ensures other { (p : ℕ × ℕ) → HoldsUp p other → HoldsUp p result }
{
    let (Some(first), Some(second)) = (one, other) else {
        return one.or(other);
    };
    if is_less(first, second) { one } else { other }
}

/// Adds the open pairs of a list.
pub(crate) fn join_tries(tries: &mut Vec<Try>, most: usize, part: &[Try]) -> Result<(), OutOfMemory>
    requires tries { AreTries most tries.old.items }
    requires part { AreTries most part.now }
    requires most { 0 < most }
    ensures { OnOk result (AreTriesJoined most part.now tries.old.items tries.new.items) }
{
    for at in 0..part.len() {
        note_try(tries, most, part[at])?;
    }
    Ok(())
}

/// Adds an open pair. Keeps the least pair of each variable and two threads: the first `most` such pairs.
pub(crate) fn note_try(tries: &mut Vec<Try>, most: usize, new: Try) -> Result<(), OutOfMemory>
    requires tries { AreTries most tries.old.items }
    requires most { 0 < most }
    ensures { OnOk result (IsTryNoted most new tries.old.items tries.new.items) }
{
    if let Some(at) = place_of(tries.as_slice(), new.between) {
        if is_less(tries[at].pair, new.pair) {
            return Ok(());
        }
        tries.remove(at);
    }
    let at = place_for(tries.as_slice(), new.pair);
    if at >= most {
        return Ok(());
    }
    tries.insert(at, new)?;
    tries.truncate(most);
    Ok(())
}

// The index of the try of the variable and the two threads, or None.
fn place_of(tries: &[Try], between: Between) -> Option<usize>
    ensures within { IfSome result (λ at. at < length tries.now) }
    ensures found { IfSome result (λ at. (d : Other) → (slice_index_or tries.now at d).between ≡ between) }
    ensures none { result ≡ None → All (λ (t : Other). t.between ≢ between) tries.now }
{
    tries.iter().position(|one| one.between == between)
}

// The index of the first try after the pair, or the end.
fn place_for(tries: &[Try], pair: Pair) -> usize
    ensures within { result ≤ length tries.now }
    ensures low { (k : ℕ) (d : Other) → k < result → IsUpTo (slice_index_or tries.now k d).pair pair }
    ensures high { result < length tries.now → (d : Other) → IsUpTo pair (slice_index_or tries.now result d).pair }
{
    tries
        .iter()
        .position(|one| is_less(pair, one.pair))
        .unwrap_or(tries.len())
}
