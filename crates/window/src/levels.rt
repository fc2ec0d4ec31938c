//! Names of threads in levels: tables that are made once, and joined when there are many.
ghost use Rattle.std.specs.Prelude.{◌≡◌, ◌&&◌, ◌<◌, ◌≤◌, [], flat_map, length, not, bytes_eq, vec_len, vec_capacity, IfOk, OnOk};
ghost use Rattle.window.specs.HeadText.{first_name, first_outside, place_outside};
ghost use Rattle.window.specs.Heads.{Grows, HasMore, HaveSame, both_names, grown_names, level_names, names_of, with_new};
ghost use Rattle.window.specs.Streams.{is_named};
ghost use Rattle.window.specs.Tables.{found_in};

use indexmap::IndexSet;
use rapid_text::{OutOfMemory, RawTrace, TextKeyed};
use std::alloc::Global;
use std::hash::{BuildHasher, Hasher};

/// A set of names.
pub(crate) type Names = IndexSet<Vec<u8>, TextKeyed>;

/// Names in levels, each name in one level. A table does not grow once it is a level. Its hashers are keyed by all
/// texts that were read before, so nobody can choose names that collide there.
#[derive(Drop)]
pub(crate) struct Levels {
    pub(crate) levels: Vec<Names>,
}

/// The number of levels that stay, and the level that replaces the others.
#[derive(Drop)]
pub(crate) struct Grown {
    pub(crate) keep: usize,
    pub(crate) level: Names,
}

// No names, with these hashers.
pub(crate) fn no_names(alloc: Global, keyed: TextKeyed) -> Names
    ensures { names_of result ≡ [] }
{
    IndexSet::with_hasher(alloc, keyed)
}

// Whether `names` has this name.
fn is_in(names: &Names, name: &[u8]) -> bool
    ensures { result ≡ is_named (names_of names.now) name.now }
{
    names.contains(name)
}

/// Whether a level has the name.
pub(crate) fn is_noted(names: &Levels, name: &[u8]) -> bool
    ensures { result ≡ is_named (level_names names.now) name.now }
{
    for at in 0..names.levels.len() {
        if is_in(&names.levels[at], name) {
            return true;
        }
    }
    false
}

// Adds the name, if it is new.
fn note(names: &mut Names, alloc: Global, name: &[u8]) -> Result<(), OutOfMemory>
    ensures { OnOk result (names_of names.new ≡ with_new (names_of names.old) name.now) }
{
    let owned = Vec::from_slice(alloc, name)?;
    names.insert(owned)?;
    Ok(())
}

// Adds the name, if `asked` is true.
fn note_if(names: &mut Names, alloc: Global, asked: bool, name: &[u8]) -> Result<(), OutOfMemory>
    ensures { OnOk result (HasMore names_of names.old names.new (λ other. asked && bytes_eq other name.now)) }
{
    if !asked {
        return Ok(());
    }
    note(names, alloc, name)?;
    Ok(())
}

// Adds these names.
fn note_all(names: &mut Names, alloc: Global, others: &Names) -> Result<(), OutOfMemory>
    ensures { OnOk result (HasMore names_of names.old names.new (is_named (names_of others.now))) }
{
    for at in 0..others.len() {
        note_if(names, alloc, true, others[at].as_slice())?;
    }
    Ok(())
}

/// Adds the names of the levels.
pub(crate) fn note_levels(
    names: &mut Names,
    alloc: Global,
    levels: &[Names],
) -> Result<(), OutOfMemory>
    ensures { OnOk result (HasMore names_of names.old names.new (is_named (flat_map names_of levels.now))) }
{
    for at in 0..levels.len() {
        note_all(names, alloc, &levels[at])?;
    }
    Ok(())
}

// Whether a thread was found and no level has its name.
fn is_new(known: &Levels, found: bool, name: &[u8]) -> bool
    ensures { result ≡ (found && not (is_named (level_names known.now) name.now)) }
{
    found && !is_noted(known, name)
}

// Adds the names of the trace's found threads that no level has.
fn note_found(
    names: &mut Names,
    alloc: Global,
    raw: &RawTrace,
    known: &Levels,
    found: &[bool],
) -> Result<(), OutOfMemory>
    requires { length found.now ≡ length raw.now.threads }
    ensures { OnOk result (HasMore (both_names known.now) names.old names.new (found_in raw.now found.now)) }
{
    for thread in 0..raw.threads() {
        let name = raw.thread_name(thread);
        let new = is_new(known, found[thread as usize], name);
        note_if(names, alloc, new, name)?;
    }
    Ok(())
}

// The number of levels that stay if a level of `names` names follows. From the last one back, each level with at most
// twice as many names as all after it is joined with the new one. So there are few levels, and no name is copied
// often.
fn kept_levels(known: &Levels, names: usize) -> usize
    ensures { result ≤ length known.now.levels.items }
{
    let count = known.levels.len();
    let mut after = names;
    for back in 0..count {
        let at = count - 1 - back;
        let size = known.levels[at].len();
        if size > after.saturating_mul(2) {
            return at + 1;
        }
        after = after.saturating_add(size);
    }
    0
}

// The hashers that are keyed by each name of what was read before and of this trace.
fn keyed_by(known: &Levels, raw: &RawTrace) -> TextKeyed {
    let mut both = known.keyed().build_hasher();
    both.write_u64(raw.keyed().build_hasher().finish());
    TextKeyed::of(&both.finish().to_le_bytes())
}

// The level with these names and those of the levels that it replaces. Names stay in their order.
fn joined(
    alloc: Global,
    keyed: TextKeyed,
    known: &Levels,
    names: &Names,
) -> Result<Grown, OutOfMemory>
    ensures { IfOk result (λ grown. HaveSame (grown_names known.now grown) (both_names known.now names.now)) }
{
    let keep = kept_levels(known, names.len());
    let mut level = no_names(alloc, keyed);
    note_levels(&mut level, alloc, &known.levels[keep..])?;
    note_all(&mut level, alloc, names)?;
    Ok(Grown { keep, level })
}

/// The update of the known levels for the names of the found threads.
pub(crate) fn with_found(
    alloc: Global,
    raw: &RawTrace,
    known: &Levels,
    found: &[bool],
) -> Result<Grown, OutOfMemory>
    requires { length found.now ≡ length raw.now.threads }
    ensures { IfOk result (λ grown. Grows known.now grown (found_in raw.now found.now)) }
{
    let keyed = keyed_by(known, raw);
    let mut names = no_names(alloc, keyed);
    note_found(&mut names, alloc, raw, known, found)?;
    let grown = joined(alloc, keyed, known, &names)?;
    Ok(grown)
}

/// The first of the names, or the empty text if there are no names.
pub(crate) fn first_of(names: &Levels) -> &[u8]
    ensures { result.now ≡ first_name (level_names names.now) }
{
    for at in 0..names.levels.len() {
        let level = &names.levels[at];
        if !level.is_empty() {
            return level[0].as_slice();
        }
    }
    &[]
}

// The index of the first name that no other level has; the number of names if other levels have each.
fn outside_at(names: &Names, others: &Levels) -> usize
    ensures { result ≡ place_outside (names_of names.now) (level_names others.now) }
{
    for at in 0..names.len() {
        if !is_noted(others, names[at].as_slice()) {
            return at;
        }
    }
    names.len()
}

/// The first of the names that is not among the others; the first of all if each is.
pub(crate) fn first_other<'a>(names: &'a Levels, others: &Levels) -> &'a [u8]
    ensures { result.now ≡ first_outside (level_names names.now) (level_names others.now) }
{
    for at in 0..names.levels.len() {
        let level = &names.levels[at];
        let place = outside_at(level, others);
        if place < level.len() {
            return level[place].as_slice();
        }
    }
    first_of(names)
}

impl Levels {
    /// No names.
    pub(crate) fn begin(alloc: Global) -> Levels
        ensures { level_names result ≡ [] }
    {
        Levels {
            levels: Vec::new(alloc),
        }
    }

    /// The hashers of the last level. Each piece makes a level, so all that was read is part of their key.
    pub(crate) fn keyed(&self) -> TextKeyed {
        match self.levels.last() {
            Some(level) => *level.hasher(),
            None => TextKeyed::of(&[]),
        }
    }

    /// The number of names.
    pub(crate) fn count(&self) -> usize {
        let mut count = 0_usize;
        for level in self.levels.iter() {
            count = count.saturating_add(level.len());
        }
        count
    }

    /// Reserves memory for one more level.
    pub(crate) fn make_room(&mut self) -> Result<(), OutOfMemory>
        ensures same { self.new.levels.items ≡ self.old.levels.items }
        ensures room { OnOk result (vec_len self.new.levels < vec_capacity self.new.levels) }
    {
        self.levels.reserve(1)?;
        Ok(())
    }

    /// Puts the level in. It needs no memory.
    pub(crate) fn put(&mut self, grown: Grown)
        requires { vec_len self.old.levels < vec_capacity self.old.levels }
        ensures { level_names self.new ≡ grown_names self.old grown }
    {
        let Grown { keep, level } = grown;
        self.levels.truncate(keep);
        let _ = self.levels.push(level);
    }
}
