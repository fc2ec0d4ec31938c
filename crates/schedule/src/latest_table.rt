//! The table of the latest events: a list with the first keys, and a map with the others.
ghost use Rattle.std.specs.Prelude.{◌≡◌, Some, None, OnOk, OnErr, IfOk, IfSome, IfNone};
ghost use Rattle.std.specs.HashMap.{get};
ghost use Rattle.std.specs.Map.{lookup};
ghost use Rattle.schedule.specs.Keys.{key_eq};
ghost use Rattle.schedule.specs.LatestTables.{held, changed, IsPlaceOf, SetsLatest, SetsFound};
ghost use Rattle.schedule.specs.declared.latest.Key.{Key};

use crate::latest::{Key, Latest};
use std::alloc::{AllocError, Global};
use std::collections::HashMap;

/// The number of keys in the list. A search finds so few keys faster than a hash does, and one copy moves them all.
const NEAR: usize = 16;

/// The latest event of each variable and lock that a list's events set.
#[derive(Drop)]
pub(crate) struct LatestTable {
    // The first keys. A key keeps its index even if it has no entry any more.
    near: Vec<(Key, Option<Latest>)>,
    // The other keys.
    far: HashMap<Key, Latest>,
}

impl LatestTable {
    /// The empty table. It allocates nothing; later growth uses `alloc`.
    pub(crate) fn new(alloc: Global) -> LatestTable
        ensures { (q : Key) → held result q ≡ None }
    {
        LatestTable {
            near: Vec::new(alloc),
            far: HashMap::new(alloc),
        }
    }

    /// The entry of the key, or None.
    pub(crate) fn get(&self, key: Key) -> Option<Latest>
        ensures { result ≡ held self.now key }
    {
        match place_of(&self.near, key) {
            Some(at) => self.near[at].1,
            None => self.far.get(&key).copied(),
        }
    }

    /// Sets the entry of the key. If memory runs out, all entries stay.
    pub(crate) fn put(&mut self, key: Key, latest: Latest) -> Result<(), AllocError>
        ensures ok { OnOk result (SetsLatest self.old self.new key (Some latest)) }
        ensures err { OnErr result ((q : Key) → held self.new q ≡ held self.old q) }
    {
        if let Some(at) = place_of(&self.near, key) {
            self.near[at] = (key, Some(latest));
            return Ok(());
        }
        if self.near.len() < NEAR {
            self.near.push((key, Some(latest)))?;
            return Ok(());
        }
        put_far(&mut self.far, key, latest)
    }

    /// Sets or removes the entry of the key, if it has one. It needs no memory.
    pub(crate) fn change(&mut self, key: Key, latest: Option<Latest>)
        ensures { SetsLatest self.old self.new key (changed latest (held self.old key)) }
    {
        let Some(at) = place_of(&self.near, key) else {
            change_far(&mut self.far, key, latest);
            return;
        };
        let kept = self.near[at].1;
        self.near[at] = (key, changed(latest, kept));
    }

    /// Frees memory that the table has reserved and does not use. All entries stay.
    pub(crate) fn trim(&mut self)
        ensures { (q : Key) → held self.new q ≡ held self.old q }
    {
        self.far.shrink_to_fit();
    }

    /// A copy of the table, without room for more. Fails if memory runs out.
    pub(crate) fn copied(&self, alloc: Global) -> Result<LatestTable, AllocError>
        ensures { IfOk result (λ copy. (q : Key) → held copy q ≡ held self.now q) }
    {
        let near = Vec::from_slice(alloc, &self.near)?;
        let far = far_copied(alloc, &self.far)?;
        Ok(LatestTable { near, far })
    }
}

/// The index of the key in the list.
fn place_of(near: &[(Key, Option<Latest>)], key: Key) -> Option<usize>
    ensures some { IfSome result (IsPlaceOf near.now key) }
    ensures none { IfNone result (lookup (key_eq key) near.now ≡ None) }
{
    for at in 0..near.len() {
        if near[at].0 == key {
            return Some(at);
        }
    }
    None
}

/// The entry of a key after a change: `latest`, if it had an entry.
fn changed(latest: Option<Latest>, kept: Option<Latest>) -> Option<Latest>
    ensures { result ≡ changed latest kept }
{
    match kept {
        Some(_) => latest,
        None => None,
    }
}

fn put_far(far: &mut HashMap<Key, Latest>, key: Key, latest: Latest) -> Result<(), AllocError>
    ensures ok { OnOk result (SetsFound (get key_eq far.old) (get key_eq far.new) key (Some latest)) }
    ensures err { OnErr result ((q : Key) → get key_eq far.new q ≡ get key_eq far.old q) }
{
    let Ok(_) = far.insert(key, latest) else {
        return Err(AllocError);
    };
    Ok(())
}

fn change_far(far: &mut HashMap<Key, Latest>, key: Key, latest: Option<Latest>)
    ensures { SetsFound (get key_eq far.old) (get key_eq far.new) key (changed latest (get key_eq far.old key)) }
{
    let Some(latest) = latest else {
        let _ = far.remove(&key);
        return;
    };
    if let Some(kept) = far.get_mut(&key) {
        *kept = latest;
    }
}

fn far_copied(alloc: Global, far: &HashMap<Key, Latest>) -> Result<HashMap<Key, Latest>, AllocError>
    ensures { IfOk result (λ copy. (q : Key) → get key_eq copy q ≡ get key_eq far.now q) }
{
    if far.is_empty() {
        return Ok(HashMap::new(alloc));
    }
    let mut copy = far.clone()?;
    copy.shrink_to_fit();
    Ok(copy)
}
