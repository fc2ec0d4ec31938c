//! The latest event of each variable and lock.
ghost use Rattle.std.specs.Prelude.{◌≡◌, ◌≤◌, OnOk, OnErr};
ghost use Rattle.rapid_text.specs.Limits.{event_limit};
ghost use Rattle.schedule.specs.Keys.{key_eq};
ghost use Rattle.schedule.specs.LatestTables.{held, SetsLatest};
ghost use Rattle.schedule.specs.Tables.{event_of, depth_of, covered, lowered, raised, uncovered, stepped, stepped_back, shadow_of_op};
ghost use Rattle.schedule.specs.declared.latest.Key.{Key};

use crate::latest_table::LatestTable;
use rapid_text::Op;
use std::alloc::AllocError;

/// What events set: a write sets its variable, an acquire sets its lock.
#[derive(Clone, Copy, Hash)]
pub(crate) enum Key {
    Variable(u32),
    Lock(u32),
}

impl PartialEq for Key {
    ghost use Rattle.std.specs.Cmp.{partial_equiv_from_equiv};
    ghost use Rattle.schedule.specs.Keys.{key_eq, key_eq_equiv};

    ghost eq = { key_eq };

    ghost laws = { partial_equiv_from_equiv key_eq_equiv };

    fn eq(&self, other: &Key) -> bool {
        match (*self, *other) {
            (Key::Variable(one), Key::Variable(other)) | (Key::Lock(one), Key::Lock(other)) => {
                one == other
            },
            _ => false,
        }
    }
}

impl Eq for Key {
    ghost use Rattle.schedule.specs.Keys.{key_eq_equiv};

    ghost laws = { key_eq_equiv };
}

/// The last event that set a key, and how often the key was set minus how often it was freed.
#[derive(Clone, Copy)]
pub(crate) struct Latest {
    pub(crate) event: u32,
    pub(crate) depth: u32,
}

/// The last event that set the key.
pub(crate) fn latest_event(latest: &LatestTable, key: Key) -> Option<u32>
    ensures { result ≡ event_of (held latest.now key) }
{
    match latest.get(key) {
        Some(kept) => Some(kept.event),
        None => None,
    }
}

/// The event that the operation will shadow: the last one that set the operation's key.
pub(crate) fn shadow_of(latest: &LatestTable, op: Op) -> Option<u32>
    ensures { result ≡ shadow_of_op (λ q. event_of (held latest.now q)) op }
{
    match op {
        Op::Write(variable) => latest_event(latest, Key::Variable(variable)),
        Op::Acquire(lock) => latest_event(latest, Key::Lock(lock)),
        Op::Read(_) | Op::Release(_) | Op::Fork(_) | Op::Join(_) => None,
    }
}

fn cover(latest: &mut LatestTable, key: Key, event: u32) -> Result<(), AllocError>
    requires { (q : Key) → depth_of (held latest.old q) ≤ event_limit }
    ensures ok { OnOk result (SetsLatest latest.old latest.new key (covered event (held latest.old key))) }
    ensures err { OnErr result ((q : Key) → held latest.new q ≡ held latest.old q) }
{
    let depth = match latest.get(key) {
        Some(kept) => kept.depth,
        None => 0,
    };
    let kept = Latest {
        event,
        depth: depth + 1,
    };
    latest.put(key, kept)
}

fn lower(latest: &mut LatestTable, key: Key)
    ensures { SetsLatest latest.old latest.new key (lowered (held latest.old key)) }
{
    let kept = latest.get(key);
    latest.change(key, lowered(kept));
}

/// The entry of a lock after one more release.
fn lowered(kept: Option<Latest>) -> Option<Latest>
    ensures { result ≡ lowered kept }
{
    let mut kept = kept?;
    kept.depth = kept.depth.saturating_sub(1);
    Some(kept)
}

fn raise(latest: &mut LatestTable, key: Key)
    requires { (q : Key) → depth_of (held latest.old q) ≤ event_limit }
    ensures { SetsLatest latest.old latest.new key (raised (held latest.old key)) }
{
    let kept = latest.get(key);
    latest.change(key, raised(kept));
}

/// The entry of a lock after one release less.
fn raised(kept: Option<Latest>) -> Option<Latest>
    requires { depth_of kept ≤ event_limit }
    ensures { result ≡ raised kept }
{
    let mut kept = kept?;
    kept.depth += 1;
    Some(kept)
}

fn uncover(latest: &mut LatestTable, key: Key, shadow: Option<u32>)
    ensures { SetsLatest latest.old latest.new key (uncovered shadow (held latest.old key)) }
{
    let kept = latest.get(key);
    latest.change(key, uncovered(shadow, kept));
}

/// The entry of a key after its last event is removed; that event shadows `shadow`.
fn uncovered(shadow: Option<u32>, kept: Option<Latest>) -> Option<Latest>
    ensures { result ≡ uncovered shadow kept }
{
    let event = shadow?;
    let kept = kept?;
    Some(Latest {
        event,
        depth: kept.depth.saturating_sub(1),
    })
}

/// Sets or frees the key of the operation.
pub(crate) fn step(latest: &mut LatestTable, op: Op, event: u32) -> Result<(), AllocError>
    requires { (q : Key) → depth_of (held latest.old q) ≤ event_limit }
    ensures ok { OnOk result ((q : Key) → held latest.new q ≡ stepped op event q (held latest.old q)) }
    ensures err { OnErr result ((q : Key) → held latest.new q ≡ held latest.old q) }
{
    match op {
        Op::Write(variable) => cover(latest, Key::Variable(variable), event),
        Op::Acquire(lock) => cover(latest, Key::Lock(lock), event),
        Op::Release(lock) => {
            lower(latest, Key::Lock(lock));
            Ok(())
        }
        Op::Read(_) | Op::Fork(_) | Op::Join(_) => Ok(()),
    }
}

/// Undoes the operation, whose event shadows `shadow`.
pub(crate) fn step_back(latest: &mut LatestTable, op: Op, shadow: Option<u32>)
    requires { (q : Key) → depth_of (held latest.old q) ≤ event_limit }
    ensures { (q : Key) → held latest.new q ≡ stepped_back op shadow q (held latest.old q) }
{
    match op {
        Op::Write(variable) => uncover(latest, Key::Variable(variable), shadow),
        Op::Acquire(lock) => uncover(latest, Key::Lock(lock), shadow),
        Op::Release(lock) => raise(latest, Key::Lock(lock)),
        Op::Read(_) | Op::Fork(_) | Op::Join(_) => {}
    }
}
