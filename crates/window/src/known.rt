//! The summary of a trace that was read: which threads were forked, have an event, or were joined, and which locks
//! are held.
ghost use Rattle.std.specs.Prelude.{◌≡◌, ◌≤◌, [], length, IfOk, OnOk, OnErr};
ghost use Rattle.window.specs.Heads.{AreThreadsOf, Grows, HasMore, grown_names, level_names, names_of, past_of};
ghost use Rattle.window.specs.Streams.{HoldsIn};
ghost use Rattle.window.specs.Tables.{acts, forks, joins};

use crate::leaving::held_text;
use crate::levels::{Grown, Levels, Names, no_names, note_levels, with_found};
use crate::touching::{forks_in, joins_in, threads_in};
use rapid_text::{MAX_THREADS, OutOfMemory};
use std::alloc::Global;
use trace_rules::Trace;

/// The names of the threads that were forked, the threads that have an event, and the threads that were joined. A text
/// of acquires takes the locks that are held, and `holds` is their number.
#[derive(Drop)]
pub(crate) struct Known {
    pub(crate) forked: Levels,
    pub(crate) seen: Levels,
    pub(crate) joined: Levels,
    pub(crate) held: Vec<u8>,
    pub(crate) holds: usize,
}

// The updates of the summary after a piece.
#[derive(Drop)]
struct Later {
    forked: Grown,
    seen: Grown,
    joined: Grown,
    held: Vec<u8>,
    holds: usize,
}

impl Known {
    /// The summary before the first event.
    pub(crate) fn begin(alloc: Global) -> Known
        ensures forked { level_names result.forked ≡ [] }
        ensures seen { level_names result.seen ≡ [] }
        ensures joined { level_names result.joined ≡ [] }
        ensures held { result.held.items ≡ [] }
        ensures holds { result.holds ≡ 0 }
    {
        Known {
            forked: Levels::begin(alloc),
            seen: Levels::begin(alloc),
            joined: Levels::begin(alloc),
            held: Vec::new(alloc),
            holds: 0,
        }
    }

    /// The names of all threads.
    pub(crate) fn threads(&self, alloc: Global) -> Result<Names, OutOfMemory>
        ensures { IfOk result (λ all. AreThreadsOf (past_of self.now) (names_of all)) }
    {
        let mut all = no_names(alloc, self.seen.keyed());
        note_levels(&mut all, alloc, self.seen.levels.as_slice())?;
        note_levels(&mut all, alloc, self.forked.levels.as_slice())?;
        note_levels(&mut all, alloc, self.joined.levels.as_slice())?;
        Ok(all)
    }

    /// Whether more threads were forked, have an event, or were joined than a trace may have.
    pub(crate) fn is_wide(&self) -> bool {
        let forked = self.forked.count();
        let seen = self.seen.count();
        let joined = self.joined.count();
        forked.max(seen).max(joined) > MAX_THREADS
    }

    /// Updates the summary for this trace, whose events from `from` on are new. If memory runs out, nothing changes.
    pub(crate) fn go_on(
        &mut self,
        alloc: Global,
        trace: &Trace,
        from: u32,
    ) -> Result<(), OutOfMemory>
        requires { from ≤ length trace.now.events }
        ensures forked { OnOk result (HasMore level_names self.old.forked self.new.forked (forks trace.now from)) }
        ensures seen { OnOk result (HasMore level_names self.old.seen self.new.seen (acts trace.now from)) }
        ensures joined { OnOk result (HasMore level_names self.old.joined self.new.joined (joins trace.now from)) }
        ensures held { OnOk result (HoldsIn trace.now self.new.held.items self.new.holds) }
        ensures past { OnErr result (past_of self.new ≡ past_of self.old) }
        ensures holds { OnErr result (self.new.holds ≡ self.old.holds) }
    {
        let later = self.after(alloc, trace, from)?;
        self.take_in(later)?;
        Ok(())
    }

    // The updates for this trace.
    fn after(&self, alloc: Global, trace: &Trace, from: u32) -> Result<Later, OutOfMemory>
        requires { from ≤ length trace.now.events }
        ensures forked { IfOk result (λ later. Grows self.now.forked later.forked (forks trace.now from)) }
        ensures seen { IfOk result (λ later. Grows self.now.seen later.seen (acts trace.now from)) }
        ensures joined { IfOk result (λ later. Grows self.now.joined later.joined (joins trace.now from)) }
        ensures held { IfOk result (λ later. HoldsIn trace.now later.held.items later.holds) }
    {
        let to = trace.raw().len();
        let forks = forks_in(alloc, trace, from, to)?;
        let threads = threads_in(alloc, trace, from, to)?;
        let joins = joins_in(alloc, trace, from, to)?;
        let (held, holds) = held_text(alloc, trace)?;
        Ok(Later {
            forked: with_found(alloc, trace.raw(), &self.forked, forks.as_slice())?,
            seen: with_found(alloc, trace.raw(), &self.seen, threads.as_slice())?,
            joined: with_found(alloc, trace.raw(), &self.joined, joins.as_slice())?,
            held,
            holds,
        })
    }

    // Applies the updates. It reserves memory first, so it never stops halfway.
    fn take_in(&mut self, later: Later) -> Result<(), OutOfMemory>
        ensures forked { OnOk result (level_names self.new.forked ≡ grown_names self.old.forked later.forked) }
        ensures seen { OnOk result (level_names self.new.seen ≡ grown_names self.old.seen later.seen) }
        ensures joined { OnOk result (level_names self.new.joined ≡ grown_names self.old.joined later.joined) }
        ensures held { OnOk result ((self.new.held.items ≡ later.held.items) × (self.new.holds ≡ later.holds)) }
        ensures past { OnErr result (past_of self.new ≡ past_of self.old) }
        ensures holds { OnErr result (self.new.holds ≡ self.old.holds) }
    {
        self.forked.make_room()?;
        self.seen.make_room()?;
        self.joined.make_room()?;
        let Later {
            forked,
            seen,
            joined,
            held,
            holds,
        } = later;
        self.forked.put(forked);
        self.seen.put(seen);
        self.joined.put(joined);
        self.held = held;
        self.holds = holds;
        Ok(())
    }
}
