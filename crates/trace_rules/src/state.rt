//! What the events so far did to each lock and each thread.
ghost use Rattle.std.specs.Prelude.{◌≡◌, ◌<◌, ◌+◌, length, take, IfOk, None};
ghost use Rattle.trace_rules.specs.Rules.{breach_at};
ghost use Rattle.trace_rules.specs.Tables.{IsStateOf, AreHoldsOf, AreLivesOf};

use crate::hold::{self, Hold};
use crate::life::{self, Life};
use crate::refusal::RuleCause;
use rapid_text::{Event, Op, RawTrace};
use std::alloc::{AllocError, Global};

/// The hold of each lock and the life of each thread, indexed by their numbers.
#[derive(Drop)]
pub(crate) struct State {
    pub(crate) holds: Vec<Hold>,
    pub(crate) lives: Vec<Life>,
}

impl State {
    /// The state before the first event. Fails if memory runs out.
    pub(crate) fn new(alloc: Global, raw: &RawTrace) -> Result<State, AllocError>
        ensures { IfOk result (λ state. IsStateOf raw.now 0 state) }
    {
        Ok(State {
            holds: vec![in alloc; hold::free(); raw.locks() as usize]?,
            lives: vec![in alloc; life::unborn(); raw.threads() as usize]?,
        })
    }

    /// The first rule that event `at` breaks.
    pub(crate) fn breach(&self, raw: &RawTrace, at: u32) -> Option<RuleCause>
        requires place { at < length raw.now.events }
        requires tables { IsStateOf raw.now at self.now }
        ensures { result ≡ breach_at raw.now.events at }
    {
        let event = raw.event(at);
        if self.lives[event.thread as usize].was_joined {
            return Some(RuleCause::AfterJoin);
        }
        match event.op {
            Op::Read(_) => None,
            Op::Write(_) => None,
            Op::Acquire(lock) => hold::breach_of_acquire(self.holds[lock as usize], event.thread),
            Op::Release(lock) => hold::breach_of_release(self.holds[lock as usize], event.thread),
            Op::Fork(thread) => {
                life::breach_of_fork(self.lives[thread as usize], thread, event.thread)
            }
            Op::Join(thread) => life::breach_of_join(thread, event.thread),
        }
    }

    /// Moves past event `at`, which breaks no rule.
    pub(crate) fn apply(&mut self, raw: &RawTrace, at: u32)
        requires place { at < length raw.now.events }
        requires room { at < u32.MAX }
        requires kept { breach_at raw.now.events at ≡ None }
        requires tables { IsStateOf raw.now at self.old }
        ensures { IsStateOf raw.now (at + 1) self.new }
    {
        apply_to_locks(&mut self.holds, raw, at);
        apply_to_threads(&mut self.lives, raw, at);
    }
}

/// Updates the hold of the lock that the event acquires or releases.
fn apply_to_locks(holds: &mut Vec<Hold>, raw: &RawTrace, at: u32)
    requires place { at < length raw.now.events }
    requires room { at < u32.MAX }
    requires kept { breach_at raw.now.events at ≡ None }
    requires locks { length holds.old.items ≡ length raw.now.locks }
    requires tables { AreHoldsOf (take at raw.now.events) holds.old.items }
    ensures locks { length holds.new.items ≡ length raw.now.locks }
    ensures tables { AreHoldsOf (take (at + 1) raw.now.events) holds.new.items }
{
    let event = raw.event(at);
    match event.op {
        Op::Acquire(lock) => {
            let hold = holds[lock as usize];
            holds[lock as usize] = hold::taken(hold, event.thread);
        }
        Op::Release(lock) => {
            let hold = holds[lock as usize];
            holds[lock as usize] = hold::let_go(hold, event.thread);
        }
        Op::Read(_) | Op::Write(_) | Op::Fork(_) | Op::Join(_) => {}
    }
}

/// Records the event in its thread's life, and in the life of the thread that it forks or joins.
fn apply_to_threads(lives: &mut Vec<Life>, raw: &RawTrace, at: u32)
    requires place { at < length raw.now.events }
    requires threads { length lives.old.items ≡ length raw.now.threads }
    requires tables { AreLivesOf (take at raw.now.events) lives.old.items }
    ensures threads { length lives.new.items ≡ length raw.now.threads }
    ensures tables { AreLivesOf (take (at + 1) raw.now.events) lives.new.items }
{
    let event = raw.event(at);
    lives[event.thread as usize].has_event = true;
    match event.op {
        Op::Fork(thread) => lives[thread as usize].was_forked = true,
        Op::Join(thread) => lives[thread as usize].was_joined = true,
        Op::Read(_) | Op::Write(_) | Op::Acquire(_) | Op::Release(_) => {}
    }
}
