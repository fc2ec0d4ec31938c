//! Accesses as objects of JSON.
ghost use Rattle.std.specs.Prelude.{◌≡◌, ◌<◌, ◌∷◌, [], codes, IfOk, length};
ghost use Rattle.rapid_text.specs.Canonical.{name_at};
ghost use Rattle.rapid_text.specs.Recording.{IsNamedOp};
ghost use Rattle.serde_json.specs.View.{view};
ghost use Rattle.race_triage.specs.Texts.{held_locks};
ghost use Rattle.race_parts.specs.Made.{MadeAs};
ghost use Rattle.triage_report.specs.Appending.{AppendedViews, FilledBut};
ghost use Rattle.triage_report.specs.json.Objects.{access_at, accesses, lock_names, named_object, op_name, op_word};

use crate::json::members::{object_with, put_number, put_text, put_word, text_of};
use event_index::Indexed;
use must_order::Analysis;
use rapid_text::{Op, OutOfMemory, RawTrace};
use serde_json::{Map, Value};
use std::alloc::{AllocError, Global};

/// The list of the two accesses of a pair, the earlier first.
pub(crate) fn accesses_of(
    alloc: Global,
    analysis: &Analysis<'_>,
    first: u32,
    second: u32,
) -> Result<Value, OutOfMemory>
    ensures { MadeAs result (accesses analysis.now first second) }
{
    let mut both = Vec::new(alloc);
    push_access(&mut both, analysis, first)?;
    push_access(&mut both, analysis, second)?;
    Ok(Value::Array(both))
}

/// Adds the access at this event, if the trace has such an event.
fn push_access(
    both: &mut Vec<Value>,
    analysis: &Analysis<'_>,
    event: u32,
) -> Result<(), OutOfMemory>
    ensures { AppendedViews result both.old both.new (access_at analysis.now event) }
{
    if event >= analysis.indexed().len() {
        return Ok(());
    }
    let access = access_of(*both.allocator(), analysis, event)?;
    both.push(access)?;
    Ok(())
}

/// The access at this event, as an object.
fn access_of(alloc: Global, analysis: &Analysis<'_>, event: u32) -> Result<Value, OutOfMemory>
    requires event { event < length analysis.now.events }
    ensures { IfOk result (λ access. view access ∷ [] ≡ access_at analysis.now event) }
{
    let holds = locks_of(alloc, analysis, event)?;
    let raw = analysis.indexed().trace().raw();
    let found = raw.event(event);
    let names = Names {
        event,
        thread: raw.thread_name(found.thread),
        operation: word_of(found.op),
        variable: name_of(raw, found.op),
        location: raw.location(event),
    };
    let access = named(alloc, names, holds)?;
    Ok(access)
}

/// The members of an access, except the locks that its thread holds.
#[derive(Clone, Copy)]
struct Names<'a> {
    event: u32,
    thread: &'a [u8],
    operation: &'static str,
    variable: &'a [u8],
    location: &'a [u8],
}

/// The object of an access with these members and these locks.
fn named(alloc: Global, names: Names<'_>, holds: Value) -> Result<Value, AllocError>
    ensures { MadeAs result (named_object names.entry (view holds)) }
{
    let mut members = Map::new(alloc);
    put_names(&mut members, alloc, names)?;
    object_with(alloc, members, "holds", holds)
}

/// Puts all members of an access, except the locks that its thread holds.
fn put_names(
    members: &mut Map<String, Value>,
    alloc: Global,
    names: Names<'_>,
) -> Result<(), AllocError>
    requires { members.old.entries ≡ [] }
    ensures { FilledBut result members.new (codes "holds") (named_object names.entry) }
{
    put_number(members, alloc, "event", u64::from(names.event))?;
    put_text(members, alloc, "thread", names.thread)?;
    put_word(members, alloc, "operation", names.operation)?;
    put_text(members, alloc, "variable", names.variable)?;
    put_text(members, alloc, "location", names.location)?;
    Ok(())
}

/// The list of the names of the locks that the thread holds before the event.
fn locks_of(alloc: Global, analysis: &Analysis<'_>, event: u32) -> Result<Value, OutOfMemory>
    requires event { event < length analysis.now.events }
    ensures { MadeAs result (lock_names analysis.now (held_locks analysis.now event)) }
{
    let locks = analysis.locks_held(alloc, event)?;
    names_of(alloc, analysis.indexed(), locks.as_slice())
}

/// The list of the names of the locks. A lock that the trace lacks has an empty name.
pub fn names_of(alloc: Global, indexed: &Indexed, locks: &[u32]) -> Result<Value, OutOfMemory>
    ensures { MadeAs result (lock_names indexed.now locks.now) }
{
    let mut names = Vec::new(alloc);
    for lock in locks {
        let name = text_of(alloc, lock_name(indexed, *lock))?;
        names.push(name)?;
    }
    Ok(Value::Array(names))
}

/// The name of a lock; empty if the trace has no such lock.
fn lock_name(indexed: &Indexed, lock: u32) -> &[u8]
    ensures { result.now ≡ name_at indexed.now.locks lock }
{
    let raw = indexed.trace().raw();
    if lock < raw.locks() {
        raw.lock_name(lock)
    } else {
        b""
    }
}

fn word_of(op: Op) -> &'static str
    ensures { result.now ≡ op_word op }
{
    match op {
        Op::Read(_) => "r",
        Op::Write(_) => "w",
        Op::Acquire(_) => "acq",
        Op::Release(_) => "rel",
        Op::Fork(_) => "fork",
        Op::Join(_) => "join",
    }
}

/// The name of the variable, lock or thread of an operation.
fn name_of(trace: &RawTrace, op: Op) -> &[u8]
    requires { IsNamedOp trace.now op }
    ensures { result.now ≡ op_name trace.now op }
{
    match op {
        Op::Read(variable) => trace.variable_name(variable),
        Op::Write(variable) => trace.variable_name(variable),
        Op::Acquire(lock) => trace.lock_name(lock),
        Op::Release(lock) => trace.lock_name(lock),
        Op::Fork(thread) => trace.thread_name(thread),
        Op::Join(thread) => trace.thread_name(thread),
    }
}
