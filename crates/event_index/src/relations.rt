//! Relations of two events: whether they clash, and whether they are apart.
ghost use Rattle.std.specs.Prelude.{◌≡◌};
ghost use Rattle.event_index.specs.Relations.{is_clash, is_apart, is_access, is_on_lock, is_on_thread, is_clash_of_ops, is_tie_of_ops};
ghost use Rattle.rapid_text.specs.Operations.{is_write, is_fork, is_join};

use rapid_text::{Event, Op};

/// Whether the events are of different threads and access one variable, at least one of them with a write.
pub(crate) fn clash(first: Event, second: Event) -> bool
    ensures { result ≡ is_clash first second }
{
    first.thread != second.thread && ops_clash(first.op, second.op)
}

/// Whether the events may swap wherever they are adjacent. They are then of different threads.
pub(crate) fn apart(first: Event, second: Event) -> bool
    ensures { result ≡ is_apart first second }
{
    first.thread != second.thread
        && !is_on_thread(first.op, second.thread)
        && !is_on_thread(second.op, first.thread)
        && !ops_tie(first.op, second.op)
}

fn ops_clash(first: Op, second: Op) -> bool
    ensures { result ≡ is_clash_of_ops first second }
{
    match first {
        Op::Read(variable) => writes(second, variable),
        Op::Write(variable) => accesses(second, variable),
        Op::Acquire(_) | Op::Release(_) | Op::Fork(_) | Op::Join(_) => false,
    }
}

fn ops_tie(first: Op, second: Op) -> bool
    ensures { result ≡ is_tie_of_ops first second }
{
    match first {
        Op::Read(_) | Op::Write(_) => ops_clash(first, second),
        Op::Acquire(lock) | Op::Release(lock) => is_on_lock(second, lock),
        Op::Fork(thread) => joins(second, thread),
        Op::Join(thread) => forks(second, thread),
    }
}

fn writes(op: Op, variable: u32) -> bool
    ensures { result ≡ is_write variable op }
{
    op == Op::Write(variable)
}

fn accesses(op: Op, variable: u32) -> bool
    ensures { result ≡ is_access variable op }
{
    match op {
        Op::Read(accessed) | Op::Write(accessed) => accessed == variable,
        Op::Acquire(_) | Op::Release(_) | Op::Fork(_) | Op::Join(_) => false,
    }
}

fn is_on_lock(op: Op, lock: u32) -> bool
    ensures { result ≡ is_on_lock lock op }
{
    match op {
        Op::Acquire(taken) | Op::Release(taken) => taken == lock,
        Op::Read(_) | Op::Write(_) | Op::Fork(_) | Op::Join(_) => false,
    }
}

fn is_on_thread(op: Op, thread: u32) -> bool
    ensures { result ≡ is_on_thread thread op }
{
    match op {
        Op::Fork(other) | Op::Join(other) => other == thread,
        Op::Read(_) | Op::Write(_) | Op::Acquire(_) | Op::Release(_) => false,
    }
}

fn forks(op: Op, thread: u32) -> bool
    ensures { result ≡ is_fork thread op }
{
    matches!(op, Op::Fork(forked) if forked == thread)
}

fn joins(op: Op, thread: u32) -> bool
    ensures { result ≡ is_join thread op }
{
    matches!(op, Op::Join(joined) if joined == thread)
}
