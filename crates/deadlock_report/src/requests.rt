//! Prints a request, and the locks that its thread holds.
ghost use Rattle.std.specs.Prelude.{◌≡◌, ◌<◌, ◌++◌, IfSome, Some, codes, length};
ghost use Rattle.rapid_text.specs.Appended.{Appended};
ghost use Rattle.rapid_text.specs.Canonical.{name_at};
ghost use Rattle.explain_report.specs.Causes.{lock_taken};
ghost use Rattle.race_triage.specs.Texts.{held_locks, lock_line};
ghost use Rattle.deadlock_report.specs.Texts.{held_text, hold_text, other_line, other_lines, request_line, request_text, since_line};

use crate::holds::since_of;
use crate::pieces::{append_small, append_words};
use event_index::Indexed;
use must_order::Analysis;
use race_triage::append_event;
use rapid_text::{Op, OutOfMemory};

/// Appends the canonical line of a request, and the locks that its thread holds. The lock that the other request
/// acquires comes first. Appends nothing if the trace has no such event.
pub(crate) fn append_request(
    out: &mut Vec<u8>,
    analysis: &Analysis<'_>,
    request: u32,
    other: u32,
) -> Result<(), OutOfMemory>
    ensures { Appended result out.old out.new (request_text analysis.now request other) }
{
    let indexed = analysis.indexed();
    if request >= indexed.len() {
        return Ok(());
    }
    append_line(out, indexed, request)?;
    append_held(out, analysis, request, lock_of(indexed, other))?;
    Ok(())
}

// Appends the canonical line of an event.
fn append_line(out: &mut Vec<u8>, indexed: &Indexed, event: u32) -> Result<(), OutOfMemory>
    ensures { Appended result out.old out.new (request_line indexed.now event) }
{
    append_words(out, b"  ")?;
    append_event(out, indexed, event)?;
    append_words(out, b"\n")?;
    Ok(())
}

// Appends the lines of the locks that the request's thread holds, first the one that is waited for.
fn append_held(
    out: &mut Vec<u8>,
    analysis: &Analysis<'_>,
    request: u32,
    wanted: Option<u32>,
) -> Result<(), OutOfMemory>
    requires request { request < length analysis.now.events }
    requires wanted { IfSome wanted (λ l. l < length analysis.now.locks) }
    ensures { Appended result out.old out.new (held_text analysis.now request wanted) }
{
    append_wanted(out, analysis, request, wanted)?;
    append_others(out, analysis, request, wanted)?;
    Ok(())
}

/// The lock that the event acquires, or None.
pub(crate) fn lock_of(indexed: &Indexed, event: u32) -> Option<u32>
    ensures lock { result ≡ lock_taken indexed.now.events event }
    ensures named { IfSome result (λ l. l < length indexed.now.locks) }
{
    let found = indexed.get(event)?;
    match found.op {
        Op::Acquire(lock) => Some(lock),
        Op::Read(_) => None,
        Op::Write(_) => None,
        Op::Release(_) => None,
        Op::Fork(_) => None,
        Op::Join(_) => None,
    }
}

// Appends since when the request's thread holds the lock that is waited for.
fn append_wanted(
    out: &mut Vec<u8>,
    analysis: &Analysis<'_>,
    request: u32,
    wanted: Option<u32>,
) -> Result<(), OutOfMemory>
    requires request { request < length analysis.now.events }
    requires wanted { IfSome wanted (λ l. l < length analysis.now.locks) }
    ensures { Appended result out.old out.new (hold_text analysis.now request wanted) }
{
    match wanted {
        Some(lock) => append_hold(out, analysis, request, lock),
        None => Ok(()),
    }
}

// Appends since when the request's thread holds the lock, if it does.
fn append_hold(
    out: &mut Vec<u8>,
    analysis: &Analysis<'_>,
    request: u32,
    lock: u32,
) -> Result<(), OutOfMemory>
    requires request { request < length analysis.now.events }
    requires lock { lock < length analysis.now.locks }
    ensures { Appended result out.old out.new (hold_text analysis.now request (Some lock)) }
{
    match since_of(analysis, request, lock) {
        Some(since) => append_since(out, analysis.indexed(), lock, since),
        None => Ok(()),
    }
}

// Appends the line of a lock that is held since an acquire.
fn append_since(
    out: &mut Vec<u8>,
    indexed: &Indexed,
    lock: u32,
    since: u32,
) -> Result<(), OutOfMemory>
    ensures { Appended result out.old out.new (since_line indexed.now lock since) }
{
    append_lock(out, indexed, lock)?;
    append_words(out, b" since")?;
    append_small(out, since)?;
    append_line(out, indexed, since)?;
    Ok(())
}

// Appends a line for each other lock that the request's thread holds.
fn append_others(
    out: &mut Vec<u8>,
    analysis: &Analysis<'_>,
    request: u32,
    but: Option<u32>,
) -> Result<(), OutOfMemory>
    requires { request < length analysis.now.events }
    ensures { Appended result out.old out.new (other_lines analysis.now but (held_locks analysis.now request)) }
{
    let locks = analysis.locks_held(*out.allocator(), request)?;
    append_locks(out, analysis.indexed(), locks.as_slice(), but)?;
    Ok(())
}

// Appends a line for each of the locks but one.
fn append_locks(
    out: &mut Vec<u8>,
    indexed: &Indexed,
    locks: &[u32],
    but: Option<u32>,
) -> Result<(), OutOfMemory>
    ensures { Appended result out.old out.new (other_lines indexed.now but locks.now) }
{
    for lock in locks {
        append_other(out, indexed, *lock, but)?;
    }
    Ok(())
}

// Appends the line of a lock if it is another one.
fn append_other(
    out: &mut Vec<u8>,
    indexed: &Indexed,
    lock: u32,
    but: Option<u32>,
) -> Result<(), OutOfMemory>
    ensures { Appended result out.old out.new (other_line indexed.now but lock) }
{
    match but {
        Some(wanted) => {
            if wanted == lock {
                return Ok(());
            }
            append_one(out, indexed, lock)
        }
        None => append_one(out, indexed, lock),
    }
}

// Appends the line of a lock.
fn append_one(out: &mut Vec<u8>, indexed: &Indexed, lock: u32) -> Result<(), OutOfMemory>
    ensures { Appended result out.old out.new (lock_line indexed.now lock) }
{
    append_lock(out, indexed, lock)?;
    append_words(out, b"\n")?;
    Ok(())
}

// Appends the beginning of the line of a lock. Leaves out the name if the trace has no such lock.
fn append_lock(out: &mut Vec<u8>, indexed: &Indexed, lock: u32) -> Result<(), OutOfMemory>
    ensures { Appended result out.old out.new (codes "    holds " ++ name_at indexed.now.locks lock) }
{
    append_words(out, b"    holds ")?;
    append_words(out, lock_name(indexed, lock))?;
    Ok(())
}

/// The name of a lock; empty if the trace has no such lock.
pub(crate) fn lock_name(indexed: &Indexed, lock: u32) -> &[u8]
    ensures { result.now ≡ name_at indexed.now.locks lock }
{
    let raw = indexed.trace().raw();
    if lock < raw.locks() {
        raw.lock_name(lock)
    } else {
        b""
    }
}
