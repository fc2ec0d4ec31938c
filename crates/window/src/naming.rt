//! A name for the variable and the lock of a prologue.
ghost use Rattle.std.specs.Prelude.{◌≡◌, ◌⊎◌, bytes_eq, IfErr, IfOk};
ghost use Rattle.std.specs.List.{list_any};
ghost use Rattle.window.specs.Cuts.{HasNoNewName, IsNewName, is_taken};
ghost use Rattle.window.specs.declared.fault.CutFault.TheVariants.{NoName, OutOfMemory};

use crate::fault::CutFault;
use rapid_text::RawTrace;
use std::alloc::Global;

/// The most bytes of a name.
const MAX_NAME: usize = 255;

/// Whether a variable of the trace has this name.
fn is_variable(trace: &RawTrace, name: &[u8]) -> bool
    ensures { result ≡ list_any (bytes_eq name.now) trace.now.variables }
{
    for variable in 0..trace.variables() {
        if name == trace.variable_name(variable) {
            return true;
        }
    }
    false
}

/// Whether a lock of the trace has this name.
fn is_lock(trace: &RawTrace, name: &[u8]) -> bool
    ensures { result ≡ list_any (bytes_eq name.now) trace.now.locks }
{
    for lock in 0..trace.locks() {
        if name == trace.lock_name(lock) {
            return true;
        }
    }
    false
}

/// Whether a variable or a lock of the trace has this name.
fn is_used(trace: &RawTrace, name: &[u8]) -> bool
    ensures { result ≡ is_taken trace.now name.now }
{
    is_variable(trace, name) || is_lock(trace, name)
}

/// `window`, followed by as few underscores as make the name new.
pub(crate) fn new_name(alloc: Global, trace: &RawTrace) -> Result<Vec<u8>, CutFault>
    ensures ok { IfOk result (λ name. IsNewName trace.now name.items) }
    ensures err { IfErr result (λ why. (why ≡ OutOfMemory) ⊎ ((why ≡ NoName) × HasNoNewName trace.now)) }
{
    let mut name = Vec::from_slice(alloc, b"window")?;
    'tries: while name.len() <= MAX_NAME {
        if !is_used(trace, name.as_slice()) {
            return Ok(name);
        }
        name.push(b'_')?;
    }
    Err(CutFault::NoName)
}
