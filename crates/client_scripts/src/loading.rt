//! Reads an input, and makes an indexed trace from a text.
ghost use Rattle.std.specs.Prelude.{◌≡◌, ◌≢◌, ◌⊎◌, true, false, IfOk, IfErr, Err};
ghost use Rattle.trace_rules.specs.Rules.{first_breach};
ghost use Rattle.client_scripts.specs.Loading.{IsReadFrom, IsUnreadFrom};
ghost use Rattle.client_scripts.specs.Steps.{IsInput};
ghost use Rattle.client_scripts.specs.Traces.{trace_checked, trace_of};
ghost use Rattle.client_scripts.specs.declared.fault.ReadCause.{ReadCause};
ghost use Rattle.client_scripts.specs.declared.fault.ReadCause.TheVariants.{Device};
ghost use Rattle.client_scripts.specs.declared.fault.ReplayFault.TheVariants.{Script, Read, Write, OutOfMemory};
ghost use Rattle.script_language.specs.declared.refusal.ScriptRefusal.{ScriptRefusal};

use crate::fault::ReplayFault;
use crate::source::{Source, read_all};
use event_index::Indexed;
use rapid_text::{RawTrace, parse};
use std::alloc::Global;
use trace_rules::{Trace, check};

/// Reads all bytes of an input. A fault names the input by this number.
pub fn read_input<S: Source>(
    alloc: Global,
    source: &mut S,
    input: u32,
) -> Result<Vec<u8>, ReplayFault>
    requires { S.has_failed source.old ≡ false }
    ensures input { IsInput input (S.rest source.old) result }
    ensures device { result ≡ Err (Read input Device) → S.has_failed source.new ≡ true }
    ensures failed { S.has_failed source.new ≡ true → result ≡ Err (Read input Device) }
{
    match read_all(alloc, source) {
        Ok(bytes) => Ok(bytes),
        Err(why) => Err(ReplayFault::of_input(input, why)),
    }
}

/// Checks that a trace keeps the rules.
fn check_trace(alloc: Global, raw: RawTrace) -> Result<Trace, ReplayFault>
    ensures { (result ≡ Err OutOfMemory) ⊎ (trace_checked raw (first_breach raw.events) ≡ result) }
{
    match check(alloc, raw) {
        Ok(trace) => Ok(trace),
        Err((raw, refusal)) => {
            drop(raw);
            Err(ReplayFault::from(refusal))
        }
    }
}

/// Parses and checks a trace, and makes its tables. Fails with 91 or 92, or with 96 if memory runs out.
pub fn load(alloc: Global, text: &[u8]) -> Result<Indexed, ReplayFault>
    ensures { (result ≡ Err OutOfMemory) ⊎ (trace_of text.now ≡ result) }
{
    let raw = parse(alloc, text)?;
    let trace = check_trace(alloc, raw)?;
    let indexed = Indexed::new(alloc, trace)?;
    Ok(indexed)
}

/// The same, but drops the text once it is parsed, because the tables need the memory.
pub fn load_owned(alloc: Global, text: Vec<u8>) -> Result<Indexed, ReplayFault>
    ensures { (result ≡ Err OutOfMemory) ⊎ (trace_of text.items ≡ result) }
{
    let read = parse(alloc, &text);
    drop(text);
    let raw = read?;
    let trace = check_trace(alloc, raw)?;
    let indexed = Indexed::new(alloc, trace)?;
    Ok(indexed)
}

/// Reads input 1, parses and checks the trace in it, and makes its tables. Fails with 91, 92 or 94, or with 96 if
/// memory runs out.
pub fn read_trace<S: Source>(alloc: Global, reader: &mut S) -> Result<Indexed, ReplayFault>
    requires { S.has_failed reader.old ≡ false }
    // There are bytes that give this trace or this fault. If the reader's type shows its bytes, they are the
    // reader's.
    ensures read { IfOk result (IsReadFrom (S.rest reader.old)) }
    ensures unread { IfErr result (IsUnreadFrom (S.rest reader.old)) }
    // There is only one input and no script, and the call writes nothing.
    ensures input { (why : ReadCause) → result ≢ Err (Read 2 why) }
    ensures no_script { (refusal : ScriptRefusal) → result ≢ Err (Script refusal) }
    ensures unwritten { result ≢ Err Write }
    // The fault is `Device` exactly if a read failed.
    ensures device { result ≡ Err (Read 1 Device) → S.has_failed reader.new ≡ true }
    ensures failed { S.has_failed reader.new ≡ true → result ≡ Err (Read 1 Device) }
{
    match read_input(alloc, reader, 1) {
        Ok(text) => load_owned(alloc, text),
        Err(fault) => Err(fault),
    }
}
