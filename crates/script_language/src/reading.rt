//! Reads scripts: lines of a client's number, a command word and its arguments.
ghost use Rattle.std.specs.Prelude.{◌≡◌, ◌⊎◌, IfOk, IfErr, Ok, Err};
ghost use Rattle.script_language.specs.Reading.{refusal_for};
ghost use Rattle.script_language.specs.Scripts.{IsScript, no_memory};

use crate::batches::read_batch;
use crate::calls::read_line;
use crate::lines::Lines;
use crate::refusal::{ScriptCause, ScriptRefusal};
use crate::script::Script;
use crate::simple::{Found, found_on};
use std::alloc::Global;

/// The refusal if memory runs out. No line is at fault.
fn no_script_memory() -> ScriptRefusal
    ensures { result ≡ no_memory }
{
    ScriptRefusal {
        line: 0,
        why: ScriptCause::OutOfMemory,
    }
}

/// The refusal of a line, or the one if memory ran out.
fn refusal_at(line: u64, why: ScriptCause) -> ScriptRefusal
    ensures { result ≡ refusal_for line why }
{
    match why {
        ScriptCause::OutOfMemory => no_script_memory(),
        _ => ScriptRefusal { line, why },
    }
}

/// Reads a script. Returns the calls of its lines, or the first refused line and its first cause, 81 to 85. If memory
/// runs out it returns 86, perhaps before it sees a fault of a later line.
pub fn read_script(alloc: Global, text: &[u8]) -> Result<Script, ScriptRefusal>
    ensures read { IfOk result (λ script. IsScript text.now (Ok script)) }
    ensures refused { IfErr result (λ refusal. (refusal ≡ no_memory) ⊎ IsScript text.now (Err refusal)) }
{
    let mut script = Script::empty(alloc);
    let mut lines = Lines::of(text);
    let mut line = 0u64;
    while let Some(raw) = lines.next() {
        line += 1;
        match found_on(raw) {
            Some((client, Found::Simple(simple))) => {
                if script.push_simple(line, client, &simple).is_err() {
                    return Err(no_script_memory());
                }
            }
            Some((client, Found::Batch(mut words))) => match read_batch(alloc, &mut words) {
                Ok(call) => {
                    if script.push(line, client, call).is_err() {
                        return Err(no_script_memory());
                    }
                }
                Err(why) => return Err(refusal_at(line, why)),
            },
            None => match read_line(alloc, raw) {
                Ok(None) => {}
                Ok(Some((client, call))) => {
                    if script.push(line, client, call).is_err() {
                        return Err(no_script_memory());
                    }
                }
                Err(why) => return Err(refusal_at(line, why)),
            },
        }
    }
    Ok(script)
}
