//! Why a command of the program stopped, the text of that fault, and how faults of other crates become this one.
ghost use Rattle.std.specs.Prelude.{◌≡◌, OnErr};
ghost use Rattle.client_scripts.specs.Messages.{words_in};
ghost use Rattle.calls.specs.BenchFaultTexts.{bench_fault_words, script_refusal_words, words_in_script};
ghost use Rattle.calls.specs.ScriptInputs.{refused_as};
ghost use Rattle.rapid_text.specs.Appended.{Appended};

use client_scripts::{ReplayFault, ScriptCause, ScriptRefusal, fault_text, script_words};
use rapid_text::OutOfMemory;
use report::{Piece, append_pieces};
use std::alloc::{AllocError, AllocFailed};
use std::fmt;
use thiserror::Error;

/// Why a command of the program stopped. Its message is what `bench_fault_text` appends. The numbers are those of
/// docs/FORMATS.md.
#[derive(Clone, Copy, PartialEq, Eq, Debug, Error)]
pub enum BenchFault {
    /// 91 to 96: a fault of a text, of reading or of writing, or out of memory.
    #[error("{0}")]
    Replay(ReplayFault),
    /// 93: one of several scripts that run in threads is refused.
    #[error("{}", in_script(.place, .refusal))]
    Script {
        /// The number of the script, counted from 1.
        place: u32,
        /// Why the script is refused, and at which line.
        refusal: ScriptRefusal,
    },
    /// 66: a thread could not be started.
    #[error("no thread")]
    NoThread,
    /// 97: there are more than 31 scripts.
    #[error("too many scripts")]
    TooManyScripts,
    /// 106: the window would begin at a number that is no event of the trace.
    #[error("no such event")]
    NoSuchEvent,
    /// 107: the trace uses every name that the prologue's variable could have.
    #[error("no name is free")]
    NoName,
}

impl From<ReplayFault> for BenchFault {
    ghost use Rattle.std.specs.Prelude.{◌≡◌};
    ghost use Rattle.calls.specs.declared.fault.BenchFault.TheVariants.{Replay};

    ghost from_gives = { λ fault stopped. stopped ≡ Replay fault };

    fn from(fault: ReplayFault) -> BenchFault {
        BenchFault::Replay(fault)
    }
}

impl From<OutOfMemory> for BenchFault {
    ghost use Rattle.std.specs.Prelude.{◌≡◌};
    ghost use Rattle.client_scripts.specs.declared.fault.ReplayFault.TheVariants.{OutOfMemory as NoMemory};
    ghost use Rattle.calls.specs.declared.fault.BenchFault.TheVariants.{Replay};

    ghost from_gives = { λ _ stopped. stopped ≡ Replay NoMemory };

    fn from(refused: OutOfMemory) -> BenchFault {
        BenchFault::Replay(ReplayFault::from(refused))
    }
}

impl From<AllocError> for BenchFault {
    ghost use Rattle.std.specs.Prelude.{◌≡◌};
    ghost use Rattle.client_scripts.specs.declared.fault.ReplayFault.TheVariants.{OutOfMemory as NoMemory};
    ghost use Rattle.calls.specs.declared.fault.BenchFault.TheVariants.{Replay};

    ghost from_gives = { λ _ stopped. stopped ≡ Replay NoMemory };

    fn from(_error: AllocError) -> BenchFault {
        BenchFault::Replay(ReplayFault::OutOfMemory)
    }
}

impl<T: Drop> From<AllocFailed<T>> for BenchFault {
    ghost use Rattle.std.specs.Prelude.{◌≡◌};
    ghost use Rattle.client_scripts.specs.declared.fault.ReplayFault.TheVariants.{OutOfMemory as NoMemory};
    ghost use Rattle.calls.specs.declared.fault.BenchFault.TheVariants.{Replay};

    ghost from_gives = { λ _ stopped. stopped ≡ Replay NoMemory };

    fn from(_failed: AllocFailed<T>) -> BenchFault {
        BenchFault::Replay(ReplayFault::OutOfMemory)
    }
}

impl BenchFault {
    /// The fault if script number `place` is refused; if memory ran out, it is 96 instead.
    pub(crate) fn of_script(place: u32, refusal: ScriptRefusal) -> BenchFault
        ensures { result ≡ refused_as place refusal refusal.why }
    {
        match refusal.why {
            ScriptCause::OutOfMemory => BenchFault::Replay(ReplayFault::OutOfMemory),
            _ => BenchFault::Script { place, refusal },
        }
    }
}

/// Why a script among several is refused, and at which line. Without words, memory ran out.
#[derive(Clone, Copy)]
struct InScript {
    place: u32,
    line: u64,
    words: Option<&'static str>,
}

impl fmt::Display for InScript {
    fn fmt<W: fmt::Write>(&self, f: &mut fmt::Formatter<W>) -> fmt::Result {
        match self.words {
            Some(words) => write!(f, "script {} line {}: {words}", self.place, self.line),
            None => write!(f, "out of memory"),
        }
    }
}

/// The refusal of script number `place`, with its words.
fn in_script(place: &u32, refusal: &ScriptRefusal) -> InScript {
    InScript {
        place: *place,
        line: refusal.line,
        words: script_words(refusal.why),
    }
}

/// Appends the text of a refused line of a script. Without words, appends `out of memory`.
fn append_in_script(
    out: &mut Vec<u8>,
    place: u32,
    line: u64,
    words: Option<&'static str>,
) -> Result<(), OutOfMemory>
    ensures ok { Appended result out.old out.new (words_in_script place line (words_in words.entry)) }
    ensures err { OnErr result (out.new.items ≡ out.old.items) }
{
    match words {
        Some(words) => append_pieces(
            out,
            &[
                Piece::Words(b"script "),
                Piece::Number(u64::from(place)),
                Piece::Words(b" line "),
                Piece::Number(line),
                Piece::Words(b": "),
                Piece::Words(words.as_bytes()),
            ],
        ),
        None => append_pieces(out, &[Piece::Words(b"out of memory")]),
    }
}

/// Appends the text of a refused script, which names the script and the line.
fn append_refusal(out: &mut Vec<u8>, place: u32, refusal: &ScriptRefusal) -> Result<(), OutOfMemory>
    ensures ok { Appended result out.old out.new (script_refusal_words place refusal.now) }
    ensures err { OnErr result (out.new.items ≡ out.old.items) }
{
    append_in_script(out, place, refusal.line, script_words(refusal.why))
}

/// Appends the text of a fault, without a line end. If memory runs out, `out` stays as it was.
pub fn bench_fault_text(fault: &BenchFault, out: &mut Vec<u8>) -> Result<(), OutOfMemory>
    ensures ok { Appended result out.old out.new (bench_fault_words fault.now) }
    ensures err { OnErr result (out.new.items ≡ out.old.items) }
{
    match fault {
        BenchFault::Replay(fault) => fault_text(fault, out),
        BenchFault::Script { place, refusal } => append_refusal(out, *place, refusal),
        BenchFault::NoThread => append_pieces(out, &[Piece::Words(b"no thread")]),
        BenchFault::TooManyScripts => append_pieces(out, &[Piece::Words(b"too many scripts")]),
        BenchFault::NoSuchEvent => append_pieces(out, &[Piece::Words(b"no such event")]),
        BenchFault::NoName => append_pieces(out, &[Piece::Words(b"no name is free")]),
    }
}
