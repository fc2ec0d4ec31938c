//! Reads what `record/confirm --json` writes: what was found when races were followed on the real program.
ghost use Rattle.std.specs.Prelude.{◌≡◌, Err, IfErr, IfOk, IfSome, OnErr, false, true};
ghost use Rattle.client_scripts.specs.declared.fault.ReadCause.TheVariants.{Device};
ghost use Rattle.client_scripts.specs.declared.fault.ReplayFault.TheVariants.{Read};
ghost use Rattle.followed_races.specs.Lines.{AreLines};
ghost use Rattle.calls.specs.declared.triage.confirming.ConfirmedFault.TheVariants.{Replay};
ghost use Rattle.calls.specs.triage.Confirmed.{confirmed_fault_words, IsConfirmedFault, IsTextFault};
ghost use Rattle.rapid_text.specs.Appended.{Appended};

use client_scripts::{ReplayFault, Source, fault_text, read_input};
use followed_races::{Followed, FollowedRefusal, followed_in};
use rapid_text::OutOfMemory;
use report::{Piece, append_pieces};
use std::alloc::Global;

/// The number of this input in faults. The trace is 1, and the known races are 2.
const INPUT: u32 = 3;

/// Why a file of followed races was not read. The numbers are those of docs/FORMATS.md.
#[derive(Clone, Copy, PartialEq, Eq, Debug)]
pub enum ConfirmedFault {
    /// 94 or 96: a fault of reading, or out of memory.
    Replay(ReplayFault),
    /// 108: this line of the file, counted from 1, is not what `record/confirm --json` writes.
    Line(u64),
}

/// Reads a whole file of followed races, an entry for each line (docs/FORMATS.md, "Followed races"). In faults it is
/// input 3.
pub fn read_confirmed<S: Source>(
    alloc: Global,
    reader: &mut S,
) -> Result<Vec<Followed>, ConfirmedFault>
    requires { S.has_failed reader.old ≡ false }
    ensures ok { IfOk result (λ found. IfSome (S.rest reader.old) (λ told. AreLines told found.items)) }
    ensures err { IfErr result (IsConfirmedFault (S.rest reader.old)) }
    ensures device { result ≡ Err (Replay (Read 3 Device)) → S.has_failed reader.new ≡ true }
    ensures failed { S.has_failed reader.new ≡ true → result ≡ Err (Replay (Read 3 Device)) }
{
    match read_input(alloc, reader, INPUT) {
        Ok(text) => entries_of(alloc, text.as_slice()),
        Err(fault) => Err(ConfirmedFault::Replay(fault)),
    }
}

/// The entries in the file's text.
fn entries_of(alloc: Global, text: &[u8]) -> Result<Vec<Followed>, ConfirmedFault>
    ensures ok { IfOk result (λ found. AreLines text.now found.items) }
    ensures err { IfErr result (IsTextFault text.now) }
{
    match followed_in(alloc, text) {
        Ok(found) => Ok(found),
        Err(FollowedRefusal::Line(line)) => Err(ConfirmedFault::Line(line)),
        Err(FollowedRefusal::OutOfMemory) => Err(ConfirmedFault::Replay(ReplayFault::OutOfMemory)),
    }
}

/// Appends the text of a fault, without a line end. If memory runs out, `out` stays as it was.
pub fn confirmed_fault_text(fault: &ConfirmedFault, out: &mut Vec<u8>) -> Result<(), OutOfMemory>
    ensures ok { Appended result out.old out.new (confirmed_fault_words fault.now) }
    ensures err { OnErr result (out.new.items ≡ out.old.items) }
{
    match fault {
        ConfirmedFault::Replay(fault) => fault_text(fault, out),
        ConfirmedFault::Line(line) => append_pieces(
            out,
            &[Piece::Words(b"confirmed file line "), Piece::Number(*line)],
        ),
    }
}
