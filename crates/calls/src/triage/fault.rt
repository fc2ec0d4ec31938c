//! Why `triage` stopped, and the text of that fault.
ghost use Rattle.std.specs.Prelude.{◌≡◌, OnErr};
ghost use Rattle.calls.specs.triage.TriageFaults.{triage_fault_words};
ghost use Rattle.rapid_text.specs.Appended.{Appended};

use client_scripts::{ReplayFault, fault_text};
use rapid_text::OutOfMemory;
use report::{Piece, append_pieces};

/// Why `triage` stopped. The numbers are those of docs/FORMATS.md.
#[derive(Clone, Copy, PartialEq, Eq, Debug)]
pub enum TriageFault {
    /// 91, 92, 94 to 96: a fault of the trace, of reading or of writing, or out of memory.
    Replay(ReplayFault),
    /// 100: there are more than 1,048,576 pairs of locations.
    TooMany,
}

impl From<ReplayFault> for TriageFault {
    ghost use Rattle.std.specs.Prelude.{◌≡◌};
    ghost use Rattle.calls.specs.declared.triage.fault.TriageFault.TheVariants.{Replay};

    ghost from_gives = { λ fault stopped. stopped ≡ Replay fault };

    fn from(fault: ReplayFault) -> TriageFault {
        TriageFault::Replay(fault)
    }
}

impl From<OutOfMemory> for TriageFault {
    ghost use Rattle.std.specs.Prelude.{◌≡◌};
    ghost use Rattle.client_scripts.specs.declared.fault.ReplayFault.TheVariants.{OutOfMemory as NoMemory};
    ghost use Rattle.calls.specs.declared.triage.fault.TriageFault.TheVariants.{Replay};

    ghost from_gives = { λ _ stopped. stopped ≡ Replay NoMemory };

    fn from(_refused: OutOfMemory) -> TriageFault {
        TriageFault::Replay(ReplayFault::OutOfMemory)
    }
}

/// Appends the text of a fault, without a line end. If memory runs out, `out` stays as it was.
pub fn triage_fault_text(fault: &TriageFault, out: &mut Vec<u8>) -> Result<(), OutOfMemory>
    ensures ok { Appended result out.old out.new (triage_fault_words fault.now) }
    ensures err { OnErr result (out.new.items ≡ out.old.items) }
{
    match fault {
        TriageFault::Replay(fault) => fault_text(fault, out),
        TriageFault::TooMany => append_pieces(out, &[Piece::Words(b"too many pairs of places")]),
    }
}
