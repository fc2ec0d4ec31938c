//! Why reports can't be merged.

use client_scripts::ReplayFault;
use race_parts::PartRefusal;
use rapid_text::OutOfMemory;

/// Why reports can't be merged. The numbers are those of docs/FORMATS.md.
#[derive(Clone, Copy, PartialEq, Eq, Debug)]
pub enum MergeFault {
    /// 94 to 96: a fault of reading or writing, or out of memory.
    Replay(ReplayFault),
    /// 103: this line of the file, counted from 0, is not what a report has there, or it is missing.
    Line(usize),
    /// 104: the file has another version of the format.
    Version,
    /// 114: a part of the file has the name of a different part, which came from the file with this number.
    Clash(u32),
}

impl From<PartRefusal> for MergeFault {
    ghost use Rattle.std.specs.Prelude.{◌≡◌};
    ghost use Rattle.calls.specs.Merged.{fault_of};

    ghost from_gives = { λ refusal fault. fault ≡ fault_of refusal };

    fn from(refusal: PartRefusal) -> MergeFault {
        match refusal {
            PartRefusal::Line(line) => MergeFault::Line(line),
            PartRefusal::Version => MergeFault::Version,
            PartRefusal::Clash(file) => MergeFault::Clash(file),
            PartRefusal::OutOfMemory => MergeFault::Replay(ReplayFault::OutOfMemory),
        }
    }
}

impl From<OutOfMemory> for MergeFault {
    ghost use Rattle.std.specs.Prelude.{◌≡◌};
    ghost use Rattle.client_scripts.specs.declared.fault.ReplayFault.TheVariants.{OutOfMemory as NoMemory};
    ghost use Rattle.calls.specs.declared.merge_fault.MergeFault.TheVariants.{Replay};

    ghost from_gives = { λ _ fault. fault ≡ Replay NoMemory };

    fn from(_refused: OutOfMemory) -> MergeFault {
        MergeFault::Replay(ReplayFault::OutOfMemory)
    }
}
