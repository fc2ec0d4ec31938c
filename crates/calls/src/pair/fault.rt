//! Why a call on a pair stopped, and the text of that fault.
ghost use Rattle.std.specs.Prelude.{◌≡◌, OnErr};
ghost use Rattle.calls.specs.pair.PairFaults.{apart_text, kind_text, pair_fault_words};
ghost use Rattle.rapid_text.specs.Appended.{Appended};

use client_scripts::{ReplayFault, fault_text};
use must_order::Kind;
use rapid_text::OutOfMemory;
use report::{Piece, append_pieces};
use uses_report::UsesFault;

/// Why a call on a pair stopped. The numbers are those of docs/FORMATS.md.
#[derive(Clone, Copy, PartialEq, Eq, Debug)]
pub enum PairFault {
    /// 91, 92, 94 to 96: a fault of the trace, of reading or of writing, or out of memory.
    Replay(ReplayFault),
    /// 98: the names mean no pair of conflicting events.
    NoSuchPair,
    /// 99: no schedule shows the pair. The kind says why: it is forced or guarded, or it is open and the search found
    /// none.
    NotShown(Kind),
    /// 99: no schedule shows the two requests that wait for each other.
    NoDeadlock {
        /// Whether no correct reordering shows them. If not, the search found none.
        is_apart: bool,
    },
    /// 116: more than 16,777,216 locks are held at the accesses of the variables.
    TooManyHeld,
}

impl From<ReplayFault> for PairFault {
    ghost use Rattle.std.specs.Prelude.{◌≡◌};
    ghost use Rattle.calls.specs.declared.pair.fault.PairFault.TheVariants.{Replay};

    ghost from_gives = { λ fault stopped. stopped ≡ Replay fault };

    fn from(fault: ReplayFault) -> PairFault {
        PairFault::Replay(fault)
    }
}

impl From<OutOfMemory> for PairFault {
    ghost use Rattle.std.specs.Prelude.{◌≡◌};
    ghost use Rattle.client_scripts.specs.declared.fault.ReplayFault.TheVariants.{OutOfMemory as NoMemory};
    ghost use Rattle.calls.specs.declared.pair.fault.PairFault.TheVariants.{Replay};

    ghost from_gives = { λ _ stopped. stopped ≡ Replay NoMemory };

    fn from(_refused: OutOfMemory) -> PairFault {
        PairFault::Replay(ReplayFault::OutOfMemory)
    }
}

impl From<UsesFault> for PairFault {
    ghost use Rattle.std.specs.Prelude.{◌≡◌};
    ghost use Rattle.calls.specs.pair.Uses.{uses_fault};

    ghost from_gives = { λ fault stopped. stopped ≡ uses_fault fault };

    fn from(fault: UsesFault) -> PairFault {
        match fault {
            UsesFault::NoSuchPair => PairFault::NoSuchPair,
            UsesFault::TooMany => PairFault::TooManyHeld,
            UsesFault::OutOfMemory => PairFault::Replay(ReplayFault::OutOfMemory),
        }
    }
}

/// The word for a kind in the text of a fault.
fn kind_words(kind: Kind) -> &'static [u8]
    ensures { result.now ≡ kind_text kind }
{
    match kind {
        Kind::Candidate => b"candidate",
        Kind::Forced => b"forced",
        Kind::Guarded => b"guarded",
        Kind::Open => b"open",
    }
}

/// The word for requests that no schedule shows.
fn apart_words(is_apart: bool) -> &'static [u8]
    ensures { result.now ≡ apart_text is_apart }
{
    if is_apart { b"apart" } else { b"undecided" }
}

/// Appends the text of a fault, without a line end. If memory runs out, `out` stays as it was.
pub fn pair_fault_text(fault: &PairFault, out: &mut Vec<u8>) -> Result<(), OutOfMemory>
    ensures ok { Appended result out.old out.new (pair_fault_words fault.now) }
    ensures err { OnErr result (out.new.items ≡ out.old.items) }
{
    match fault {
        PairFault::Replay(fault) => fault_text(fault, out),
        PairFault::NoSuchPair => append_pieces(out, &[Piece::Words(b"no such pair")]),
        PairFault::NotShown(kind) => append_pieces(
            out,
            &[
                Piece::Words(b"not shown: "),
                Piece::Words(kind_words(*kind)),
            ],
        ),
        PairFault::NoDeadlock { is_apart } => append_pieces(
            out,
            &[
                Piece::Words(b"not shown: "),
                Piece::Words(apart_words(*is_apart)),
            ],
        ),
        PairFault::TooManyHeld => append_pieces(out, &[Piece::Words(b"too many held locks")]),
    }
}
