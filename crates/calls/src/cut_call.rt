//! Cuts a window from a trace.
ghost use Rattle.std.specs.Prelude.{◌≡◌, ◌<◌, false};
ghost use Rattle.calls.specs.Cut.{IsCutOut};

use crate::fault::BenchFault;
use crate::printout::{Printout, print};
use client_scripts::{ReplayFault, Sink, Source};
use event_index::Indexed;
use std::alloc::Global;
use window::{CutFault, cut};

impl From<CutFault> for BenchFault {
    ghost use Rattle.std.specs.Prelude.{◌≡◌};
    ghost use Rattle.calls.specs.Cut.{told_of};

    ghost from_gives = { λ fault told. told ≡ told_of fault };

    fn from(fault: CutFault) -> BenchFault {
        match fault {
            CutFault::NoSuchEvent => BenchFault::NoSuchEvent,
            CutFault::NoName => BenchFault::NoName,
            CutFault::OutOfMemory => BenchFault::Replay(ReplayFault::OutOfMemory),
        }
    }
}

/// The window that begins at event `from` and has at most `most` events of the trace.
#[derive(Clone, Copy)]
struct WindowAt {
    from: u32,
    most: u32,
}

impl Printout for WindowAt {
    ghost use Rattle.std.specs.Prelude.{◌<◌};
    ghost use Rattle.window.specs.Cuts.{IsCut};
    ghost use Rattle.calls.specs.Cut.{IsUncut};

    ghost can_print = { λ s. 0 < s.most };

    ghost prints = { λ s r text. IsCut r s.from s.most text };

    ghost refuses = { λ s r fault. IsUncut r s.from fault };

    fn text(&self, alloc: Global, indexed: &Indexed) -> Result<Vec<u8>, BenchFault> {
        match cut(alloc, indexed.trace(), self.from, self.most) {
            Ok(text) => Ok(text),
            Err(fault) => Err(BenchFault::from(fault)),
        }
    }
}

/// Reads a whole trace text and writes a window of the trace, which is itself a trace text. The window begins at event
/// `from`, counted from 0. After its prologue it has at most `most` events (docs/FORMATS.md, "A window of a trace").
///
/// At the faults 91, 92, 94, 96, 106 and 107 nothing is written. At 95 the writer has taken a beginning of the text.
pub fn cut_window<S: Source, K: Sink>(
    alloc: Global,
    reader: &mut S,
    from: u32,
    most: u32,
    writer: &mut K,
) -> Result<(), BenchFault>
    requires most { 0 < most }
    requires reader { S.has_failed reader.old ≡ false }
    requires writer { K.has_failed writer.old ≡ false }
    ensures cut { IsCutOut from most
        (S.rest reader.old) (S.has_failed reader.new) (K.taken writer.old) (K.taken writer.new) (K.has_failed writer.new) result }
{
    print(alloc, reader, &WindowAt { from, most }, writer)
}
