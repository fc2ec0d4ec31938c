//! Prints what a trace holds.
ghost use Rattle.std.specs.Prelude.{◌≡◌, false, OnOk};
ghost use Rattle.calls.specs.Info.{AppendsCandidates, IsInfo};

use crate::fault::BenchFault;
use crate::printout::{Printout, print};
use client_scripts::{Sink, Source};
use event_index::Indexed;
use rapid_text::OutOfMemory;
use shb_clocks::Clocks;
use std::alloc::Global;

/// The most candidates that `info` prints.
const MAX_CANDIDATES: u32 = 1_000;

/// Appends the lines of the first candidates.
fn append_candidates(
    alloc: Global,
    indexed: &Indexed,
    text: &mut Vec<u8>,
) -> Result<(), OutOfMemory>
    ensures { OnOk result (AppendsCandidates indexed.now text.old.items text.new.items) }
{
    let clocks = Clocks::new(alloc, indexed)?;
    let pairs = clocks.candidates(alloc, indexed, MAX_CANDIDATES)?;
    report::candidates(indexed, &pairs, text)
}

/// What a trace holds, and its first candidates.
#[derive(Clone, Copy)]
struct Contents;

impl Printout for Contents {
    ghost use Rattle.std.specs.Prelude.{⊤};
    ghost use Rattle.calls.specs.Info.{IsPrinted};

    ghost can_print = { λ s. ⊤ };

    ghost prints = { λ s r text. IsPrinted r text };

    ghost refuses = { λ s r fault. ⊥ };

    fn text(&self, alloc: Global, indexed: &Indexed) -> Result<Vec<u8>, BenchFault> {
        let mut text = Vec::new(alloc);
        report::info(indexed, &mut text)?;
        append_candidates(alloc, indexed, &mut text)?;
        Ok(text)
    }
}

/// Reads a whole trace text and writes what the trace holds (docs/FORMATS.md, "What a trace holds"). These are the
/// numbers of events, threads, variables and locks; for each thread its number, its name and how many events it has;
/// and the first 1,000 candidates.
///
/// At the faults 91, 92, 94 and 96 nothing is written. At 95 the writer has taken a beginning of the text.
pub fn info<S: Source, K: Sink>(
    alloc: Global,
    reader: &mut S,
    writer: &mut K,
) -> Result<(), BenchFault>
    requires reader { S.has_failed reader.old ≡ false }
    requires writer { K.has_failed writer.old ≡ false }
    ensures info { IsInfo (S.rest reader.old) (S.has_failed reader.new) (K.taken writer.old) (K.taken writer.new) (K.has_failed writer.new) result }
{
    print(alloc, reader, &Contents, writer)
}
