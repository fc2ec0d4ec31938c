//! Reads a triage file, and makes the text of the fault if it is refused.
ghost use Rattle.std.specs.Prelude.{◌≡◌, Err, IfErr, IfOk, OnErr, false, true};
ghost use Rattle.rapid_text.specs.Appended.{Appended};
ghost use Rattle.toml.specs.View.{table_view};
ghost use Rattle.client_scripts.specs.declared.fault.ReadCause.TheVariants.{Device};
ghost use Rattle.client_scripts.specs.declared.fault.ReplayFault.TheVariants.{Read};
ghost use Rattle.triage_file.specs.Files.{IsTaken};
ghost use Rattle.calls.specs.declared.triage.triaged.TriagedFault.TheVariants.{Replay};
ghost use Rattle.calls.specs.triage.Triaged.{fault_by, mistake_words, refusal_words, spot_words, triaged_fault_words, wrong_entry_words, IsTableOf, IsTriagedFault, IsTriagedTextFault};

use client_scripts::{ReplayFault, Source, fault_text, read_input};
use rapid_text::OutOfMemory;
use report::{Piece, append_pieces};
use std::alloc::Global;
use triage_file::{Mistake, Refusal, Spot, Table, read_triage};

/// The number of this input in faults. The trace is 1, the known races are 2, and the followed races are 3.
const INPUT: u32 = 4;

/// Why a triage file was not read. The numbers are those of docs/FORMATS.md.
#[derive(Clone, Copy, PartialEq, Eq, Debug)]
pub enum TriagedFault {
    /// 94 or 96: a fault of reading, or out of memory.
    Replay(ReplayFault),
    /// 110 to 113: the text is refused.
    File(Refusal),
}

/// Reads a whole triage file (docs/FORMATS.md, "Triage files"). `today` is a date as one number, such as 20271231. An
/// entry whose last day is before it is refused. In faults the file is input 4.
pub fn read_triaged<S: Source>(
    alloc: Global,
    reader: &mut S,
    today: u32,
) -> Result<Table, TriagedFault>
    requires { S.has_failed reader.old ≡ false }
    ensures ok { IfOk result (IsTableOf (S.rest reader.old) today) }
    ensures err { IfErr result (IsTriagedFault (S.rest reader.old) today) }
    ensures device { result ≡ Err (Replay (Read 4 Device)) → S.has_failed reader.new ≡ true }
    ensures failed { S.has_failed reader.new ≡ true → result ≡ Err (Replay (Read 4 Device)) }
{
    match read_input(alloc, reader, INPUT) {
        Ok(text) => table_of(alloc, text.as_slice(), today),
        Err(fault) => Err(TriagedFault::Replay(fault)),
    }
}

/// The document in the file's text.
fn table_of(alloc: Global, text: &[u8], today: u32) -> Result<Table, TriagedFault>
    ensures ok { IfOk result (λ table. IsTaken text.now today (table_view table)) }
    ensures err { IfErr result (IsTriagedTextFault text.now today) }
{
    match read_triage(alloc, text, today) {
        Ok(table) => Ok(table),
        Err(refusal) => Err(fault_of(refusal)),
    }
}

/// The fault for a refused text.
fn fault_of(refusal: Refusal) -> TriagedFault
    ensures { result ≡ fault_by refusal }
{
    match refusal {
        Refusal::OutOfMemory => TriagedFault::Replay(ReplayFault::OutOfMemory),
        refusal => TriagedFault::File(refusal),
    }
}

/// The text for a mistake in an entry.
fn mistake_words(mistake: Mistake) -> &'static [u8]
    ensures { result.now ≡ mistake_words mistake }
{
    match mistake {
        Mistake::NoTable => b"is no table",
        Mistake::Unknown => b"has an unknown key",
        Mistake::Paths => b"needs `paths`, two texts",
        Mistake::Functions => b"has `functions` other than two texts",
        Mistake::Variables => b"has `variables` other than texts",
        Mistake::Lines => b"has `lines` other than two numbers",
        Mistake::Verdict => b"needs `verdict`: known, benign, false or fixed",
        Mistake::Reason => b"has a `reason` other than a text",
        Mistake::Author => b"has an `author` other than a text",
        Mistake::Expires => b"has an `expires` other than a date",
    }
}

/// Appends the line and column at which a text is refused.
fn append_spot(spot: Spot, out: &mut Vec<u8>) -> Result<(), OutOfMemory>
    ensures { Appended result out.old out.new (spot_words spot) }
{
    append_pieces(
        out,
        &[
            Piece::Words(b"triage file line "),
            Piece::Number(spot.line),
            Piece::Words(b" column "),
            Piece::Number(spot.column),
            Piece::Words(b": "),
        ],
    )
}

/// Appends the spot and the number of a refused entry, and what is wrong with it.
fn append_entry(spot: Spot, number: u64, words: &[u8], out: &mut Vec<u8>) -> Result<(), OutOfMemory>
    ensures { Appended result out.old out.new (wrong_entry_words spot number words.now) }
{
    append_spot(spot, out)?;
    append_pieces(
        out,
        &[
            Piece::Words(b"entry "),
            Piece::Number(number),
            Piece::Words(b" "),
            Piece::Words(words),
        ],
    )
}

/// Appends the text of a refusal.
fn append_refusal(refusal: Refusal, out: &mut Vec<u8>) -> Result<(), OutOfMemory>
    ensures { Appended result out.old out.new (refusal_words refusal) }
{
    match refusal {
        Refusal::Toml(spot) => {
            append_spot(spot, out)?;
            append_pieces(out, &[Piece::Words(b"not TOML")])
        }
        Refusal::Top(spot) => {
            append_spot(spot, out)?;
            append_pieces(out, &[Piece::Words(b"not a `[[race]]` entry")])
        }
        Refusal::Entry(spot, number, mistake) => {
            append_entry(spot, number, mistake_words(mistake), out)
        }
        Refusal::Expired(spot, number) => append_entry(spot, number, b"has expired", out),
        Refusal::OutOfMemory => fault_text(&ReplayFault::OutOfMemory, out),
    }
}

/// Appends the text of a fault, without a line end. If memory runs out, `out` stays as it was.
pub fn triaged_fault_text(fault: &TriagedFault, out: &mut Vec<u8>) -> Result<(), OutOfMemory>
    ensures ok { Appended result out.old out.new (triaged_fault_words fault.now) }
    ensures err { OnErr result (out.new.items ≡ out.old.items) }
{
    let mut text = Vec::new(*out.allocator());
    append_fault(fault, &mut text)?;
    out.extend_from_slice(text.as_slice())?;
    Ok(())
}

/// Appends the text of a fault. If memory runs out, `out` may have a part of it.
fn append_fault(fault: &TriagedFault, out: &mut Vec<u8>) -> Result<(), OutOfMemory>
    ensures { Appended result out.old out.new (triaged_fault_words fault.now) }
{
    match fault {
        TriagedFault::Replay(fault) => fault_text(fault, out),
        TriagedFault::File(refusal) => append_refusal(*refusal, out),
    }
}
