//! Merges reports: reads each file and takes in its parts, and then writes one report of all parts.
ghost use Rattle.std.specs.Prelude.{◌≡◌, List, ℕ, Vec, Err, IfErr, IfOk, OnOk, false, true};
ghost use Rattle.std.specs.declared.alloc.Global.{Global};
ghost use Rattle.client_scripts.specs.declared.fault.ReadCause.TheVariants.{Device};
ghost use Rattle.client_scripts.specs.declared.fault.ReplayFault.TheVariants.{OutOfMemory as NoMemory, Read, Write};
ghost use Rattle.calls.specs.Merged.{AreTakenIn, IsMergedJson, IsMergedText, IsTaken, IsUntaken, IsWritten, IsWrittenJson};
ghost use Rattle.calls.specs.declared.merge_fault.MergeFault.TheVariants.{Replay};

use crate::merge_fault::MergeFault;
use crate::printout::write_text;
use client_scripts::{Sink, Source, read_input};
use race_parts::{Parts, cells_of, merged_json, merged_text, races_in, rows_of, take_file};
use std::alloc::Global;

/// Reads a whole file and takes in its parts: those of a merged report, or one part, which gets this name. `file` is
/// the number of the file, counted from 1.
///
/// The faults are 94, 96, 103, 104 and 114 (docs/FORMATS.md).
pub fn read_part<S: Source>(
    alloc: Global,
    parts: &mut Parts,
    name: &[u8],
    reader: &mut S,
    file: u32,
) -> Result<(), MergeFault>
    requires { S.has_failed reader.old ≡ false }
    // The parts come from bytes that were read. If the type of the reader shows its bytes, they are those.
    ensures ok { OnOk result (IsTaken (S.rest reader.old) name.now parts.old parts.new) }
    ensures there { OnOk result (AreTakenIn (S.rest reader.old) name.now parts.new) }
    ensures err { IfErr result (IsUntaken parts.old file name.now (S.rest reader.old)) }
    ensures device { result ≡ Err (Replay (Read file Device)) → S.has_failed reader.new ≡ true }
    ensures failed { S.has_failed reader.new ≡ true → result ≡ Err (Replay (Read file Device)) }
{
    match read_input(alloc, reader, file) {
        Ok(text) => match take_file(alloc, parts, name, &text, file) {
            Ok(()) => Ok(()),
            Err(refusal) => Err(MergeFault::from(refusal)),
        },
        Err(fault) => Err(MergeFault::Replay(fault)),
    }
}

/// The merged report as text, and how many races it has.
fn text_of(alloc: Global, parts: &Parts, apart: bool) -> Result<(Vec<u8>, u64), MergeFault>
    ensures ok { IfOk result (λ made. IsMergedText parts.now apart made.1 made.0.items) }
    ensures err { IfErr result (λ fault. fault ≡ Replay NoMemory) }
{
    let rows = rows_of(alloc, parts)?;
    let cells = cells_of(alloc, &rows)?;
    let (text, races) = merged_text(alloc, parts.len(), &rows, &cells, apart)?;
    Ok((text, races as u64))
}

/// The merged report as JSON, and how many races it has.
fn json_of(alloc: Global, parts: &Parts) -> Result<(Vec<u8>, u64), MergeFault>
    ensures ok { IfOk result (λ made. IsMergedJson parts.now made.1 made.0.items) }
    ensures err { IfErr result (λ fault. fault ≡ Replay NoMemory) }
{
    let rows = rows_of(alloc, parts)?;
    let cells = cells_of(alloc, &rows)?;
    let text = merged_json(alloc, parts, &cells)?;
    Ok((text, races_in(&cells) as u64))
}

/// Writes the merged report of the parts as text (docs/FORMATS.md, "A merged report"). With `apart`, it also has blocks
/// of what is apart. Returns how many races the report has.
///
/// At fault 96 nothing is written. At 95 the writer has taken a beginning of the text.
pub fn write_merged<K: Sink>(
    alloc: Global,
    parts: &Parts,
    apart: bool,
    writer: &mut K,
) -> Result<u64, MergeFault>
    requires { K.has_failed writer.old ≡ false }
    ensures written { IsWritten parts.now apart (K.taken writer.old) (K.taken writer.new) result }
    ensures write { K.has_failed writer.new ≡ true → result ≡ Err (Replay Write) }
    ensures write_failed { result ≡ Err (Replay Write) → K.has_failed writer.new ≡ true }
{
    let (text, races) = match text_of(alloc, parts, apart) {
        Ok(made) => made,
        Err(fault) => return Err(fault),
    };
    match write_text(writer, text.as_slice()) {
        Ok(()) => Ok(races),
        Err(fault) => Err(MergeFault::Replay(fault)),
    }
}

/// Writes the merged report of the parts as JSON, which may be merged again. Returns how many races the report has.
///
/// At fault 96 nothing is written. At 95 the writer has taken a beginning of the text.
pub fn write_merged_json<K: Sink>(
    alloc: Global,
    parts: &Parts,
    writer: &mut K,
) -> Result<u64, MergeFault>
    requires { K.has_failed writer.old ≡ false }
    ensures written { IsWrittenJson parts.now (K.taken writer.old) (K.taken writer.new) result }
    ensures write { K.has_failed writer.new ≡ true → result ≡ Err (Replay Write) }
    ensures write_failed { result ≡ Err (Replay Write) → K.has_failed writer.new ≡ true }
{
    let (json, races) = match json_of(alloc, parts) {
        Ok(made) => made,
        Err(fault) => return Err(fault),
    };
    match write_text(writer, json.as_slice()) {
        Ok(()) => Ok(races),
        Err(fault) => Err(MergeFault::Replay(fault)),
    }
}
