//! Writes a merged report as a SARIF log or as a page.
ghost use Rattle.std.specs.Prelude.{◌≡◌, Err, IfErr, IfOk, false, map, true};
ghost use Rattle.client_scripts.specs.declared.fault.ReplayFault.TheVariants.{OutOfMemory as NoMemory, Write};
ghost use Rattle.race_parts.specs.Cells.{AreSorted, row_said, rows_in};
ghost use Rattle.calls.specs.triage.Merging.{IsLogWritten, IsMergedLog, IsMergedPage, IsPageWritten};
ghost use Rattle.calls.specs.declared.triage.fault.TriageFault.TheVariants.{Replay};

use crate::triage::fault::TriageFault;
use crate::triage::writing::write_text;
use client_scripts::Sink;
use race_page::{LeftOut, merged_page};
use race_parts::{Cell, Parts, Row, cells_of, pairs_of, races_in, rows_of};
use std::alloc::Global;
use triage_report::sarif::{Sources, merged_sarif};

/// The counts if nothing can be left out.
const NONE_LEFT: LeftOut = LeftOut {
    known: None,
    hidden: None,
};

/// What a SARIF log of a merged report has.
#[derive(Clone, Copy)]
pub struct MergedLog<'a> {
    /// Whether the log has results for what is apart.
    pub apart: bool,
    /// The code that ran: its folder, and lines for fingerprints.
    pub sources: Sources<'a>,
}

/// The merged report as a SARIF log, and how many races it has.
fn log_of<'a>(
    alloc: Global,
    parts: &Parts,
    rows: &'a [Row<'_>],
    cells: &[Cell<'a>],
    log: MergedLog<'_>,
) -> Result<(Vec<u8>, u64), TriageFault>
    requires rows { map row_said rows.now ≡ rows_in parts.now.entries }
    requires sorted { AreSorted (map row_said rows.now) cells.now }
    ensures ok { IfOk result (λ made. IsMergedLog parts.now log.entry made.1 made.0.items) }
    ensures err { IfErr result (λ fault. fault ≡ Replay NoMemory) }
{
    let pairs = pairs_of(alloc, rows, cells, log.apart)?;
    let mut text = Vec::new(alloc);
    merged_sarif(
        parts.len(),
        pairs.as_slice(),
        log.sources,
        None,
        None,
        &mut text,
    )?;
    Ok((text, races_in(cells) as u64))
}

/// Writes the merged report of the parts as a log of SARIF 2.1.0 (docs/FORMATS.md, "SARIF"). `rows` are the rows of all
/// parts, and `cells` are these rows in the order of the report. Returns how many races the log has.
///
/// At fault 96 nothing is written. At 95 the writer has taken a beginning of the log.
pub fn write_merged_sarif<'a, K: Sink>(
    alloc: Global,
    parts: &Parts,
    rows: &'a [Row<'_>],
    cells: &[Cell<'a>],
    log: MergedLog<'_>,
    writer: &mut K,
) -> Result<u64, TriageFault>
    requires rows { map row_said rows.now ≡ rows_in parts.now.entries }
    requires sorted { AreSorted (map row_said rows.now) cells.now }
    requires writer { K.has_failed writer.old ≡ false }
    ensures written { IsLogWritten parts.now log.entry (K.taken writer.old) (K.taken writer.new) result }
    ensures write { K.has_failed writer.new ≡ true → result ≡ Err (Replay Write) }
    ensures write_failed { result ≡ Err (Replay Write) → K.has_failed writer.new ≡ true }
{
    let (sarif, races) = match log_of(alloc, parts, rows, cells, log) {
        Ok(made) => made,
        Err(fault) => return Err(fault),
    };
    match write_text(writer, sarif.as_slice()) {
        Ok(()) => Ok(races),
        Err(fault) => Err(fault),
    }
}

/// The merged report as a page, and how many races it has.
fn page_of(alloc: Global, parts: &Parts, apart: bool) -> Result<(Vec<u8>, u64), TriageFault>
    ensures ok { IfOk result (λ made. IsMergedPage parts.now apart made.1 made.0.items) }
    ensures err { IfErr result (λ fault. fault ≡ Replay NoMemory) }
{
    let rows = rows_of(alloc, parts)?;
    let cells = cells_of(alloc, &rows)?;
    let pairs = pairs_of(alloc, &rows, &cells, apart)?;
    let mut text = Vec::new(alloc);
    merged_page(parts.len(), pairs.as_slice(), apart, NONE_LEFT, &mut text)?;
    Ok((text, races_in(&cells) as u64))
}

/// Writes the merged report of the parts as a page (HTML). With `apart`, the page also has what is apart. Returns how
/// many races the page has.
///
/// At fault 96 nothing is written. At 95 the writer has taken a beginning of the page.
pub fn write_merged_page<K: Sink>(
    alloc: Global,
    parts: &Parts,
    apart: bool,
    writer: &mut K,
) -> Result<u64, TriageFault>
    requires { K.has_failed writer.old ≡ false }
    ensures written { IsPageWritten parts.now apart (K.taken writer.old) (K.taken writer.new) result }
    ensures write { K.has_failed writer.new ≡ true → result ≡ Err (Replay Write) }
    ensures write_failed { result ≡ Err (Replay Write) → K.has_failed writer.new ≡ true }
{
    let (page, races) = match page_of(alloc, parts, apart) {
        Ok(made) => made,
        Err(fault) => return Err(fault),
    };
    match write_text(writer, page.as_slice()) {
        Ok(()) => Ok(races),
        Err(fault) => Err(fault),
    }
}
