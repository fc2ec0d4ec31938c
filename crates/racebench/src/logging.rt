//! Writes a merged report as a SARIF log.
ghost use Rattle.std.specs.Prelude.{◌≡◌, false};

use crate::coding::{code_for, tell_code};
use calls::Parts;
use calls::triage::{MergedLog, TriageFault, write_merged_sarif};
use client_scripts::Sink;
use race_parts::{cells_of, rows_of};

/// Writes the parts as a SARIF log, with the code in this folder, if one is named. Returns how many races the log has.
/// Notes say what is missing or not sure about the code.
pub(crate) fn write_log_in<K: Sink>(
    rt: &HostRuntime,
    parts: &Parts,
    apart: bool,
    folder: Option<&str>,
    writer: &mut K,
) -> Result<u64, TriageFault>
    requires { K.has_failed writer.old ≡ false }
{
    let rows = rows_of(rt.alloc(), parts)?;
    let cells = cells_of(rt.alloc(), &rows)?;
    let code = code_for(rt, folder, &cells)?;
    let log = MergedLog {
        apart,
        sources: code.sources(),
    };
    let races = write_merged_sarif(rt.alloc(), parts, &rows, &cells, log, writer)?;
    tell_code(rt, folder, &code)?;
    Ok(races)
}
