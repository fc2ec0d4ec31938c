//! What `merge` and `triage --windows` leave out of a merged report.
ghost use Rattle.std.specs.Prelude.{◌≡◌, false};

use crate::coding::{Code, code_for, tell_code};
use crate::input::input_at;
use crate::seen::Seen;
use crate::telling::tell_files;
use crate::telling_triage::{tell_blockless, tell_dateless, tell_marks, tell_triaged};
use crate::today::today_of;
use calls::triage::{
    Choice, Filters, Hears, MergedAsked, MergedForm, Silent, TriageFault, entries_of, has_block,
    hides, is_met, read_triaged, write_left,
};
use calls::{BenchFault, Parts};
use client_scripts::{Sink, read_input};
use program_words::{MergeTask, RacesForm, TriageTask};
use race_parts::{Cell, Row, cells_of, rows_of};
use rapid_text::OutOfMemory;
use std::process::ExitCode;
use std::sync::atomic::AtomicU64;
use toml::{Table, Value};

/// The number of the text of known races in faults.
const KNOWN: u32 = 2;

/// The options that say which pairs of locations are left out.
#[derive(Clone, Copy)]
pub(crate) struct Wanted<'a> {
    known: Option<&'a str>,
    triage: Option<&'a str>,
    today: Option<u32>,
    only: &'a [&'a str],
    hide: &'a [&'a str],
}

/// These options of `merge`.
pub(crate) fn wanted_of<'a>(task: &'a MergeTask<'_>) -> Wanted<'a> {
    Wanted {
        known: task.known,
        triage: task.triage,
        today: task.today,
        only: task.only.as_slice(),
        hide: task.hide.as_slice(),
    }
}

/// These options of `triage --windows`.
pub(crate) fn wanted_in<'a>(task: &'a TriageTask<'_>) -> Wanted<'a> {
    Wanted {
        known: task.known,
        triage: task.triage,
        today: task.today,
        only: task.only.as_slice(),
        hide: task.hide.as_slice(),
    }
}

/// Whether any option to leave out races is given.
pub(crate) fn is_any(wanted: Wanted<'_>) -> bool {
    wanted.known.is_some()
        || wanted.triage.is_some()
        || !wanted.only.is_empty()
        || !wanted.hide.is_empty()
}

/// The files that these options name: the text of known races, and the triage file.
#[derive(Drop)]
pub(crate) struct Decided {
    known: Option<Vec<u8>>,
    table: Option<Table>,
}

/// Reads the text of known races, if one is named. Reports a fault.
fn known_at(rt: &HostRuntime, path: Option<&str>) -> Result<Option<Vec<u8>>, ExitCode> {
    let Some(path) = path else {
        return Ok(None);
    };
    match read_input(rt.alloc(), &mut input_at(rt, path), KNOWN) {
        Ok(text) => Ok(Some(text)),
        Err(fault) => Err(tell_files(rt, BenchFault::from(fault), &["", path])),
    }
}

/// Reads the triage file, if one is named. Reports a fault.
fn table_at(rt: &HostRuntime, wanted: Wanted<'_>) -> Result<Option<Table>, ExitCode> {
    let Some(path) = wanted.triage else {
        return Ok(None);
    };
    let Some(today) = today_of(rt, wanted.today) else {
        return Err(tell_dateless(rt));
    };
    match read_triaged(rt.alloc(), &mut input_at(rt, path), today) {
        Ok(table) => Ok(Some(table)),
        Err(fault) => Err(tell_triaged(rt, fault, path)),
    }
}

/// Reads the files that the options name. Reports a fault.
pub(crate) fn read_decided(rt: &HostRuntime, wanted: Wanted<'_>) -> Result<Decided, ExitCode> {
    match table_at(rt, wanted) {
        Ok(table) => decided_with(rt, wanted, table),
        Err(status) => Err(status),
    }
}

/// Reads the text of known races, and adds this triage file. Reports a fault.
fn decided_with(
    rt: &HostRuntime,
    wanted: Wanted<'_>,
    table: Option<Table>,
) -> Result<Decided, ExitCode> {
    match known_at(rt, wanted.known) {
        Ok(known) => Ok(Decided { known, table }),
        Err(status) => Err(status),
    }
}

/// The text of known races, if there is one.
fn text_in(decided: &Decided) -> Option<&[u8]> {
    match &decided.known {
        Some(text) => Some(text.as_slice()),
        None => None,
    }
}

/// The entries of the triage file, if there is one.
fn entries_in(decided: &Decided) -> Option<&[Value]> {
    match &decided.table {
        Some(table) => Some(entries_of(table)),
        None => None,
    }
}

/// What leaves pairs of locations out, in the type that the calls take.
fn choice_of<'a>(decided: &'a Decided, wanted: Wanted<'a>) -> Choice<'a> {
    Choice {
        known: text_in(decided),
        entries: entries_in(decided),
        filters: Filters {
            only: wanted.only,
            hide: wanted.hide,
        },
    }
}

/// How a merged report is printed.
#[derive(Clone, Copy)]
pub(crate) struct Printed<'a> {
    pub(crate) apart: bool,
    pub(crate) form: RacesForm,
    pub(crate) source: Option<&'a str>,
}

/// The options of a merged report in this form.
fn asked_of<'a>(choice: Choice<'a>, apart: bool, form: MergedForm<'a>) -> MergedAsked<'a> {
    MergedAsked {
        choice,
        apart,
        form,
    }
}

/// The form of the report. A SARIF log has this code.
fn form_of<'a>(form: RacesForm, code: &'a Code<'_>) -> MergedForm<'a> {
    match form {
        RacesForm::Json => MergedForm::Json,
        RacesForm::Page => MergedForm::Page,
        RacesForm::Sarif => MergedForm::Sarif {
            sources: code.sources(),
        },
        _ => MergedForm::Text,
    }
}

/// The folder of code, if the report is a SARIF log and a folder is named.
fn code_folder<'a>(printed: Printed<'a>) -> Option<&'a str> {
    match printed.form {
        RacesForm::Sarif => printed.source,
        _ => None,
    }
}

/// Writes the merged report without what the options leave out. Returns how many races it has. Notes say what is
/// missing or not sure about the code.
pub(crate) fn write_decided<K: Sink>(
    rt: &HostRuntime,
    parts: &Parts,
    decided: &Decided,
    wanted: Wanted<'_>,
    printed: Printed<'_>,
    writer: &mut K,
) -> Result<u64, TriageFault>
    requires { K.has_failed writer.old ≡ false }
{
    let rows = rows_of(rt.alloc(), parts)?;
    let cells = cells_of(rt.alloc(), &rows)?;
    let folder = code_folder(printed);
    let code = code_for(rt, folder, &cells)?;
    let choice = choice_of(decided, wanted);
    let asked = asked_of(choice, printed.apart, form_of(printed.form, &code));
    let races = write_left(rt.alloc(), parts, asked, writer)?;
    tell_code(rt, folder, &code)?;
    Ok(races)
}

/// Marks which of the entries are about a race of the cells.
fn mark_all(
    rt: &HostRuntime,
    rows: &[Row<'_>],
    cells: &[Cell<'_>],
    entries: &[Value],
    marks: &[AtomicU64],
) -> Result<(), OutOfMemory> {
    let seen = Seen::new(&Silent, marks);
    for at in 0..entries.len() {
        let is_met = is_met(rt.alloc(), rows, cells, &entries[at])?;
        seen.met(at, hides(&entries[at]), is_met);
    }
    Ok(())
}

/// Prints which entries of the triage file at this path are about no race, and which `fixed` ones are about a race.
fn tell_entries(
    rt: &HostRuntime,
    parts: &Parts,
    entries: &[Value],
    path: &str,
) -> Result<(), OutOfMemory> {
    let rows = rows_of(rt.alloc(), parts)?;
    let cells = cells_of(rt.alloc(), &rows)?;
    tell_entries_of(rt, &rows, &cells, entries, path)
}

/// Prints the same, from these rows and cells.
fn tell_entries_of(
    rt: &HostRuntime,
    rows: &[Row<'_>],
    cells: &[Cell<'_>],
    entries: &[Value],
    path: &str,
) -> Result<(), OutOfMemory> {
    let mut marks = Vec::new(rt.alloc());
    for _entry in entries {
        marks.push(AtomicU64::new(0))?;
    }
    mark_all(rt, rows, cells, entries, marks.as_slice())?;
    tell_marks(rt, path, marks.as_slice())
}

/// Prints what `triage` prints after its output: on entries, and on a text of known races without a block.
pub(crate) fn tell_decided(
    rt: &HostRuntime,
    parts: &Parts,
    decided: &Decided,
    wanted: Wanted<'_>,
) -> Result<(), OutOfMemory> {
    if let Some(entries) = entries_in(decided) {
        tell_entries(rt, parts, entries, wanted.triage.unwrap_or(""))?;
    }
    match text_in(decided) {
        Some(text) if !has_block(text) => tell_blockless(rt, wanted.known.unwrap_or("")),
        _ => Ok(()),
    }
}
