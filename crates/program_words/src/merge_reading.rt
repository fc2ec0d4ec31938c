//! Reads the arguments of `merge`.

use crate::reading::{Filters, block_filters, check_source, texts, today_of, word};
use crate::task::{MergeTask, RacesForm};
use crate::values::{Unread, check_inputs};
use clap::ArgMatches;
use std::alloc::Global;

/// The form in which `merge` prints its report.
fn merged_form(given: &ArgMatches<'_>) -> RacesForm {
    if given.get_flag("sarif") {
        RacesForm::Sarif
    } else if given.get_flag("page") {
        RacesForm::Page
    } else if given.get_flag("json") {
        RacesForm::Json
    } else {
        RacesForm::Text
    }
}

/// The day of `--today`. Refuses arguments of `merge` that do not go together.
fn merged_day(given: &ArgMatches<'_>) -> Result<Option<u32>, Unread> {
    let parts = given.get_strs("PART").unwrap_or(&[]);
    check_inputs(parts, &[word(given, "known"), word(given, "triage")])?;
    check_source(given)?;
    today_of(given)
}

/// The task that the arguments of `merge` name.
pub(crate) fn merge<'a>(alloc: Global, given: &ArgMatches<'a>) -> Result<MergeTask<'a>, Unread> {
    let today = merged_day(given)?;
    let parts = texts(alloc, given, "PART")?;
    let Filters { only, hide } = block_filters(alloc, given)?;
    Ok(MergeTask {
        parts,
        known: given.get_str("known"),
        only,
        hide,
        apart: given.get_flag("apart"),
        form: merged_form(given),
        source: given.get_str("source"),
        triage: given.get_str("triage"),
        today,
        fail: given.get_flag("fail"),
    })
}
