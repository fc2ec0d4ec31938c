//! Reports on recordings that are not whole. They are made in memory, and then say what is missing.
ghost use Rattle.std.specs.Prelude.{◌≡◌, false};

use crate::quoted::append_number;
use calls::triage::{Place, missing_in, said};
use calls::{MergeFault, Parts, read_part};
use client_scripts::{FromRead, ReplayFault, Sink, write_all};
use program_words::RacesForm;
use rapid_text::OutOfMemory;
use std::alloc::Global;

/// Where a report in this form says what is missing.
fn place_of(form: RacesForm) -> Place {
    match form {
        RacesForm::Text => Place::Line,
        RacesForm::Json => Place::Member,
        RacesForm::Lines => Place::Warning,
        RacesForm::Entries => Place::Comment,
        RacesForm::Page => Place::Paragraph,
        RacesForm::Sarif => Place::Notification,
    }
}

/// Writes a report in this form, which says what is missing in these words.
pub(crate) fn write_missing<K: Sink>(
    alloc: Global,
    form: RacesForm,
    words: &[u8],
    report: &[u8],
    writer: &mut K,
) -> Result<(), ReplayFault>
    requires { K.has_failed writer.old ≡ false }
{
    let Ok(text) = said(alloc, place_of(form), words, report) else {
        return Err(ReplayFault::OutOfMemory);
    };
    match write_all(writer, text.as_slice()) {
        Ok(()) => Ok(()),
        Err(_) => Err(ReplayFault::Write),
    }
}

/// How many of the parts miss something, in words; empty if none is known to.
pub(crate) fn missing_words(alloc: Global, parts: &Parts) -> Result<Vec<u8>, OutOfMemory> {
    let mut words = Vec::new(alloc);
    let count = missing_in(alloc, parts)?;
    if count > 0 {
        append_number(&mut words, count)?;
        words.extend_from_slice(b" of ")?;
        append_number(&mut words, parts.len() as u64)?;
        words.extend_from_slice(if parts.len() == 1 {
            b" part".as_slice()
        } else {
            b" parts".as_slice()
        })?;
    }
    Ok(words)
}

/// The same parts, each of which says what is missing in these words.
pub(crate) fn marked_parts(
    alloc: Global,
    parts: &Parts,
    words: &[u8],
) -> Result<Parts, MergeFault> {
    let mut marked = Parts::new(alloc);
    let mut file: u32 = 1;
    for (name, part) in parts {
        let text = said(alloc, Place::Member, words, part.text.as_slice())?;
        let mut reader = FromRead::new(text.as_slice());
        read_part(alloc, &mut marked, name.as_slice(), &mut reader, file)?;
        file = file.saturating_add(1);
    }
    Ok(marked)
}
