//! What a report says of a recording that is not whole.
ghost use Rattle.std.specs.Prelude.{◌≡◌, ◌≤◌, IfOk, length};
ghost use Rattle.rapid_text.specs.Appended.{Appended};
ghost use Rattle.wholeness.specs.Saying.{said_text, words_after, words_before, IsPlaceIn, IsSaid};

use memchr::memmem::find;
use rapid_text::OutOfMemory;
use std::alloc::Global;

/// Where a report says it.
#[derive(Clone, Copy, PartialEq, Eq, Debug)]
pub enum Place {
    /// In the first line of a text.
    Line,
    /// In the first member of the first object, of JSON.
    Member,
    /// In the first line, as editors read it.
    Warning,
    /// In a comment in the first line, of TOML.
    Comment,
    /// In a paragraph before the first section of a page.
    Paragraph,
    /// In a notification of a SARIF log.
    Notification,
}

/// With what the part of a page begins that has the sections.
const MAIN: &[u8] = b"<main>\n";

/// How many bytes of a SARIF log come after the members of its run.
const LOG_END: usize = 4;

/// What comes before the words.
fn words_before(place: Place) -> &'static [u8]
    ensures { result.now ≡ words_before place }
{
    match place {
        Place::Line => b"not whole: ",
        Place::Member => b"\"absent\":\"",
        Place::Warning => b"?: warning: the recording is not whole: ",
        Place::Comment => b"# The recording is not whole: ",
        Place::Paragraph => b"<p><strong>The recording is not whole:</strong> ",
        Place::Notification => b",\"invocations\":[{\"executionSuccessful\":true,\
\"toolExecutionNotifications\":[{\"level\":\"warning\",\"message\":{\"text\":\"The recording is not whole: ",
    }
}

/// What comes after the words.
fn words_after(place: Place) -> &'static [u8]
    ensures { result.now ≡ words_after place }
{
    match place {
        Place::Line | Place::Comment => b"\n",
        Place::Member => b"\",",
        Place::Warning => b" [not-whole]\n",
        Place::Paragraph => b"</p>\n",
        Place::Notification => b"\"}}]}]",
    }
}

/// Where the sections of a page begin; 0 if that is not found.
fn sections_of(page: &[u8]) -> usize
    ensures { IsPlaceIn Place.Paragraph page.now result }
{
    let Some(start) = find(page, MAIN) else {
        return 0;
    };
    let at = start.saturating_add(MAIN.len()).min(page.len());
    if page[..at].ends_with(MAIN) { at } else { 0 }
}

/// Where the words come in this report.
fn place_in(place: Place, report: &[u8]) -> usize
    ensures { IsPlaceIn place report.now result }
{
    match place {
        Place::Line | Place::Warning | Place::Comment => 0,
        Place::Member => report.len().min(1),
        Place::Paragraph => sections_of(report),
        Place::Notification => report.len().saturating_sub(LOG_END),
    }
}

/// Appends the report with these words at this index.
fn append_said(
    out: &mut Vec<u8>,
    place: Place,
    words: &[u8],
    report: &[u8],
    at: usize,
) -> Result<(), OutOfMemory>
    requires { at ≤ length report.now }
    ensures { Appended result out.old out.new (said_text place words.now report.now at) }
{
    out.extend_from_slice(&report[..at])?;
    out.extend_from_slice(words_before(place))?;
    out.extend_from_slice(words)?;
    out.extend_from_slice(words_after(place))?;
    out.extend_from_slice(&report[at..])?;
    Ok(())
}

/// The report, which says that the recording is not whole, in these words.
pub fn said(
    alloc: Global,
    place: Place,
    words: &[u8],
    report: &[u8],
) -> Result<Vec<u8>, OutOfMemory>
    ensures { IfOk result (λ text. IsSaid place words.now report.now text.items) }
{
    let at = place_in(place, report).min(report.len());
    let mut text = Vec::new(alloc);
    append_said(&mut text, place, words, report, at)?;
    Ok(text)
}
