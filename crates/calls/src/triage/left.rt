//! Writes a merged report from which pairs of locations are left out.
ghost use Rattle.std.specs.Prelude.{◌≡◌, Err, IfOk, false, map, true};
ghost use Rattle.std.specs.List.{after_first};
ghost use Rattle.client_scripts.specs.declared.fault.ReplayFault.TheVariants.{Write};
ghost use Rattle.race_parts.specs.Cells.{AreSorted, row_said, rows_in};
ghost use Rattle.rapid_text.specs.Appended.{Appended};
ghost use Rattle.rapid_text.specs.Reading.{is_line_feed};
ghost use Rattle.calls.specs.triage.Left.{count_text, head_text, json_text, left_out, member_text, word_text, IsLeftText, IsLeftTold, IsLeftWritten, IsPageOf, IsLogOf};
ghost use Rattle.calls.specs.declared.triage.fault.TriageFault.TheVariants.{Replay};

use crate::triage::fault::TriageFault;
use crate::triage::leaving::{Choice, Left, left_of, pairs_in};
use crate::triage::writing::write_text;
use client_scripts::Sink;
use memchr::memchr;
use race_page::{LeftOut, merged_page};
use race_parts::{
    Cell, Parts, Row, cells_of, merged_json, merged_text, pairs_of, races_in, rows_of,
};
use rapid_text::OutOfMemory;
use report::{Piece, append_pieces};
use std::alloc::Global;
use triage_report::sarif::{Sources, merged_sarif};

/// The form in which a merged report is written.
#[derive(Clone, Copy)]
pub enum MergedForm<'a> {
    /// Lines of text.
    Text,
    /// An object of JSON a line. It has the whole parts, so it may be merged again.
    Json,
    /// A log of SARIF 2.1.0, which code-scanning pages read.
    Sarif {
        /// The code that ran: its folder, and lines for fingerprints.
        sources: Sources<'a>,
    },
    /// A page (HTML).
    Page,
}

/// The options of a merged report.
#[derive(Clone, Copy)]
pub struct MergedAsked<'a> {
    /// What leaves pairs of locations out.
    pub choice: Choice<'a>,
    /// Whether the report has blocks of what is apart.
    pub apart: bool,
    /// The form of the report.
    pub form: MergedForm<'a>,
}

/// Appends a line with a word and a number, if there is a number.
fn append_count(out: &mut Vec<u8>, word: &[u8], count: Option<u64>) -> Result<(), OutOfMemory>
    ensures { Appended result out.old out.new (count_text word.now count) }
{
    match count {
        Some(count) => append_pieces(
            out,
            &[
                Piece::Words(word),
                Piece::Words(b" "),
                Piece::Number(count),
                Piece::Words(b"\n"),
            ],
        ),
        None => Ok(()),
    }
}

/// The report as lines of text.
fn words_of(
    alloc: Global,
    parts: usize,
    rows: &[Row<'_>],
    left: &Left<'_>,
    apart: bool,
) -> Result<Vec<u8>, OutOfMemory>
    ensures { IfOk result (λ text. text.items ≡ word_text parts rows.now left.now apart) }
{
    let (mut text, _) = merged_text(alloc, parts, rows, left.cells.as_slice(), apart)?;
    append_count(&mut text, b"known", left.known)?;
    append_count(&mut text, b"hidden", left.hidden)?;
    Ok(text)
}

/// Appends a member of an object, if there is a number. `name` has the quotes and the colon.
fn append_member(out: &mut Vec<u8>, name: &[u8], count: Option<u64>) -> Result<(), OutOfMemory>
    ensures { Appended result out.old out.new (member_text name.now count) }
{
    match count {
        Some(count) => append_pieces(
            out,
            &[Piece::Words(name), Piece::Number(count), Piece::Words(b",")],
        ),
        None => Ok(()),
    }
}

/// Appends the first line of the JSON.
fn append_head(
    out: &mut Vec<u8>,
    parts: usize,
    pairs: usize,
    left: &Left<'_>,
) -> Result<(), OutOfMemory>
    ensures { Appended result out.old out.new (head_text parts pairs left.now.known left.now.hidden) }
{
    append_pieces(out, &[Piece::Words(b"{")])?;
    append_member(out, b"\"hidden\":", left.hidden)?;
    append_pieces(out, &[Piece::Words(b"\"kind\":\"merged\",")])?;
    append_member(out, b"\"known\":", left.known)?;
    append_pieces(
        out,
        &[
            Piece::Words(b"\"pairs\":"),
            Piece::Number(pairs as u64),
            Piece::Words(b",\"parts\":"),
            Piece::Number(parts as u64),
            Piece::Words(b",\"version\":1}\n"),
        ],
    )?;
    Ok(())
}

/// What comes after the first line; empty if the text has no line end.
fn behind_first(text: &[u8]) -> &[u8]
    ensures { result.now ≡ after_first is_line_feed text.now }
{
    match memchr(b'\n', text) {
        Some(end) => &text[end + 1..],
        None => &[],
    }
}

/// Appends the lines after the first.
fn append_behind(out: &mut Vec<u8>, text: &[u8]) -> Result<(), OutOfMemory>
    ensures { Appended result out.old out.new (after_first is_line_feed text.now) }
{
    out.extend_from_slice(behind_first(text))?;
    Ok(())
}

/// The report as JSON.
fn json_of(alloc: Global, parts: &Parts, left: &Left<'_>) -> Result<Vec<u8>, OutOfMemory>
    ensures { IfOk result (λ text. text.items ≡ json_text parts.now.entries left.now) }
{
    let whole = merged_json(alloc, parts, left.cells.as_slice())?;
    let mut text = Vec::new(alloc);
    append_head(
        &mut text,
        parts.len(),
        pairs_in(left.cells.as_slice()),
        left,
    )?;
    append_behind(&mut text, whole.as_slice())?;
    Ok(text)
}

/// The report as a SARIF log.
fn log_of(
    alloc: Global,
    parts: usize,
    rows: &[Row<'_>],
    left: &Left<'_>,
    apart: bool,
    sources: Sources<'_>,
) -> Result<Vec<u8>, OutOfMemory>
    ensures { IfOk result (λ text. IsLogOf parts rows.now left.now apart sources.entry text.items) }
{
    let pairs = pairs_of(alloc, rows, left.cells.as_slice(), apart)?;
    let mut text = Vec::new(alloc);
    merged_sarif(
        parts,
        pairs.as_slice(),
        sources,
        left.known,
        left.hidden,
        &mut text,
    )?;
    Ok(text)
}

/// How many pairs of locations were left out.
fn left_out_of(left: &Left<'_>) -> LeftOut
    ensures { result ≡ left_out left.now }
{
    LeftOut {
        known: left.known,
        hidden: left.hidden,
    }
}

/// The report as a page.
fn page_of(
    alloc: Global,
    parts: usize,
    rows: &[Row<'_>],
    left: &Left<'_>,
    apart: bool,
) -> Result<Vec<u8>, OutOfMemory>
    ensures { IfOk result (λ text. IsPageOf parts rows.now left.now apart text.items) }
{
    let pairs = pairs_of(alloc, rows, left.cells.as_slice(), apart)?;
    let mut text = Vec::new(alloc);
    merged_page(parts, pairs.as_slice(), apart, left_out_of(left), &mut text)?;
    Ok(text)
}

/// The report in the requested form.
fn text_by(
    alloc: Global,
    parts: &Parts,
    rows: &[Row<'_>],
    left: &Left<'_>,
    asked: MergedAsked<'_>,
) -> Result<Vec<u8>, OutOfMemory>
    ensures { IfOk result (λ text. IsLeftText asked.entry.form parts.now.entries rows.now left.now asked.entry.apart text.items) }
{
    match asked.form {
        MergedForm::Text => words_of(alloc, parts.len(), rows, left, asked.apart),
        MergedForm::Json => json_of(alloc, parts, left),
        MergedForm::Sarif { sources } => {
            log_of(alloc, parts.len(), rows, left, asked.apart, sources)
        }
        MergedForm::Page => page_of(alloc, parts.len(), rows, left, asked.apart),
    }
}

/// The report of the parts, and how many races it has.
fn left_told(
    alloc: Global,
    parts: &Parts,
    asked: MergedAsked<'_>,
) -> Result<(Vec<u8>, u64), OutOfMemory>
    ensures { IfOk result (λ made. IsLeftTold parts.now asked.entry made.1 made.0.items) }
{
    let rows = rows_of(alloc, parts)?;
    let cells = cells_of(alloc, &rows)?;
    told_in(alloc, parts, &rows, &cells, asked)
}

/// The same, from these rows and from the cells, which are these rows in the order of the report.
fn told_in(
    alloc: Global,
    parts: &Parts,
    rows: &[Row<'_>],
    cells: &[Cell<'_>],
    asked: MergedAsked<'_>,
) -> Result<(Vec<u8>, u64), OutOfMemory>
    requires rows { map row_said rows.now ≡ rows_in parts.now.entries }
    requires sorted { AreSorted (map row_said rows.now) cells.now }
    ensures { IfOk result (λ made. IsLeftTold parts.now asked.entry made.1 made.0.items) }
{
    let left = left_of(alloc, rows, cells, asked.choice)?;
    let text = text_by(alloc, parts, rows, &left, asked)?;
    Ok((text, races_in(left.cells.as_slice()) as u64))
}

/// Writes the merged report of the parts as requested. Known races, and blocks that the filters drop, are left out and
/// counted (docs/FORMATS.md, "What is left out of a merged report"). Returns how many races are printed.
///
/// At fault 96 nothing is written. At 95 the writer has taken a beginning of the text.
pub fn write_left<K: Sink>(
    alloc: Global,
    parts: &Parts,
    asked: MergedAsked<'_>,
    writer: &mut K,
) -> Result<u64, TriageFault>
    requires { K.has_failed writer.old ≡ false }
    ensures written { IsLeftWritten parts.now asked.entry (K.taken writer.old) (K.taken writer.new) result }
    ensures write { K.has_failed writer.new ≡ true → result ≡ Err (Replay Write) }
    ensures write_failed { result ≡ Err (Replay Write) → K.has_failed writer.new ≡ true }
{
    let (text, races) = match left_told(alloc, parts, asked) {
        Ok(made) => made,
        Err(refused) => return Err(TriageFault::from(refused)),
    };
    match write_text(writer, text.as_slice()) {
        Ok(()) => Ok(races),
        Err(fault) => Err(fault),
    }
}
