//! Adds a file to the parts: a part, or a merged report with the parts in it.
ghost use Rattle.std.specs.Prelude.{◌≡◌, ◌<◌, ◌∷◌, [], None, IfErr, IfOk, OnErr, OnOk, length, map, not, position, true};
ghost use Rattle.std.specs.BTreeMap.{IsUnchanged};
ghost use Rattle.serde_json.specs.View.{view};
ghost use Rattle.race_parts.specs.Kept.{AreKept};
ghost use Rattle.race_parts.specs.Lines.{IsReadOn};
ghost use Rattle.race_parts.specs.Merging.{AreTextsAdded, Gives, GivesReport, IsFileAdded, IsFileAddedFrom, IsFileThere, IsLineAdded, IsPartAdded, IsPartText, IsReportAdded};
ghost use Rattle.race_parts.specs.Merging.{AreWrongIn, IsLineRefused, IsPartRefused, IsRefused, IsReportRefused, IsSound, IsUnsound, IsUnputOr, IsUntaken};
ghost use Rattle.race_parts.specs.Merging.{ClashesBy, ClashesIn, HasOtherIn, HasOtherLine, HasOtherPart, IsClash, ListsReport};
ghost use Rattle.race_parts.specs.Merging.{is_foreign, is_merged_head, is_part_line, name_told, one_behind, part_lines, text_told, told_of, told_parts, wrong_behind_head, wrong_merged};
ghost use Rattle.race_parts.specs.Parts.{AddsOnly, AreMerged, AreMergedFrom, AreThere, HasOther, HasPart, IsPutFault, IsUndone, OnClash, held_at, single, told_in};

use crate::kept::KeptRow;
use crate::lines::{Begun, PartRefusal, ReadRows, begin, lines_in, rows_in};
use crate::members::{has_number, has_text, is_kind, number_of, text_of};
use crate::parts::{Part, Parts};
use crate::putting::put;
use crate::rows::{is_other_version, wrong_line};
use crate::undoing::{note_new, take_out};
use rapid_text::OutOfMemory;
use serde_json::Value;
use std::alloc::Global;

/// Adds a file: a part, which gets this name, or a merged report, whose parts have names of their own. If the call
/// fails, the parts are as before. A `Clash` gives the number of the file that the other part came from. The other part
/// was there before, or comes earlier in this file.
pub fn take_file(
    alloc: Global,
    parts: &mut Parts,
    name: &[u8],
    text: &[u8],
    file: u32,
) -> Result<(), PartRefusal>
    ensures ok { OnOk result (IsFileAdded parts.old parts.new (Gives name.now text.now)) }
    ensures held { OnOk result (IsFileAddedFrom file parts.old parts.new (Gives name.now text.now)) }
    ensures there { OnOk result (IsFileThere parts.new (Gives name.now text.now)) }
    ensures unchanged { OnErr result (IsUnchanged parts.old parts.new) }
    ensures err { IfErr result (IsRefused text.now) }
    ensures clash { OnClash result (ClashesIn parts.old name.now text.now file) }
{
    if text.is_empty() {
        return Err(PartRefusal::Line(0));
    }
    let begun = begin(alloc, text)?;
    if is_merged(&begun.head) {
        take_report(alloc, parts, text, begun, file)
    } else {
        take_part(alloc, parts, name, text, begun, file)
    }
}

/// Whether the value is the first line of a merged report.
fn is_merged(head: &Value) -> bool
    ensures { result ≡ is_merged_head (view head.now) }
{
    is_kind(head, "merged") && has_number(head, "parts") && has_number(head, "pairs")
}

/// A copy of the bytes.
fn copied(alloc: Global, bytes: &[u8]) -> Result<Vec<u8>, OutOfMemory>
    ensures { IfOk result (λ copy. copy.items ≡ bytes.now) }
{
    Ok(Vec::from_slice(alloc, bytes)?)
}

/// Adds a text that must be a part.
fn take_part(
    alloc: Global,
    parts: &mut Parts,
    name: &[u8],
    text: &[u8],
    begun: Begun<'_>,
    file: u32,
) -> Result<(), PartRefusal>
    requires { IsReadOn text.now begun.rest.now (view begun.head) }
    ensures ok { OnOk result (IsPartAdded parts.old parts.new name.now text.now (view begun.entry.head)) }
    ensures held { OnOk result (AreMergedFrom file parts.old parts.new (single name.now text.now)) }
    ensures there { OnOk result (HasPart parts.new (name.now, text.now)) }
    ensures unchanged { OnErr result (IsUnchanged parts.old parts.new) }
    ensures err { IfErr result (IsUnputOr (IsUnsound text.now (view begun.entry.head))) }
    ensures clash { OnClash result (HasOtherPart parts.old name.now text.now (view begun.entry.head)) }
{
    let rows = check_part(alloc, text, &begun)?;
    put_copy(alloc, parts, name, text, rows, file)
}

/// Adds a copy of a part, with what it keeps of its rows.
fn put_copy(
    alloc: Global,
    parts: &mut Parts,
    name: &[u8],
    text: &[u8],
    rows: Option<Vec<KeptRow>>,
    file: u32,
) -> Result<(), PartRefusal>
    requires { AreKept text.now rows }
    ensures ok { OnOk result (AreMerged parts.old parts.new (single name.now text.now)) }
    ensures held { OnOk result (AreMergedFrom file parts.old parts.new (single name.now text.now)) }
    ensures there { OnOk result (HasPart parts.new (name.now, text.now)) }
    ensures added { OnOk result (AddsOnly parts.old parts.new name.now) }
    ensures unchanged { OnErr result (IsUnchanged parts.old parts.new) }
    ensures why { IfErr result IsPutFault }
    ensures clash { OnClash result (HasOther (held_at parts.old) name.now text.now) }
{
    let name = copied(alloc, name)?;
    let text = copied(alloc, text)?;
    put(parts, name, Part { text, file, rows })
}

/// Checks that a text is a part. Returns what to keep of its rows.
fn check_part(
    alloc: Global,
    text: &[u8],
    begun: &Begun<'_>,
) -> Result<Option<Vec<KeptRow>>, PartRefusal>
    requires { IsReadOn text.now begun.now.rest.now (view begun.now.head) }
    ensures ok { OnOk result (IsSound text.now (view begun.now.head)) }
    ensures rows { IfOk result (AreKept text.now) }
    ensures err { IfErr result (IsUnsound text.now (view begun.now.head)) }
{
    let ReadRows { marks, rows } = rows_in(alloc, text, begun)?;
    if is_other_version(&begun.head) {
        return Err(PartRefusal::Version);
    }
    match wrong_line(&begun.head, &marks) {
        Some(at) => Err(PartRefusal::Line(at)),
        None => Ok(rows),
    }
}

/// Whether the value is a part's line in a merged report.
fn is_part_line(value: &Value) -> bool
    ensures { result ≡ is_part_line (view value.now) }
{
    is_kind(value, "part") && has_text(value, "name") && has_text(value, "text")
}

/// The index of the first line that is not a part's line.
fn wrong_part(lines: &[Value]) -> Option<usize>
    ensures { result ≡ position (λ v. not (is_part_line (view v))) lines.now }
{
    lines.iter().position(|line| !is_part_line(line))
}

/// The same index plus 1, to count the report's first line, which is not among these.
fn wrong_part_behind(lines: &[Value]) -> Option<usize>
    ensures { result ≡ one_behind (position (λ v. not (is_part_line (view v))) lines.now) }
{
    match wrong_part(lines) {
        Some(at) => Some(at + 1),
        None => None,
    }
}

/// The index of the first line that does not fit into a merged report; None if all fit.
fn wrong_merged(lines: &[Value]) -> Option<usize>
    ensures { result ≡ wrong_merged lines.now }
{
    match lines.split_first() {
        Some((head, rest)) => wrong_behind_head(head, rest),
        None => Some(0),
    }
}

/// The same, given the first line and the lines after it.
fn wrong_behind_head(head: &Value, rest: &[Value]) -> Option<usize>
    ensures { result ≡ wrong_behind_head (view head.now) rest.now }
{
    let parts = number_of(head, "parts") as usize;
    if rest.len() < parts {
        return Some(rest.len() + 1);
    }
    if number_of(head, "pairs") as usize == rest.len() - parts {
        wrong_part_behind(&rest[..parts])
    } else {
        Some(rest.len() + 1)
    }
}

/// Checks that a text inside a merged report is a part. Returns what to keep of its rows.
fn check_text(alloc: Global, text: &[u8]) -> Result<Option<Vec<KeptRow>>, PartRefusal>
    ensures ok { OnOk result (IsPartText text.now) }
    ensures rows { IfOk result (AreKept text.now) }
    ensures err { IfErr result (IsPartRefused text.now) }
{
    if text.is_empty() {
        return Err(PartRefusal::Line(0));
    }
    check_part(alloc, text, &begin(alloc, text)?)
}

/// Adds the part in a line of a merged report. `place` is the 0-based index of the line.
fn take_line(
    alloc: Global,
    parts: &mut Parts,
    line: &Value,
    place: usize,
    file: u32,
) -> Result<(), PartRefusal>
    ensures ok { OnOk result (IsLineAdded parts.old parts.new line.now) }
    ensures held { OnOk result (AreMergedFrom file parts.old parts.new (single (name_told line.now) (text_told line.now))) }
    ensures there { OnOk result (HasPart parts.new (told_of line.now)) }
    ensures added { OnOk result (AddsOnly parts.old parts.new (name_told line.now)) }
    ensures unchanged { OnErr result (IsUnchanged parts.old parts.new) }
    ensures err { IfErr result (IsLineRefused (text_told line.now) place) }
    ensures clash { OnClash result (HasOtherLine parts.old line.now) }
{
    let text = text_of(line, "text");
    match check_text(alloc, text) {
        Ok(rows) => put_copy(alloc, parts, text_of(line, "name"), text, rows, file),
        Err(PartRefusal::OutOfMemory) => Err(PartRefusal::OutOfMemory),
        Err(_) => Err(PartRefusal::Line(place)),
    }
}

/// The first line and the lines after it.
fn first_line(lines: &[Value]) -> (&Value, &[Value])
    requires { 0 < length lines.now }
    ensures { lines.now ≡ result.0.now ∷ result.1.now }
{
    (&lines[0], &lines[1..])
}

/// Adds the parts in these lines. They begin with the second line of the file. If the call fails, the parts are as
/// before.
fn take_told(
    alloc: Global,
    parts: &mut Parts,
    lines: &[Value],
    file: u32,
) -> Result<(), PartRefusal>
    ensures ok { OnOk result (AreTextsAdded parts.old parts.new (map told_of lines.now)) }
    ensures held { OnOk result (AreMergedFrom file parts.old parts.new (told_in (map told_of lines.now))) }
    ensures there { OnOk result (AreThere parts.new (map told_of lines.now)) }
    ensures unchanged { OnErr result (IsUnchanged parts.old parts.new) }
    ensures err { IfErr result (IsUntaken lines.now) }
    ensures clash { OnClash result (IsClash parts.old file (map told_of lines.now)) }
{
    let mut added = Vec::new(alloc);
    match take_each(alloc, parts, lines, file, &mut added) {
        Ok(()) => Ok(()),
        Err(why) => {
            take_out(parts, added);
            Err(why)
        }
    }
}

/// The same, but if the call fails, the parts of some lines may have been added. `added` gets the new names, so that
/// without these the parts are as before.
fn take_each(
    alloc: Global,
    parts: &mut Parts,
    lines: &[Value],
    file: u32,
    added: &mut Vec<Vec<u8>>,
) -> Result<(), PartRefusal>
    requires { added.old.items ≡ [] }
    ensures ok { OnOk result (AreTextsAdded parts.old parts.new (map told_of lines.now)) }
    ensures held { OnOk result (AreMergedFrom file parts.old parts.new (told_in (map told_of lines.now))) }
    ensures there { OnOk result (AreThere parts.new (map told_of lines.now)) }
    ensures undone { IsUndone parts.old parts.new added.new }
    ensures err { IfErr result (IsUntaken lines.now) }
    ensures clash { OnClash result (IsClash parts.old file (map told_of lines.now)) }
{
    let mut left = lines;
    let mut place = 1;
    'lines: while !left.is_empty() {
        let (line, behind) = first_line(left);
        note_new(alloc, parts, text_of(line, "name"), added)?;
        take_line(alloc, parts, line, place, file)?;
        left = behind;
        place = lines.len().saturating_sub(behind.len()) + 1;
    }
    Ok(())
}

/// Adds the parts of a merged report, given its lines.
fn take_merged(
    alloc: Global,
    parts: &mut Parts,
    lines: &[Value],
    file: u32,
) -> Result<(), PartRefusal>
    ensures ok { OnOk result (IsReportAdded parts.old parts.new lines.now) }
    ensures held { OnOk result (AreMergedFrom file parts.old parts.new (told_in (told_parts lines.now))) }
    ensures there { OnOk result (AreThere parts.new (told_parts lines.now)) }
    ensures unchanged { OnErr result (IsUnchanged parts.old parts.new) }
    ensures err { IfErr result (AreWrongIn lines.now) }
    ensures clash { OnClash result (HasOtherIn parts.old file lines.now) }
{
    if let Some(at) = wrong_merged(lines) {
        return Err(PartRefusal::Line(at));
    }
    take_told(alloc, parts, part_lines(lines), file)
}

/// The part lines of a merged report.
fn part_lines(lines: &[Value]) -> &[Value]
    requires { wrong_merged lines.now ≡ None }
    ensures { result.now ≡ part_lines lines.now }
{
    match lines.split_first() {
        Some((head, rest)) => &rest[..number_of(head, "parts") as usize],
        None => lines,
    }
}

/// Adds a merged report. `begun` has its first line.
fn take_report(
    alloc: Global,
    parts: &mut Parts,
    text: &[u8],
    begun: Begun<'_>,
    file: u32,
) -> Result<(), PartRefusal>
    requires begun { IsReadOn text.now begun.rest.now (view begun.head) }
    requires merged { is_merged_head (view begun.head) ≡ true }
    ensures ok { OnOk result (IsFileAdded parts.old parts.new (GivesReport text.now)) }
    ensures held { OnOk result (IsFileAddedFrom file parts.old parts.new (GivesReport text.now)) }
    ensures there { OnOk result (IsFileThere parts.new (GivesReport text.now)) }
    ensures unchanged { OnErr result (IsUnchanged parts.old parts.new) }
    ensures err { IfErr result (IsReportRefused text.now) }
    ensures clash { OnClash result (ClashesBy parts.old (ListsReport text.now) file) }
{
    let lines = lines_in(alloc, text, begun)?;
    if is_foreign(&lines) {
        return Err(PartRefusal::Version);
    }
    take_merged(alloc, parts, &lines, file)
}

/// Whether the first line says that the file has another version.
fn is_foreign(lines: &[Value]) -> bool
    ensures { result ≡ is_foreign (map view lines.now) }
{
    match lines.first() {
        Some(head) => is_other_version(head),
        None => false,
    }
}
