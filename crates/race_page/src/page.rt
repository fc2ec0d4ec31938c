//! What follows the first line of a page: pieces, and rows.
ghost use Rattle.std.specs.Prelude.{◌≡◌, ◌++◌, ◌∷◌, [], OnOk, decimal, length};
ghost use Rattle.rapid_text.specs.Appended.{Appended};
ghost use Rattle.schedule.specs.Reordering.{IsCorrectReordering};
ghost use Rattle.schedule.specs.Shows.{Shows};
ghost use Rattle.race_page.specs.Own.{row_head, row_text};
ghost use Rattle.race_page.specs.Pages.{IsDrawn, IsRowOf, AreParts, IsPiece, MayBePlain};
ghost use Rattle.race_page.specs.Told.{IsTold};

use crate::piece::Piece;
use crate::shown::{Shown, row_begin_of, seen_of};
use event_index::Indexed;
use explain_report::picture::figure_text;
use itoa::Buffer;
use must_order::Analysis;
use rapid_text::OutOfMemory;
use std::alloc::Global;
use std::marker::Model;

/// What follows the first line of a page while it is written, with the trace and its orders. Contracts see the trace,
/// the text so far and the rows.
#[derive(Drop)]
pub(crate) struct Page<'a> {
    analysis: &'a Analysis<'a>,
    text: Vec<u8>,
    rows: Vec<Shown>,
}

impl<'a> Model for Page<'a> {
    ghost use Rattle.race_page.specs.Pages.{AreParts, Made};

    ghost Value = { Made };

    ghost view = { λ p. record { trace = p.analysis.now; text = p.text.items; rows = p.rows.items } };

    ghost invariant = { λ p. AreParts p.analysis.now p.text.items p.rows.items };
}

impl<'a> Page<'a> {
    /// A page of this trace that is still empty.
    pub(crate) fn new(alloc: Global, analysis: &'a Analysis<'a>) -> Page<'a>
        ensures trace { result.trace ≡ analysis.now }
        ensures rows { result.rows ≡ [] }
    {
        Page {
            analysis,
            text: Vec::new(alloc),
            rows: Vec::new(alloc),
        }
    }

    /// The trace.
    pub(crate) fn indexed(&self) -> &'a Indexed
        ensures { result.now ≡ self.now.trace }
    {
        self.analysis.indexed()
    }

    /// The trace with its orders.
    pub(crate) fn analysis(&self) -> &'a Analysis<'a>
        ensures { result.now ≡ self.now.trace }
    {
        self.analysis
    }

    /// The allocator of the text.
    pub(crate) fn allocator(&self) -> Global {
        *self.text.allocator()
    }

    /// What was written so far.
    pub(crate) fn bytes(&self) -> &[u8]
        ensures text { result.now ≡ self.now.text }
        ensures parts { AreParts self.now.trace self.now.text self.now.rows }
    {
        self.text.as_slice()
    }

    /// Writes a piece.
    pub(crate) fn write(&mut self, piece: &Piece) -> Result<(), OutOfMemory>
        ensures trace { self.new.trace ≡ self.old.trace }
        ensures rows { self.new.rows ≡ self.old.rows }
    {
        self.text.extend_from_slice(piece.bytes())?;
        Ok(())
    }

    /// How many rows the page has.
    pub(crate) fn count(&self) -> usize
        ensures { result ≡ length self.now.rows }
    {
        self.rows.len()
    }

    /// Writes a row without a picture: a beginning that says what was found, and the rest.
    pub(crate) fn row(
        &mut self,
        shown: Shown,
        told: &Piece,
        rest: &Piece,
    ) -> Result<(), OutOfMemory>
        requires told { IsTold self.old.trace shown.verdict told.now }
        requires plain { MayBePlain self.old.trace shown (length self.old.rows) }
        ensures trace { self.new.trace ≡ self.old.trace }
        ensures rows { OnOk result (self.new.rows ≡ self.old.rows ++ shown ∷ []) }
    {
        let mut body = Vec::new(*self.text.allocator());
        append_two(&mut body, told.bytes(), rest.bytes())?;
        self.add(shown, body.as_slice())
    }

    /// Writes a row with a picture of a schedule: a beginning that says what was found, what comes before the picture,
    /// and what comes after it. The schedule must be a correct reordering that shows the row's pair.
    pub(crate) fn drawn_row(
        &mut self,
        events: &[u32],
        shown: Shown,
        told: &Piece,
        before: &Piece,
        after: &Piece,
    ) -> Result<(), OutOfMemory>
        requires reordering { IsCorrectReordering self.old.trace.events events.now }
        requires shows { Shows self.old.trace.events events.now shown.first shown.second }
        requires told { IsTold self.old.trace shown.verdict told.now }
        ensures trace { self.new.trace ≡ self.old.trace }
        ensures rows { OnOk result (self.new.rows ≡ self.old.rows ++ shown ∷ []) }
    {
        let mut figure = Vec::new(*self.text.allocator());
        figure_text(
            self.analysis,
            events,
            shown.first,
            shown.second,
            &mut figure,
        )?;
        self.add_drawn(figure.as_slice(), shown, told, before, after)
    }

    /// Writes the row with this picture in it.
    fn add_drawn(
        &mut self,
        figure: &[u8],
        shown: Shown,
        told: &Piece,
        before: &Piece,
        after: &Piece,
    ) -> Result<(), OutOfMemory>
        requires drawn { IsDrawn self.old.trace shown.first shown.second figure.now }
        requires told { IsTold self.old.trace shown.verdict told.now }
        ensures trace { self.new.trace ≡ self.old.trace }
        ensures rows { OnOk result (self.new.rows ≡ self.old.rows ++ shown ∷ []) }
    {
        let mut body = Vec::new(*self.text.allocator());
        append_two(&mut body, told.bytes(), before.bytes())?;
        append_two(&mut body, figure, after.bytes())?;
        self.add(shown, body.as_slice())
    }

    /// Writes a row with these bytes in it. It is made first, so that the page has no half of a row if memory runs out.
    fn add(&mut self, shown: Shown, body: &[u8]) -> Result<(), OutOfMemory>
        requires { IsRowOf self.old shown body.now }
        ensures trace { self.new.trace ≡ self.old.trace }
        ensures rows { OnOk result (self.new.rows ≡ self.old.rows ++ shown ∷ []) }
    {
        let mut row = Vec::new(*self.text.allocator());
        append_row(&mut row, shown, body)?;
        self.push(shown, row.as_slice())
    }

    /// Adds a row that is made.
    fn push(&mut self, shown: Shown, row: &[u8]) -> Result<(), OutOfMemory>
        requires { AreParts self.old.trace (self.old.text ++ row.now) (self.old.rows ++ shown ∷ []) }
        ensures trace { self.new.trace ≡ self.old.trace }
        ensures rows { OnOk result (self.new.rows ≡ self.old.rows ++ shown ∷ []) }
    {
        self.rows.reserve(1)?;
        self.text.extend_from_slice(row)?;
        self.rows.push(shown)?;
        Ok(())
    }
}

/// Appends these bytes, one text after the other.
fn append_two(out: &mut Vec<u8>, first: &[u8], second: &[u8]) -> Result<(), OutOfMemory>
    ensures { Appended result out.old out.new (first.now ++ second.now) }
{
    out.extend_from_slice(first)?;
    out.extend_from_slice(second)?;
    Ok(())
}

/// Appends a row with these bytes in it.
fn append_row(out: &mut Vec<u8>, shown: Shown, bytes: &[u8]) -> Result<(), OutOfMemory>
    ensures { Appended result out.old out.new (row_text shown bytes.now) }
{
    append_head(out, shown)?;
    out.extend_from_slice(bytes)?;
    out.extend_from_slice(b"</details>\n")?;
    Ok(())
}

/// Appends the beginning of a row, up to the word beside it.
fn append_head(out: &mut Vec<u8>, shown: Shown) -> Result<(), OutOfMemory>
    ensures { Appended result out.old out.new (row_head shown) }
{
    out.extend_from_slice(row_begin_of(shown.sort))?;
    append_number(out, shown.first)?;
    out.extend_from_slice(b"-")?;
    append_number(out, shown.second)?;
    out.extend_from_slice(b"\">\n<summary>")?;
    out.extend_from_slice(seen_of(shown.seen))?;
    Ok(())
}

/// Appends a number in decimal digits.
fn append_number(out: &mut Vec<u8>, number: u32) -> Result<(), OutOfMemory>
    ensures { Appended result out.old out.new (decimal number) }
{
    let mut digits = Buffer::new();
    let written = digits.format(number);
    out.extend_from_slice(written.as_bytes())?;
    Ok(())
}
