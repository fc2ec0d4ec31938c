//! The only writer of a page's pieces. It writes the page's own markup, a closed list, or a number, or an escaped text.
ghost use Rattle.std.specs.Prelude.{◌≡◌, ◌++◌, [], OnErr, OnOk, decimal};
ghost use Rattle.markup.specs.Escaped.{escaped};
ghost use Rattle.race_page.specs.Items.{Written, count_text, element_text, ending, item_text, items_text};
ghost use Rattle.race_page.specs.Own.{begin_text, end_text, part_text};
ghost use Rattle.race_page.specs.Pages.{IsPiece};
ghost use Rattle.rapid_text.specs.Appended.{Appended};

use crate::own::{Part, Tag, begin_of, bytes_of, end_of};
use itoa::Buffer;
use markup::escape;
use rapid_text::OutOfMemory;
use std::alloc::Global;
use std::marker::Model;

/// What is written next into a piece.
#[derive(Clone, Copy)]
pub(crate) enum Item<'a> {
    /// The beginning of an element.
    Begin(Tag),
    /// The end of an element.
    End(Tag),
    /// A part that is always the same.
    Part(Part),
    /// A number in decimal digits.
    Number(u64),
    /// Any text. It is escaped.
    Text(&'a [u8]),
    /// An element with a text in it.
    Element(Tag, &'a [u8]),
    /// A number and the word for what is counted; the word gets an `s` if the number is not 1.
    Count(u64, &'a [u8]),
}

/// A piece of a page while it is written. Contracts see the text so far.
#[derive(Drop)]
pub(crate) struct Piece {
    text: Vec<u8>,
}

impl Model for Piece {
    ghost use Rattle.std.specs.Prelude.{List, ℕ};
    ghost use Rattle.race_page.specs.Pages.{IsPiece};

    ghost Value = { List ℕ };

    ghost view = { λ p. p.text.items };

    ghost invariant = { λ p. IsPiece p.text.items };
}

impl Piece {
    /// An empty piece.
    pub(crate) fn new(alloc: Global) -> Piece
        ensures { result ≡ [] }
    {
        Piece {
            text: Vec::new(alloc),
        }
    }

    /// The allocator of the text.
    pub(crate) fn allocator(&self) -> Global {
        *self.text.allocator()
    }

    /// What was written so far.
    pub(crate) fn bytes(&self) -> &[u8]
        ensures text { result.now ≡ self.now }
        ensures piece { IsPiece self.now }
    {
        self.text.as_slice()
    }

    /// Removes what was written, and keeps its memory.
    pub(crate) fn clear(&mut self)
        ensures { self.new ≡ [] }
    {
        self.text.clear();
    }

    /// Writes these items, one after another.
    pub(crate) fn write(&mut self, items: &[Item<'_>]) -> Result<(), OutOfMemory>
        ensures { Written result self.old self.new (items_text items.now) }
    {
        for item in items {
            self.item(*item)?;
        }
        Ok(())
    }

    /// Writes one item.
    fn item(&mut self, item: Item<'_>) -> Result<(), OutOfMemory>
        ensures { Written result self.old self.new (item_text item.entry) }
    {
        match item {
            Item::Begin(tag) => self.begin(tag),
            Item::End(tag) => self.end(tag),
            Item::Part(part) => self.part(part),
            Item::Number(number) => self.number(number),
            Item::Text(text) => self.text(text),
            Item::Element(tag, text) => self.element(tag, text),
            Item::Count(number, word) => self.count(number, word),
        }
    }

    /// Begins an element.
    fn begin(&mut self, tag: Tag) -> Result<(), OutOfMemory>
        ensures { Written result self.old self.new (begin_text tag) }
    {
        self.text.extend_from_slice(begin_of(tag))?;
        Ok(())
    }

    /// Ends an element.
    fn end(&mut self, tag: Tag) -> Result<(), OutOfMemory>
        ensures { Written result self.old self.new (end_text tag) }
    {
        self.text.extend_from_slice(end_of(tag))?;
        Ok(())
    }

    /// Writes a part that is always the same.
    fn part(&mut self, part: Part) -> Result<(), OutOfMemory>
        ensures { Written result self.old self.new (part_text part) }
    {
        self.text.extend_from_slice(bytes_of(part))?;
        Ok(())
    }

    /// Writes a number in decimal digits.
    fn number(&mut self, number: u64) -> Result<(), OutOfMemory>
        ensures { Written result self.old self.new (decimal number) }
    {
        let mut digits = Buffer::new();
        let written = digits.format(number);
        self.text.extend_from_slice(written.as_bytes())?;
        Ok(())
    }

    /// Writes any text, escaped.
    fn text(&mut self, text: &[u8]) -> Result<(), OutOfMemory>
        ensures { Written result self.old self.new (escaped text.now) }
    {
        append_text(&mut self.text, text)?;
        Ok(())
    }

    /// Writes an element with a text in it.
    fn element(&mut self, tag: Tag, text: &[u8]) -> Result<(), OutOfMemory>
        ensures { Written result self.old self.new (element_text tag text.now) }
    {
        self.begin(tag)?;
        self.text(text)?;
        self.end(tag)
    }

    /// Writes a number and what is counted.
    fn count(&mut self, number: u64, word: &[u8]) -> Result<(), OutOfMemory>
        ensures { Written result self.old self.new (count_text number word.now) }
    {
        self.number(number)?;
        self.text(b" ")?;
        self.text(word)?;
        self.text(ending_of(number))
    }

    /// Writes what another piece has.
    pub(crate) fn append(&mut self, other: &Piece) -> Result<(), OutOfMemory>
        ensures { Written result self.old self.new other.now }
    {
        self.text.extend_from_slice(other.bytes())?;
        Ok(())
    }
}

/// The ending of the word for things that are counted.
fn ending_of(number: u64) -> &'static [u8]
    ensures { result.now ≡ ending number }
{
    if number == 1 { b"" } else { b"s" }
}

/// Appends a text, escaped so that it is no markup.
fn append_text(out: &mut Vec<u8>, text: &[u8]) -> Result<(), OutOfMemory>
    ensures ok { Appended result out.old out.new (escaped text.now) }
    ensures err { OnErr result (out.new.items ≡ out.old.items) }
{
    escape(text, out)?;
    Ok(())
}
