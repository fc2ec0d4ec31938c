//! The page's own markup, a closed list. All that is written on a page is from this list, a number, or an escaped text.
ghost use Rattle.std.specs.Prelude.{◌≡◌};
ghost use Rattle.race_page.specs.Own.{begin_text, end_text, part_text};

use crate::style::FOOT;

/// An element of the page.
#[derive(Clone, Copy, PartialEq, Eq, Debug)]
pub enum Tag {
    /// A section of the page, with a heading.
    Section,
    /// The heading of a section.
    SectionHeading,
    /// The heading of a row.
    RowHeading,
    /// The heading of a part of a row.
    PartHeading,
    /// A paragraph.
    Paragraph,
    /// Text that comes from outside. Its writing direction does not affect what is around it.
    Isolated,
    /// A table.
    Table,
    /// The head of a table.
    TableHead,
    /// The body of a table, below its head.
    TableBody,
    /// A line of a table.
    Line,
    /// The head of a column.
    ColumnHead,
    /// The head of a table line.
    LineHead,
    /// A cell.
    Cell,
    /// A cell with a number.
    NumberCell,
    /// What a reader sees of a closed row.
    Summary,
    /// A short summary of a row.
    Facts,
    /// A text that keeps its line ends.
    Lines,
    /// Code.
    Code,
    /// A picture with its caption.
    Figure,
    /// The caption of a picture.
    Caption,
    /// A box that scrolls, for what may be wider than the page.
    Wide,
}

/// A part of the page that is always the same.
#[derive(Clone, Copy, PartialEq, Eq, Debug)]
pub enum Part {
    /// The end of the page.
    Foot,
    /// The end of a line of text.
    LineEnd,
}

/// The markup that begins an element.
pub(crate) fn begin_of(tag: Tag) -> &'static [u8]
    ensures { result.now ≡ begin_text tag }
{
    match tag {
        Tag::Section => b"<section>\n",
        Tag::SectionHeading => b"<h2>",
        Tag::RowHeading => b"<h3>",
        Tag::PartHeading => b"<h4>",
        Tag::Paragraph => b"<p>",
        Tag::Isolated => b"<bdi>",
        Tag::Table => b"<table>\n",
        Tag::TableHead => b"<thead>\n",
        Tag::TableBody => b"<tbody>\n",
        Tag::Line => b"<tr>",
        Tag::ColumnHead => b"<th scope=\"col\">",
        Tag::LineHead => b"<th scope=\"row\">",
        Tag::Cell => b"<td>",
        Tag::NumberCell => b"<td class=\"number\">",
        Tag::Summary => b"<summary>",
        Tag::Facts => b" <span class=\"facts\">",
        Tag::Lines => b"<pre tabindex=\"0\">",
        Tag::Code => b"<code>",
        Tag::Figure => b"<figure>\n",
        Tag::Caption => b"<figcaption>",
        Tag::Wide => b"<div class=\"wide\" tabindex=\"0\">\n",
    }
}

/// The markup that ends an element.
pub(crate) fn end_of(tag: Tag) -> &'static [u8]
    ensures { result.now ≡ end_text tag }
{
    match tag {
        Tag::Section => b"</section>\n",
        Tag::SectionHeading => b"</h2>\n",
        Tag::RowHeading => b"</h3>",
        Tag::PartHeading => b"</h4>\n",
        Tag::Paragraph => b"</p>\n",
        Tag::Isolated => b"</bdi>",
        Tag::Table => b"</table>\n",
        Tag::TableHead => b"</thead>\n",
        Tag::TableBody => b"</tbody>\n",
        Tag::Line => b"</tr>\n",
        Tag::ColumnHead => b"</th>",
        Tag::LineHead => b"</th>",
        Tag::Cell => b"</td>",
        Tag::NumberCell => b"</td>",
        Tag::Summary => b"</summary>\n",
        Tag::Facts => b"</span>",
        Tag::Lines => b"</pre>\n",
        Tag::Code => b"</code>",
        Tag::Figure => b"</figure>\n",
        Tag::Caption => b"</figcaption>\n",
        Tag::Wide => b"</div>\n",
    }
}

/// The bytes of a part.
pub(crate) fn bytes_of(part: Part) -> &'static [u8]
    ensures { result.now ≡ part_text part }
{
    match part {
        Part::Foot => FOOT,
        Part::LineEnd => b"\n",
    }
}
