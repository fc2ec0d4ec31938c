//! The three kinds of shapes in a drawing: rectangles, lines of text and arrows. Only this module escapes texts.
ghost use Rattle.explain_report.specs.picture.Shapes.{arrow_text, attribute_text, line_text, point_text, rect_text, shape_begin};
ghost use Rattle.rapid_text.specs.Appended.{Appended};

use crate::picture::class::{Class, name_of};
use crate::picture::pieces::{Piece, append_pieces, append_words};
use markup::escape;
use rapid_text::OutOfMemory;

/// Appends a rectangle.
pub(crate) fn append_rect(
    out: &mut Vec<u8>,
    class: Class,
    left: u64,
    top: u64,
    width: u64,
    height: u64,
) -> Result<(), OutOfMemory>
    ensures { Appended result out.old out.new (rect_text class left top width height) }
{
    append_begin(out, b"<rect", class, left, top)?;
    append_attribute(out, b"width", width)?;
    append_attribute(out, b"height", height)?;
    append_words(out, b"/>\n")
}

/// Appends a line of text, which is escaped and so may have any bytes.
pub(crate) fn append_line(
    out: &mut Vec<u8>,
    class: Class,
    left: u64,
    base: u64,
    text: &[u8],
) -> Result<(), OutOfMemory>
    ensures { Appended result out.old out.new (line_text class left base text.now) }
{
    append_begin(out, b"<text", class, left, base)?;
    append_words(out, b">")?;
    escape(text, out)?;
    append_words(out, b"</text>\n")
}

/// An arrow: a curve that leaves its first point downwards, towards `below`, and reaches its last point from above.
#[derive(Clone, Copy)]
pub(crate) struct Arrow {
    pub(crate) from: (u64, u64),
    pub(crate) below: u64,
    pub(crate) to: (u64, u64),
    pub(crate) above: u64,
}

/// Appends an arrow.
pub(crate) fn append_arrow(out: &mut Vec<u8>, arrow: Arrow) -> Result<(), OutOfMemory>
    ensures { Appended result out.old out.new (arrow_text arrow.from.0 arrow.from.1 arrow.below arrow.to.0 arrow.to.1 arrow.above) }
{
    append_pieces(
        out,
        &[
            Piece::Words(b"<path class=\"arrow\" marker-end=\"url(#tip)\" d=\"M"),
            Piece::Number(arrow.from.0),
            Piece::Words(b" "),
            Piece::Number(arrow.from.1),
            Piece::Words(b"C"),
            Piece::Number(arrow.from.0),
            Piece::Words(b" "),
            Piece::Number(arrow.below),
            Piece::Words(b" "),
            Piece::Number(arrow.to.0),
            Piece::Words(b" "),
            Piece::Number(arrow.above),
            Piece::Words(b" "),
            Piece::Number(arrow.to.0),
            Piece::Words(b" "),
            Piece::Number(arrow.to.1),
            Piece::Words(b"\"/>\n"),
        ],
    )?;
    Ok(())
}

/// Appends the beginning of a shape: its element, class and position.
fn append_begin(
    out: &mut Vec<u8>,
    element: &[u8],
    class: Class,
    x: u64,
    y: u64,
) -> Result<(), OutOfMemory>
    ensures { Appended result out.old out.new (shape_begin element.now class x y) }
{
    append_pieces(
        out,
        &[
            Piece::Words(element),
            Piece::Words(b" class=\""),
            Piece::Words(name_of(class)),
            Piece::Words(b"\""),
        ],
    )?;
    append_attribute(out, b"x", x)?;
    append_attribute(out, b"y", y)?;
    Ok(())
}

/// Appends a point, or a size.
pub(crate) fn append_point(out: &mut Vec<u8>, x: u64, y: u64) -> Result<(), OutOfMemory>
    ensures { Appended result out.old out.new (point_text x y) }
{
    append_pieces(
        out,
        &[Piece::Number(x), Piece::Words(b" "), Piece::Number(y)],
    )
}

/// Appends a blank and `name="number"`.
pub(crate) fn append_attribute(
    out: &mut Vec<u8>,
    name: &[u8],
    number: u64,
) -> Result<(), OutOfMemory>
    ensures { Appended result out.old out.new (attribute_text name.now number) }
{
    append_pieces(
        out,
        &[
            Piece::Words(b" "),
            Piece::Words(name),
            Piece::Words(b"=\""),
            Piece::Number(number),
            Piece::Words(b"\""),
        ],
    )?;
    Ok(())
}
