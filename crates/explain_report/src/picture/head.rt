//! The parts of a picture around its shapes: its size, its title and description, the paper, and the end.
ghost use Rattle.std.specs.Prelude.{◌∷◌, []};
ghost use Rattle.explain_report.specs.picture.Pictures.{all_listed, described, drawn_text, listed, only_counted, root_text, spaced_events, title};
ghost use Rattle.rapid_text.specs.Appended.{Appended};

use crate::picture::pieces::{Piece, append_pieces, append_words};
use crate::picture::shapes::{append_attribute, append_point};
use rapid_text::OutOfMemory;

/// The most events that a description lists. They take at most 16,000 bytes.
const MOST_LISTED: usize = 2_000;

/// The size of a picture.
#[derive(Clone, Copy)]
pub(crate) struct Size {
    width: u64,
    height: u64,
    shown_width: u64,
    shown_height: u64,
}

impl Size {
    /// The size of a picture that is drawn with this width and height.
    pub(crate) fn new(width: u64, height: u64) -> Size {
        Size {
            width,
            height,
            shown_width: larger(width),
            shown_height: larger(height),
        }
    }
}

/// The size plus a fifth.
fn larger(size: u64) -> u64 {
    size.saturating_add(size / 5)
}

/// Appends the beginning of the root. The picture is shown a fifth larger than it is drawn: 10 pixels become 12.
pub(crate) fn append_root(out: &mut Vec<u8>, size: Size) -> Result<(), OutOfMemory>
    ensures { Appended result out.old out.new (root_text size.width size.height size.shown_width size.shown_height) }
{
    append_words(
        out,
        b"<svg xmlns=\"http://www.w3.org/2000/svg\" viewBox=\"0 0 ",
    )?;
    append_point(out, size.width, size.height)?;
    append_words(out, b"\"")?;
    append_attribute(out, b"width", size.shown_width)?;
    append_attribute(out, b"height", size.shown_height)?;
    append_words(out, b">\n")?;
    Ok(())
}

/// Appends the paper, the shapes on it, and the end.
pub(crate) fn append_drawn(out: &mut Vec<u8>, shapes: &[u8]) -> Result<(), OutOfMemory>
    ensures { Appended result out.old out.new (drawn_text shapes.now) }
{
    append_pieces(
        out,
        &[
            Piece::Words(b"<rect class=\"paper\" width=\"100%\" height=\"100%\"/>\n"),
            Piece::Words(shapes),
            Piece::Words(b"</svg>\n"),
        ],
    )?;
    Ok(())
}

/// Appends the pair of the picture, and the events of the schedule in order. If there are more than 2,000, it only
/// counts them.
pub(crate) fn append_description(
    out: &mut Vec<u8>,
    events: &[u32],
    first: u32,
    second: u32,
) -> Result<(), OutOfMemory>
    ensures { Appended result out.old out.new (described events.now first second) }
{
    append_title(out, first, second)?;
    append_list(out, events)?;
    Ok(())
}

/// Appends the title, which names the pair.
fn append_title(out: &mut Vec<u8>, first: u32, second: u32) -> Result<(), OutOfMemory>
    ensures { Appended result out.old out.new (title first second) }
{
    append_pieces(
        out,
        &[
            Piece::Words(b"<title>A schedule that shows "),
            Piece::Number(u64::from(first)),
            Piece::Words(b" and "),
            Piece::Number(u64::from(second)),
            Piece::Words(b"</title>\n"),
        ],
    )?;
    Ok(())
}

/// Appends the description: the events of the schedule, or how many there are.
fn append_list(out: &mut Vec<u8>, events: &[u32]) -> Result<(), OutOfMemory>
    ensures { Appended result out.old out.new (listed events.now) }
{
    if events.len() <= MOST_LISTED {
        append_all(out, events)
    } else {
        append_counted(out, events.len() as u64)
    }
}

/// Appends the description that lists the events.
fn append_all(out: &mut Vec<u8>, events: &[u32]) -> Result<(), OutOfMemory>
    ensures { Appended result out.old out.new (all_listed events.now) }
{
    append_words(out, b"<desc>Its events:")?;
    append_events(out, events)?;
    append_words(out, b"</desc>\n")?;
    Ok(())
}

/// Appends the description that only counts the events.
fn append_counted(out: &mut Vec<u8>, events: u64) -> Result<(), OutOfMemory>
    ensures { Appended result out.old out.new (only_counted events) }
{
    append_pieces(
        out,
        &[
            Piece::Words(b"<desc>Its "),
            Piece::Number(events),
            Piece::Words(b" events are those that racebench witness prints</desc>\n"),
        ],
    )?;
    Ok(())
}

/// Appends each number after a blank.
fn append_events(out: &mut Vec<u8>, events: &[u32]) -> Result<(), OutOfMemory>
    ensures { Appended result out.old out.new (spaced_events events.now) }
{
    for event in events {
        append_spaced(out, *event)?;
    }
    Ok(())
}

fn append_spaced(out: &mut Vec<u8>, event: u32) -> Result<(), OutOfMemory>
    ensures { Appended result out.old out.new (spaced_events (event ∷ [])) }
{
    append_pieces(out, &[Piece::Words(b" "), Piece::Number(u64::from(event))])?;
    Ok(())
}
