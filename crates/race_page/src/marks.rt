//! A writer of markup: the page's own bytes, numbers, and escaped texts, one after another.
ghost use Rattle.std.specs.Prelude.{decimal};
ghost use Rattle.markup.specs.Escaped.{escaped};
ghost use Rattle.race_page.specs.Marks.{mark_text, marks_text};
ghost use Rattle.rapid_text.specs.Appended.{Appended};

use itoa::Buffer;
use markup::escape;
use rapid_text::OutOfMemory;

/// What is written next.
#[derive(Clone, Copy)]
pub(crate) enum Mark<'a> {
    /// The page's own markup, as it is.
    Own(&'a [u8]),
    /// A number in decimal digits.
    Number(u64),
    /// Any text. It is escaped.
    Text(&'a [u8]),
}

/// Appends these marks, in order.
pub(crate) fn append_marks(out: &mut Vec<u8>, marks: &[Mark<'_>]) -> Result<(), OutOfMemory>
    ensures { Appended result out.old out.new (marks_text marks.now) }
{
    for mark in marks {
        append_mark(out, *mark)?;
    }
    Ok(())
}

/// Appends one mark.
fn append_mark(out: &mut Vec<u8>, mark: Mark<'_>) -> Result<(), OutOfMemory>
    ensures { Appended result out.old out.new (mark_text mark.entry) }
{
    match mark {
        Mark::Own(bytes) => append_own(out, bytes),
        Mark::Number(number) => append_digits(out, number),
        Mark::Text(text) => append_escaped(out, text),
    }
}

/// Appends the page's own markup.
fn append_own(out: &mut Vec<u8>, bytes: &[u8]) -> Result<(), OutOfMemory>
    ensures { Appended result out.old out.new bytes.now }
{
    out.extend_from_slice(bytes)?;
    Ok(())
}

/// Appends a number in decimal digits.
fn append_digits(out: &mut Vec<u8>, number: u64) -> Result<(), OutOfMemory>
    ensures { Appended result out.old out.new (decimal number) }
{
    let mut digits = Buffer::new();
    out.extend_from_slice(digits.format(number).as_bytes())?;
    Ok(())
}

/// Appends a text, escaped so that it is no markup.
fn append_escaped(out: &mut Vec<u8>, text: &[u8]) -> Result<(), OutOfMemory>
    ensures { Appended result out.old out.new (escaped text.now) }
{
    escape(text, out)?;
    Ok(())
}
