//! The marks of a window of a recording. They are those of the recording, so that a report on the window says what is
//! missing.
ghost use Rattle.std.specs.Prelude.{◌≡◌};
ghost use Rattle.rapid_text.specs.Appended.{Appended};
ghost use Rattle.wholeness.specs.Marks.{begin_text, end_text};

use crate::marks::Wholeness;
use rapid_text::OutOfMemory;

/// Appends the first line of a recording, if it has a mark.
pub fn append_begin(out: &mut Vec<u8>, wholeness: &Wholeness) -> Result<(), OutOfMemory>
    ensures { Appended result out.old out.new (begin_text wholeness.now) }
{
    match wholeness {
        Wholeness::Unmarked => {}
        _ => out.extend_from_slice(b"recording|begin(RECORDED)|\n")?,
    }
    Ok(())
}

/// Appends the last line of a recording, if it has a mark.
pub fn append_end(out: &mut Vec<u8>, wholeness: &Wholeness) -> Result<(), OutOfMemory>
    ensures { Appended result out.old out.new (end_text wholeness.now) }
{
    match wholeness {
        Wholeness::Whole => out.extend_from_slice(b"recording|end(WHOLE)|\n")?,
        Wholeness::LeftOut { words: _, line } => {
            out.extend_from_slice(line.as_slice())?;
            out.push(b'\n')?;
        }
        Wholeness::Unmarked | Wholeness::NoEnd => {}
    }
    Ok(())
}
