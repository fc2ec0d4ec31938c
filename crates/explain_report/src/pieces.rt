//! Words, numbers and blanks.
ghost use Rattle.std.specs.Prelude.{◌≡◌, decimal};
ghost use Rattle.explain_report.specs.Chains.{indent_text};
ghost use Rattle.explain_report.specs.Verdicts.{count_text, plural};
ghost use Rattle.rapid_text.specs.Appended.{Appended};

use itoa::Buffer;
use rapid_text::OutOfMemory;

/// Appends `words`.
pub(crate) fn append_words(out: &mut Vec<u8>, words: &[u8]) -> Result<(), OutOfMemory>
    ensures { Appended result out.old out.new words.now }
{
    out.extend_from_slice(words)?;
    Ok(())
}

/// Appends the number in decimal digits.
pub fn append_number(out: &mut Vec<u8>, number: u64) -> Result<(), OutOfMemory>
    ensures { Appended result out.old out.new (decimal number) }
{
    let mut digits = Buffer::new();
    out.extend_from_slice(digits.format(number).as_bytes())?;
    Ok(())
}

/// Appends the number and `words`, in the plural unless the number is 1.
pub fn append_count(out: &mut Vec<u8>, number: u64, words: &[u8]) -> Result<(), OutOfMemory>
    ensures { Appended result out.old out.new (count_text number words.now) }
{
    append_number(out, number)?;
    append_words(out, b" ")?;
    append_words(out, words)?;
    append_words(out, plural_of(number))
}

/// The ending of a noun for this number of things.
fn plural_of(number: u64) -> &'static [u8]
    ensures { result.now ≡ plural number }
{
    if number == 1 { b"" } else { b"s" }
}

/// Appends two blanks for each step of depth.
pub(crate) fn append_indent(out: &mut Vec<u8>, depth: u32) -> Result<(), OutOfMemory>
    ensures { Appended result out.old out.new (indent_text depth) }
{
    for _step in 0..depth {
        append_words(out, b"  ")?;
    }
    Ok(())
}
