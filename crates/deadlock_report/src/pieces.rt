//! Appends words and numbers.
ghost use Rattle.rapid_text.specs.Appended.{Appended};
ghost use Rattle.race_triage.specs.Pieces.{count_line, number_text};

use itoa::Buffer;
use rapid_text::OutOfMemory;

/// Appends a text.
pub(crate) fn append_words(out: &mut Vec<u8>, words: &[u8]) -> Result<(), OutOfMemory>
    ensures { Appended result out.old out.new words.now }
{
    out.extend_from_slice(words)?;
    Ok(())
}

/// Appends a word, a blank, the number, and a line feed.
pub(crate) fn append_count(out: &mut Vec<u8>, word: &[u8], number: u64) -> Result<(), OutOfMemory>
    ensures { Appended result out.old out.new (count_line word.now number) }
{
    append_words(out, word)?;
    append_number(out, number)?;
    append_words(out, b"\n")?;
    Ok(())
}

/// Appends a blank and a number.
pub(crate) fn append_number(out: &mut Vec<u8>, number: u64) -> Result<(), OutOfMemory>
    ensures { Appended result out.old out.new (number_text number) }
{
    let mut digits = Buffer::new();
    append_words(out, b" ")?;
    append_words(out, digits.format(number).as_bytes())?;
    Ok(())
}

/// Appends a blank and a number of 32 bits.
pub(crate) fn append_small(out: &mut Vec<u8>, number: u32) -> Result<(), OutOfMemory>
    ensures { Appended result out.old out.new (number_text number) }
{
    append_number(out, u64::from(number))
}
