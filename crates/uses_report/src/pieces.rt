//! Appends words, numbers and names.
ghost use Rattle.std.specs.Prelude.{◌≡◌, [], slice_index, slice_index_or, false};
ghost use Rattle.rapid_text.specs.Appended.{Appended};
ghost use Rattle.race_triage.specs.Pieces.{count_line, number_text};

use event_index::Indexed;
use itoa::Buffer;
use rapid_text::OutOfMemory;

/// Appends a text.
pub(crate) fn append_words(out: &mut Vec<u8>, words: &[u8]) -> Result<(), OutOfMemory>
    ensures { Appended result out.old out.new words.now }
{
    out.extend_from_slice(words)?;
    Ok(())
}

/// Appends a word, a blank, the number, and a line feed.
pub(crate) fn append_count(out: &mut Vec<u8>, word: &[u8], number: u64) -> Result<(), OutOfMemory>
    ensures { Appended result out.old out.new (count_line word.now number) }
{
    append_words(out, word)?;
    append_number(out, number)?;
    append_words(out, b"\n")?;
    Ok(())
}

/// Appends a blank and a number.
pub(crate) fn append_number(out: &mut Vec<u8>, number: u64) -> Result<(), OutOfMemory>
    ensures { Appended result out.old out.new (number_text number) }
{
    let mut digits = Buffer::new();
    append_words(out, b" ")?;
    append_words(out, digits.format(number).as_bytes())?;
    Ok(())
}

/// Appends a blank and a number of 32 bits.
pub(crate) fn append_small(out: &mut Vec<u8>, number: u32) -> Result<(), OutOfMemory>
    ensures { Appended result out.old out.new (number_text number) }
{
    append_number(out, u64::from(number))
}

/// Appends the name of the lock. Appends nothing if the trace has no such lock.
pub(crate) fn append_lock(
    out: &mut Vec<u8>,
    indexed: &Indexed,
    lock: u32,
) -> Result<(), OutOfMemory>
    ensures { Appended result out.old out.new (slice_index_or indexed.now.locks lock []) }
{
    let raw = indexed.trace().raw();
    if lock < raw.locks() {
        append_words(out, raw.lock_name(lock))?;
    }
    Ok(())
}

/// Appends the location of the event. Appends nothing if the trace has no such event.
pub(crate) fn append_location(
    out: &mut Vec<u8>,
    indexed: &Indexed,
    event: u32,
) -> Result<(), OutOfMemory>
    ensures { Appended result out.old out.new (slice_index_or indexed.now.locations event []) }
{
    if event < indexed.len() {
        append_words(out, indexed.trace().raw().location(event))?;
    }
    Ok(())
}

/// The number at this index; 0 past the end.
pub(crate) fn number_at(numbers: &[u32], at: usize) -> u32
    ensures { result ≡ slice_index numbers.now at }
{
    match numbers.get(at) {
        Some(number) => *number,
        None => 0,
    }
}

/// The flag at this index; false past the end.
pub(crate) fn flag_at(flags: &[bool], at: usize) -> bool
    ensures { result ≡ slice_index_or flags.now at false }
{
    match flags.get(at) {
        Some(flag) => *flag,
        None => false,
    }
}
