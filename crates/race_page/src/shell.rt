//! A file name as one word of a shell.
ghost use Rattle.std.specs.Prelude.{◌≡◌, IfOk, OnErr, flat_map};
ghost use Rattle.std.specs.List.{list_all};
ghost use Rattle.race_page.specs.Shell.{bare_or_quoted, folder_text, is_letter, is_plain, quoted_byte, quoted_text, shell_word};
ghost use Rattle.rapid_text.specs.Appended.{Appended};

use rapid_text::OutOfMemory;
use std::alloc::Global;

/// Appends a name as one word of a shell, quoted if it has a byte that means something to the shell. A name that begins
/// with a dash gets `./` before it, so that it is no option. If memory runs out, `out` stays as it was.
pub fn append_shell_word(out: &mut Vec<u8>, name: &[u8]) -> Result<(), OutOfMemory>
    ensures ok { Appended result out.old out.new (shell_word name.now) }
    ensures err { OnErr result (out.new.items ≡ out.old.items) }
{
    let word = word_of(*out.allocator(), name)?;
    out.extend_from_slice(word.as_slice())?;
    Ok(())
}

/// The name as one word of a shell.
pub(crate) fn word_of(alloc: Global, name: &[u8]) -> Result<Vec<u8>, OutOfMemory>
    ensures { IfOk result (λ word. word.items ≡ shell_word name.now) }
{
    let mut word = Vec::new(alloc);
    append_folder(&mut word, name)?;
    append_name(&mut word, name)?;
    Ok(word)
}

/// Appends `./` if the name begins with a dash.
fn append_folder(word: &mut Vec<u8>, name: &[u8]) -> Result<(), OutOfMemory>
    ensures { Appended result word.old word.new (folder_text name.now) }
{
    if name.starts_with(b"-") {
        word.extend_from_slice(b"./")?;
    }
    Ok(())
}

/// Appends a name, in quotes if it is empty or has a byte that means something to the shell.
fn append_name(word: &mut Vec<u8>, name: &[u8]) -> Result<(), OutOfMemory>
    ensures { Appended result word.old word.new (bare_or_quoted name.now) }
{
    if !name.is_empty() && are_plain(name) {
        append_bytes(word, name)
    } else {
        append_quoted(word, name)
    }
}

/// Appends a name in quotes.
fn append_quoted(word: &mut Vec<u8>, name: &[u8]) -> Result<(), OutOfMemory>
    ensures { Appended result word.old word.new (quoted_text name.now) }
{
    append_bytes(word, b"'")?;
    append_within(word, name)?;
    append_bytes(word, b"'")
}

/// Appends what comes between the quotes.
fn append_within(word: &mut Vec<u8>, name: &[u8]) -> Result<(), OutOfMemory>
    ensures { Appended result word.old word.new (flat_map quoted_byte name.now) }
{
    for byte in name {
        append_byte(word, *byte)?;
    }
    Ok(())
}

/// Appends a byte between quotes. A quote ends the quotes, comes after a backslash, and begins them again: `'\''`.
fn append_byte(word: &mut Vec<u8>, byte: u8) -> Result<(), OutOfMemory>
    ensures { Appended result word.old word.new (quoted_byte byte) }
{
    if byte == b'\'' {
        append_bytes(word, b"'\\''")
    } else {
        append_bytes(word, &[byte])
    }
}

/// Appends these bytes.
fn append_bytes(word: &mut Vec<u8>, bytes: &[u8]) -> Result<(), OutOfMemory>
    ensures { Appended result word.old word.new bytes.now }
{
    word.extend_from_slice(bytes)?;
    Ok(())
}

/// Whether no byte of the name means anything to the shell.
fn are_plain(name: &[u8]) -> bool
    ensures { result ≡ list_all is_plain name.now }
{
    name.iter().all(|byte| is_plain(*byte))
}

/// Whether the byte means nothing to the shell.
fn is_plain(byte: u8) -> bool
    ensures { result ≡ is_plain byte }
{
    is_letter(byte) || b'+' <= byte && byte <= b':' || byte == b'_' || byte == b'@' || byte == b'%'
}

/// Whether the byte is an ASCII letter.
fn is_letter(byte: u8) -> bool
    ensures { result ≡ is_letter byte }
{
    b'A' <= byte && byte <= b'Z' || b'a' <= byte && byte <= b'z'
}
