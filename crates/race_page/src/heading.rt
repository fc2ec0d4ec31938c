//! The beginning of a page. Its first line says how many races there are, in which file, and what was left out.
ghost use Rattle.std.specs.Prelude.{◌≡◌, ◌++◌, ◌∷◌, None, IfSome, decimal};
ghost use Rattle.race_page.specs.Heads.{HasNoSlash, IsFileOf, heading_text, page_begin, race_word, races_words, title_text};
ghost use Rattle.race_page.specs.declared.merged_head.LeftOut.{LeftOut};
ghost use Rattle.rapid_text.specs.Appended.{Appended};

use crate::merged_head::{LeftOut, append_left};
use crate::style::{BODY, TOP};
use itoa::Buffer;
use markup::escape;
use memchr::memrchr;
use rapid_text::OutOfMemory;

/// The file name of a path: what comes after its last slash.
pub(crate) fn file_of(path: &[u8]) -> &[u8]
    ensures { IsFileOf path.now result.now }
{
    match cut_last_slash(path) {
        Some(parts) => parts.1,
        None => path,
    }
}

/// What comes before the last slash and what comes after it; None if there is no slash.
fn cut_last_slash(path: &[u8]) -> Option<(&[u8], &[u8])>
    ensures some { IfSome result (λ cut. (path.now ≡ cut.0.now ++ 47 ∷ cut.1.now) × HasNoSlash cut.1.now) }
    ensures none { result ≡ None → HasNoSlash path.now }
{
    let at = memrchr(b'/', path)?;
    Some((&path[..at], &path[at + 1..]))
}

/// Appends the beginning of a page, up to its first line.
pub(crate) fn append_begin(
    out: &mut Vec<u8>,
    races: u64,
    file: &[u8],
    left: LeftOut,
) -> Result<(), OutOfMemory>
    ensures { Appended result out.old out.new (page_begin races file.now left) }
{
    out.extend_from_slice(TOP)?;
    append_title(out, races, file, left)?;
    out.extend_from_slice(BODY)?;
    append_heading(out, races, file, left)
}

/// Appends the title of the window.
fn append_title(
    out: &mut Vec<u8>,
    races: u64,
    file: &[u8],
    left: LeftOut,
) -> Result<(), OutOfMemory>
    ensures { Appended result out.old out.new (title_text races file.now left) }
{
    out.extend_from_slice(b"<title>")?;
    append_races(out, races)?;
    out.extend_from_slice(b" in ")?;
    escape(file, out)?;
    append_left(out, left)?;
    out.extend_from_slice(b"</title>\n")?;
    Ok(())
}

/// Appends the first line of the page.
fn append_heading(
    out: &mut Vec<u8>,
    races: u64,
    file: &[u8],
    left: LeftOut,
) -> Result<(), OutOfMemory>
    ensures { Appended result out.old out.new (heading_text races file.now left) }
{
    out.extend_from_slice(b"<header>\n<h1>")?;
    append_races(out, races)?;
    out.extend_from_slice(b" in <bdi>")?;
    escape(file, out)?;
    out.extend_from_slice(b"</bdi>")?;
    append_left(out, left)?;
    out.extend_from_slice(b"</h1>\n</header>\n<main>\n")?;
    Ok(())
}

/// Appends the number of races, in words: `No races`, `1 race`, `2 races`.
pub(crate) fn append_races(out: &mut Vec<u8>, races: u64) -> Result<(), OutOfMemory>
    ensures { Appended result out.old out.new (races_words races) }
{
    if races == 0 {
        append_bytes(out, b"No races")
    } else {
        append_some(out, races)
    }
}

/// Appends the number of races, if it is not 0.
fn append_some(out: &mut Vec<u8>, races: u64) -> Result<(), OutOfMemory>
    ensures { Appended result out.old out.new (decimal races ++ race_word races) }
{
    let mut digits = Buffer::new();
    out.extend_from_slice(digits.format(races).as_bytes())?;
    append_bytes(out, word_of(races))
}

/// The word after a number of races.
fn word_of(races: u64) -> &'static [u8]
    ensures { result.now ≡ race_word races }
{
    if races == 1 { b" race" } else { b" races" }
}

/// Appends these bytes.
fn append_bytes(out: &mut Vec<u8>, bytes: &[u8]) -> Result<(), OutOfMemory>
    ensures { Appended result out.old out.new bytes.now }
{
    out.extend_from_slice(bytes)?;
    Ok(())
}
