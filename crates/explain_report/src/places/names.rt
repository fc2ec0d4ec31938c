//! How well a word names a location.
ghost use Rattle.std.specs.Prelude.{◌≡◌, ◌≤◌, length};
ghost use Rattle.explain_report.specs.places.Names.{is_edge, is_part, is_part_at, is_path, is_tail, is_whole, is_word_byte, misfit};

use crate::places::arrows::cut_at_arrow;

/// The misfit if a word does not fit at all.
pub const NO_FIT: u32 = 3;

/// How badly the word fits the location: 0 if it is the place, or all of the location; 1 if the place or the word is
/// the end of the other's path; 2 if it is a part that cuts no word of the location; otherwise `NO_FIT`.
pub fn misfit(word: &[u8], location: &[u8]) -> u32
    ensures misfit { result ≡ misfit word.now location.now }
    ensures most { result ≤ NO_FIT }
{
    if is_whole(word, location) {
        0
    } else if is_path(word, location) {
        1
    } else if is_part(word, location) {
        2
    } else {
        NO_FIT
    }
}

/// Whether the word is the place of the location, or all of it.
fn is_whole(word: &[u8], location: &[u8]) -> bool
    ensures { result ≡ is_whole word.now location.now }
{
    let (place, _) = cut_at_arrow(location);
    place == word || location == word
}

/// Whether the place ends with the word as a path, or the word with the place.
fn is_path(word: &[u8], location: &[u8]) -> bool
    ensures { result ≡ is_path word.now location.now }
{
    let (place, _) = cut_at_arrow(location);
    is_tail(place, word) || is_tail(word, place)
}

/// Whether the path ends with a slash and this tail, which is not empty.
pub fn is_tail(path: &[u8], tail: &[u8]) -> bool
    ensures { result ≡ is_tail path.now tail.now }
{
    !tail.is_empty()
        && tail.len() < path.len()
        && path[path.len() - tail.len() - 1] == b'/'
        && path.ends_with(tail)
}

/// Whether the part is somewhere in the text, and cuts no word of it.
fn is_part(part: &[u8], text: &[u8]) -> bool
    ensures { result ≡ is_part part.now text.now }
{
    let mut is_found = false;
    for at in 0..text.len() {
        is_found = is_found || is_part_at(part, text, at);
    }
    is_found
}

/// Whether the part begins in the text at this index, and cuts no word of it.
fn is_part_at(part: &[u8], text: &[u8], at: usize) -> bool
    requires { at ≤ length text.now }
    ensures { result ≡ is_part_at part.now text.now at }
{
    text[at..].starts_with(part) && is_edge(text, at) && is_edge(text, at + part.len())
}

/// Whether no word of the text continues across this index.
fn is_edge(text: &[u8], at: usize) -> bool
    ensures { result ≡ is_edge text.now at }
{
    at == 0 || at >= text.len() || !(is_word_byte(text[at - 1]) && is_word_byte(text[at]))
}

/// Whether the byte is a digit, a letter, an underscore, or one of another script.
fn is_word_byte(byte: u8) -> bool
    ensures { result ≡ is_word_byte byte }
{
    (b'0' <= byte && byte <= b'9')
        || (b'A' <= byte && byte <= b'Z')
        || byte == b'_'
        || (b'a' <= byte && byte <= b'z')
        || byte >= 128
}
