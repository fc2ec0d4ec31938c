//! Texts of whole lines.
ghost use Rattle.std.specs.Prelude.{◌≡◌, true, false};
ghost use Rattle.window.specs.Streams.{IsWhole, feeds};

/// Whether the text is empty or ends with a line feed.
pub(crate) fn is_whole(text: &[u8]) -> bool
    ensures whole { result ≡ true → IsWhole text.now }
    ensures open { result ≡ false → ¬ IsWhole text.now }
{
    if text.is_empty() {
        return true;
    }
    text[text.len() - 1] == b'\n'
}

/// The number of lines that end in the text.
pub(crate) fn lines_in(text: &[u8]) -> u64
    ensures { result ≡ feeds text.now }
{
    text.iter().filter(|byte| **byte == b'\n').count() as u64
}
