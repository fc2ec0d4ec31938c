//! Splits a joint text into its trace and its script.
ghost use Rattle.std.specs.Prelude.{◌≡◌};
ghost use Rattle.client_scripts.specs.Joint.{is_divider, trace_part, script_part};

use rapid_text::trim;
use script_language::Lines;

/// Whether the line is `---`, with or without blanks around it.
fn is_a_divider(line: &[u8]) -> bool
    ensures { result ≡ is_divider line.now }
{
    trim(line) == b"---".as_slice()
}

/// Splits a text at the first line `---`. Returns the lines before it, with their line feeds, and the text after it.
/// If there is no such line, the whole text is the trace, and the script is empty.
pub(crate) fn parts_of(text: &[u8]) -> (&[u8], &[u8])
    ensures trace { result.0.now ≡ trace_part text.now }
    ensures script { result.1.now ≡ script_part text.now }
{
    let mut lines = Lines::of(text);
    let mut at = 0;
    while let Some(line) = lines.next() {
        if is_a_divider(line) {
            return (&text[..at], lines.text());
        }
        at += line.len() + 1;
    }
    (text, &[])
}
