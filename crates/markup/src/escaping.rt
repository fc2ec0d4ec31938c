//! Writes a text as markup that a reader sees as the same text.
ghost use Rattle.std.specs.Prelude.{◌≡◌, ◌++◌, OnOk, OnErr};
ghost use Rattle.std.specs.String.{string_bytes};
ghost use Rattle.markup.specs.Escaped.{escaped, escaped_char, is_allowed as may_stand};

use std::alloc::AllocError;

/// U+FFFD, which replaces each character that the markup may not have.
const REPLACEMENT: char = '\u{FFFD}';

/// Appends the bytes as text for an element or a quoted attribute value. `<`, `>`, `&`, `"` and `'` become entities.
/// Bytes that are not UTF-8 become U+FFFD. So do characters below U+0020, such as tabs and line ends, and U+FFFE and
/// U+FFFF. If memory runs out, `out` stays as it was.
pub fn escape(bytes: &[u8], out: &mut Vec<u8>) -> Result<(), AllocError>
    ensures ok { OnOk result (out.new.items ≡ out.old.items ++ escaped bytes.now) }
    ensures err { OnErr result (out.new.items ≡ out.old.items) }
{
    let alloc = *out.allocator();
    let text = String::from_utf8_lossy(alloc, bytes)?;
    let mut markup = String::new(alloc);
    for letter in text.chars() {
        push_escaped(&mut markup, letter)?;
    }
    out.extend_from_slice(markup.as_bytes())?;
    Ok(())
}

/// Appends a character; as an entity if it has a meaning in markup.
fn push_escaped(markup: &mut String, letter: char) -> Result<(), AllocError>
    ensures { OnOk result (string_bytes markup.new ≡ string_bytes markup.old ++ escaped_char letter) }
{
    match letter {
        '<' => markup.push_str("&lt;"),
        '>' => markup.push_str("&gt;"),
        '&' => markup.push_str("&amp;"),
        '"' => markup.push_str("&quot;"),
        '\'' => markup.push_str("&#39;"),
        _ => if is_allowed(letter) {
            markup.push(letter)
        } else {
            markup.push(REPLACEMENT)
        },
    }
}

/// Whether the markup may have the character, regardless of its meaning there.
fn is_allowed(letter: char) -> bool
    ensures { result ≡ may_stand letter }
{
    letter >= ' ' && letter != '\u{FFFE}' && letter != '\u{FFFF}'
}
