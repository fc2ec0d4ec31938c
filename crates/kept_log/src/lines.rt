//! Finds the lines that count in a text.
ghost use Rattle.std.specs.Prelude.{◌≡◌, ◌≤◌, ◌<◌, List, ℕ, ◌∷◌, ◌++◌, [], length, take, drop, IfNone, IfSome};
ghost use Rattle.kept_log.specs.Lines.{IsLine, IsEnd, EndsAt, line_text, kept_lines};

use memchr::memchr;

/// How many bytes the first line takes up with its gate and its end, where it counts.
fn open_line(text: &[u8]) -> Option<usize>
    ensures none { IfNone result (IsEnd text.now) }
    ensures within { IfSome result (λ n. (1 < n) × (n ≤ length text.now)) }
    ensures line { IfSome result (λ n. (line : List ℕ) × IsLine line × (take n text.now ≡ line_text line)) }
{
    let [b' ', line @ ..] = text else {
        return None;
    };
    Some(memchr(b'\n', line)? + 2)
}

/// Where the lines end that count.
pub(crate) fn lines_end(text: &[u8]) -> usize
    ensures { EndsAt text.now result }
{
    let mut end = 0;
    while let Some(len) = open_line(&text[end..]) {
        end += len;
    }
    end
}

/// The first line that counts in a text, without its gate and its end, and the text after it.
pub fn first_line(text: &[u8]) -> Option<(&[u8], &[u8])>
    ensures none { IfNone result (kept_lines text.now ≡ []) }
    ensures line { IfSome result (λ parts. IsLine parts.0.now) }
    ensures lines { IfSome result (λ parts. kept_lines text.now ≡ parts.0.now ∷ kept_lines parts.1.now) }
    ensures shorter { IfSome result (λ parts. length parts.1.now < length text.now) }
{
    let Some(len) = open_line(text) else {
        return None;
    };
    Some((&text[1..len - 1], &text[len..]))
}
