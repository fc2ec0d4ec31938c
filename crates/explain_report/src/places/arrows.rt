//! Arrows ` < ` in a location.
ghost use Rattle.std.specs.Prelude.{◌≡◌, ◌+◌, ◌≤◌, IfSome, length, option_map};
ghost use Rattle.explain_report.specs.places.Places.{arrow_at, before_arrow, behind_arrow};

/// The most calls of a location that are read. The recorder writes up to eight.
pub const MAX_CALLS: u32 = 64;

/// The text before the first arrow ` < `, or all; and the text after it, if there is an arrow.
pub fn cut_at_arrow(text: &[u8]) -> (&[u8], Option<&[u8]>)
    ensures before { result.0.now ≡ before_arrow text.now }
    ensures after { option_map (λ rest. rest.now) result.1 ≡ behind_arrow text.now }
{
    match arrow_in(text) {
        Some(at) => (&text[..at], Some(&text[at + 3..])),
        None => (text, None),
    }
}

/// The index of the first arrow.
fn arrow_in(text: &[u8]) -> Option<usize>
    ensures place { result ≡ arrow_at text.now }
    ensures within { IfSome result (λ at. at + 3 ≤ length text.now) }
{
    for at in 0..text.len() {
        if text[at..].starts_with(b" < ") {
            return Some(at);
        }
    }
    None
}
