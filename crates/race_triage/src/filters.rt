//! Chooses blocks by texts that they contain.
ghost use Rattle.std.specs.Prelude.{◌≡◌};
ghost use Rattle.std.specs.List.{list_any};
ghost use Rattle.race_triage.specs.Chosen.{filters_any, is_in, shows_lines, stands_in};

/// Texts that choose blocks. If `only` has texts, one must occur in one of the block's two access lines. No text of
/// `hide` may occur there.
#[derive(Clone, Copy)]
pub struct Filters<'a> {
    /// Leave out blocks in which no text of the list occurs; if the list is empty, leave out nothing.
    pub only: &'a [&'a str],
    /// Leave out blocks in which any text of the list occurs.
    pub hide: &'a [&'a str],
}

impl Filters<'_> {
    /// Whether there is a filter.
    pub fn is_any(&self) -> bool
        ensures { result ≡ filters_any self.now }
    {
        !self.only.is_empty() || !self.hide.is_empty()
    }

    /// Whether the filters keep a block with these two access lines.
    pub fn keeps(&self, first: &[u8], second: &[u8]) -> bool
        ensures { result ≡ shows_lines self.now first.now second.now }
    {
        if stand_in(self.hide, first, second) {
            return false;
        }
        self.only.is_empty() || stand_in(self.only, first, second)
    }
}

// Whether one of the texts occurs in one of the two lines.
fn stand_in(texts: &[&str], first: &[u8], second: &[u8]) -> bool
    ensures { result ≡ list_any (λ t. is_in first.now second.now t.now) texts.now }
{
    texts.iter().any(|text| stands_in_one(text, first, second))
}

// Whether the text occurs in one of the two lines.
fn stands_in_one(text: &str, first: &[u8], second: &[u8]) -> bool
    ensures { result ≡ is_in first.now second.now text.now }
{
    stands_in(text.as_bytes(), first) || stands_in(text.as_bytes(), second)
}

// Whether the text occurs in the line. An empty text occurs in every line.
fn stands_in(text: &[u8], line: &[u8]) -> bool
    ensures { result ≡ stands_in text.now line.now }
{
    if text.is_empty() {
        return true;
    }
    for start in 0..line.len() {
        if line[start..].starts_with(text) {
            return true;
        }
    }
    false
}
