//! The lines of a text, and each line as words.
ghost use Rattle.std.specs.Prelude.{◌≡◌, ◌≤◌, [], ◌∷◌, length, IfSome, IfNone, Some};
ghost use Rattle.std.specs.List.{slice_split, join_with_byte, position_or_len, before_first};
ghost use Rattle.rapid_text.specs.Reading.{is_blank, is_line_feed};
ghost use Rattle.script_language.specs.LineWords.{words_of, is_separator};
ghost use Rattle.script_language.specs.WordsLeft.{parts_left};

use memchr::memchr;
use rapid_text::{is_a_blank, trim_start};
use std::marker::Model;

/// How many bytes come before the first blank.
fn word_len(bytes: &[u8]) -> usize
    ensures word { result ≡ position_or_len is_blank bytes.now }
    ensures within { result ≤ length bytes.now }
{
    bytes.iter().take_while(|byte| !is_a_blank(**byte)).count()
}

/// The first word of a line and what comes after it, if there is a word.
fn first_word(line: &[u8]) -> Option<(&[u8], &[u8])>
    ensures none { IfNone result (words_of line.now ≡ []) }
    ensures some { IfSome result (λ parts. words_of line.now ≡ parts.0.now ∷ words_of parts.1.now) }
{
    let rest = trim_start(line);
    if rest.is_empty() {
        return None;
    }
    Some(rest.split_at(word_len(rest)))
}

/// Whether the word separates the commands of a batch.
pub(crate) fn is_separator(word: &[u8]) -> bool
    ensures { result ≡ is_separator word.now }
{
    word == b";".as_slice()
}

/// The part of a line that was not taken yet, word by word. Contracts see it as the list of its words.
#[derive(Drop)]
pub(crate) struct Words<'a> {
    rest: &'a [u8],
    // whether the part ends at the first word `;` of the rest
    is_part: bool,
}

impl<'a> Model for Words<'a> {
    ghost use Rattle.std.specs.Prelude.{List, ℕ};
    ghost use Rattle.script_language.specs.WordsLeft.{words_left};

    ghost Value = { List (List ℕ) };

    ghost view = { words_left };
}

impl<'a> Words<'a> {
    /// All words of the line.
    pub(crate) fn of(line: &'a [u8]) -> Words<'a>
        ensures { result ≡ words_of line.now }
    {
        Words {
            rest: line,
            is_part: false,
        }
    }

    /// The same words once more.
    pub(crate) fn again(&self) -> Words<'a>
        ensures { result ≡ self.now }
    {
        Words {
            rest: self.rest,
            is_part: self.is_part,
        }
    }

    /// What comes before the first `;`, or all.
    pub(crate) fn before_separator(&self) -> Words<'a>
        ensures { result ≡ before_first is_separator self.now }
    {
        Words {
            rest: self.rest,
            is_part: true,
        }
    }

    /// What comes after the first `;`, if there is one.
    pub(crate) fn behind_separator(&self) -> Option<Words<'a>>
        ensures { parts_left (Some self.now) ≡ before_first is_separator self.now ∷ parts_left result }
    {
        let mut words = self.again();
        while let Some(word) = words.next() {
            if is_separator(word) {
                return Some(words);
            }
        }
        None
    }

    /// Takes the first word.
    pub(crate) fn next(&mut self) -> Option<&'a [u8]>
        ensures none { IfNone result (self.old ≡ []) }
        ensures some { IfSome result (λ word. self.old ≡ word.now ∷ self.new) }
    {
        let (word, others) = first_word(self.rest)?;
        if self.is_part && is_separator(word) {
            return None;
        }
        self.rest = others;
        Some(word)
    }
}

/// The lines of a text that were not taken yet. Contracts see it as the list of its lines.
#[derive(Drop)]
pub struct Lines<'a> {
    // None after the last line was taken, which has no line feed.
    rest: Option<&'a [u8]>,
}

impl<'a> Model for Lines<'a> {
    ghost use Rattle.std.specs.Prelude.{List, ℕ};
    ghost use Rattle.script_language.specs.LinesLeft.{lines_left};

    ghost Value = { List (List ℕ) };

    ghost view = { λ l. lines_left l.rest };
}

impl<'a> Lines<'a> {
    /// Returns all lines of the text, without their line feeds.
    pub fn of(text: &'a [u8]) -> Lines<'a>
        ensures { result ≡ slice_split is_line_feed text.now }
    {
        Lines { rest: Some(text) }
    }

    /// Takes the first line. Returns None if no line is left.
    pub fn next(&mut self) -> Option<&'a [u8]>
        ensures none { IfNone result (self.old ≡ []) }
        ensures some { IfSome result (λ line. self.old ≡ line.now ∷ self.new) }
    {
        let text = self.rest?;
        match memchr(b'\n', text) {
            Some(at) => {
                self.rest = Some(&text[at + 1..]);
                Some(&text[..at])
            }
            None => {
                self.rest = None;
                Some(text)
            }
        }
    }

    /// Returns the lines that are left as one text; empty if no line is left.
    pub fn text(&self) -> &'a [u8]
        ensures { result.now ≡ join_with_byte 10 self.now }
    {
        self.rest.unwrap_or(&[])
    }
}
