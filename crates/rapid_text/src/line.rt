//! Reads one line of a trace text, regardless of the lines before it.
ghost use Rattle.std.specs.Prelude.{◌≡◌, true, length, IfSome};
ghost use Rattle.std.specs.List.{before_first, after_first, list_any};
ghost use Rattle.rapid_text.specs.Reading.{is_bar, is_line_feed, is_mark, kind_of, line_reading, named_reading, operation_reading, trimmed};
ghost use Rattle.rapid_text.specs.LineLayout.{reading_in};
ghost use Rattle.rapid_text.specs.Marking.{HasNoBlank, IsMarked};

use crate::cutting::{trim, trim_end, trim_start};
use crate::event::Kind;
use crate::marks::{Marks, cut_marked, cut_or_all_marked, cut_told};
use crate::raw_trace::{MAX_LINE, MAX_NAME};
use crate::refusal::TextCause;

/// One line's event, with names instead of numbers.
#[derive(Clone, Copy)]
pub(crate) struct Fields<'a> {
    pub(crate) thread: &'a [u8],
    pub(crate) kind: Kind,
    pub(crate) name: &'a [u8],
    pub(crate) location: &'a [u8],
}

/// What one line means: nothing, a refusal or an event.
#[derive(Clone, Copy)]
pub(crate) enum Line<'a> {
    Skipped,
    Refused(TextCause),
    Says(Fields<'a>),
}

/// The kind of operation that this word stands for.
fn kind_with(word: &[u8]) -> Option<Kind>
    ensures { result ≡ kind_of word.now }
{
    match word {
        b"r" => Some(Kind::Reads),
        b"w" => Some(Kind::Writes),
        b"acq" => Some(Kind::Acquires),
        b"rel" => Some(Kind::Releases),
        b"fork" => Some(Kind::Forks),
        b"join" => Some(Kind::Joins),
        _ => None,
    }
}

/// Whether the word is `begin` or `end`: it bounds an atomic block and is no event.
fn is_bound(word: &[u8]) -> bool
    ensures { result ≡ is_mark word.now }
{
    matches!(word, b"begin" | b"end")
}

/// What a line with these names means. `kind` is the kind of its operation, or None if the word is unknown.
fn read_names<'a>(
    thread: &'a [u8],
    kind: Option<Kind>,
    name: &'a [u8],
    location: &'a [u8],
) -> Line<'a>
    ensures { reading_in result ≡ named_reading thread.now kind name.now location.now }
{
    let Some(kind) = kind else {
        return Line::Refused(TextCause::UnknownOperation);
    };
    if thread.is_empty() || name.is_empty() {
        return Line::Refused(TextCause::EmptyName);
    }
    if thread.len() > MAX_NAME || name.len() > MAX_NAME {
        return Line::Refused(TextCause::NameTooLong);
    }
    Line::Says(Fields {
        thread,
        kind,
        name,
        location,
    })
}

/// What a line with this operation, `word(name)`, means. The marks are those of the operation.
fn read_operation<'a>(
    thread: &'a [u8],
    operation: &'a [u8],
    location: &'a [u8],
    marks: Marks,
) -> Line<'a>
    requires { IsMarked marks operation.now }
    ensures { reading_in result ≡ operation_reading thread.now operation.now location.now }
{
    if is_bound(operation) {
        return Line::Skipped;
    }
    let Some((word, rest)) = cut_marked(b'(', marks.opens, operation) else {
        return Line::Refused(TextCause::BadParentheses);
    };
    let Some(name) = rest.strip_suffix(b")") else {
        return Line::Refused(TextCause::BadParentheses);
    };
    let word = trim(word);
    if is_bound(word) {
        return Line::Skipped;
    }
    read_names(thread, kind_with(word), trim(name), location)
}

/// What a line means whose first field is `thread` and whose text after the first bar is `rest`. The marks are those
/// of `rest`.
fn read_fields<'a>(thread: &'a [u8], rest: &'a [u8], marks: Marks) -> Line<'a>
    requires { IsMarked marks rest.now }
    ensures { reading_in result
        ≡ operation_reading
        (trimmed thread.now)
        (trimmed (before_first is_bar rest.now))
        (trimmed (after_first is_bar rest.now)) }
{
    let (raw, location) = cut_or_all_marked(b'|', marks.bars, rest);
    let front = trim_start(raw);
    let operation = trim_end(front);
    let marks = marks.behind(raw.len() - front.len());
    read_operation(trim(thread), operation, trim(location), marks)
}

/// Reads a line, which may have blanks at its ends. The marks are those of the line.
pub(crate) fn read_line(raw: &[u8], marks: Marks) -> Line<'_>
    requires { IsMarked marks raw.now }
    ensures { reading_in result ≡ line_reading raw.now }
{
    let front = trim_start(raw);
    let line = trim_end(front);
    if line.is_empty() {
        return Line::Skipped;
    }
    if line.len() > MAX_LINE {
        return Line::Refused(TextCause::LineTooLong);
    }
    let marks = marks.behind(raw.len() - front.len());
    match cut_marked(b'|', marks.bars, line) {
        Some((thread, rest)) => read_fields(thread, rest, marks.behind(thread.len() + 1)),
        None => Line::Refused(TextCause::NoBar),
    }
}

/// Reads a line without a blank. None if the marks do not show every cut, or if the line is not a plain event;
/// `read_line` reads every line.
#[inline(always)]
fn read_parts<'a>(line: &'a [u8], marks: Marks) -> Option<Line<'a>>
    requires marked { IsMarked marks line.now }
    requires plain { HasNoBlank line.now }
    ensures { IfSome result (λ r. reading_in r ≡ line_reading line.now) }
{
    if line.len() > MAX_LINE {
        return None;
    }
    let (thread, rest) = cut_told(b'|', marks.bars, line)?;
    let later = marks.behind(thread.len() + 1);
    let (operation, location) = cut_told(b'|', later.bars, rest)?;
    let (word, closed) = cut_told(b'(', later.opens, operation)?;
    let name = closed.strip_suffix(b")")?;
    if is_bound(operation) || is_bound(word) {
        return None;
    }
    Some(read_names(thread, kind_with(word), name, location))
}

/// Reads the first line of a text, and returns it with the text after its line feed. The marks are those of the text.
/// None if the marks do not show where to cut the line, or if it may have a blank; `read_line` reads every line.
#[inline(always)]
pub(crate) fn read_plain<'a>(text: &'a [u8], marks: Marks) -> Option<(Line<'a>, &'a [u8])>
    requires { IsMarked marks text.now }
    ensures line { IfSome result (λ r. reading_in r.0 ≡ line_reading (before_first is_line_feed text.now)) }
    ensures found { IfSome result (λ r. list_any is_line_feed text.now ≡ true) }
    ensures after { IfSome result (λ r. r.1.now ≡ after_first is_line_feed text.now) }
{
    let (line, left) = cut_told(b'\n', marks.feeds, text)?;
    if marks.is_plain(line.len()) {
        let reading = read_parts(line, marks)?;
        return Some((reading, left));
    }
    None
}
