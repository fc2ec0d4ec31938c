//! The lines of a text that `record/confirm` wrote.
ghost use Rattle.std.specs.Prelude.{◌≡◌, ◌≤◌, ◌++◌, ◌∷◌, [], length, None, Some, IfErr, IfOk, IfSome, IsUtf8, OnErr, OnOk};
ghost use Rattle.rapid_text.specs.Appended.{Appended, IfFound};
ghost use Rattle.serde_json.specs.Data.{Data};
ghost use Rattle.serde_json.specs.Read.{read};
ghost use Rattle.serde_json.specs.View.{view};
ghost use Rattle.followed_races.specs.Lines.{line_count_limit, AreLines, HasNoFeed, IsEntryOf, IsReadOn, IsRefusal, IsStopped, Tells};

use crate::entries::{Followed, entry_of};
use crate::members::is_entry;
use memchr::memchr;
use rapid_text::OutOfMemory;
use serde_json::Value;
use std::alloc::Global;

/// The most lines of a text. Each is a race that was followed, which takes two runs of the program.
pub const MAX_LINES: usize = 16_384;

/// The most bytes of a line, without its line feed.
pub const MAX_LINE: usize = 65_536;

/// Why a text is refused.
#[derive(Clone, Copy, PartialEq, Eq, Debug)]
pub enum FollowedRefusal {
    /// The line with this number, counted from 1, is none that `record/confirm` writes, or is one too many.
    Line(u64),
    /// Out of memory.
    OutOfMemory,
}

impl From<OutOfMemory> for FollowedRefusal {
    ghost use Rattle.std.specs.Prelude.{◌≡◌};
    ghost use Rattle.followed_races.specs.declared.lines.FollowedRefusal.TheVariants.{OutOfMemory as NoMemory};

    ghost from_gives = { λ _ refusal. refusal ≡ NoMemory };

    fn from(_refused: OutOfMemory) -> FollowedRefusal {
        FollowedRefusal::OutOfMemory
    }
}

/// Returns the entries of a text that `record/confirm` wrote, one for each line. Fails at the first other line, or if
/// memory runs out.
pub fn followed_in(alloc: Global, text: &[u8]) -> Result<Vec<Followed>, FollowedRefusal>
    ensures ok { IfOk result (λ found. AreLines text.now found.items) }
    ensures few { IfOk result (λ found. length found.items ≤ line_count_limit) }
    ensures err { IfErr result (IsRefusal text.now) }
{
    let mut found = Vec::new(alloc);
    read_lines(alloc, &mut found, text)?;
    Ok(found)
}

/// Reads the lines, one after another.
fn read_lines(alloc: Global, found: &mut Vec<Followed>, text: &[u8]) -> Result<(), FollowedRefusal>
    requires { found.old.items ≡ [] }
    ensures ok { OnOk result (AreLines text.now found.new.items) }
    ensures few { length found.new.items ≤ line_count_limit }
    ensures err { IfErr result (IsRefusal text.now) }
{
    let mut rest = text;
    while !rest.is_empty() {
        rest = read_on(alloc, found, rest)?;
    }
    Ok(())
}

/// Reads the first line, and returns the text after it.
fn read_on<'a>(
    alloc: Global,
    found: &mut Vec<Followed>,
    text: &'a [u8],
) -> Result<&'a [u8], FollowedRefusal>
    requires { length found.old.items ≤ line_count_limit }
    ensures ok { IfOk result (λ behind. IsReadOn found.old.items text.now behind.now found.new.items) }
    ensures few { length found.new.items ≤ line_count_limit }
    ensures err { IfErr result (IsStopped (length found.old.items) text.now) }
{
    let number = found.len() as u64 + 1;
    if found.len() >= MAX_LINES {
        return Err(FollowedRefusal::Line(number));
    }
    let Some((line, behind)) = cut_line(text) else {
        return Err(FollowedRefusal::Line(number));
    };
    let Some(entry) = told_in(alloc, line)? else {
        return Err(FollowedRefusal::Line(number));
    };
    keep(found, entry)?;
    Ok(behind)
}

/// Adds the entry.
fn keep(found: &mut Vec<Followed>, entry: Followed) -> Result<(), OutOfMemory>
    ensures ok { Appended result found.old found.new (entry ∷ []) }
    ensures err { OnErr result (found.new.items ≡ found.old.items) }
{
    found.push(entry)?;
    Ok(())
}

/// The text before the first line feed and the text after it. Returns None if there is no line feed.
fn cut_line(text: &[u8]) -> Option<(&[u8], &[u8])>
    ensures some { IfSome result (λ parts. (text.now ≡ parts.0.now ++ 10 ∷ parts.1.now) × HasNoFeed parts.0.now) }
    ensures none { result ≡ None → HasNoFeed text.now }
{
    let at = memchr(b'\n', text)?;
    Some((&text[..at], &text[at + 1..]))
}

/// The entry of a line. Returns None if `record/confirm` writes no such line.
fn told_in(alloc: Global, line: &[u8]) -> Result<Option<Followed>, OutOfMemory>
    ensures some { IfOk result (λ told. IfSome told (Tells line.now)) }
    ensures none { IfOk result (λ told. told ≡ None → ¬ ((d : Data) × IsEntryOf line.now d)) }
{
    if line.len() > MAX_LINE {
        return Ok(None);
    }
    let Some(value) = value_of(alloc, line)? else {
        return Ok(None);
    };
    if !is_entry(&value) {
        return Ok(None);
    }
    Ok(Some(entry_of(alloc, &value)?))
}

/// Parses a text as JSON. Returns None if it is not JSON.
fn value_of(alloc: Global, text: &[u8]) -> Result<Option<Value>, OutOfMemory>
    ensures some { IfFound result (λ value. IsUtf8 text.now × (read text.now ≡ Some (view value))) }
    ensures none { IfOk result (λ found. found ≡ None → IsUtf8 text.now → read text.now ≡ None) }
{
    match Value::from_slice(alloc, text) {
        Ok(value) => Ok(Some(value)),
        Err(error) => {
            if error.is_memory() {
                Err(OutOfMemory)
            } else {
                Ok(None)
            }
        }
    }
}
