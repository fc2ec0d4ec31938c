//! Reads the races that an earlier text lists.
ghost use Rattle.std.specs.Prelude.{◌≡◌, ◌≤◌, ◌∷◌, ℕ, List, IfNone, IfOk, IfSome, OnOk, length, true, false};
ghost use Rattle.std.specs.List.{after_first, list_any, slice_split};
ghost use Rattle.rapid_text.specs.Appended.{IfFound};
ghost use Rattle.rapid_text.specs.LinesLeft.{bytes_left, lines_left};
ghost use Rattle.rapid_text.specs.Reading.{is_bar, is_line_feed};
ghost use Rattle.race_triage.specs.Blocks.{ArePair, HasNoPlace, HaveNoPair, IsNoted, IsPlace, IsRead};
ghost use Rattle.race_triage.specs.Known.{is_access, is_head, AreAllNamed, AreKnownIn, AreOnlyNamed, HasBlock, IsLocation};

use crate::places::Places;
use indexmap::IndexSet;
use memchr::memchr;
use rapid_text::{OutOfMemory, TextKeyed, trim};
use std::alloc::Global;

/// Pairs of locations whose races are known, as numbers, the lesser first.
pub type Known = IndexSet<(u32, u32), TextKeyed>;

/// Reads a text that `triage` printed, or a part of one. Returns the pairs of locations of its `race` blocks, as far
/// as the trace has these locations. Ignores everything else in the text.
pub fn known_of(alloc: Global, places: &Places, text: &[u8]) -> Result<Known, OutOfMemory>
    ensures known { IfOk result (AreKnownIn places.now text.now) }
    // If these are the locations of a trace, a verdict on the trace is known only if the text names its two
    // locations.
    ensures named { IfOk result (AreOnlyNamed places.now text.now) }
    // And it is known if the text names them.
    ensures all_named { IfOk result (AreAllNamed places.now text.now) }
{
    let mut known = IndexSet::with_hasher(alloc, TextKeyed::of(text));
    let mut block = Block::Nothing;
    let mut left = Some(text);
    while let Some(lines) = left {
        let (line, rest) = first_line(lines);
        let (next, told) = read(block, line);
        note(&mut known, places, told)?;
        block = next;
        left = rest;
    }
    Ok(known)
}

/// Returns whether the text has a `race` block with two accesses.
pub fn has_block(text: &[u8]) -> bool
    ensures yes { result ≡ true → HasBlock text.now }
    ensures no { result ≡ false → ¬ HasBlock text.now }
{
    let mut block = Block::Nothing;
    let mut left = Some(text);
    while let Some(lines) = left {
        let (line, rest) = first_line(lines);
        let (next, told) = read(block, line);
        match told {
            Some(_) => return true,
            None => {}
        }
        block = next;
        left = rest;
    }
    false
}

// What was read of a block so far.
#[derive(Clone, Copy)]
enum Block<'a> {
    // No block: there was no line `race ..` yet, or two accesses followed it.
    Nothing,
    // A line `race ..`, and no access after it yet.
    Race,
    // A line `race ..`, and this line of one access after it.
    First(&'a [u8]),
}

/// The first line without its line feed, and the text after the line feed; None if there is no line feed.
pub fn first_line(text: &[u8]) -> (&[u8], Option<&[u8]>)
    ensures lines { slice_split is_line_feed text.now ≡ result.0.now ∷ lines_left result.1 }
    ensures shorter { bytes_left result.1 ≤ length text.now }
{
    match memchr(b'\n', text) {
        Some(end) => (&text[..end], Some(&text[end + 1..])),
        None => (text, None),
    }
}

// Reads one more line of a block. If it is the line of the second access, also returns the lines of both accesses.
fn read<'a>(block: Block<'a>, line: &'a [u8]) -> (Block<'a>, Option<(&'a [u8], &'a [u8])>)
    ensures { IsRead block.entry line.now result.0 result.1 }
{
    if is_head(line) {
        return (Block::Race, None);
    }
    if !is_access(line) {
        return (block, None);
    }
    match block {
        Block::Nothing => (Block::Nothing, None),
        Block::Race => (Block::First(line), None),
        Block::First(first) => (Block::Nothing, Some((first, line))),
    }
}

// Whether the line is the first line of a `race` block.
fn is_head(line: &[u8]) -> bool
    ensures { result ≡ is_head line.now }
{
    line.starts_with(b"race ")
}

// Whether the line begins with exactly two blanks.
fn is_access(line: &[u8]) -> bool
    ensures { result ≡ is_access line.now }
{
    line.starts_with(b"  ") && !line.starts_with(b"   ")
}

// Adds the locations of two access lines, if there are such lines and the trace has both locations.
fn note(known: &mut Known, places: &Places, told: Option<(&[u8], &[u8])>) -> Result<(), OutOfMemory>
    ensures { OnOk result (IsNoted places.now.locations.keys told.entry known.old.keys known.new.keys) }
{
    let Some((one, other)) = told else {
        return Ok(());
    };
    let Some(pair) = pair_of(places, one, other)? else {
        return Ok(());
    };
    known.insert(pair)?;
    Ok(())
}

// The numbers of the locations in two access lines, the lesser first. Returns None unless the trace has both.
fn pair_of(places: &Places, one: &[u8], other: &[u8]) -> Result<Option<(u32, u32)>, OutOfMemory>
    ensures some { IfFound result (λ pair. ArePair places.now.locations.keys one.now other.now pair.0 pair.1) }
    ensures none { IfOk result (λ pair. IfNone pair (HaveNoPair places.now one.now other.now)) }
{
    let Some(one) = place_of(places, one)? else {
        return Ok(None);
    };
    let Some(other) = place_of(places, other)? else {
        return Ok(None);
    };
    Ok(Some((one.min(other), one.max(other))))
}

// The number of the location in an access line. Returns None if the trace does not have it.
fn place_of(places: &Places, line: &[u8]) -> Result<Option<u32>, OutOfMemory>
    ensures some { IfFound result (IsPlace places.now.locations.keys line.now) }
    ensures none { IfOk result (λ place. IfNone place (HasNoPlace places.now line.now)) }
{
    match location_of(line) {
        Some(location) => places.number(location),
        None => Ok(None),
    }
}

/// The location in an access line: the text after the second bar. Returns None if there are fewer than two bars.
pub fn location_of(line: &[u8]) -> Option<&[u8]>
    ensures some { IfSome result (λ location. IsLocation line.now location.now) }
    ensures none { IfNone result ((location : List ℕ) → ¬ IsLocation line.now location) }
{
    let Some(behind) = behind_bar(trim(line)) else {
        return None;
    };
    match behind_bar(behind) {
        Some(location) => Some(trim(location)),
        None => None,
    }
}

// The text after the first bar; None if there is no bar.
fn behind_bar(text: &[u8]) -> Option<&[u8]>
    ensures found { IfSome result (λ behind. list_any is_bar text.now ≡ true) }
    ensures behind { IfSome result (λ behind. behind.now ≡ after_first is_bar text.now) }
    ensures none { IfNone result (list_any is_bar text.now ≡ false) }
{
    match memchr(b'|', text) {
        Some(bar) => Some(&text[bar + 1..]),
        None => None,
    }
}
