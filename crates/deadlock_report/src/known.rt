//! Reads the deadlocks that an earlier text lists.
ghost use Rattle.std.specs.Prelude.{◌≡◌, ◌<◌, ◌↔◌, [], IfOk, IsTrue, OnOk, cond, length};
ghost use Rattle.rapid_text.specs.LinesLeft.{lines_left};
ghost use Rattle.deadlock_report.specs.Known.{AreKnown, IsNoted, has_block_key, is_head, keys_if, keys_of, locations_found, locations_in, pattern_key};

use crate::pieces::append_words;
use indexmap::IndexSet;
use race_triage::{first_line, location_of};
use rapid_text::{OutOfMemory, TextKeyed};
use std::alloc::Global;

/// The patterns of known deadlocks. Each has two keys, with the locations of either thread first.
pub type Known = IndexSet<Vec<u8>, TextKeyed>;

/// The locations of the two requests of a block, and of their holds.
#[derive(Clone, Copy)]
pub(crate) struct Block<'a> {
    pub(crate) request: &'a [u8],
    pub(crate) hold: &'a [u8],
    pub(crate) other_request: &'a [u8],
    pub(crate) other_hold: &'a [u8],
}

/// Reads a text that `deadlocks` printed, or a part of one. Returns the patterns of its `deadlock` blocks. Ignores
/// everything else in the text.
pub fn known_of(alloc: Global, text: &[u8]) -> Result<Known, OutOfMemory>
    // The patterns are exactly those of the blocks.
    ensures { IfOk result (AreKnown text.now) }
{
    let mut known = IndexSet::with_hasher(alloc, TextKeyed::of(text));
    let mut left = Some(text);
    while let Some(lines) = left {
        let (line, rest) = first_line(lines);
        note(&mut known, alloc, block_at(line, rest))?;
        left = rest;
    }
    Ok(known)
}

/// Whether a deadlock is known.
pub fn has_pattern(known: &Known) -> bool
    ensures { IsTrue result ↔ (0 < length known.now.keys) }
{
    !known.is_empty()
}

// The locations of the block that begins with this line, if it is one of a deadlock. These are the lines after it.
fn block_at<'a>(line: &'a [u8], rest: Option<&'a [u8]>) -> Option<Block<'a>>
    ensures { keys_if result ≡ cond (is_head line.now) (keys_of (locations_in (lines_left rest.entry))) [] }
{
    if is_head(line) { block_in(rest) } else { None }
}

// Whether the line is the first line of a `deadlock` block.
fn is_head(line: &[u8]) -> bool
    ensures { result ≡ is_head line.now }
{
    line.starts_with(b"deadlock ")
}

// The first location before the next `deadlock` block, and the lines after it. None if there is none.
fn next_location<'a>(text: Option<&'a [u8]>) -> Option<(&'a [u8], Option<&'a [u8]>)>
    ensures { locations_in (lines_left text.entry) ≡ locations_found result }
{
    let mut left = text;
    while let Some(lines) = left {
        let (line, rest) = first_line(lines);
        if is_head(line) {
            return None;
        }
        if let Some(location) = location_of(line) {
            return Some((location, rest));
        }
        left = rest;
    }
    None
}

/// The locations of a block, of which these are the lines below the first one. None if the block has fewer than four.
pub(crate) fn block_in<'a>(text: Option<&'a [u8]>) -> Option<Block<'a>>
    ensures { keys_if result ≡ keys_of (locations_in (lines_left text.entry)) }
{
    let (request, rest) = next_location(text)?;
    let (hold, rest) = next_location(rest)?;
    let (other_request, rest) = next_location(rest)?;
    let (other_hold, _) = next_location(rest)?;
    Some(Block {
        request,
        hold,
        other_request,
        other_hold,
    })
}

// Adds both keys of the block, if there is one.
fn note(known: &mut Known, alloc: Global, block: Option<Block<'_>>) -> Result<(), OutOfMemory>
    ensures { OnOk result (IsNoted block.entry known.old.keys known.new.keys) }
{
    let Some(block) = block else {
        return Ok(());
    };
    known.insert(first_key(alloc, &block)?)?;
    known.insert(second_key(alloc, &block)?)?;
    Ok(())
}

/// Whether one of the block's keys is known.
pub(crate) fn has_block_key(
    alloc: Global,
    known: &Known,
    block: &Block<'_>,
) -> Result<bool, OutOfMemory>
    ensures { IfOk result (λ has. has ≡ has_block_key known.now.keys block.now) }
{
    let first = first_key(alloc, block)?;
    let second = second_key(alloc, block)?;
    Ok(known.contains(first.as_slice()) || known.contains(second.as_slice()))
}

// The key of a block with the first thread first.
fn first_key(alloc: Global, block: &Block<'_>) -> Result<Vec<u8>, OutOfMemory>
    ensures { IfOk result (λ key. key.items ≡ pattern_key block.now.hold.now block.now.request.now block.now.other_hold.now block.now.other_request.now) }
{
    key_of(
        alloc,
        block.hold,
        block.request,
        block.other_hold,
        block.other_request,
    )
}

// The key of a block with the second thread first.
fn second_key(alloc: Global, block: &Block<'_>) -> Result<Vec<u8>, OutOfMemory>
    ensures { IfOk result (λ key. key.items ≡ pattern_key block.now.other_hold.now block.now.other_request.now block.now.hold.now block.now.request.now) }
{
    key_of(
        alloc,
        block.other_hold,
        block.other_request,
        block.hold,
        block.request,
    )
}

// The key of a pattern: the locations of both holds, each with that of its request behind it.
fn key_of(
    alloc: Global,
    hold: &[u8],
    request: &[u8],
    other_hold: &[u8],
    other_request: &[u8],
) -> Result<Vec<u8>, OutOfMemory>
    ensures { IfOk result (λ key. key.items ≡ pattern_key hold.now request.now other_hold.now other_request.now) }
{
    let mut key = Vec::new(alloc);
    append_words(&mut key, hold)?;
    append_words(&mut key, b"\n")?;
    append_words(&mut key, request)?;
    append_words(&mut key, b"\n")?;
    append_words(&mut key, other_hold)?;
    append_words(&mut key, b"\n")?;
    append_words(&mut key, other_request)?;
    Ok(key)
}
