//! A text that replaces what was read, before a piece of a trace.
ghost use Rattle.std.specs.Prelude.{◌≡◌, false, IfOk};
ghost use Rattle.rapid_text.specs.Appended.{Appended};
ghost use Rattle.window.specs.HeadText.{NoneNoted, all_of, head_text, said_line, whole_head_text};
ghost use Rattle.window.specs.Heads.{all_calls, call_if, calls, join_lines, level_names, names_of, past_of, read_if, read_lines};

use crate::known::Known;
use crate::levels::{Levels, Names, first_of, first_other, is_noted};
use rapid_text::{OutOfMemory, RawTrace};
use std::alloc::Global;

// Appends the line `thread|word(name)|`.
fn append_said(
    text: &mut Vec<u8>,
    thread: &[u8],
    word: &[u8],
    name: &[u8],
) -> Result<(), OutOfMemory>
    ensures { Appended result text.old text.new (said_line thread.now word.now name.now) }
{
    text.extend_from_slice(thread)?;
    text.push(b'|')?;
    text.extend_from_slice(word)?;
    text.push(b'(')?;
    text.extend_from_slice(name)?;
    text.extend_from_slice(b")|\n")?;
    Ok(())
}

// Appends a line in which this thread forks or joins the thread `name`, if that one is noted.
fn append_call(
    text: &mut Vec<u8>,
    noted: &Levels,
    thread: &[u8],
    word: &[u8],
    name: &[u8],
) -> Result<(), OutOfMemory>
    ensures { Appended result text.old text.new (call_if thread.now word.now noted.now name.now) }
{
    if is_noted(noted, name) {
        append_said(text, thread, word, name)?;
    }
    Ok(())
}

// Appends such a line for each noted thread of the piece.
fn append_calls(
    text: &mut Vec<u8>,
    raw: &RawTrace,
    noted: &Levels,
    thread: &[u8],
    word: &[u8],
) -> Result<(), OutOfMemory>
    ensures { Appended result text.old text.new (calls thread.now word.now noted.now raw.now.threads) }
{
    for other in 0..raw.threads() {
        append_call(text, noted, thread, word, raw.thread_name(other))?;
    }
    Ok(())
}

// Whether any thread of the piece is noted.
fn is_any_noted(noted: &Levels, raw: &RawTrace) -> bool
    ensures none { result ≡ false → NoneNoted (level_names noted.now) raw.now.threads }
{
    for thread in 0..raw.threads() {
        if is_noted(noted, raw.thread_name(thread)) {
            return true;
        }
    }
    false
}

// For each joined thread of the piece, appends a line in which the first thread that was not joined joins it. The
// function looks for that first thread only if it has such a line to append. If a trace keeps the rules, a joined
// thread has no later event, so no piece has one.
fn append_joins(
    text: &mut Vec<u8>,
    raw: &RawTrace,
    seen: &Levels,
    joined: &Levels,
) -> Result<(), OutOfMemory>
    ensures { Appended result text.old text.new (join_lines seen.now joined.now raw.now.threads) }
{
    if !is_any_noted(joined, raw) {
        return Ok(());
    }
    append_calls(text, raw, joined, first_other(seen, joined), b"join")
}

// Appends a read by the thread of this name, if it is noted.
fn append_read(text: &mut Vec<u8>, noted: &Levels, name: &[u8]) -> Result<(), OutOfMemory>
    ensures { Appended result text.old text.new (read_if noted.now name.now) }
{
    if is_noted(noted, name) {
        append_said(text, name, b"r", b"seen")?;
    }
    Ok(())
}

// Appends such a read for each noted thread of the piece.
fn append_reads(text: &mut Vec<u8>, raw: &RawTrace, noted: &Levels) -> Result<(), OutOfMemory>
    ensures { Appended result text.old text.new (read_lines noted.now raw.now.threads) }
{
    for other in 0..raw.threads() {
        append_read(text, noted, raw.thread_name(other))?;
    }
    Ok(())
}

// Appends the line of each noted thread of the level.
fn append_level_calls(
    text: &mut Vec<u8>,
    noted: &Levels,
    level: &Names,
    thread: &[u8],
    word: &[u8],
) -> Result<(), OutOfMemory>
    ensures { Appended result text.old text.new (calls thread.now word.now noted.now (names_of level.now)) }
{
    for at in 0..level.len() {
        append_call(text, noted, thread, word, level[at].as_slice())?;
    }
    Ok(())
}

// Appends the line of each noted thread.
fn append_all_calls(
    text: &mut Vec<u8>,
    noted: &Levels,
    thread: &[u8],
    word: &[u8],
) -> Result<(), OutOfMemory>
    ensures { Appended result text.old text.new (all_calls thread.now word.now noted.now) }
{
    for at in 0..noted.levels.len() {
        append_level_calls(text, noted, &noted.levels[at], thread, word)?;
    }
    Ok(())
}

// Appends a read by each noted thread of the level.
fn append_level_reads(text: &mut Vec<u8>, noted: &Levels, level: &Names) -> Result<(), OutOfMemory>
    ensures { Appended result text.old text.new (read_lines noted.now (names_of level.now)) }
{
    for at in 0..level.len() {
        append_read(text, noted, level[at].as_slice())?;
    }
    Ok(())
}

// Appends a read by each noted thread.
fn append_all_reads(text: &mut Vec<u8>, noted: &Levels) -> Result<(), OutOfMemory>
    ensures { Appended result text.old text.new (read_lines noted.now (level_names noted.now)) }
{
    for at in 0..noted.levels.len() {
        append_level_reads(text, noted, &noted.levels[at])?;
    }
    Ok(())
}

impl Known {
    /// The text that replaces what was read, before any piece: it has all threads.
    pub(crate) fn whole_head(&self, alloc: Global) -> Result<Vec<u8>, OutOfMemory>
        ensures { IfOk result (λ text. text.items ≡ whole_head_text (past_of self.now)) }
    {
        let mut text = Vec::new(alloc);
        let first = first_of(&self.seen);
        let other = first_other(&self.seen, &self.joined);
        append_all_calls(&mut text, &self.forked, first, b"fork")?;
        append_all_reads(&mut text, &self.seen)?;
        text.extend_from_slice(self.held.as_slice())?;
        append_all_calls(&mut text, &self.joined, other, b"join")?;
        Ok(text)
    }

    /// The text that replaces what was read, before this piece. It has the threads that the piece names, and those
    /// that hold a lock. In this order its lines keep the rules: the thread that forks is never forked, and the one
    /// that joins is not joined.
    pub(crate) fn head(&self, alloc: Global, raw: &RawTrace) -> Result<Vec<u8>, OutOfMemory>
        ensures { IfOk result (λ text. text.items ≡ head_text (past_of self.now) (all_of raw.now.threads)) }
    {
        let mut text = Vec::new(alloc);
        let first = first_of(&self.seen);
        append_calls(&mut text, raw, &self.forked, first, b"fork")?;
        append_reads(&mut text, raw, &self.seen)?;
        text.extend_from_slice(self.held.as_slice())?;
        append_joins(&mut text, raw, &self.seen, &self.joined)?;
        Ok(text)
    }
}
