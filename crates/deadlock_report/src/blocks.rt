//! Prints the block of one verdict.
ghost use Rattle.std.specs.Prelude.{◌≡◌};
ghost use Rattle.rapid_text.specs.Appended.{Appended};
ghost use Rattle.deadlock_report.specs.Texts.{block_if, block_text, head_line, how_words, size_text, word_text};

use crate::kinds::{Kind, belongs};
use crate::pieces::{append_small, append_words};
use crate::requests::append_request;
use deadlock_triage::{How, Outcome, Verdict};
use must_order::Analysis;
use rapid_text::OutOfMemory;

/// Appends the block of a verdict if it is of this kind.
pub(crate) fn append_block_if(
    out: &mut Vec<u8>,
    analysis: &Analysis<'_>,
    verdict: &Verdict,
    kind: Kind,
) -> Result<(), OutOfMemory>
    ensures { Appended result out.old out.new (block_if analysis.now kind verdict.now) }
{
    if belongs(verdict, kind) {
        append_block(out, analysis, verdict)
    } else {
        Ok(())
    }
}

// Appends the block of a verdict: its first line and its two requests, with the locks that their threads hold.
fn append_block(
    out: &mut Vec<u8>,
    analysis: &Analysis<'_>,
    verdict: &Verdict,
) -> Result<(), OutOfMemory>
    ensures { Appended result out.old out.new (block_text analysis.now verdict.now) }
{
    append_head(out, verdict)?;
    append_request(out, analysis, verdict.first, verdict.second)?;
    append_request(out, analysis, verdict.second, verdict.first)?;
    Ok(())
}

// Appends the first line of the block.
fn append_head(out: &mut Vec<u8>, verdict: &Verdict) -> Result<(), OutOfMemory>
    ensures { Appended result out.old out.new (head_line verdict.now) }
{
    match verdict.outcome {
        Outcome::Deadlock {
            how,
            events,
            threads,
        } => {
            append_word(out, b"deadlock", verdict)?;
            append_words(out, how_text(how))?;
            append_size(out, events, threads)?;
        }
        Outcome::Undecided { tried } => {
            append_word(out, b"undecided", verdict)?;
            append_words(out, b" tried")?;
            append_small(out, tried)?;
        }
        Outcome::Apart => append_word(out, b"apart", verdict)?,
    }
    append_words(out, b"\n")?;
    Ok(())
}

// Appends the word and the numbers of the two requests.
fn append_word(out: &mut Vec<u8>, word: &[u8], verdict: &Verdict) -> Result<(), OutOfMemory>
    ensures { Appended result out.old out.new (word_text word.now verdict.now) }
{
    append_words(out, word)?;
    append_small(out, verdict.first)?;
    append_small(out, verdict.second)?;
    Ok(())
}

/// The word for the order of a schedule.
pub(crate) fn how_text(how: How) -> &'static [u8]
    ensures { result.now ≡ how_words how }
{
    match how {
        How::Ordered => b" ordered",
        How::Turned => b" turned",
    }
}

// Appends the size of the schedule: its events and its threads.
fn append_size(out: &mut Vec<u8>, events: u32, threads: u32) -> Result<(), OutOfMemory>
    ensures { Appended result out.old out.new (size_text events threads) }
{
    append_words(out, b" events")?;
    append_small(out, events)?;
    append_words(out, b" threads")?;
    append_small(out, threads)?;
    Ok(())
}
