//! Prints the verdicts as text.
ghost use Rattle.std.specs.Prelude.{◌≡◌, OnOk, OnErr};
ghost use Rattle.race_triage.specs.Texts.{block_texts, kind_lines, left_out_text, place_lines, totals_text, trace_lines, triage_words, AppendsTriage};
ghost use Rattle.rapid_text.specs.Appended.{Appended};

use crate::blocks::append_block;
use crate::chosen::Chosen;
use crate::pieces::append_count;
use crate::totals::Totals;
use crate::verdicts::{Verdict, Verdicts};
use event_index::Indexed;
use must_order::Must;
use rapid_text::OutOfMemory;

/// Appends the counts, and a block for each chosen verdict. The last lines say how many blocks were left out as known
/// or by filters. If memory runs out, `out` stays as it was.
pub fn triage_text(
    indexed: &Indexed,
    must: &Must,
    verdicts: &Verdicts,
    chosen: &Chosen,
    out: &mut Vec<u8>,
) -> Result<(), OutOfMemory>
    requires must { must.now ≡ indexed.now }
    // The text is exactly the one for the trace, the counts of all verdicts, and the chosen ones.
    ensures ok { OnOk result (AppendsTriage indexed.now verdicts.now chosen.now out.old out.new) }
    ensures err { OnErr result (out.new.items ≡ out.old.items) }
{
    let totals = verdicts.totals(indexed);
    let mut text = Vec::new(*out.allocator());
    append_all(&mut text, indexed, must, &totals, chosen)?;
    put(out, text)
}

// Appends a text. If `out` is empty, moves the text instead of copying it, because it may be large.
fn put(out: &mut Vec<u8>, text: Vec<u8>) -> Result<(), OutOfMemory>
    ensures ok { Appended result out.old out.new text.items }
    ensures err { OnErr result (out.new.items ≡ out.old.items) }
{
    if out.is_empty() {
        *out = text;
        return Ok(());
    }
    out.extend_from_slice(&text)?;
    Ok(())
}

// Appends the counts, the blocks, and the numbers of blocks left out.
fn append_all(
    out: &mut Vec<u8>,
    indexed: &Indexed,
    must: &Must,
    totals: &Totals,
    chosen: &Chosen,
) -> Result<(), OutOfMemory>
    requires must { must.now ≡ indexed.now }
    ensures { Appended result out.old out.new (triage_words indexed.now totals.now chosen.now) }
{
    append_totals(out, totals)?;
    append_blocks(out, indexed, must, chosen.verdicts.as_slice())?;
    append_left_out(out, b"known", chosen.known)?;
    append_left_out(out, b"hidden", chosen.hidden)?;
    Ok(())
}

// Appends the eleven counts.
fn append_totals(out: &mut Vec<u8>, totals: &Totals) -> Result<(), OutOfMemory>
    ensures { Appended result out.old out.new (totals_text totals.now) }
{
    append_trace(out, totals)?;
    append_kinds(out, totals)?;
    append_places(out, totals)?;
    Ok(())
}

// Appends the counts of events, threads and pairs.
fn append_trace(out: &mut Vec<u8>, totals: &Totals) -> Result<(), OutOfMemory>
    ensures { Appended result out.old out.new (trace_lines totals.now) }
{
    append_count(out, b"events", totals.events)?;
    append_count(out, b"threads", totals.threads)?;
    append_count(out, b"pairs", totals.pairs)?;
    Ok(())
}

// Appends the number of pairs of each kind.
fn append_kinds(out: &mut Vec<u8>, totals: &Totals) -> Result<(), OutOfMemory>
    ensures { Appended result out.old out.new (kind_lines totals.now) }
{
    append_count(out, b"candidates", totals.candidates)?;
    append_count(out, b"open", totals.open_pairs)?;
    append_count(out, b"guarded", totals.guarded)?;
    append_count(out, b"forced", totals.forced)?;
    Ok(())
}

// Appends the number of pairs of locations, and the number with each outcome.
fn append_places(out: &mut Vec<u8>, totals: &Totals) -> Result<(), OutOfMemory>
    ensures { Appended result out.old out.new (place_lines totals.now) }
{
    append_count(out, b"places", totals.places)?;
    append_count(out, b"races", totals.races)?;
    append_count(out, b"undecided", totals.undecided)?;
    append_count(out, b"apart", totals.apart)?;
    Ok(())
}

// Appends a block for each of the verdicts.
fn append_blocks(
    out: &mut Vec<u8>,
    indexed: &Indexed,
    must: &Must,
    verdicts: &[Verdict],
) -> Result<(), OutOfMemory>
    requires must { must.now ≡ indexed.now }
    ensures { Appended result out.old out.new (block_texts indexed.now verdicts.now) }
{
    for verdict in verdicts {
        append_block(out, indexed, must, verdict)?;
    }
    Ok(())
}

// Appends how many blocks were left out, if that was counted.
fn append_left_out(out: &mut Vec<u8>, word: &[u8], count: Option<u64>) -> Result<(), OutOfMemory>
    ensures { Appended result out.old out.new (left_out_text word.now count) }
{
    match count {
        Some(count) => append_count(out, word, count),
        None => Ok(()),
    }
}
