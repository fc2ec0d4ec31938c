//! The table of the eleven counts of the whole trace.
ghost use Rattle.std.specs.Prelude.{decimal};
ghost use Rattle.race_page.specs.Counts.{count_line, counts_text, kind_lines, meaning_text, pair_lines, place_lines, trace_lines, word_text};
ghost use Rattle.rapid_text.specs.Appended.{Appended};

use itoa::Buffer;
use race_triage::Totals;
use rapid_text::OutOfMemory;

/// What comes before the first line of the table.
pub(crate) const COUNTS_BEGIN: &[u8] = b"<section>
<h2>Counts</h2>
<table>
<thead>
<tr><th scope=\"col\">What</th><th scope=\"col\">How many</th><th scope=\"col\">Meaning</th></tr>
</thead>
<tbody>
";

/// What comes after the last line of the table.
pub(crate) const COUNTS_END: &[u8] = b"</tbody>
</table>
</section>
";

pub(crate) const PAIRS: &[u8] =
    b"pairs of events that conflict: two threads access one variable, and one of them writes";

pub(crate) const CANDIDATES: &[u8] =
    b"pairs that no lock, fork, join or read in the trace keeps apart: a schedule shows each";

pub(crate) const OPEN: &[u8] =
    b"pairs that only the order of critical sections keeps apart: the search tries some of them";

pub(crate) const GUARDED: &[u8] = b"pairs whose two threads hold one lock: no schedule shows them";

pub(crate) const FORCED: &[u8] = b"pairs whose order every schedule keeps: no schedule shows them";

pub(crate) const PLACES: &[u8] = b"pairs of places where a pair of events has its two accesses";

pub(crate) const RACES: &[u8] = b"pairs of places for which a schedule was found";

pub(crate) const UNDECIDED: &[u8] = b"pairs of places that the search left open";

pub(crate) const APART: &[u8] = b"pairs of places whose pairs of events are all guarded or forced";

/// Appends the table of the counts.
pub(crate) fn append_counts(out: &mut Vec<u8>, totals: &Totals) -> Result<(), OutOfMemory>
    ensures { Appended result out.old out.new (counts_text totals.now) }
{
    out.extend_from_slice(COUNTS_BEGIN)?;
    append_trace(out, totals)?;
    append_pairs(out, totals)?;
    append_places(out, totals)?;
    out.extend_from_slice(COUNTS_END)?;
    Ok(())
}

/// Appends the table lines on the trace.
fn append_trace(out: &mut Vec<u8>, totals: &Totals) -> Result<(), OutOfMemory>
    ensures { Appended result out.old out.new (trace_lines totals.now) }
{
    append_line(out, b"events", totals.events, b"lines of the trace")?;
    append_line(out, b"threads", totals.threads, b"threads of the trace")
}

/// Appends the table lines on pairs of events.
fn append_pairs(out: &mut Vec<u8>, totals: &Totals) -> Result<(), OutOfMemory>
    ensures { Appended result out.old out.new (pair_lines totals.now) }
{
    append_line(out, b"pairs", totals.pairs, PAIRS)?;
    append_kinds(out, totals)
}

/// Appends the table lines on the kinds of pairs of events.
fn append_kinds(out: &mut Vec<u8>, totals: &Totals) -> Result<(), OutOfMemory>
    ensures { Appended result out.old out.new (kind_lines totals.now) }
{
    append_line(out, b"candidates", totals.candidates, CANDIDATES)?;
    append_line(out, b"open", totals.open_pairs, OPEN)?;
    append_line(out, b"guarded", totals.guarded, GUARDED)?;
    append_line(out, b"forced", totals.forced, FORCED)
}

/// Appends the table lines on pairs of locations.
fn append_places(out: &mut Vec<u8>, totals: &Totals) -> Result<(), OutOfMemory>
    ensures { Appended result out.old out.new (place_lines totals.now) }
{
    append_line(out, b"places", totals.places, PLACES)?;
    append_line(out, b"races", totals.races, RACES)?;
    append_line(out, b"undecided", totals.undecided, UNDECIDED)?;
    append_line(out, b"apart", totals.apart, APART)
}

/// Appends a table line: a word, its number, and what it means.
fn append_line(
    out: &mut Vec<u8>,
    word: &[u8],
    number: u64,
    meaning: &[u8],
) -> Result<(), OutOfMemory>
    ensures { Appended result out.old out.new (count_line word.now number meaning.now) }
{
    append_word(out, word)?;
    append_number(out, number)?;
    append_meaning(out, meaning)
}

/// Appends the beginning of a table line, up to its number.
fn append_word(out: &mut Vec<u8>, word: &[u8]) -> Result<(), OutOfMemory>
    ensures { Appended result out.old out.new (word_text word.now) }
{
    out.extend_from_slice(b"<tr><th scope=\"row\">")?;
    out.extend_from_slice(word)?;
    out.extend_from_slice(b"</th><td class=\"number\">")?;
    Ok(())
}

/// Appends the end of a table line, after its number.
fn append_meaning(out: &mut Vec<u8>, meaning: &[u8]) -> Result<(), OutOfMemory>
    ensures { Appended result out.old out.new (meaning_text meaning.now) }
{
    out.extend_from_slice(b"</td><td>")?;
    out.extend_from_slice(meaning)?;
    out.extend_from_slice(b"</td></tr>\n")?;
    Ok(())
}

/// Appends a number in decimal digits.
fn append_number(out: &mut Vec<u8>, number: u64) -> Result<(), OutOfMemory>
    ensures { Appended result out.old out.new (decimal number) }
{
    let mut digits = Buffer::new();
    out.extend_from_slice(digits.format(number).as_bytes())?;
    Ok(())
}
