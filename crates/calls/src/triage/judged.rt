//! Whether the parts of a merged report have events, and whether their recordings are whole. If none has events, nothing
//! was judged, and a report without races means nothing.
ghost use Rattle.std.specs.Prelude.{◌≡◌, IfOk};
ghost use Rattle.std.specs.List.{before_first};
ghost use Rattle.rapid_text.specs.Reading.{is_line_feed};
ghost use Rattle.calls.specs.triage.Judged.{are_whole, counts_events, have_events, is_whole, IsJudged};

use memchr::memchr;
use race_parts::{Part, Parts, data_of, number_of, text_of};
use rapid_text::OutOfMemory;
use std::alloc::Global;
use wholeness::Judged;

/// The first line of a text, without its end.
fn first_line(text: &[u8]) -> &[u8]
    ensures { result.now ≡ before_first is_line_feed text.now }
{
    match memchr(b'\n', text) {
        Some(end) => &text[..end],
        None => text,
    }
}

/// Whether the first line of a part counts at least one event.
fn counts_events(alloc: Global, part: &Part) -> Result<bool, OutOfMemory>
    ensures { IfOk result (λ counts. counts ≡ counts_events part.now) }
{
    let counts = data_of(alloc, first_line(part.text.as_slice()))?;
    Ok(number_of(&counts, "events") != 0)
}

/// Whether at least one of the parts has events.
pub fn have_events(alloc: Global, parts: &Parts) -> Result<bool, OutOfMemory>
    ensures { IfOk result (λ have. have ≡ have_events parts.now.entries) }
{
    for (_, part) in parts {
        if counts_events(alloc, part)? {
            return Ok(true);
        }
    }
    Ok(false)
}

/// Whether the first line of a part names nothing that its recording misses.
fn is_whole(alloc: Global, part: &Part) -> Result<bool, OutOfMemory>
    ensures { IfOk result (λ whole. whole ≡ is_whole part.now) }
{
    let counts = data_of(alloc, first_line(part.text.as_slice()))?;
    Ok(text_of(&counts, "absent").is_empty())
}

/// Whether no part names anything that its recording misses.
pub fn are_whole(alloc: Global, parts: &Parts) -> Result<bool, OutOfMemory>
    ensures { IfOk result (λ whole. whole ≡ are_whole parts.now.entries) }
{
    for (_, part) in parts {
        if !is_whole(alloc, part)? {
            return Ok(false);
        }
    }
    Ok(true)
}

/// How many parts name something that their recordings miss.
pub fn missing_in(alloc: Global, parts: &Parts) -> Result<u64, OutOfMemory> {
    let mut count = 0u64;
    for (_, part) in parts {
        if !is_whole(alloc, part)? {
            count = count.saturating_add(1);
        }
    }
    Ok(count)
}

/// What was judged in the parts, if the report on them has this number of races.
pub fn judged_of(alloc: Global, parts: &Parts, races: u64) -> Result<Judged, OutOfMemory>
    ensures { IfOk result (IsJudged parts.now.entries races) }
{
    let has_events = have_events(alloc, parts)?;
    let is_whole = are_whole(alloc, parts)?;
    Ok(Judged {
        races,
        has_events,
        is_whole,
    })
}
