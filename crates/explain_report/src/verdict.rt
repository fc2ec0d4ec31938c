//! Prints the verdict on a pair of conflicting events, and the reason.
ghost use Rattle.std.specs.Prelude.{◌≡◌, OnErr, length};
ghost use Rattle.explain_report.specs.Runs.{run_total};
ghost use Rattle.explain_report.specs.Told.{IsRaceTold, IsTold, race_words};
ghost use Rattle.explain_report.specs.Verdicts.{how_text, race_head, verdict_head};
ghost use Rattle.rapid_text.specs.Appended.{Appended, AppendedOne};

use crate::accesses::append_pair;
use crate::apart::{
    append_forced, append_forced_head, append_guarded, append_guarded_head, append_undecided,
    append_undecided_head,
};
use crate::contradicted::{append_contradicted, append_contradicted_head};
use crate::pieces::{append_count, append_words};
use crate::run_lines::append_runs;
use crate::runs::run_count;
use closed_order::Step;
use event_index::Indexed;
use must_order::{Analysis, Chain};
use rapid_text::OutOfMemory;

/// How a schedule shows a race.
#[derive(Clone, Copy, PartialEq, Eq, Debug)]
pub enum How {
    /// It is a candidate: the order SHB leaves the pair open.
    Candidate,
    /// SHB orders the pair, and a list in the order of the trace shows it.
    Beyond,
    /// Critical sections in another order than in the trace show the pair.
    Turned,
}

/// The verdict on a pair, with the reason.
#[derive(Clone, Copy)]
pub enum Verdict<'a> {
    /// A race, which the schedule `events` shows.
    Race {
        /// How the schedule shows it.
        how: How,
        /// The events of the schedule.
        events: &'a [u32],
        /// Whether all its runs are printed. If not, and there are more than eleven, the first ones are one block.
        all: bool,
    },
    /// The first event comes before the second in every correct reordering. The first chain leads from one to the
    /// other. If it ends a section, a later chain shows why that section began first.
    Forced {
        /// The chains.
        chains: &'a [Chain],
    },
    /// Both threads hold this lock.
    Guarded {
        /// The lock.
        lock: u32,
    },
    /// These steps derive that each schedule contradicts itself.
    Contradicted {
        /// The steps.
        steps: &'a [Step],
    },
    /// No schedule was found, and nothing that forbids one. SHB keeps the first event before the second by these events,
    /// each with an edge to the next.
    Undecided {
        /// The events, from the first to the second.
        events: &'a [u32],
    },
}

/// Appends the verdict on the pair, whose earlier event comes first, the two events, and the reason. If memory runs
/// out, `out` stays as it was.
pub fn explain_text(
    analysis: &Analysis<'_>,
    verdict: &Verdict<'_>,
    pair: (u32, u32),
    out: &mut Vec<u8>,
) -> Result<(), OutOfMemory>
    // The text has the verdict, both accesses with the locks held before them, and the reason. A race has the number
    // of its runs, and each run, or the first ones of many as one block.
    ensures ok { AppendedOne result out.old out.new (IsTold analysis.now verdict.now pair.0 pair.1) }
    ensures err { OnErr result (out.new.items ≡ out.old.items) }
{
    let mut text = Vec::new(*out.allocator());
    append_told(&mut text, analysis, verdict, pair)?;
    out.extend_from_slice(text.as_slice())?;
    Ok(())
}

/// Appends the same. If memory runs out, part of it may already be appended.
fn append_told(
    out: &mut Vec<u8>,
    analysis: &Analysis<'_>,
    verdict: &Verdict<'_>,
    pair: (u32, u32),
) -> Result<(), OutOfMemory>
    ensures { AppendedOne result out.old out.new (IsTold analysis.now verdict.now pair.0 pair.1) }
{
    match *verdict {
        Verdict::Race { how, events, all } => {
            append_race(out, analysis, events, (how, all), pair)
        }
        Verdict::Forced { chains } => append_forced(out, analysis, chains, pair),
        Verdict::Guarded { lock } => append_guarded(out, analysis, lock, pair),
        Verdict::Contradicted { steps } => append_contradicted(out, analysis, steps, pair),
        Verdict::Undecided { events } => append_undecided(out, analysis, events, pair),
    }
}

/// Appends the first words of the verdict, with which `explain_text` begins. If memory runs out, a part may already be
/// appended.
pub fn append_head(
    out: &mut Vec<u8>,
    indexed: &Indexed,
    verdict: &Verdict<'_>,
    first: u32,
    second: u32,
) -> Result<(), OutOfMemory>
    ensures { Appended result out.old out.new (verdict_head indexed.now verdict.now first second) }
{
    match *verdict {
        Verdict::Race {
            how,
            events,
            all: _,
        } => append_race_head(out, how, events.len() as u64),
        Verdict::Forced { chains: _ } => append_forced_head(out, first, second),
        Verdict::Guarded { lock } => append_guarded_head(out, indexed, lock),
        Verdict::Contradicted { steps: _ } => append_contradicted_head(out),
        Verdict::Undecided { events: _ } => append_undecided_head(out),
    }
}

/// Appends that the pair is a race, and the number of events in its schedule.
fn append_race_head(out: &mut Vec<u8>, how: How, events: u64) -> Result<(), OutOfMemory>
    ensures { Appended result out.old out.new (race_head how events) }
{
    append_words(out, how_words(how))?;
    append_words(out, b": after ")?;
    append_count(out, events, b"event")?;
    append_words(out, b" in ")
}

/// Appends that the pair is a race, the two events, and the runs of its schedule: all, or only the last of many.
fn append_race(
    out: &mut Vec<u8>,
    analysis: &Analysis<'_>,
    events: &[u32],
    shown: (How, bool),
    pair: (u32, u32),
) -> Result<(), OutOfMemory>
    ensures { AppendedOne result out.old out.new
        (IsRaceTold analysis.now shown.0 events.now shown.1 pair.0 pair.1) }
{
    append_race_words(out, analysis, shown.0, events, pair)?;
    append_runs(out, analysis.indexed(), events, shown.1)?;
    Ok(())
}

/// Appends that the pair is a race, the number of runs in its schedule, and the two events.
fn append_race_words(
    out: &mut Vec<u8>,
    analysis: &Analysis<'_>,
    how: How,
    events: &[u32],
    pair: (u32, u32),
) -> Result<(), OutOfMemory>
    ensures { Appended result out.old out.new
        (race_words analysis.now how (length events.now) (run_total analysis.now events.now) pair.0 pair.1) }
{
    let runs = run_count(*out.allocator(), analysis.indexed(), events)?;
    append_counted(out, analysis, how, (events.len() as u64, runs), pair)?;
    Ok(())
}

/// The same, given the numbers of events and of runs.
fn append_counted(
    out: &mut Vec<u8>,
    analysis: &Analysis<'_>,
    how: How,
    counts: (u64, u64),
    pair: (u32, u32),
) -> Result<(), OutOfMemory>
    ensures { Appended result out.old out.new (race_words analysis.now how counts.0 counts.1 pair.0 pair.1) }
{
    append_race_head(out, how, counts.0)?;
    append_count(out, counts.1, b"run")?;
    append_words(out, b" both are next\n")?;
    append_pair(out, analysis, pair.0, pair.1)?;
    Ok(())
}

fn how_words(how: How) -> &'static [u8]
    ensures { result.now ≡ how_text how }
{
    match how {
        How::Candidate => b"race candidate",
        How::Beyond => b"race beyond",
        How::Turned => b"race turned",
    }
}
