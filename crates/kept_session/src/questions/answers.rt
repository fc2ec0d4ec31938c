//! Answers questions.
ghost use Rattle.std.specs.Prelude.{◌≡◌, ℕ, List, drop, take, None, Some, IfNone, IfSome};
ghost use Rattle.inverse_log.specs.Log.{rows_of};
ghost use Rattle.inverse_log.specs.declared.refusal.Refusal.TheVariants.{Move};
ghost use Rattle.moves.specs.Rows.{row_of};
ghost use Rattle.moves.specs.declared.refusal.MoveRefusal.TheVariants.{NoSuchSchedule};
ghost use Rattle.rapid_text.specs.Appended.{Appended, AppendedOne};
ghost use Rattle.report.specs.Refusals.{refusal_text};
ghost use Rattle.kept_session.specs.QuestionAnswers.{IsAnswer, next_answer, next_line, part_answer, part_line, rows_answer, run_answer, schedule_in};

use crate::questions::entries::append_entry;
use crate::questions::items::append_threads;
use crate::questions::listing::append_rows;
use crate::questions::running::append_run_to;
use crate::questions::witnesses::append_witness;
use event_index::Indexed;
use inverse_log::{Bench, Refusal};
use moves::{MoveRefusal, Name};
use rapid_text::OutOfMemory;
use report::{Piece, append_pieces};
use schedule::Schedule;
use script_language::Question;

/// Appends the refusal that no schedule has this name.
fn append_no_schedule(out: &mut Vec<u8>, indexed: &Indexed) -> Result<(), OutOfMemory>
    ensures { Appended result out.old out.new (refusal_text indexed.now (Move NoSuchSchedule)) }
{
    report::refusal(indexed, &Refusal::Move(MoveRefusal::NoSuchSchedule), out)
}

/// Appends what each thread does next after a schedule.
fn append_next(
    out: &mut Vec<u8>,
    indexed: &Indexed,
    entries: u64,
    schedule: &Schedule,
) -> Result<(), OutOfMemory>
    requires { schedule.now.trace ≡ indexed.now }
    ensures { Appended result out.old out.new (next_line indexed.now entries schedule.now.events) }
{
    append_pieces(
        out,
        &[
            Piece::Words(b"next "),
            Piece::Number(entries),
            Piece::Words(b" "),
            Piece::Number(schedule.events().len() as u64),
        ],
    )?;
    append_threads(out, indexed, schedule)?;
    append_pieces(out, &[Piece::Words(b"\n")])
}

/// Appends at most `count` events of a schedule, from position `from` on.
fn append_part(
    out: &mut Vec<u8>,
    entries: u64,
    from: u32,
    count: u32,
    schedule: &Schedule,
) -> Result<(), OutOfMemory>
    ensures { Appended result out.old out.new (part_line entries from count schedule.now.events) }
{
    let events = schedule.events();
    append_pieces(
        out,
        &[
            Piece::Words(b"part "),
            Piece::Number(entries),
            Piece::Words(b" "),
            Piece::Number(events.len() as u64),
            Piece::Words(b" "),
            Piece::Number(u64::from(from)),
            Piece::Numbers(part_of(events, from, count)),
            Piece::Words(b"\n"),
        ],
    )
}

/// At most `count` of the events, from position `from` on.
fn part_of(events: &[u32], from: u32, count: u32) -> &[u32]
    ensures { result.now ≡ take count (drop from events.now) }
{
    let start = (from as usize).min(events.len());
    let rest = &events[start..];
    &rest[..(count as usize).min(rest.len())]
}

/// The schedule with this name.
fn schedule_of<'a>(bench: &'a Bench, name: &Name) -> Option<&'a Schedule>
    ensures none { IfNone result (row_of (rows_of bench.now.trace bench.now.log) name.now ≡ None) }
    ensures some { IfSome result (λ s. schedule_in bench.now name.now ≡ Some s.now) }
    ensures trace { IfSome result (λ s. s.now.trace ≡ bench.now.trace) }
{
    bench.workspace().get(name)
}

/// Answers what each thread does next.
fn answer_next(out: &mut Vec<u8>, bench: &Bench, name: &Name) -> Result<(), OutOfMemory>
    ensures { Appended result out.old out.new (next_answer bench.now name.now) }
{
    match schedule_of(bench, name) {
        Some(schedule) => append_next(out, bench.indexed(), bench.log_len(), schedule),
        None => append_no_schedule(out, bench.indexed()),
    }
}

/// Answers how far the thread of an event can go on.
fn answer_run(out: &mut Vec<u8>, bench: &Bench, name: &Name, event: u32) -> Result<(), OutOfMemory>
    ensures { Appended result out.old out.new (run_answer bench.now name.now event) }
{
    match schedule_of(bench, name) {
        Some(schedule) => append_run_to(out, bench.indexed(), bench.log_len(), schedule, event),
        None => append_no_schedule(out, bench.indexed()),
    }
}

/// Answers with a part of a schedule.
fn answer_part(
    out: &mut Vec<u8>,
    bench: &Bench,
    name: &Name,
    from: u32,
    count: u32,
) -> Result<(), OutOfMemory>
    ensures { Appended result out.old out.new (part_answer bench.now name.now from count) }
{
    match schedule_of(bench, name) {
        Some(schedule) => append_part(out, bench.log_len(), from, count, schedule),
        None => append_no_schedule(out, bench.indexed()),
    }
}

/// Answers with a list of all schedules.
fn answer_rows(out: &mut Vec<u8>, bench: &Bench) -> Result<(), OutOfMemory>
    ensures { Appended result out.old out.new (rows_answer bench.now) }
{
    append_rows(out, bench, bench.workspace())
}

/// Appends the answer to a question: one line, for the log of the bench. If memory runs out, `out` has a beginning of
/// the line.
pub fn answer_question(
    bench: &Bench,
    question: &Question,
    out: &mut Vec<u8>,
) -> Result<(), OutOfMemory>
    ensures answered { AppendedOne result out.old out.new (IsAnswer bench.now.trace bench.now.log question.now) }
{
    match question {
        Question::Next { name } => answer_next(out, bench, name),
        Question::Run { name, event } => answer_run(out, bench, name, *event),
        Question::Part { name, from, count } => answer_part(out, bench, name, *from, *count),
        Question::Rows => answer_rows(out, bench),
        Question::Entry { entry } => append_entry(out, bench, u64::from(*entry)),
        Question::Witness { first, second } => {
            append_witness(out, bench.indexed(), *first, *second)
        }
    }
}
