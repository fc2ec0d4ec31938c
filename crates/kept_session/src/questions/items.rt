//! Items: the next event of each thread, and why it is not enabled.
ghost use Rattle.std.specs.Prelude.{◌≡◌, ◌<◌, ◌++◌, codes, decimal, length};
ghost use Rattle.rapid_text.specs.Appended.{Appended};
ghost use Rattle.report.specs.Causes.{event_words};
ghost use Rattle.report.specs.Pieces.{piece_bytes};
ghost use Rattle.kept_session.specs.QuestionItems.{all_items, cause_words, item, item_of, thread_item};

use event_index::Indexed;
use rapid_text::OutOfMemory;
use report::{Piece, append_pieces};
use schedule::{Disabled, Schedule};

/// The number of an event, or `none`.
fn event_piece(event: Option<u32>) -> Piece<'static>
    ensures { piece_bytes result ≡ event_words event }
{
    match event {
        Some(event) => Piece::Number(u64::from(event)),
        None => Piece::Words(b"none"),
    }
}

/// Appends why an event is not enabled.
fn append_cause(out: &mut Vec<u8>, cause: &Disabled) -> Result<(), OutOfMemory>
    ensures { Appended result out.old out.new (cause_words cause.now) }
{
    match cause {
        Disabled::NoSuchEvent => append_pieces(out, &[Piece::Words(b":21")]),
        Disabled::NotNext => append_pieces(out, &[Piece::Words(b":22")]),
        Disabled::NotForked => append_pieces(out, &[Piece::Words(b":23")]),
        Disabled::WrongWriter { needs, has } => append_pieces(
            out,
            &[
                Piece::Words(b":24:"),
                event_piece(*needs),
                Piece::Words(b":"),
                event_piece(*has),
            ],
        ),
        Disabled::LockHeld { thread } => append_pieces(
            out,
            &[Piece::Words(b":25:"), Piece::Number(u64::from(*thread))],
        ),
        Disabled::JoinEarly => append_pieces(out, &[Piece::Words(b":26")]),
    }
}

/// Appends a blank and the number of an event.
fn append_event(out: &mut Vec<u8>, event: u32) -> Result<(), OutOfMemory>
    ensures { Appended result out.old out.new (codes " " ++ decimal event) }
{
    append_pieces(out, &[Piece::Words(b" "), Piece::Number(u64::from(event))])
}

/// Appends the item of an event after a schedule.
pub(crate) fn append_item(
    out: &mut Vec<u8>,
    indexed: &Indexed,
    schedule: &Schedule,
    event: u32,
) -> Result<(), OutOfMemory>
    requires { schedule.now.trace ≡ indexed.now }
    ensures { Appended result out.old out.new (item indexed.now.events schedule.now.events event) }
{
    append_event(out, event)?;
    match schedule.enabled(indexed, event) {
        Ok(()) => Ok(()),
        Err(cause) => append_cause(out, &cause),
    }
}

/// Appends the item of a thread's next event, if the thread has an event that is not in the schedule.
fn append_thread(
    out: &mut Vec<u8>,
    indexed: &Indexed,
    schedule: &Schedule,
    thread: u32,
) -> Result<(), OutOfMemory>
    requires trace { schedule.now.trace ≡ indexed.now }
    requires thread { thread < length indexed.now.threads }
    ensures { Appended result out.old out.new (thread_item indexed.now.events schedule.now.events thread) }
{
    match schedule.next_of(indexed, thread) {
        Some(event) => append_item(out, indexed, schedule, event),
        None => Ok(()),
    }
}

/// Appends the items of all threads, in the order of their numbers.
pub(crate) fn append_threads(
    out: &mut Vec<u8>,
    indexed: &Indexed,
    schedule: &Schedule,
) -> Result<(), OutOfMemory>
    requires { schedule.now.trace ≡ indexed.now }
    ensures { Appended result out.old out.new (all_items indexed.now schedule.now.events) }
{
    for thread in 0..indexed.threads() {
        append_thread(out, indexed, schedule, thread)?;
    }
    Ok(())
}
