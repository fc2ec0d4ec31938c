//! Makes the calls of a script through a seat of a shared bench.
ghost use Rattle.std.specs.Prelude.{◌≡◌, OnOk, OnErr};
ghost use Rattle.client_scripts.specs.Seats.{RunsScript, StopsInScript, seat_text};
ghost use Rattle.rapid_text.specs.Appended.{Appended};

use event_index::Indexed;
use inverse_log::Reply;
use rapid_text::OutOfMemory;
use script_language::Script;
use std::sync::Wait;
use workspace_lock::{Seat, SeatRefusal};

/// Appends the line of an answer that came through a seat.
fn append_answer(
    indexed: &Indexed,
    answer: &Result<Reply, SeatRefusal>,
    out: &mut Vec<u8>,
) -> Result<(), OutOfMemory>
    ensures ok { Appended result out.old out.new (seat_text indexed.now answer.now) }
    ensures err { OnErr result (out.new.items ≡ out.old.items) }
{
    match answer {
        Ok(reply) => report::reply(reply, out),
        Err(why) => report::seat_refusal(indexed, why, out),
    }
}

/// Makes the calls of a script through the seat, whichever client the script names, and appends the line of each
/// answer. Each call waits for its turn. If memory runs out for a line, stops after that call: `out` has the lines of
/// all earlier calls, but not this one. If memory runs out in a call, its line is refusal 56, and the script goes on.
pub fn run_seat<R: Wait>(
    seat: &mut Seat,
    rt: &R,
    indexed: &Indexed,
    script: &Script,
    out: &mut Vec<u8>,
) -> Result<(), OutOfMemory>
    ensures ok { OnOk result (RunsScript indexed.now script.now seat.old out.old.items seat.new out.new.items) }
    ensures err { OnErr result (StopsInScript indexed.now script.now seat.old out.old.items seat.new out.new.items) }
    ensures seat { (seat.new.site ≡ seat.old.site) × (seat.new.number ≡ seat.old.number) }
{
    for at in 0..script.len() {
        let call = script.call(at);
        let answer = seat.run(rt, call.get());
        append_answer(indexed, &answer, out)?;
    }
    Ok(())
}
