//! Prints the reason why a call through a seat is refused.
ghost use Rattle.std.specs.Prelude.{◌≡◌, OnErr};
ghost use Rattle.rapid_text.specs.Appended.{Appended};
ghost use Rattle.report.specs.Seats.{seat_refusal_text};

use crate::causes::append_words;
use crate::refusals::refusal;
use event_index::Indexed;
use inverse_log::SeatRefusal;
use rapid_text::OutOfMemory;

/// Appends the line of a refused call through a seat. `indexed` is the trace of the call. If memory runs out, `out`
/// stays as it was.
pub fn seat_refusal(
    indexed: &Indexed,
    why: &SeatRefusal,
    out: &mut Vec<u8>,
) -> Result<(), OutOfMemory>
    ensures ok { Appended result out.old out.new (seat_refusal_text indexed.now why.now) }
    ensures err { OnErr result (out.new.items ≡ out.old.items) }
{
    match why {
        SeatRefusal::Bench(why) => refusal(indexed, why, out),
        SeatRefusal::SeatSpent => append_words(out, b"73 seat spent"),
    }
}
