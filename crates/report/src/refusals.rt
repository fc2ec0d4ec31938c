//! Prints the reason why a call is refused.
ghost use Rattle.std.specs.Prelude.{◌≡◌, ◌++◌, OnErr, codes, decimal};
ghost use Rattle.rapid_text.specs.Appended.{Appended};
ghost use Rattle.report.specs.Causes.{disabled_words, swap_words, refused_line};
ghost use Rattle.report.specs.Refusals.{move_words, refusal_text, rests_words};

use crate::causes::{append_disabled, append_refused, append_swap, append_words};
use crate::pieces::{Piece, append_bytes, append_pieces};
use event_index::Indexed;
use inverse_log::Refusal;
use moves::{MoveRefusal, Name};
use rapid_text::OutOfMemory;
use schedule::{Disabled, SwapRefusal};

/// Appends the reason why a command is refused.
fn append_move_words(
    out: &mut Vec<u8>,
    indexed: &Indexed,
    why: MoveRefusal,
) -> Result<(), OutOfMemory>
    ensures ok { Appended result out.old out.new (move_words indexed.now why) }
    ensures err { OnErr result (out.new.items ≡ out.old.items) }
{
    match why {
        MoveRefusal::NoSuchSchedule => append_bytes(out, b"42 no such schedule"),
        MoveRefusal::NameTaken => append_bytes(out, b"43 name taken"),
        MoveRefusal::NoSuchProposal => append_bytes(out, b"44 no such proposal"),
        MoveRefusal::NothingToRetract => append_bytes(out, b"45 nothing to retract"),
        MoveRefusal::Disabled(why) => append_disabled(out, indexed, why),
        MoveRefusal::Swap(why) => append_swap(out, why),
        MoveRefusal::TooShort => append_bytes(out, b"48 too short"),
        MoveRefusal::OutOfMemory => append_bytes(out, b"49 out of memory"),
    }
}

/// Appends the reason why a command is refused, and a line feed.
fn append_move_end(
    out: &mut Vec<u8>,
    indexed: &Indexed,
    why: MoveRefusal,
) -> Result<(), OutOfMemory>
    ensures ok { Appended result out.old out.new (move_words indexed.now why ++ codes "\n") }
    ensures err { OnErr result (out.new.items ≡ out.old.items) }
{
    let start = out.len();
    append_move_words(out, indexed, why)?;
    if let Err(refused) = append_bytes(out, b"\n") {
        out.truncate(start);
        return Err(refused);
    }
    Ok(())
}

/// Appends the line of a refused command piece by piece.
fn append_in_pieces(
    out: &mut Vec<u8>,
    indexed: &Indexed,
    why: MoveRefusal,
) -> Result<(), OutOfMemory>
    ensures ok { Appended result out.old out.new (refused_line (move_words indexed.now why)) }
    ensures err { OnErr result (out.new.items ≡ out.old.items) }
{
    let start = out.len();
    append_bytes(out, b"refused ")?;
    if let Err(refused) = append_move_end(out, indexed, why) {
        out.truncate(start);
        return Err(refused);
    }
    Ok(())
}

/// Appends the line of a command whose event is not enabled. It is one piece if it names nothing of the trace.
fn append_disabled_line(
    out: &mut Vec<u8>,
    indexed: &Indexed,
    why: Disabled,
) -> Result<(), OutOfMemory>
    ensures ok { Appended result out.old out.new (refused_line (codes "46 " ++ disabled_words indexed.now why)) }
    ensures err { OnErr result (out.new.items ≡ out.old.items) }
{
    match why {
        Disabled::NoSuchEvent => append_bytes(out, b"refused 46 21 no such event\n"),
        Disabled::NotNext => append_bytes(out, b"refused 46 22 not next\n"),
        Disabled::NotForked => append_bytes(out, b"refused 46 23 not forked\n"),
        Disabled::JoinEarly => append_bytes(out, b"refused 46 26 join early\n"),
        _ => append_in_pieces(out, indexed, MoveRefusal::Disabled(why)),
    }
}

/// Appends the line of a command whose two neighbours cannot be exchanged.
fn append_swap_line(out: &mut Vec<u8>, why: SwapRefusal) -> Result<(), OutOfMemory>
    ensures ok { Appended result out.old out.new (refused_line (codes "47 " ++ swap_words why)) }
    ensures err { OnErr result (out.new.items ≡ out.old.items) }
{
    match why {
        SwapRefusal::NoSuchPair => append_bytes(out, b"refused 47 28 no such pair\n"),
        SwapRefusal::Dependent => append_bytes(out, b"refused 47 29 dependent\n"),
    }
}

/// Appends the line of a refused command. It is one piece if it names nothing of the trace.
fn append_move(out: &mut Vec<u8>, indexed: &Indexed, why: MoveRefusal) -> Result<(), OutOfMemory>
    ensures ok { Appended result out.old out.new (refused_line (move_words indexed.now why)) }
    ensures err { OnErr result (out.new.items ≡ out.old.items) }
{
    match why {
        MoveRefusal::NoSuchSchedule => append_bytes(out, b"refused 42 no such schedule\n"),
        MoveRefusal::NameTaken => append_bytes(out, b"refused 43 name taken\n"),
        MoveRefusal::NoSuchProposal => append_bytes(out, b"refused 44 no such proposal\n"),
        MoveRefusal::NothingToRetract => append_bytes(out, b"refused 45 nothing to retract\n"),
        MoveRefusal::Disabled(why) => append_disabled_line(out, indexed, why),
        MoveRefusal::Swap(why) => append_swap_line(out, why),
        MoveRefusal::TooShort => append_bytes(out, b"refused 48 too short\n"),
        MoveRefusal::OutOfMemory => append_bytes(out, b"refused 49 out of memory\n"),
    }
}

/// Appends the position of the refused command in its batch.
fn append_place(out: &mut Vec<u8>, place: u32) -> Result<(), OutOfMemory>
    ensures ok { Appended result out.old out.new (codes "refused 70 at " ++ decimal place ++ codes " ") }
    ensures err { OnErr result (out.new.items ≡ out.old.items) }
{
    append_pieces(
        out,
        &[
            Piece::Words(b"refused 70 at "),
            Piece::Number(u64::from(place)),
            Piece::Words(b" "),
        ],
    )?;
    Ok(())
}

/// Appends the line of a refused batch.
fn append_in_batch(
    out: &mut Vec<u8>,
    indexed: &Indexed,
    place: u32,
    why: MoveRefusal,
) -> Result<(), OutOfMemory>
    ensures ok { Appended result out.old out.new (refusal_text indexed.now (Refusal.InBatch place why)) }
    ensures err { OnErr result (out.new.items ≡ out.old.items) }
{
    let start = out.len();
    append_place(out, place)?;
    if let Err(refused) = append_move_end(out, indexed, why) {
        out.truncate(start);
        return Err(refused);
    }
    Ok(())
}

/// Appends the line of an undo that is refused because a later entry touches a name that its entry wrote.
fn append_rests_on(out: &mut Vec<u8>, entry: u64, name: &Name) -> Result<(), OutOfMemory>
    ensures ok { Appended result out.old out.new (refused_line (rests_words entry name.now)) }
    ensures err { OnErr result (out.new.items ≡ out.old.items) }
{
    append_refused(
        out,
        &[
            Piece::Words(b"52 rests on "),
            Piece::Number(entry),
            Piece::Words(b" "),
            Piece::Words(name.bytes()),
        ],
    )?;
    Ok(())
}

/// Appends the line of a proposal that is not a correct reordering.
fn append_not_reordering(out: &mut Vec<u8>, position: u32) -> Result<(), OutOfMemory>
    ensures ok { Appended result out.old out.new (refused_line (codes "53 not a reordering at " ++ decimal position)) }
    ensures err { OnErr result (out.new.items ≡ out.old.items) }
{
    append_refused(
        out,
        &[
            Piece::Words(b"53 not a reordering at "),
            Piece::Number(u64::from(position)),
        ],
    )?;
    Ok(())
}

/// Appends the line of a refused call. `indexed` is the trace of the call. If memory runs out, `out` stays as it was.
pub fn refusal(indexed: &Indexed, refusal: &Refusal, out: &mut Vec<u8>) -> Result<(), OutOfMemory>
    ensures ok { Appended result out.old out.new (refusal_text indexed.now refusal.now) }
    ensures err { OnErr result (out.new.items ≡ out.old.items) }
{
    match *refusal {
        Refusal::Move(why) => append_move(out, indexed, why),
        Refusal::NothingToUndo => append_words(out, b"51 nothing to undo"),
        Refusal::RestsOn { entry, name } => append_rests_on(out, entry, &name),
        Refusal::NotReordering { position } => append_not_reordering(out, position),
        Refusal::NotShown => append_words(out, b"54 not shown"),
        Refusal::LogFull => append_words(out, b"55 log full"),
        Refusal::OutOfMemory => append_words(out, b"56 out of memory"),
        Refusal::NoSuchEntry => append_words(out, b"57 no such entry"),
        Refusal::NotOwn => append_words(out, b"58 not own"),
        Refusal::NotLive => append_words(out, b"59 not live"),
        Refusal::BadBatch => append_words(out, b"60 bad batch"),
        Refusal::InBatch { place, cause } => append_in_batch(out, indexed, place, cause),
    }
}
