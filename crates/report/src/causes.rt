//! Prints why an event is not enabled, and why two neighbours cannot be exchanged.
ghost use Rattle.std.specs.Prelude.{◌≡◌, ◌++◌, OnErr, codes};
ghost use Rattle.rapid_text.specs.Appended.{Appended};
ghost use Rattle.report.specs.Causes.{event_words, thread_words, disabled_words, swap_words, refused_line};
ghost use Rattle.report.specs.Pieces.{piece_bytes, pieces_text};

use crate::pieces::{Piece, append_bytes, append_pieces};
use event_index::Indexed;
use rapid_text::OutOfMemory;
use schedule::{Disabled, SwapRefusal};

/// The number of an event, or `none`.
fn event_piece(event: Option<u32>) -> Piece<'static>
    ensures { piece_bytes result ≡ event_words event }
{
    match event {
        Some(event) => Piece::Number(u64::from(event)),
        None => Piece::Words(b"none"),
    }
}

/// The name of a thread; its number if the trace has no such thread.
fn thread_piece(indexed: &Indexed, thread: u32) -> Piece<'_>
    ensures { piece_bytes result ≡ thread_words indexed.now thread }
{
    if thread < indexed.threads() {
        return Piece::Words(indexed.thread_name(thread));
    }
    Piece::Number(u64::from(thread))
}

/// Appends the line of a refusal. The pieces are its number and its words. If memory runs out, `out` stays as it was.
pub(crate) fn append_refused(out: &mut Vec<u8>, why: &[Piece<'_>]) -> Result<(), OutOfMemory>
    ensures ok { Appended result out.old out.new (refused_line (pieces_text why.now)) }
    ensures err { OnErr result (out.new.items ≡ out.old.items) }
{
    let start = out.len();
    out.extend_from_slice(b"refused ")?;
    if let Err(refused) = append_ended(out, why) {
        out.truncate(start);
        return Err(refused);
    }
    Ok(())
}

/// Appends the pieces and a line feed.
fn append_ended(out: &mut Vec<u8>, pieces: &[Piece<'_>]) -> Result<(), OutOfMemory>
    ensures ok { Appended result out.old out.new (pieces_text pieces.now ++ codes "\n") }
    ensures err { OnErr result (out.new.items ≡ out.old.items) }
{
    let start = out.len();
    append_pieces(out, pieces)?;
    if let Err(refused) = out.push(b'\n') {
        out.truncate(start);
        return Err(OutOfMemory::from(refused));
    }
    Ok(())
}

/// Appends the line of a refusal with this number and these words. If memory runs out, `out` stays as it was.
pub(crate) fn append_words(out: &mut Vec<u8>, why: &[u8]) -> Result<(), OutOfMemory>
    ensures ok { Appended result out.old out.new (refused_line why.now) }
    ensures err { OnErr result (out.new.items ≡ out.old.items) }
{
    append_refused(out, &[Piece::Words(why)])?;
    Ok(())
}

/// Appends the number and the text of the refusal of an event that is not enabled. If memory runs out, `out` stays as
/// it was.
pub(crate) fn append_disabled(
    out: &mut Vec<u8>,
    indexed: &Indexed,
    why: Disabled,
) -> Result<(), OutOfMemory>
    ensures ok { Appended result out.old out.new (codes "46 " ++ disabled_words indexed.now why) }
    ensures err { OnErr result (out.new.items ≡ out.old.items) }
{
    match why {
        Disabled::NoSuchEvent => append_bytes(out, b"46 21 no such event"),
        Disabled::NotNext => append_bytes(out, b"46 22 not next"),
        Disabled::NotForked => append_bytes(out, b"46 23 not forked"),
        Disabled::WrongWriter { needs, has } => {
            append_pieces(
                out,
                &[
                    Piece::Words(b"46 24 wrong writer needs "),
                    event_piece(needs),
                    Piece::Words(b" has "),
                    event_piece(has),
                ],
            )
        }
        Disabled::LockHeld { thread } => {
            append_pieces(
                out,
                &[
                    Piece::Words(b"46 25 lock held by "),
                    thread_piece(indexed, thread),
                ],
            )
        }
        Disabled::JoinEarly => append_bytes(out, b"46 26 join early"),
    }
}

/// Appends the number and the text of the refusal of two neighbours that cannot be exchanged. If memory runs out, `out`
/// stays as it was.
pub(crate) fn append_swap(out: &mut Vec<u8>, why: SwapRefusal) -> Result<(), OutOfMemory>
    ensures ok { Appended result out.old out.new (codes "47 " ++ swap_words why) }
    ensures err { OnErr result (out.new.items ≡ out.old.items) }
{
    match why {
        SwapRefusal::NoSuchPair => append_bytes(out, b"47 28 no such pair"),
        SwapRefusal::Dependent => append_bytes(out, b"47 29 dependent"),
    }
}
