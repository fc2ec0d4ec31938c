//! Prints replies to calls.
ghost use Rattle.std.specs.Prelude.{◌≡◌, ◌++◌, OnErr, codes, decimal};
ghost use Rattle.rapid_text.specs.Appended.{Appended};
ghost use Rattle.report.specs.Pieces.{piece_bytes};
ghost use Rattle.report.specs.Replies.{reply_text};

use crate::pieces::{Piece, append_numbers_line, append_pieces, put_few};
use inverse_log::Reply;
use itoa::Buffer;
use rapid_text::OutOfMemory;

/// Appends the line of a call that is done.
fn append_done(out: &mut Vec<u8>, number: u64) -> Result<(), OutOfMemory>
    ensures ok { Appended result out.old out.new (decimal number ++ codes ": done\n") }
    ensures err { OnErr result (out.new.items ≡ out.old.items) }
{
    let mut buffer = Buffer::new();
    let digits = buffer.format(number).as_bytes();
    out.reserve(digits.len() + 7)?;
    put_few(out, digits);
    out.extend_from_slice(b": done\n")?;
    Ok(())
}

/// Appends a line with a number, words and a second number. The compiler inlines this function, so it knows how long
/// `words` is, and no call copies it.
#[inline(always)]
fn append_numbered(
    out: &mut Vec<u8>,
    number: u64,
    words: &[u8],
    other: u64,
) -> Result<(), OutOfMemory>
    ensures ok { Appended result out.old out.new (decimal number ++ words.now ++ decimal other ++ codes "\n") }
    ensures err { OnErr result (out.new.items ≡ out.old.items) }
{
    let mut first = Buffer::new();
    let number = first.format(number).as_bytes();
    let mut second = Buffer::new();
    let other = second.format(other).as_bytes();
    out.reserve(number.len() + words.len() + other.len() + 1)?;
    put_few(out, number);
    out.extend_from_slice(words)?;
    put_few(out, other);
    out.push_reserved(b'\n');
    Ok(())
}

/// Appends a line with a word and a list.
fn append_list<'a>(out: &mut Vec<u8>, word: &'a [u8], list: Piece<'a>) -> Result<(), OutOfMemory>
    ensures ok { Appended result out.old out.new (word.now ++ piece_bytes list.entry ++ codes "\n") }
    ensures err { OnErr result (out.new.items ≡ out.old.items) }
{
    append_pieces(out, &[Piece::Words(word), list, Piece::Words(b"\n")])?;
    Ok(())
}

/// Appends the line of a reply that shows these events. If memory runs out, `out` stays as it was.
pub fn shown(events: &[u32], out: &mut Vec<u8>) -> Result<(), OutOfMemory>
    ensures ok { Appended result out.old out.new (reply_text (Reply.Shown events.now)) }
    ensures err { OnErr result (out.new.items ≡ out.old.items) }
{
    append_numbers_line(out, b"shown", events)
}

/// Appends the line of a reply. If memory runs out, `out` stays as it was.
pub fn reply(reply: &Reply, out: &mut Vec<u8>) -> Result<(), OutOfMemory>
    ensures ok { Appended result out.old out.new (reply_text reply.now) }
    ensures err { OnErr result (out.new.items ≡ out.old.items) }
{
    match reply {
        Reply::Done(number) => append_done(out, *number),
        Reply::Undone { number, entry } => append_numbered(out, *number, b": undone ", *entry),
        Reply::Proposed { number, proposal } => {
            append_numbered(out, *number, b": proposed ", *proposal)
        }
        Reply::Shown(events) => shown(events.items(), out),
        Reply::Listing(names) => append_list(out, b"names", Piece::Names(names.items())),
        Reply::Shows(pairs) => append_list(out, b"pairs", Piece::Pairs(pairs.items())),
    }
}
