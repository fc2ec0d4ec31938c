//! Why a pair is a race, undecided, or apart, in words.
ghost use Rattle.std.specs.Prelude.{◌≡◌, OnErr};
ghost use Rattle.rapid_text.specs.Appended.{Appended};
ghost use Rattle.triage_report.specs.lines.Reasons.{apart_words, plural_end, race_words, undecided_words};

use rapid_text::OutOfMemory;
use report::{Piece, append_pieces};

/// The plural end of the word after this number: empty after 1, else `s`.
pub fn plural_end(count: u64) -> &'static [u8]
    ensures { result.now ≡ plural_end count }
{
    if count == 1 { b"" } else { b"s" }
}

/// Appends that a schedule of `events` events of `threads` threads shows the race. If memory runs out, `out` stays as
/// it was.
pub fn append_race(out: &mut Vec<u8>, events: u64, threads: u64) -> Result<(), OutOfMemory>
    ensures ok { Appended result out.old out.new (race_words events threads) }
    ensures err { OnErr result (out.new.items ≡ out.old.items) }
{
    append_pieces(
        out,
        &[
            Piece::Words(b"a schedule of "),
            Piece::Number(events),
            Piece::Words(b" event"),
            Piece::Words(plural_end(events)),
            Piece::Words(b" of "),
            Piece::Number(threads),
            Piece::Words(b" thread"),
            Piece::Words(plural_end(threads)),
            Piece::Words(b" shows it"),
        ],
    )
}

/// Appends that no schedule was found for `tried` pairs of events. If memory runs out, `out` stays as it was.
pub fn append_undecided(out: &mut Vec<u8>, tried: u64) -> Result<(), OutOfMemory>
    ensures ok { Appended result out.old out.new (undecided_words tried) }
    ensures err { OnErr result (out.new.items ≡ out.old.items) }
{
    append_pieces(
        out,
        &[
            Piece::Words(b"no schedule was found for "),
            Piece::Number(tried),
            Piece::Words(b" pair"),
            Piece::Words(plural_end(tried)),
            Piece::Words(b" of events"),
        ],
    )
}

/// Appends that every correct reordering keeps the pair apart. If memory runs out, `out` stays as it was.
pub fn append_apart(out: &mut Vec<u8>) -> Result<(), OutOfMemory>
    ensures ok { Appended result out.old out.new apart_words }
    ensures err { OnErr result (out.new.items ≡ out.old.items) }
{
    append_pieces(
        out,
        &[Piece::Words(b"every correct reordering of this trace keeps the two apart")],
    )
}
