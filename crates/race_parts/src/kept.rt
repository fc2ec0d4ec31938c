//! What a part keeps of its rows, so that its text is read only once.
ghost use Rattle.std.specs.Prelude.{◌≡◌, List, ℕ, IfSome, drop, take};
ghost use Rattle.race_parts.specs.Kept.{HasKnown, kept_said, piece_in};
ghost use Rattle.race_parts.specs.Said.{known_said};

use crate::scan::{Known, Told};

/// A piece of a text: its first byte and its length in bytes.
#[derive(Clone, Copy)]
pub(crate) struct Piece {
    pub(crate) from: u32,
    pub(crate) len: u32,
}

/// A row as pieces of its part's text, with the values that its sort key needs.
#[derive(Clone, Copy)]
pub(crate) struct KeptRow {
    /// The line, without its line feed.
    pub(crate) line: Piece,
    /// The location of the earlier access.
    pub(crate) one: Piece,
    /// The location of the later access.
    pub(crate) other: Piece,
    /// 0 for a race, 1 for an undecided row, 2 for an apart row.
    pub(crate) rank: u8,
    /// How many events the schedule of a race has; 0 for other rows.
    pub(crate) size: u64,
    /// The event number of the later access.
    pub(crate) later: u64,
    /// The event number of the earlier access.
    pub(crate) earlier: u64,
}

/// The bytes of a text from this index on; empty if the text is not that long.
#[inline(always)]
fn bytes_from(text: &[u8], from: usize) -> &[u8]
    ensures { result.now ≡ drop from text.now }
{
    if from < text.len() {
        &text[from..]
    } else {
        &[]
    }
}

/// The first `len` bytes of a text; all of it if the text is shorter.
#[inline(always)]
fn first_bytes(text: &[u8], len: usize) -> &[u8]
    ensures { result.now ≡ take len text.now }
{
    if len < text.len() { &text[..len] } else { text }
}

/// The bytes of a piece of the text.
#[inline(always)]
pub(crate) fn piece_at(text: &[u8], piece: Piece) -> &[u8]
    ensures { result.now ≡ piece_in text.now piece }
{
    first_bytes(bytes_from(text, piece.from as usize), piece.len as usize)
}

/// The piece of the text at `from`, if it is these bytes. Returns None if the bytes differ, or if an offset does not
/// fit in 32 bits.
#[inline(always)]
fn piece_of(text: &[u8], from: usize, bytes: &[u8]) -> Option<Piece>
    ensures { IfSome result (λ piece. piece_in text.now piece ≡ bytes.now) }
{
    let from = u32::try_from(from).ok()?;
    let len = u32::try_from(bytes.len()).ok()?;
    let piece = Piece { from, len };
    if piece_at(text, piece) == bytes {
        Some(piece)
    } else {
        None
    }
}

/// What to keep of a line that begins at byte `from` of the text. Returns None if one of its pieces has no `Piece`.
pub(crate) fn kept_of(text: &[u8], from: usize, line: &[u8], told: Told<'_>) -> Option<KeptRow>
    ensures { IfSome result (HasKnown text.now line.now told.entry.known) }
{
    let end = from.saturating_add(line.len());
    let Known {
        one,
        other,
        rank,
        size,
        later,
        earlier,
    } = told.known;
    let whole = piece_of(text, from, line)?;
    let first = piece_of(text, end.saturating_sub(told.one_left), one)?;
    let second = piece_of(text, end.saturating_sub(told.other_left), other)?;
    Some(KeptRow {
        line: whole,
        one: first,
        other: second,
        rank,
        size,
        later,
        earlier,
    })
}

/// The facts about a row that a part keeps.
#[inline(always)]
pub(crate) fn known_kept(text: &[u8], row: KeptRow) -> Known<'_>
    ensures { (name : List ℕ) → known_said name (piece_in text.now row.line) result ≡ kept_said name text.now row }
{
    let one = piece_at(text, row.one);
    let other = piece_at(text, row.other);
    Known {
        one,
        other,
        rank: row.rank,
        size: row.size,
        later: row.later,
        earlier: row.earlier,
    }
}
