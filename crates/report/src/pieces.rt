//! Appends the pieces of a line. Only this module turns numbers, names and lists into bytes.
ghost use Rattle.std.specs.Prelude.{◌≡◌, ◌+◌, ◌*◌, ◌≤◌, ◌++◌, ◌∷◌, IfOk, OnErr, codes, decimal, length, vec_len, vec_capacity};
ghost use Rattle.rapid_text.specs.Appended.{Appended};
ghost use Rattle.report.specs.Info.{count_line};
ghost use Rattle.report.specs.Pieces.{piece_bytes, pieces_text, spaced, spaced_names, spaced_pair, spaced_pairs};

use itoa::Buffer;
use moves::Name;
use rapid_text::OutOfMemory;

/// The most bytes of a blank and a number of 32 bits.
const SPACED_NUMBER: usize = 11;

/// A piece of a line.
#[derive(Clone, Copy)]
pub enum Piece<'a> {
    /// Bytes that are printed as they are: words, or a name.
    Words(&'a [u8]),
    /// A number in decimal digits without leading zeros.
    Number(u64),
    /// The numbers, with a blank before each.
    Numbers(&'a [u32]),
    /// The names, with a blank before each.
    Names(&'a [Name]),
    /// The pairs, with a blank before each and a hyphen between its two numbers.
    Pairs(&'a [(u32, u32)]),
}

/// Appends bytes as they are. If memory runs out, `out` stays as it was.
pub(crate) fn append_bytes(out: &mut Vec<u8>, bytes: &[u8]) -> Result<(), OutOfMemory>
    ensures ok { Appended result out.old out.new bytes.now }
    ensures err { OnErr result (out.new.items ≡ out.old.items) }
{
    out.extend_from_slice(bytes)?;
    Ok(())
}

/// Appends a few bytes. `out` must have room for them. For a few bytes a loop is faster than a call that copies them.
#[inline]
pub(crate) fn put_few(out: &mut Vec<u8>, bytes: &[u8])
    requires { vec_len out.old + length bytes.now ≤ vec_capacity out.old }
    ensures items { out.new.items ≡ out.old.items ++ bytes.now }
    ensures len { vec_len out.new ≡ vec_len out.old + length bytes.now }
    ensures capacity { vec_capacity out.new ≡ vec_capacity out.old }
{
    for byte in bytes {
        out.push_reserved(*byte);
    }
}

/// Appends a number. If memory runs out, `out` stays as it was.
fn append_number(out: &mut Vec<u8>, number: u64) -> Result<(), OutOfMemory>
    ensures ok { Appended result out.old out.new (decimal number) }
    ensures err { OnErr result (out.new.items ≡ out.old.items) }
{
    let mut buffer = Buffer::new();
    let digits = buffer.format(number).as_bytes();
    out.reserve(digits.len())?;
    put_few(out, digits);
    Ok(())
}

/// Appends a blank and the number.
fn append_spaced(out: &mut Vec<u8>, number: u64) -> Result<(), OutOfMemory>
    ensures ok { Appended result out.old out.new (32 ∷ decimal number) }
    ensures err { OnErr result (out.new.items ≡ out.old.items) }
{
    let mut buffer = Buffer::new();
    let digits = buffer.format(number).as_bytes();
    out.reserve(digits.len() + 1)?;
    out.push_reserved(b' ');
    put_few(out, digits);
    Ok(())
}

/// How many bytes of room this many numbers need, with a blank before each.
fn room_of(numbers: usize) -> Result<usize, OutOfMemory>
    ensures { IfOk result (λ room. room ≡ 11 * numbers) }
{
    numbers.checked_mul(SPACED_NUMBER).ok_or(OutOfMemory)
}

/// Appends each number after a blank. `out` must have room for them.
fn put_numbers(out: &mut Vec<u8>, numbers: &[u32])
    requires { vec_len out.old + 11 * length numbers.now ≤ vec_capacity out.old }
    ensures items { out.new.items ≡ out.old.items ++ spaced numbers.now }
    ensures len { vec_len out.new ≤ vec_len out.old + 11 * length numbers.now }
    ensures capacity { vec_capacity out.new ≡ vec_capacity out.old }
{
    let mut buffer = Buffer::new();
    for number in numbers {
        out.push_reserved(b' ');
        put_few(out, buffer.format(*number).as_bytes());
    }
}

/// Appends each number after a blank. Makes room for all numbers once.
fn append_numbers(out: &mut Vec<u8>, numbers: &[u32]) -> Result<(), OutOfMemory>
    ensures ok { Appended result out.old out.new (spaced numbers.now) }
    ensures err { OnErr result (out.new.items ≡ out.old.items) }
{
    out.reserve(room_of(numbers.len())?)?;
    put_numbers(out, numbers);
    Ok(())
}

/// Appends a line with words, and numbers with a blank before each. Makes room for the line once. The compiler inlines
/// this function, so it knows how long `words` is, and no call copies it.
#[inline(always)]
pub(crate) fn append_numbers_line(
    out: &mut Vec<u8>,
    words: &[u8],
    numbers: &[u32],
) -> Result<(), OutOfMemory>
    ensures ok { Appended result out.old out.new (words.now ++ spaced numbers.now ++ codes "\n") }
    ensures err { OnErr result (out.new.items ≡ out.old.items) }
{
    let Some(room) = room_of(numbers.len())?.checked_add(words.len() + 1) else {
        return Err(OutOfMemory);
    };
    out.reserve(room)?;
    out.extend_from_slice(words)?;
    put_numbers(out, numbers);
    out.push_reserved(b'\n');
    Ok(())
}

/// Appends a blank and the name.
fn append_name(out: &mut Vec<u8>, name: &Name) -> Result<(), OutOfMemory>
    ensures ok { Appended result out.old out.new (32 ∷ name.now) }
    ensures err { OnErr result (out.new.items ≡ out.old.items) }
{
    let start = out.len();
    out.push(b' ')?;
    if let Err(refused) = out.extend_from_slice(name.bytes()) {
        out.truncate(start);
        return Err(OutOfMemory::from(refused));
    }
    Ok(())
}

/// Appends each name after a blank.
fn append_names(out: &mut Vec<u8>, names: &[Name]) -> Result<(), OutOfMemory>
    ensures ok { Appended result out.old out.new (spaced_names names.now) }
    ensures err { OnErr result (out.new.items ≡ out.old.items) }
{
    let start = out.len();
    for name in names {
        if let Err(refused) = append_name(out, name) {
            out.truncate(start);
            return Err(refused);
        }
    }
    Ok(())
}

/// Appends a hyphen and the number.
fn append_hyphened(out: &mut Vec<u8>, number: u64) -> Result<(), OutOfMemory>
    ensures ok { Appended result out.old out.new (45 ∷ decimal number) }
    ensures err { OnErr result (out.new.items ≡ out.old.items) }
{
    let start = out.len();
    out.push(b'-')?;
    if let Err(refused) = append_number(out, number) {
        out.truncate(start);
        return Err(refused);
    }
    Ok(())
}

/// Appends a blank and the two numbers with a hyphen between them.
fn append_pair(out: &mut Vec<u8>, pair: (u32, u32)) -> Result<(), OutOfMemory>
    ensures ok { Appended result out.old out.new (spaced_pair pair) }
    ensures err { OnErr result (out.new.items ≡ out.old.items) }
{
    let (first, second) = pair;
    let start = out.len();
    append_spaced(out, u64::from(first))?;
    if let Err(refused) = append_hyphened(out, u64::from(second)) {
        out.truncate(start);
        return Err(refused);
    }
    Ok(())
}

/// Appends each pair after a blank.
fn append_pairs(out: &mut Vec<u8>, pairs: &[(u32, u32)]) -> Result<(), OutOfMemory>
    ensures ok { Appended result out.old out.new (spaced_pairs pairs.now) }
    ensures err { OnErr result (out.new.items ≡ out.old.items) }
{
    let start = out.len();
    for pair in pairs {
        if let Err(refused) = append_pair(out, *pair) {
            out.truncate(start);
            return Err(refused);
        }
    }
    Ok(())
}

/// Appends a piece.
fn append_piece(out: &mut Vec<u8>, piece: Piece<'_>) -> Result<(), OutOfMemory>
    ensures ok { Appended result out.old out.new (piece_bytes piece.entry) }
    ensures err { OnErr result (out.new.items ≡ out.old.items) }
{
    match piece {
        Piece::Words(words) => append_bytes(out, words),
        Piece::Number(number) => append_number(out, number),
        Piece::Numbers(numbers) => append_numbers(out, numbers),
        Piece::Names(names) => append_names(out, names),
        Piece::Pairs(pairs) => append_pairs(out, pairs),
    }
}

/// Appends all pieces, in order. If memory runs out, `out` stays as it was.
pub fn append_pieces(out: &mut Vec<u8>, pieces: &[Piece<'_>]) -> Result<(), OutOfMemory>
    ensures ok { Appended result out.old out.new (pieces_text pieces.now) }
    ensures err { OnErr result (out.new.items ≡ out.old.items) }
{
    let line_start = out.len();
    for piece in pieces {
        if let Err(refused) = append_piece(out, *piece) {
            out.truncate(line_start);
            return Err(refused);
        }
    }
    Ok(())
}

/// Appends a line with a word and a number. If memory runs out, `out` stays as it was.
pub(crate) fn append_count(out: &mut Vec<u8>, word: &[u8], number: u64) -> Result<(), OutOfMemory>
    ensures ok { Appended result out.old out.new (count_line word.now number) }
    ensures err { OnErr result (out.new.items ≡ out.old.items) }
{
    append_pieces(
        out,
        &[
            Piece::Words(word),
            Piece::Words(b" "),
            Piece::Number(number),
            Piece::Words(b"\n"),
        ],
    )
}
