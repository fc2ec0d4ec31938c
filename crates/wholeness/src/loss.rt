//! The last line of a recording that is not whole: `recording|end(LEFT OUT 12 FROM 340: DISK)|`.
ghost use Rattle.std.specs.Prelude.{◌≡◌, ◌≤◌, ◌++◌, ◌∷◌, drop, false, IfOk, IfSome, length, List, None, true, ℕ};
ghost use Rattle.rapid_text.specs.Appended.{Appended};
ghost use Rattle.std.specs.List.{list_all};
ghost use Rattle.wholeness.specs.Losses.{is_formed, AreParts, HasNo};
ghost use Rattle.wholeness.specs.Marks.{is_cause, is_digit, is_number, is_plain, loss_line, loss_words, IsLoss, TellsLoss};

use memchr::memchr;
use rapid_text::OutOfMemory;
use std::alloc::Global;

/// How the line begins.
const LEFT_OUT: &[u8] = b"recording|end(LEFT OUT ";

/// What a recording left out: how many accesses, from which event on, and why.
#[derive(Clone, Copy)]
pub struct Loss<'a> {
    /// How many, in decimal digits.
    pub count: &'a [u8],
    /// The number of the next event, in decimal digits.
    pub from: &'a [u8],
    /// Why.
    pub cause: &'a [u8],
}

/// Whether the bytes are a number: one or more decimal digits.
fn is_number(bytes: &[u8]) -> bool
    ensures { result ≡ is_number bytes.now }
{
    !bytes.is_empty() && are_digits(bytes)
}

/// Whether all bytes are decimal digits.
fn are_digits(bytes: &[u8]) -> bool
    ensures { result ≡ list_all is_digit bytes.now }
{
    bytes.iter().all(|byte| b'0' <= *byte && *byte <= b'9')
}

/// Whether this byte may be in a cause: a letter, a digit, a blank, or one of `,-./:_`. None of them means anything in
/// JSON or HTML.
fn is_plain(byte: u8) -> bool
    ensures { result ≡ is_plain byte }
{
    byte.is_ascii_alphanumeric() || byte == b' ' || byte == b'_' || (b',' <= byte && byte <= b':')
}

/// Whether the bytes are a cause.
fn is_cause(bytes: &[u8]) -> bool
    ensures { result ≡ is_cause bytes.now }
{
    !bytes.is_empty() && are_plain(bytes)
}

/// Whether a cause may have each of the bytes.
fn are_plain(bytes: &[u8]) -> bool
    ensures { result ≡ list_all is_plain bytes.now }
{
    bytes.iter().all(|byte| is_plain(*byte))
}

/// What comes before the first of these bytes, and what comes after it. Without such a byte, all, and nothing.
fn split_at(text: &[u8], byte: u8) -> (&[u8], &[u8])
    ensures { (first rest : List ℕ) → text.now ≡ first ++ byte ∷ rest → HasNo byte first → (result.0.now ≡ first) × (result.1.now ≡ rest) }
{
    match cut_first(text, byte) {
        Some(parts) => parts,
        None => (text, b""),
    }
}

/// What comes before the first of these bytes, and what comes after it; None if there is no such byte.
fn cut_first(text: &[u8], byte: u8) -> Option<(&[u8], &[u8])>
    ensures some { IfSome result (λ cut. (text.now ≡ cut.0.now ++ byte ∷ cut.1.now) × HasNo byte cut.0.now) }
    ensures none { result ≡ None → HasNo byte text.now }
{
    let at = memchr(byte, text)?;
    Some((&text[..at], &text[at + 1..]))
}

/// The part of the bytes from this index on.
fn from(bytes: &[u8], at: usize) -> &[u8]
    ensures { at ≤ length bytes.now → result.now ≡ drop at bytes.now }
{
    &bytes[at.min(bytes.len())..]
}

/// The three parts of the line, if it is such a line. Else any parts of it.
fn parts_of(line: &[u8]) -> Loss<'_>
    ensures { (count from cause : List ℕ) → IsLoss line.now count from cause → AreParts result count from cause }
{
    let (count, rest) = split_at(from(line, LEFT_OUT.len()), b' ');
    let (from_place, rest) = split_at(from(rest, 5), b':');
    let (cause, _) = split_at(from(rest, 1), b')');
    Loss {
        count,
        from: from_place,
        cause,
    }
}

/// Appends the line that says so.
fn append_line(out: &mut Vec<u8>, loss: Loss<'_>) -> Result<(), OutOfMemory>
    ensures { Appended result out.old out.new (loss_line loss.entry.count.now loss.entry.from.now loss.entry.cause.now) }
{
    out.extend_from_slice(LEFT_OUT)?;
    out.extend_from_slice(loss.count)?;
    out.extend_from_slice(b" FROM ")?;
    out.extend_from_slice(loss.from)?;
    out.extend_from_slice(b": ")?;
    out.extend_from_slice(loss.cause)?;
    out.extend_from_slice(b")|")?;
    Ok(())
}

/// Appends what a report says of a loss.
pub(crate) fn append_loss(out: &mut Vec<u8>, loss: Loss<'_>) -> Result<(), OutOfMemory>
    ensures { Appended result out.old out.new (loss_words loss.entry.count.now loss.entry.from.now loss.entry.cause.now) }
{
    out.extend_from_slice(b"left out ")?;
    out.extend_from_slice(loss.count)?;
    out.extend_from_slice(b" from ")?;
    out.extend_from_slice(loss.from)?;
    out.extend_from_slice(b": ")?;
    out.extend_from_slice(loss.cause)?;
    Ok(())
}

/// Whether all parts of a loss have their form.
fn is_formed(loss: Loss<'_>) -> bool
    ensures { result ≡ is_formed loss.entry.count.now loss.entry.from.now loss.entry.cause.now }
{
    is_number(loss.count) && is_number(loss.from) && is_cause(loss.cause)
}

/// Whether the line says this loss.
fn is_loss(alloc: Global, line: &[u8], loss: Loss<'_>) -> Result<bool, OutOfMemory>
    ensures yes { IfOk result (λ is. is ≡ true → IsLoss line.now loss.entry.count.now loss.entry.from.now loss.entry.cause.now) }
    ensures no { IfOk result (λ is. is ≡ false → ¬ IsLoss line.now loss.entry.count.now loss.entry.from.now loss.entry.cause.now) }
{
    let mut said = Vec::new(alloc);
    append_line(&mut said, loss)?;
    Ok(said.as_slice() == line && is_formed(loss))
}

/// What this line says was left out; None if it is no such line.
pub(crate) fn loss_of(alloc: Global, line: &[u8]) -> Result<Option<Loss<'_>>, OutOfMemory>
    ensures some { IfOk result (λ found. IfSome found (λ loss. IsLoss line.now loss.count.now loss.from.now loss.cause.now)) }
    ensures none { IfOk result (λ found. found ≡ None → ¬ TellsLoss line.now) }
{
    let loss = parts_of(line);
    if is_loss(alloc, line, loss)? {
        return Ok(Some(loss));
    }
    Ok(None)
}
