//! Marks the bytes at which a line is cut, for 32 bytes at once.
ghost use Rattle.std.specs.Prelude.{◌≡◌, ℕ, List, ◌==◌, nat_le, true, false, take, drop, map, IsTrue, IfNone, Some, IfSome};
ghost use Rattle.std.specs.Simd.Lanes.{mask_l};
ghost use Rattle.std.specs.List.{before_first, after_first, list_any};
ghost use Rattle.memchr.specs.Find.{IsFirstByte};
ghost use Rattle.rapid_text.specs.Marking.{AreBits, HasNoBlank, IsMarked};

use memchr::memchr;
use std::simd::prelude::*;

/// Bit k of each mask is about the k-th byte of a text, counted from 0. `feeds` marks line feeds, `bars` marks `|`,
/// `opens` marks `(`, and `blanks` marks blanks.
#[derive(Clone, Copy)]
pub(crate) struct Marks {
    pub(crate) feeds: u64,
    pub(crate) bars: u64,
    pub(crate) opens: u64,
    pub(crate) blanks: u64,
}

impl Marks {
    /// Marks that show nothing.
    pub(crate) fn none() -> Marks
        ensures { (xs : List ℕ) → IsMarked result xs }
    {
        Marks {
            feeds: 0,
            bars: 0,
            opens: 0,
            blanks: 0,
        }
    }

    /// The marks of the first 32 bytes of a text. If the text is shorter, they show nothing.
    #[inline(always)]
    pub(crate) fn of(text: &[u8]) -> Marks
        ensures { IsMarked result text.now }
    {
        if text.len() < 32 {
            return Marks::none();
        }
        let front = u8x32::from_slice(text);
        Marks {
            feeds: bits_of(b'\n', front),
            bars: bits_of(b'|', front),
            opens: bits_of(b'(', front),
            blanks: blanks_of(front),
        }
    }

    /// The marks of the text that is left after its first `count` bytes.
    #[inline(always)]
    pub(crate) fn behind(self, count: usize) -> Marks
        ensures { (xs : List ℕ) → IsMarked self xs → IsMarked result (drop count xs) }
    {
        if count >= 64 {
            return Marks::none();
        }
        Marks {
            feeds: self.feeds >> count,
            bars: self.bars >> count,
            opens: self.opens >> count,
            blanks: self.blanks >> count,
        }
    }

    /// Whether the marks show that the first line feed is at `feed`, and that no blank comes before it.
    #[inline(always)]
    pub(crate) fn is_plain(self, feed: usize) -> bool
        ensures { IsTrue result → (xs : List ℕ) → IsMarked self xs → HasNoBlank (take feed xs) }
    {
        if self.feeds == 0 {
            return false;
        }
        let first = self.feeds.trailing_zeros() as usize;
        if first != feed {
            return false;
        }
        self.blanks.trailing_zeros() as usize >= feed
    }
}

/// The mask of the lanes that equal the byte.
#[inline(always)]
fn bits_of(byte: u8, front: u8x32) -> u64
    ensures { result ≡ mask_l (map (λ c. c == byte) front) }
{
    front.simd_eq(u8x32::splat(byte)).to_bitmask()
}

/// The mask of the lanes that are at most 32: each blank, and each other byte up to the space.
#[inline(always)]
fn blanks_of(front: u8x32) -> u64
    ensures { result ≡ mask_l (map (λ c. nat_le c 32) front) }
{
    front.simd_le(u8x32::splat(b' ')).to_bitmask()
}

/// The position of the first such byte, if a bit marks it; otherwise None.
#[inline(always)]
fn place_told(byte: u8, bits: u64, bytes: &[u8]) -> Option<usize>
    requires { AreBits (λ c. c == byte) bits bytes.now }
    ensures { IfSome result (λ at. IsFirstByte (λ c. c == byte) bytes.now (Some at)) }
{
    if bits == 0 {
        return None;
    }
    let at = bits.trailing_zeros() as usize;
    if at < bytes.len() { Some(at) } else { None }
}

/// The position of the first such byte. If no bit marks it, the function searches for it.
#[inline(always)]
fn place_marked(byte: u8, bits: u64, bytes: &[u8]) -> Option<usize>
    requires { AreBits (λ c. c == byte) bits bytes.now }
    ensures { IsFirstByte (λ c. c == byte) bytes.now result }
{
    match place_told(byte, bits, bytes) {
        Some(at) => Some(at),
        None => search(byte, bytes),
    }
}

/// The position of the first such byte, found by a search.
#[inline(never)]
fn search(byte: u8, bytes: &[u8]) -> Option<usize>
    ensures { IsFirstByte (λ c. c == byte) bytes.now result }
{
    memchr(byte, bytes)
}

/// The bytes before the first such byte, and those after it. None if there is no such byte.
#[inline(always)]
pub(crate) fn cut_marked(byte: u8, bits: u64, bytes: &[u8]) -> Option<(&[u8], &[u8])>
    requires { AreBits (λ c. c == byte) bits bytes.now }
    ensures none { IfNone result (list_any (λ c. c == byte) bytes.now ≡ false) }
    ensures found { IfSome result (λ parts. list_any (λ c. c == byte) bytes.now ≡ true) }
    ensures before { IfSome result (λ parts. parts.0.now ≡ before_first (λ c. c == byte) bytes.now) }
    ensures after { IfSome result (λ parts. parts.1.now ≡ after_first (λ c. c == byte) bytes.now) }
{
    let Some(at) = place_marked(byte, bits, bytes) else {
        return None;
    };
    Some((&bytes[..at], &bytes[at + 1..]))
}

/// The bytes before the first such byte, and those after it. If there is no such byte: all bytes, and none.
#[inline(always)]
pub(crate) fn cut_or_all_marked(byte: u8, bits: u64, bytes: &[u8]) -> (&[u8], &[u8])
    requires { AreBits (λ c. c == byte) bits bytes.now }
    ensures before { result.0.now ≡ before_first (λ c. c == byte) bytes.now }
    ensures after { result.1.now ≡ after_first (λ c. c == byte) bytes.now }
{
    match cut_marked(byte, bits, bytes) {
        Some(parts) => parts,
        None => bytes.split_at(bytes.len()),
    }
}

/// The bytes before the first such byte, and those after it, if a bit marks that byte; otherwise None.
#[inline(always)]
pub(crate) fn cut_told(byte: u8, bits: u64, bytes: &[u8]) -> Option<(&[u8], &[u8])>
    requires { AreBits (λ c. c == byte) bits bytes.now }
    ensures found { IfSome result (λ parts. list_any (λ c. c == byte) bytes.now ≡ true) }
    ensures before { IfSome result (λ parts. parts.0.now ≡ before_first (λ c. c == byte) bytes.now) }
    ensures after { IfSome result (λ parts. parts.1.now ≡ after_first (λ c. c == byte) bytes.now) }
{
    let Some(at) = place_told(byte, bits, bytes) else {
        return None;
    };
    Some((&bytes[..at], &bytes[at + 1..]))
}
