//! Finds the end of a quoted JSON text, 32 bytes at a time.
ghost use Rattle.std.specs.Prelude.{◌≡◌, ◌≤◌, ◌<◌, ◌==◌, ◌∷◌, [], ℕ, false, length, map, nat_le, slice_index, take};
ghost use Rattle.std.specs.Int.{bit_at};
ghost use Rattle.std.specs.Simd.Lanes.{mask_l};
ghost use Rattle.json.specs.Print.{escape, escape_byte};

use std::simd::prelude::*;

/// How many bytes are compared at once.
const RUN: usize = 32;

/// Whether the byte ends a quoted text, or must be escaped in one.
fn is_stop(byte: u8) -> bool
    ensures { result ≡ false → escape_byte byte ≡ byte ∷ [] }
{
    byte < 32 || byte == b'"' || byte == b'\\'
}

/// A bit mask of the lanes that hold this byte.
#[inline(always)]
fn bits_of(byte: u8, front: u8x32) -> u64
    ensures { result ≡ mask_l (map (λ c. c == byte) front) }
{
    front.simd_eq(u8x32::splat(byte)).to_bitmask()
}

/// A bit mask of the lanes that hold a control character.
#[inline(always)]
fn controls_of(front: u8x32) -> u64
    ensures { result ≡ mask_l (map (λ c. nat_le c 31) front) }
{
    front.simd_le(u8x32::splat(31)).to_bitmask()
}

/// How many of the lowest bits are 0.
#[inline(always)]
fn clear_count(bits: u64) -> usize
    ensures { (k : ℕ) → k < result → bit_at bits k ≡ 0 }
{
    bits.trailing_zeros() as usize
}

/// How many of the first 32 bytes come before the first quote, backslash or control character.
#[inline(always)]
fn plain_in(text: &[u8]) -> usize
    requires { 32 ≤ length text.now }
    ensures bound { result ≤ 32 }
    ensures plain { (k : ℕ) → k < result → escape_byte (slice_index text.now k) ≡ slice_index text.now k ∷ [] }
{
    let front = u8x32::from_slice(text);
    let quotes = clear_count(bits_of(b'"', front));
    let slashes = clear_count(bits_of(b'\\', front));
    let controls = clear_count(controls_of(front));
    least(least(quotes, slashes), least(controls, RUN))
}

/// The lesser number.
#[inline(always)]
fn least(one: usize, other: usize) -> usize
    ensures one { result ≤ one }
    ensures other { result ≤ other }
{
    if one < other { one } else { other }
}

/// How many bytes come before the first quote, backslash or control character. It checks full runs of 32 bytes only,
/// so it may stop up to 31 bytes before the end.
#[inline(always)]
fn plain_runs(text: &[u8]) -> usize
    ensures inside { result ≤ length text.now }
    ensures plain { escape (take result text.now) ≡ take result text.now }
{
    let mut at = 0;
    'runs: while text.len() - at >= RUN {
        let plain = plain_in(&text[at..]);
        at += plain;
        if plain < RUN {
            return at;
        }
    }
    at
}

/// The index of the first quote, backslash or control character; the text's length if it has no such byte.
#[inline(always)]
pub(crate) fn plain_end(text: &[u8]) -> usize
    ensures inside { result ≤ length text.now }
    ensures plain { escape (take result text.now) ≡ take result text.now }
{
    let mut at = plain_runs(text);
    'bytes: while at < text.len() && !is_stop(text[at]) {
        at += 1;
    }
    at
}
