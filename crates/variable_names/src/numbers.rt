//! The NUMBER in a variable's name.
ghost use Rattle.std.specs.Prelude.{◌≡◌, ◌≤◌, length, option_map, position};
ghost use Rattle.variable_names.specs.Names.{after_digits, after_hash, after_number, after_order, before_hash, checked, digit_count, is_address, is_between, is_function, is_offset, is_other, is_path, is_variable, parts_by, parts_of, rest_of};

use memchr::memrchr;

/// The texts before and after the NUMBER of a variable's name. If the name has none: the name, and nothing.
pub fn parts_of(name: &[u8]) -> (&[u8], &[u8])
    ensures before { result.0.now ≡ (parts_of name.now).0 }
    ensures after { result.1.now ≡ (parts_of name.now).1 }
{
    let (before, after) = cut_at_hash(name);
    match after_number(after) {
        Some(rest) => {
            if is_between(before, rest) {
                (before, rest)
            } else {
                (name, b"")
            }
        }
        None => (name, b""),
    }
}

/// Whether the name is an address: no variable of the source is known there.
pub fn is_address(name: &[u8]) -> bool
    ensures { result ≡ is_address name.now }
{
    name.starts_with(b"stack:") || name.starts_with(b"memory:")
}

/// The texts before and after the last `#`. If there is none: nothing, and all.
fn cut_at_hash(name: &[u8]) -> (&[u8], &[u8])
    ensures before { result.0.now ≡ before_hash name.now }
    ensures after { result.1.now ≡ after_hash name.now }
{
    match memrchr(b'#', name) {
        Some(at) => (&name[..at], &name[at + 1..]),
        None => (b"", name),
    }
}

/// Whether the byte is not a decimal digit.
fn is_other(byte: u8) -> bool
    ensures { result ≡ is_other byte }
{
    !(b'0' <= byte && byte <= b'9')
}

/// The place of the first byte that is not a digit.
fn first_other(text: &[u8]) -> Option<usize>
    ensures { result ≡ position is_other text.now }
{
    text.iter().position(|byte| is_other(*byte))
}

/// How many digits the text begins with.
#[tactic(auto, using(crate::proofs::DigitLemmas::none_len, crate::proofs::DigitLemmas::within))]
fn digit_count(text: &[u8]) -> usize
    ensures value { result ≡ digit_count text.now }
    ensures bound { result ≤ length text.now }
{
    match first_other(text) {
        Some(at) => at,
        None => text.len(),
    }
}

/// The text after the digits that it begins with. Returns None if it does not begin with a digit.
fn after_digits(text: &[u8]) -> Option<&[u8]>
    ensures { option_map (λ rest. rest.now) result ≡ after_digits text.now }
{
    let count = digit_count(text);
    if count > 0 {
        Some(&text[count..])
    } else {
        None
    }
}

/// The text after a point and digits, or all if it does not begin so.
fn after_order(text: &[u8]) -> &[u8]
    ensures { result.now ≡ after_order text.now }
{
    if text.starts_with(b".") {
        match after_digits(&text[1..]) {
            Some(rest) => rest,
            None => text,
        }
    } else {
        text
    }
}

/// The text after the number of a thread, and the order after it if there is one.
fn after_thread(text: &[u8]) -> Option<&[u8]>
    ensures { option_map (λ rest. rest.now) result ≡ option_map after_order (after_digits text.now) }
{
    match after_digits(text) {
        Some(rest) => Some(after_order(rest)),
        None => None,
    }
}

/// The text after a NUMBER without its `#`. Returns None if the text does not begin with one.
fn after_number(text: &[u8]) -> Option<&[u8]>
    ensures { option_map (λ rest. rest.now) result ≡ after_number text.now }
{
    if text.starts_with(b"T") {
        after_thread(&text[1..])
    } else {
        after_digits(text)
    }
}

/// Whether a block's name may end so after its NUMBER.
fn is_path(text: &[u8]) -> bool
    ensures { result ≡ is_path text.now }
{
    text.is_empty() || text.starts_with(b"[") || text.starts_with(b".") || text.starts_with(b"+")
}

/// Whether the name of a part of a frame may end so after its NUMBER.
fn is_offset(text: &[u8]) -> bool
    ensures { result ≡ is_offset text.now }
{
    text.starts_with(b"+") || text.starts_with(b"-")
}

/// Whether the name of a variable of a frame may end so after its NUMBER.
fn is_variable(text: &[u8]) -> bool
    ensures { result ≡ is_variable text.now }
{
    text.starts_with(b":") && text.len() > 1
}

/// Whether the name of a variable of a frame may begin so before its NUMBER.
fn is_function(text: &[u8]) -> bool
    ensures { result ≡ is_function text.now }
{
    !text.is_empty()
        && !(text.starts_with(b"atomic:")
            || text.starts_with(b"held:")
            || text.starts_with(b"sync:"))
}

/// Whether a name may have a NUMBER between these two texts.
fn is_between(before: &[u8], after: &[u8]) -> bool
    ensures { result ≡ is_between before.now after.now }
{
    if before.starts_with(b"heap:") {
        is_path(after)
    } else if before.starts_with(b"stack:") {
        is_offset(after)
    } else {
        is_function(before) && is_variable(after)
    }
}
