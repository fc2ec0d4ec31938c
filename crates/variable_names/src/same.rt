//! Whether two names are the same without their NUMBERs.
ghost use Rattle.std.specs.Prelude.{◌≡◌, ◌≤◌, ◌++◌, length, bytes_eq};
ghost use Rattle.variable_names.specs.Names.{joined, without_number};

use crate::numbers::parts_of;

/// Whether two names of variables are the same without their NUMBERs.
pub fn are_same(one: &[u8], other: &[u8]) -> bool
    ensures { result ≡ bytes_eq (without_number one.now) (without_number other.now) }
{
    are_joined(parts_of(one), parts_of(other))
}

/// Whether two texts in two parts each are the same.
#[tactic(auto, using(crate::proofs::JoinLemmas::turned))]
fn are_joined(one: (&[u8], &[u8]), other: (&[u8], &[u8])) -> bool
    ensures { result ≡ bytes_eq (one.entry.0.now ++ one.entry.1.now) (other.entry.0.now ++ other.entry.1.now) }
{
    if one.0.len() <= other.0.len() {
        is_cut_later(one, other)
    } else {
        is_cut_later(other, one)
    }
}

/// The same if the second text is not cut before the first one.
#[tactic(auto, using(crate::proofs::JoinLemmas::joined_same))]
fn is_cut_later(one: (&[u8], &[u8]), other: (&[u8], &[u8])) -> bool
    requires { length one.0.now ≤ length other.0.now }
    ensures { result ≡ bytes_eq (one.entry.0.now ++ one.entry.1.now) (other.entry.0.now ++ other.entry.1.now) }
{
    let (head, middle) = other.0.split_at(one.0.len());
    one.0 == head && is_joined(one.1, middle, other.1)
}

/// Whether the text is these two, one after the other.
#[tactic(auto, using(crate::proofs::JoinLemmas::joined_yes, crate::proofs::JoinLemmas::joined_no))]
fn is_joined(text: &[u8], first: &[u8], second: &[u8]) -> bool
    ensures { result ≡ bytes_eq text.now (first.now ++ second.now) }
{
    match text.strip_prefix(first) {
        Some(rest) => rest == second,
        None => false,
    }
}
