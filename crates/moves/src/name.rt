//! The name of a schedule. It is copied without memory.
ghost use Rattle.std.specs.Prelude.{◌≡◌, ◌↔◌, ◌≤◌, ◌++◌, ◌∷◌, [], ◌-◌, replicate, true, length, IsOk, IfOk};
ghost use Rattle.std.specs.Cmp.{partial_equiv_from_equiv};
ghost use Rattle.std.specs.Cmp.Lexicographic.{nat_list_eq_equiv, bytes_decides};
ghost use Rattle.std.specs.List.{list_all};
ghost use Rattle.std.specs.Str.{bytes_eq};
ghost use Rattle.std.proofs.Common.{ap};
ghost use Rattle.moves.specs.Names.{is_name, is_name_byte};
ghost use Rattle.moves.specs.Words.{whole_words};

use std::hash::{Hash, Hasher};
use std::marker::Model;

/// 41: bytes that are no name.
#[derive(Clone, Copy, PartialEq, Eq, Debug)]
pub struct BadName;

/// The name of a schedule: 1 to 64 bytes, each an ASCII letter or digit, or one of '_', '-' and '.'.
/// Contracts see it as those bytes.
#[derive(Clone, Copy)]
pub struct Name {
    len: u8,
    // the bytes of the name, and then zeros
    padded: [u8; 64],
}

impl Model for Name {
    ghost use Rattle.std.specs.Prelude.{List, ℕ};
    ghost use Rattle.moves.specs.Layout.{bytes_of, IsPadded, padded_with, padded_with-bytes_of};

    ghost Value = { List ℕ };

    ghost view = { bytes_of };

    ghost invariant = { IsPadded };

    ghost inverse = { padded_with };

    ghost inverse_ok = { padded_with-bytes_of };
}

impl Name {
    /// The name with these bytes, if they are a name.
    pub fn new(bytes: &[u8]) -> Result<Name, BadName>
        ensures exact { IsOk result ↔ (is_name bytes.now ≡ true) }
        ensures bytes { IfOk result (λ name. name ≡ bytes.now) }
    {
        if !is_name(bytes) {
            return Err(BadName);
        }
        Ok(Name {
            len: bytes.len() as u8,
            padded: padded(bytes),
        })
    }

    /// The bytes of the name.
    pub fn bytes(&self) -> &[u8]
        ensures bytes { result.now ≡ self.now }
        ensures name { is_name self.now ≡ true }
        ensures within { length self.now ≤ 64 }
    {
        &self.padded[..self.len as usize]
    }

    /// The bytes of the name, and zeros up to a multiple of eight bytes, because hashers take eight bytes at once.
    pub(crate) fn words(&self) -> &[u8]
        ensures { result.now ≡ whole_words self.now }
    {
        let len = self.len as usize;
        &self.padded[..len + (64 - len) % 8]
    }
}

impl PartialEq for Name {
    ghost eq = { bytes_eq };

    ghost laws = { partial_equiv_from_equiv nat_list_eq_equiv };

    fn eq(&self, other: &Name) -> bool {
        self.bytes() == other.bytes()
    }
}

impl Eq for Name {
    ghost laws = { nat_list_eq_equiv };
}

impl Hash for Name {
    ghost hash_input = { λ n. whole_words n ∷ [] };

    ghost respects_eq = { λ a b h. ap (λ n. whole_words n ∷ []) ((bytes_decides a b).0 h) };

    fn hash<H: Hasher>(&self, state: &mut H) {
        state.write(self.words());
    }
}

/// Whether the bytes are a name.
pub fn is_name(bytes: &[u8]) -> bool
    ensures { result ≡ is_name bytes.now }
{
    !bytes.is_empty() && bytes.len() <= 64 && are_name_bytes(bytes)
}

/// Whether a name may have each of the bytes.
fn are_name_bytes(bytes: &[u8]) -> bool
    ensures { result ≡ list_all is_name_byte bytes.now }
{
    bytes.iter().all(|byte| is_name_byte(*byte))
}

/// The bytes, and then zeros.
fn padded(bytes: &[u8]) -> [u8; 64]
    requires { length bytes.now ≤ 64 }
    ensures { result ≡ bytes.now ++ replicate (64 - length bytes.now) 0 }
{
    let mut padded = [0; 64];
    padded[..bytes.len()].copy_from_slice(bytes);
    padded
}

fn is_name_byte(byte: u8) -> bool
    ensures { result ≡ is_name_byte byte }
{
    matches!(byte, b'a'..=b'z' | b'A'..=b'Z' | b'0'..=b'9' | b'_' | b'-' | b'.')
}
