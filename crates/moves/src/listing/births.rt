//! The birth of each name's row, by name.
ghost use Rattle.std.specs.Prelude.{◌≡◌, ℕ, List, None, if◌then◌else◌, IfSome, IfNone};
ghost use Rattle.std.specs.Map.{lookup};
ghost use Rattle.std.specs.Str.{bytes_eq};
ghost use Rattle.moves.specs.Births.{HasBirth};

use crate::birth::Birth;
use crate::guesses::Guesses;
use crate::name::Name;
use indexmap::IndexMap;
use rapid_text::TextKeyed;

/// The birth of each name's row.
pub(super) type Births = IndexMap<Name, Birth, TextKeyed>;

/// The birth of the name, if it is at the guessed index.
fn guessed_birth(births: &Births, place: usize, name: &Name) -> Option<Birth>
    ensures { IfSome result (λ birth. HasBirth births.now.entries place name.now birth) }
{
    match births.get_index(place) {
        Some((key, birth)) if key == name => Some(*birth),
        _ => None,
    }
}

/// The birth of the name's row. If the guess is right, the name is not hashed.
pub(super) fn birth_of(births: &Births, place: usize, name: &Name) -> Option<Birth>
    ensures value { result ≡ lookup (bytes_eq name.now) births.now.entries }
{
    if let Some(birth) = guessed_birth(births, place, name) {
        return Some(birth);
    }
    births.get(name).copied()
}

/// The same, and notes the index of the name.
pub(super) fn birth_noted(births: &Births, guesses: &mut Guesses, name: &Name) -> Option<Birth>
    ensures value { result ≡ lookup (bytes_eq name.now) births.now.entries }
{
    let place = guesses.place(name);
    if let Some(birth) = guessed_birth(births, place, name) {
        return Some(birth);
    }
    let (at, _, birth) = births.get_full(name)?;
    guesses.note(name, place, at);
    Some(*birth)
}

/// Removes the birth of the name's row, with the same guess.
pub(super) fn take_birth(births: &mut Births, place: usize, name: &Name) -> Option<Birth>
    ensures value { result ≡ lookup (bytes_eq name.now) births.old.entries }
    ensures updates { (y : List ℕ) → lookup (bytes_eq y) births.new.entries
        ≡ (if bytes_eq name.now y then None else lookup (bytes_eq y) births.old.entries) }
    ensures unchanged { IfNone result (births.new.entries ≡ births.old.entries) }
{
    if guessed_birth(births, place, name).is_some() {
        let (_, birth) = births.swap_remove_index(place)?;
        return Some(birth);
    }
    births.swap_remove(name)
}
