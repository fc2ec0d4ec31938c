//! Guesses of the indexes of names in a table.

use crate::name::Name;
use std::hash::{FoldHasher, Hasher};

// How many guesses are kept for one table: a power of two.
const GUESSES: usize = 256;
// How far a mix is shifted right to get the index of its guess.
const SHIFT: u32 = 56;

/// Where names of schedules were in a table, one for each of 256 quick mixes of a name's bytes. A guess saves a look-up
/// by `TextKeyed`, and callers compare it with the table before they use it. So the mix needs no key: names chosen to
/// share a mix make the guesses useless, but no look-up slower. Contracts say nothing of guesses.
#[derive(Clone, Copy)]
pub struct Guesses {
    places: [u32; GUESSES],
}

impl Guesses {
    /// No name was looked up yet: each guess is 0.
    pub fn new() -> Guesses {
        Guesses {
            places: [0; GUESSES],
        }
    }

    /// The index of the last noted name with the same mix, or 0.
    pub fn place(&self, name: &Name) -> usize {
        match self.places.get(mix_of(name)) {
            Some(place) => *place as usize,
            None => 0,
        }
    }

    /// Notes the index of a name, unless the guess was right.
    pub fn note(&mut self, name: &Name, guess: usize, place: usize) {
        if guess == place {
            return;
        }
        let Ok(place) = u32::try_from(place) else {
            return;
        };
        if let Some(noted) = self.places.get_mut(mix_of(name)) {
            *noted = place;
        }
    }
}

// A mix of the bytes of a name, less than 256.
fn mix_of(name: &Name) -> usize {
    let mut hasher = FoldHasher::default();
    hasher.write(name.words());
    (hasher.finish() >> SHIFT) as usize
}
