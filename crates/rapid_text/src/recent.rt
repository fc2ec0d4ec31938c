//! Guesses the number of a name, since a text repeats few names often.

use std::hash::{FoldHasher, Hasher};

// The number of guesses that are kept for one table: a power of two.
const GUESSES: usize = 1_024;
// A mix shifted right by this much is the index of its guess.
const SHIFT: u32 = 54;

/// The numbers that earlier names had, the last one for each index. A right guess spares a look-up by `TextKeyed`,
/// and the table is compared before a guess is used. So this hash needs no key. Somebody who chooses names with one
/// index makes the guesses useless, but makes no look-up slower.
#[derive(Clone, Copy)]
pub(crate) struct Recent {
    guesses: [Guess; GUESSES],
}

// The mix of a name's bytes, and the number of that name.
#[derive(Clone, Copy)]
struct Guess {
    mix: u64,
    number: u32,
}

impl Recent {
    /// Guesses before the first name.
    pub(crate) fn new() -> Recent {
        Recent {
            guesses: [Guess { mix: 0, number: 0 }; GUESSES],
        }
    }

    /// The number of the last name with this mix, unless a name with another mix replaced it.
    pub(crate) fn guess(&self, mix: u64) -> Option<u32> {
        let guess = self.guesses.get((mix >> SHIFT) as usize)?;
        if guess.mix == mix {
            Some(guess.number)
        } else {
            None
        }
    }

    /// Notes the number of a name with this mix.
    pub(crate) fn note(&mut self, mix: u64, number: u32) {
        if let Some(guess) = self.guesses.get_mut((mix >> SHIFT) as usize) {
            *guess = Guess { mix, number };
        }
    }
}

/// A mix of the bytes of a name.
pub(crate) fn mix_of(name: &[u8]) -> u64 {
    let mut hasher = FoldHasher::default();
    hasher.write(name);
    hasher.finish()
}
