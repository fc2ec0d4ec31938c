//! When a row was made.
ghost use Rattle.std.specs.Prelude.{◌≡◌, ◌/◌, ◌%◌};
ghost use Rattle.moves.specs.Ages.{age};

use std::marker::Model;

/// When a row was made: the number of the log entry whose command made it, and the index of that command among the
/// commands of its entry, from 0. Births are ordered by entry and then by index. Contracts see a birth as one number,
/// its age, in the same order.
#[derive(Clone, Copy)]
pub struct Birth {
    entry: u64,
    place: u32,
}

impl Model for Birth {
    ghost use Rattle.std.specs.Prelude.{ℕ};
    ghost use Rattle.moves.specs.Ages.{age_of, IsShort, born_at, born_at-age_of};

    ghost Value = { ℕ };

    ghost view = { age_of };

    ghost invariant = { IsShort };

    ghost inverse = { born_at };

    ghost inverse_ok = { born_at-age_of };
}

impl Birth {
    /// The birth of the row that the command at this index of this entry makes.
    pub fn new(entry: u64, place: u32) -> Birth
        ensures { result ≡ age entry place }
    {
        Birth { entry, place }
    }

    /// The entry.
    pub fn entry(&self) -> u64
        ensures { result ≡ self.now / 4294967296 }
    {
        self.entry
    }

    /// The index in the entry.
    pub fn place(&self) -> u32
        ensures { result ≡ self.now % 4294967296 }
    {
        self.place
    }

    /// The birth as one number, by which births are compared.
    pub(crate) fn age(&self) -> u128
        ensures { result ≡ self.now }
    {
        self.entry as u128 * 4_294_967_296 + self.place as u128
    }
}
