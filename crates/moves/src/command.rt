//! The commands.
ghost use Rattle.std.specs.Prelude.{◌≡◌, ℕ, List};
ghost use Rattle.moves.specs.Commands.{writes, reads, target_of, touches, is_touched};

use crate::name::Name;

/// A change of one named schedule.
#[derive(Clone, Copy)]
pub enum Command {
    /// Makes a new schedule with no events.
    Fresh {
        /// Its name.
        name: Name,
    },
    /// Appends an event.
    Add {
        /// The schedule.
        name: Name,
        /// The event's number in the trace, from 0.
        event: u32,
    },
    /// Takes off the last event.
    Back {
        /// The schedule.
        name: Name,
    },
    /// Exchanges two neighbours.
    Swap {
        /// The schedule.
        name: Name,
        /// The index of the first of the two in the schedule, from 0.
        at: u32,
    },
    /// Makes a new schedule with the first events of another one.
    Branch {
        /// The schedule whose events are copied.
        name: Name,
        /// How many events are copied.
        length: u32,
        /// The new schedule's name.
        to: Name,
    },
    /// Drops the schedule.
    Drop {
        /// The schedule.
        name: Name,
    },
    /// Replaces the events of the schedule by those of a proposal.
    Adopt {
        /// The schedule.
        name: Name,
        /// The proposal's number on the board, from 0.
        proposal: u32,
    },
}

/// The names that a command touches.
#[derive(Clone, Copy)]
pub struct Touched {
    /// The name that the command reads: the source of a branch, otherwise the name that it writes.
    pub first: Name,
    /// The name of the new schedule, if the command is a branch.
    pub second: Option<Name>,
}

impl Command {
    /// The name that the command writes: the new schedule of a branch, otherwise the name of the command.
    pub fn writes(&self) -> Name
        ensures { result ≡ writes self.now }
    {
        match *self {
            Command::Branch {
                name: _,
                length: _,
                to,
            } => to,
            _ => self.reads(),
        }
    }

    /// The name that the command reads: the source of a branch, otherwise the name that it writes.
    pub fn reads(&self) -> Name
        ensures { result ≡ reads self.now }
    {
        match *self {
            Command::Fresh { name } => name,
            Command::Add { name, event: _ } => name,
            Command::Back { name } => name,
            Command::Swap { name, at: _ } => name,
            Command::Branch {
                name,
                length: _,
                to: _,
            } => name,
            Command::Drop { name } => name,
            Command::Adopt { name, proposal: _ } => name,
        }
    }

    /// The names that the command touches: the one that it reads, and the new schedule of a branch.
    pub fn touches(&self) -> Touched
        ensures first { result.first ≡ reads self.now }
        ensures second { result.second ≡ target_of self.now }
        // A command touches a name exactly if it is one of these.
        ensures exact { (x : List ℕ) → is_touched result x ≡ touches self.now x }
    {
        match *self {
            Command::Branch {
                name,
                length: _,
                to,
            } => Touched {
                first: name,
                second: Some(to),
            },
            _ => Touched {
                first: self.reads(),
                second: None,
            },
        }
    }
}
