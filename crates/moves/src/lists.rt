//! The lists of names and commands that a caller owns.

use crate::command::Command;
use crate::name::Name;
use rapid_text::Items;

/// A list of names. Contracts see it as that list.
pub type Names = Items<Name>;

/// A list of commands. Contracts see it as that list.
pub type Commands = Items<Command>;
