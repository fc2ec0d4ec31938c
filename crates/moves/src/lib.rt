//! Named schedules of a trace, the commands that change them, and one step back for each command.
#![tactic(auto)]

mod batch;
mod birth;
mod board;
mod command;
mod guesses;
mod inverse;
mod judged;
mod listing;
mod lists;
mod name;
mod refusal;
mod rising;
mod row;
mod workspace;

pub use batch::{BatchRefusal, Inverses};
pub use birth::Birth;
pub use board::{Board, Proposal};
pub use command::{Command, Touched};
pub use guesses::Guesses;
pub use inverse::{Inverse, Step};
pub use lists::{Commands, Names};
pub use name::{BadName, Name, is_name};
pub use refusal::MoveRefusal;
pub use row::Row;
pub use workspace::Workspace;
