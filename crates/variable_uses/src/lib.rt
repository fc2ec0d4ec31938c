//! Who uses a variable: the accesses of chosen variables by place and operation, how often, by how many threads, under
//! which locks, and whether they come before or after all accesses of a race.
#![tactic(auto)]

mod choosing;
mod columns;
mod counting;
mod ends;
mod holding;
mod keys;
mod locks;
mod numbering;
mod order;
mod threads;
mod uses;

pub use choosing::shared_variables;
pub use columns::LockCount;
pub use locks::MOST_HOLDS;
pub use order::Side;
pub use uses::{Asked, Uses, UsesRefusal, uses_of};
