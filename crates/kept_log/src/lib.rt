//! A log of lines that is kept in a file: blocks of lines, each counted whole or not at all after a crash.
#![tactic(auto)]

mod block;
mod device;
mod lines;
mod log;
mod memory;
mod settling;
mod steps;
mod turns;

pub use block::{Block, is_line};
pub use device::{Device, DeviceError};
pub use lines::first_line;
pub use log::{AppendError, KeptLog, OpenError, create};
pub use memory::Memory;
pub use turns::EnterError;
