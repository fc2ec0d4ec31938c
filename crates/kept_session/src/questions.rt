//! Questions that a screen, or another program, asks a session about its workspace. Each answer is one line, and no
//! question changes anything.

mod answers;
mod entries;
mod items;
mod listing;
mod running;
mod witnesses;

pub use answers::answer_question;
