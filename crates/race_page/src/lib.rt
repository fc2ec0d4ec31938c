//! The races of a trace as a page: one HTML file that fetches nothing and runs nothing.
#![tactic(auto)]

mod about;
mod accesses;
mod commands;
mod counting;
mod ending;
mod followed;
mod heading;
mod leftovers;
mod marks;
mod meanings;
mod merged;
mod merged_head;
mod merged_rows;
mod merged_table;
mod merged_tally;
mod own;
mod page;
mod piece;
mod reasons;
mod rows;
mod run_words;
mod schedules;
mod selecting;
mod shell;
mod shown;
mod style;
mod titles;
mod whole;
mod words;

pub use about::About;
pub use merged::merged_page;
pub use merged_head::LeftOut;
pub use own::{Part, Tag};
pub use rows::{MOST_PICTURES, MOST_ROWS};
pub use shell::append_shell_word;
pub use shown::{Seen, Shown, Sort};
pub use whole::page_text;
