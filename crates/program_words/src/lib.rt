//! The command line of the program: which arguments it accepts, what help says about them, and which task they name.
#![tactic(auto)]

mod building;
mod commands;
mod deadlock_commands;
mod merge_reading;
mod pair_commands;
mod program;
mod reading;
mod task;
mod told;
mod values;
mod words;
mod workspace_commands;
mod workspace_reading;

pub use program::{LISTED_BEHIND, overview};
pub use reading::task_of;
pub use task::{
    CutTask, DeadlocksForm, DeadlocksTask, Limits, MergeTask, Named, PairTask, RacesForm,
    ScheduleForm, SessionTask, Task, ThreadsTask, TriageTask,
};
pub use told::{Told, no_text};
