//! The calls that the program makes, a module for each command. Each call works on readers and a writer; the program's
//! arguments, files and exit statuses are in `racebench`.
#![tactic(auto)]

// What they share.
mod fault;
mod printout;

// Calls on one trace.
mod cut_call;
mod info_call;

// Scripts that run at the same time.
mod beside;
mod inputs;
mod searching;
mod seating;
mod threads_call;

// Reports that are merged.
mod merge_call;
mod merge_fault;

// On one pair of events, and on all pairs.
pub mod pair;
pub mod triage;

pub use client_scripts::{replay, replay_joint};
pub use cut_call::cut_window;
pub use fault::{BenchFault, bench_fault_text};
pub use info_call::info;
pub use inputs::MAX_SCRIPTS;
pub use merge_call::{read_part, write_merged, write_merged_json};
pub use merge_fault::MergeFault;
pub use race_parts::{Part, Parts};
pub use searching::MAX_WORKERS;
pub use seating::Running;
pub use threads_call::{threads, threads_with_room};
pub use workspace_lock::BEST_ROOM;
