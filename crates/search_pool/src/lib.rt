//! A pool of threads that search for schedules that show a pair.
#![tactic(auto)]

mod answer;
mod line;
mod outcome;
mod pool;
mod refusal;
mod request;
mod worker;

pub use outcome::{Found, Outcome};
pub use pool::Pool;
pub use refusal::{CollectRefusal, StartRefusal, SubmitRefusal};
pub use request::{Request, Way};
pub use worker::Gate;
