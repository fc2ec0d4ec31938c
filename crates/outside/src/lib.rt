//! Callers that use only the public contracts of the crates below.
#![tactic(auto)]

pub mod headline;
pub mod triage;
