//! The laws of runs.
#![tactic(auto)]

pub mod choices;
pub mod runs;
