//! The guarantee of every run.
#![tactic(auto)]

pub mod runs;
