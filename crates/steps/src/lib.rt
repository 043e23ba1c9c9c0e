//! The steps of a run: its configurations, and what each choice makes of them.
#![tactic(auto)]

pub mod records;
pub mod refusal;
pub mod state;
