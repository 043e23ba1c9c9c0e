//! Runs of accepted models: opening, choosing and closing, and whole runs.
#![tactic(auto)]

mod dispatch;
pub mod memory;
mod message;
pub mod playing;
pub mod run;
