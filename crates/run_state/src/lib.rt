//! What a run keeps in memory: its configuration, and the values that go into it.
#![tactic(auto)]

pub mod state;
pub mod values;
