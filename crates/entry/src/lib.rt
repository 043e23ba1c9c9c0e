//! Entries: a model with the schedule behind it, and the listing of what its choices come to over a house.
#![tactic(auto)]

pub mod choices;
pub mod entry;
pub mod listing;
