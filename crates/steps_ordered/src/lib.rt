//! An accepted choice keeps a configuration in order.
#![tactic(auto)]

pub mod laws;
