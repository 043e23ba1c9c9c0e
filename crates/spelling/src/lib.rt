//! The bytes of an input, written as text.
#![tactic(auto)]

pub mod text;
