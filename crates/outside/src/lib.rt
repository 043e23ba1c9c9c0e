//! Outsides, which take calls and give replies: the trait with its meaning, the house and the script.
#![tactic(auto)]

pub mod house;
pub mod outside;
pub mod script;
#[cfg(test)]
mod tests;
pub mod value;
pub mod waiting;
