//! The read model: bytes that keep every rule of the format, with the tables that they spell.
#![tactic(auto)]

pub mod input;
pub mod model;
#[cfg(test)]
mod tests;
