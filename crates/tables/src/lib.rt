//! The byte format of a model: its numbers, rows and tables, and the reader that makes them.
#![tactic(auto)]

pub mod check;
pub mod kinds;
pub mod numbers;
pub mod place;
pub mod read;
pub mod rows;
pub mod tables;
