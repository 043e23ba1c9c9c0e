//! What expressions are worth: values, arithmetic, cells, and the evaluator.
#![tactic(auto)]

pub mod arithmetic;
pub mod cells;
pub mod evaluator;
pub mod laws;
mod operators;
pub mod refusal;
#[cfg(test)]
mod tests;
pub mod value;
pub mod workspace;
