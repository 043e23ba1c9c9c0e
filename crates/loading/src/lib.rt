//! The accepted model: a read model in which every function and every placed statement has a type; and loading, from bytes to
//! an accepted model.
#![tactic(auto)]

pub mod accepted;
pub mod load;
#[cfg(test)]
mod tests;
