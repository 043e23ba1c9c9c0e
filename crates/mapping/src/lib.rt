//! A mapping from slots to entries, over a lent slice of bindings: the newest binding of a slot counts.
#![tactic(auto)]

pub mod mapping;
#[cfg(test)]
mod tests;
