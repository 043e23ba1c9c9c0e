//! What the rules of the tables share: ranges of rows, the nodes that a row uses, what a type's row says, and the search for the
//! first place that breaks a rule.
#![tactic(auto)]

pub mod faults;
pub mod search;
pub mod types;
pub mod uses;
