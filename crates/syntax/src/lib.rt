//! What the rows of a model say: types, nodes and statements as enums of the subject.
#![tactic(auto)]

pub mod nodes;
pub mod statements;
pub mod types;
