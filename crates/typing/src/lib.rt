//! The typing rules: the type of an expression, what a pattern binds, and whether functions and statements have a type.
#![tactic(auto)]

mod calls;
pub mod declared;
mod expressions;
pub mod judge;
mod patterns;
pub mod rule;
mod scope;
mod slots;
mod statements;
mod within;
