//! Rules 5 and 6: the shape of types, names, defaults, classes and methods, and the methods that a class needs.
#![tactic(auto)]

pub mod methods;
pub mod shape;
