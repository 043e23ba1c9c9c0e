//! A schedule: the choices that a host makes, one after another, and the bytes that spell them.
#![tactic(auto)]

pub mod schedule;
