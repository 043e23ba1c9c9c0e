//! Tests of runs: small models with choices, over a house and over a script.
#![tactic(auto)]

#[cfg(test)]
mod models;
#[cfg(test)]
mod tests;
