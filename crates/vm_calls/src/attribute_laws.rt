//! What is so of several groups of rows together, and is the result of no call.
#![tactic(auto)]

pub mod dicts;
pub mod methods;
