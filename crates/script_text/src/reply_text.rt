//! The lines that answer a script: the bodies that were started, values, faults and classes.
#![tactic(auto)]

pub mod class;
pub mod escape;
pub mod write;
