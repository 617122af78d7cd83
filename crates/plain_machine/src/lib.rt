//! The plain machine: a world that keeps nodes, classes, variables and scopes and searches anew each
//! time, the words that rows of tasks are written in, and the answer of a task, as definitions that
//! the other crates cite (`specs/`), with their laws (`laws.rt`, proved in `proofs/`).
#![tactic(auto)]

pub mod laws;
