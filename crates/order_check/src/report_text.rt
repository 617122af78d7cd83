//! Reports of hierarchies as texts: a line for each class but the first.
#![tactic(auto)]

mod line;
mod name;
mod pairs;
pub mod write;

pub use write::write_report;
