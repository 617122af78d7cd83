//! The lines of both tables of calls.
//!
//! At the root: what tables of calls share: their lines, and the short lists that classes are made of.
#![tactic(auto)]

pub mod call_lines;
pub mod lists;
pub mod machine_lines;
pub mod table;

pub use table::{NoValue, Table};
