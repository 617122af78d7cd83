//! Hierarchies as texts: `[[NAME, [BASE, ..]], ..]`, each class after its bases.
#![tactic(auto)]

mod bases;
mod classes;
mod parts;
pub mod read;

pub use read::read_hierarchy;
