//! What reads the world and what scripts give it: the text of an object, the lines of classes, and the store of expressions.
#![tactic(auto)]

pub mod class_lines;
pub mod expressions;
pub mod show;

pub use class_lines::write_classes;
