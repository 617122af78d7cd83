//! The world that tasks change: nodes and classes, names, variables, scopes and expressions.
#![tactic(auto)]

pub mod args;
mod attributes_of_built_ins;
pub mod built_ins;
mod class_changes;
mod classes;
pub mod dicts;
mod entries;
mod expressions;
pub mod keys;
pub mod limits;
pub mod lists;
pub mod members;
mod names;
pub mod natives;
mod new_classes;
pub mod nodes;
mod object_changes;
pub mod objects;
mod places;
mod running;
pub mod scope;
mod scopes;
mod slots;
mod start;
pub mod takes;
pub mod under;
mod valid;
mod variables;
pub mod world;

pub use built_ins::Fixed;
pub use scope::Scope;
pub use world::World;
