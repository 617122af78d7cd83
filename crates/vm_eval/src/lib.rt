//! The machine: rows on an explicit stack of frames, with a budget of units and a limit on the depth.
#![tactic(auto)]

mod ask;
pub mod calls;
mod class_changes;
mod first_steps;
mod look_ahead;
pub mod machine;
mod makers;
mod mark;
pub mod natives;
mod next_steps;
mod nodes;
pub mod protocols;
mod run;
mod stack;

pub use machine::{RunFault, VirtualMachine};
