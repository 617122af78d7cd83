//! The one top call, from words and bytes to bytes, and how it ends.
#![tactic(auto)]

mod answer;
pub mod checking;
mod generation;
pub mod script;
mod sessions;
pub mod status;
pub mod top;

pub use status::Status;
