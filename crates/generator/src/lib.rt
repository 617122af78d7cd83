//! Commands that are drawn from a seed, and a tally of the replies to commands. `gen SEED COUNT` runs the commands and
//! writes the tally.
#![tactic(auto)]

pub mod commands;
pub mod draws;
pub mod laws;
pub mod tally;

pub use draws::Draws;
pub use tally::Tally;
