//! The merge of linearisations, by which a class with several bases gets its order.
#![tactic(auto)]

pub mod fault;
pub mod laws;
mod merge;

pub use fault::MroFault;
