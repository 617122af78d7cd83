//! A log of changes of classes, what keeps one beside a table of classes, and a replica: a table that such a log leads to.
#![tactic(auto)]

pub mod apply;
pub mod change;
pub mod fit;
pub mod laws;
pub mod log;
pub mod replica;

pub use change::ClassChange;
pub use log::ClassLog;
pub use replica::Replica;
