//! Sessions of callers who share a machine: an opening, and then all sessions at once, each with a seat and a thread of
//! its own. What comes of it is a legal journal that is a mix of them, whatever the order was in which the threads came.
#![tactic(auto)]

mod crew;
mod run;
mod text;

pub use run::share_run;
pub use text::write_journal;
