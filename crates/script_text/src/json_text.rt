//! Texts as JSON whose numbers are integers of 64 bits, and the items of its lists.
#![tactic(auto)]

pub mod error;
pub mod items;
pub mod read;
pub mod texts;

pub use error::{ScriptError, ScriptFault};
pub use items::Unread;
pub use read::read_json;
