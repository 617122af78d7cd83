//! The language of scripts: the commands that a text spells, and the text that answers them.
#![tactic(auto)]

mod form_parts;
mod form_words;
mod forms;
pub mod json_text;
pub mod read;
pub mod reply_text;
pub mod sessions;
mod words;

pub use crate::json_text::{ScriptError, ScriptFault};
pub use crate::reply_text::write::write_replies;
pub use read::read_script;
pub use sessions::read_sessions;
