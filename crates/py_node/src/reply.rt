//! What a command is answered with: the bodies that were started, and its value or fault.

use crate::raised::Raised;
use crate::refs::PyObjectRef;

/// A body that was started: the function's name, and the text of each parameter's value then.
#[derive(Drop)]
pub struct BodyCall {
    pub name: String,
    pub args: Vec<String>,
}

/// How a command ended: with a value and its text at the end of the command, with a fault, or since
/// its units were used up.
#[derive(Drop)]
pub enum ReplyAnswer {
    Value(PyObjectRef, String),
    Raised(Raised),
    Budget,
}

/// The reply to a command.
#[derive(Drop)]
pub struct Reply {
    pub answer: ReplyAnswer,
    pub calls: Vec<BodyCall>,
}
