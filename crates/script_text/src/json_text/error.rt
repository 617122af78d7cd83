//! Why a text was not read.

ghost use Rattle.std.specs.Prelude.{◌≡◌};
ghost use Rattle.script_text.specs.JsonText.Json.{error_word};

use crate::json_text::items::Unread;
use py_node::OutOfMemory;
use std::alloc::{AllocError, AllocFailed};
use thiserror::Error;

/// Why a text is no script.
#[derive(Clone, Copy, PartialEq, Eq, Debug)]
pub enum ScriptError {
    NotJson,
    Number,
    NoCommand,
    Shape,
}

#[tactic(auto, unfolding(crate::specs::JsonText::Json::error_word))]
impl ScriptError {
    /// Its word.
    pub fn word(self) -> &'static str
        ensures { result.now ≡ error_word self }
    {
        match self {
            ScriptError::NotJson => "NotJson",
            ScriptError::Number => "Number",
            ScriptError::NoCommand => "NoCommand",
            ScriptError::Shape => "Shape",
        }
    }
}

/// Why a script was not read: it was refused, or memory could not be had.
#[derive(Clone, Copy, Debug, Error)]
pub enum ScriptFault {
    #[error("no script")]
    Script(ScriptError),
    #[error("out of memory")]
    OutOfMemory(OutOfMemory),
}

impl From<AllocError> for ScriptFault {
    ghost use Rattle.std.specs.Prelude.{◌≡◌};
    ghost use Rattle.script_text.specs.JsonText.Fault.{the_memory};

    ghost from_gives = { λ _ e. e ≡ the_memory };

    fn from(_refused: AllocError) -> ScriptFault {
        ScriptFault::OutOfMemory(OutOfMemory)
    }
}

impl<T: Drop> From<AllocFailed<T>> for ScriptFault {
    ghost use Rattle.std.specs.Prelude.{◌≡◌};
    ghost use Rattle.script_text.specs.JsonText.Fault.{the_memory};

    ghost from_gives = { λ _ e. e ≡ the_memory };

    fn from(_refused: AllocFailed<T>) -> ScriptFault {
        ScriptFault::OutOfMemory(OutOfMemory)
    }
}

impl From<Unread> for ScriptFault {
    ghost use Rattle.std.specs.Prelude.{◌≡◌};
    ghost use Rattle.script_text.specs.JsonText.Fault.{fault_of};

    ghost from_gives = { λ u e. e ≡ fault_of u };

    fn from(unread: Unread) -> ScriptFault {
        match unread {
            Unread::Shape => ScriptFault::Script(ScriptError::Shape),
            Unread::OutOfMemory => ScriptFault::OutOfMemory(OutOfMemory),
        }
    }
}
