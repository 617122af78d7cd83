//! How the program ends.

ghost use Rattle.serve.specs.Below.{option_map};
ghost use Rattle.std.specs.Prelude.{◌≡◌};
ghost use Rattle.serve.specs.Status.{exit_of, word_of};

use script_text::ScriptError;

/// How a call of the program ended.
#[derive(Clone, Copy, PartialEq, Eq, Debug)]
pub enum Status {
    /// The input was read to its end, and all was written.
    Done,
    /// The words are none that the program knows.
    Usage,
    /// The input spells no script.
    Script(ScriptError),
    /// The source failed.
    ReadFault,
    /// The sink failed; what was taken is a front of the text.
    WriteFault,
    /// Memory could not be had.
    OutOfMemory,
    /// The input has more than 2^24 bytes.
    TooLarge,
}

#[tactic(auto, unfolding(crate::specs::Status::word_of))]
impl Status {
    /// The exit status of the process.
    pub fn code(self) -> u8
        ensures { result ≡ exit_of self }
    {
        match self {
            Status::Done => 0,
            Status::Usage => 2,
            Status::Script(_) => 3,
            Status::ReadFault => 4,
            Status::WriteFault => 5,
            Status::OutOfMemory => 6,
            Status::TooLarge => 7,
        }
    }

    /// The word that standard error is told, for a call that did not end well.
    pub fn word(self) -> Option<&'static str>
        ensures { option_map (λ s. s.now) result ≡ word_of self }
    {
        match self {
            Status::Done => None,
            Status::Usage => Some("Usage"),
            Status::Script(error) => Some(error.word()),
            Status::ReadFault => Some("ReadFault"),
            Status::WriteFault => Some("WriteFault"),
            Status::OutOfMemory => Some("OutOfMemory"),
            Status::TooLarge => Some("TooLarge"),
        }
    }
}
