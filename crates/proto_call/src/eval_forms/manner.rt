//! How each word of an operation is done.

ghost use Rattle.std.specs.Prelude.{◌≡◌};
ghost use Rattle.proto_call.specs.EvalForms.Words.{manner_of, object_manner, sequence_manner};

use crate::eval_forms::bounds::Counted;
use crate::eval_forms::outcome::Outcome;
use py_node::{ObjectWord, SequenceWord, Word};

/// How a word is done.
#[derive(Clone, Copy)]
pub enum Manner {
    /// Its task is asked, and this is made of the answer.
    Asks(Outcome),
    /// The second operand is asked for its number before.
    Counts(Counted),
    /// Two places are.
    Slices,
    SetsSlice,
    DeletesSlice,
    /// It reads the operands by itself.
    IsSame,
    TypeOf,
    IsCallable,
    /// The second operand must be a text.
    Formats,
    HasAttr,
}

/// How a word is done.
pub(crate) fn manner_of(word: Word) -> Manner
    ensures { result ≡ manner_of word }
{
    match word {
        Word::Sequence(word) => sequence_manner(word),
        Word::Object(word) => object_manner(word),
        _ => Manner::Asks(Outcome::Same),
    }
}

fn sequence_manner(word: SequenceWord) -> Manner
    ensures { result ≡ sequence_manner word }
{
    match word {
        SequenceWord::In => Manner::Asks(Outcome::Truth),
        SequenceWord::SetItem | SequenceWord::DelItem => Manner::Asks(Outcome::Nothing),
        SequenceWord::Count | SequenceWord::Find | SequenceWord::Len => {
            Manner::Asks(Outcome::Number)
        }
        SequenceWord::Next => Manner::Asks(Outcome::Item),
        SequenceWord::ToList => Manner::Asks(Outcome::List),
        SequenceWord::ToTuple => Manner::Asks(Outcome::Tuple),
        SequenceWord::Repeat => Manner::Counts(Counted::Repeat),
        SequenceWord::InplaceRepeat => Manner::Counts(Counted::InplaceRepeat),
        SequenceWord::Hint => Manner::Counts(Counted::Hint),
        SequenceWord::Slice => Manner::Slices,
        SequenceWord::SetSlice => Manner::SetsSlice,
        SequenceWord::DelSlice => Manner::DeletesSlice,
        _ => Manner::Asks(Outcome::Same),
    }
}

fn object_manner(word: ObjectWord) -> Manner
    ensures { result ≡ object_manner word }
{
    match word {
        ObjectWord::Is => Manner::IsSame,
        ObjectWord::TypeOf => Manner::TypeOf,
        ObjectWord::Callable => Manner::IsCallable,
        ObjectWord::Format => Manner::Formats,
        ObjectWord::HasAttr => Manner::HasAttr,
        ObjectWord::Not => Manner::Asks(Outcome::Negated),
        ObjectWord::Bool | ObjectWord::IsInstance | ObjectWord::IsSubclass => {
            Manner::Asks(Outcome::Truth)
        }
        ObjectWord::Hash => Manner::Asks(Outcome::Number),
        _ => Manner::Asks(Outcome::Same),
    }
}
