//! The words of operations, and those of the kinds of faults.

ghost use Rattle.script_text.specs.Below.{bytes_eq, map, ok_or, option_and_then, option_map, find, as_str, view};
ghost use Rattle.std.specs.Prelude.{◌≡◌};
ghost use Rattle.script_text.specs.Forms.{kind_named, kinds};
ghost use Rattle.script_text.specs.Words.{allows, operation_of, word_of, words};

use crate::json_text::Unread;
use py_node::raised::KINDS;
use py_node::{
    Kind, ObjectWord, PyComparisonOp, PyNumberBinaryOp, PyNumberUnaryOp, SequenceWord, Word,
};
use serde_json::Value;

/// How many operands a word takes.
#[derive(Clone, Copy)]
pub(crate) enum Arity {
    One,
    Two,
    TwoOrThree,
    Three,
    Four,
}

/// The words, the operation that each stands for, and how many operands it takes.
pub(crate) const WORDS: [(&str, Word, Arity); 74] = [
    ("+", Word::Binary(PyNumberBinaryOp::Add), Arity::Two),
    ("-", Word::Binary(PyNumberBinaryOp::Subtract), Arity::Two),
    ("*", Word::Binary(PyNumberBinaryOp::Multiply), Arity::Two),
    ("%", Word::Binary(PyNumberBinaryOp::Remainder), Arity::Two),
    ("divmod", Word::Binary(PyNumberBinaryOp::Divmod), Arity::Two),
    ("<<", Word::Binary(PyNumberBinaryOp::Lshift), Arity::Two),
    (">>", Word::Binary(PyNumberBinaryOp::Rshift), Arity::Two),
    ("&", Word::Binary(PyNumberBinaryOp::And), Arity::Two),
    ("^", Word::Binary(PyNumberBinaryOp::Xor), Arity::Two),
    ("|", Word::Binary(PyNumberBinaryOp::Or), Arity::Two),
    (
        "//",
        Word::Binary(PyNumberBinaryOp::FloorDivide),
        Arity::Two,
    ),
    ("/", Word::Binary(PyNumberBinaryOp::TrueDivide), Arity::Two),
    (
        "@",
        Word::Binary(PyNumberBinaryOp::MatrixMultiply),
        Arity::Two,
    ),
    ("+=", Word::Inplace(PyNumberBinaryOp::Add), Arity::Two),
    ("-=", Word::Inplace(PyNumberBinaryOp::Subtract), Arity::Two),
    ("*=", Word::Inplace(PyNumberBinaryOp::Multiply), Arity::Two),
    ("%=", Word::Inplace(PyNumberBinaryOp::Remainder), Arity::Two),
    ("<<=", Word::Inplace(PyNumberBinaryOp::Lshift), Arity::Two),
    (">>=", Word::Inplace(PyNumberBinaryOp::Rshift), Arity::Two),
    ("&=", Word::Inplace(PyNumberBinaryOp::And), Arity::Two),
    ("^=", Word::Inplace(PyNumberBinaryOp::Xor), Arity::Two),
    ("|=", Word::Inplace(PyNumberBinaryOp::Or), Arity::Two),
    (
        "//=",
        Word::Inplace(PyNumberBinaryOp::FloorDivide),
        Arity::Two,
    ),
    (
        "/=",
        Word::Inplace(PyNumberBinaryOp::TrueDivide),
        Arity::Two,
    ),
    (
        "@=",
        Word::Inplace(PyNumberBinaryOp::MatrixMultiply),
        Arity::Two,
    ),
    ("**", Word::Power, Arity::TwoOrThree),
    ("**=", Word::InplacePower, Arity::Two),
    ("<", Word::Compare(PyComparisonOp::Lt), Arity::Two),
    ("<=", Word::Compare(PyComparisonOp::Le), Arity::Two),
    ("==", Word::Compare(PyComparisonOp::Eq), Arity::Two),
    ("!=", Word::Compare(PyComparisonOp::Ne), Arity::Two),
    (">=", Word::Compare(PyComparisonOp::Ge), Arity::Two),
    (">", Word::Compare(PyComparisonOp::Gt), Arity::Two),
    ("neg", Word::Unary(PyNumberUnaryOp::Negative), Arity::One),
    ("pos", Word::Unary(PyNumberUnaryOp::Positive), Arity::One),
    ("abs", Word::Unary(PyNumberUnaryOp::Absolute), Arity::One),
    ("invert", Word::Unary(PyNumberUnaryOp::Invert), Arity::One),
    ("in", Word::Sequence(SequenceWord::In), Arity::Two),
    ("getitem", Word::Sequence(SequenceWord::GetItem), Arity::Two),
    (
        "setitem",
        Word::Sequence(SequenceWord::SetItem),
        Arity::Three,
    ),
    ("delitem", Word::Sequence(SequenceWord::DelItem), Arity::Two),
    ("slice", Word::Sequence(SequenceWord::Slice), Arity::Three),
    (
        "setslice",
        Word::Sequence(SequenceWord::SetSlice),
        Arity::Four,
    ),
    (
        "delslice",
        Word::Sequence(SequenceWord::DelSlice),
        Arity::Three,
    ),
    ("count", Word::Sequence(SequenceWord::Count), Arity::Two),
    ("find", Word::Sequence(SequenceWord::Find), Arity::Two),
    ("concat", Word::Sequence(SequenceWord::Concat), Arity::Two),
    ("repeat", Word::Sequence(SequenceWord::Repeat), Arity::Two),
    (
        "iconcat",
        Word::Sequence(SequenceWord::InplaceConcat),
        Arity::Two,
    ),
    (
        "irepeat",
        Word::Sequence(SequenceWord::InplaceRepeat),
        Arity::Two,
    ),
    ("len", Word::Sequence(SequenceWord::Len), Arity::One),
    ("hint", Word::Sequence(SequenceWord::Hint), Arity::Two),
    ("iter", Word::Sequence(SequenceWord::Iter), Arity::One),
    ("next", Word::Sequence(SequenceWord::Next), Arity::One),
    ("tolist", Word::Sequence(SequenceWord::ToList), Arity::One),
    ("totuple", Word::Sequence(SequenceWord::ToTuple), Arity::One),
    ("is", Word::Object(ObjectWord::Is), Arity::Two),
    ("not", Word::Object(ObjectWord::Not), Arity::One),
    ("bool", Word::Object(ObjectWord::Bool), Arity::One),
    ("hash", Word::Object(ObjectWord::Hash), Arity::One),
    ("repr", Word::Object(ObjectWord::Repr), Arity::One),
    ("str", Word::Object(ObjectWord::Str), Arity::One),
    ("dir", Word::Object(ObjectWord::Dir), Arity::One),
    ("format", Word::Object(ObjectWord::Format), Arity::Two),
    (
        "isinstance",
        Word::Object(ObjectWord::IsInstance),
        Arity::Two,
    ),
    (
        "issubclass",
        Word::Object(ObjectWord::IsSubclass),
        Arity::Two,
    ),
    ("index", Word::Object(ObjectWord::Index), Arity::One),
    ("int", Word::Object(ObjectWord::Int), Arity::One),
    ("callable", Word::Object(ObjectWord::Callable), Arity::One),
    ("typeof", Word::Object(ObjectWord::TypeOf), Arity::One),
    ("keys", Word::Object(ObjectWord::Keys), Arity::One),
    ("values", Word::Object(ObjectWord::Values), Arity::One),
    ("items", Word::Object(ObjectWord::Items), Arity::One),
    ("hasattr", Word::Object(ObjectWord::HasAttr), Arity::Two),
];

impl Arity {
    /// Whether it is so many operands.
    pub(crate) fn allows(self, count: usize) -> bool
        ensures { result ≡ allows self count }
    {
        match self {
            Arity::One => count == 1,
            Arity::Two => count == 2,
            Arity::TwoOrThree => count == 2 || count == 3,
            Arity::Three => count == 3,
            Arity::Four => count == 4,
        }
    }
}

// The words in order.
#[tactic(auto, unfolding(crate::specs::Words::words))]
fn all_words() -> &'static [(&'static str, Word, Arity)]
    ensures { map (λ row. (row.0.now, row.1, row.2)) result.now ≡ words }
{
    &WORDS
}

// The operation that a word stands for, and how many operands it takes.
fn find_word(text: &str) -> Option<(Word, Arity)>
    ensures { result ≡ word_of text.now }
{
    find_in(all_words(), text)
}

// What stands for a text in the first row that has it.
fn find_in(rows: &[(&str, Word, Arity)], text: &str) -> Option<(Word, Arity)>
    ensures { result ≡ option_map (λ row. (row.1, row.2)) (find (λ row. bytes_eq text.now row.0.now) rows.now) }
{
    rows.iter()
        .find(|row| text == row.0)
        .map(|row| (row.1, row.2))
}

// The operation that a value names, and how many operands it takes.
pub(crate) fn read_word(value: &Value) -> Result<(Word, Arity), Unread>
    ensures { result ≡ ok_or (operation_of (view value.now)) Unread.Shape }
{
    let text = value.as_str().ok_or(Unread::Shape)?;
    find_word(text).ok_or(Unread::Shape)
}

// The kinds of faults with their words.
#[tactic(auto, unfolding(crate::specs::Forms::kinds))]
fn all_kinds() -> &'static [(Kind, &'static str)]
    ensures { map (λ row. (row.0, row.1.now)) result.now ≡ kinds }
{
    &KINDS
}

// The kind of faults that a word stands for.
fn find_kind(text: &str) -> Option<Kind>
    ensures { result ≡ kind_named text.now }
{
    kind_in(all_kinds(), text)
}

// What stands for a text in the first row that has it.
fn kind_in(rows: &[(Kind, &str)], text: &str) -> Option<Kind>
    ensures { result ≡ option_map (λ row. row.0) (find (λ row. bytes_eq text.now row.1.now) rows.now) }
{
    rows.iter().find(|row| text == row.1).map(|row| row.0)
}

// The kind of faults that a value names.
pub(crate) fn read_kind(value: &Value) -> Result<Kind, Unread>
    ensures { result ≡ ok_or (option_and_then kind_named (as_str (view value.now))) Unread.Shape }
{
    let text = value.as_str().ok_or(Unread::Shape)?;
    find_kind(text).ok_or(Unread::Shape)
}
