//! The words of forms.

ghost use Rattle.script_text.specs.Below.{bytes_eq, map, ok_or, option_and_then, option_map, find, as_str, view};
ghost use Rattle.std.specs.Prelude.{◌≡◌};
ghost use Rattle.script_text.specs.FormWords.{form_named, form_words};

use crate::json_text::Unread;
use serde_json::Value;

/// What an array spells, by the word that it begins with.
#[derive(Clone, Copy)]
pub(crate) enum FormWord {
    Name,
    Bind,
    Tuple,
    List,
    Dict,
    Func,
    FuncRest,
    Attr,
    SetAttr,
    DelAttr,
    Call,
    Op,
    If,
    Seq,
    Raise,
    Class,
}

/// The words, and the form that each stands for: first those that stand most often in scripts.
pub(crate) const FORMS: [(&str, FormWord); 16] = [
    ("name", FormWord::Name),
    ("op", FormWord::Op),
    ("attr", FormWord::Attr),
    ("call", FormWord::Call),
    ("seq", FormWord::Seq),
    ("bind", FormWord::Bind),
    ("setattr", FormWord::SetAttr),
    ("tuple", FormWord::Tuple),
    ("list", FormWord::List),
    ("dict", FormWord::Dict),
    ("func", FormWord::Func),
    ("func*", FormWord::FuncRest),
    ("delattr", FormWord::DelAttr),
    ("if", FormWord::If),
    ("raise", FormWord::Raise),
    ("class", FormWord::Class),
];

// The words in order.
#[tactic(auto, unfolding(crate::specs::FormWords::form_words))]
fn all_forms() -> &'static [(&'static str, FormWord)]
    ensures { map (λ row. (row.0.now, row.1)) result.now ≡ form_words }
{
    &FORMS
}

// The form that a word stands for.
fn find_form(text: &str) -> Option<FormWord>
    ensures { result ≡ form_named text.now }
{
    form_in(all_forms(), text)
}

// What stands for a text in the first row that has it.
fn form_in(rows: &[(&str, FormWord)], text: &str) -> Option<FormWord>
    ensures { result ≡ option_map (λ row. row.1) (find (λ row. bytes_eq text.now row.0.now) rows.now) }
{
    rows.iter().find(|row| text == row.0).map(|row| row.1)
}

// The form that a value names.
pub(crate) fn read_form(value: &Value) -> Result<FormWord, Unread>
    ensures { result ≡ ok_or (option_and_then form_named (as_str (view value.now))) Unread.Shape }
{
    let text = value.as_str().ok_or(Unread::Shape)?;
    find_form(text).ok_or(Unread::Shape)
}
