//! What a form takes: the values that it takes as they are, and those that spell expressions.

ghost use Rattle.script_text.specs.Below.{None, IfOk, IfErr, array, item, no_items, depth, items_depth, view, items_view};
ghost use Rattle.std.specs.Prelude.{◌≡◌, ◌≤◌, ◌<◌};
ghost use Rattle.script_text.specs.Forms.{array_of, attr_of, bind_of, body_of, call_of, class_of, delattr_of, entries_in, entry_of, exprs_of, func_of, if_of, keywords_of, list_of, name_of, op_of, pair_in, raise_of, setattr_of};
ghost use Rattle.script_text.specs.FormParts.{formed, parts_depth, parts_tree};

use crate::form_words::{FormWord, read_form};
use crate::json_text::items::{
    Unread, next, no_more, one, three, three_and_rest, two, two_and_rest,
};
use crate::words::{Arity, read_word};
use py_node::Word;
use serde_json::Value;

/// What stands beside one expression.
#[derive(Drop)]
pub(crate) enum Single<'a> {
    Bind(&'a Value),
    /// Whether the last parameter takes the rest, the name, and the parameters.
    Func(bool, &'a Value, &'a Value),
    Attr(&'a Value),
    DelAttr(&'a Value),
}

/// What expressions one after another are.
#[derive(Drop)]
pub(crate) enum Many {
    Tuple,
    List,
    Seq,
    Op(Word, Arity),
}

/// The parts of a form.
#[derive(Drop)]
pub(crate) enum Parts<'a> {
    Name(&'a Value),
    Raise(&'a Value),
    Single(Single<'a>, &'a Value),
    /// An object, the name of an attribute, and what it is set to.
    SetAttr(&'a Value, &'a Value, &'a Value),
    /// A condition, and what is evaluated where it is true and where it isn't.
    If(&'a Value, &'a Value, &'a Value),
    Many(Many, &'a [Value]),
    Dict(&'a [Value]),
    /// What is called, the arguments, and the keywords.
    Call(&'a Value, &'a [Value], &'a [Value]),
    /// A name, the bases, the entries of the body, and the keywords.
    Class(&'a Value, &'a [Value], &'a [Value], &'a [Value]),
}

/// The parts of the form that an array spells.
pub(crate) fn parts_of(items: &[Value]) -> Result<Parts<'_>, Unread>
    ensures ok { IfOk result (λ p. array_of (items_view items.now) ≡ parts_tree p) }
    ensures within { IfOk result (λ p. parts_depth p ≤ items_depth (items_view items.now)) }
    ensures shape { IfErr result (λ e. array_of (items_view items.now) ≡ None) }
{
    let (head, rest) = next(items)?;
    let form = read_form(head)?;
    parts_by(form, rest)
}

// The parts of a form of this word.
fn parts_by(form: FormWord, items: &[Value]) -> Result<Parts<'_>, Unread>
    ensures ok { IfOk result (λ p. formed form (items_view items.now) ≡ parts_tree p) }
    ensures within { IfOk result (λ p. parts_depth p ≤ items_depth (items_view items.now)) }
    ensures shape { IfErr result (λ e. formed form (items_view items.now) ≡ None) }
{
    match form {
        FormWord::Name => name_parts(items),
        FormWord::Bind => bind_parts(items),
        FormWord::Tuple => Ok(Parts::Many(Many::Tuple, items)),
        FormWord::List => Ok(Parts::Many(Many::List, items)),
        FormWord::Dict => Ok(Parts::Dict(items)),
        FormWord::Func => func_parts(false, items),
        FormWord::FuncRest => func_parts(true, items),
        FormWord::Attr => attr_parts(items),
        FormWord::SetAttr => setattr_parts(items),
        FormWord::DelAttr => delattr_parts(items),
        FormWord::Call => call_parts(items),
        FormWord::Op => op_parts(items),
        FormWord::If => if_parts(items),
        FormWord::Seq => Ok(Parts::Many(Many::Seq, items)),
        FormWord::Raise => raise_parts(items),
        FormWord::Class => class_parts(items),
    }
}

// A name.
#[tactic(auto, unfolding(crate::specs::Forms::name_of))]
fn name_parts(items: &[Value]) -> Result<Parts<'_>, Unread>
    ensures ok { IfOk result (λ p. name_of (items_view items.now) ≡ parts_tree p) }
    ensures within { IfOk result (λ p. parts_depth p ≤ items_depth (items_view items.now)) }
    ensures shape { IfErr result (λ e. name_of (items_view items.now) ≡ None) }
{
    let name = one(items)?;
    Ok(Parts::Name(name))
}

// A name, and the expression that it is bound to.
#[tactic(auto, unfolding(crate::specs::Forms::bind_of))]
fn bind_parts(items: &[Value]) -> Result<Parts<'_>, Unread>
    ensures ok { IfOk result (λ p. bind_of (items_view items.now) ≡ parts_tree p) }
    ensures within { IfOk result (λ p. parts_depth p ≤ items_depth (items_view items.now)) }
    ensures shape { IfErr result (λ e. bind_of (items_view items.now) ≡ None) }
{
    let (name, value) = two(items)?;
    Ok(Parts::Single(Single::Bind(name), value))
}

// A name, the parameters, of which the last one may take the rest of the arguments, and the body.
#[tactic(auto, unfolding(crate::specs::Forms::func_of))]
fn func_parts(rest: bool, items: &[Value]) -> Result<Parts<'_>, Unread>
    ensures ok { IfOk result (λ p. func_of rest (items_view items.now) ≡ parts_tree p) }
    ensures within { IfOk result (λ p. parts_depth p ≤ items_depth (items_view items.now)) }
    ensures shape { IfErr result (λ e. func_of rest (items_view items.now) ≡ None) }
{
    let (name, params, body) = three(items)?;
    Ok(Parts::Single(Single::Func(rest, name, params), body))
}

// An object, and the name of an attribute.
#[tactic(auto, unfolding(crate::specs::Forms::attr_of))]
fn attr_parts(items: &[Value]) -> Result<Parts<'_>, Unread>
    ensures ok { IfOk result (λ p. attr_of (items_view items.now) ≡ parts_tree p) }
    ensures within { IfOk result (λ p. parts_depth p ≤ items_depth (items_view items.now)) }
    ensures shape { IfErr result (λ e. attr_of (items_view items.now) ≡ None) }
{
    let (object, name) = two(items)?;
    Ok(Parts::Single(Single::Attr(name), object))
}

// An object, the name of an attribute, and what it is set to.
#[tactic(auto, unfolding(crate::specs::Forms::setattr_of))]
fn setattr_parts(items: &[Value]) -> Result<Parts<'_>, Unread>
    ensures ok { IfOk result (λ p. setattr_of (items_view items.now) ≡ parts_tree p) }
    ensures within { IfOk result (λ p. parts_depth p ≤ items_depth (items_view items.now)) }
    ensures shape { IfErr result (λ e. setattr_of (items_view items.now) ≡ None) }
{
    let (object, name, value) = three(items)?;
    Ok(Parts::SetAttr(object, name, value))
}

// An object, and the name of an attribute that is taken out.
#[tactic(auto, unfolding(crate::specs::Forms::delattr_of))]
fn delattr_parts(items: &[Value]) -> Result<Parts<'_>, Unread>
    ensures ok { IfOk result (λ p. delattr_of (items_view items.now) ≡ parts_tree p) }
    ensures within { IfOk result (λ p. parts_depth p ≤ items_depth (items_view items.now)) }
    ensures shape { IfErr result (λ e. delattr_of (items_view items.now) ≡ None) }
{
    let (object, name) = two(items)?;
    Ok(Parts::Single(Single::DelAttr(name), object))
}

// What is called, the arguments, and the keywords.
#[tactic(auto, unfolding(crate::specs::Forms::call_of))]
fn call_parts(items: &[Value]) -> Result<Parts<'_>, Unread>
    ensures ok { IfOk result (λ p. call_of (items_view items.now) ≡ parts_tree p) }
    ensures within { IfOk result (λ p. parts_depth p ≤ items_depth (items_view items.now)) }
    ensures shape { IfErr result (λ e. call_of (items_view items.now) ≡ None) }
{
    let (callee, list, rest) = two_and_rest(items)?;
    let args = list_items(list)?;
    let keywords = keyword_items(rest)?;
    Ok(Parts::Call(callee, args, keywords))
}

// The word of an operation, and its operands.
#[tactic(auto, unfolding(crate::specs::Forms::op_of))]
fn op_parts(items: &[Value]) -> Result<Parts<'_>, Unread>
    ensures ok { IfOk result (λ p. op_of (items_view items.now) ≡ parts_tree p) }
    ensures within { IfOk result (λ p. parts_depth p ≤ items_depth (items_view items.now)) }
    ensures shape { IfErr result (λ e. op_of (items_view items.now) ≡ None) }
{
    let (head, rest) = next(items)?;
    let (word, arity) = read_word(head)?;
    Ok(Parts::Many(Many::Op(word, arity), rest))
}

// A condition, and what is evaluated where it is true and where it isn't.
#[tactic(auto, unfolding(crate::specs::Forms::if_of))]
fn if_parts(items: &[Value]) -> Result<Parts<'_>, Unread>
    ensures ok { IfOk result (λ p. if_of (items_view items.now) ≡ parts_tree p) }
    ensures within { IfOk result (λ p. parts_depth p ≤ items_depth (items_view items.now)) }
    ensures shape { IfErr result (λ e. if_of (items_view items.now) ≡ None) }
{
    let (condition, first, second) = three(items)?;
    Ok(Parts::If(condition, first, second))
}

// The kind of the fault.
#[tactic(auto, unfolding(crate::specs::Forms::raise_of))]
fn raise_parts(items: &[Value]) -> Result<Parts<'_>, Unread>
    ensures ok { IfOk result (λ p. raise_of (items_view items.now) ≡ parts_tree p) }
    ensures within { IfOk result (λ p. parts_depth p ≤ items_depth (items_view items.now)) }
    ensures shape { IfErr result (λ e. raise_of (items_view items.now) ≡ None) }
{
    let word = one(items)?;
    Ok(Parts::Raise(word))
}

// A name, the bases, the entries of the body, and the keywords.
#[tactic(auto, unfolding(crate::specs::Forms::class_of))]
fn class_parts(items: &[Value]) -> Result<Parts<'_>, Unread>
    ensures ok { IfOk result (λ p. class_of (items_view items.now) ≡ parts_tree p) }
    ensures within { IfOk result (λ p. parts_depth p ≤ items_depth (items_view items.now)) }
    ensures shape { IfErr result (λ e. class_of (items_view items.now) ≡ None) }
{
    let (name, base_list, entry_list, rest) = three_and_rest(items)?;
    let bases = list_items(base_list)?;
    let entries = list_items(entry_list)?;
    let keywords = keyword_items(rest)?;
    Ok(Parts::Class(name, bases, entries, keywords))
}

/// The items of a list, of expressions or of entries.
#[tactic(auto, unfolding(crate::specs::Forms::list_of, crate::specs::Forms::body_of))]
pub(crate) fn list_items(value: &Value) -> Result<&[Value], Unread>
    ensures list { IfOk result (λ s. list_of (view value.now) ≡ exprs_of (items_view s.now)) }
    ensures body { IfOk result (λ s. body_of (view value.now) ≡ entries_in (items_view s.now)) }
    ensures within { IfOk result (λ s. items_depth (items_view s.now) ≤ depth (view value.now)) }
    ensures no_list { IfErr result (λ e. list_of (view value.now) ≡ None) }
    ensures no_body { IfErr result (λ e. body_of (view value.now) ≡ None) }
{
    match value {
        Value::Array(items) => Ok(items.as_slice()),
        _ => Err(Unread::Shape),
    }
}

// Nothing more, or a list of keywords.
#[tactic(auto, unfolding(crate::specs::Forms::keywords_of, crate::specs::Forms::entries_in))]
fn keyword_items(items: &[Value]) -> Result<&[Value], Unread>
    ensures ok { IfOk result (λ s. keywords_of (items_view items.now) ≡ entries_in (items_view s.now)) }
    ensures within { IfOk result (λ s. items_depth (items_view s.now) ≤ items_depth (items_view items.now)) }
    ensures shape { IfErr result (λ e. keywords_of (items_view items.now) ≡ None) }
{
    let Some((list, rest)) = items.split_first() else {
        return Ok(items);
    };
    no_more(rest)?;
    list_items(list)
}

/// The two items of a pair: a key and a value, or a name and an expression.
#[tactic(auto, unfolding(crate::specs::Forms::pair_in, crate::specs::Forms::paired_of, crate::specs::Forms::entry_of, crate::specs::Forms::named_of))]
pub(crate) fn pair_items(value: &Value) -> Result<(&Value, &Value), Unread>
    ensures ok { IfOk result (λ p. view value.now ≡ array (item (view p.0.now) (item (view p.1.now) no_items))) }
    ensures no_pair { IfErr result (λ e. pair_in (view value.now) ≡ None) }
    ensures no_entry { IfErr result (λ e. entry_of (view value.now) ≡ None) }
{
    match value {
        Value::Array(items) => two(items.as_slice()),
        _ => Err(Unread::Shape),
    }
}
