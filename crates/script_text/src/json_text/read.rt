//! The JSON value of a text.

ghost use Rattle.script_text.specs.Below.{Some, None, IfOk, Ok, Err, view, items_view, members_view};
ghost use Rattle.std.specs.Prelude.{◌≡◌};
ghost use Rattle.script_text.specs.declared.json_text.error.ScriptError.{ScriptError as Refusal};
ghost use Rattle.script_text.specs.JsonText.Json.{json_of, value_of, has_bad_number, any_bad, any_bad_member};

use crate::json_text::error::{ScriptError, ScriptFault};
use py_node::OutOfMemory;
use serde_json::{Map, Value};
use std::alloc::Global;

/// The JSON value of a text in UTF-8, nested at most 127 deep, in which each number is an integer of 64 bits with its
/// sign. `NotJson` says that the text has no value, `Number` that it has one with another number.
#[tactic(auto, unfolding(crate::specs::JsonText::Json::json_of, crate::specs::JsonText::Json::checked))]
pub fn read_json(alloc: Global, bytes: &[u8]) -> Result<Value, ScriptFault>
    ensures ok { IfOk result (λ v. json_of bytes.now ≡ Ok (view v)) }
    ensures script { (e : Refusal) → result ≡ Err (ScriptFault.Script e) → json_of bytes.now ≡ Err e }
{
    let value = read_value(alloc, bytes)?;
    if has_bad_number(&value) {
        return Err(ScriptFault::Script(ScriptError::Number));
    }
    Ok(value)
}

// The JSON value of a text.
fn read_value(alloc: Global, bytes: &[u8]) -> Result<Value, ScriptFault>
    ensures ok { IfOk result (λ v. value_of bytes.now ≡ Some (view v)) }
    ensures script { (e : Refusal) → result ≡ Err (ScriptFault.Script e) → (e ≡ ScriptError.NotJson) ×
        (value_of bytes.now ≡ None) }
{
    match Value::from_slice(alloc, bytes) {
        Ok(value) => Ok(value),
        Err(e) => if e.is_memory() {
            Err(ScriptFault::OutOfMemory(OutOfMemory))
        } else {
            Err(ScriptFault::Script(ScriptError::NotJson))
        },
    }
}

// Whether a number in the value, however deep, is no integer of 64 bits.
#[tactic(auto, unfolding(crate::specs::JsonText::Json::has_bad_number))]
#[cycle(numbers)]
fn has_bad_number(value: &Value) -> bool
    ensures { result ≡ has_bad_number (view value.now) }
{
    match value {
        Value::Null | Value::Bool(_) | Value::String(_) => false,
        Value::Number(n) => !n.is_i64(),
        Value::Array(items) => any_bad(items.as_slice()),
        Value::Object(members) => any_bad_member(members),
    }
}

#[tactic(auto, unfolding(crate::specs::JsonText::Json::any_bad))]
#[cycle(numbers)]
fn any_bad(items: &[Value]) -> bool
    ensures { result ≡ any_bad (items_view items.now) }
{
    for item in items {
        if has_bad_number(item) {
            return true;
        }
    }
    false
}

#[tactic(auto, unfolding(crate::specs::JsonText::Json::any_bad_member))]
#[cycle(numbers)]
fn any_bad_member(members: &Map<String, Value>) -> bool
    ensures { result ≡ any_bad_member (members_view members.now.entries) }
{
    for (_, member) in members.iter() {
        if has_bad_number(member) {
            return true;
        }
    }
    false
}
