//! The sessions of callers who share a machine.

ghost use Rattle.script_text.specs.Below.{Some, None, IfOk, length, vec_len, All, view, items_view};
ghost use Rattle.std.specs.Prelude.{◌≡◌, ◌≤◌, ◌<◌};
ghost use Rattle.script_text.specs.declared.json_text.error.ScriptError.{ScriptError as Refusal};
ghost use Rattle.script_text.specs.Forms.{list_of};
ghost use Rattle.script_text.specs.Script.{command_trees};
ghost use Rattle.script_text.specs.Sessions.{sessions_of, sessions_by, sessions_in, lists_in, lacks_command, any_empty, is_empty_array, session_trees};

use crate::form_parts::list_items;
use crate::json_text::{ScriptError, ScriptFault, Unread, read_json};
use crate::read::read_each;
use py_node::Command;
use serde_json::Value;
use std::alloc::Global;

// A session has fewer commands.
const TOO_MANY: u64 = 4_294_967_295;

/// Reads an opening and 1 to 8 sessions: exactly the commands that the bytes spell. The first list is the opening, which
/// alone may be empty. One of 4,294,967,295 commands or more, for which no memory suffices, is refused as such.
#[tactic(auto, unfolding(crate::specs::Sessions::sessions_of, crate::specs::Sessions::sessions_told))]
pub fn read_sessions(alloc: Global, bytes: &[u8]) -> Result<Vec<Vec<Command>>, ScriptFault>
    ensures ok { IfOk result (λ v. sessions_of bytes.now ≡ Ok (session_trees v.items)) }
    ensures script { (e : Refusal) → result ≡ Err (ScriptFault.Script e) → sessions_of bytes.now ≡ Err e }
    ensures count { IfOk result (λ v. (2 ≤ vec_len v) × (vec_len v ≤ 9)) }
    ensures few { IfOk result (λ v. All (λ s. vec_len s < TOO_MANY) v.items) }
{
    let value = read_json(alloc, bytes)?;
    read_value(alloc, &value)
}

// The sessions that a value with no bad number spells.
#[tactic(auto, unfolding(crate::specs::Sessions::sessions_by))]
fn read_value(alloc: Global, value: &Value) -> Result<Vec<Vec<Command>>, ScriptFault>
    ensures ok { IfOk result (λ v. sessions_by (view value.now) ≡ Ok (session_trees v.items)) }
    ensures script { (e : Refusal) → result ≡ Err (ScriptFault.Script e) → sessions_by (view value.now) ≡ Err e }
    ensures count { IfOk result (λ v. (2 ≤ vec_len v) × (vec_len v ≤ 9)) }
    ensures few { IfOk result (λ v. All (λ s. vec_len s < TOO_MANY) v.items) }
{
    match value {
        Value::Array(items) => read_items(alloc, items.as_slice()),
        _ => Err(ScriptFault::Script(ScriptError::Shape)),
    }
}

#[tactic(auto, unfolding(crate::specs::Sessions::sessions_in))]
fn read_items(alloc: Global, items: &[Value]) -> Result<Vec<Vec<Command>>, ScriptFault>
    ensures ok { IfOk result (λ v. sessions_in (items_view items.now) ≡ Ok (session_trees v.items)) }
    ensures script { (e : Refusal) → result ≡ Err (ScriptFault.Script e) → sessions_in (items_view items.now) ≡ Err e }
    ensures count { IfOk result (λ v. (2 ≤ vec_len v) × (vec_len v ≤ 9)) }
    ensures few { IfOk result (λ v. All (λ s. vec_len s < TOO_MANY) v.items) }
{
    if lacks_command(items) {
        return Err(ScriptFault::Script(ScriptError::NoCommand));
    }
    if items.len() < 2 || 9 < items.len() {
        return Err(ScriptFault::Script(ScriptError::Shape));
    }
    let sessions = read_lists(alloc, items)?;
    Ok(sessions)
}

// The commands of each item.
#[tactic(auto, unfolding(crate::specs::Sessions::lists_in))]
fn read_lists(alloc: Global, items: &[Value]) -> Result<Vec<Vec<Command>>, Unread>
    ensures ok { IfOk result (λ v. lists_in (items_view items.now) ≡ Some (session_trees v.items)) }
    ensures shape { result ≡ Err Unread.Shape → lists_in (items_view items.now) ≡ None }
    ensures len { IfOk result (λ v. vec_len v ≡ length items.now) }
    ensures few { IfOk result (λ v. All (λ s. vec_len s < TOO_MANY) v.items) }
{
    let mut sessions = Vec::with_capacity(alloc, items.len())?;
    for item in items {
        sessions.push(read_list(alloc, item)?)?;
    }
    Ok(sessions)
}

// The commands of a list of expressions.
fn read_list(alloc: Global, value: &Value) -> Result<Vec<Command>, Unread>
    ensures ok { IfOk result (λ v. list_of (view value.now) ≡ Some (command_trees v.items)) }
    ensures shape { result ≡ Err Unread.Shape → list_of (view value.now) ≡ None }
    ensures few { IfOk result (λ v. vec_len v < TOO_MANY) }
{
    let values = list_items(value)?;
    let commands = read_each(alloc, values)?;
    few_enough(commands)
}

// The commands of a session that has fewer than too many.
fn few_enough(commands: Vec<Command>) -> Result<Vec<Command>, Unread>
    ensures ok { IfOk result (λ v. v ≡ commands) }
    ensures shape { result ≡ Err Unread.Shape → ⊥ }
    ensures few { IfOk result (λ v. vec_len v < TOO_MANY) }
{
    if (commands.len() as u64) < TOO_MANY {
        Ok(commands)
    } else {
        Err(Unread::OutOfMemory)
    }
}

// Whether an item past the first is an empty array.
#[tactic(auto, unfolding(crate::specs::Sessions::lacks_command))]
fn lacks_command(items: &[Value]) -> bool
    ensures { result ≡ lacks_command (items_view items.now) }
{
    match items.split_first() {
        Some((_, later)) => any_empty(later),
        None => false,
    }
}

// Whether one of the items is an empty array.
#[tactic(auto, unfolding(crate::specs::Sessions::any_empty))]
fn any_empty(items: &[Value]) -> bool
    ensures { result ≡ any_empty (items_view items.now) }
{
    for item in items {
        if is_empty_array(item) {
            return true;
        }
    }
    false
}

#[tactic(auto, unfolding(crate::specs::Sessions::is_empty_array))]
fn is_empty_array(value: &Value) -> bool
    ensures { result ≡ is_empty_array (view value.now) }
{
    match value {
        Value::Array(items) => items.is_empty(),
        _ => false,
    }
}
