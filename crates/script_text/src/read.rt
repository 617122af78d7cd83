//! The commands of a script.

ghost use Rattle.script_text.specs.Below.{Some, None, Err, IfOk, view, items_view};
ghost use Rattle.std.specs.Prelude.{◌≡◌};
ghost use Rattle.script_text.specs.declared.json_text.error.ScriptError.{ScriptError as Refusal};
ghost use Rattle.script_text.specs.Forms.{exprs_of};
ghost use Rattle.script_text.specs.Script.{script_of, commands_of, commands_in, command_trees};

use crate::forms::read_expr;
use crate::json_text::{ScriptError, ScriptFault, Unread, read_json};
use py_node::Command;
use serde_json::Value;
use std::alloc::Global;

/// Reads a script: exactly the commands that the bytes spell.
#[tactic(auto, unfolding(crate::specs::Script::script_of, crate::specs::Script::told_by))]
pub fn read_script(alloc: Global, bytes: &[u8]) -> Result<Vec<Command>, ScriptFault>
    ensures ok { IfOk result (λ v. script_of bytes.now ≡ Ok (command_trees v.items)) }
    ensures script { (e : Refusal) → result ≡ Err (ScriptFault.Script e) → script_of bytes.now ≡ Err e }
{
    let value = read_json(alloc, bytes)?;
    read_commands(alloc, &value)
}

// The commands that a value with no bad number spells.
#[tactic(auto, unfolding(crate::specs::Script::commands_of))]
fn read_commands(alloc: Global, value: &Value) -> Result<Vec<Command>, ScriptFault>
    ensures ok { IfOk result (λ v. commands_of (view value.now) ≡ Ok (command_trees v.items)) }
    ensures script { (e : Refusal) → result ≡ Err (ScriptFault.Script e) → commands_of (view value.now) ≡ Err e }
{
    match value {
        Value::Array(items) => read_items(alloc, items.as_slice()),
        _ => Err(ScriptFault::Script(ScriptError::Shape)),
    }
}

#[tactic(auto, unfolding(crate::specs::Script::commands_in))]
fn read_items(alloc: Global, items: &[Value]) -> Result<Vec<Command>, ScriptFault>
    ensures ok { IfOk result (λ v. commands_in (items_view items.now) ≡ Ok (command_trees v.items)) }
    ensures script { (e : Refusal) → result ≡ Err (ScriptFault.Script e) → commands_in (items_view items.now) ≡ Err e }
{
    let Some(_) = items.split_first() else {
        return Err(ScriptFault::Script(ScriptError::NoCommand));
    };
    let commands = read_each(alloc, items)?;
    Ok(commands)
}

/// The commands that values spell: each expression is one.
#[tactic(auto, unfolding(crate::specs::Forms::exprs_of))]
pub(crate) fn read_each(alloc: Global, items: &[Value]) -> Result<Vec<Command>, Unread>
    ensures ok { IfOk result (λ v. exprs_of (items_view items.now) ≡ Some (command_trees v.items)) }
    ensures shape { result ≡ Err Unread.Shape → exprs_of (items_view items.now) ≡ None }
{
    let mut commands = Vec::with_capacity(alloc, items.len())?;
    for item in items {
        commands.push(Command {
            expr: read_expr(alloc, item)?,
        })?;
    }
    Ok(commands)
}
