//! The classes that a text spells.

ghost use Rattle.order_check.specs.Below.{IfOk, Ok, Err, map, view, items_view, ScriptError as Refusal};
ghost use Rattle.std.specs.Prelude.{◌≡◌};
ghost use Rattle.order_check.specs.Hierarchy.{IsInOrder};
ghost use Rattle.order_check.specs.HierarchyText.Spelled.{hierarchy_of, classes_in, classes_of, plain_class};

use crate::Hierarchy;
use crate::hierarchy_text::classes::read_classes;
use script_text::json_text::{ScriptError, ScriptFault, read_json};
use serde_json::Value;
use std::alloc::Global;

/// Reads a hierarchy: exactly the classes that the bytes spell, after the class `object`, which has the key 0. The others
/// count on in the order of the text. A class without bases derives from `object`.
#[tactic(auto, unfolding(crate::specs::HierarchyText::Spelled::hierarchy_of, crate::specs::HierarchyText::Spelled::spelled_by))]
pub fn read_hierarchy(alloc: Global, bytes: &[u8]) -> Result<Hierarchy, ScriptFault>
    ensures ok { IfOk result (λ h. hierarchy_of bytes.now ≡ Ok (map plain_class h.entries.items)) }
    ensures order { IfOk result (λ h. IsInOrder h.entries.items) }
    ensures script { (e : Refusal) → result ≡ Err (ScriptFault.Script e) → hierarchy_of bytes.now ≡ Err e }
{
    let value = read_json(alloc, bytes)?;
    read_value(alloc, &value)
}

// The classes that a value with no bad number spells.
#[tactic(auto, unfolding(crate::specs::HierarchyText::Spelled::classes_of))]
fn read_value(alloc: Global, value: &Value) -> Result<Hierarchy, ScriptFault>
    ensures ok { IfOk result (λ h. classes_of (view value.now) ≡ Ok (map plain_class h.entries.items)) }
    ensures script { (e : Refusal) → result ≡ Err (ScriptFault.Script e) → classes_of (view value.now) ≡ Err e }
{
    match value {
        Value::Array(items) => read_items(alloc, items.as_slice()),
        _ => Err(ScriptFault::Script(ScriptError::Shape)),
    }
}

// At least one class beside the first.
#[tactic(auto, unfolding(crate::specs::HierarchyText::Spelled::classes_in))]
fn read_items(alloc: Global, items: &[Value]) -> Result<Hierarchy, ScriptFault>
    ensures ok { IfOk result (λ h. classes_in (items_view items.now) ≡ Ok (map plain_class h.entries.items)) }
    ensures script { (e : Refusal) → result ≡ Err (ScriptFault.Script e) → classes_in (items_view items.now) ≡ Err e }
{
    let Some(_) = items.split_first() else {
        return Err(ScriptFault::Script(ScriptError::NoCommand));
    };
    let hierarchy = read_classes(alloc, items)?;
    Ok(hierarchy)
}
