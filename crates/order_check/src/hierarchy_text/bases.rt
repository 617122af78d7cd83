//! The bases of a class, by their keys.

ghost use Rattle.order_check.specs.Below.{Some, None, Err, IfOk, IfErr, option_map, view, items_view};
ghost use Rattle.std.specs.Prelude.{◌≡◌};
ghost use Rattle.order_check.specs.HierarchyText.Spelled.{or_first};
ghost use Rattle.order_check.specs.HierarchyText.Items.{texts, base_key, base_keys};

use indexmap::IndexSet;
use script_text::json_text::Unread;
use serde_json::Value;
use std::alloc::{AllocError, Global};

// The key of the class `object`, which stands first.
const OBJECT: u64 = 0;

// The key of the class that an item names: the place of its name.
fn base_key(names: &IndexSet<&str>, item: &Value) -> Result<u64, Unread>
    ensures ok { IfOk result (λ k. base_key (texts names.now.keys) (view item.now) ≡ Some k) }
    ensures shape { IfErr result (λ e. base_key (texts names.now.keys) (view item.now) ≡ None) }
{
    let name = item.as_str().ok_or(Unread::Shape)?;
    let key = names.get_index_of(name).ok_or(Unread::Shape)?;
    Ok(key as u64)
}

// The keys of the classes that some items name.
fn base_keys(alloc: Global, names: &IndexSet<&str>, items: &[Value]) -> Result<Vec<u64>, Unread>
    ensures ok { IfOk result (λ v. base_keys (texts names.now.keys) (items_view items.now) ≡ Some v.items) }
    ensures shape { result ≡ Err Unread.Shape → base_keys (texts names.now.keys) (items_view items.now) ≡ None }
{
    let mut keys = Vec::with_capacity(alloc, items.len())?;
    for item in items {
        keys.push(base_key(names, item)?)?;
    }
    Ok(keys)
}

// The bases of a class: `object`, where it names none.
fn or_object(mut bases: Vec<u64>) -> Result<Vec<u64>, AllocError>
    ensures { IfOk result (λ v. v.items ≡ or_first bases.items) }
{
    if bases.is_empty() {
        bases.push(OBJECT)?;
    }
    Ok(bases)
}

/// The keys of the bases that some items name. A class that names none derives from `object`.
pub(crate) fn read_bases(
    alloc: Global,
    names: &IndexSet<&str>,
    items: &[Value],
) -> Result<Vec<u64>, Unread>
    ensures ok { IfOk result (λ v. option_map or_first (base_keys (texts names.now.keys) (items_view items.now)) ≡ Some v.items) }
    ensures shape { result ≡ Err Unread.Shape → base_keys (texts names.now.keys) (items_view items.now) ≡ None }
{
    let keys = base_keys(alloc, names, items)?;
    let bases = or_object(keys)?;
    Ok(bases)
}
