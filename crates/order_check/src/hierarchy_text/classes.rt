//! The classes that some items spell, one after the other.

ghost use Rattle.order_check.specs.Below.{List, [], length, map, codes, true, Some, None, Err, is_some, IfOk, option_map, string_bytes, view, items_view};
ghost use Rattle.std.specs.Prelude.{◌≡◌, ◌+◌, ◌∷◌, ◌++◌};
ghost use Rattle.order_check.specs.HierarchyText.Spelled.{classes_after, first_class, key_of, plain_class, with_first};
ghost use Rattle.order_check.specs.HierarchyText.Items.{texts, class_at};

use crate::hierarchy_text::bases::read_bases;
use crate::hierarchy_text::parts::class_parts;
use crate::{Entry, Hierarchy};
use indexmap::IndexSet;
use script_text::json_text::Unread;
use serde_json::Value;
use std::alloc::{AllocError, Global};

// The name of the class that stands first.
const FIRST: &str = "object";

// The key of a class whose name is new. The name is then the last one.
fn new_key<'a>(names: &mut IndexSet<&'a str>, name: &'a str) -> Result<u64, Unread>
    ensures is_new { IfOk result (λ k. key_of (texts names.old.keys) name.now ≡ None) }
    ensures key { IfOk result (λ k. k ≡ length (texts names.old.keys)) }
    ensures named { IfOk result (λ k. texts names.new.keys ≡ texts names.old.keys ++ name.now ∷ []) }
    ensures shape { result ≡ Err Unread.Shape → is_some (key_of (texts names.old.keys) name.now) ≡ true }
{
    let (key, is_new) = names.insert_full(name)?;
    if !is_new {
        return Err(Unread::Shape);
    }
    Ok(key as u64)
}

// The class that an item spells. Its name is then the last one.
fn read_class<'a>(
    alloc: Global,
    names: &mut IndexSet<&'a str>,
    item: &'a Value,
) -> Result<Entry, Unread>
    ensures ok { IfOk result (λ e. class_at (texts names.old.keys) (view item.now) ≡ Some (plain_class e)) }
    ensures named { IfOk result (λ e. texts names.new.keys ≡ texts names.old.keys ++ string_bytes e.name ∷ []) }
    ensures shape { result ≡ Err Unread.Shape → class_at (texts names.old.keys) (view item.now) ≡ None }
{
    let (name, items) = class_parts(item)?;
    let bases = read_bases(alloc, names, items)?;
    let key = new_key(names, name)?;
    let name = String::from_str(alloc, name)?;
    Ok(Entry { key, name, bases })
}

// The class that stands first, which has no bases.
fn object(alloc: Global) -> Result<Entry, AllocError>
    ensures { IfOk result (λ e. plain_class e ≡ first_class) }
{
    Ok(Entry {
        key: 0,
        name: String::from_str(alloc, FIRST)?,
        bases: Vec::new(alloc),
    })
}

// The names before any item is read, with room for some.
fn first_names<'a>(alloc: Global, room: usize) -> Result<IndexSet<&'a str>, AllocError>
    ensures { IfOk result (λ names. texts names.keys ≡ codes "object" ∷ []) }
{
    let mut names = IndexSet::with_capacity(alloc, room)?;
    names.insert(FIRST)?;
    Ok(names)
}

// The classes before any item is read, with room for some.
fn first_entries(alloc: Global, room: usize) -> Result<Vec<Entry>, AllocError>
    ensures { IfOk result (λ v. map plain_class v.items ≡ first_class ∷ []) }
{
    let mut entries = Vec::with_capacity(alloc, room)?;
    entries.push(object(alloc)?)?;
    Ok(entries)
}

/// The classes that some items spell, after the one that stands first.
pub(crate) fn read_classes(alloc: Global, items: &[Value]) -> Result<Hierarchy, Unread>
    ensures ok { IfOk result (λ h. option_map with_first (classes_after (codes "object" ∷ []) (items_view items.now)) ≡ Some (map plain_class h.entries.items)) }
    ensures shape { result ≡ Err Unread.Shape → classes_after (codes "object" ∷ []) (items_view items.now) ≡ None }
{
    let room = items.len() + 1;
    let mut names = first_names(alloc, room)?;
    let mut entries = first_entries(alloc, room)?;
    for item in items {
        entries.push(read_class(alloc, &mut names, item)?)?;
    }
    Ok(Hierarchy { entries })
}
