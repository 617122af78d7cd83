//! The strings of a list.

ghost use Rattle.script_text.specs.Below.{Some, None, Err, IfOk, string_bytes, as_str, view, items_view, texts_of};
ghost use Rattle.std.specs.Prelude.{◌≡◌};
ghost use Rattle.script_text.specs.JsonText.Texts.{texts_in};

use crate::json_text::items::Unread;
use serde_json::Value;
use std::alloc::Global;

/// A copy of a string.
pub fn read_text(alloc: Global, value: &Value) -> Result<String, Unread>
    ensures ok { IfOk result (λ s. as_str (view value.now) ≡ Some (string_bytes s)) }
    ensures shape { result ≡ Err Unread.Shape → as_str (view value.now) ≡ None }
{
    let text = value.as_str().ok_or(Unread::Shape)?;
    Ok(String::from_str(alloc, text)?)
}

/// The strings of a list.
pub fn read_texts(alloc: Global, items: &[Value]) -> Result<Vec<String>, Unread>
    ensures ok { IfOk result (λ v. texts_in (items_view items.now) ≡ Some (texts_of v.items)) }
    ensures shape { result ≡ Err Unread.Shape → texts_in (items_view items.now) ≡ None }
{
    let mut found = Vec::with_capacity(alloc, items.len())?;
    for item in items {
        found.push(read_text(alloc, item)?)?;
    }
    Ok(found)
}
