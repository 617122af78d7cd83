//! The parts of a class as it is spelled.

ghost use Rattle.order_check.specs.Below.{None, IfOk, IfErr, option_map, array, view, items_view, texts_in};
ghost use Rattle.std.specs.Prelude.{◌≡◌};
ghost use Rattle.order_check.specs.HierarchyText.Spelled.{names_of, named, named_of};

use script_text::json_text::Unread;
use script_text::json_text::items::two;
use serde_json::Value;

// The items of an array.
fn array_items(value: &Value) -> Result<&[Value], Unread>
    ensures ok { IfOk result (λ s. view value.now ≡ array (items_view s.now)) }
    ensures no_names { IfErr result (λ e. names_of (view value.now) ≡ None) }
    ensures no_class { IfErr result (λ e. named_of (view value.now) ≡ None) }
{
    match value {
        Value::Array(items) => Ok(items.as_slice()),
        _ => Err(Unread::Shape),
    }
}

/// The name of a class, and the items that name its bases.
pub(crate) fn class_parts(value: &Value) -> Result<(&str, &[Value]), Unread>
    ensures ok { IfOk result (λ p. named_of (view value.now) ≡ option_map (named p.0.now) (texts_in (items_view p.1.now))) }
    ensures shape { IfErr result (λ e. named_of (view value.now) ≡ None) }
{
    let items = array_items(value)?;
    let (name, bases) = two(items)?;
    let name = name.as_str().ok_or(Unread::Shape)?;
    let bases = array_items(bases)?;
    Ok((name, bases))
}
