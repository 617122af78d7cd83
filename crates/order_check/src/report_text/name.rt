//! The names of classes.

ghost use Rattle.order_check.specs.Below.{OnOk};
ghost use Rattle.std.specs.Prelude.{◌≡◌, ◌++◌};
ghost use Rattle.order_check.specs.Hierarchy.{AreKeyed};
ghost use Rattle.order_check.specs.ReportText.ReportText.{shown, order_shown};

use crate::{Entry, name_of};
use py_node::OutOfMemory;
use script_text::reply_text::escape::push_escaped;

// The name of the class with a key.
pub(crate) fn push_name(out: &mut Vec<u8>, entries: &[Entry], key: u64) -> Result<(), OutOfMemory>
    requires { AreKeyed entries.now }
    ensures { OnOk result (out.new.items ≡ out.old.items ++ shown entries.now key) }
{
    push_escaped(out, name_of(entries, key).as_bytes())
}

// The names of classes, with a comma and a blank between them.
pub(crate) fn push_names(
    out: &mut Vec<u8>,
    entries: &[Entry],
    keys: &[u64],
) -> Result<(), OutOfMemory>
    requires { AreKeyed entries.now }
    ensures { OnOk result (out.new.items ≡ out.old.items ++ order_shown (shown entries.now) keys.now) }
{
    if let [first, rest @ ..] = keys {
        push_name(out, entries, *first)?;
        for key in rest {
            out.extend_from_slice(b", ")?;
            push_name(out, entries, *key)?;
        }
    }
    Ok(())
}
