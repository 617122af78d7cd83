//! The pairs of a cycle.

ghost use Rattle.order_check.specs.Below.{OnOk};
ghost use Rattle.std.specs.Prelude.{◌≡◌, ◌++◌};
ghost use Rattle.order_check.specs.Hierarchy.{AreKeyed};
ghost use Rattle.order_check.specs.ReportText.ReportText.{shown, list_shown, pair_shown, cycle_shown};

use crate::report_text::name::push_name;
use crate::{Entry, Pair};
use py_node::OutOfMemory;

// The pairs of a cycle, with a semicolon and a blank between them.
pub(crate) fn push_pairs(
    out: &mut Vec<u8>,
    entries: &[Entry],
    pairs: &[Pair],
) -> Result<(), OutOfMemory>
    requires { AreKeyed entries.now }
    ensures { OnOk result (out.new.items ≡ out.old.items ++ cycle_shown (shown entries.now) pairs.now) }
{
    if let [first, rest @ ..] = pairs {
        push_pair(out, entries, first)?;
        for pair in rest {
            out.extend_from_slice(b"; ")?;
            push_pair(out, entries, pair)?;
        }
    }
    Ok(())
}

// One class before another, and the list that has them so.
fn push_pair(out: &mut Vec<u8>, entries: &[Entry], pair: &Pair) -> Result<(), OutOfMemory>
    requires { AreKeyed entries.now }
    ensures { OnOk result (out.new.items ≡ out.old.items ++ pair_shown (shown entries.now) pair.now) }
{
    push_name(out, entries, pair.first)?;
    out.extend_from_slice(b" < ")?;
    push_name(out, entries, pair.second)?;
    out.extend_from_slice(b" in ")?;
    push_list(out, entries, pair.list)
}

// A list of a class's constraints: the linearisation of a base, by its name, or the list of bases.
fn push_list(out: &mut Vec<u8>, entries: &[Entry], list: Option<u64>) -> Result<(), OutOfMemory>
    requires { AreKeyed entries.now }
    ensures { OnOk result (out.new.items ≡ out.old.items ++ list_shown (shown entries.now) list) }
{
    match list {
        None => {
            out.extend_from_slice(b"bases")?;
            Ok(())
        }
        Some(base) => push_name(out, entries, base),
    }
}
