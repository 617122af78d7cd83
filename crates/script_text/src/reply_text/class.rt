//! The lines of classes, whole or piece by piece.

ghost use Rattle.script_text.specs.Below.{map, codes, OnOk, flat_map, escaped, joined, end_of_line, class_head, class_member, slots_head, slot_word, class_lines};
ghost use Rattle.std.specs.Prelude.{◌≡◌, ◌++◌};

use crate::reply_text::escape::push_escaped;
use py_node::OutOfMemory;

/// Adds both lines of a class: the names along its linearisation, and its filled slots.
pub fn push_class_lines(
    out: &mut Vec<u8>,
    name: &str,
    line: &[&str],
    slots: &[&str],
) -> Result<(), OutOfMemory>
    ensures { OnOk result (out.new.items ≡ out.old.items ++
        class_lines name.now (map (λ s. s.now) line.now) (map (λ s. s.now) slots.now)) }
{
    push_class_head(out, name)?;
    push_class_members(out, line)?;
    push_end(out)?;
    push_slots_head(out, name)?;
    for slot in slots {
        push_slot(out, *slot)?;
    }
    push_end(out)
}

/// Begins the line of a class.
pub fn push_class_head(out: &mut Vec<u8>, name: &str) -> Result<(), OutOfMemory>
    ensures { OnOk result (out.new.items ≡ out.old.items ++ class_head name.now) }
{
    out.extend_from_slice(b"class ")?;
    push_escaped(out, name.as_bytes())?;
    out.extend_from_slice(b": ")?;
    Ok(())
}

/// Adds a name along a linearisation.
pub fn push_class_member(out: &mut Vec<u8>, is_first: bool, name: &str) -> Result<(), OutOfMemory>
    ensures { OnOk result (out.new.items ≡ out.old.items ++ class_member is_first name.now) }
{
    if !is_first {
        out.extend_from_slice(b", ")?;
    }
    push_escaped(out, name.as_bytes())
}

/// Begins the line of a class's slots.
pub fn push_slots_head(out: &mut Vec<u8>, name: &str) -> Result<(), OutOfMemory>
    ensures { OnOk result (out.new.items ≡ out.old.items ++ slots_head name.now) }
{
    out.extend_from_slice(b"slots ")?;
    push_escaped(out, name.as_bytes())?;
    out.extend_from_slice(b":")?;
    Ok(())
}

/// Adds a filled slot, by its printed name.
pub fn push_slot(out: &mut Vec<u8>, slot: &str) -> Result<(), OutOfMemory>
    ensures { OnOk result (out.new.items ≡ out.old.items ++ slot_word slot.now) }
{
    out.extend_from_slice(b" ")?;
    out.extend_from_slice(slot.as_bytes())?;
    Ok(())
}

/// Ends a line.
pub fn push_end(out: &mut Vec<u8>) -> Result<(), OutOfMemory>
    ensures { OnOk result (out.new.items ≡ out.old.items ++ end_of_line) }
{
    out.push(b'\n')?;
    Ok(())
}

// The names along a linearisation.
fn push_class_members(out: &mut Vec<u8>, line: &[&str]) -> Result<(), OutOfMemory>
    ensures { OnOk result (out.new.items ≡ out.old.items ++
        joined (codes ", ") (map escaped (map (λ s. s.now) line.now))) }
{
    let mut is_first = true;
    for name in line {
        push_class_member(out, is_first, *name)?;
        is_first = false;
    }
    Ok(())
}
