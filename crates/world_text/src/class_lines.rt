//! The lines of the classes that scripts made.

ghost use Rattle.world_text.specs.Below.{ℕ, true, IfOk, OnOk, codes, map, Some, flat_map, all_slots, escaped, joined, end_of_line, class_head, slots_head, slot_word, Includes, is_class, numbers_of, table_keys, numbers, slot_words, own_words, name_at, class_text, heap_text, classes_text, Reading, Reads, plain};
ghost use Rattle.std.specs.Prelude.{◌≡◌, ◌++◌};

use class_table::ClassTable;
use class_world::World;
use py_node::slots::slots;
use py_node::{OutOfMemory, PyTypeRef, SlotEntry, SlotId, Sort};
use script_text::reply_text::class::{
    push_class_head, push_class_member, push_end, push_slot, push_slots_head,
};
use std::alloc::Global;

/// The lines of the classes that scripts made in a world, in the order in which they were made: of each the names along
/// its linearisation, and its filled slots. Nothing else than want of memory is an error.
pub fn write_classes(alloc: Global, world: &World) -> Result<Vec<u8>, OutOfMemory>
    ensures { IfOk result (λ v. (t : Reading) → Reads t world.now → v.items ≡ classes_text (plain t world.now)) }
{
    let mut text = Vec::new(alloc);
    push_classes(&mut text, world)?;
    Ok(text)
}

/// Adds the lines of each class that a script made.
pub fn push_classes(out: &mut Vec<u8>, world: &World) -> Result<(), OutOfMemory>
    ensures { OnOk result ((t : Reading) → Reads t world.now → out.new.items ≡ out.old.items ++
        classes_text (plain t world.now)) }
{
    push_each(out, world.classes())?;
    Ok(())
}

// The lines of each class of a table that a script made.
fn push_each(out: &mut Vec<u8>, classes: &ClassTable) -> Result<(), OutOfMemory>
    ensures { OnOk result (out.new.items ≡ out.old.items ++
        flat_map (heap_text table_keys classes.now) (numbers_of classes.now)) }
{
    for place in 0..classes.len() {
        push_if_heap(out, classes, classes.number_at(place))?;
    }
    Ok(())
}

// The lines of a class, where a script made it.
fn push_if_heap(
    out: &mut Vec<u8>,
    classes: &ClassTable,
    class: PyTypeRef,
) -> Result<(), OutOfMemory>
    requires { is_class classes.now class.0 ≡ true }
    ensures { OnOk result (out.new.items ≡ out.old.items ++ heap_text table_keys classes.now class.0) }
{
    if classes.is_heap(class) {
        push_class(out, classes, class)
    } else {
        Ok(())
    }
}

// Both lines of a class.
fn push_class(out: &mut Vec<u8>, classes: &ClassTable, class: PyTypeRef) -> Result<(), OutOfMemory>
    requires { is_class classes.now class.0 ≡ true }
    ensures { OnOk result (out.new.items ≡ out.old.items ++ class_text table_keys classes.now class.0) }
{
    let name = classes.name(class);
    push_names(out, classes, name, classes.mro(class))?;
    push_slots(out, classes, name, class)?;
    Ok(())
}

// The line of a class of this name, with the names of some classes.
fn push_names(
    out: &mut Vec<u8>,
    classes: &ClassTable,
    name: &str,
    line: &[PyTypeRef],
) -> Result<(), OutOfMemory>
    requires { (c : ℕ) → Includes (numbers line.now) c → is_class classes.now c ≡ true }
    ensures { OnOk result (out.new.items ≡ out.old.items ++ class_head name.now ++
        joined (codes ", ") (map escaped (map (name_at classes.now) (numbers line.now))) ++ end_of_line) }
{
    push_class_head(out, name)?;
    push_members(out, classes, line)?;
    push_end(out)
}

// The line of the slots of a class of this name.
fn push_slots(
    out: &mut Vec<u8>,
    classes: &ClassTable,
    name: &str,
    class: PyTypeRef,
) -> Result<(), OutOfMemory>
    requires { is_class classes.now class.0 ≡ true }
    ensures { OnOk result (out.new.items ≡ out.old.items ++ slots_head name.now ++
        flat_map slot_word (own_words table_keys classes.now class.0 all_slots) ++ end_of_line) }
{
    push_slots_head(out, name)?;
    push_own_slots(out, classes, class, slots())?;
    push_end(out)
}

// The names of some classes.
fn push_members(
    out: &mut Vec<u8>,
    classes: &ClassTable,
    line: &[PyTypeRef],
) -> Result<(), OutOfMemory>
    requires { (c : ℕ) → Includes (numbers line.now) c → is_class classes.now c ≡ true }
    ensures { OnOk result (out.new.items ≡ out.old.items ++
        joined (codes ", ") (map escaped (map (name_at classes.now) (numbers line.now)))) }
{
    let mut is_first = true;
    for class in line {
        push_class_member(out, is_first, classes.name(*class))?;
        is_first = false;
    }
    Ok(())
}

// The words for those of some slots that a class has itself.
fn push_own_slots(
    out: &mut Vec<u8>,
    classes: &ClassTable,
    class: PyTypeRef,
    rows: &[(SlotId, &str, Sort)],
) -> Result<(), OutOfMemory>
    requires { is_class classes.now class.0 ≡ true }
    ensures { OnOk result (out.new.items ≡ out.old.items ++
        flat_map slot_word (own_words table_keys classes.now class.0 (map (λ r. r.0) rows.now))) }
{
    for row in rows {
        push_own_slot(out, row.0, classes.own_slot(class, row.0))?;
    }
    Ok(())
}

// The word for a slot, where it is filled.
fn push_own_slot(
    out: &mut Vec<u8>,
    slot: SlotId,
    entry: Option<SlotEntry>,
) -> Result<(), OutOfMemory>
    ensures { OnOk result (out.new.items ≡ out.old.items ++ flat_map slot_word (slot_words slot entry)) }
{
    match entry {
        None => Ok(()),
        Some(SlotEntry::Unhashable) => push_slot(out, "hash!"),
        Some(SlotEntry::Native(_) | SlotEntry::Wrapper(_)) => push_slot(out, slot.name()),
    }
}
