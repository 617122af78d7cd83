//! Changes, made to a table of classes.

ghost use Rattle.class_table.specs.Below.{true, IfOk, OnOk, OnErr, is_class, limit, heap_class, has_dict, with_class, with_bases};
ghost use Rattle.std.specs.Prelude.{◌≡◌, ◌≤◌};
ghost use Rattle.class_table.specs.Keys.{numbers, slot_names, table_keys};
ghost use Rattle.class_table.specs.OneBase.{refused_single, single_class, static_flags, says_so};
ghost use Rattle.class_table.specs.Rebase.{told, refused_rebase};
ghost use Rattle.class_table.specs.Refused.{AreThere, WithMemory, refusal, refused_bases, NamesNoClass};
ghost use Rattle.class_table.specs.ClassLog.Change.{change_of, made_of};
ghost use Rattle.class_table.specs.ClassLog.Shown.{changed, made_class};
ghost use Rattle.class_table.specs.ClassLog.Refused.{CanBeMade, IsFit, refused, refused_made};

use crate::class_log::change::{ClassChange, copy_slots};
use crate::{ClassFault, ClassTable, Steps};
use py_node::{OutOfMemory, PyAttributes, PyStrInterned, PyTypeFlags, PyTypeRef};
use std::alloc::Global;
use std::marker::Brand;
use std::sync::ledger::{Blank, Ledger};

// What a class has that a script makes, copied.
struct Parts {
    bases: Vec<PyTypeRef>,
    attrs: PyAttributes,
    slots: Option<Vec<PyStrInterned>>,
}

fn copy_parts(
    alloc: Global,
    bases: &[PyTypeRef],
    attrs: &PyAttributes,
    slots: &Option<Vec<PyStrInterned>>,
) -> Result<Parts, OutOfMemory>
    ensures bases { IfOk result (λ p. p.bases.items ≡ bases.now) }
    ensures attrs { IfOk result (λ p. p.attrs ≡ attrs.now) }
    ensures slots { IfOk result (λ p. slot_names p.slots ≡ slot_names slots.now) }
{
    Ok(Parts {
        bases: Vec::from_slice(alloc, bases)?,
        attrs: attrs.try_clone(alloc)?,
        slots: copy_slots(alloc, slots)?,
    })
}

// A class that a script makes.
fn make_heap(
    classes: &mut ClassTable,
    alloc: Global,
    number: PyTypeRef,
    name: &str,
    bases: &[PyTypeRef],
    attrs: &PyAttributes,
    slots: &Option<Vec<PyStrInterned>>,
) -> Result<(), ClassFault>
    requires bases { AreThere classes.old (numbers bases.now) }
    requires fresh { limit classes.old ≤ number.0 }
    ensures added { OnOk result (classes.new ≡ with_class classes.old
        (heap_class table_keys classes.old name.now number.0 (numbers bases.now) attrs.now (slot_names slots.now))) }
    ensures refused { WithMemory result (refusal result ≡ refused_bases classes.old (numbers bases.now)) }
    ensures err { OnErr result (classes.new ≡ classes.old) }
    ensures names { NamesNoClass result }
{
    let Ok(parts) = copy_parts(alloc, bases, attrs, slots) else {
        return Err(ClassFault::OutOfMemory);
    };
    let Parts {
        bases,
        attrs,
        slots,
    } = parts;
    match classes.new_heap_slots(number, name, bases, attrs, slots) {
        Ok(_) => Ok(()),
        Err(fault) => Err(fault),
    }
}

// A static class.
fn make_static(
    classes: &mut ClassTable,
    alloc: Global,
    number: PyTypeRef,
    name: &str,
    base: PyTypeRef,
    attrs: &PyAttributes,
    flags: PyTypeFlags,
) -> Result<(), ClassFault>
    requires base { is_class classes.old base.0 ≡ true }
    requires fresh { limit classes.old ≤ number.0 }
    ensures added { OnOk result (classes.new ≡ with_class classes.old (single_class name.now number.0 base.0 attrs.now
        (static_flags flags.0 (has_dict classes.old base.0)) (says_so flags.0))) }
    ensures refused { WithMemory result (refusal result ≡ refused_single classes.old base.0) }
    ensures err { OnErr result (classes.new ≡ classes.old) }
    ensures names { NamesNoClass result }
{
    let Ok(attrs) = attrs.try_clone(alloc) else {
        return Err(ClassFault::OutOfMemory);
    };
    match classes.new_static(number, name, base, attrs, flags) {
        Ok(_) => Ok(()),
        Err(fault) => Err(fault),
    }
}

// A class is made: by a script where its flags say so, and else as a static one.
fn make(
    classes: &mut ClassTable,
    alloc: Global,
    class: PyTypeRef,
    name: &str,
    bases: &[PyTypeRef],
    attrs: &PyAttributes,
    slots: &Option<Vec<PyStrInterned>>,
    flags: PyTypeFlags,
) -> Result<(), ClassFault>
    requires { CanBeMade classes.old (made_of class name.now bases.now attrs.now slots.now flags) }
    ensures added { OnOk result (classes.new ≡ with_class classes.old
        (made_class classes.old (made_of class name.now bases.now attrs.now slots.now flags))) }
    ensures refused { WithMemory result (refusal result ≡
        refused_made classes.old (made_of class name.now bases.now attrs.now slots.now flags)) }
    ensures err { OnErr result (classes.new ≡ classes.old) }
    ensures names { NamesNoClass result }
{
    if flags.has_feature(PyTypeFlags::HEAPTYPE) {
        make_heap(classes, alloc, class, name, bases, attrs, slots)
    } else {
        match bases {
            [] => unreachable!(),
            [base, ..] => make_static(classes, alloc, class, name, *base, attrs, flags),
        }
    }
}

// A class gets other bases. Its steps are counted for nobody.
fn rebase<L: Ledger>(
    classes: &mut ClassTable,
    alloc: Global,
    class: PyTypeRef,
    bases: &[PyTypeRef],
    blank: Blank,
) -> Result<(), ClassFault>
    requires class { is_class classes.old class.0 ≡ true }
    requires bases { AreThere classes.old (numbers bases.now) }
    requires name { blank.name ≡ L.name }
    requires parts { blank.parts ≡ L.parts }
    requires both { 2 ≤ L.parts }
    ensures set { OnOk result (classes.new ≡ with_bases classes.old class.0 (numbers bases.now)) }
    ensures refused { WithMemory result (told result ≡ refused_rebase classes.old class.0 (numbers bases.now)) }
    ensures err { OnErr result (classes.new ≡ classes.old) }
{
    let Ok(bases) = Vec::from_slice(alloc, bases) else {
        return Err(ClassFault::OutOfMemory);
    };
    let mut steps = Steps::<L>::new(blank);
    classes.set_bases(class, bases, &mut steps)
}

// A change is made. Where it is refused or memory runs out, the table stays as it was.
pub(crate) fn apply(
    classes: &mut ClassTable,
    alloc: Global,
    change: &ClassChange,
) -> Result<(), ClassFault>
    requires { IsFit classes.old (change_of change.now) }
    ensures changed { OnOk result (classes.new ≡ changed classes.old (change_of change.now)) }
    ensures refused { WithMemory result (told result ≡ refused classes.old (change_of change.now)) }
    ensures err { OnErr result (classes.new ≡ classes.old) }
{
    match change {
        ClassChange::Make {
            class,
            name,
            bases,
            attrs,
            slots,
            flags,
        } => make(classes, alloc, *class, name, bases, attrs, slots, *flags),
        ClassChange::SetOwn { class, name, value } => classes.set_attr(*class, *name, *value),
        ClassChange::DelOwn { class, name } => match classes.del_attr_direct(*class, *name) {
            Ok(_) => Ok(()),
            Err(fault) => Err(fault),
        },
        ClassChange::SetBases { class, bases } => {
            rebase::<Brand>(classes, alloc, *class, bases, Blank::new(2))
        }
    }
}
