//! Classes as scripts make and change them.

ghost use Rattle.class_table.specs.Below.{true, false, Ok, OnOk, OnErr, IfOk, is_some, is_same_name, class_at, is_class, own_of, is_ascending, limit, with_class, with_class_attr, without_class_attr, is_heap_at, heap_class};
ghost use Rattle.std.specs.Prelude.{◌≡◌, ◌≤◌};
ghost use Rattle.class_table.specs.Keys.{numbers, table_keys, slot_names};
ghost use Rattle.class_table.specs.New.{class_of_new};
ghost use Rattle.class_table.specs.Stored.{classes_of};
ghost use Rattle.class_table.specs.Coherent.{IsCoherent};
ghost use Rattle.class_table.specs.Refused.{refusal, WithMemory, NeedsNoMemory, IsEarly, refused_bases, refused_attr, AreThere, NamesNoClass};

use crate::add::add;
use crate::dict::{any_has_dict, slot_members, slots_bring};
use crate::fault::ClassFault;
use crate::inherit::best_base;
use crate::place::find;
use crate::put::put_in;
use crate::stored::NewClass;
use crate::stored_classes::StoredClasses;
use crate::take::take_from;
use py_node::{
    Cause, OutOfMemory, PyAttributes, PyObjectRef, PyStrInterned, PyTypeFlags, PyTypeRef,
};
use std::alloc::Global;

// Whether a class was made by a script.
pub(crate) fn is_heap(classes: &StoredClasses, class: PyTypeRef) -> bool
    requires { is_ascending (classes_of classes.now) ≡ true }
    ensures { result ≡ is_heap_at (class_at (classes_of classes.now) class.0) }
{
    match find(classes, class) {
        None => false,
        Some(stored) => stored.is_heap(),
    }
}

// A class that a script makes, named by a text.
fn heap_parts(
    classes: &StoredClasses,
    alloc: Global,
    number: PyTypeRef,
    name: &str,
    bases: Vec<PyTypeRef>,
    attrs: PyAttributes,
    slots: Option<Vec<PyStrInterned>>,
) -> Result<NewClass, OutOfMemory>
    requires { is_ascending (classes_of classes.now) ≡ true }
    ensures class { IfOk result (λ n. class_of_new n ≡
        heap_class table_keys (classes_of classes.now) name.now number.0 (numbers bases.items) attrs (slot_names slots)) }
    ensures number { IfOk result (λ n. n.number ≡ number) }
{
    let brings = slots_bring(&slots);
    let dict = brings || any_has_dict(classes, &bases);
    Ok(NewClass {
        name: String::from_str(alloc, name)?,
        number,
        bases,
        attrs,
        members: slot_members(alloc, slots),
        flags: PyTypeFlags::of_script_class(dict),
        brings,
    })
}

// Adds a class that a script makes.
pub(crate) fn add_heap(
    classes: &mut StoredClasses,
    alloc: Global,
    number: PyTypeRef,
    name: &str,
    bases: Vec<PyTypeRef>,
    attrs: PyAttributes,
    slots: Option<Vec<PyStrInterned>>,
) -> Result<PyTypeRef, ClassFault>
    requires coherent { IsCoherent classes.old }
    requires bases { AreThere (classes_of classes.old) (numbers bases.items) }
    requires fresh { limit (classes_of classes.old) ≤ number.0 }
    ensures number { IfOk result (λ c. c ≡ number) }
    ensures coherent { OnOk result (IsCoherent classes.new) }
    ensures added { OnOk result (classes_of classes.new ≡
        with_class (classes_of classes.old)
        (heap_class table_keys (classes_of classes.old) name.now number.0 (numbers bases.items) attrs
        (slot_names slots))) }
    ensures early { IsEarly (classes_of classes.old) (numbers bases.items) (refusal result) }
    ensures refused { WithMemory result (refusal result ≡
        refused_bases (classes_of classes.old) (numbers bases.items)) }
    ensures err { OnErr result (classes.new ≡ classes.old) }
    ensures names { NamesNoClass result }
{
    let best = match best_base(classes, &bases) {
        Ok(best) => best,
        Err(cause) => return Err(ClassFault::Refused(cause)),
    };
    let new = match heap_parts(classes, alloc, number, name, bases, attrs, slots) {
        Ok(new) => new,
        Err(_) => return Err(ClassFault::OutOfMemory),
    };
    add(classes, alloc, new, Some(best))
}

// Sets an attribute of a class that a script made.
pub(crate) fn set_heap(
    classes: &mut StoredClasses,
    class: PyTypeRef,
    name: PyStrInterned,
    value: PyObjectRef,
) -> Result<(), ClassFault>
    requires coherent { IsCoherent classes.old }
    requires there { is_class (classes_of classes.old) class.0 ≡ true }
    ensures coherent { OnOk result (IsCoherent classes.new) }
    ensures immutable { refusal result ≡ refused_attr (classes_of classes.old) class.0 }
    ensures set { OnOk result (classes_of classes.new ≡
        with_class_attr is_same_name (classes_of classes.old) class.0 name value) }
    ensures err { OnErr result (classes.new ≡ classes.old) }
    ensures names { NamesNoClass result }
{
    if !is_heap(classes, class) {
        return Err(ClassFault::Refused(Cause::ImmutableType));
    }
    match put_in(classes, class, name, value) {
        Ok(()) => Ok(()),
        Err(_) => Err(ClassFault::OutOfMemory),
    }
}

// Takes an attribute out of a class that a script made.
pub(crate) fn take_heap(
    classes: &mut StoredClasses,
    class: PyTypeRef,
    name: PyStrInterned,
) -> Result<bool, ClassFault>
    requires coherent { IsCoherent classes.old }
    requires there { is_class (classes_of classes.old) class.0 ≡ true }
    ensures coherent { IsCoherent classes.new }
    ensures immutable { refusal result ≡ refused_attr (classes_of classes.old) class.0 }
    ensures memory { NeedsNoMemory result }
    ensures there { IfOk result (λ b. b ≡
        is_some (own_of (λ k. is_same_name k name) (class_at (classes_of classes.old) class.0))) }
    ensures taken { OnOk result (classes_of classes.new ≡
        without_class_attr is_same_name (classes_of classes.old) class.0 name) }
    ensures absent { result ≡ Ok false → classes.new ≡ classes.old }
    ensures err { OnErr result (classes.new ≡ classes.old) }
    ensures names { NamesNoClass result }
{
    if !is_heap(classes, class) {
        return Err(ClassFault::Refused(Cause::ImmutableType));
    }
    Ok(take_from(classes, class, name))
}
