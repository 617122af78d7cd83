//! A class that is made.

ghost use Rattle.class_table.specs.Below.{[], ℕ, List, cond, not, nat_lt, length, Some, OnOk, OnErr, IfOk, true, AreNamesDistinct, slot_count, Distinct, is_class, is_ascending, limit, built_ins, is_empty, says_dict, has_its_dict, with_class};
ghost use Rattle.std.specs.Prelude.{◌≡◌, ◌≤◌, ◌||◌, ◌++◌, ◌∷◌};
ghost use Rattle.class_table.specs.Stored.{StoredClass, classes_of};
ghost use Rattle.class_table.specs.Keys.{numbers, number_of};
ghost use Rattle.class_table.specs.Coherent.{IsCoherent};
ghost use Rattle.class_table.specs.New.{IsBelow, IsBest, class_of_new};
ghost use Rattle.class_table.specs.Made.{IsFresh, noted};
ghost use Rattle.class_table.specs.Refused.{refusal, WithMemory, refused_order, AreThere, NamesNoClass};
ghost use Rattle.class_table.specs.Inherit.{Follows};

use crate::count::count_along;
use crate::fault::ClassFault;
use crate::inherit::{inherited, likely_places, rest_of_line};
use crate::place::place;
use crate::settle::settle;
use crate::stored::{NewClass, SLOTS, Stored};
use crate::stored_classes::{StoredClasses, Unplaced};
use py_node::built_in::BUILT_IN_COUNT;
use py_node::{OutOfMemory, PyAttributes, PyStrInterned, PyTypeRef, SlotEntry};
use std::alloc::Global;

// Empty slots.
fn empty_slots() -> [Option<SlotEntry>; SLOTS]
    ensures { length result ≡ slot_count }
{
    [None; SLOTS]
}

// The class, and then what follows it.
pub(crate) fn line(
    alloc: Global,
    number: PyTypeRef,
    rest: &[PyTypeRef],
) -> Result<Vec<PyTypeRef>, OutOfMemory>
    ensures { IfOk result (λ v. numbers v.items ≡ number.0 ∷ numbers rest.now) }
{
    let mut mro = Vec::new(alloc);
    mro.push(number)?;
    mro.extend_from_slice(rest)?;
    Ok(mro)
}

fn solid_of(
    number: PyTypeRef,
    members: &[PyStrInterned],
    inherited: Option<PyTypeRef>,
) -> Option<PyTypeRef>
    ensures { number_of result ≡
        cond (nat_lt number.0 built_ins || not (is_empty members.now)) (Some number.0) (number_of inherited) }
{
    if number.0 < BUILT_IN_COUNT || !members.is_empty() {
        Some(number)
    } else {
        inherited
    }
}

// No name stands twice among some attributes. It does nothing, and is here for the proof.
fn are_distinct(attrs: &PyAttributes)
    ensures { AreNamesDistinct attrs.now }
{
    let _count = attrs.len();
}

// A class with what follows from its bases but for its order, before its slots are found.
fn with_line(
    classes: &StoredClasses,
    alloc: Global,
    new: NewClass,
    best: Option<PyTypeRef>,
    rest: &[PyTypeRef],
) -> Result<Unplaced, OutOfMemory>
    requires coherent { IsCoherent classes.now }
    requires below { IsBelow (classes_of classes.now) new.number.0 (numbers new.bases.items) }
    requires fresh { limit (classes_of classes.now) ≤ new.number.0 }
    requires best { IsBest (classes_of classes.now) (numbers new.bases.items) best }
    requires rest { Follows (classes_of classes.now) (numbers new.bases.items) (numbers rest.now) }
    ensures { IfOk result (λ k. IsFresh classes.now (class_of_new new) k) }
{
    are_distinct(&new.attrs);
    let slots = empty_slots();
    let line = line(alloc, new.number, rest)?;
    let near = likely_places(classes, alloc, rest)?;
    let solid = solid_of(new.number, &new.members, inherited(classes, best));
    let places = count_along(classes, new.members.len(), rest)?;
    let stored = Stored {
        name: new.name,
        number: new.number,
        bases: new.bases,
        attrs: new.attrs,
        members: new.members,
        flags: new.flags,
        brings: new.brings,
        slots,
        base: best,
        solid,
        subclasses: Vec::new(alloc),
        places,
    };
    Ok(Unplaced { stored, line, near })
}

// A class as it is made, before its slots are found, or why its bases have no order.
fn build(
    classes: &StoredClasses,
    alloc: Global,
    new: NewClass,
    best: Option<PyTypeRef>,
) -> Result<Unplaced, ClassFault>
    requires coherent { IsCoherent classes.now }
    requires below { IsBelow (classes_of classes.now) new.number.0 (numbers new.bases.items) }
    requires fresh { limit (classes_of classes.now) ≤ new.number.0 }
    requires best { IsBest (classes_of classes.now) (numbers new.bases.items) best }
    ensures fresh { IfOk result (λ k. IsFresh classes.now (class_of_new new) k) }
    ensures refused { WithMemory result (refusal result ≡
        refused_order (classes_of classes.now) (numbers new.bases.items)) }
    ensures names { NamesNoClass result }
{
    let rest = match rest_of_line(classes, alloc, &new.bases) {
        Ok(rest) => rest,
        Err(fault) => return Err(fault),
    };
    match with_line(classes, alloc, new, best, &rest) {
        Ok(stored) => Ok(stored),
        Err(_) => Err(ClassFault::OutOfMemory),
    }
}

// Notes a class as the last direct subclass of one that is there.
fn note_in(
    classes: &mut StoredClasses,
    base: PyTypeRef,
    number: PyTypeRef,
) -> Result<(), OutOfMemory>
    requires ascending { is_ascending (classes_of classes.old) ≡ true }
    requires there { is_class (classes_of classes.old) base.0 ≡ true }
    ensures ok { OnOk result (classes.new ≡ noted (base.0 ∷ []) number.0 classes.old) }
    ensures err { OnErr result (classes.new ≡ classes.old) }
{
    let at = place(classes, base);
    match classes.add_subclass(at, number) {
        Ok(()) => Ok(()),
        Err(error) => Err(error),
    }
}

// Takes the last direct subclass off one that is there.
fn forget_in(classes: &mut StoredClasses, base: PyTypeRef)
    requires ascending { is_ascending (classes_of classes.old) ≡ true }
    requires there { is_class (classes_of classes.old) base.0 ≡ true }
    ensures back { (n : ℕ) (kept : List StoredClass) → classes.old ≡ noted (base.0 ∷ []) n kept → classes.new ≡ kept }
    ensures plain { classes_of classes.new ≡ classes_of classes.old }
{
    let at = place(classes, base);
    classes.forget_subclass(at);
}

// Notes a class as the last direct subclass of each of its bases.
fn note(
    classes: &mut StoredClasses,
    bases: &[PyTypeRef],
    number: PyTypeRef,
) -> Result<(), OutOfMemory>
    requires ascending { is_ascending (classes_of classes.old) ≡ true }
    requires there { AreThere (classes_of classes.old) (numbers bases.now) }
    requires distinct { Distinct (numbers bases.now) }
    ensures ok { OnOk result (classes.new ≡ noted (numbers bases.now) number.0 classes.old) }
    ensures err { OnErr result (classes.new ≡ classes.old) }
{
    match bases {
        [] => Ok(()),
        [base, rest @ ..] => {
            note_in(classes, *base, number)?;
            match note(classes, rest, number) {
                Ok(()) => Ok(()),
                Err(error) => {
                    forget_in(classes, *base);
                    Err(error)
                }
            }
        }
    }
}

// Takes the last direct subclass off each of some that are there.
fn forget(classes: &mut StoredClasses, bases: &[PyTypeRef])
    requires ascending { is_ascending (classes_of classes.old) ≡ true }
    requires there { AreThere (classes_of classes.old) (numbers bases.now) }
    requires distinct { Distinct (numbers bases.now) }
    ensures back { (n : ℕ) (kept : List StoredClass) → classes.old ≡ noted (numbers bases.now) n kept →
        classes.new ≡ kept }
    ensures plain { classes_of classes.new ≡ classes_of classes.old }
{
    match bases {
        [] => {}
        [base, rest @ ..] => {
            forget(classes, rest);
            forget_in(classes, *base);
        }
    }
}

// Puts a class at the end, and notes it in its bases.
fn attach(classes: &mut StoredClasses, new: Unplaced) -> Result<(), OutOfMemory>
    requires ascending { is_ascending (classes_of classes.old) ≡ true }
    requires there { AreThere (classes_of classes.old) new.bases }
    requires distinct { Distinct new.bases }
    ensures ok { OnOk result (classes.new ≡ noted new.bases new.number classes.old ++ new ∷ []) }
    ensures err { OnErr result (classes.new ≡ classes.old) }
{
    note(classes, new.bases(), new.number())?;
    match classes.push(new) {
        Ok(()) => Ok(()),
        Err(back) => {
            forget(classes, back.bases());
            Err(OutOfMemory)
        }
    }
}

// Adds a class, and finds its slots.
pub(crate) fn add(
    classes: &mut StoredClasses,
    alloc: Global,
    new: NewClass,
    best: Option<PyTypeRef>,
) -> Result<PyTypeRef, ClassFault>
    requires coherent { IsCoherent classes.old }
    requires below { IsBelow (classes_of classes.old) new.number.0 (numbers new.bases.items) }
    requires fresh { limit (classes_of classes.old) ≤ new.number.0 }
    requires best { IsBest (classes_of classes.old) (numbers new.bases.items) best }
    requires dict { says_dict (Some (class_of_new new)) ≡
        has_its_dict (classes_of classes.old) (Some (class_of_new new)) }
    ensures number { IfOk result (λ c. c ≡ new.number) }
    ensures coherent { OnOk result (IsCoherent classes.new) }
    ensures added { OnOk result (classes_of classes.new ≡
        with_class (classes_of classes.old) (class_of_new new)) }
    ensures refused { WithMemory result (refusal result ≡
        refused_order (classes_of classes.old) (numbers new.bases.items)) }
    ensures err { OnErr result (classes.new ≡ classes.old) }
    ensures names { NamesNoClass result }
{
    let at = classes.len();
    let number = new.number;
    let stored = match build(classes, alloc, new, best) {
        Ok(stored) => stored,
        Err(fault) => return Err(fault),
    };
    match attach(classes, stored) {
        Ok(()) => {}
        Err(_) => return Err(ClassFault::OutOfMemory),
    }
    settle(classes, at);
    Ok(number)
}
