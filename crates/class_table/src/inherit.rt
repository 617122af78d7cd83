//! What a class gets from its bases: the best of them, and its linearisation.

ghost use Rattle.class_table.specs.Below.{true, length, Some, map, IfOk, IfSome, option_and_then, class_at, is_class, lin, is_ascending, limit, solid, best_of};
ghost use Rattle.std.specs.Prelude.{◌≡◌, ◌≤◌};
ghost use Rattle.class_table.specs.MroMerge.Lists.{rows};
ghost use Rattle.class_table.specs.Keys.{numbers, number_of};
ghost use Rattle.class_table.specs.Stored.{classes_of};
ghost use Rattle.class_table.specs.Coherent.{IsCoherent};
ghost use Rattle.class_table.specs.New.{IsBest};
ghost use Rattle.class_table.specs.Refused.{refusal, WithMemory, cause_of, is_base_at, refused_layout, refused_order, refused_bases, IsEarly, AreThere, NamesNoClass};
ghost use Rattle.class_table.specs.Inherit.{is_under, better_of, next_best, best_along, number_found, number_best, Follows};

use crate::fault::{ClassFault, merge_fault};
use crate::mro_merge::laws::resolve_mro;
use crate::place::{find, find_place, stored_at};
use crate::stored_classes::StoredClasses;
use py_node::{Cause, OutOfMemory, PyTypeFlags, PyTypeRef};
use std::alloc::Global;

// Whether a class may have subclasses.
fn is_base(classes: &StoredClasses, class: PyTypeRef) -> bool
    requires { is_ascending (classes_of classes.now) ≡ true }
    ensures { result ≡ is_base_at (class_at (classes_of classes.now) class.0) }
{
    match find(classes, class) {
        None => false,
        Some(stored) => stored.flags().has_feature(PyTypeFlags::BASETYPE),
    }
}

// The solid class of a class that is there.
fn solid_of(classes: &StoredClasses, class: PyTypeRef) -> Option<PyTypeRef>
    requires coherent { IsCoherent classes.now }
    requires there { is_class (classes_of classes.now) class.0 ≡ true }
    ensures { number_of result ≡ solid (classes_of classes.now) class.0 }
{
    stored_at(classes, class).solid()
}

// The same: each class has one.
pub(crate) fn solid_class(classes: &StoredClasses, class: PyTypeRef) -> PyTypeRef
    requires coherent { IsCoherent classes.now }
    requires there { is_class (classes_of classes.now) class.0 ≡ true }
    ensures { solid (classes_of classes.now) class.0 ≡ Some result.0 }
{
    match solid_of(classes, class) {
        None => unreachable!(),
        Some(solid) => solid,
    }
}

// The solid class of the best base, where there is one.
pub(crate) fn inherited(classes: &StoredClasses, best: Option<PyTypeRef>) -> Option<PyTypeRef>
    requires coherent { IsCoherent classes.now }
    requires there { IfSome best (λ b. is_class (classes_of classes.now) b.0 ≡ true) }
    ensures { number_of result ≡ option_and_then (solid (classes_of classes.now)) (number_of best) }
{
    match best {
        None => None,
        Some(class) => solid_of(classes, class),
    }
}

// Whether one solid class derives from another.
fn is_under(classes: &StoredClasses, class: Option<PyTypeRef>, other: Option<PyTypeRef>) -> bool
    requires { IsCoherent classes.now }
    ensures { result ≡ is_under (classes_of classes.now) (number_of class) (number_of other) }
{
    match class {
        None => false,
        Some(below) => match other {
            None => false,
            Some(above) => derives(classes, below, above),
        },
    }
}

// Whether a class is there and derives from another.
fn derives(classes: &StoredClasses, class: PyTypeRef, other: PyTypeRef) -> bool
    requires { IsCoherent classes.now }
    ensures { result ≡ is_under (classes_of classes.now) (Some class.0) (Some other.0) }
{
    match find(classes, class) {
        None => false,
        Some(stored) => stored.derives(other),
    }
}

// The better of two bases: the one whose solid class derives from the other's.
fn better_of(classes: &StoredClasses, best: PyTypeRef, base: PyTypeRef) -> Result<PyTypeRef, Cause>
    requires coherent { IsCoherent classes.now }
    requires best { is_class (classes_of classes.now) best.0 ≡ true }
    requires base { is_class (classes_of classes.now) base.0 ≡ true }
    ensures { number_found result ≡ better_of (classes_of classes.now) best.0 base.0 }
{
    let first = solid_of(classes, best);
    let second = solid_of(classes, base);
    if is_under(classes, first, second) {
        Ok(best)
    } else if is_under(classes, second, first) {
        Ok(base)
    } else {
        Err(Cause::LayoutConflict)
    }
}

// The better of the best base so far and a further one.
fn next_best(
    classes: &StoredClasses,
    best: Option<PyTypeRef>,
    base: PyTypeRef,
) -> Result<PyTypeRef, Cause>
    requires coherent { IsCoherent classes.now }
    requires best { IfSome best (λ b. is_class (classes_of classes.now) b.0 ≡ true) }
    requires base { is_class (classes_of classes.now) base.0 ≡ true }
    ensures next { number_found result ≡ next_best (classes_of classes.now) (number_of best) base.0 }
    ensures there { IfOk result (λ b. is_class (classes_of classes.now) b.0 ≡ true) }
{
    if !is_base(classes, base) {
        return Err(Cause::NotBaseType);
    }
    match best {
        None => Ok(base),
        Some(class) => better_of(classes, class, base),
    }
}

// The best of some bases, if there are any.
fn best_along(classes: &StoredClasses, bases: &[PyTypeRef]) -> Result<Option<PyTypeRef>, Cause>
    requires coherent { IsCoherent classes.now }
    requires there { AreThere (classes_of classes.now) (numbers bases.now) }
    ensures { number_best result ≡ best_along (classes_of classes.now) None (numbers bases.now) }
{
    let mut best = None;
    for base in bases {
        match next_best(classes, best, *base) {
            Err(cause) => return Err(cause),
            Ok(class) => best = Some(class),
        }
    }
    Ok(best)
}

// The best base of a class that a script makes, or why it may not have these bases.
pub(crate) fn best_base(classes: &StoredClasses, bases: &[PyTypeRef]) -> Result<PyTypeRef, Cause>
    requires coherent { IsCoherent classes.now }
    requires there { AreThere (classes_of classes.now) (numbers bases.now) }
    ensures best { IfOk result (λ b. best_of (classes_of classes.now) (numbers bases.now) ≡ Some b.0) }
    ensures refused { cause_of result ≡ refused_layout (classes_of classes.now) (numbers bases.now) }
{
    match best_along(classes, bases) {
        Err(cause) => Err(cause),
        Ok(None) => Err(Cause::EmptyBases),
        Ok(Some(best)) => Ok(best),
    }
}

// The best of at most one base.
pub(crate) fn only(classes: &StoredClasses, bases: &[PyTypeRef]) -> Option<PyTypeRef>
    requires coherent { IsCoherent classes.now }
    requires there { AreThere (classes_of classes.now) (numbers bases.now) }
    requires one { length bases.now ≤ 1 }
    ensures { IsBest (classes_of classes.now) (numbers bases.now) result }
{
    match bases {
        [] => None,
        [base, ..] => Some(*base),
    }
}

// The linearisations of some classes.
fn lines(
    classes: &StoredClasses,
    alloc: Global,
    bases: &[PyTypeRef],
) -> Result<Vec<Vec<PyTypeRef>>, OutOfMemory>
    requires coherent { IsCoherent classes.now }
    requires there { AreThere (classes_of classes.now) (numbers bases.now) }
    ensures { IfOk result (λ v. map Some (rows v.items) ≡ map (lin (classes_of classes.now)) (numbers bases.now)) }
{
    let mut lines = Vec::new(alloc);
    for base in bases {
        let line = Vec::from_slice(alloc, stored_at(classes, *base).mro())?;
        lines.push(line)?;
    }
    Ok(lines)
}

// What follows a new class with these bases in its linearisation: the merge of theirs.
pub(crate) fn rest_of_line(
    classes: &StoredClasses,
    alloc: Global,
    bases: &[PyTypeRef],
) -> Result<Vec<PyTypeRef>, ClassFault>
    requires coherent { IsCoherent classes.now }
    requires there { AreThere (classes_of classes.now) (numbers bases.now) }
    ensures rest { IfOk result (λ v. Follows (classes_of classes.now) (numbers bases.now) (numbers v.items)) }
    ensures refused { WithMemory result (refusal result ≡ refused_order (classes_of classes.now) (numbers bases.now)) }
    ensures names { NamesNoClass result }
{
    let lines = match lines(classes, alloc, bases) {
        Ok(lines) => lines,
        Err(_) => return Err(ClassFault::OutOfMemory),
    };
    match resolve_mro(alloc, bases, lines) {
        Ok(rest) => Ok(rest),
        Err(fault) => Err(merge_fault(fault)),
    }
}

// Whether a script may make a class with these bases.
pub(crate) fn may_derive(
    classes: &StoredClasses,
    alloc: Global,
    bases: &[PyTypeRef],
) -> Result<(), ClassFault>
    requires coherent { IsCoherent classes.now }
    requires there { AreThere (classes_of classes.now) (numbers bases.now) }
    ensures early { IsEarly (classes_of classes.now) (numbers bases.now) (refusal result) }
    ensures refused { WithMemory result (refusal result ≡ refused_bases (classes_of classes.now) (numbers bases.now)) }
    ensures names { NamesNoClass result }
{
    match best_base(classes, bases) {
        Ok(_) => {}
        Err(cause) => return Err(ClassFault::Refused(cause)),
    }
    match rest_of_line(classes, alloc, bases) {
        Ok(_) => Ok(()),
        Err(fault) => Err(fault),
    }
}

// Where the classes of a linearisation are kept, after the class at the end itself. Each is a guess.
pub(crate) fn likely_places(
    classes: &StoredClasses,
    alloc: Global,
    rest: &[PyTypeRef],
) -> Result<Vec<usize>, OutOfMemory>
    requires { is_ascending (classes_of classes.now) ≡ true }
{
    let mut places = Vec::new(alloc);
    places.push(classes.len())?;
    for class in rest {
        places.push(find_place(classes, *class).unwrap_or(0))?;
    }
    Ok(places)
}
