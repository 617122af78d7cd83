//! Other bases for a class: all or nothing.

ghost use Rattle.class_table.specs.Below.{true, length, None, Some, IfOk, OnOk, OnErr, IsSome, is_distinct, is_class, best_of, with_bases};
ghost use Rattle.std.specs.Prelude.{◌≡◌, ◌*◌};
ghost use Rattle.class_table.specs.Keys.{numbers, number_of};
ghost use Rattle.class_table.specs.Stored.{StoredClass, classes_of};
ghost use Rattle.class_table.specs.Coherent.{IsCoherent};
ghost use Rattle.class_table.specs.Refused.{cause_of, WithMemory, AreThere};
ghost use Rattle.class_table.specs.Rebase.{any_derives, is_same, refused_shape, refused_change, refused_rebase, told, IsToldFirst};
ghost use Rattle.class_table.specs.Steps.{RiseBy};
ghost use Rattle.class_table.specs.Descendants.{descendants, AreRanked};
ghost use Rattle.class_table.specs.Probe.{special_count};
ghost use Rattle.class_table.specs.Settle.{line_places};
ghost use Rattle.class_table.specs.Affected.{AreAffected};
ghost use Rattle.class_table.specs.Renewed.{AreRenewed};
ghost use Rattle.class_table.specs.Lines.{AreLinesOf};

use crate::affected::affected;
use crate::blame::blamed;
use crate::chain::base_of;
use crate::descendants::{Ranked, in_order};
use crate::dict::keeps_dict;
use crate::fault::ClassFault;
use crate::heap::is_heap;
use crate::inherit::{best_base, inherited};
use crate::lines::Lines;
use crate::place::{place, stored_at};
use crate::place_set::PlaceSet;
use crate::renew::{Renewed, lines_under, renew_all, swap_in};
use crate::settle::settle_all;
use crate::steps::Steps;
use crate::stored::has;
use crate::stored_classes::StoredClasses;
use crate::table::ClassTable;
use crate::trial::{Change, trials};
use py_node::{Cause, PyTypeRef};
use std::alloc::Global;
use std::sync::ledger::Ledger;

// Whether one of some classes is a class or derives from it.
fn any_derives(classes: &StoredClasses, bases: &[PyTypeRef], class: PyTypeRef) -> bool
    requires coherent { IsCoherent classes.now }
    requires there { AreThere (classes_of classes.now) (numbers bases.now) }
    ensures { result ≡ any_derives (classes_of classes.now) (numbers bases.now) class.0 }
{
    for base in bases {
        if stored_at(classes, *base).derives(class) {
            return true;
        }
    }
    false
}

// Whether no class stands twice among some.
fn is_distinct(bases: &[PyTypeRef]) -> bool
    ensures { result ≡ is_distinct (numbers bases.now) }
{
    for i in 0..bases.len() {
        if has(&bases[i + 1..], bases[i]) {
            return false;
        }
    }
    true
}

// Whether there are two classes that are one, or none.
fn is_same(class: Option<PyTypeRef>, other: Option<PyTypeRef>) -> bool
    ensures { result ≡ is_same (number_of class) (number_of other) }
{
    match class {
        None => other.is_none(),
        Some(first) => match other {
            None => false,
            Some(second) => first.0 == second.0,
        },
    }
}

// The best of some bases, where they pass the tests that need no order, or the first test that fails.
fn test_change(
    classes: &StoredClasses,
    class: PyTypeRef,
    bases: &[PyTypeRef],
) -> Result<PyTypeRef, Cause>
    requires coherent { IsCoherent classes.now }
    requires own { is_class (classes_of classes.now) class.0 ≡ true }
    requires there { AreThere (classes_of classes.now) (numbers bases.now) }
    ensures best { IfOk result (λ b. best_of (classes_of classes.now) (numbers bases.now) ≡ Some b.0) }
    ensures refused { cause_of result ≡ refused_change (classes_of classes.now) class.0 (numbers bases.now) }
{
    if !is_heap(classes, class) {
        return Err(Cause::ImmutableType);
    }
    if bases.is_empty() {
        return Err(Cause::EmptyBases);
    }
    if any_derives(classes, bases, class) {
        return Err(Cause::InheritanceCycle);
    }
    test_shape(classes, class, bases)
}

// The same of a class that a script made, with bases none of which derives from it.
fn test_shape(
    classes: &StoredClasses,
    class: PyTypeRef,
    bases: &[PyTypeRef],
) -> Result<PyTypeRef, Cause>
    requires coherent { IsCoherent classes.now }
    requires own { is_class (classes_of classes.now) class.0 ≡ true }
    requires there { AreThere (classes_of classes.now) (numbers bases.now) }
    ensures best { IfOk result (λ b. best_of (classes_of classes.now) (numbers bases.now) ≡ Some b.0) }
    ensures refused { cause_of result ≡ refused_shape (classes_of classes.now) class.0 (numbers bases.now) }
{
    let best = match best_base(classes, bases) {
        Ok(best) => best,
        Err(cause) => return Err(cause),
    };
    let solid = inherited(classes, Some(best));
    let old = inherited(classes, base_of(classes, class));
    if !is_same(solid, old) {
        return Err(Cause::LayoutDiffers);
    }
    if !keeps_dict(classes, class, bases) {
        return Err(Cause::LayoutDiffers);
    }
    if !is_distinct(bases) {
        return Err(Cause::DuplicateBase);
    }
    Ok(best)
}

/// What other bases make of the classes at some places, and of which classes the slots are found anew.
#[derive(Drop)]
struct Planned {
    places: PlaceSet,
    renewed: Vec<Renewed>,
    lines: Lines,
    ranked: Vec<Ranked>,
}

// What the change makes of each class, where it passes the tests that need no order, or why one is left without an order.
fn plan<L: Ledger>(
    change: Change<'_>,
    alloc: Global,
    best: PyTypeRef,
    steps: &mut Steps<L>,
) -> Result<Planned, ClassFault>
    requires coherent { IsCoherent change.classes.now }
    requires own { is_class (classes_of change.classes.now) change.class.0 ≡ true }
    requires there { AreThere (classes_of change.classes.now) (numbers change.bases.now) }
    requires early { refused_change (classes_of change.classes.now) change.class.0 (numbers change.bases.now) ≡ None }
    requires best { best_of (classes_of change.classes.now) (numbers change.bases.now) ≡ Some best.0 }
    ensures affected { IfOk result (λ v.
        AreAffected change.entry.classes.now change.entry.class.0 (numbers change.entry.bases.now) v.places) }
    ensures renewed { IfOk result (λ v. AreRenewed change.entry.classes.now change.entry.class.0
        (numbers change.entry.bases.now) v.places v.renewed.items) }
    ensures lines { IfOk result (λ v. AreLinesOf change.entry.classes.now v.places v.renewed.items v.lines) }
    ensures ranked { IfOk result (λ v. AreRanked change.entry.classes.now change.entry.class.0 v.ranked.items) }
    ensures refused { WithMemory result (told result ≡
        refused_rebase (classes_of change.entry.classes.now) change.entry.class.0 (numbers change.entry.bases.now)) }
    ensures steps { RiseBy (length (descendants (classes_of change.entry.classes.now) change.entry.class.0)) 0
        steps.old steps.new }
{
    let ranked = match in_order(change.classes, alloc, change.class) {
        Ok(ranked) => ranked,
        Err(_) => return Err(ClassFault::OutOfMemory),
    };
    let trials = match trials(change, alloc, &ranked, steps) {
        Ok(trials) => trials,
        Err(_) => return Err(ClassFault::OutOfMemory),
    };
    match blamed(change, &ranked, &trials) {
        Ok(()) => {}
        Err(fault) => return Err(fault),
    }
    let places = match affected(change, alloc) {
        Ok(places) => places,
        Err(_) => return Err(ClassFault::OutOfMemory),
    };
    let renewed = match renew_all(change, alloc, places.all(), &trials, best) {
        Ok(renewed) => renewed,
        Err(_) => return Err(ClassFault::OutOfMemory),
    };
    let lines = match lines_under(change.classes, alloc, &places, &renewed) {
        Ok(lines) => lines,
        Err(_) => return Err(ClassFault::OutOfMemory),
    };
    Ok(Planned {
        places,
        renewed,
        lines,
        ranked,
    })
}

// Changes the bases of a class, where they pass every test, and what follows in each class. It takes no memory.
fn change_bases<L: Ledger>(
    classes: &mut StoredClasses,
    class: PyTypeRef,
    bases: Vec<PyTypeRef>,
    plan: Planned,
    steps: &mut Steps<L>,
)
    requires coherent { IsCoherent classes.old }
    requires own { is_class (classes_of classes.old) class.0 ≡ true }
    requires there { AreThere (classes_of classes.old) (numbers bases.items) }
    requires passed { refused_rebase (classes_of classes.old) class.0 (numbers bases.items) ≡ None }
    requires affected { AreAffected classes.old class.0 (numbers bases.items) plan.places }
    requires renewed { AreRenewed classes.old class.0 (numbers bases.items) plan.places plan.renewed.items }
    requires lines { AreLinesOf classes.old plan.places plan.renewed.items plan.lines }
    requires ranked { AreRanked classes.old class.0 plan.ranked.items }
    ensures coherent { IsCoherent classes.new }
    ensures set { classes_of classes.new ≡ with_bases (classes_of classes.old) class.0 (numbers bases.items) }
    ensures steps { RiseBy 0 (special_count * line_places
        (with_bases (classes_of classes.old) class.0 (numbers bases.items)) (descendants (classes_of classes.old) class.0))
        steps.old steps.new }
{
    let at = place(classes, class);
    classes.set_bases(at, bases);
    let Planned {
        places,
        renewed,
        lines,
        ranked,
    } = plan;
    swap_in(classes, places.all(), renewed, lines);
    settle_all(classes, &ranked, steps);
}

// What other bases of a class make of each class, or why the class may not have them: first the tests that need no order,
// which count nothing, and then all that takes memory.
fn prepare<L: Ledger>(
    classes: &StoredClasses,
    alloc: Global,
    class: PyTypeRef,
    bases: &[PyTypeRef],
    steps: &mut Steps<L>,
) -> Result<Planned, ClassFault>
    requires coherent { IsCoherent classes.now }
    requires own { is_class (classes_of classes.now) class.0 ≡ true }
    requires there { AreThere (classes_of classes.now) (numbers bases.now) }
    ensures affected { IfOk result (λ v. AreAffected classes.now class.0 (numbers bases.now) v.places) }
    ensures renewed { IfOk result (λ v. AreRenewed classes.now class.0 (numbers bases.now) v.places v.renewed.items) }
    ensures lines { IfOk result (λ v. AreLinesOf classes.now v.places v.renewed.items v.lines) }
    ensures ranked { IfOk result (λ v. AreRanked classes.now class.0 v.ranked.items) }
    ensures early { IsToldFirst (classes_of classes.now) class.0 (numbers bases.now) (told result) }
    ensures refused { WithMemory result (told result ≡
        refused_rebase (classes_of classes.now) class.0 (numbers bases.now)) }
    ensures steps { RiseBy (length (descendants (classes_of classes.now) class.0)) 0 steps.old steps.new }
    ensures uncounted { IsSome (refused_change (classes_of classes.now) class.0 (numbers bases.now)) →
        steps.new ≡ steps.old }
{
    let best = match test_change(classes, class, bases) {
        Ok(best) => best,
        Err(cause) => return Err(ClassFault::Refused(cause)),
    };
    plan(
        Change {
            classes,
            class,
            bases,
        },
        alloc,
        best,
        steps,
    )
}

// Gives a class other bases: first the tests, then all that takes memory, then the change.
pub(crate) fn rebase<L: Ledger>(
    classes: &mut StoredClasses,
    alloc: Global,
    class: PyTypeRef,
    bases: Vec<PyTypeRef>,
    steps: &mut Steps<L>,
) -> Result<(), ClassFault>
    requires coherent { IsCoherent classes.old }
    requires own { is_class (classes_of classes.old) class.0 ≡ true }
    requires there { AreThere (classes_of classes.old) (numbers bases.items) }
    ensures coherent { OnOk result (IsCoherent classes.new) }
    ensures early { IsToldFirst (classes_of classes.old) class.0 (numbers bases.items) (told result) }
    ensures refused { WithMemory result (told result ≡
        refused_rebase (classes_of classes.old) class.0 (numbers bases.items)) }
    ensures set { OnOk result (classes_of classes.new ≡
        with_bases (classes_of classes.old) class.0 (numbers bases.items)) }
    ensures err { OnErr result (classes.new ≡ classes.old) }
    ensures steps { RiseBy (length (descendants (classes_of classes.old) class.0)) (special_count * line_places
        (with_bases (classes_of classes.old) class.0 (numbers bases.items))
        (descendants (classes_of classes.old) class.0)) steps.old steps.new }
    ensures uncounted { IsSome (refused_change (classes_of classes.old) class.0 (numbers bases.items)) →
        steps.new ≡ steps.old }
{
    let plan = match prepare(classes, alloc, class, &bases, steps) {
        Ok(plan) => plan,
        Err(fault) => return Err(fault),
    };
    change_bases(classes, class, bases, plan, steps);
    Ok(())
}

impl ClassTable {
    /// Whether a class may have other bases, as far as the tests go that need no order, or the first that fails. It takes
    /// no memory, and counts nothing.
    pub fn may_rebase(&self, class: PyTypeRef, bases: &[PyTypeRef]) -> Result<(), Cause>
        requires own { is_class self.now class.0 ≡ true }
        requires there { AreThere self.now (numbers bases.now) }
        ensures { cause_of result ≡ refused_change self.now class.0 (numbers bases.now) }
    {
        match test_change(&self.classes, class, bases) {
            Ok(_) => Ok(()),
            Err(cause) => Err(cause),
        }
    }
}
