//! What other bases of a class make of what is kept of the classes that they touch: made before anything is changed, then
//! put in place.

ghost use Rattle.class_table.specs.Below.{[], ℕ, cond, true, nat_lt, filter, length, None, Some, IfOk, OnOk, slice_get, slice_set, slice_index_or, Includes, Distinct, is_class, lin, subclasses, best_of, base, is_ascending};
ghost use Rattle.std.specs.Prelude.{◌≡◌, ◌+◌, ◌<◌, ◌++◌, ◌∷◌};
ghost use Rattle.class_table.specs.Keys.{numbers, number_of};
ghost use Rattle.class_table.specs.Stored.{StoredClass, classes_of};
ghost use Rattle.class_table.specs.Coherent.{IsCoherent};
ghost use Rattle.class_table.specs.Refused.{AreThere};
ghost use Rattle.class_table.specs.Rebase.{refused_rebase};
ghost use Rattle.class_table.specs.Trial.{changed, AreKnown};
ghost use Rattle.class_table.specs.Renewed.{IsRenewed, AreRenewed, renewed_but_line, AreSwapped};
ghost use Rattle.class_table.specs.Lines.{AreLinesOf, AreLinesTo};
ghost use Rattle.class_table.specs.declared.renew.Renewed.{Renewed as Made};

use crate::count::count_along;
use crate::lines::Lines;
use crate::place::{find_place, stored_at};
use crate::place_set::PlaceSet;
use crate::stored::has;
use crate::stored_classes::StoredClasses;
use crate::trial::{Change, line_of};
use crate::trial_map::Trials;
use py_node::{OutOfMemory, PyTypeRef};
use std::alloc::Global;

/// What other bases make of what is kept of a class, but for its slots.
#[derive(Drop)]
pub(crate) struct Renewed {
    pub(crate) mro: Vec<PyTypeRef>,
    pub(crate) near: Vec<usize>,
    pub(crate) base: Option<PyTypeRef>,
    pub(crate) subclasses: Vec<PyTypeRef>,
    pub(crate) places: usize,
}

// Those of some classes whose numbers are less than a class's.
fn push_below(
    found: &mut Vec<PyTypeRef>,
    some: &[PyTypeRef],
    class: PyTypeRef,
) -> Result<(), OutOfMemory>
    ensures { OnOk result (numbers found.new.items ≡
        numbers found.old.items ++ filter (λ n. nat_lt n class.0) (numbers some.now)) }
{
    for next in some {
        if next.0 < class.0 {
            found.push(*next)?;
        }
    }
    Ok(())
}

// Those whose numbers are greater.
fn push_above(
    found: &mut Vec<PyTypeRef>,
    some: &[PyTypeRef],
    class: PyTypeRef,
) -> Result<(), OutOfMemory>
    ensures { OnOk result (numbers found.new.items ≡
        numbers found.old.items ++ filter (λ n. nat_lt class.0 n) (numbers some.now)) }
{
    for next in some {
        if class.0 < next.0 {
            found.push(*next)?;
        }
    }
    Ok(())
}

// A class, if it is to be there.
fn push_if(found: &mut Vec<PyTypeRef>, is: bool, class: PyTypeRef) -> Result<(), OutOfMemory>
    ensures { OnOk result (numbers found.new.items ≡ numbers found.old.items ++ cond is (class.0 ∷ []) []) }
{
    if is {
        found.push(class)?;
    }
    Ok(())
}

// The direct subclasses of a class under the change: those of now, with the changed class in its place or without it.
fn subclasses_under(
    change: Change<'_>,
    alloc: Global,
    number: PyTypeRef,
) -> Result<Vec<PyTypeRef>, OutOfMemory>
    requires coherent { IsCoherent change.classes.now }
    requires own { is_class (classes_of change.classes.now) change.class.0 ≡ true }
    requires there { is_class (classes_of change.classes.now) number.0 ≡ true }
    ensures { IfOk result (λ v. numbers v.items ≡ subclasses (changed change.entry) number.0) }
{
    let subclasses = stored_at(change.classes, number).subclasses();
    let mut found = Vec::new(alloc);
    push_below(&mut found, subclasses, change.class)?;
    push_if(&mut found, has(change.bases, number), change.class)?;
    push_above(&mut found, subclasses, change.class)?;
    Ok(found)
}

// Where each class of a linearisation is likely kept. Each is a guess.
fn places_along(
    classes: &StoredClasses,
    alloc: Global,
    line: &[PyTypeRef],
) -> Result<Vec<usize>, OutOfMemory>
    requires { is_ascending (classes_of classes.now) ≡ true }
{
    let mut places = Vec::new(alloc);
    for class in line {
        places.push(find_place(classes, *class).unwrap_or(0))?;
    }
    Ok(places)
}

// What the change makes of a class that has this linearisation and this best base.
fn renew(
    change: Change<'_>,
    alloc: Global,
    number: PyTypeRef,
    line: &[PyTypeRef],
    best: Option<PyTypeRef>,
) -> Result<Renewed, OutOfMemory>
    requires coherent { IsCoherent change.classes.now }
    requires own { is_class (classes_of change.classes.now) change.class.0 ≡ true }
    requires class { is_class (classes_of change.classes.now) number.0 ≡ true }
    requires line { lin (changed change) number.0 ≡ Some (numbers line.now) }
    requires base { base (changed change) number.0 ≡ number_of best }
    ensures { IfOk result (λ r. IsRenewed (changed change.entry) number.0 r) }
{
    Ok(Renewed {
        mro: Vec::from_slice(alloc, line)?,
        near: places_along(change.classes, alloc, line)?,
        base: best,
        subclasses: subclasses_under(change, alloc, number)?,
        places: count_along(change.classes, 0, line)?,
    })
}

// The best base of the class at a place under the change: for the changed class the best of the new ones.
fn base_under(change: Change<'_>, best: PyTypeRef, at: usize) -> Option<PyTypeRef>
    requires coherent { IsCoherent change.classes.now }
    requires own { is_class (classes_of change.classes.now) change.class.0 ≡ true }
    requires there { AreThere (classes_of change.classes.now) (numbers change.bases.now) }
    requires passed { refused_rebase (classes_of change.classes.now) change.class.0 (numbers change.bases.now) ≡ None }
    requires best { best_of (classes_of change.classes.now) (numbers change.bases.now) ≡ Some best.0 }
    requires inside { at < length change.classes.now }
    ensures { (k : StoredClass) → slice_get change.entry.classes.now at ≡ Some k →
        base (changed change.entry) k.number ≡ number_of result }
{
    let stored = change.classes.at(at);
    if stored.number().0 == change.class.0 {
        Some(best)
    } else {
        stored.base()
    }
}

// The linearisation of a class under the change, which leaves each an order.
fn line_under<'a>(change: Change<'a>, trials: &'a Trials, class: PyTypeRef) -> &'a [PyTypeRef]
    requires coherent { IsCoherent change.classes.now }
    requires own { is_class (classes_of change.classes.now) change.class.0 ≡ true }
    requires there { AreThere (classes_of change.classes.now) (numbers change.bases.now) }
    requires passed { refused_rebase (classes_of change.classes.now) change.class.0 (numbers change.bases.now) ≡ None }
    requires known { AreKnown change.classes.now change.class.0 (numbers change.bases.now) trials.now }
    requires class { is_class (classes_of change.classes.now) class.0 ≡ true }
    ensures { lin (changed change.entry) class.0 ≡ Some (numbers result.now) }
{
    match line_of(change, trials, class) {
        None => unreachable!(),
        Some(line) => line,
    }
}

// What the change makes of the class at a place.
fn renew_at(
    change: Change<'_>,
    alloc: Global,
    trials: &Trials,
    best: PyTypeRef,
    at: usize,
) -> Result<Renewed, OutOfMemory>
    requires coherent { IsCoherent change.classes.now }
    requires own { is_class (classes_of change.classes.now) change.class.0 ≡ true }
    requires there { AreThere (classes_of change.classes.now) (numbers change.bases.now) }
    requires passed { refused_rebase (classes_of change.classes.now) change.class.0 (numbers change.bases.now) ≡ None }
    requires best { best_of (classes_of change.classes.now) (numbers change.bases.now) ≡ Some best.0 }
    requires known { AreKnown change.classes.now change.class.0 (numbers change.bases.now) trials.now }
    requires inside { at < length change.classes.now }
    ensures { IfOk result (λ r. (k : StoredClass) → slice_get change.entry.classes.now at ≡ Some k →
        IsRenewed (changed change.entry) k.number r) }
{
    let number = change.classes.at(at).number();
    let line = line_under(change, trials, number);
    let base = base_under(change, best, at);
    renew(change, alloc, number, line, base)
}

// What the change makes of the classes at some places.
pub(crate) fn renew_all(
    change: Change<'_>,
    alloc: Global,
    places: &[usize],
    trials: &Trials,
    best: PyTypeRef,
) -> Result<Vec<Renewed>, OutOfMemory>
    requires coherent { IsCoherent change.classes.now }
    requires own { is_class (classes_of change.classes.now) change.class.0 ≡ true }
    requires there { AreThere (classes_of change.classes.now) (numbers change.bases.now) }
    requires passed { refused_rebase (classes_of change.classes.now) change.class.0 (numbers change.bases.now) ≡ None }
    requires best { best_of (classes_of change.classes.now) (numbers change.bases.now) ≡ Some best.0 }
    requires known { AreKnown change.classes.now change.class.0 (numbers change.bases.now) trials.now }
    requires inside { (i : ℕ) → Includes places.now i → i < length change.classes.now }
    ensures { IfOk result (λ v. AreRenewed change.entry.classes.now change.entry.class.0
        (numbers change.entry.bases.now) places.now v.items) }
{
    let mut all = Vec::new(alloc);
    for place in places {
        let renewed = renew_at(change, alloc, trials, best, *place)?;
        all.push(renewed)?;
    }
    Ok(all)
}

// Adds the linearisation that the class at a place has under the change: that which was made anew, or else that of now.
fn add_line(
    classes: &StoredClasses,
    places: &PlaceSet,
    renewed: &[Renewed],
    at: usize,
    lines: &mut Lines,
) -> Result<(), OutOfMemory>
    requires count { length renewed.now ≡ length places.now }
    requires inside { at < length classes.now }
    ensures { OnOk result (AreLinesTo classes.now places.now renewed.now at lines.old →
        AreLinesTo classes.now places.now renewed.now (at + 1) lines.new) }
{
    match places.index_of(at) {
        Some(index) => {
            let made = &renewed[index];
            lines.add(&made.mro, &made.near)
        }
        None => {
            let stored = classes.at(at);
            lines.add(stored.mro(), stored.near())
        }
    }
}

// The linearisations of all classes under the change.
pub(crate) fn lines_under(
    classes: &StoredClasses,
    alloc: Global,
    places: &PlaceSet,
    renewed: &[Renewed],
) -> Result<Lines, OutOfMemory>
    requires count { length renewed.now ≡ length places.now }
    requires inside { (i : ℕ) → Includes places.now i → i < length classes.now }
    ensures { IfOk result (λ lines. AreLinesOf classes.now places.now renewed.now lines) }
{
    let mut lines = Lines::new(alloc);
    for at in 0..classes.len() {
        add_line(classes, places, renewed, at, &mut lines)?;
    }
    Ok(lines)
}

// Puts what the change makes of the class at a place there, and takes back what it had.
fn swap_at(classes: &mut StoredClasses, at: usize, renewed: &mut Renewed)
    requires { at < length classes.old }
    ensures { (d : StoredClass) → classes.new ≡
        slice_set classes.old at (renewed_but_line renewed.old (slice_index_or classes.old at d)) }
{
    classes.renew(at, renewed);
}

// The same of the classes at some places, of all of which the linearisations are there. It takes no memory.
fn swap_all(classes: &mut StoredClasses, places: &[usize], mut renewed: Vec<Renewed>)
    requires count { length renewed.items ≡ length places.now }
    requires distinct { Distinct places.now }
    requires inside { (i : ℕ) → Includes places.now i → i < length classes.old }
    requires lines { (j i : ℕ) (k : StoredClass) (r : Made) → slice_get places.now j ≡ Some i →
        slice_get classes.old i ≡ Some k → slice_get renewed.items j ≡ Some r → k.mro ≡ numbers r.mro.items }
    ensures { AreSwapped places.now renewed.items classes.old classes.new }
{
    for index in 0..places.len() {
        swap_at(classes, places[index], &mut renewed[index]);
    }
}

// Puts what the change makes of the classes at some places there, and the linearisations of all. It takes no memory.
pub(crate) fn swap_in(
    classes: &mut StoredClasses,
    places: &[usize],
    renewed: Vec<Renewed>,
    lines: Lines,
)
    requires count { length renewed.items ≡ length places.now }
    requires distinct { Distinct places.now }
    requires inside { (i : ℕ) → Includes places.now i → i < length classes.old }
    requires lines { AreLinesOf classes.old places.now renewed.items lines }
    ensures { AreSwapped places.now renewed.items classes.old classes.new }
{
    classes.reline(lines);
    swap_all(classes, places, renewed);
}
