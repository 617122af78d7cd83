//! The class whose bases change, and all that derive from it.

ghost use Rattle.class_table.specs.Below.{ℕ, true, length, IfOk, OnOk, slice_get, Includes, is_class};
ghost use Rattle.std.specs.Prelude.{◌≡◌, ◌<◌, ◌≤◌};
ghost use Rattle.class_table.specs.Keys.{numbers};
ghost use Rattle.class_table.specs.Stored.{StoredClass, classes_of};
ghost use Rattle.class_table.specs.Coherent.{IsCoherent};
ghost use Rattle.class_table.specs.Descendants.{descendants, AreDescendants, AreAdded, AreMeasured, AreRanked};

use crate::place::place;
use crate::place_set::PlaceSet;
use crate::stored_classes::StoredClasses;
use py_node::{OutOfMemory, PyTypeRef};
use std::alloc::Global;

/// A place, and how long the linearisation of the class there is.
#[derive(Clone, Copy)]
pub(crate) struct Ranked {
    pub(crate) place: usize,
    pub(crate) length: usize,
}

// Adds the places of some classes.
pub(crate) fn add_places(
    classes: &StoredClasses,
    found: &mut PlaceSet,
    some: &[PyTypeRef],
) -> Result<(), OutOfMemory>
    requires coherent { IsCoherent classes.now }
    requires there { (n : ℕ) → Includes (numbers some.now) n → is_class (classes_of classes.now) n ≡ true }
    ensures { OnOk result (AreAdded classes.now (numbers some.now) found.old found.new) }
{
    for class in some {
        found.add(place(classes, *class))?;
    }
    Ok(())
}

// The direct subclasses of the class at a place.
fn subclasses_at(classes: &StoredClasses, at: usize) -> &[PyTypeRef]
    requires { at < length classes.now }
    ensures { (k : StoredClass) → slice_get classes.now at ≡ Some k → numbers result.now ≡ k.subclasses }
{
    classes.at(at).subclasses()
}

// The places of the class and of all that derive from it: those of the direct subclasses of each that was found.
pub(crate) fn descendants(
    classes: &StoredClasses,
    alloc: Global,
    class: PyTypeRef,
) -> Result<PlaceSet, OutOfMemory>
    requires coherent { IsCoherent classes.now }
    requires own { is_class (classes_of classes.now) class.0 ≡ true }
    ensures { IfOk result (λ v. AreDescendants classes.now class.0 v) }
{
    let mut found = PlaceSet::new(alloc);
    found.add(place(classes, class))?;
    for index in 0..classes.len() {
        match found.at(index) {
            None => return Ok(found),
            Some(at) => add_places(classes, &mut found, subclasses_at(classes, at))?,
        }
    }
    let _all = found.all();
    Ok(found)
}

// How long the linearisation of the class at a place is.
fn length_at(classes: &StoredClasses, at: usize) -> usize
    requires { at < length classes.now }
    ensures { (k : StoredClass) → slice_get classes.now at ≡ Some k → result ≡ length k.mro }
{
    classes.at(at).line_length()
}

// How long the linearisations of the classes at some places are.
fn measured(
    classes: &StoredClasses,
    alloc: Global,
    places: &[usize],
) -> Result<Vec<Ranked>, OutOfMemory>
    requires { (i : ℕ) → Includes places.now i → i < length classes.now }
    ensures { IfOk result (λ v. AreMeasured classes.now places.now v.items) }
{
    let mut ranked = Vec::new(alloc);
    for place in places {
        ranked.push(Ranked {
            place: *place,
            length: length_at(classes, *place),
        })?;
    }
    Ok(ranked)
}

// The class and all that derive from it, those with shorter linearisations first: so each comes after those of its bases
// that are among them. The numbers don't give this order once a class got a younger base.
pub(crate) fn in_order(
    classes: &StoredClasses,
    alloc: Global,
    class: PyTypeRef,
) -> Result<Vec<Ranked>, OutOfMemory>
    requires coherent { IsCoherent classes.now }
    requires own { is_class (classes_of classes.now) class.0 ≡ true }
    ensures ranked { IfOk result (λ v. AreRanked classes.now class.0 v.items) }
    ensures few { IfOk result (λ v. length v.items ≤ length (descendants (classes_of classes.now) class.0)) }
{
    let found = descendants(classes, alloc, class)?;
    let mut ranked = measured(classes, alloc, found.all())?;
    ranked.sort_unstable_by_key(|next| next.length);
    Ok(ranked)
}
