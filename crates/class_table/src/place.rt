//! How a class is found by its number.

ghost use Rattle.class_table.specs.Below.{true, length, slice_get, Some, None, IfSome, IfNone, option_map, leb, class_at, is_class, is_ascending, limit, numbers_of};
ghost use Rattle.std.specs.Prelude.{◌≡◌, ◌<◌};
ghost use Rattle.class_table.specs.Stored.{IsHere, class_of, number_at, classes_of};

use crate::stored_classes::StoredClasses;
use crate::stored_ref::StoredRef;
use py_node::PyTypeRef;

// The place of a class, where there is such a class: its number, as long as no number is left out, or else by search.
pub(crate) fn find_place(classes: &StoredClasses, class: PyTypeRef) -> Option<usize>
    requires { is_ascending (classes_of classes.now) ≡ true }
    ensures place { IfSome result (λ i. number_at classes.now i ≡ Some class.0) }
    ensures none { IfNone result (class_at (classes_of classes.now) class.0 ≡ None) }
{
    let guess = class.0 as usize;
    if guess < classes.len() && classes.at(guess).number().0 == class.0 {
        return Some(guess);
    }
    classes.search(class)
}

// What is kept of a class, where there is such a class.
pub(crate) fn find(classes: &StoredClasses, class: PyTypeRef) -> Option<StoredRef<'_>>
    requires { is_ascending (classes_of classes.now) ≡ true }
    ensures here { IfSome result (λ k. IsHere classes.now class.0 k) }
    ensures class { option_map class_of result ≡ class_at (classes_of classes.now) class.0 }
{
    match find_place(classes, class) {
        None => None,
        Some(place) => Some(classes.at(place)),
    }
}

// The likely place at an index, or the first.
pub(crate) fn likely(near: &[usize], index: usize) -> usize {
    if index < near.len() { near[index] } else { 0 }
}

// The same, where the class is likely kept at a place.
pub(crate) fn find_near(
    classes: &StoredClasses,
    near: usize,
    class: PyTypeRef,
) -> Option<StoredRef<'_>>
    requires { is_ascending (classes_of classes.now) ≡ true }
    ensures here { IfSome result (λ k. IsHere classes.now class.0 k) }
    ensures class { option_map class_of result ≡ class_at (classes_of classes.now) class.0 }
{
    if near < classes.len() {
        let stored = classes.at(near);
        if stored.number().0 == class.0 {
            return Some(stored);
        }
    }
    find(classes, class)
}

// The place of a class that is there.
pub(crate) fn place(classes: &StoredClasses, class: PyTypeRef) -> usize
    requires ascending { is_ascending (classes_of classes.now) ≡ true }
    requires there { is_class (classes_of classes.now) class.0 ≡ true }
    ensures { number_at classes.now result ≡ Some class.0 }
{
    match find_place(classes, class) {
        None => unreachable!(),
        Some(place) => place,
    }
}

// What is kept of a class that is there.
pub(crate) fn stored_at(classes: &StoredClasses, class: PyTypeRef) -> StoredRef<'_>
    requires ascending { is_ascending (classes_of classes.now) ≡ true }
    requires there { is_class (classes_of classes.now) class.0 ≡ true }
    ensures here { IsHere classes.now class.0 result }
    ensures class { class_at (classes_of classes.now) class.0 ≡ Some (class_of result) }
{
    classes.at(place(classes, class))
}

// Whether a number is greater than all there.
pub(crate) fn takes(classes: &StoredClasses, number: PyTypeRef) -> bool
    requires { is_ascending (classes_of classes.now) ≡ true }
    ensures { result ≡ leb (limit (classes_of classes.now)) number.0 }
{
    if classes.is_empty() {
        true
    } else {
        classes.at(classes.len() - 1).number().0 < number.0
    }
}

// The number of the class at a place.
pub(crate) fn number_in(classes: &StoredClasses, place: usize) -> PyTypeRef
    requires ascending { is_ascending (classes_of classes.now) ≡ true }
    requires inside { place < length classes.now }
    ensures number { slice_get (numbers_of (classes_of classes.now)) place ≡ Some result.0 }
    ensures there { is_class (classes_of classes.now) result.0 ≡ true }
{
    classes.at(place).number()
}
