//! What is so of every table of classes, and is the result of no call.

ghost use Rattle.class_table.specs.Below.{ℕ, List, true, Some, None, is_some, Distinct, Includes, Subsequence, PyObjectRef, PyStrInterned, is_same_name, class_at, is_class, own_of, bases_of, lin, is_sub, with_class_attr, without_class_attr, with_bases, is_place, layout, place_at, place_count, offset_of, AreSound, FailsAsSaid, PassesAsSaid};
ghost use Rattle.std.specs.Prelude.{◌≡◌, ◌<◌, ◌↔◌};
ghost use Rattle.class_table.specs.Refused.{AreThere};
ghost use Rattle.class_table.specs.Rebase.{refused_rebase};

use crate::table::ClassTable;

/// Other bases for a class fail at the least-numbered class that they leave without an order while all
/// its bases have one: for the reason that a base stands past the head of a later base's linearisation,
/// or else that the linearisations conflict. Where there is no such class they do not fail.
pub fn new_bases_fail(classes: &ClassTable)
    ensures fail { FailsAsSaid classes.now }
    ensures pass { PassesAsSaid classes.now }
{
    classes.sound();
}

/// A linearisation has no repeats, has the direct bases in their order, and keeps the linearisation of each
/// of its classes.
pub fn lines_keep_order(classes: &ClassTable)
    ensures distinct { (c : ℕ) (line : List ℕ) → lin classes.now c ≡ Some line → Distinct line }
    ensures bases { (c : ℕ) (line bs : List ℕ) → lin classes.now c ≡ Some line → bases_of classes.now c ≡ Some bs →
        Subsequence bs line }
    ensures members { (c : ℕ) (line : List ℕ) (x : ℕ) (l : List ℕ) → lin classes.now c ≡ Some line → Includes line x →
        lin classes.now x ≡ Some l → Subsequence l line }
{
    classes.sound();
}

/// A class derives from itself, and from each class that one derives from, from which it derives. It derives
/// from just the classes of its linearisation.
pub fn deriving_is_an_order(classes: &ClassTable)
    ensures itself { (c : ℕ) → is_class classes.now c ≡ true → is_sub classes.now c c ≡ true }
    ensures further { (a b c : ℕ) → is_sub classes.now a b ≡ true → is_sub classes.now b c ≡ true →
        is_sub classes.now a c ≡ true }
    ensures along { (c d : ℕ) (line : List ℕ) → lin classes.now c ≡ Some line →
        (is_sub classes.now c d ≡ true) ↔ Includes line d }
{
    classes.sound();
}

/// An attribute that a class doesn't have, set and taken out again, leaves the table as it was.
pub fn set_and_taken_out(classes: &ClassTable)
    ensures { (c : ℕ) (n : PyStrInterned) (v : PyObjectRef) →
        own_of (λ k. is_same_name k n) (class_at classes.now c) ≡ None →
        without_class_attr is_same_name (with_class_attr is_same_name classes.now c n v) c n ≡ classes.now }
{
    classes.sound();
}

/// Other bases for a class that pass every test leave the classes sound: each has an order, a solid class and, but for
/// `object`, a best base, and none derives from a class that derives from it.
pub fn bases_that_pass_keep_classes_sound(classes: &ClassTable)
    ensures { (c : ℕ) (bs : List ℕ) → is_class classes.now c ≡ true → AreThere classes.now bs →
        refused_rebase classes.now c bs ≡ None → AreSound (with_bases classes.now c bs) }
{
    classes.sound();
}

/// Other bases for a class that pass every test leave each class its layout, so that what its objects keep in their
/// places stays where it is.
pub fn bases_that_pass_keep_layouts(classes: &ClassTable)
    ensures { (c : ℕ) (bs : List ℕ) (d : ℕ) → is_class classes.now c ≡ true → AreThere classes.now bs →
        refused_rebase classes.now c bs ≡ None → layout (with_bases classes.now c bs) d ≡ layout classes.now d }
{
    classes.sound();
}

/// A place of a class's objects has the same offset in the objects of each class that derives from it.
pub fn places_keep_their_offsets(classes: &ClassTable)
    ensures { (c d n k : ℕ) → is_sub classes.now c d ≡ true → place_count classes.now d ≡ Some k → n < k →
        place_at classes.now c n ≡ place_at classes.now d n }
{
    classes.sound();
}

/// Each place of a class's objects has an offset: the number of the members of the classes that come before the place's own
/// class in the layout, added up, and its index. It is below the count of the places, no two places of a class have the same
/// one, it is that by which the place is named, and the place has the same one in the objects of each class that derives
/// from the class.
pub fn places_have_offsets_of_their_own(classes: &ClassTable)
    ensures there { (c d i : ℕ) → is_place classes.now c d i ≡ true → is_some (offset_of classes.now c d i) ≡ true }
    ensures below { (c d i n k : ℕ) → offset_of classes.now c d i ≡ Some n → place_count classes.now c ≡ Some k → n < k }
    ensures apart { (c d i e j n : ℕ) → offset_of classes.now c d i ≡ Some n → offset_of classes.now c e j ≡ Some n →
        (d ≡ e) × (i ≡ j) }
    ensures named { (c d i n : ℕ) → (place_at classes.now c n ≡ Some (d, i)) ↔ (offset_of classes.now c d i ≡ Some n) }
    ensures inherited { (c b d i n : ℕ) → is_sub classes.now c b ≡ true → offset_of classes.now b d i ≡ Some n →
        offset_of classes.now c d i ≡ Some n }
{
    classes.sound();
}
