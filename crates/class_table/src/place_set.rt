//! Places, each once.

ghost use Rattle.class_table.specs.Below.{ℕ, List, [], cond, IfNone, IfSome, OnOk, Some, slice_get, has, Distinct, Includes};
ghost use Rattle.std.specs.Prelude.{◌≡◌, ◌∷◌, ◌++◌};

use indexmap::IndexSet;
use py_node::OutOfMemory;
use std::alloc::Global;
use std::marker::Model;

/// Places in the order in which they were found, each once.
#[derive(Drop)]
pub(crate) struct PlaceSet {
    places: IndexSet<usize>,
}

impl Model for PlaceSet {
    ghost use Rattle.std.specs.Prelude.{ℕ, List};

    ghost Value = { List ℕ };

    ghost view = { λ a. a.places.keys };
}

impl PlaceSet {
    // No places.
    pub(crate) fn new(alloc: Global) -> PlaceSet
        ensures { result ≡ [] }
    {
        PlaceSet {
            places: IndexSet::new(alloc),
        }
    }

    // Adds a place, where it is not there yet.
    pub(crate) fn add(&mut self, place: usize) -> Result<(), OutOfMemory>
        ensures { OnOk result (self.new ≡ cond (has self.old place) self.old (self.old ++ place ∷ [])) }
    {
        self.places.insert(place)?;
        Ok(())
    }

    // The place at an index, if there are so many.
    pub(crate) fn at(&self, index: usize) -> Option<usize>
        ensures place { result ≡ slice_get self.now index }
        ensures distinct { Distinct self.now }
    {
        // (that the keys differ is told by a call of the set)
        let _count = self.places.len();
        self.places.get_index(index).copied()
    }

    // The index of a place, if it is there.
    pub(crate) fn index_of(&self, place: usize) -> Option<usize>
        ensures there { IfSome result (λ j. slice_get self.now j ≡ Some place) }
        ensures none { IfNone result (Includes self.now place → ⊥) }
        ensures distinct { Distinct self.now }
    {
        // (that the keys differ is told by a call of the set)
        let _count = self.places.len();
        self.places.get_index_of(&place)
    }

    // All places.
    pub(crate) fn all(&self) -> &[usize]
        ensures all { result.now ≡ self.now }
        ensures distinct { Distinct self.now }
    {
        // (that the keys differ is told by a call of the set)
        let _count = self.places.len();
        self.places.as_slice()
    }
}
