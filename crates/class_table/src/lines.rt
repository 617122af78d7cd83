//! The linearisations of classes, one after the other in one array.

ghost use Rattle.class_table.specs.Below.{ℕ, List, [], OnOk, OnErr, length, take, drop, slice_index_or};
ghost use Rattle.std.specs.Prelude.{◌≡◌, ◌+◌, ◌<◌, ◌≤◌, ◌++◌, ◌∷◌};
ghost use Rattle.class_table.specs.Keys.{numbers};

use py_node::{OutOfMemory, PyTypeRef};
use std::alloc::Global;
use std::marker::Model;

/// Where a linearisation begins in the array, and how many classes it has.
#[derive(Clone, Copy)]
pub(crate) struct Part {
    pub(crate) start: usize,
    pub(crate) length: usize,
}

/// Linearisations, in the order of the classes that have them. Contracts see each as the numbers of its classes.
#[derive(Drop)]
pub(crate) struct Lines {
    array: Vec<PyTypeRef>,
    // Where each class in the array is likely kept. Any number will do: each is tested.
    near: Vec<usize>,
    parts: Vec<Part>,
}

impl Model for Lines {
    ghost use Rattle.std.specs.Prelude.{ℕ, List, map};
    ghost use Rattle.std.specs.List.{All};
    ghost use Rattle.class_table.specs.Lines.{part_of, IsWithin};

    ghost Value = { List (List ℕ) };

    ghost view = { λ a. map (part_of a.array.items) a.parts.items };

    ghost invariant = { λ a. All (IsWithin a.array.items) a.parts.items };
}

// The part of an array.
fn classes_in<'a>(array: &'a [PyTypeRef], part: Part) -> &'a [PyTypeRef]
    requires { part.start + part.length ≤ length array.now }
    ensures { result.now ≡ take part.length (drop part.start array.now) }
{
    &array[part.start..part.start + part.length]
}

// The same of the likely places, where there are so many.
fn likely_part<'a>(near: &'a [usize], part: Part) -> &'a [usize] {
    if part.start <= near.len() && part.length <= near.len() - part.start {
        &near[part.start..part.start + part.length]
    } else {
        &near[..0]
    }
}

impl Lines {
    // No linearisations.
    pub(crate) fn new(alloc: Global) -> Lines
        ensures { result ≡ [] }
    {
        Lines {
            array: Vec::new(alloc),
            near: Vec::new(alloc),
            parts: Vec::new(alloc),
        }
    }

    // How many linearisations there are.
    pub(crate) fn len(&self) -> usize
        ensures { result ≡ length self.now }
    {
        self.parts.len()
    }

    // The linearisation at a place.
    pub(crate) fn at(&self, place: usize) -> &[PyTypeRef]
        requires { place < length self.now }
        ensures { (d : List ℕ) → numbers result.now ≡ slice_index_or self.now place d }
    {
        classes_in(&self.array, self.parts[place])
    }

    // Where each class of it is likely kept.
    pub(crate) fn near(&self, place: usize) -> &[usize]
        requires { place < length self.now }
    {
        likely_part(&self.near, self.parts[place])
    }

    // Adds a linearisation, and where each of its classes is likely kept.
    pub(crate) fn add(&mut self, line: &[PyTypeRef], near: &[usize]) -> Result<(), OutOfMemory>
        ensures ok { OnOk result (self.new ≡ self.old ++ numbers line.now ∷ []) }
        ensures err { OnErr result (self.new ≡ self.old) }
    {
        let part = Part {
            start: self.array.len(),
            length: line.len(),
        };
        self.parts.reserve(1)?;
        // (what an earlier call left there is cut off)
        self.near.truncate(part.start);
        self.near.extend_from_slice(near)?;
        self.array.extend_from_slice(line)?;
        self.parts.push_reserved(part);
        Ok(())
    }
}
