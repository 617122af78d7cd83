//! The table of names: each text has one number, by which it is known from then on.

ghost use Rattle.py_node.specs.Below.{ℕ, List, [], length, Some, IsOk, IfOk, OnOk, OnErr, IfSome, IfNone, slice_get};
ghost use Rattle.std.specs.Prelude.{◌≡◌, ◌<◌, ◌≤◌, ◌∷◌, ◌++◌};
ghost use Rattle.py_node.specs.Texts.{AreDistinct, Stands};

use crate::memory::OutOfMemory;
use crate::refs::PyStrInterned;
use indexmap::IndexSet;
use std::alloc::Global;
use std::marker::Model;

/// The table of names, in which no text stands twice. A name's number is its place.
#[derive(Drop)]
pub struct Names {
    texts: IndexSet<String>,
    alloc: Global,
}

impl Model for Names {
    ghost use Rattle.std.specs.Prelude.{ℕ, List, map, string_bytes};
    ghost use Rattle.py_node.specs.Texts.{AreDistinct};

    ghost Value = { List (List ℕ) };

    ghost view = { λ a. map (λ s. string_bytes s) a.texts.keys };

    ghost invariant = { λ a. AreDistinct (map (λ s. string_bytes s) a.texts.keys) };
}

impl Names {
    /// An empty table.
    pub fn new(alloc: Global) -> Names
        ensures { result ≡ [] }
    {
        Names {
            texts: IndexSet::new(alloc),
            alloc,
        }
    }

    /// How many names there are.
    pub fn len(&self) -> usize
        ensures count { result ≡ length self.now }
        ensures distinct { AreDistinct self.now }
    {
        self.texts.len()
    }

    /// The name of a text, which is new where the table lacks it. A known text takes no memory.
    pub fn intern(&mut self, text: &str) -> Result<PyStrInterned, OutOfMemory>
        ensures spelled { IfOk result (λ n. slice_get self.new n.0 ≡ Some text.now) }
        ensures same { Stands self.old text.now → self.new ≡ self.old }
        ensures known { Stands self.old text.now → IsOk result }
        ensures added { OnOk result ((Stands self.old text.now → ⊥) → self.new ≡ self.old ++ text.now ∷ []) }
        ensures grows { (n : ℕ) (x : List ℕ) → slice_get self.old n ≡ Some x → slice_get self.new n ≡ Some x }
        ensures longer { length self.old ≤ length self.new }
        ensures err { OnErr result (self.new ≡ self.old) }
    {
        match self.interned_str(text) {
            Some(name) => Ok(name),
            None => self.push(text),
        }
    }

    /// The name of a text, if it has one.
    pub fn interned_str(&self, text: &str) -> Option<PyStrInterned>
        ensures found { IfSome result (λ n. slice_get self.now n.0 ≡ Some text.now) }
        ensures none { IfNone result ((n : ℕ) → slice_get self.now n ≡ Some text.now → ⊥) }
    {
        match self.texts.get_full(text) {
            Some((number, _)) => Some(PyStrInterned(number as u64)),
            None => None,
        }
    }

    /// The text of a name.
    pub fn text(&self, name: PyStrInterned) -> &str
        requires { name.0 < length self.now }
        ensures { slice_get self.now name.0 ≡ Some result.now }
    {
        self.texts.as_slice()[name.0 as usize].as_str()
    }

    // One more name, for a text that the table lacks.
    fn push(&mut self, text: &str) -> Result<PyStrInterned, OutOfMemory>
        requires { Stands self.old text.now → ⊥ }
        ensures last { IfOk result (λ n. n.0 ≡ length self.old) }
        ensures added { OnOk result (self.new ≡ self.old ++ text.now ∷ []) }
        ensures err { OnErr result (self.new ≡ self.old) }
    {
        let alloc = self.alloc;
        let number = self.texts.len();
        let copy = String::from_str(alloc, text)?;
        self.texts.insert(copy)?;
        Ok(PyStrInterned(number as u64))
    }
}
