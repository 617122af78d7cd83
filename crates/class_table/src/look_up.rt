//! How the value of a name is found for a class.

ghost use Rattle.class_table.specs.Below.{true, is_some, is_same_name, class_at, is_class, found, found_past, own_of};
ghost use Rattle.std.specs.Prelude.{◌≡◌};
ghost use Rattle.class_table.specs.Coherent.{IsCoherent};
ghost use Rattle.class_table.specs.Stored.{classes_of};

use crate::place::stored_at;
use crate::read::{value_along, value_past};
use crate::stored_classes::StoredClasses;
use crate::table::ClassTable;
use py_node::{PyObjectRef, PyStrInterned, PyTypeRef};

// The value of a name, in the first class along the linearisation that has it: by a search.
fn search(classes: &StoredClasses, class: PyTypeRef, name: PyStrInterned) -> Option<PyObjectRef>
    requires coherent { IsCoherent classes.now }
    requires there { is_class (classes_of classes.now) class.0 ≡ true }
    ensures { result ≡ found is_same_name (classes_of classes.now) class.0 name }
{
    let stored = stored_at(classes, class);
    value_along(classes, stored.near(), stored.mro(), name)
}

impl ClassTable {
    /// The value of a name, in the first class along the linearisation that has it. What `find_attr` found since the last
    /// change of a class is told at once; what is found here is not kept.
    pub fn get_attr(&self, class: PyTypeRef, name: PyStrInterned) -> Option<PyObjectRef>
        requires { is_class self.now class.0 ≡ true }
        ensures { result ≡ found is_same_name self.now class.0 name }
    {
        match self.cache.get(class, name) {
            Some(answer) => answer,
            None => search(&self.classes, class, name),
        }
    }

    /// The same, and it is kept until a class changes, so that the next look-up of the class and the name needs no search.
    /// It takes no memory.
    pub fn find_attr(&mut self, class: PyTypeRef, name: PyStrInterned) -> Option<PyObjectRef>
        requires { is_class self.old class.0 ≡ true }
        ensures found { result ≡ found is_same_name self.old class.0 name }
        ensures same { self.new ≡ self.old }
    {
        if let Some(answer) = self.cache.get(class, name) {
            return answer;
        }
        let answer = search(&self.classes, class, name);
        self.cache.put(class, name, answer);
        answer
    }

    /// A class's own value of a name.
    pub fn get_direct_attr(&self, class: PyTypeRef, name: PyStrInterned) -> Option<PyObjectRef>
        requires { is_class self.now class.0 ≡ true }
        ensures { result ≡ own_of (λ k. is_same_name k name) (class_at self.now class.0) }
    {
        stored_at(&self.classes, class).own(name)
    }

    /// The value of a name in the first class along the linearisation, past the class itself, that has it.
    pub fn get_super_attr(&self, class: PyTypeRef, name: PyStrInterned) -> Option<PyObjectRef>
        requires { is_class self.now class.0 ≡ true }
        ensures { result ≡ found_past is_same_name self.now class.0 name }
    {
        let stored = stored_at(&self.classes, class);
        value_past(&self.classes, stored.near(), stored.mro(), name)
    }

    /// Whether a class or one along its linearisation has a name.
    pub fn has_attr(&self, class: PyTypeRef, name: PyStrInterned) -> bool
        requires { is_class self.now class.0 ≡ true }
        ensures { result ≡ is_some (found is_same_name self.now class.0 name) }
    {
        self.get_attr(class, name).is_some()
    }
}
