//! What rows read of objects and classes.
#![tactic(auto, unfolding(crate::specs::Reading::plain))]

ghost use Rattle.class_world.specs.Below.{Some, IfSome, option_map, nat_lt, ref, datum_at, class_object, type_object, class_number, special_at, is_instance, is_for_objects, is_fast, nearest_built_in, built_ins, first_with, numbers, place_of, BuiltIn, TypeType, holds_as};
ghost use Rattle.std.specs.Prelude.{◌≡◌};
ghost use Rattle.class_world.specs.Reading.{Reading, Reads, plain};
ghost use Rattle.class_world.specs.Sound.{IsNode, IsClass, IsOf, Holding, Holds};

use crate::world::World;
use bitflags::Flags;
use py_node::built_in::BUILT_IN_COUNT;
use py_node::{Payload, PyMethodFlags, PyObjectRef, PyStrInterned, PyTypeFlags, PyTypeRef};

impl World {
    /// The object that stands for a class.
    pub fn class_object(&self, class: PyTypeRef) -> PyObjectRef
        requires { Holds self.now (IsClass class.0) }
        ensures object { (t : Reading) → class_object (plain t self.now) class.0 ≡ result }
        ensures number { result ≡ ref class.0 }
        ensures node { Holds self.now (IsNode result) }
    {
        self.class_node(class)
    }

    /// The object that stands for an object's class.
    pub fn type_object(&self, node: PyObjectRef) -> PyObjectRef
        requires { Holds self.now (IsNode node) }
        ensures object { (t : Reading) → type_object (plain t self.now) node ≡ result }
        ensures node { Holds self.now (IsNode result) }
    {
        let class = self.class_of(node);
        self.class_object(class)
    }

    /// The class that an object stands for, if it stands for one.
    pub fn class_number(&self, node: PyObjectRef) -> Option<PyTypeRef>
        requires { Holds self.now (IsNode node) }
        ensures number { (t : Reading) → class_number (datum_at (plain t self.now) node) ≡
            option_map (λ c. c.0) result }
        ensures class { IfSome result (λ c. Holds self.now (IsClass c.0)) }
        ensures holding { IfSome result (λ c. Holds self.now (Holding node TypeType)) }
    {
        match self.payload(node) {
            Payload::Class(class) => Some(*class),
            _ => None,
        }
    }

    /// The value of a name along the linearisation of an object's class.
    pub fn special(&self, node: PyObjectRef, name: PyStrInterned) -> Option<PyObjectRef>
        requires { Holds self.now (IsNode node) }
        ensures found { (t : Reading) → Reads t self.now → special_at (plain t self.now) node (t.text name.0) ≡ result }
        ensures node { IfSome result (λ r. Holds self.now (IsNode r)) }
    {
        let class = self.class_of(node);
        self.class_attr(class, name)
    }

    /// Whether an object's class derives from a class.
    pub fn is_instance(&self, node: PyObjectRef, class: PyTypeRef) -> bool
        requires { Holds self.now (IsNode node) }
        ensures { (t : Reading) → is_instance (plain t self.now) node class.0 ≡ result }
    {
        let own = self.class_of(node);
        self.is_sub(own, class)
    }

    /// Whether a method can be called with its object before the arguments, without being bound.
    pub fn is_fast(&self, method: PyObjectRef) -> bool
        requires { Holds self.now (IsNode method) }
        ensures { (t : Reading) → is_fast (plain t self.now) method ≡ result }
    {
        let class = self.class_of(method);
        self.class_flag(class, PyTypeFlags::METHOD_DESCRIPTOR) && self.is_for_objects(method)
    }

    // Whether a native is a method of objects, where it is a native at all.
    fn is_for_objects(&self, method: PyObjectRef) -> bool
        requires { Holds self.now (IsNode method) }
        ensures { (t : Reading) → is_for_objects (datum_at (plain t self.now) method) ≡ result }
    {
        match self.payload(method) {
            Payload::MethodDescriptor(method) => {
                PyMethodFlags(method.get().flags).contains(PyMethodFlags::METHOD)
            }
            _ => true,
        }
    }

    /// The built-in class whose objects a class's objects are: the nearest one along the linearisation.
    pub fn nearest_built_in(&self, class: PyTypeRef) -> Option<PyTypeRef>
        requires { Holds self.now (IsClass class.0) }
        ensures nearest { (t : Reading) → nearest_built_in (plain t self.now).classes class.0 ≡
            option_map (λ c. c.0) result }
        ensures of { (b : BuiltIn) → option_map (λ c. c.0) result ≡ Some (place_of b) →
            Holds self.now (IsOf class.0 (holds_as b)) }
    {
        first_built_in(self.classes().mro(class))
    }
}

// The first built-in class along a line.
fn first_built_in(line: &[PyTypeRef]) -> Option<PyTypeRef>
    ensures { first_with (λ d. nat_lt d built_ins) (numbers line.now) ≡ option_map (λ c. c.0) result }
{
    for class in line {
        if class.0 < BUILT_IN_COUNT {
            return Some(*class);
        }
    }
    None
}
