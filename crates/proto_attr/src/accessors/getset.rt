//! Attributes that natives read and set.

ghost use Rattle.proto_attr.specs.Below.{[], None, IfOk, Some, Reading, datum, spelled, IsClass, IsName, class_in, home_of, of_payload, AGetSet};
ghost use Rattle.std.specs.Prelude.{◌≡◌, ◌∷◌};
ghost use Rattle.py_node.specs.declared.built_in.BuiltIn.TheVariants as built_in;

use py_node::{Boxed, GetSet, NativeEntry, OutOfMemory, Payload, PyStrInterned, PyTypeRef};
use std::alloc::Global;

/// The natives that read and set an attribute of the objects of a class, each if it is there.
#[derive(Clone, Copy)]
pub struct PyGetSet {
    pub name: PyStrInterned,
    pub class: PyTypeRef,
    pub getter: Option<NativeEntry>,
    pub setter: Option<NativeEntry>,
}

impl PyGetSet {
    /// An attribute that is neither read nor set yet.
    pub fn new(name: PyStrInterned, class: PyTypeRef) -> PyGetSet
        ensures { result ≡ record { name = name; class = class; getter = None; setter = None } }
    {
        PyGetSet {
            name,
            class,
            getter: None,
            setter: None,
        }
    }

    /// The same, read by this native.
    pub fn with_get(self, getter: NativeEntry) -> PyGetSet
        ensures { result ≡ record self { getter = Some getter } }
    {
        PyGetSet {
            getter: Some(getter),
            ..self
        }
    }

    /// The same, set and deleted by this native.
    pub fn with_set(self, setter: NativeEntry) -> PyGetSet
        ensures { result ≡ record self { setter = Some setter } }
    {
        PyGetSet {
            setter: Some(setter),
            ..self
        }
    }

    /// What an object of `getset_descriptor` holds for it, unless memory runs out.
    pub fn payload(self, alloc: Global) -> Result<Payload, OutOfMemory>
        ensures reading { IfOk result (λ p. (t : Reading) → datum t p ≡
            AGetSet self.class.0 (spelled t self.name) self.getter self.setter) }
        ensures names { IfOk result (λ p. of_payload p ≡ IsClass self.class.0 ∷ IsName self.name ∷ []) }
        ensures home { IfOk result (λ p. home_of p ≡ built_in.GetSetDescriptor) }
        ensures other { IfOk result (λ p. class_in p ≡ None) }
    {
        let parts = GetSet {
            class: self.class,
            name: self.name,
            getter: self.getter,
            setter: self.setter,
        };
        Ok(Payload::GetSet(Boxed::new(alloc, parts)?))
    }
}
