//! Natives as methods of a class.

ghost use Rattle.proto_attr.specs.Below.{[], None, IfOk, Reading, Reads, datum, plain, spelled, spelled_option, AllHold, Grows, Holds, IsClass, IsName, class_in, home_of, of_name_ref, of_option, of_payload, AMethodDescriptor};
ghost use Rattle.std.specs.Prelude.{◌≡◌, ◌∷◌, ◌++◌};
ghost use Rattle.py_node.specs.declared.built_in.BuiltIn.TheVariants as built_in;
ghost use Rattle.proto_attr.specs.NativeDefs.Definitions.{as_method, definition_of};

use crate::native_defs::PyMethodDef;
use class_world::World;
use py_node::{
    Boxed, MethodDescriptor, NativeEntry, OutOfMemory, Payload, PyMethodFlags, PyStrInterned,
    PyTypeRef,
};
use std::alloc::Global;

/// What descriptors have in common: the class whose attribute one is, its name there, and its qualified name once that
/// was asked for.
#[derive(Clone, Copy, PartialEq, Eq, Debug)]
pub struct PyDescriptor {
    pub typ: PyTypeRef,
    pub name: PyStrInterned,
    pub qualname: Option<PyStrInterned>,
}

/// The same, with its texts.
#[derive(Drop)]
pub struct PyDescriptorOwned {
    pub typ: PyTypeRef,
    pub name: String,
    pub qualname: Option<String>,
}

/// A native as a method of a class.
#[derive(Clone, Copy)]
pub struct PyMethodDescriptor {
    pub common: PyDescriptor,
    pub entry: NativeEntry,
    pub flags: PyMethodFlags,
    pub doc: Option<PyStrInterned>,
}

impl PyMethodDescriptor {
    /// The method of a class that a definition is, unless memory runs out. Its texts get numbers in the world, which
    /// stays as it was otherwise.
    pub fn new(
        world: &mut World,
        method: &PyMethodDef,
        typ: PyTypeRef,
    ) -> Result<PyMethodDescriptor, OutOfMemory>
        ensures class { IfOk result (λ d. d.common.typ ≡ typ) }
        ensures name { IfOk result (λ d. (t : Reading) → Reads t world.new →
            spelled t d.common.name ≡ (definition_of method.now).name) }
        ensures doc { IfOk result (λ d. (t : Reading) → Reads t world.new →
            spelled_option t d.doc ≡ (definition_of method.now).doc) }
        ensures qualname { IfOk result (λ d. d.common.qualname ≡ None) }
        ensures entry { IfOk result (λ d. d.entry ≡ method.now.func) }
        ensures flags { IfOk result (λ d. d.flags ≡ method.now.flags) }
        ensures holds { IfOk result (λ d. Holds world.new (IsName d.common.name)) }
        ensures doc_holds { IfOk result (λ d. AllHold world.new (of_option of_name_ref d.doc)) }
        ensures same { (t : Reading) → plain t world.new ≡ plain t world.old }
        ensures reads { (t : Reading) → Reads t world.new → Reads t world.old }
        ensures grows { Grows world.old world.new }
    {
        let name = world.intern(method.name.as_str())?;
        let doc = match &method.doc {
            None => None,
            Some(doc) => Some(world.intern(doc.as_str())?),
        };
        let common = PyDescriptor {
            typ,
            name,
            qualname: None,
        };
        Ok(PyMethodDescriptor {
            common,
            entry: method.func,
            flags: method.flags,
            doc,
        })
    }

    /// What an object of `method_descriptor` holds for it, unless memory runs out.
    pub fn payload(self, alloc: Global) -> Result<Payload, OutOfMemory>
        ensures reading { IfOk result (λ p. (t : Reading) → datum t p ≡ AMethodDescriptor self.common.typ.0
            (spelled t self.common.name) self.entry self.flags.0 (spelled_option t self.doc)) }
        ensures names { IfOk result (λ p. of_payload p ≡
            IsClass self.common.typ.0 ∷ IsName self.common.name ∷ of_option of_name_ref self.doc) }
        ensures home { IfOk result (λ p. home_of p ≡ built_in.MethodDescriptor) }
        ensures other { IfOk result (λ p. class_in p ≡ None) }
    {
        let method = MethodDescriptor {
            class: self.common.typ,
            name: self.common.name,
            entry: self.entry,
            flags: self.flags.0,
            doc: self.doc,
        };
        Ok(Payload::MethodDescriptor(Boxed::new(alloc, method)?))
    }
}
