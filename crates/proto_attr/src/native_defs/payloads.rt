//! What a definition is as an object: its texts get numbers in a world, which stays as it was otherwise.

ghost use Rattle.proto_attr.specs.Below.{None, Some, IfOk, Reading, Reads, datum, plain, spelled, spelled_option, IsNode, IsClass, IsName, Holds, AllHold, Grows, home_of, class_in, of_payload, of_option, of_name_ref, of_node_ref};
ghost use Rattle.std.specs.Prelude.{◌≡◌};
ghost use Rattle.py_node.specs.declared.built_in.BuiltIn.TheVariants as built_in;
ghost use Rattle.proto_attr.specs.NativeDefs.Definitions.{definition_of, as_function, as_method, as_bound_method, as_attribute, attribute_home, is_method};

use crate::native_defs::def::PyMethodDef;
use bitflags::Flags;
use class_world::World;
use py_node::{
    Boxed, BuiltinMethod, MethodDescriptor, NativeFunction, OutOfMemory, Payload, PyMethodFlags,
    PyObjectRef, PyStrInterned, PyTypeRef,
};

impl PyMethodDef {
    // The numbers of its texts.
    fn names(
        &self,
        world: &mut World,
    ) -> Result<(PyStrInterned, Option<PyStrInterned>), OutOfMemory>
        ensures name { IfOk result (λ x. (t : Reading) → Reads t world.new →
            spelled t x.0 ≡ (definition_of self.now).name) }
        ensures doc { IfOk result (λ x. (t : Reading) → Reads t world.new →
            spelled_option t x.1 ≡ (definition_of self.now).doc) }
        ensures holds { IfOk result (λ x. Holds world.new (IsName x.0)) }
        ensures doc_holds { IfOk result (λ x. AllHold world.new (of_option of_name_ref x.1)) }
        ensures same { (t : Reading) → plain t world.new ≡ plain t world.old }
        ensures reads { (t : Reading) → Reads t world.new → Reads t world.old }
        ensures grows { Grows world.old world.new }
    {
        let name = world.intern(self.name.as_str())?;
        match &self.doc {
            None => Ok((name, None)),
            Some(doc) => {
                let doc = world.intern(doc.as_str())?;
                Ok((name, Some(doc)))
            }
        }
    }

    // As a function, which may be bound to an object.
    fn function(
        &self,
        world: &mut World,
        target: Option<PyObjectRef>,
    ) -> Result<Payload, OutOfMemory>
        requires { AllHold world.old (of_option of_node_ref target) }
        ensures reading { IfOk result (λ p. (t : Reading) → Reads t world.new →
            datum t p ≡ as_function (definition_of self.now) target) }
        ensures holds { IfOk result (λ p. AllHold world.new (of_payload p)) }
        ensures home { IfOk result (λ p. home_of p ≡ built_in.BuiltinFunctionOrMethod) }
        ensures other { IfOk result (λ p. class_in p ≡ None) }
        ensures same { (t : Reading) → plain t world.new ≡ plain t world.old }
        ensures reads { (t : Reading) → Reads t world.new → Reads t world.old }
        ensures grows { Grows world.old world.new }
    {
        let (name, doc) = self.names(world)?;
        let function = NativeFunction {
            name,
            entry: self.func,
            target,
            doc,
        };
        Ok(Payload::NativeFunction(Boxed::new(world.alloc(), function)?))
    }

    /// As a function that isn't bound.
    pub fn to_function(&self, world: &mut World) -> Result<Payload, OutOfMemory>
        ensures reading { IfOk result (λ p. (t : Reading) → Reads t world.new →
            datum t p ≡ as_function (definition_of self.now) None) }
        ensures holds { IfOk result (λ p. AllHold world.new (of_payload p)) }
        ensures home { IfOk result (λ p. home_of p ≡ built_in.BuiltinFunctionOrMethod) }
        ensures other { IfOk result (λ p. class_in p ≡ None) }
        ensures same { (t : Reading) → plain t world.new ≡ plain t world.old }
        ensures reads { (t : Reading) → Reads t world.new → Reads t world.old }
        ensures grows { Grows world.old world.new }
    {
        self.function(world, None)
    }

    /// As a function that is bound to an object.
    pub(crate) fn to_bound_function(
        &self,
        world: &mut World,
        obj: PyObjectRef,
    ) -> Result<Payload, OutOfMemory>
        requires { Holds world.old (IsNode obj) }
        ensures reading { IfOk result (λ p. (t : Reading) → Reads t world.new →
            datum t p ≡ as_function (definition_of self.now) (Some obj)) }
        ensures holds { IfOk result (λ p. AllHold world.new (of_payload p)) }
        ensures home { IfOk result (λ p. home_of p ≡ built_in.BuiltinFunctionOrMethod) }
        ensures other { IfOk result (λ p. class_in p ≡ None) }
        ensures same { (t : Reading) → plain t world.new ≡ plain t world.old }
        ensures reads { (t : Reading) → Reads t world.new → Reads t world.old }
        ensures grows { Grows world.old world.new }
    {
        self.function(world, Some(obj))
    }

    /// As a method of a class.
    pub fn to_method(&self, world: &mut World, class: PyTypeRef) -> Result<Payload, OutOfMemory>
        requires { Holds world.old (IsClass class.0) }
        ensures reading { IfOk result (λ p. (t : Reading) → Reads t world.new →
            datum t p ≡ as_method (definition_of self.now) class.0) }
        ensures holds { IfOk result (λ p. AllHold world.new (of_payload p)) }
        ensures home { IfOk result (λ p. home_of p ≡ built_in.MethodDescriptor) }
        ensures other { IfOk result (λ p. class_in p ≡ None) }
        ensures same { (t : Reading) → plain t world.new ≡ plain t world.old }
        ensures reads { (t : Reading) → Reads t world.new → Reads t world.old }
        ensures grows { Grows world.old world.new }
    {
        let (name, doc) = self.names(world)?;
        let method = MethodDescriptor {
            class,
            name,
            entry: self.func,
            flags: self.flags.0,
            doc,
        };
        Ok(Payload::MethodDescriptor(Boxed::new(world.alloc(), method)?))
    }

    /// As a method of a class that is bound to an object.
    pub fn to_bound_method(
        &self,
        world: &mut World,
        obj: PyObjectRef,
        class: PyTypeRef,
    ) -> Result<Payload, OutOfMemory>
        requires obj { Holds world.old (IsNode obj) }
        requires class { Holds world.old (IsClass class.0) }
        ensures reading { IfOk result (λ p. (t : Reading) → Reads t world.new →
            datum t p ≡ as_bound_method (definition_of self.now) obj class.0) }
        ensures holds { IfOk result (λ p. AllHold world.new (of_payload p)) }
        ensures home { IfOk result (λ p. home_of p ≡ built_in.BuiltinMethod) }
        ensures other { IfOk result (λ p. class_in p ≡ None) }
        ensures same { (t : Reading) → plain t world.new ≡ plain t world.old }
        ensures reads { (t : Reading) → Reads t world.new → Reads t world.old }
        ensures grows { Grows world.old world.new }
    {
        let (name, doc) = self.names(world)?;
        let method = BuiltinMethod {
            name,
            entry: self.func,
            target: obj,
            class,
            doc,
        };
        Ok(Payload::BuiltinMethod(Boxed::new(world.alloc(), method)?))
    }

    /// Whether it is a method of objects or of classes, and no function.
    pub fn is_method(&self) -> bool
        ensures { result ≡ is_method (definition_of self.now) }
    {
        self.flags.contains(PyMethodFlags::METHOD) || self.flags.contains(PyMethodFlags::CLASS)
    }

    /// As an attribute of a class: a method of it, or a function that isn't bound where the definition is static.
    pub fn to_proper_method(
        &self,
        world: &mut World,
        class: PyTypeRef,
    ) -> Result<Payload, OutOfMemory>
        requires class { Holds world.old (IsClass class.0) }
        ensures reading { IfOk result (λ p. (t : Reading) → Reads t world.new →
            datum t p ≡ as_attribute (definition_of self.now) class.0) }
        ensures holds { IfOk result (λ p. AllHold world.new (of_payload p)) }
        ensures home { IfOk result (λ p. home_of p ≡ attribute_home (definition_of self.now)) }
        ensures other { IfOk result (λ p. class_in p ≡ None) }
        ensures same { (t : Reading) → plain t world.new ≡ plain t world.old }
        ensures reads { (t : Reading) → Reads t world.new → Reads t world.old }
        ensures grows { Grows world.old world.new }
    {
        if self.is_method() {
            self.to_method(world, class)
        } else {
            self.to_function(world)
        }
    }
}
