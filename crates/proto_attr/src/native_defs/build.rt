//! The objects of definitions, made in a world. Where memory runs out, only texts may have got numbers.

ghost use Rattle.proto_attr.specs.Below.{None, Some, IfOk, OnOk, OnErr, place_of, with_node, next_node, Reading, Reads, plain, IsNode, IsClass, Holding, Holds, Grows};
ghost use Rattle.std.specs.Prelude.{◌≡◌};
ghost use Rattle.py_node.specs.declared.built_in.BuiltIn.TheVariants as built_in;
ghost use Rattle.proto_attr.specs.NativeDefs.Definitions.{definition_of, as_function, as_method, as_bound_method};

use crate::native_defs::def::PyMethodDef;
use class_world::World;
use py_node::{BuiltIn, OutOfMemory, PyObjectRef, PyTypeRef};

impl PyMethodDef {
    /// A new function that isn't bound.
    pub fn build_function(&self, world: &mut World) -> Result<PyObjectRef, OutOfMemory>
        ensures made { OnOk result ((t : Reading) → Reads t world.new → plain t world.new ≡
            with_node (plain t world.old) (place_of built_in.BuiltinFunctionOrMethod) (as_function (definition_of self.now) None)) }
        ensures number { IfOk result (λ r. (t : Reading) → r ≡
            next_node (plain t world.old) (place_of built_in.BuiltinFunctionOrMethod)) }
        ensures same { OnErr result ((t : Reading) → plain t world.new ≡ plain t world.old) }
        ensures reads { (t : Reading) → Reads t world.new → Reads t world.old }
        ensures grows { Grows world.old world.new }
        ensures node { IfOk result (λ r. Holds world.new (IsNode r)) }
        ensures holding { IfOk result (λ r. Holds world.new (Holding r built_in.BuiltinFunctionOrMethod)) }
    {
        let payload = self.to_function(world)?;
        let home = world.built_in(BuiltIn::BuiltinFunctionOrMethod);
        world.make_node(home, payload)
    }

    /// A new function that is bound to an object.
    pub fn build_bound_function(
        &self,
        world: &mut World,
        obj: PyObjectRef,
    ) -> Result<PyObjectRef, OutOfMemory>
        requires { Holds world.old (IsNode obj) }
        ensures made { OnOk result ((t : Reading) → Reads t world.new → plain t world.new ≡
            with_node (plain t world.old) (place_of built_in.BuiltinFunctionOrMethod) (as_function (definition_of self.now) (Some obj))) }
        ensures number { IfOk result (λ r. (t : Reading) → r ≡
            next_node (plain t world.old) (place_of built_in.BuiltinFunctionOrMethod)) }
        ensures same { OnErr result ((t : Reading) → plain t world.new ≡ plain t world.old) }
        ensures reads { (t : Reading) → Reads t world.new → Reads t world.old }
        ensures grows { Grows world.old world.new }
        ensures node { IfOk result (λ r. Holds world.new (IsNode r)) }
        ensures holding { IfOk result (λ r. Holds world.new (Holding r built_in.BuiltinFunctionOrMethod)) }
    {
        let payload = self.to_bound_function(world, obj)?;
        let home = world.built_in(BuiltIn::BuiltinFunctionOrMethod);
        world.make_node(home, payload)
    }

    /// A new method of a class.
    pub fn build_method(
        &self,
        world: &mut World,
        class: PyTypeRef,
    ) -> Result<PyObjectRef, OutOfMemory>
        requires { Holds world.old (IsClass class.0) }
        ensures made { OnOk result ((t : Reading) → Reads t world.new → plain t world.new ≡
            with_node (plain t world.old) (place_of built_in.MethodDescriptor) (as_method (definition_of self.now) class.0)) }
        ensures number { IfOk result (λ r. (t : Reading) → r ≡
            next_node (plain t world.old) (place_of built_in.MethodDescriptor)) }
        ensures same { OnErr result ((t : Reading) → plain t world.new ≡ plain t world.old) }
        ensures reads { (t : Reading) → Reads t world.new → Reads t world.old }
        ensures grows { Grows world.old world.new }
        ensures node { IfOk result (λ r. Holds world.new (IsNode r)) }
        ensures holding { IfOk result (λ r. Holds world.new (Holding r built_in.MethodDescriptor)) }
    {
        let payload = self.to_method(world, class)?;
        let home = world.built_in(BuiltIn::MethodDescriptor);
        world.make_node(home, payload)
    }

    /// A new method of a class that is bound to an object.
    pub fn build_bound_method(
        &self,
        world: &mut World,
        obj: PyObjectRef,
        class: PyTypeRef,
    ) -> Result<PyObjectRef, OutOfMemory>
        requires obj { Holds world.old (IsNode obj) }
        requires class { Holds world.old (IsClass class.0) }
        ensures made { OnOk result ((t : Reading) → Reads t world.new → plain t world.new ≡
            with_node (plain t world.old) (place_of built_in.BuiltinMethod) (as_bound_method (definition_of self.now) obj class.0)) }
        ensures number { IfOk result (λ r. (t : Reading) → r ≡
            next_node (plain t world.old) (place_of built_in.BuiltinMethod)) }
        ensures same { OnErr result ((t : Reading) → plain t world.new ≡ plain t world.old) }
        ensures reads { (t : Reading) → Reads t world.new → Reads t world.old }
        ensures grows { Grows world.old world.new }
        ensures node { IfOk result (λ r. Holds world.new (IsNode r)) }
        ensures holding { IfOk result (λ r. Holds world.new (Holding r built_in.BuiltinMethod)) }
    {
        let payload = self.to_bound_method(world, obj, class)?;
        let home = world.built_in(BuiltIn::BuiltinMethod);
        world.make_node(home, payload)
    }

    /// A new method of a class, which is called with the class.
    pub fn build_classmethod(
        &self,
        world: &mut World,
        class: PyTypeRef,
    ) -> Result<PyObjectRef, OutOfMemory>
        requires { Holds world.old (IsClass class.0) }
        ensures made { OnOk result ((t : Reading) → Reads t world.new → plain t world.new ≡
            with_node (plain t world.old) (place_of built_in.MethodDescriptor) (as_method (definition_of self.now) class.0)) }
        ensures number { IfOk result (λ r. (t : Reading) → r ≡
            next_node (plain t world.old) (place_of built_in.MethodDescriptor)) }
        ensures same { OnErr result ((t : Reading) → plain t world.new ≡ plain t world.old) }
        ensures reads { (t : Reading) → Reads t world.new → Reads t world.old }
        ensures grows { Grows world.old world.new }
        ensures node { IfOk result (λ r. Holds world.new (IsNode r)) }
        ensures holding { IfOk result (λ r. Holds world.new (Holding r built_in.MethodDescriptor)) }
    {
        let payload = self.to_method(world, class)?;
        let home = world.built_in(BuiltIn::MethodDescriptor);
        world.make_node(home, payload)
    }

    /// A new static method of a class: a function that isn't bound.
    pub fn build_staticmethod(
        &self,
        world: &mut World,
        _class: PyTypeRef,
    ) -> Result<PyObjectRef, OutOfMemory>
        ensures made { OnOk result ((t : Reading) → Reads t world.new → plain t world.new ≡
            with_node (plain t world.old) (place_of built_in.BuiltinFunctionOrMethod) (as_function (definition_of self.now) None)) }
        ensures number { IfOk result (λ r. (t : Reading) → r ≡
            next_node (plain t world.old) (place_of built_in.BuiltinFunctionOrMethod)) }
        ensures same { OnErr result ((t : Reading) → plain t world.new ≡ plain t world.old) }
        ensures reads { (t : Reading) → Reads t world.new → Reads t world.old }
        ensures grows { Grows world.old world.new }
        ensures node { IfOk result (λ r. Holds world.new (IsNode r)) }
        ensures holding { IfOk result (λ r. Holds world.new (Holding r built_in.BuiltinFunctionOrMethod)) }
    {
        let payload = self.to_function(world)?;
        let home = world.built_in(BuiltIn::BuiltinFunctionOrMethod);
        world.make_node(home, payload)
    }
}
