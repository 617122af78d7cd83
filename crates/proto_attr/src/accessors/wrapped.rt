//! Class methods and static methods.

ghost use Rattle.proto_attr.specs.Below.{IfOk, OnErr, OnOk, place_of, Reading, Reads, plain, Grows, Holding, Holds, IsNode, AClassMethod, AStaticMethod, next_node, with_node};
ghost use Rattle.std.specs.Prelude.{◌≡◌};
ghost use Rattle.py_node.specs.declared.built_in.BuiltIn.TheVariants as built_in;

use class_world::World;
use py_node::{BuiltIn, OutOfMemory, Payload, PyObjectRef};

/// A class method of the callable that it wraps.
#[derive(Clone, Copy, PartialEq, Eq, Debug)]
pub struct PyClassMethod(pub PyObjectRef);

/// A static method of the callable that it wraps.
#[derive(Clone, Copy, PartialEq, Eq, Debug)]
pub struct PyStaticMethod(pub PyObjectRef);

impl From<PyObjectRef> for PyClassMethod {
    fn from(callable: PyObjectRef) -> PyClassMethod
        ensures { result.0 ≡ callable }
    {
        PyClassMethod(callable)
    }
}

impl From<PyObjectRef> for PyStaticMethod {
    fn from(callable: PyObjectRef) -> PyStaticMethod
        ensures { result.0 ≡ callable }
    {
        PyStaticMethod(callable)
    }
}

impl PyClassMethod {
    /// A new object of `classmethod` for a callable. Where memory runs out the world stays as it was.
    pub fn new_ref(world: &mut World, callable: PyObjectRef) -> Result<PyObjectRef, OutOfMemory>
        requires { Holds world.old (IsNode callable) }
        ensures made { OnOk result ((t : Reading) → plain t world.new ≡
            with_node (plain t world.old) (place_of built_in.ClassMethod) (AClassMethod callable)) }
        ensures number { IfOk result (λ r. (t : Reading) → r ≡
            next_node (plain t world.old) (place_of built_in.ClassMethod)) }
        ensures err { OnErr result (world.new ≡ world.old) }
        ensures reads { (t : Reading) → Reads t world.new → Reads t world.old }
        ensures grows { Grows world.old world.new }
        ensures node { IfOk result (λ r. Holds world.new (IsNode r)) }
        ensures holding { IfOk result (λ r. Holds world.new (Holding r built_in.ClassMethod)) }
    {
        let home = world.built_in(BuiltIn::ClassMethod);
        world.make_node(home, Payload::ClassMethod(callable))
    }
}

impl PyStaticMethod {
    /// A new object of `staticmethod` for a callable. Where memory runs out the world stays as it was.
    pub fn new_ref(world: &mut World, callable: PyObjectRef) -> Result<PyObjectRef, OutOfMemory>
        requires { Holds world.old (IsNode callable) }
        ensures made { OnOk result ((t : Reading) → plain t world.new ≡
            with_node (plain t world.old) (place_of built_in.StaticMethod) (AStaticMethod callable)) }
        ensures number { IfOk result (λ r. (t : Reading) → r ≡
            next_node (plain t world.old) (place_of built_in.StaticMethod)) }
        ensures err { OnErr result (world.new ≡ world.old) }
        ensures reads { (t : Reading) → Reads t world.new → Reads t world.old }
        ensures grows { Grows world.old world.new }
        ensures node { IfOk result (λ r. Holds world.new (IsNode r)) }
        ensures holding { IfOk result (λ r. Holds world.new (Holding r built_in.StaticMethod)) }
    {
        let home = world.built_in(BuiltIn::StaticMethod);
        world.make_node(home, Payload::StaticMethod(callable))
    }
}
