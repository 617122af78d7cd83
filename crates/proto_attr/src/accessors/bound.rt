//! Natives of a class that are bound to an object.

ghost use Rattle.proto_attr.specs.Below.{IfOk, OnErr, OnOk, place_of, Reading, Reads, plain, spelled, spelled_option, AllHold, Grows, Holding, Holds, IsClass, IsName, IsNode, of_name_ref, of_option, ABuiltinMethod, next_node, with_node};
ghost use Rattle.std.specs.Prelude.{◌≡◌};
ghost use Rattle.py_node.specs.declared.built_in.BuiltIn.TheVariants as built_in;

use crate::accessors::method::PyMethodDescriptor;
use class_world::World;
use py_node::{Boxed, BuiltIn, BuiltinMethod, OutOfMemory, Payload, PyObjectRef};

impl PyMethodDescriptor {
    /// A new object of `builtin_method`: this method, bound to an object. Where memory runs out the world stays as it
    /// was.
    pub fn bind(self, world: &mut World, obj: PyObjectRef) -> Result<PyObjectRef, OutOfMemory>
        requires obj { Holds world.old (IsNode obj) }
        requires class { Holds world.old (IsClass self.common.typ.0) }
        requires name { Holds world.old (IsName self.common.name) }
        requires doc { AllHold world.old (of_option of_name_ref self.doc) }
        ensures made { OnOk result ((t : Reading) → plain t world.new ≡
            with_node (plain t world.old) (place_of built_in.BuiltinMethod) (ABuiltinMethod
            (spelled t self.common.name) self.entry obj self.common.typ.0 (spelled_option t self.doc))) }
        ensures number { IfOk result (λ r. (t : Reading) → r ≡
            next_node (plain t world.old) (place_of built_in.BuiltinMethod)) }
        ensures err { OnErr result (world.new ≡ world.old) }
        ensures reads { (t : Reading) → Reads t world.new → Reads t world.old }
        ensures grows { Grows world.old world.new }
        ensures node { IfOk result (λ r. Holds world.new (IsNode r)) }
        ensures holding { IfOk result (λ r. Holds world.new (Holding r built_in.BuiltinMethod)) }
    {
        let home = world.built_in(BuiltIn::BuiltinMethod);
        let method = BuiltinMethod {
            name: self.common.name,
            entry: self.entry,
            target: obj,
            class: self.common.typ,
            doc: self.doc,
        };
        let method = Boxed::new(world.alloc(), method)?;
        world.make_node(home, Payload::BuiltinMethod(method))
    }
}
