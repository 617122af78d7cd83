//! Own attributes of a class that are made of definitions.

ghost use Rattle.proto_attr.specs.Below.{fold, IfOk, OnOk, OnErr, Some, place_of, Cause as RefusalCause, refusal, refused_attr, NamesNoClass, with_node, next_node, Reading, Reads, plain, IsNode, IsClass, Holds, Grows};
ghost use Rattle.std.specs.Prelude.{◌≡◌};
ghost use Rattle.proto_attr.specs.NativeDefs.Definitions.{definition_of, as_attribute, attribute_home, with_method};

use crate::native_defs::def::PyMethodDef;
use class_table::ClassFault;
use class_world::World;
use py_node::{BuiltIn, Cause, OutOfMemory, PyObjectRef, PyTypeRef};

/// Gives a class own attributes, in order: a new object of each definition, under its name. The class must be made by a
/// script. Where it is refused, the world stays as it was; where memory runs out, the first of them may be there.
pub fn extend_methods(
    world: &mut World,
    class: PyTypeRef,
    methods: &[PyMethodDef],
) -> Result<(), ClassFault>
    requires { Holds world.old (IsClass class.0) }
    ensures refused { (t : Reading) → refusal result ≡ refused_attr (plain t world.old).classes class.0 }
    ensures set { OnOk result ((t : Reading) → Reads t world.new → plain t world.new ≡
        fold (with_method class.0) (plain t world.old) methods.now) }
    ensures reads { (t : Reading) → Reads t world.new → Reads t world.old }
    ensures grows { Grows world.old world.new }
    ensures names { NamesNoClass result }
    ensures same { (cause : RefusalCause) → refusal result ≡ Some cause → world.new ≡ world.old }
{
    if !world.class_is_heap(class) {
        return Err(ClassFault::Refused(Cause::ImmutableType));
    }
    match add_methods(world, class, methods) {
        Ok(()) => Ok(()),
        Err(_) => Err(ClassFault::OutOfMemory),
    }
}

// Gives a class that a script made an own attribute for each definition, in order.
fn add_methods(
    world: &mut World,
    class: PyTypeRef,
    methods: &[PyMethodDef],
) -> Result<(), OutOfMemory>
    requires { Holds world.old (IsClass class.0) }
    ensures set { OnOk result ((t : Reading) → Reads t world.new → plain t world.new ≡
        fold (with_method class.0) (plain t world.old) methods.now) }
    ensures reads { (t : Reading) → Reads t world.new → Reads t world.old }
    ensures grows { Grows world.old world.new }
{
    for def in methods {
        add_method(world, class, def)?;
    }
    Ok(())
}

// Gives a class that a script made an own attribute that is made of a definition. Such a class isn't refused.
#[tactic(auto, unfolding(crate::specs::NativeDefs::Definitions::with_method))]
fn add_method(world: &mut World, class: PyTypeRef, def: &PyMethodDef) -> Result<(), OutOfMemory>
    requires { Holds world.old (IsClass class.0) }
    ensures set { OnOk result ((t : Reading) → Reads t world.new → plain t world.new ≡
        with_method class.0 (plain t world.old) def.now) }
    ensures reads { (t : Reading) → Reads t world.new → Reads t world.old }
    ensures grows { Grows world.old world.new }
{
    let name = world.intern(def.name.as_str())?;
    let value = build_attribute(world, class, def)?;
    match world.set_attr(class, name, value) {
        Ok(()) => Ok(()),
        Err(_) => Err(OutOfMemory),
    }
}

// The object that an own attribute of a class holds for a definition.
fn build_attribute(
    world: &mut World,
    class: PyTypeRef,
    def: &PyMethodDef,
) -> Result<PyObjectRef, OutOfMemory>
    requires { Holds world.old (IsClass class.0) }
    ensures made { OnOk result ((t : Reading) → Reads t world.new → plain t world.new ≡
        with_node (plain t world.old) (place_of (attribute_home (definition_of def.now)))
        (as_attribute (definition_of def.now) class.0)) }
    ensures number { IfOk result (λ r. (t : Reading) → r ≡
        next_node (plain t world.old) (place_of (attribute_home (definition_of def.now)))) }
    ensures reads { (t : Reading) → Reads t world.new → Reads t world.old }
    ensures grows { Grows world.old world.new }
    ensures node { IfOk result (λ r. Holds world.new (IsNode r)) }
{
    if def.is_method() {
        def.build_method(world, class)
    } else {
        def.build_function(world)
    }
}
