//! What is set through setters of the objects of the built-in classes other than `object` and `type`.

ghost use Rattle.py_node.specs.Stops.{Ended};
ghost use Rattle.proto_attr.specs.Below.{of_ended, bindings, EndsAs, LeavesEnd, AllHold, AreNodes, Grows, Holds};
ghost use Rattle.proto_attr.specs.NativeObjects.DetailSetters.{set_of_property, setter_of_say};

use crate::native_objects::receivers::{one_or_two, own_property};
use class_world::{Fixed, World};
use py_node::{Answer, BuiltIn, Cause, Detail, FuncArgs, PyProperty, Raised, Stop};

/// What is set of an object of a built-in class.
pub fn setter_of_native(
    world: &mut World,
    class: BuiltIn,
    detail: Detail,
    call: FuncArgs<'_>,
) -> Result<Answer, Stop>
    requires { Holds world.old (AreNodes call.args.now) }
    ensures ends { Ended result (EndsAs (λ t u. setter_of_say u class detail call.entry.args.now (bindings t call.entry.kw.now))
        world.old world.new) }
    ensures safe { LeavesEnd world.old world.new result }
{
    match class {
        BuiltIn::Property => Ok(set_of_property(world, detail, call)?),
        _ => Err(Stop::raise(Cause::SelfType)),
    }
}

// What is set of a property.
fn set_of_property(world: &mut World, detail: Detail, call: FuncArgs<'_>) -> Result<Answer, Raised>
    requires { Holds world.old (AreNodes call.args.now) }
    ensures ends { EndsAs (λ t u. set_of_property u detail call.entry.args.now (bindings t call.entry.kw.now)) world.old world.new result }
    ensures grows { Grows world.old world.new }
    ensures holds { AllHold world.new (of_ended result) }
{
    match detail {
        Detail::Doc => set_doc(world, call),
        _ => Err(Raised::new(Cause::SelfType)),
    }
}

// A property gets another text for readers, which may be any object.
fn set_doc(world: &mut World, call: FuncArgs<'_>) -> Result<Answer, Raised>
    requires { Holds world.old (AreNodes call.args.now) }
    ensures ends { EndsAs (λ t u. set_of_property u Detail.Doc call.entry.args.now (bindings t call.entry.kw.now))
        world.old world.new result }
    ensures grows { Grows world.old world.new }
    ensures holds { AllHold world.new (of_ended result) }
{
    let (object, parts) = own_property(world, call.args)?;
    let (_, given) = one_or_two(call)?;
    match given {
        None => Err(Raised::new(Cause::CannotDelete)),
        Some(doc) => {
            let parts = PyProperty {
                doc: Some(doc),
                ..parts
            };
            world.set_property(object, parts);
            Ok(Answer::Value(world.fixed(Fixed::None)))
        }
    }
}
