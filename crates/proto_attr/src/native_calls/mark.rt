//! What is marked as abstract, by name.

ghost use Rattle.proto_attr.specs.Below.{Err, IfErr, IfOk, Option, Said, Ends, PyObjectRef as Object, of_step, Reading, bindings, plain, AllHold, AreNodes, Holds, of_option, of_node_ref, with_own};
ghost use Rattle.std.specs.Prelude.{◌≡◌};
ghost use Rattle.proto_attr.specs.ProtoDescr.Rows.{StepsAs, nothing_held};
ghost use Rattle.proto_attr.specs.NativeCalls.Parts.{mark_by_name, marked_in};

use crate::native_calls::bind::object_and_class;
use class_world::{Fixed, World};
use py_node::{
    Answer, AttributeTask, BuiltIn, Cause, FuncArgs, Known, Payload, PyObjectRef, PySetterValue,
    Raised, Step, Task,
};

/// What an object of a class wraps, or the getter of a property, is marked as abstract. The mark can't be taken out.
pub(crate) fn mark_by_name(world: &World, class: BuiltIn, call: FuncArgs<'_>) -> Step<()>
    requires { Holds world.now (AreNodes call.args.now) }
    ensures steps { StepsAs (λ t u. mark_by_name u class call.entry.args.now (bindings t call.entry.kw.now)) world.now world.now result }
    ensures safe { AllHold world.now (of_step nothing_held result) }
{
    let (_object, func) = match own_marked(world, class, call.args) {
        Err(raised) => return Step::End(Err(raised)),
        Ok(own) => own,
    };
    match object_and_class(call) {
        Err(raised) => Step::End(Err(raised)),
        Ok((_object, None)) => Step::raise(Cause::CannotDelete),
        Ok((_object, Some(value))) => match func {
            None => Step::End(Ok(Answer::Value(world.fixed(Fixed::None)))),
            Some(func) => {
                let name = world.known(Known::Isabstractmethod);
                let task = AttributeTask::SetAttr(func, name, PySetterValue::Assign(value));
                Step::Ask(Task::Attribute(task), ())
            }
        },
    }
}

// The object of a class that the first argument is, with what is marked in its place, or why it is refused.
fn own_marked(
    world: &World,
    class: BuiltIn,
    args: &[PyObjectRef],
) -> Result<(PyObjectRef, Option<PyObjectRef>), Raised>
    requires { Holds world.now (AreNodes args.now) }
    ensures given { IfOk result (λ p. (t : Reading) (go : Object → Option Object → Said) →
        with_own (marked_in class) (plain t world.now) args.now go ≡ go p.0 p.1) }
    ensures refused { IfErr result (λ x. (t : Reading) (go : Object → Option Object → Said) →
        with_own (marked_in class) (plain t world.now) args.now go ≡ Ends (plain t world.now) (Err x)) }
    ensures marked { IfOk result (λ p. AllHold world.now (of_option of_node_ref p.1)) }
{
    match args {
        [] => Err(Raised::new(Cause::ArgCount)),
        [o, ..] => match (class, world.payload(*o)) {
            (BuiltIn::ClassMethod, Payload::ClassMethod(func)) => Ok((*o, Some(*func))),
            (BuiltIn::StaticMethod, Payload::StaticMethod(func)) => Ok((*o, Some(*func))),
            (BuiltIn::Property, Payload::Property(parts)) => Ok((*o, parts.fget)),
            _ => Err(Raised::new(Cause::SelfType)),
        },
    }
}
