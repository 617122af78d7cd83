//! What class methods and static methods have of what they wrap.

ghost use Rattle.proto_attr.specs.Below.{Err, IfErr, IfOk, Said, Ends, PyObjectRef as Object, of_step, Reading, bindings, plain, AllHold, AreNodes, Holds, IsNode, with_own};
ghost use Rattle.std.specs.Prelude.{◌≡◌};
ghost use Rattle.proto_attr.specs.ProtoDescr.Rows.{StepsAs, nothing_held};
ghost use Rattle.proto_attr.specs.NativeCalls.Parts.{asked_name, part_of_wrapped, wrapped_in};

use crate::native_calls::way::Wrapper;
use class_world::World;
use class_world::takes::one;
use py_node::{
    AttributeTask, Cause, Detail, FuncArgs, Known, Payload, PyObjectRef, Raised, Step, Task,
};

/// What a class method or a static method wraps is asked for a part.
pub(crate) fn part_of_wrapped(
    world: &World,
    wrapper: Wrapper,
    detail: Detail,
    call: FuncArgs<'_>,
) -> Step<()>
    requires { Holds world.now (AreNodes call.args.now) }
    ensures steps { StepsAs (λ t u. part_of_wrapped u wrapper detail call.entry.args.now (bindings t call.entry.kw.now))
        world.now world.now result }
    ensures safe { AllHold world.now (of_step nothing_held result) }
{
    let (_object, func) = match own_wrapped(world, wrapper, call.args) {
        Err(raised) => return Step::End(Err(raised)),
        Ok(own) => own,
    };
    match one(call) {
        Err(raised) => Step::End(Err(raised)),
        Ok(_object) => {
            let name = world.known(asked_name(detail));
            Step::Ask(Task::Attribute(AttributeTask::GetAttr(func, name)), ())
        }
    }
}

// The class method or static method that the first argument is, with what it wraps, or why it is refused.
fn own_wrapped(
    world: &World,
    wrapper: Wrapper,
    args: &[PyObjectRef],
) -> Result<(PyObjectRef, PyObjectRef), Raised>
    requires { Holds world.now (AreNodes args.now) }
    ensures given { IfOk result (λ p. (t : Reading) (go : Object → Object → Said) →
        with_own (wrapped_in wrapper) (plain t world.now) args.now go ≡ go p.0 p.1) }
    ensures refused { IfErr result (λ x. (t : Reading) (go : Object → Object → Said) →
        with_own (wrapped_in wrapper) (plain t world.now) args.now go ≡ Ends (plain t world.now) (Err x)) }
    ensures callable { IfOk result (λ p. Holds world.now (IsNode p.1)) }
{
    match args {
        [] => Err(Raised::new(Cause::ArgCount)),
        [o, ..] => match (wrapper, world.payload(*o)) {
            (Wrapper::Class, Payload::ClassMethod(func)) => Ok((*o, *func)),
            (Wrapper::Static, Payload::StaticMethod(func)) => Ok((*o, *func)),
            _ => Err(Raised::new(Cause::SelfType)),
        },
    }
}

// The name under which it is asked.
fn asked_name(detail: Detail) -> Known
    ensures { result ≡ asked_name detail }
{
    match detail {
        Detail::Module => Known::Module,
        Detail::Qualname => Known::Qualname,
        Detail::Name => Known::Name,
        Detail::Annotations => Known::Annotations,
        _ => Known::Isabstractmethod,
    }
}
