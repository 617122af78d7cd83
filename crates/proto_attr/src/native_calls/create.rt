//! The making of objects by name.

ghost use Rattle.proto_attr.specs.Below.{IfOk, of_args, Leaves, Reading, bindings, AllHold};
ghost use Rattle.std.specs.Prelude.{◌≡◌};
ghost use Rattle.proto_attr.specs.ProtoDescr.Rows.{StepsAs, nothing_held};
ghost use Rattle.proto_attr.specs.NativeCalls.Say.{new_by_name};

use class_world::World;
use class_world::args::copy_args;
use py_node::task::Keywords;
use py_node::{CallTask, Cause, OutOfMemory, PyObjectRef, Step, Task};

/// The class that the native is bound to makes an object of the class that is given, which must derive from it.
pub(crate) fn new_by_name(
    world: &World,
    args: &[PyObjectRef],
    kw: Keywords,
) -> Result<Step<()>, OutOfMemory>
    requires { AllHold world.now (of_args args.now kw.items) }
    ensures steps { IfOk result (λ step. StepsAs (λ t u. new_by_name u args.now (bindings t kw.items))
        world.now world.now step) }
    ensures safe { Leaves nothing_held world.now world.now result }
{
    match args {
        [own, class, rest @ ..] => match (world.class_number(*own), world.class_number(*class)) {
            (Some(own), Some(class)) if world.is_sub(class, own) => {
                let rest = copy_args(world.alloc(), rest)?;
                Ok(Step::Ask(Task::Call(CallTask::New(own, class, rest, kw)), ()))
            }
            _ => Ok(Step::raise(Cause::NewSubtype)),
        },
        _ => Ok(Step::raise(Cause::ArgCount)),
    }
}
