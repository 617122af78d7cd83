//! Which task a native is.

ghost use Rattle.std.specs.Prelude.{◌≡◌};
ghost use Rattle.class_world.specs.Claims.{of_args, of_task};
ghost use Rattle.class_world.specs.Reading.{Reading, bindings, task_of};
ghost use Rattle.class_world.specs.Sound.{AllHold};
ghost use Rattle.class_world.specs.Below.{native_task};

use crate::world::World;
use py_node::task::{Args, Keywords};
use py_node::{CallTask, ClassTask, NativeEntry, OperatorTask, Task};

/// The task that a native is, with its arguments and keywords.
pub fn native_task(entry: NativeEntry, args: Args, kw: Keywords) -> Task
    ensures task { (t : Reading) → task_of t result ≡ native_task entry args.items (bindings t kw.items) }
    ensures holds { (w : World) → AllHold w (of_args args.items kw.items) → AllHold w (of_task result) }
{
    match entry {
        NativeEntry::OfObject(native) => Task::Call(CallTask::Object(native, args, kw)),
        NativeEntry::OfType(native) => Task::Class(ClassTask::Type(native, args, kw)),
        NativeEntry::OfInt(native) => Task::Operator(OperatorTask::Int(native, args, kw)),
        entry => Task::Native(entry, args, kw),
    }
}
