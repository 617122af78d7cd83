//! The natives that tell a part of a property or a member for which other objects are asked: whether a property is
//! abstract, and the qualified name of a member. Each is a small automaton: `begin` and `resume`.
#![tactic(auto, using(class_world::proofs::Items::item_holds), unfolding(crate::specs::NativeDetails::Say::detail_job_say))]

ghost use Rattle.proto_attr.specs.Below.{IfOk, of_args, of_ended, Leaves, AllHold};
ghost use Rattle.std.specs.Prelude.{◌≡◌};
ghost use Rattle.py_node.specs.declared.task.Task.TheVariants as task;
ghost use Rattle.proto_attr.specs.NativeDetails.Rows.{Begins, Resumes, of_detail_kept};

use crate::native_details::abstracts::{ask_setter, begin_abstract, join, or_not_abstract};
use crate::native_details::names::{begin_name, name_given};
use class_world::World;
use py_node::task::{Args, Keywords};
use py_node::{
    Answer, BuiltIn, Detail, FuncArgs, NativeEntry, OutOfMemory, PyObjectRef, Raised, Step,
};

mod abstracts;
mod names;

/// What a native keeps while it waits for an answer.
#[derive(Drop)]
pub enum DetailKept {
    /// The getter of this property was asked whether it is abstract.
    AfterGetter(PyObjectRef),
    /// The setter was asked. What the getter is.
    AfterSetter(PyObjectRef),
    /// Both are joined.
    AfterBoth,
    /// The class of this member was asked for its qualified name.
    AfterClass(PyObjectRef),
}

/// The first step of one of these natives.
pub fn begin(
    world: &mut World,
    entry: NativeEntry,
    args: Args,
    kw: Keywords,
) -> Result<Step<DetailKept>, OutOfMemory>
    requires { AllHold world.old (of_args args.items kw.items) }
    ensures goes { IfOk result (λ step. Begins (task.Native entry args kw) world.old world.new step) }
    ensures safe { Leaves of_detail_kept world.old world.new result }
{
    let call = FuncArgs {
        args: &args,
        kw: &kw,
    };
    match entry {
        NativeEntry::GetterOf(BuiltIn::Property, detail) => {
            Ok(begin_abstract(world, detail, call))
        }
        NativeEntry::GetterOf(BuiltIn::MemberDescriptor, detail) => {
            begin_name(world, detail, call)
        }
        _ => Ok(Step::elsewhere()),
    }
}

/// Goes on with a native that was given an answer.
pub fn resume(
    world: &mut World,
    kept: DetailKept,
    answer: Result<Answer, Raised>,
) -> Result<Step<DetailKept>, OutOfMemory>
    requires kept { AllHold world.old (of_detail_kept kept) }
    requires answer { AllHold world.old (of_ended answer) }
    ensures goes { IfOk result (λ step. Resumes kept answer world.old world.new step) }
    ensures safe { Leaves of_detail_kept world.old world.new result }
{
    match kept {
        DetailKept::AfterGetter(property) => Ok(ask_setter(world, property, answer)),
        DetailKept::AfterSetter(getter) => Ok(join(world, getter, answer)),
        DetailKept::AfterBoth => Ok(or_not_abstract(world, answer)),
        DetailKept::AfterClass(member) => name_given(world, member, answer),
    }
}
