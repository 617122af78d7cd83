//! What makes class methods and static methods.

ghost use Rattle.proto_attr.specs.Below.{ℕ, Err, IfErr, IfOk, None, Said, Ends, holds_as, of_ended, of_step, Leaves, Reading, bindings, datum, plain, AllHold, AreNodes, Holds, IsClass, IsNode, IsOf, class_in, home_of, of_payload, Held, with_heir};
ghost use Rattle.std.specs.Prelude.{◌≡◌};
ghost use Rattle.proto_attr.specs.declared.native_calls.way.Way.TheVariants as Way;
ghost use Rattle.proto_attr.specs.NativeCalls.Asks.{Does, Resumes, of_native_kept};
ghost use Rattle.proto_attr.specs.NativeCalls.Say.{class_of_wrapper, way_of, wrapper_new, wrapping};

use crate::native_calls::NativeKept;
use crate::native_calls::way::Wrapper;
use class_world::World;
use class_world::takes::two;
use py_node::{
    Answer, AttributeTask, BuiltIn, Cause, FuncArgs, Known, NativeEntry, OutOfMemory, Payload,
    PyObjectRef, PySetterValue, PyTypeRef, Raised, Step, Task,
};

// The built-in class of these.
fn class_of_wrapper(wrapper: Wrapper) -> BuiltIn
    ensures { result ≡ class_of_wrapper wrapper }
{
    match wrapper {
        Wrapper::Class => BuiltIn::ClassMethod,
        Wrapper::Static => BuiltIn::StaticMethod,
    }
}

// The class of a new object, where its objects are those of a built-in class, or why it is refused.
fn heir(world: &World, built_in: BuiltIn, args: &[PyObjectRef]) -> Result<PyTypeRef, Raised>
    requires { Holds world.now (AreNodes args.now) }
    ensures given { IfOk result (λ c. (t : Reading) (go : ℕ → Said) →
        with_heir (plain t world.now) built_in args.now go ≡ go c.0) }
    ensures refused { IfErr result (λ x. (t : Reading) (go : ℕ → Said) →
        with_heir (plain t world.now) built_in args.now go ≡ Ends (plain t world.now) (Err x)) }
    ensures class { IfOk result (λ c. Holds world.now (IsClass c.0)) }
    ensures of { IfOk result (λ c. Holds world.now (IsOf c.0 (holds_as built_in))) }
{
    let [object, ..] = args else {
        return Err(Raised::new(Cause::ArgCount));
    };
    let Some(class) = world.class_number(*object) else {
        return Err(Raised::new(Cause::SelfType));
    };
    match world.nearest_built_in(class) {
        Some(nearest) if nearest.0 == built_in.class().0 => Ok(class),
        _ => Err(Raised::new(Cause::UnsafeNew)),
    }
}

/// A new class method or static method wraps just one object, whose doc is read first.
pub(crate) fn ask_for_doc(
    world: &World,
    entry: NativeEntry,
    wrapper: Wrapper,
    call: FuncArgs<'_>,
) -> Step<NativeKept>
    requires args { Holds world.now (AreNodes call.args.now) }
    requires way { way_of entry ≡ Way.Wraps wrapper }
    ensures goes { Does entry
        (λ t u. wrapper_new u (class_of_wrapper wrapper) call.entry.args.now (bindings t call.entry.kw.now))
        world.now world.now result }
    ensures safe { AllHold world.now (of_step of_native_kept result) }
{
    let class = match heir(world, class_of_wrapper(wrapper), call.args) {
        Err(raised) => return Step::End(Err(raised)),
        Ok(class) => class,
    };
    match two(call) {
        Err(raised) => Step::End(Err(raised)),
        Ok((_object, func)) => {
            let task = AttributeTask::GetAttr(func, world.known(Known::Doc));
            Step::Ask(
                Task::Attribute(task),
                NativeKept::AfterDoc(wrapper, class, func),
            )
        }
    }
}

/// A class method or static method is made, and is given the doc of what it wraps, if there is one.
pub(crate) fn give_doc(
    world: &mut World,
    wrapper: Wrapper,
    class: PyTypeRef,
    func: PyObjectRef,
    answer: Result<Answer, Raised>,
) -> Result<Step<NativeKept>, OutOfMemory>
    requires kept { AllHold world.old (of_native_kept (NativeKept.AfterDoc wrapper class func)) }
    requires answer { AllHold world.old (of_ended answer) }
    ensures goes { IfOk result (λ step. Resumes (NativeKept.AfterDoc wrapper class func) answer
        world.old world.new step) }
    ensures safe { Leaves of_native_kept world.old world.new result }
{
    match answer {
        Err(_) => {
            let node = world.make_node(class, wrapping(wrapper, func))?;
            Ok(Step::End(Ok(Answer::Value(node))))
        }
        Ok(Answer::Value(doc)) => {
            let node = world.make_node(class, wrapping(wrapper, func))?;
            let name = world.known(Known::Doc);
            let task = AttributeTask::SetAttr(node, name, PySetterValue::Assign(doc));
            Ok(Step::Ask(Task::Attribute(task), NativeKept::AfterSet(node)))
        }
        Ok(other) => Ok(Step::End(Ok(other))),
    }
}

// What such an object holds.
fn wrapping(wrapper: Wrapper, func: PyObjectRef) -> Payload
    ensures reads { (t : Reading) → datum t result ≡ wrapping wrapper func }
    ensures home { home_of result ≡ class_of_wrapper wrapper }
    ensures other { class_in result ≡ None }
    ensures holds { (w : Held) → Holds w (IsNode func) → AllHold w (of_payload result) }
{
    match wrapper {
        Wrapper::Class => Payload::ClassMethod(func),
        Wrapper::Static => Payload::StaticMethod(func),
    }
}
