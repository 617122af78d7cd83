//! What the descriptors of getters give, and what class methods and static methods do.
#![tactic(auto, unfolding(crate::specs::ProtoDescr::Say::descriptor_say, py_node::specs::BuiltIns::place_of))]

ghost use Rattle.proto_attr.specs.Below.{[], IfOk, known_text, PyObjectRef as Object, DoGetAttr, PlainWorld, ToAttribute, Ends, value, datum_at, of_descriptor_task, of_ended, of_step, of_task, Leaves, Reading, Reads, plain, ended_of, task_of, AllHold, Holds, IsNode, of_option, of_node_ref};
ghost use Rattle.std.specs.Prelude.{◌≡◌, ◌∷◌, ◌++◌};
ghost use Rattle.py_node.specs.declared.task.DescriptorTask.TheVariants as descriptor;
ghost use Rattle.proto_attr.specs.ProtoDescr.Say.{getset_get, class_for, class_method_get, class_method_by, static_method_get};
ghost use Rattle.proto_attr.specs.ProtoDescr.Rows.{Starts, Resumes, StepsAs, passed, nothing_held, of_descriptor_kept};

use crate::proto_descr::DescriptorKept;
use class_world::World;
use class_world::args::{alone, both};
use class_world::natives::native_task;
use py_node::{
    Answer, AttributeTask, BoundMethod, BuiltIn, CallTask, Cause, Known, OutOfMemory, Payload,
    PyObjectRef, Raised, Step, Task,
};

// An attribute that a getter reads.
pub(crate) fn get_of_getset(
    world: &World,
    m: PyObjectRef,
    o: Option<PyObjectRef>,
    class: Option<PyObjectRef>,
) -> Result<Step<DescriptorKept>, OutOfMemory>
    requires { AllHold world.now (of_descriptor_task (descriptor.DescrGet m o class)) }
    ensures goes { IfOk result (λ step. Starts (descriptor.DescrGet m o class)
        (λ t w. getset_get w (datum_at w m) m o) world.now world.now step) }
    ensures safe { Leaves of_descriptor_kept world.now world.now result }
{
    let step = bind_getset(world, m, o)?;
    Ok(passed(step))
}

/// What reads an attribute of objects is asked of the object alone, where there is one.
pub fn bind_getset(
    world: &World,
    m: PyObjectRef,
    o: Option<PyObjectRef>,
) -> Result<Step<()>, OutOfMemory>
    requires { AllHold world.now (IsNode m ∷ of_option of_node_ref o) }
    ensures steps { IfOk result (λ step. StepsAs (λ t w. getset_get w (datum_at w m) m o)
        world.now world.now step) }
    ensures safe { Leaves nothing_held world.now world.now result }
{
    match (world.payload(m), o) {
        (Payload::GetSet(parts), Some(object)) => match parts.get().getter {
            None => Ok(Step::raise(Cause::NoGetter)),
            Some(getter) => {
                let alloc = world.alloc();
                let args = alone(alloc, object)?;
                let task = native_task(getter, args, Vec::new(alloc));
                Ok(Step::Ask(task, ()))
            }
        },
        _ => Ok(Step::End(Ok(Answer::Value(m)))),
    }
}

// What a class method wraps is asked for its own `__get__`.
pub(crate) fn get_of_class_method(
    world: &World,
    m: PyObjectRef,
    o: Option<PyObjectRef>,
    class: Option<PyObjectRef>,
) -> Step<DescriptorKept>
    requires { AllHold world.now (of_descriptor_task (descriptor.DescrGet m o class)) }
    ensures goes { Starts (descriptor.DescrGet m o class)
        (λ t w. class_method_get w (datum_at w m) m (class_for w o class)) world.now world.now result }
    ensures safe { AllHold world.now (of_step of_descriptor_kept result) }
{
    match world.payload(m) {
        Payload::ClassMethod(func) => {
            let class = class_for(world, o, class);
            Step::Ask(get_of(world, *func), DescriptorKept::AfterGet(class, *func))
        }
        _ => Step::End(Ok(Answer::Value(m))),
    }
}

/// The class that a class method is for: the one that is given, or else the object's, or else None's.
pub fn class_for(world: &World, o: Option<PyObjectRef>, class: Option<PyObjectRef>) -> PyObjectRef
    requires { AllHold world.now (of_option of_node_ref o ++ of_option of_node_ref class) }
    ensures object { (t : Reading) → class_for (plain t world.now) o class ≡ result }
    ensures node { Holds world.now (IsNode result) }
{
    match class {
        Some(class) => class,
        None => match o {
            Some(object) => world.type_object(object),
            None => world.built_in_node(BuiltIn::NoneType),
        },
    }
}

/// The reading of `__get__` of an object.
pub fn get_of(world: &World, func: PyObjectRef) -> Task
    requires { Holds world.now (IsNode func) }
    ensures task { (t : Reading) → Reads t world.now → task_of t result ≡
        ToAttribute (DoGetAttr func (known_text Known.Get)) }
    ensures holds { AllHold world.now (of_task result) }
{
    Task::Attribute(AttributeTask::GetAttr(func, world.known(Known::Get)))
}

// A class method goes on with its class and what it wraps.
pub(crate) fn resume_class_method(
    world: &mut World,
    class: PyObjectRef,
    func: PyObjectRef,
    answer: Result<Answer, Raised>,
) -> Result<Step<DescriptorKept>, OutOfMemory>
    requires kept { AllHold world.old (of_descriptor_kept (DescriptorKept.AfterGet class func)) }
    requires answer { AllHold world.old (of_ended answer) }
    ensures goes { IfOk result (λ step. Resumes (DescriptorKept.AfterGet class func) answer
        world.old world.new step) }
    ensures safe { Leaves of_descriptor_kept world.old world.new result }
{
    let step = bind_class_method(world, class, func, answer)?;
    Ok(passed(step))
}

/// What a class method gives, given `__get__` of what it wraps: this is called with the class as object and as
/// class. Where there is none, what is wrapped is a method of the class.
pub fn bind_class_method(
    world: &mut World,
    class: PyObjectRef,
    func: PyObjectRef,
    answer: Result<Answer, Raised>,
) -> Result<Step<()>, OutOfMemory>
    requires kept { AllHold world.old (IsNode class ∷ IsNode func ∷ []) }
    requires answer { AllHold world.old (of_ended answer) }
    ensures steps { IfOk result (λ step. StepsAs (λ t w. class_method_by w class func (ended_of answer))
        world.old world.new step) }
    ensures safe { Leaves nothing_held world.old world.new result }
{
    match answer {
        Ok(Answer::Value(get)) => {
            let alloc = world.alloc();
            let args = both(alloc, class, class)?;
            let task = CallTask::Call(get, args, Vec::new(alloc));
            Ok(Step::Ask(Task::Call(task), ()))
        }
        Ok(other) => Ok(Step::End(Ok(other))),
        Err(_) => {
            let method = BoundMethod {
                target: class,
                func,
            };
            let class = world.built_in(BuiltIn::Method);
            let node = world.make_node(class, Payload::Method(method))?;
            Ok(Step::End(Ok(Answer::Value(node))))
        }
    }
}

/// A static method gives what it wraps.
pub fn static_method_get(world: &World, m: PyObjectRef) -> PyObjectRef
    requires { Holds world.now (IsNode m) }
    ensures value { (t : Reading) (w : PlainWorld) →
        static_method_get w (datum_at (plain t world.now) m) m ≡ Ends w (value result) }
    ensures node { Holds world.now (IsNode result) }
{
    match world.payload(m) {
        Payload::StaticMethod(func) => *func,
        _ => m,
    }
}

// A step that ends as what it asked does, among those of descriptors.
pub(crate) fn passed(step: Step<()>) -> Step<DescriptorKept>
    ensures step { result ≡ passed step }
    ensures says { of_step of_descriptor_kept result ≡ of_step nothing_held step }
{
    match step {
        Step::Ask(task, _) => Step::Ask(task, DescriptorKept::Pass),
        Step::End(answer) => Step::End(answer),
    }
}
