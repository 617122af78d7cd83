//! Whether a property is abstract: its getter and its setter are asked.

ghost use Rattle.proto_attr.specs.Below.{[], Err, IfErr, IfOk, IfSome, PyProperty as Parts, PyObjectRef as Object, argument, with_own, known_text, DoGetAttr, Ends, Said, ToAttribute, of_ended, of_step, of_task, Reading, Reads, bindings, ended_of, plain, task_of, AllHold, AreNodes, Holds, IsNode, datum_at};
ghost use Rattle.std.specs.Prelude.{◌≡◌};
ghost use Rattle.proto_attr.specs.NativeObjects.Takes.{property_in};
ghost use Rattle.py_node.specs.declared.known.Known.TheVariants as known;
ghost use Rattle.py_node.specs.declared.task.OperatorTask.TheVariants as operator;
ghost use Rattle.py_node.specs.declared.built_in.BuiltIn.TheVariants as built_in;
ghost use Rattle.py_node.specs.declared.entry.NativeEntry.TheVariants as entry;
ghost use Rattle.proto_attr.specs.NativeDetails.Rows.{Does, Resumes, of_detail_kept};
ghost use Rattle.proto_attr.specs.NativeDetails.Say.{listed, or_false, property_abstract, setter_at};

use crate::native_details::DetailKept;
use class_world::World;
use class_world::takes::one;
use py_node::{
    Answer, AttributeTask, Cause, Detail, FuncArgs, Known, OperatorTask, Payload, PyNumberBinaryOp,
    PyObjectRef, PyProperty, Raised, Step, Task,
};

/// The getter is asked first, if there is one.
pub(crate) fn begin_abstract(world: &World, detail: Detail, call: FuncArgs<'_>) -> Step<DetailKept>
    requires { Holds world.now (AreNodes call.args.now) }
    ensures goes { Does (entry.GetterOf built_in.Property detail) call.entry.args.now (λ t. bindings t call.entry.kw.now)
        (λ t u. property_abstract u call.entry.args.now (bindings t call.entry.kw.now) []) world.now world.now result }
    ensures safe { AllHold world.now (of_step of_detail_kept result) }
{
    let (property, parts) = match own_property(world, call.args) {
        Err(raised) => return Step::End(Err(raised)),
        Ok(own) => own,
    };
    if let Err(raised) = one(call) {
        return Step::End(Err(raised));
    }
    match parts.fget {
        Some(getter) => Step::Ask(
            ask_whether(world, getter),
            DetailKept::AfterGetter(property),
        ),
        None => match parts.fset {
            Some(setter) => {
                let missing = world.truth(false);
                Step::Ask(ask_whether(world, setter), DetailKept::AfterSetter(missing))
            }
            None => {
                let missing = world.truth(false);
                Step::Ask(both(missing, missing), DetailKept::AfterBoth)
            }
        },
    }
}

/// Then the setter, if there is one.
pub(crate) fn ask_setter(
    world: &World,
    property: PyObjectRef,
    answer: Result<Answer, Raised>,
) -> Step<DetailKept>
    requires kept { Holds world.now (IsNode property) }
    requires answer { AllHold world.now (of_ended answer) }
    ensures goes { Resumes (DetailKept.AfterGetter property) answer world.now world.now result }
    ensures safe { AllHold world.now (of_step of_detail_kept result) }
{
    let getter = or_false(world, answer);
    match setter_at(world, property) {
        Some(setter) => Step::Ask(ask_whether(world, setter), DetailKept::AfterSetter(getter)),
        None => {
            let missing = world.truth(false);
            Step::Ask(both(missing, getter), DetailKept::AfterBoth)
        }
    }
}

/// Both answers are joined.
pub(crate) fn join(
    world: &World,
    getter: PyObjectRef,
    answer: Result<Answer, Raised>,
) -> Step<DetailKept>
    requires kept { Holds world.now (IsNode getter) }
    requires answer { AllHold world.now (of_ended answer) }
    ensures goes { Resumes (DetailKept.AfterSetter getter) answer world.now world.now result }
    ensures safe { AllHold world.now (of_step of_detail_kept result) }
{
    let setter = or_false(world, answer);
    Step::Ask(both(setter, getter), DetailKept::AfterBoth)
}

/// What can't tell whether it is abstract is not.
pub(crate) fn or_not_abstract(world: &World, answer: Result<Answer, Raised>) -> Step<DetailKept>
    requires { AllHold world.now (of_ended answer) }
    ensures goes { Resumes DetailKept.AfterBoth answer world.now world.now result }
    ensures safe { AllHold world.now (of_step of_detail_kept result) }
{
    match answer {
        Err(_) => Step::End(Ok(Answer::Value(world.truth(false)))),
        other => Step::End(other),
    }
}

// An accessor is asked whether it is abstract.
fn ask_whether(world: &World, accessor: PyObjectRef) -> Task
    requires { Holds world.now (IsNode accessor) }
    ensures task { (t : Reading) → Reads t world.now →
        task_of t result ≡ ToAttribute (DoGetAttr accessor (known_text known.Isabstractmethod)) }
    ensures holds { AllHold world.now (of_task result) }
{
    Task::Attribute(AttributeTask::GetAttr(accessor, world.known(Known::Isabstractmethod)))
}

// What the setter and the getter are is joined as by `|`.
fn both(setter: PyObjectRef, getter: PyObjectRef) -> Task
    ensures { result ≡ Task.Operator (operator.Binary PyNumberBinaryOp.Or setter getter) }
{
    Task::Operator(OperatorTask::Binary(PyNumberBinaryOp::Or, setter, getter))
}

// What an accessor says, or that it is not abstract.
fn or_false(world: &World, answer: Result<Answer, Raised>) -> PyObjectRef
    requires { AllHold world.now (of_ended answer) }
    ensures said { or_false (ended_of answer) ≡ result }
    ensures node { Holds world.now (IsNode result) }
{
    match answer {
        Ok(Answer::Value(v)) => v,
        _ => world.truth(false),
    }
}

// What sets, where an object is a property that has one.
fn setter_at(world: &World, object: PyObjectRef) -> Option<PyObjectRef>
    requires { Holds world.now (IsNode object) }
    ensures setter { (t : Reading) → setter_at (datum_at (plain t world.now) object) ≡ listed result }
    ensures node { IfSome result (λ r. Holds world.now (IsNode r)) }
{
    match world.payload(object) {
        Payload::Property(parts) => parts.fset,
        _ => None,
    }
}

// The property that the first argument is, with its parts, or why it is refused.
fn own_property(world: &World, args: &[PyObjectRef]) -> Result<(PyObjectRef, PyProperty), Raised>
    requires { Holds world.now (AreNodes args.now) }
    ensures given { IfOk result (λ p. (t : Reading) (go : Object → Parts → Said) →
        with_own property_in (plain t world.now) args.now go ≡ go p.0 p.1) }
    ensures refused { IfErr result (λ x. (t : Reading) (go : Object → Parts → Said) →
        with_own property_in (plain t world.now) args.now go ≡ Ends (plain t world.now) (Err x)) }
    ensures first { IfOk result (λ p. argument args.now 0 ≡ p.0) }
    ensures node { IfOk result (λ p. Holds world.now (IsNode p.0)) }
    ensures getter { IfOk result (λ p. IfSome p.1.fget (λ r. Holds world.now (IsNode r))) }
    ensures setter { IfOk result (λ p. IfSome p.1.fset (λ r. Holds world.now (IsNode r))) }
{
    match args {
        [] => Err(Raised::new(Cause::ArgCount)),
        [o, ..] => match world.payload(*o) {
            Payload::Property(p) => Ok((*o, **p)),
            _ => Err(Raised::new(Cause::SelfType)),
        },
    }
}
