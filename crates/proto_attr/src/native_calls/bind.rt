//! What functions, natives and descriptors give as they are bound, by name.

ghost use Rattle.py_node.specs.Stops.{Ended};
ghost use Rattle.proto_attr.specs.Below.{Err, IfErr, IfOk, Option, PlainWorld, Said, Ends, datum_at, PyObjectRef as Object, of_ended, of_step, Leaves, Held, Reading, bindings, plain, EndsAs, LeavesEnd, AllHold, AreNodes, Holds, IsNode, of_option, of_node_ref};
ghost use Rattle.std.specs.Prelude.{◌≡◌};
ghost use Rattle.proto_attr.specs.declared.native_calls.way.Way.TheVariants as Way;
ghost use Rattle.proto_attr.specs.ProtoDescr.Rows.{StepsAs, nothing_held};
ghost use Rattle.proto_attr.specs.ProtoDescr.Say.{class_method_get};
ghost use Rattle.proto_attr.specs.NativeCalls.Asks.{Does, Resumes, class_asked, of_native_kept};
ghost use Rattle.proto_attr.specs.NativeCalls.Parts.{with_get};
ghost use Rattle.proto_attr.specs.NativeCalls.Say.{function_get_by_name, native_get_by_name, getset_get_by_name, class_method_by_name, static_method_by_name, get_by_name, is_of_kind, way_of};

use crate::native_calls::way::Kind;
use crate::native_calls::{NativeKept, passed};
use crate::proto_descr::{
    bind_class_method, bind_function, bind_getset, bind_native, class_for, get_of,
    static_method_get,
};
use class_world::World;
use class_world::takes::{one, two};
use py_node::{
    Answer, Cause, FuncArgs, NativeEntry, OutOfMemory, Payload, PyObjectRef, Raised, Step, Stop,
};

// What is bound, to which object, and for which class.
pub(crate) type Bound = (PyObjectRef, PyObjectRef, Option<PyObjectRef>);

/// What a function gives for an object, and for a class if there is one.
pub(crate) fn function_get_by_name(world: &mut World, call: FuncArgs<'_>) -> Result<Answer, Stop>
    requires { Holds world.old (AreNodes call.args.now) }
    ensures ends { Ended result (EndsAs (λ t u. function_get_by_name u call.entry.args.now (bindings t call.entry.kw.now))
        world.old world.new) }
    ensures safe { LeavesEnd world.old world.new result }
{
    let (m, o, class) = bound(world, Kind::Function, call)?;
    bind_function(world, m, Some(o), class)
}

/// What a native as a method gives for an object, and for a class if there is one.
pub(crate) fn native_get_by_name(world: &mut World, call: FuncArgs<'_>) -> Result<Answer, Stop>
    requires { Holds world.old (AreNodes call.args.now) }
    ensures ends { Ended result (EndsAs (λ t u. native_get_by_name u call.entry.args.now (bindings t call.entry.kw.now))
        world.old world.new) }
    ensures safe { LeavesEnd world.old world.new result }
{
    let (m, o, class) = bound(world, Kind::Native, call)?;
    bind_native(world, m, Some(o), class)
}

/// What the descriptor of a getter gives for an object.
pub(crate) fn getset_get_by_name(world: &World, call: FuncArgs<'_>) -> Result<Step<()>, OutOfMemory>
    requires { Holds world.now (AreNodes call.args.now) }
    ensures steps { IfOk result (λ step. StepsAs (λ t u. getset_get_by_name u call.entry.args.now (bindings t call.entry.kw.now))
        world.now world.now step) }
    ensures safe { Leaves nothing_held world.now world.now result }
{
    match bound(world, Kind::GetSet, call) {
        Err(raised) => Ok(Step::End(Err(raised))),
        Ok((m, o, _class)) => bind_getset(world, m, Some(o)),
    }
}

/// What a static method gives.
pub(crate) fn static_method_by_name(world: &World, call: FuncArgs<'_>) -> Result<Answer, Raised>
    requires { Holds world.now (AreNodes call.args.now) }
    ensures ends { EndsAs (λ t u. static_method_by_name u call.entry.args.now (bindings t call.entry.kw.now)) world.now world.now result }
    ensures holds { AllHold world.now (of_ended result) }
{
    match bound(world, Kind::StaticMethod, call) {
        Err(raised) => Err(raised),
        Ok((m, _object, _class)) => Ok(Answer::Value(static_method_get(world, m))),
    }
}

/// A class method asks what it wraps for its own `__get__`.
pub(crate) fn class_method_by_name(
    world: &World,
    entry: NativeEntry,
    call: FuncArgs<'_>,
) -> Step<NativeKept>
    requires args { Holds world.now (AreNodes call.args.now) }
    requires way { way_of entry ≡ Way.Binds Kind.ClassMethod }
    ensures goes { Does entry (λ t u. class_method_by_name u call.entry.args.now (bindings t call.entry.kw.now))
        world.now world.now result }
    ensures safe { AllHold world.now (of_step of_native_kept result) }
{
    match bound(world, Kind::ClassMethod, call) {
        Err(raised) => Step::End(Err(raised)),
        Ok((m, o, class)) => match wrapped(world, m) {
            None => Step::End(Ok(Answer::Value(m))),
            Some(func) => {
                let class = class_for(world, Some(o), class);
                Step::Ask(get_of(world, func), NativeKept::AfterGet(class, func))
            }
        },
    }
}

// What a class method wraps, if an object is one.
fn wrapped(world: &World, object: PyObjectRef) -> Option<PyObjectRef>
    requires { Holds world.now (IsNode object) }
    ensures reads { (t : Reading) (w : PlainWorld) (k : Object) →
        class_method_get w (datum_at (plain t world.now) object) object k ≡ class_asked w result object k }
    ensures holds { AllHold world.now (of_option of_node_ref result) }
{
    match world.payload(object) {
        Payload::ClassMethod(func) => Some(*func),
        _ => None,
    }
}

/// A class method goes on with its class and what it wraps.
pub(crate) fn resume_class_method(
    world: &mut World,
    class: PyObjectRef,
    func: PyObjectRef,
    answer: Result<Answer, Raised>,
) -> Result<Step<NativeKept>, OutOfMemory>
    requires kept { AllHold world.old (of_native_kept (NativeKept.AfterGet class func)) }
    requires answer { AllHold world.old (of_ended answer) }
    ensures goes { IfOk result (λ step. Resumes (NativeKept.AfterGet class func) answer
        world.old world.new step) }
    ensures safe { Leaves of_native_kept world.old world.new result }
{
    let step = bind_class_method(world, class, func, answer)?;
    Ok(passed(step))
}

// What is bound, to which object, and for which class, or why the arguments are refused.
pub(crate) fn bound(world: &World, kind: Kind, call: FuncArgs<'_>) -> Result<Bound, Raised>
    requires { Holds world.now (AreNodes call.args.now) }
    ensures given { IfOk result (λ p. (t : Reading) (go : Object → Object → Option Object → Said) →
        get_by_name (plain t world.now) (is_of_kind kind) call.entry.args.now (bindings t call.entry.kw.now) go ≡ go p.0 p.1 p.2) }
    ensures refused { IfErr result (λ x. (t : Reading) (go : Object → Object → Option Object → Said) →
        get_by_name (plain t world.now) (is_of_kind kind) call.entry.args.now (bindings t call.entry.kw.now) go ≡
        Ends (plain t world.now) (Err x)) }
    ensures bound { IfOk result (λ p. Holds world.now (IsNode p.0)) }
    ensures object { IfOk result (λ p. Holds world.now (IsNode p.1)) }
    ensures class { IfOk result (λ p. AllHold world.now (of_option of_node_ref p.2)) }
{
    match call.args {
        [] => Err(Raised::new(Cause::ArgCount)),
        [m, rest @ ..] => {
            if !is_of_kind(world, kind, *m) {
                return Err(Raised::new(Cause::SelfType));
            }
            let (o, class) = object_and_class(FuncArgs {
                args: rest,
                kw: call.kw,
            })?;
            Ok((*m, o, class))
        }
    }
}

// The object that is bound to, and the class if there is one, or why the arguments are refused.
pub(crate) fn object_and_class(
    call: FuncArgs<'_>,
) -> Result<(PyObjectRef, Option<PyObjectRef>), Raised>
    ensures given { IfOk result (λ p. (t : Reading) (w : PlainWorld) (go : Object → Option Object → Said) →
        with_get w call.entry.args.now (bindings t call.entry.kw.now) go ≡ go p.0 p.1) }
    ensures refused { IfErr result (λ x. (t : Reading) (w : PlainWorld) (go : Object → Option Object → Said) →
        with_get w call.entry.args.now (bindings t call.entry.kw.now) go ≡ Ends w (Err x)) }
    ensures object { IfOk result (λ p. (w : Held) → Holds w (AreNodes call.entry.args.now) → Holds w (IsNode p.0)) }
    ensures class { IfOk result (λ p. (w : Held) → Holds w (AreNodes call.entry.args.now) →
        AllHold w (of_option of_node_ref p.1)) }
{
    if call.args.len() == 2 {
        match two(call) {
            Err(raised) => Err(raised),
            Ok((o, class)) => Ok((o, Some(class))),
        }
    } else {
        match one(call) {
            Err(raised) => Err(raised),
            Ok(o) => Ok((o, None)),
        }
    }
}

// Whether an object is of this kind.
pub(crate) fn is_of_kind(world: &World, kind: Kind, object: PyObjectRef) -> bool
    requires { Holds world.now (IsNode object) }
    ensures { (t : Reading) → is_of_kind kind (datum_at (plain t world.now) object) ≡ result }
{
    let payload = world.payload(object);
    match kind {
        Kind::Function => matches!(payload, Payload::Function(_)),
        Kind::Native => matches!(payload, Payload::MethodDescriptor(_)),
        Kind::GetSet => matches!(payload, Payload::GetSet(_)),
        Kind::Member => matches!(payload, Payload::Member(_)),
        Kind::Property => matches!(payload, Payload::Property(_)),
        Kind::Super => matches!(payload, Payload::Super(_)),
        Kind::ClassMethod => matches!(payload, Payload::ClassMethod(_)),
        Kind::StaticMethod => matches!(payload, Payload::StaticMethod(_)),
    }
}
