//! What descriptors give.
#![tactic(auto, unfolding(crate::specs::ProtoDescr::Say::descriptor_say, py_node::specs::BuiltIns::place_of))]

ghost use Rattle.py_node.specs.Stops.{Ended};
ghost use Rattle.proto_attr.specs.Below.{Option, Some, IfOk, raised, AllHold, Grows, Holds, IsNode, of_option, of_node_ref, Held, of_descriptor_task, of_ended, Leaves, Reading, plain, ended_of, PlainWorld, Ends, datum_at, PyObjectRef as Object};
ghost use Rattle.std.specs.Prelude.{◌≡◌, ◌∷◌, ◌++◌};
ghost use Rattle.py_node.specs.declared.task.DescriptorTask.TheVariants as descriptor;
ghost use Rattle.proto_attr.specs.ProtoDescr.Say.{descr_get_by, function_get, is_object_none, class_of_option, or_none, is_none_type, object_get, class_get, static_get, native_get};
ghost use Rattle.proto_attr.specs.ProtoDescr.Rows.{Begins, Starts, EndsSaid, number, described, native_of, bound_as, of_descriptor_kept};

use crate::proto_descr::DescriptorKept;
use crate::proto_descr::member::get_of_member;
use crate::proto_descr::property::get_of_property;
use crate::proto_descr::super_start::get_of_super;
use crate::proto_descr::wrapped::{get_of_class_method, get_of_getset, static_method_get};
use bitflags::Flags;
use class_world::args::both;
use class_world::{Fixed, World};
use py_node::{
    Answer, AttributeTask, BoundMethod, Boxed, BuiltIn, BuiltinMethod, CallableNative, Cause,
    DescriptorNative, Known, MethodDescriptor, NativeEntry, OutOfMemory, Payload, PropertyNative,
    PyMethodFlags, PyObjectRef, PyTypeRef, Raised, SlotEntry, SlotId, Step, Stop, SuperNative,
    Task, WrapperNative, caught,
};

// A descriptor's value for an object and a class, as its class's entry for that says.
pub(crate) fn descr_get(
    world: &mut World,
    m: PyObjectRef,
    o: Option<PyObjectRef>,
    class: Option<PyObjectRef>,
) -> Result<Step<DescriptorKept>, OutOfMemory>
    requires { AllHold world.old (of_descriptor_task (descriptor.DescrGet m o class)) }
    ensures goes { IfOk result (λ step. Begins (descriptor.DescrGet m o class) world.old world.new step) }
    ensures safe { Leaves of_descriptor_kept world.old world.new result }
{
    match world.slot(m, SlotId::DescrGet) {
        Some(SlotEntry::Wrapper(_)) => get_by_method(world, m, o, class),
        Some(SlotEntry::Native(NativeEntry::OfCallable(CallableNative::GetFunction))) => {
            let class = class_of_option(world, class);
            let ended = caught(function_get(world, m, o, class))?;
            Ok(Step::End(ended))
        }
        Some(SlotEntry::Native(NativeEntry::OfCallable(CallableNative::GetMethodDescriptor))) => {
            get_of_native(world, m, o, class)
        }
        Some(SlotEntry::Native(NativeEntry::OfDescriptor(DescriptorNative::GetSetGet))) => {
            get_of_getset(world, m, o, class)
        }
        Some(SlotEntry::Native(NativeEntry::OfDescriptor(DescriptorNative::MemberGet))) => {
            get_of_member(world, m, o, class)
        }
        Some(SlotEntry::Native(NativeEntry::OfProperty(PropertyNative::Get))) => {
            get_of_property(world, m, o, class)
        }
        Some(SlotEntry::Native(NativeEntry::OfWrapper(WrapperNative::ClassGet))) => {
            Ok(get_of_class_method(world, m, o, class))
        }
        Some(SlotEntry::Native(NativeEntry::OfWrapper(WrapperNative::StaticGet))) => {
            let value = static_method_get(world, m);
            Ok(Step::End(Ok(Answer::Value(value))))
        }
        Some(SlotEntry::Native(NativeEntry::OfSuper(SuperNative::Get))) => {
            Ok(get_of_super(world, m, o, class))
        }
        _ => Ok(Step::End(Ok(Answer::Value(m)))),
    }
}

// A native as a method is bound.
fn get_of_native(
    world: &mut World,
    m: PyObjectRef,
    o: Option<PyObjectRef>,
    class: Option<PyObjectRef>,
) -> Result<Step<DescriptorKept>, OutOfMemory>
    requires { AllHold world.old (of_descriptor_task (descriptor.DescrGet m o class)) }
    ensures goes { IfOk result (λ step.
        Starts (descriptor.DescrGet m o class) (λ t w. native_get w (datum_at w m) m o class)
        world.old world.new step) }
    ensures safe { Leaves of_descriptor_kept world.old world.new result }
{
    let native = descriptor_of(world, m);
    let ended = caught(native_get(world, native, m, o, class))?;
    Ok(Step::End(ended))
}

/// A function is bound to an object as it is looked up in a class, where these are given.
pub fn bind_function(
    world: &mut World,
    m: PyObjectRef,
    o: Option<PyObjectRef>,
    class: Option<PyObjectRef>,
) -> Result<Answer, Stop>
    requires { AllHold world.old (of_descriptor_task (descriptor.DescrGet m o class)) }
    ensures goes { Ended result (EndsSaid (λ t w. function_get w m o (class_of_option w class)) world.old world.new) }
    ensures grows { Grows world.old world.new }
    ensures safe { Ended result (λ r. AllHold world.new (of_ended r)) }
{
    let class = class_of_option(world, class);
    function_get(world, m, o, class)
}

/// A native as a method is bound to an object or to a class, where these are given.
pub fn bind_native(
    world: &mut World,
    m: PyObjectRef,
    o: Option<PyObjectRef>,
    class: Option<PyObjectRef>,
) -> Result<Answer, Stop>
    requires { AllHold world.old (of_descriptor_task (descriptor.DescrGet m o class)) }
    ensures goes { Ended result (EndsSaid (λ t w. native_get w (datum_at w m) m o class) world.old world.new) }
    ensures grows { Grows world.old world.new }
    ensures safe { Ended result (λ r. AllHold world.new (of_ended r)) }
{
    let native = descriptor_of(world, m);
    native_get(world, native, m, o, class)
}

// A special method is asked, and is given None for what is missing.
fn get_by_method(
    world: &World,
    m: PyObjectRef,
    o: Option<PyObjectRef>,
    class: Option<PyObjectRef>,
) -> Result<Step<DescriptorKept>, OutOfMemory>
    requires { AllHold world.now (of_descriptor_task (descriptor.DescrGet m o class)) }
    ensures goes { IfOk result (λ step. Starts (descriptor.DescrGet m o class) (λ t w.
        descr_get_by w (Some (SlotEntry.Wrapper SlotId.DescrGet)) m o class) world.now world.now step) }
    ensures safe { Leaves of_descriptor_kept world.now world.now result }
{
    let alloc = world.alloc();
    let object = or_none(world, o);
    let class = or_none(world, class);
    let method = world.known(Known::Get);
    let args = both(alloc, object, class)?;
    let task = AttributeTask::Special(m, method, args, Vec::new(alloc));
    Ok(Step::Ask(Task::Attribute(task), DescriptorKept::Pass))
}

// An object, or else None.
fn or_none(world: &World, object: Option<PyObjectRef>) -> PyObjectRef
    requires { AllHold world.now (of_option of_node_ref object) }
    ensures object { result ≡ or_none object }
    ensures node { Holds world.now (IsNode result) }
{
    match object {
        None => world.fixed(Fixed::None),
        Some(object) => object,
    }
}

// The class that an object stands for, where there is an object and it does.
fn class_of_option(world: &World, object: Option<PyObjectRef>) -> Option<PyTypeRef>
    requires { AllHold world.now (of_option of_node_ref object) }
    ensures { (t : Reading) → class_of_option (plain t world.now) object ≡ number result }
{
    match object {
        None => None,
        Some(object) => world.class_number(object),
    }
}

// A function is bound to an object, but not to None unless it is looked up in None's class.
fn function_get(
    world: &mut World,
    m: PyObjectRef,
    o: Option<PyObjectRef>,
    class: Option<PyTypeRef>,
) -> Result<Answer, Stop>
    requires { AllHold world.old (IsNode m ∷ of_option of_node_ref o) }
    ensures goes { Ended result (EndsSaid (λ t w. function_get w m o (number class)) world.old world.new) }
    ensures grows { Grows world.old world.new }
    ensures safe { Ended result (λ r. AllHold world.new (of_ended r)) }
{
    match o {
        None => Ok(Answer::Value(m)),
        Some(object) => {
            if is_object_none(object, class) {
                return Ok(Answer::Value(m));
            }
            let method = BoundMethod {
                target: object,
                func: m,
            };
            let class = world.built_in(BuiltIn::Method);
            let node = world.make_node(class, Payload::Method(method))?;
            Ok(Answer::Value(node))
        }
    }
}

// Whether an object is None, looked at from another class than its own.
fn is_object_none(object: PyObjectRef, class: Option<PyTypeRef>) -> bool
    ensures { result ≡ is_object_none object (number class) }
{
    object.0 == Fixed::None.node().0 && !is_none_type(class)
}

// Whether a class is that of None.
fn is_none_type(class: Option<PyTypeRef>) -> bool
    ensures { result ≡ is_none_type (number class) }
{
    match class {
        None => false,
        Some(class) => class.0 == BuiltIn::NoneType.class().0,
    }
}

// The native that an object is as a method, if it is one.
fn descriptor_of(world: &World, m: PyObjectRef) -> Option<MethodDescriptor>
    requires { Holds world.now (IsNode m) }
    ensures reads { (t : Reading) (u : PlainWorld) (o : Option Object) (c : Option Object) →
        native_get u (datum_at (plain t world.now) m) m o c ≡ native_get u (described t result) m o c }
    ensures holds { AllHold world.now (of_option native_of result) }
{
    match world.payload(m) {
        Payload::MethodDescriptor(native) => Some(*native.get()),
        _ => None,
    }
}

// A native as a method is bound as its flags say.
fn native_get(
    world: &mut World,
    native: Option<MethodDescriptor>,
    m: PyObjectRef,
    o: Option<PyObjectRef>,
    class: Option<PyObjectRef>,
) -> Result<Answer, Stop>
    requires native { AllHold world.old (of_option native_of native) }
    requires task { AllHold world.old (of_descriptor_task (descriptor.DescrGet m o class)) }
    ensures goes { Ended result (EndsSaid (λ t w. native_get w (described t native) m o class) world.old world.new) }
    ensures grows { Grows world.old world.new }
    ensures safe { Ended result (λ r. AllHold world.new (of_ended r)) }
{
    match native {
        None => Ok(Answer::Value(m)),
        Some(native) => {
            let flags = PyMethodFlags(native.flags);
            if flags.contains(PyMethodFlags::METHOD) {
                let class = class_of_option(world, class);
                object_get(world, native, m, o, class)
            } else if flags.contains(PyMethodFlags::CLASS) {
                class_get(world, native, o, class)
            } else {
                Ok(static_get(m, o)?)
            }
        }
    }
}

// A native of objects is bound to the object, where a class is given too.
fn object_get(
    world: &mut World,
    native: MethodDescriptor,
    m: PyObjectRef,
    o: Option<PyObjectRef>,
    class: Option<PyTypeRef>,
) -> Result<Answer, Stop>
    requires native { AllHold world.old (native_of native) }
    requires task { AllHold world.old (IsNode m ∷ of_option of_node_ref o) }
    ensures goes { Ended result (EndsSaid (λ t w. object_get w m (bound_as t w native) o (number class)) world.old world.new) }
    ensures grows { Grows world.old world.new }
    ensures safe { Ended result (λ r. AllHold world.new (of_ended r)) }
{
    match o {
        None => Ok(Answer::Value(m)),
        Some(object) => match class {
            None => Err(needs_type().into()),
            Some(_) => bound_native(world, native, object),
        },
    }
}

// A native of classes is bound to the object's class, or else to the class that is given.
fn class_get(
    world: &mut World,
    native: MethodDescriptor,
    o: Option<PyObjectRef>,
    class: Option<PyObjectRef>,
) -> Result<Answer, Stop>
    requires native { AllHold world.old (native_of native) }
    requires task { AllHold world.old (of_option of_node_ref o ++ of_option of_node_ref class) }
    ensures goes { Ended result (EndsSaid (λ t w. class_get w (bound_as t w native) o class) world.old world.new) }
    ensures grows { Grows world.old world.new }
    ensures safe { Ended result (λ r. AllHold world.new (of_ended r)) }
{
    match o {
        Some(object) => {
            let target = world.type_object(object);
            bound_native(world, native, target)
        }
        None => match class {
            None => Err(needs_type().into()),
            Some(target) => bound_native(world, native, target),
        },
    }
}

// A static native is itself, and of no object.
fn static_get(m: PyObjectRef, o: Option<PyObjectRef>) -> Result<Answer, Raised>
    ensures goes { (w : PlainWorld) → static_get w m o ≡ Ends w (ended_of result) }
    ensures safe { (w : Held) → Holds w (IsNode m) → AllHold w (of_ended result) }
{
    match o {
        None => Ok(Answer::Value(m)),
        Some(_) => Err(needs_type()),
    }
}

// A class is wanted.
fn needs_type() -> Raised
    ensures { result ≡ raised Cause.NeedsType }
{
    Raised::new(Cause::NeedsType)
}

// A native is bound to an object.
fn bound_native(
    world: &mut World,
    native: MethodDescriptor,
    target: PyObjectRef,
) -> Result<Answer, Stop>
    requires native { AllHold world.old (native_of native) }
    requires target { Holds world.old (IsNode target) }
    ensures goes { Ended result (EndsSaid (λ t w. bound_as t w native target) world.old world.new) }
    ensures grows { Grows world.old world.new }
    ensures safe { Ended result (λ r. AllHold world.new (of_ended r)) }
{
    let method = BuiltinMethod {
        name: native.name,
        entry: native.entry,
        target,
        class: native.class,
        doc: native.doc,
    };
    let class = world.built_in(BuiltIn::BuiltinMethod);
    let method = Boxed::new(world.alloc(), method)?;
    let node = world.make_node(class, Payload::BuiltinMethod(method))?;
    Ok(Answer::Value(node))
}
