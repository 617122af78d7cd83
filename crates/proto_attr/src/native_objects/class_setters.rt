//! The names, the module and the annotations that are set of a class.

ghost use Rattle.py_node.specs.Stops.{Ended};
ghost use Rattle.proto_attr.specs.Below.{Err, Some, IfErr, IfOk, IfSome, is_some, true, PyObjectRef as Object, known_text, is_heap_at, SetOwn, Said, Ends, datum_at, Reading, plain, EndsAs, LeavesEnd, IsClass, IsNode, Holds, has_null, text_of};
ghost use Rattle.std.specs.Prelude.{◌≡◌};
ghost use Rattle.py_node.specs.declared.entry.Property.TheVariants as property;
ghost use Rattle.class_model.specs.Class.{class_at as class_numbered};
ghost use Rattle.proto_attr.specs.NativeObjects.Setters.{changes, class_written, on_heap, renamed, set_name, set_qualname, take_own, with_heap_value};

use class_table::ClassFault;
use class_world::{Fixed, World};
use py_node::{Answer, Cause, Known, OutOfMemory, Payload, PyObjectRef, PyTypeRef, Raised, Stop};
use row_kit::class_names::text_of;
use row_kit::questions::has_null;

/// What a class that a script made is given, or why it is refused: nothing is taken out.
pub(crate) fn heap_value(
    world: &World,
    class: PyTypeRef,
    given: Option<PyObjectRef>,
) -> Result<PyObjectRef, Raised>
    requires class { Holds world.now (IsClass class.0) }
    requires given { IfSome given (λ r. Holds world.now (IsNode r)) }
    ensures given { IfOk result (λ v. (t : Reading) (go : Object → Said) →
        with_heap_value (plain t world.now) class.0 given go ≡ go v) }
    ensures refused { IfErr result (λ x. (t : Reading) (go : Object → Said) →
        with_heap_value (plain t world.now) class.0 given go ≡ Ends (plain t world.now) (Err x)) }
    ensures heap { IfOk result (λ v. (t : Reading) →
        is_heap_at (class_numbered (plain t world.now).classes class.0) ≡ true) }
    ensures held { IfOk result (λ v. is_heap_at (class_numbered world.now.classes class.0) ≡ true) }
    ensures node { IfOk result (λ v. Holds world.now (IsNode v)) }
{
    if world.class_is_heap(class) {
        match given {
            None => Err(Raised::new(Cause::CannotDelete)),
            Some(value) => Ok(value),
        }
    } else {
        Err(Raised::new(Cause::ImmutableType))
    }
}

/// The name of a class.
pub(crate) fn set_name(
    world: &mut World,
    class: PyTypeRef,
    given: Option<PyObjectRef>,
) -> Result<Answer, Stop>
    requires class { Holds world.old (IsClass class.0) }
    requires given { IfSome given (λ r. Holds world.old (IsNode r)) }
    ensures ends { Ended result (EndsAs (λ t u. class_written u property.Name class.0 given)
        world.old world.new) }
    ensures safe { LeavesEnd world.old world.new result }
{
    let value = heap_value(world, class, given)?;
    match text_of(world, value)? {
        None => Err(Stop::raise(Cause::NameType)),
        Some(name) => renamed(world, class, name.as_str()),
    }
}

// A class that a script made gets another name, which has no null character.
fn renamed(world: &mut World, class: PyTypeRef, name: &str) -> Result<Answer, Stop>
    requires class { Holds world.old (IsClass class.0) }
    requires heap { is_heap_at (class_numbered world.old.classes class.0) ≡ true }
    ensures ends { Ended result (EndsAs (λ t u. renamed u class.0 name.now) world.old world.new) }
    ensures safe { LeavesEnd world.old world.new result }
{
    if has_null(name) {
        return Err(Stop::raise(Cause::NullInName));
    }
    world.set_name(class, name)?;
    Ok(Answer::Value(world.fixed(Fixed::None)))
}

/// The name of a class within its module, which is kept as it is given.
pub(crate) fn set_qualname(
    world: &mut World,
    class: PyTypeRef,
    given: Option<PyObjectRef>,
) -> Result<Answer, Stop>
    requires class { Holds world.old (IsClass class.0) }
    requires given { IfSome given (λ r. Holds world.old (IsNode r)) }
    ensures ends { Ended result (EndsAs (λ t u. class_written u property.Qualname class.0 given)
        world.old world.new) }
    ensures safe { LeavesEnd world.old world.new result }
{
    let value = heap_value(world, class, given)?;
    if is_text(world, value) {
        set_own(world, class, Known::Qualname, value)
    } else {
        Err(Stop::raise(Cause::NameType))
    }
}

// Whether an object is a text.
fn is_text(world: &World, object: PyObjectRef) -> bool
    requires { Holds world.now (IsNode object) }
    ensures { (t : Reading) → is_some (text_of (datum_at (plain t world.now) object)) ≡ result }
{
    match world.payload(object) {
        Payload::Text(_) => true,
        _ => false,
    }
}

/// The module of a class, which may be any object.
pub(crate) fn set_module(
    world: &mut World,
    class: PyTypeRef,
    given: Option<PyObjectRef>,
) -> Result<Answer, Stop>
    requires class { Holds world.old (IsClass class.0) }
    requires given { IfSome given (λ r. Holds world.old (IsNode r)) }
    ensures ends { Ended result (EndsAs (λ t u. class_written u property.Module class.0 given)
        world.old world.new) }
    ensures safe { LeavesEnd world.old world.new result }
{
    let value = heap_value(world, class, given)?;
    set_own(world, class, Known::Module, value)
}

/// The annotations of a class, which are set or taken out.
pub(crate) fn set_annotations(
    world: &mut World,
    class: PyTypeRef,
    given: Option<PyObjectRef>,
) -> Result<Answer, Stop>
    requires class { Holds world.old (IsClass class.0) }
    requires given { IfSome given (λ r. Holds world.old (IsNode r)) }
    ensures ends { Ended result (EndsAs (λ t u. class_written u property.Annotations class.0 given)
        world.old world.new) }
    ensures safe { LeavesEnd world.old world.new result }
{
    match given {
        None => take_own(world, class, Known::Annotations),
        Some(value) => set_own(world, class, Known::Annotations, value),
    }
}

// An own attribute of a class that a script made.
fn set_own(
    world: &mut World,
    class: PyTypeRef,
    name: Known,
    value: PyObjectRef,
) -> Result<Answer, Stop>
    requires class { Holds world.old (IsClass class.0) }
    requires value { Holds world.old (IsNode value) }
    ensures ends { Ended result (EndsAs (λ t u.
        on_heap u class.0 (changes u (SetOwn class.0 (known_text name) (Some value)))) world.old world.new) }
    ensures safe { LeavesEnd world.old world.new result }
{
    let name = world.known(name);
    match world.set_attr(class, name, value) {
        Ok(()) => Ok(Answer::Value(world.fixed(Fixed::None))),
        Err(ClassFault::Refused(cause)) => Err(Stop::raise(cause)),
        Err(ClassFault::RefusedAt(_, _)) => unreachable!(),
        Err(ClassFault::OutOfMemory) => Err(Stop::OutOfMemory),
    }
}

// An own attribute of a class that a script made is taken out, where it is there.
fn take_own(world: &mut World, class: PyTypeRef, name: Known) -> Result<Answer, Stop>
    requires { Holds world.old (IsClass class.0) }
    ensures ends { Ended result (EndsAs (λ t u. on_heap u class.0 (take_own u class.0 (known_text name)))
        world.old world.new) }
    ensures safe { LeavesEnd world.old world.new result }
{
    let name = world.known(name);
    match world.del_attr_direct(class, name) {
        Ok(true) => Ok(Answer::Value(world.fixed(Fixed::None))),
        Ok(false) => Err(Stop::raise(Cause::NoAttribute)),
        Err(ClassFault::Refused(cause)) => Err(Stop::raise(cause)),
        Err(ClassFault::RefusedAt(_, _)) => unreachable!(),
        Err(ClassFault::OutOfMemory) => Err(Stop::OutOfMemory),
    }
}
