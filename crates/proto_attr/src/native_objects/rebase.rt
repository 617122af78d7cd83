//! Other bases for a class.

ghost use Rattle.py_node.specs.Stops.{Ended};
ghost use Rattle.proto_attr.specs.Below.{option_map, IfOk, IfSome, numbers, datum_at, Reading, plain, EndsAs, LeavesEnd, AllHold, AreNodes, IsClass, IsNode, Holds, of_class_ref, of_each};
ghost use Rattle.std.specs.Prelude.{◌≡◌, ◌≤◌};
ghost use Rattle.py_node.specs.declared.entry.Property.TheVariants as property;
ghost use Rattle.proto_attr.specs.NativeObjects.Setters.{all_classes, class_written, classes_in, rebased};

use crate::native_objects::class_setters::heap_value;
use class_table::{ClassFault, Steps};
use class_world::{Fixed, World};
use py_node::{Answer, Cause, OutOfMemory, Payload, PyObjectRef, PyTypeRef, Raised, Stop};
use std::marker::Brand;
use std::sync::ledger::{Blank, Ledger};

/// The bases of a class, which a tuple of classes gives.
pub(crate) fn set_bases(
    world: &mut World,
    class: PyTypeRef,
    given: Option<PyObjectRef>,
) -> Result<Answer, Stop>
    requires class { Holds world.old (IsClass class.0) }
    requires given { IfSome given (λ r. Holds world.old (IsNode r)) }
    ensures ends { Ended result (EndsAs (λ t u. class_written u property.Bases class.0 given)
        world.old world.new) }
    ensures safe { LeavesEnd world.old world.new result }
{
    let value = heap_value(world, class, given)?;
    match classes_in(world, value)? {
        None => Err(Stop::raise(Cause::BasesShape)),
        Some(bases) => rebased::<Brand>(world, class, bases, Blank::new(2)),
    }
}

// The classes that a tuple has, where it has nothing else.
fn classes_in(world: &World, object: PyObjectRef) -> Result<Option<Vec<PyTypeRef>>, OutOfMemory>
    requires { Holds world.now (IsNode object) }
    ensures classes { IfOk result (λ o. (t : Reading) →
        classes_in (plain t world.now) (datum_at (plain t world.now) object) ≡
        option_map (λ v. numbers v.items) o) }
    ensures there { IfOk result (λ o. IfSome o (λ v. AllHold world.now (of_each of_class_ref v.items))) }
{
    match world.payload(object) {
        Payload::Tuple(items) => all_classes(world, items),
        _ => Ok(None),
    }
}

// The classes that some objects are, where all are classes.
fn all_classes(world: &World, nodes: &[PyObjectRef]) -> Result<Option<Vec<PyTypeRef>>, OutOfMemory>
    requires { Holds world.now (AreNodes nodes.now) }
    ensures classes { IfOk result (λ o. (t : Reading) →
        all_classes (plain t world.now) nodes.now ≡ option_map (λ v. numbers v.items) o) }
    ensures there { IfOk result (λ o. IfSome o (λ v. AllHold world.now (of_each of_class_ref v.items))) }
{
    let mut classes = Vec::new(world.alloc());
    for node in nodes {
        match world.class_number(*node) {
            None => return Ok(None),
            Some(class) => classes.push(class)?,
        }
    }
    Ok(Some(classes))
}

// A class gets other bases, unless this is refused. Its steps are counted for nobody.
fn rebased<L: Ledger>(
    world: &mut World,
    class: PyTypeRef,
    bases: Vec<PyTypeRef>,
    blank: Blank,
) -> Result<Answer, Stop>
    requires class { Holds world.old (IsClass class.0) }
    requires bases { AllHold world.old (of_each of_class_ref bases.items) }
    requires name { blank.name ≡ L.name }
    requires parts { blank.parts ≡ L.parts }
    requires both { 2 ≤ L.parts }
    ensures ends { Ended result (EndsAs (λ t u. rebased u class.0 (numbers bases.items)) world.old world.new) }
    ensures safe { LeavesEnd world.old world.new result }
{
    let mut steps = Steps::<L>::new(blank);
    match world.set_bases(class, bases, &mut steps) {
        Ok(()) => Ok(Answer::Value(world.fixed(Fixed::None))),
        Err(ClassFault::Refused(cause)) => Err(Stop::raise(cause)),
        Err(ClassFault::RefusedAt(cause, _)) => Err(Stop::raise(cause)),
        Err(ClassFault::OutOfMemory) => Err(Stop::OutOfMemory),
    }
}
