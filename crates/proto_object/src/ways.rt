//! Tests by a class: whether an object is an instance of it, and whether another class is a subclass. A class's own
//! class may say so, and a tuple stands for each of its objects.
#![tactic(auto, unfolding(crate::specs::Say::object_job_say, py_node::specs::BuiltIns::place_of))]

ghost use Rattle.proto_object.specs.Below.{eqb, IfOk, the_type, datum_at, of_ended, of_step, Leaves, Reading, Reads, plain, AllHold, AreNodes, Holds, IsNode, items_at, is_exactly};
ghost use Rattle.std.specs.Prelude.{◌≡◌, ◌&&◌};
ghost use Rattle.py_node.specs.declared.protocol.ObjectTask.TheVariants as object;
ghost use Rattle.proto_object.specs.Classes.{is_tuple, way_of};
ghost use Rattle.proto_object.specs.Rows.{Begins, Resumes, of_object_kept, way_number};

use crate::ObjectKept;
use crate::asked::{method, says, special};
use crate::turns::{Turn, take_turn};
use class_world::World;
use class_world::args::{alone, copy_args};
use py_node::protocol::{ObjectTask, ProtocolTask};
use py_node::task::Args;
use py_node::{Answer, BuiltIn, Known, OutOfMemory, Payload, PyObjectRef, Raised, Step, Task};
use row_kit::proto_base::is_exactly;
use row_kit::take_containers::items;

/// How a test by a class is done.
#[derive(Clone, Copy)]
pub enum Way {
    /// It holds at once.
    AtOnce,
    /// The class is asked in the plain way.
    Plainly,
    /// Each object of a tuple is asked.
    ByEach,
    /// What the class's class says is called.
    Called,
}

// How the test of a name is done by a class, where it may hold at once.
fn way_of(world: &World, at_once: bool, name: Known, class: PyObjectRef) -> Way
    requires { Holds world.now (IsNode class) }
    ensures { (t : Reading) → Reads t world.now →
        way_of (plain t world.now) at_once name class ≡ way_number result }
{
    if at_once {
        Way::AtOnce
    } else if is_exactly(world, class, BuiltIn::TypeType) {
        Way::Plainly
    } else if is_tuple(world, class) {
        Way::ByEach
    } else if method(world, class, name).is_some() {
        Way::Called
    } else {
        Way::Plainly
    }
}

// Whether an object holds the items of a tuple.
fn is_tuple(world: &World, object: PyObjectRef) -> bool
    requires { Holds world.now (IsNode object) }
    ensures { (t : Reading) → is_tuple (datum_at (plain t world.now) object) ≡ result }
{
    match world.payload(object) {
        Payload::Tuple(_) => true,
        _ => false,
    }
}

// Whether this is the number of an object's class.
pub(crate) fn is_of(world: &World, object: PyObjectRef, number: u64) -> bool
    requires { Holds world.now (IsNode object) }
    ensures { (t : Reading) → is_exactly (plain t world.now) object number ≡ result }
{
    world.class_of(object).0 == number
}

// Whether the second is just a class, and the first the same one.
fn is_one_class(world: &World, d: PyObjectRef, c: PyObjectRef) -> bool
    requires { Holds world.now (IsNode c) }
    ensures { (t : Reading) → is_exactly (plain t world.now) c the_type && eqb d.0 c.0 ≡ result }
{
    is_exactly(world, c, BuiltIn::TypeType) && d.0 == c.0
}

/// Whether an object is an instance of a class, or of one of several.
pub(crate) fn begin_is_instance(
    world: &World,
    o: PyObjectRef,
    c: PyObjectRef,
) -> Result<Step<ObjectKept>, OutOfMemory>
    requires o { Holds world.now (IsNode o) }
    requires c { Holds world.now (IsNode c) }
    ensures goes { IfOk result (λ step. Begins (object.IsInstance o c) world.now world.now step) }
    ensures safe { Leaves of_object_kept world.now world.now result }
{
    let at_once = is_of(world, o, c.0);
    match way_of(world, at_once, Known::Instancecheck, c) {
        Way::AtOnce => Ok(says(true)),
        Way::Plainly => {
            let task = Task::Object(ObjectTask::Inst(o, c));
            Ok(Step::Ask(task, ObjectKept::Pass))
        }
        Way::ByEach => {
            let items = items_of(world, c)?;
            Ok(take_turn(world, Turn::InstanceOf(o), items, 0))
        }
        Way::Called => {
            let args = alone(world.alloc(), o)?;
            let task = special(world, c, Known::Instancecheck, args);
            Ok(Step::Ask(task, ObjectKept::AfterCheck))
        }
    }
}

/// Whether a class is a subclass of another, or of one of several.
pub(crate) fn begin_is_subclass(
    world: &World,
    d: PyObjectRef,
    c: PyObjectRef,
) -> Result<Step<ObjectKept>, OutOfMemory>
    requires d { Holds world.now (IsNode d) }
    requires c { Holds world.now (IsNode c) }
    ensures goes { IfOk result (λ step. Begins (object.IsSubclass d c) world.now world.now step) }
    ensures safe { Leaves of_object_kept world.now world.now result }
{
    let at_once = is_one_class(world, d, c);
    match way_of(world, at_once, Known::Subclasscheck, c) {
        Way::AtOnce => Ok(says(true)),
        Way::Plainly => {
            let task = Task::Object(ObjectTask::Sub(d, c));
            Ok(Step::Ask(task, ObjectKept::Pass))
        }
        Way::ByEach => {
            let items = items_of(world, c)?;
            Ok(take_turn(world, Turn::SubclassOf(d), items, 0))
        }
        Way::Called => {
            let args = alone(world.alloc(), d)?;
            let task = special(world, c, Known::Subclasscheck, args);
            Ok(Step::Ask(task, ObjectKept::AfterCheck))
        }
    }
}

// The objects of a tuple, as they are now.
fn items_of(world: &World, object: PyObjectRef) -> Result<Args, OutOfMemory>
    requires { Holds world.now (IsNode object) }
    ensures items { IfOk result (λ v. (t : Reading) → items_at (plain t world.now) object ≡ v.items) }
    ensures holds { IfOk result (λ v. Holds world.now (AreNodes v.items)) }
{
    let copy = copy_args(world.alloc(), items(world, object))?;
    Ok(copy)
}

/// What the class's class says was called: the truth value of what it gave is the answer.
pub(crate) fn check_given(world: &World, answer: Result<Answer, Raised>) -> Step<ObjectKept>
    requires { AllHold world.now (of_ended answer) }
    ensures goes { Resumes ObjectKept.AfterCheck answer world.now world.now result }
    ensures safe { AllHold world.now (of_step of_object_kept result) }
{
    let _classes = world.classes();
    match answer {
        Ok(Answer::Value(v)) => {
            let task = Task::Protocol(ProtocolTask::IsTrue(v));
            Step::Ask(task, ObjectKept::Pass)
        }
        other => Step::End(other),
    }
}
