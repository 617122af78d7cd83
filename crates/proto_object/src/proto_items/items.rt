//! How the item of a key is read, set and taken out.
#![tactic(auto, unfolding(crate::specs::ProtoItems::Say::items_job_say, py_node::specs::BuiltIns::place_of))]

ghost use Rattle.proto_object.specs.Below.{IfOk, Ok, is_attribute_error, of_ended, Leaves, Reading, Reads, plain, AllHold, Holds, IsNode};
ghost use Rattle.std.specs.Prelude.{◌≡◌};
ghost use Rattle.py_node.specs.declared.protocol.ProtocolTask.TheVariants as protocol;
ghost use Rattle.proto_object.specs.ProtoItems.Items.{assigner, deleted, deleting, is_subscripted};
ghost use Rattle.proto_object.specs.ProtoItems.Rows.{Begins, Resumes, of_items_kept};

use crate::proto_items::ItemsKept;
use class_world::World;
use class_world::args::alone;
use py_node::protocol::ProtocolTask;
use py_node::{
    Answer, AttributeTask, BuiltIn, CallTask, Cause, DictNative, Kind, Known, ListNative,
    NativeEntry, OutOfMemory, PyObjectRef, Raised, SlotEntry, SlotId, Step, Task,
};
use row_kit::proto_base::entered;

/// An item is read as from a mapping, or else by a whole number as from a sequence. A class may say what it gives for a
/// key.
pub(crate) fn begin_get(
    world: &World,
    o: PyObjectRef,
    key: PyObjectRef,
) -> Result<Step<ItemsKept>, OutOfMemory>
    requires object { Holds world.now (IsNode o) }
    requires key { Holds world.now (IsNode key) }
    ensures goes { IfOk result (λ step. Begins (protocol.GetItem o key) world.now world.now step) }
    ensures safe { Leaves of_items_kept world.now world.now result }
{
    match (
        world.slot(o, SlotId::MapSubscript),
        world.slot(o, SlotId::SeqItem),
    ) {
        (Some(entry), _) => {
            let task = entered(world, entry, Known::GetItem, o, &[key])?;
            Ok(Step::Ask(task, ItemsKept::Pass))
        }
        (None, Some(_)) => {
            let task = Task::Protocol(ProtocolTask::Index(key));
            Ok(Step::Ask(task, ItemsKept::AfterIndex(o)))
        }
        (None, None) => {
            if !is_subscripted(world, o) {
                return Ok(Step::raise(Cause::NotSubscriptable));
            }
            let task = AttributeTask::GetAttr(o, world.known(Known::ClassGetitem));
            Ok(Step::Ask(Task::Attribute(task), ItemsKept::AfterClass(key)))
        }
    }
}

// Whether an object is a class other than `type`.
fn is_subscripted(world: &World, o: PyObjectRef) -> bool
    requires { Holds world.now (IsNode o) }
    ensures { (t : Reading) → is_subscripted (plain t world.now) o ≡ result }
{
    let type_type = BuiltIn::TypeType.class();
    world.is_instance(o, type_type) && o.0 != type_type.0
}

/// The item of a sequence, by the whole number that a key stands for.
pub(crate) fn index_given(
    world: &World,
    o: PyObjectRef,
    index: PyObjectRef,
) -> Result<Step<ItemsKept>, OutOfMemory>
    requires object { Holds world.now (IsNode o) }
    requires index { Holds world.now (IsNode index) }
    ensures goes { IfOk result (λ step.
        Resumes (ItemsKept.AfterIndex o) (Ok (Answer.Value index)) world.now world.now step) }
    ensures safe { Leaves of_items_kept world.now world.now result }
{
    match world.slot(o, SlotId::SeqItem) {
        None => Ok(Step::raise(Cause::NotSubscriptable)),
        Some(entry) => {
            let task = entered(world, entry, Known::GetItem, o, &[index])?;
            Ok(Step::Ask(task, ItemsKept::Pass))
        }
    }
}

/// What a class has for a key is called with the key. Without that it has no items.
pub(crate) fn class_given(
    world: &World,
    key: PyObjectRef,
    answer: Result<Answer, Raised>,
) -> Result<Step<ItemsKept>, OutOfMemory>
    requires key { Holds world.now (IsNode key) }
    requires answer { AllHold world.now (of_ended answer) }
    ensures goes { IfOk result (λ step. Resumes (ItemsKept.AfterClass key) answer world.now world.now step) }
    ensures safe { Leaves of_items_kept world.now world.now result }
{
    match answer {
        Ok(Answer::Value(given)) => {
            let alloc = world.alloc();
            let args = alone(alloc, key)?;
            let task = CallTask::Call(given, args, Vec::new(alloc));
            Ok(Step::Ask(Task::Call(task), ItemsKept::Pass))
        }
        Ok(other) => Ok(Step::End(Ok(other))),
        Err(raised) => {
            if is_attribute_error(raised.kind) {
                Ok(Step::raise(Cause::NotSubscriptable))
            } else {
                Ok(Step::End(Err(raised)))
            }
        }
    }
}

// Whether a fault is an AttributeError.
fn is_attribute_error(kind: Kind) -> bool
    ensures { result ≡ is_attribute_error kind }
{
    kind == Kind::AttributeError
}

/// An item is set as in a mapping, or else as in a sequence.
pub(crate) fn begin_set(
    world: &World,
    o: PyObjectRef,
    key: PyObjectRef,
    value: PyObjectRef,
) -> Result<Step<ItemsKept>, OutOfMemory>
    requires object { Holds world.now (IsNode o) }
    requires key { Holds world.now (IsNode key) }
    requires value { Holds world.now (IsNode value) }
    ensures goes { IfOk result (λ step. Begins (protocol.SetItem o key value) world.now world.now step) }
    ensures safe { Leaves of_items_kept world.now world.now result }
{
    match assigner(world, o) {
        None => Ok(Step::raise(Cause::NoItemAssignment)),
        Some(entry) => {
            let task = entered(world, entry, Known::SetItem, o, &[key, value])?;
            Ok(Step::Ask(task, ItemsKept::Ending))
        }
    }
}

/// An item is taken out as of a mapping, or else as of a sequence.
pub(crate) fn begin_delete(
    world: &World,
    o: PyObjectRef,
    key: PyObjectRef,
) -> Result<Step<ItemsKept>, OutOfMemory>
    requires object { Holds world.now (IsNode o) }
    requires key { Holds world.now (IsNode key) }
    ensures goes { IfOk result (λ step. Begins (protocol.DelItem o key) world.now world.now step) }
    ensures safe { Leaves of_items_kept world.now world.now result }
{
    match assigner(world, o) {
        None => Ok(Step::raise(Cause::NoItemDeletion)),
        Some(entry) => {
            let task = entered(world, deleted(entry), Known::DelItem, o, &[key])?;
            Ok(Step::Ask(task, ItemsKept::Ending))
        }
    }
}

// The slot by which an item is set or taken out: that of a mapping, or else of a sequence.
fn assigner(world: &World, o: PyObjectRef) -> Option<SlotEntry>
    requires { Holds world.now (IsNode o) }
    ensures { (t : Reading) → Reads t world.now → assigner (plain t world.now) o ≡ result }
{
    match world.slot(o, SlotId::MapAssSubscript) {
        None => world.slot(o, SlotId::SeqAssItem),
        entry => entry,
    }
}

/// An entry by which something is set, where it is to be taken out. One slot stands for both.
pub(crate) fn deleted(entry: SlotEntry) -> SlotEntry
    ensures { result ≡ deleted entry }
{
    match entry {
        SlotEntry::Native(native) => SlotEntry::Native(deleting(native)),
        other => other,
    }
}

// The native that takes an item out, for one that sets it.
fn deleting(native: NativeEntry) -> NativeEntry
    ensures { result ≡ deleting native }
{
    match native {
        NativeEntry::OfList(_) => NativeEntry::OfList(ListNative::DelItem),
        NativeEntry::OfDict(_) => NativeEntry::OfDict(DictNative::DelItem),
        other => other,
    }
}
