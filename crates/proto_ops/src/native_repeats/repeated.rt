//! What a repeated text, tuple or list is.

ghost use Rattle.py_node.specs.Stops.{Ended, IfRaised};
ghost use Rattle.proto_ops.specs.Below.{Err, IfOk, List, string_bytes, repeat, PyObjectRef as Object, Text, Ends, PlainWorld, Said, Held, EndsAs, LeavesEnd, AllHold, AreNodes, Holding, Holds, IsNode, list_repeated, native_repeat, with_times};
ghost use Rattle.std.specs.Prelude.{◌≡◌};
ghost use Rattle.py_node.specs.declared.built_in.BuiltIn.TheVariants.{List as ListClass};
ghost use Rattle.py_node.specs.declared.entry.NativeEntry.TheVariants as entry;
ghost use Rattle.proto_ops.specs.NativeRepeats.Rows.{of_place};
ghost use Rattle.proto_ops.specs.NativeRepeats.Say.{ended_with, repeat_stood};

use crate::native_repeats::count::times_within;
use class_world::World;
use py_node::task::Args;
use py_node::{
    Answer, Cause, ListNative, NativeEntry, OutOfMemory, Payload, PyObjectRef, Raised, Stop,
    StrNative,
};
use row_kit::give::new_text;
use row_kit::give_containers::{new_list, new_tuple};
use std::alloc::Global;

/// Repeats an object by a native of its kind, so many times; below zero counts as none. A list in place has the items
/// then, and is the answer; anything else is made anew. What the native is not for is refused.
pub fn native_repeat(
    world: &mut World,
    entry: NativeEntry,
    object: PyObjectRef,
    n: i64,
) -> Result<Answer, Stop>
    requires { Holds world.old (IsNode object) }
    ensures ends { Ended result (EndsAs (λ t u. native_repeat u entry object n) world.old world.new) }
    ensures safe { LeavesEnd world.old world.new result }
{
    match entry {
        NativeEntry::OfStr(native) => repeat_text(world, native, object, n),
        NativeEntry::OfTuple(_) => match world.payload(object) {
            Payload::Tuple(items) => {
                let all = repeat_items(world.alloc(), items, n)?;
                end_with(world, entry, object, all)
            }
            _ => Err(Stop::raise(Cause::SelfType)),
        },
        NativeEntry::OfList(_) => match world.payload(object) {
            Payload::List(items) => {
                let all = repeat_items(world.alloc(), items, n)?;
                end_with(world, entry, object, all)
            }
            _ => Err(Stop::raise(Cause::SelfType)),
        },
        _ => Err(Stop::raise(Cause::SelfType)),
    }
}

/// The same, of a list with the items that it had.
pub(crate) fn repeat_stood(
    world: &mut World,
    entry: NativeEntry,
    object: PyObjectRef,
    items: &[PyObjectRef],
    n: i64,
) -> Result<Answer, Stop>
    requires object { Holds world.old (IsNode object) }
    requires items { Holds world.old (AreNodes items.now) }
    ensures ends { Ended result (EndsAs (λ t u. repeat_stood u entry object items.now n) world.old world.new) }
    ensures safe { LeavesEnd world.old world.new result }
{
    match entry {
        NativeEntry::OfList(_) => match world.payload(object) {
            Payload::List(_) => {
                let all = repeat_items(world.alloc(), items, n)?;
                end_with(world, entry, object, all)
            }
            _ => Err(Stop::raise(Cause::SelfType)),
        },
        _ => native_repeat(world, entry, object, n),
    }
}

// A text is repeated. Nothing else is by such a native.
fn repeat_text(
    world: &mut World,
    native: StrNative,
    object: PyObjectRef,
    n: i64,
) -> Result<Answer, Stop>
    requires { Holds world.old (IsNode object) }
    ensures ends { Ended result (EndsAs (λ t u. native_repeat u (entry.OfStr native) object n)
        world.old world.new) }
    ensures safe { LeavesEnd world.old world.new result }
{
    match world.payload(object) {
        Payload::Text(text) => {
            let text = repeat_bytes(world.alloc(), text.as_str(), n)?;
            new_text(world, text)
        }
        _ => Err(Stop::raise(Cause::SelfType)),
    }
}

// A text so many times, unless that is too long.
fn repeat_bytes(alloc: Global, text: &str, n: i64) -> Result<String, Stop>
    ensures given { IfOk result (λ x. (w : PlainWorld) (go : Text → Said) →
        with_times w n text.now go ≡ go (string_bytes x)) }
    ensures refused { IfRaised result (λ x. (w : PlainWorld) (go : Text → Said) →
        with_times w n text.now go ≡ Ends w (Err x)) }
{
    match times_within(n, text.len()) {
        None => Err(Stop::raise(Cause::TooLong)),
        Some(times) => {
            let all = text.repeat(alloc, times)?;
            Ok(all)
        }
    }
}

// Items so many times, unless these are too many.
fn repeat_items(alloc: Global, items: &[PyObjectRef], n: i64) -> Result<Args, Stop>
    ensures given { IfOk result (λ rs. (w : PlainWorld) (go : List Object → Said) →
        with_times w n items.now go ≡ go rs.items) }
    ensures refused { IfRaised result (λ x. (w : PlainWorld) (go : List Object → Said) →
        with_times w n items.now go ≡ Ends w (Err x)) }
    ensures holds { IfOk result (λ rs. (w : Held) → Holds w (AreNodes items.now) →
        Holds w (AreNodes rs.items)) }
{
    match times_within(n, items.len()) {
        None => Err(Stop::raise(Cause::TooLong)),
        Some(times) => {
            let all = items_times(alloc, items, times)?;
            Ok(all)
        }
    }
}

// Items so many times.
fn items_times(alloc: Global, items: &[PyObjectRef], times: usize) -> Result<Args, OutOfMemory>
    ensures items { IfOk result (λ rs. rs.items ≡ repeat times items.now) }
    ensures holds { IfOk result (λ rs. (w : Held) → Holds w (AreNodes items.now) → Holds w (AreNodes rs.items)) }
{
    let mut all = Vec::new(alloc);
    if items.is_empty() {
        return Ok(all);
    }
    for _ in 0..times {
        all.extend_from_slice(items)?;
    }
    Ok(all)
}

// Ends with such items.
fn end_with(
    world: &mut World,
    entry: NativeEntry,
    object: PyObjectRef,
    items: Args,
) -> Result<Answer, Stop>
    requires object { Holds world.old (IsNode object) }
    requires place { AllHold world.old (of_place entry object) }
    requires items { Holds world.old (AreNodes items.items) }
    ensures ends { Ended result (EndsAs (λ t u. ended_with u entry object (Ok items)) world.old world.new) }
    ensures safe { LeavesEnd world.old world.new result }
{
    match entry {
        NativeEntry::OfTuple(_) => new_tuple(world, items),
        NativeEntry::OfList(native) => end_with_list(world, native, object, items),
        _ => Err(Stop::raise(Cause::SelfType)),
    }
}

// A list in place has the items then, and is the answer. Else a new one has them.
fn end_with_list(
    world: &mut World,
    native: ListNative,
    list: PyObjectRef,
    items: Args,
) -> Result<Answer, Stop>
    requires list { Holds world.old (IsNode list) }
    requires holding { Holds world.old (Holding list ListClass) }
    requires items { Holds world.old (AreNodes items.items) }
    ensures ends { Ended result (EndsAs (λ t u. list_repeated u (entry.OfList native) list items.items)
        world.old world.new) }
    ensures safe { LeavesEnd world.old world.new result }
{
    match native {
        ListNative::InplaceMultiply => {
            world.set_payload(list, Payload::List(items));
            Ok(Answer::Value(list))
        }
        _ => new_list(world, items),
    }
}
