//! Where numbers and slices lead among items, and the parts of lists that slices name.

ghost use Rattle.py_node.specs.Stops.{Ended};
ghost use Rattle.native_containers.specs.Below.{IfOk, IfSome, length, max, slice_range, Reading, plain, EndsAs, LeavesEnd, AllHold, AreNodes, Holding, Holds, IsNode, of_node_ref, of_option, items_at};
ghost use Rattle.std.specs.Prelude.{◌≡◌, ◌<◌, ◌≤◌};
ghost use Rattle.py_node.specs.declared.built_in.BuiltIn.TheVariants.{List};
ghost use Rattle.native_containers.specs.Say.{list_changed};
ghost use Rattle.native_containers.specs.NativeItems.Places.{bound_at, bound_of, part, place_at, place_of, put_between, put_part, slice_at};

use crate::made::ends_none;
use class_world::World;
use class_world::limits::is_within_limit;
use py_node::task::Args;
use py_node::{Answer, Cause, OutOfMemory, Payload, PyObjectRef, PySlice, Stop};
use row_kit::take_containers::items;
use std::alloc::Global;

/// The slice that an object is, if it is one.
pub(crate) fn slice_of(world: &World, object: PyObjectRef) -> Option<PySlice>
    requires { Holds world.now (IsNode object) }
    ensures reads { (t : Reading) → slice_at (plain t world.now) object ≡ result }
    ensures start { IfSome result (λ s. AllHold world.now (of_option of_node_ref s.start)) }
    ensures stop { IfSome result (λ s. AllHold world.now (of_option of_node_ref s.stop)) }
{
    match world.payload(object) {
        Payload::Slice(slice) => Some(*slice.get()),
        _ => None,
    }
}

/// The place to which an object leads among so many items, if it is a number that leads to one of them.
pub(crate) fn place_at(world: &World, count: usize, index: PyObjectRef) -> Option<usize>
    requires { Holds world.now (IsNode index) }
    ensures reads { (t : Reading) → place_at (plain t world.now) count index ≡ result }
    ensures within { IfSome result (λ i. i < count) }
{
    match world.number(index) {
        None => None,
        Some(number) => place_of(count, number),
    }
}

// Where a number leads among so many items: from the end, if it is below zero.
fn place_of(count: usize, number: i128) -> Option<usize>
    ensures place { result ≡ place_of count number }
    ensures within { IfSome result (λ i. i < count) }
{
    if number >= 0 {
        if number < count as i128 {
            Some(number as usize)
        } else {
            None
        }
    } else {
        let from_end = number + count as i128;
        if from_end < 0 {
            None
        } else {
            Some(from_end as usize)
        }
    }
}

// Where a bound leads among so many items: no further than the ends. One that isn't there leads where it is said.
fn bound_at(world: &World, count: usize, absent: usize, bound: Option<PyObjectRef>) -> usize
    requires bound { AllHold world.now (of_option of_node_ref bound) }
    requires absent { absent ≤ count }
    ensures reads { (t : Reading) → bound_at (plain t world.now) count absent bound ≡ result }
    ensures within { result ≤ count }
{
    match bound {
        None => absent,
        Some(object) => match world.number(object) {
            None => absent,
            Some(number) => bound_of(count, number),
        },
    }
}

// Where a number leads as a bound.
fn bound_of(count: usize, number: i128) -> usize
    ensures bound { result ≡ bound_of count number }
    ensures within { result ≤ count }
{
    if number >= 0 {
        if number > count as i128 {
            count
        } else {
            number as usize
        }
    } else {
        let from_end = number + count as i128;
        if from_end >= 0 { from_end as usize } else { 0 }
    }
}

/// The bounds of a slice among so many items: the first and the last of all, where it has none.
pub(crate) fn bounds(world: &World, slice: PySlice, count: usize) -> (usize, usize)
    requires start { AllHold world.now (of_option of_node_ref slice.start) }
    requires stop { AllHold world.now (of_option of_node_ref slice.stop) }
    ensures start { (t : Reading) → bound_at (plain t world.now) count 0 slice.start ≡ result.0 }
    ensures stop { (t : Reading) → bound_at (plain t world.now) count count slice.stop ≡ result.1 }
    ensures start_within { result.0 ≤ count }
    ensures stop_within { result.1 ≤ count }
{
    (
        bound_at(world, count, 0, slice.start),
        bound_at(world, count, count, slice.stop),
    )
}

/// The items between the bounds of a slice.
pub(crate) fn part(
    world: &World,
    slice: PySlice,
    items: &[PyObjectRef],
) -> Result<Args, OutOfMemory>
    requires start { AllHold world.now (of_option of_node_ref slice.start) }
    requires stop { AllHold world.now (of_option of_node_ref slice.stop) }
    requires items { Holds world.now (AreNodes items.now) }
    ensures part { IfOk result (λ rs. (t : Reading) → part (plain t world.now) slice items.now ≡ rs.items) }
    ensures holds { IfOk result (λ rs. Holds world.now (AreNodes rs.items)) }
{
    let (start, stop) = bounds(world, slice, items.len());
    between(world.alloc(), items, start, stop)
}

// The items between two places, if the first is before the second.
fn between(
    alloc: Global,
    items: &[PyObjectRef],
    start: usize,
    stop: usize,
) -> Result<Args, OutOfMemory>
    requires { stop ≤ length items.now }
    ensures { IfOk result (λ rs. rs.items ≡ slice_range items.now start stop) }
{
    let mut part = Vec::new(alloc);
    if start < stop {
        part.extend_from_slice(&items[start..stop])?;
    }
    Ok(part)
}

/// The items with others in the place of those between the bounds of a slice.
pub(crate) fn put_part(
    world: &World,
    slice: PySlice,
    items: &[PyObjectRef],
    others: &[PyObjectRef],
) -> Result<Args, OutOfMemory>
    requires start { AllHold world.now (of_option of_node_ref slice.start) }
    requires stop { AllHold world.now (of_option of_node_ref slice.stop) }
    requires items { Holds world.now (AreNodes items.now) }
    requires others { Holds world.now (AreNodes others.now) }
    ensures put { IfOk result (λ rs. (t : Reading) →
        put_part (plain t world.now) slice items.now others.now ≡ rs.items) }
    ensures holds { IfOk result (λ rs. Holds world.now (AreNodes rs.items)) }
{
    let (start, stop) = bounds(world, slice, items.len());
    put_between(world.alloc(), items, others, start, stop)
}

// The items with others in the place of those between two places.
fn put_between(
    alloc: Global,
    items: &[PyObjectRef],
    others: &[PyObjectRef],
    start: usize,
    stop: usize,
) -> Result<Args, OutOfMemory>
    requires start { start ≤ length items.now }
    requires stop { stop ≤ length items.now }
    ensures { IfOk result (λ rs. rs.items ≡ put_between start stop items.now others.now) }
{
    let after = later(start, stop);
    let mut all = Vec::new(alloc);
    all.extend_from_slice(&items[..start])?;
    all.extend_from_slice(others)?;
    all.extend_from_slice(&items[after..])?;
    Ok(all)
}

/// A list gets others in the place of the items between the bounds of a slice, unless they would be too many.
pub(crate) fn replace_part(
    world: &mut World,
    list: PyObjectRef,
    slice: PySlice,
    others: Args,
) -> Result<Answer, Stop>
    requires list { Holds world.old (IsNode list) }
    requires holding { Holds world.old (Holding list List) }
    requires start { AllHold world.old (of_option of_node_ref slice.start) }
    requires stop { AllHold world.old (of_option of_node_ref slice.stop) }
    requires others { Holds world.old (AreNodes others.items) }
    ensures ends { Ended result (EndsAs (λ t u. list_changed u list (put_part u slice (items_at u list) others.items))
        world.old world.new) }
    ensures safe { LeavesEnd world.old world.new result }
{
    let count = items(world, list).len();
    let (start, stop) = bounds(world, slice, count);
    let after = later(start, stop);
    if !is_within_limit(start + others.len() + (count - after)) {
        return Err(Stop::raise(Cause::TooLong));
    }
    world.splice_items(list, start, after, others)?;
    Ok(ends_none(world)?)
}

// The later of two places.
fn later(start: usize, stop: usize) -> usize
    ensures { result ≡ max start stop }
{
    if start < stop { stop } else { start }
}
