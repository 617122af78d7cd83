//! Lists whose items change where they stand, so that a change costs what it touches and not what the list has.

ghost use Rattle.class_world.specs.Below.{length, slice_set, OnErr, OnOk, remove, splice, AList, datum_at, with_datum};
ghost use Rattle.std.specs.Prelude.{◌≡◌, ◌<◌, ◌≤◌, ◌++◌};
ghost use Rattle.py_node.specs.declared.built_in.BuiltIn.TheVariants.{List};
ghost use Rattle.class_world.specs.Listed.{HasOtherItems, items_in, items_of};
ghost use Rattle.class_world.specs.Reading.{Reading, Reads, plain};
ghost use Rattle.class_world.specs.Sound.{AreNodes, Grows, Holding, Holds, IsNode, home_of};

use crate::world::World;
use py_node::task::Args;
use py_node::{Node, OutOfMemory, Payload, PyObjectRef};

#[tactic(auto, unfolding(crate::specs::Reading::plain))]
impl World {
    /// Puts objects last into a list, in their order. Where memory runs out, the list stays as it was.
    pub fn push_items(&mut self, list: PyObjectRef, more: &[PyObjectRef]) -> Result<(), OutOfMemory>
        requires list { Holds self.old (IsNode list) }
        requires holding { Holds self.old (Holding list List) }
        requires more { Holds self.old (AreNodes more.now) }
        ensures pushed { OnOk result ((t : Reading) → plain t self.new ≡
            with_datum (plain t self.old) list (AList (items_in (datum_at (plain t self.old) list) ++ more.now))) }
        ensures err { OnErr result ((t : Reading) → plain t self.new ≡ plain t self.old) }
        ensures reads { (t : Reading) → Reads t self.new → Reads t self.old }
        ensures grows { Grows self.old self.new }
    {
        push_items(&mut self.nodes[list.0 as usize], more)
    }

    /// Puts an object at a place of a list, for the one that stands there. It takes no memory.
    pub fn set_item(&mut self, list: PyObjectRef, place: usize, item: PyObjectRef)
        requires list { Holds self.old (IsNode list) }
        requires holding { Holds self.old (Holding list List) }
        requires place { (t : Reading) → place < length (items_in (datum_at (plain t self.old) list)) }
        requires item { Holds self.old (IsNode item) }
        ensures set { (t : Reading) → plain t self.new ≡
            with_datum (plain t self.old) list (AList (slice_set (items_in (datum_at (plain t self.old) list)) place item)) }
        ensures reads { (t : Reading) → Reads t self.new → Reads t self.old }
        ensures grows { Grows self.old self.new }
    {
        self.readable();
        set_item(&mut self.nodes[list.0 as usize], place, item);
    }

    /// Takes the object at a place out of a list. Those behind it move up. It takes no memory.
    pub fn take_item(&mut self, list: PyObjectRef, place: usize)
        requires list { Holds self.old (IsNode list) }
        requires holding { Holds self.old (Holding list List) }
        requires place { (t : Reading) → place < length (items_in (datum_at (plain t self.old) list)) }
        ensures taken { (t : Reading) → plain t self.new ≡
            with_datum (plain t self.old) list (AList (remove (items_in (datum_at (plain t self.old) list)) place)) }
        ensures reads { (t : Reading) → Reads t self.new → Reads t self.old }
        ensures grows { Grows self.old self.new }
    {
        self.readable();
        take_item(&mut self.nodes[list.0 as usize], place);
    }

    /// Puts objects in the place of those that a list has from one place on and below another. Where memory runs out, the
    /// list stays as it was.
    pub fn splice_items(
        &mut self,
        list: PyObjectRef,
        start: usize,
        stop: usize,
        others: Args,
    ) -> Result<(), OutOfMemory>
        requires list { Holds self.old (IsNode list) }
        requires holding { Holds self.old (Holding list List) }
        requires order { start ≤ stop }
        requires within { (t : Reading) → stop ≤ length (items_in (datum_at (plain t self.old) list)) }
        requires others { Holds self.old (AreNodes others.items) }
        ensures spliced { OnOk result ((t : Reading) → plain t self.new ≡
            with_datum (plain t self.old) list
            (AList (splice (items_in (datum_at (plain t self.old) list)) start stop others.items))) }
        ensures err { OnErr result ((t : Reading) → plain t self.new ≡ plain t self.old) }
        ensures reads { (t : Reading) → Reads t self.new → Reads t self.old }
        ensures grows { Grows self.old self.new }
    {
        self.readable();
        splice_items(&mut self.nodes[list.0 as usize], start, stop, others)
    }
}

// Objects that are put last into a list.
fn push_items(node: &mut Node, more: &[PyObjectRef]) -> Result<(), OutOfMemory>
    requires { home_of node.old.payload ≡ List }
    ensures ok { OnOk result (HasOtherItems node.old node.new (items_of node.old.payload ++ more.now)) }
    ensures err { OnErr result (HasOtherItems node.old node.new (items_of node.old.payload)) }
{
    match &mut node.payload {
        Payload::List(items) => Ok(items.extend_from_slice(more)?),
        _ => Ok(()),
    }
}

// Another object at a place.
fn set_item(node: &mut Node, place: usize, item: PyObjectRef)
    requires { place < length (items_of node.old.payload) }
    ensures { HasOtherItems node.old node.new (slice_set (items_of node.old.payload) place item) }
{
    if let Payload::List(items) = &mut node.payload {
        items[place] = item;
    }
}

// The object at a place is taken out.
fn take_item(node: &mut Node, place: usize)
    requires { place < length (items_of node.old.payload) }
    ensures { HasOtherItems node.old node.new (remove (items_of node.old.payload) place) }
{
    if let Payload::List(items) = &mut node.payload {
        items.remove(place);
    }
}

// Others in the place of the objects between two places.
fn splice_items(node: &mut Node, start: usize, stop: usize, others: Args) -> Result<(), OutOfMemory>
    requires list { home_of node.old.payload ≡ List }
    requires order { start ≤ stop }
    requires within { stop ≤ length (items_of node.old.payload) }
    ensures ok { OnOk result (HasOtherItems node.old node.new
        (splice (items_of node.old.payload) start stop others.items)) }
    ensures err { OnErr result (HasOtherItems node.old node.new (items_of node.old.payload)) }
{
    match &mut node.payload {
        Payload::List(items) => splice(items, start, stop, others),
        _ => Ok(()),
    }
}

fn splice(items: &mut Args, start: usize, stop: usize, others: Args) -> Result<(), OutOfMemory>
    requires order { start ≤ stop }
    requires within { stop ≤ length items.old.items }
    ensures ok { OnOk result (items.new.items ≡ splice items.old.items start stop others.items) }
    ensures err { OnErr result (items.new.items ≡ items.old.items) }
{
    let _ = items.splice(start..stop, others)?;
    Ok(())
}
