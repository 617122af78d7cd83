//! The members of objects: what stands in the places that offsets stand for, and how it is set.

ghost use Rattle.class_world.specs.Below.{ℕ, true, Some, IfSome, length, slice_set, place_at, value_at_place, with_value_at_place, is_instance};
ghost use Rattle.std.specs.Prelude.{◌≡◌, ◌<◌};
ghost use Rattle.class_world.specs.Claims.{of_setter};
ghost use Rattle.class_world.specs.Reading.{Reading, Reads, plain, setter_value};
ghost use Rattle.class_world.specs.Sound.{IsNode, IsClass, IsOffset, Holds, AllHold, Grows, with_members};

use crate::world::World;
use py_node::{MemberPlace, Node, PyObjectRef, PySetterValue, PyTypeRef};

#[tactic(auto, unfolding(crate::specs::Reading::plain))]
impl World {
    /// What stands in an object in the place that an offset stands for in the objects of a class.
    pub fn member_value(
        &self,
        object: PyObjectRef,
        class: PyTypeRef,
        offset: usize,
    ) -> Option<PyObjectRef>
        requires object { Holds self.now (IsNode object) }
        requires class { Holds self.now (IsClass class.0) }
        ensures value { (t : Reading) →
            value_at_place (plain t self.now) object (place_at (plain t self.now).classes class.0 offset) ≡ result }
        ensures node { IfSome result (λ v. Holds self.now (IsNode v)) }
    {
        match self.classes.place_at(class, offset) {
            None => None,
            Some(place) => self.member(object, place, offset),
        }
    }

    // What stands in a place of an object. It stands at the offset that the place has in the objects of some class, since
    // it has the same one in those of each class that gives them the place.
    fn member(&self, object: PyObjectRef, place: MemberPlace, offset: usize) -> Option<PyObjectRef>
        requires object { Holds self.now (IsNode object) }
        requires place { (c : ℕ) × (place_at self.now.classes c offset ≡ Some (place.class.0, place.index)) }
        ensures value { (t : Reading) →
            value_at_place (plain t self.now) object (Some (place.class.0, place.index)) ≡ result }
        ensures node { IfSome result (λ v. Holds self.now (IsNode v)) }
    {
        self.classes.sound();
        let node = &self.nodes[object.0 as usize];
        if self.classes.fast_issubclass(node.class, place.class) {
            node.members.get(offset)
        } else {
            None
        }
    }

    /// Sets, or empties, in an object the place that an offset stands for in the objects of a class. The object must be
    /// one of that class. It takes no memory.
    pub fn set_member_value(
        &mut self,
        object: PyObjectRef,
        class: PyTypeRef,
        offset: usize,
        value: PySetterValue,
    )
        requires object { Holds self.old (IsNode object) }
        requires class { Holds self.old (IsClass class.0) }
        requires place { Holds self.old (IsOffset class.0 (Some offset)) }
        requires value { AllHold self.old (of_setter value) }
        requires instance { (t : Reading) → is_instance (plain t self.old) object class.0 ≡ true }
        ensures set { (t : Reading) → plain t self.new ≡
            with_value_at_place (plain t self.old) object (place_at (plain t self.old).classes class.0 offset)
            (setter_value value) }
        ensures stands { (t : Reading) →
            value_at_place (plain t self.new) object (place_at (plain t self.old).classes class.0 offset) ≡
            setter_value value }
        ensures reads { (t : Reading) → Reads t self.new → Reads t self.old }
        ensures grows { Grows self.old self.new }
    {
        self.readable();
        self.classes.sound();
        set_member(&mut self.nodes[object.0 as usize], offset, value);
    }
}

// Another value at an offset of a node, or none.
fn set_member(node: &mut Node, offset: usize, value: PySetterValue)
    requires { offset < length node.old.members }
    ensures { node.new ≡ with_members node.old (slice_set node.old.members offset (setter_value value)) }
{
    let value = match value {
        PySetterValue::Assign(value) => Some(value),
        PySetterValue::Delete => None,
    };
    node.members.set(offset, value);
}
