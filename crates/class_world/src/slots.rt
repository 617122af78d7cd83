//! What `__slots__` say of a class to be: its members, and whether its objects have a dict.

ghost use Rattle.class_world.specs.Below.{map, IfOk, any_has_dict, slot_members, slots_bring, numbers, slot_names, text_keys};
ghost use Rattle.std.specs.Prelude.{◌≡◌, ◌||◌};
ghost use Rattle.class_world.specs.NewHeap.{slot_texts, of_slots};
ghost use Rattle.class_world.specs.Reading.{Reading, Reads, plain, spelled};
ghost use Rattle.class_world.specs.Sound.{AreNames, Holds, AllHold};

use crate::world::World;
use class_table::slot_members;
use py_node::{OutOfMemory, PyStrInterned, PyTypeRef};
use std::alloc::Global;

#[tactic(auto, unfolding(crate::specs::Reading::plain))]
impl World {
    /// Whether a class with these bases and these `__slots__`, or with none, gives its objects a dict: it has no
    /// `__slots__`, or `__dict__` is among them, or one of the bases gives one.
    pub fn would_have_dict(&self, bases: &[PyTypeRef], slots: &Option<Vec<PyStrInterned>>) -> bool
        ensures { (t : Reading) → Reads t self.now → (slots_bring text_keys (slot_texts t slots.now) ||
            any_has_dict (plain t self.now).classes (numbers bases.now)) ≡ result }
    {
        self.classes.would_have_dict(bases, slots)
    }

    /// The members of a class with these `__slots__`, or with none: all names but `__dict__`, in order.
    pub fn members_of_slots(
        &self,
        slots: &Option<Vec<PyStrInterned>>,
    ) -> Result<Vec<PyStrInterned>, OutOfMemory>
        requires { AllHold self.now (of_slots slots.now) }
        ensures members { IfOk result (λ v. (t : Reading) → Reads t self.now →
            map (spelled t) v.items ≡ slot_members text_keys (slot_texts t slots.now)) }
        ensures holds { IfOk result (λ v. Holds self.now (AreNames v.items)) }
    {
        let copy = copy_slots(self.alloc, slots)?;
        Ok(slot_members(self.alloc, copy))
    }
}

// The same `__slots__` again.
fn copy_slots(
    alloc: Global,
    slots: &Option<Vec<PyStrInterned>>,
) -> Result<Option<Vec<PyStrInterned>>, OutOfMemory>
    ensures { IfOk result (λ o. slot_names o ≡ slot_names slots.now) }
{
    match slots {
        None => Ok(None),
        Some(names) => {
            let mut copy = Vec::new(alloc);
            copy.extend_from_slice(names)?;
            Ok(Some(copy))
        }
    }
}
