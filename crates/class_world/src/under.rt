//! What dicts have under keys, which are objects.
#![tactic(auto, unfolding(crate::specs::Reading::plain))]

ghost use Rattle.class_world.specs.Below.{[], length, position, true, false, is_some, IfSome, OnOk, Dict, value_of, entries_in, is_like, is_one_key, with_entries, with_entry, without_value_for, datum_at};
ghost use Rattle.std.specs.Prelude.{◌≡◌, ◌<◌, ◌∷◌};
ghost use Rattle.class_world.specs.Keyed.{held_dict, of_keyed};
ghost use Rattle.class_world.specs.Reading.{Reading, Reads, plain};
ghost use Rattle.class_world.specs.Sound.{IsNode, CanBeKeys, Holding, Holds, AllHold, Grows, held_key};

use crate::world::World;
use py_node::{OutOfMemory, PyObjectRef};

impl World {
    /// The value that a dict has under a key.
    pub fn value_under(&self, dict: PyObjectRef, key: PyObjectRef) -> Option<PyObjectRef>
        requires dict { Holds self.now (IsNode dict) }
        requires key { Holds self.now (IsNode key) }
        ensures value { (t : Reading) → value_of (is_like (plain t self.now) key)
            (entries_in (datum_at (plain t self.now) dict)) ≡ result }
        ensures node { IfSome result (λ v. Holds self.now (IsNode v)) }
    {
        match self.place_under(dict, key) {
            None => None,
            Some(place) => Some(self.entries(dict)[place].1),
        }
    }

    /// Gives a dict a value under a key. A key that is there stays, and gets the value; else the key comes last.
    pub fn set_value_under(
        &mut self,
        dict: PyObjectRef,
        key: PyObjectRef,
        value: PyObjectRef,
    ) -> Result<(), OutOfMemory>
        requires dict { Holds self.old (IsNode dict) }
        requires holding { Holds self.old (Holding dict Dict) }
        requires key { Holds self.old (IsNode key) }
        requires can { Holds self.old (CanBeKeys (key ∷ [])) }
        requires value { Holds self.old (IsNode value) }
        ensures set { OnOk result ((t : Reading) → plain t self.new ≡ with_entries (plain t self.old) dict
            (with_entry (plain t self.old) (entries_in (datum_at (plain t self.old) dict)) (key, value))) }
        ensures reads { (t : Reading) → Reads t self.new → Reads t self.old }
        ensures grows { Grows self.old self.new }
    {
        let stored = self.intern_key(key)?;
        match self.place_of(dict, stored) {
            None => self.push_entry(dict, stored, key, value),
            Some(place) => {
                self.put_value(dict, place, value);
                Ok(())
            }
        }
    }

    /// Takes a key out of a dict, with its value, and says whether it was there. The keys after it keep their order.
    pub fn take_value_under(&mut self, dict: PyObjectRef, key: PyObjectRef) -> bool
        requires dict { Holds self.old (IsNode dict) }
        requires holding { Holds self.old (Holding dict Dict) }
        requires key { Holds self.old (IsNode key) }
        ensures there { (t : Reading) → is_some (value_of (is_like (plain t self.old) key)
            (entries_in (datum_at (plain t self.old) dict))) ≡ result }
        ensures taken { result ≡ true → (t : Reading) → plain t self.new ≡ with_entries (plain t self.old) dict
            (without_value_for (is_like (plain t self.old) key) (entries_in (datum_at (plain t self.old) dict))) }
        ensures kept { result ≡ false → self.new ≡ self.old }
        ensures reads { (t : Reading) → Reads t self.new → Reads t self.old }
        ensures grows { Grows self.old self.new }
    {
        match self.place_under(dict, key) {
            None => false,
            Some(place) => {
                self.take_entry(dict, place);
                true
            }
        }
    }

    // The place of the first key that is like an object.
    fn place_under(&self, dict: PyObjectRef, key: PyObjectRef) -> Option<usize>
        requires dict { Holds self.now (IsNode dict) }
        requires key { Holds self.now (IsNode key) }
        ensures first { result ≡ position (λ e. is_one_key (held_key self.now.nodes e.0) (held_key self.now.nodes key))
            (held_dict self.now.nodes dict).items }
        ensures below { IfSome result (λ n. n < length (held_dict self.now.nodes dict).items) }
        ensures holds { AllHold self.now (of_keyed (held_dict self.now.nodes dict)) }
    {
        let _entries = self.entries(dict);
        match self.known_key(key) {
            None => None,
            Some(stored) => self.place_of(dict, stored),
        }
    }
}
