//! The dicts of objects: what stands in one under a name, and how that is set and taken out.
#![tactic(auto, unfolding(crate::specs::Reading::plain))]

ghost use Rattle.class_world.specs.Below.{[], length, map, position, None, IfSome, OnOk, remove, Dict, Str, is_same_key, put_at, AreDistinct, AText, datum_at, with_node, next_node, the_str, dict_of, entries_in, value_in, own_value, with_entries, with_value_in, without_value_in};
ghost use Rattle.std.specs.Prelude.{◌≡◌, ◌<◌, ◌∷◌, ◌++◌};
ghost use Rattle.class_world.specs.Keyed.{held_dict, held_text, is_held_key, of_keyed};
ghost use Rattle.class_world.specs.Reading.{Reading, Reads, plain};
ghost use Rattle.class_world.specs.Sound.{IsNode, IsClass, IsOf, IsName, Holding, KeysDiffer, KeysRead, Holds, AllHold, Grows};

use crate::entries::{push_entry, put_value, take_entry};
use crate::world::World;
use py_node::{BuiltIn, OutOfMemory, Payload, PyDictKey, PyObjectRef, PyStrInterned, PyTypeRef};

impl World {
    /// The dict of an object, if it has one.
    pub fn dict_of(&self, object: PyObjectRef) -> Option<PyObjectRef>
        requires { Holds self.now (IsNode object) }
        ensures dict { (t : Reading) → dict_of (plain t self.now) object ≡ result }
        ensures node { IfSome result (λ d. Holds self.now (IsNode d)) }
        ensures holding { IfSome result (λ d. Holds self.now (Holding d Dict)) }
    {
        self.nodes[object.0 as usize].dict
    }

    /// The value that a dict has under a name.
    pub fn value_in(&self, dict: PyObjectRef, name: PyStrInterned) -> Option<PyObjectRef>
        requires dict { Holds self.now (IsNode dict) }
        requires name { Holds self.now (IsName name) }
        ensures value { (t : Reading) → Reads t self.now →
            value_in (plain t self.now) (t.text name.0) dict ≡ result }
        ensures node { IfSome result (λ v. Holds self.now (IsNode v)) }
    {
        match self.place_in(dict, name) {
            None => None,
            Some(place) => Some(self.entries(dict)[place].1),
        }
    }

    /// The value that an object's own dict has under a name.
    pub fn own_value(&self, object: PyObjectRef, name: PyStrInterned) -> Option<PyObjectRef>
        requires object { Holds self.now (IsNode object) }
        requires name { Holds self.now (IsName name) }
        ensures value { (t : Reading) → Reads t self.now →
            own_value (plain t self.now) object (t.text name.0) ≡ result }
        ensures node { IfSome result (λ v. Holds self.now (IsNode v)) }
    {
        match self.dict_of(object) {
            None => None,
            Some(dict) => self.value_in(dict, name),
        }
    }

    // The entries of a dict.
    pub(crate) fn entries(&self, dict: PyObjectRef) -> &[(PyObjectRef, PyObjectRef)]
        requires { Holds self.now (IsNode dict) }
        ensures same { (held_dict self.now.nodes dict).items ≡ result.now }
        ensures holds { AllHold self.now (of_keyed (held_dict self.now.nodes dict)) }
    {
        match &self.nodes[dict.0 as usize].payload {
            Payload::Dict(dict) => dict.entries(),
            _ => &[],
        }
    }

    // The place of a name among the keys of a dict.
    fn place_in(&self, dict: PyObjectRef, name: PyStrInterned) -> Option<usize>
        requires dict { Holds self.now (IsNode dict) }
        requires name { Holds self.now (IsName name) }
        ensures first { result ≡ position (λ e. is_held_key self.now.nodes (held_text self.now name) e.0)
            (held_dict self.now.nodes dict).items }
        ensures below { IfSome result (λ n. n < length (held_dict self.now.nodes dict).items) }
        ensures holds { AllHold self.now (of_keyed (held_dict self.now.nodes dict)) }
    {
        self.place_of(dict, PyDictKey::Text(name))
    }

    // The place of a stored key among those of a dict.
    pub(crate) fn place_of(&self, dict: PyObjectRef, key: PyDictKey) -> Option<usize>
        requires { Holds self.now (IsNode dict) }
        ensures first { result ≡ position (is_same_key key) (held_dict self.now.nodes dict).keys }
        ensures below { IfSome result (λ n. n < length (held_dict self.now.nodes dict).items) }
        ensures holds { AllHold self.now (of_keyed (held_dict self.now.nodes dict)) }
        ensures distinct { AreDistinct self.now.names }
    {
        let _names = self.names.len();
        match &self.nodes[dict.0 as usize].payload {
            Payload::Dict(dict) => dict.place_of(key),
            _ => None,
        }
    }

    /// Gives a dict a value under a name: in its place, or else last, with a new text as its key.
    pub fn set_value_in(
        &mut self,
        dict: PyObjectRef,
        name: PyStrInterned,
        value: PyObjectRef,
    ) -> Result<(), OutOfMemory>
        requires dict { Holds self.old (IsNode dict) }
        requires holding { Holds self.old (Holding dict Dict) }
        requires name { Holds self.old (IsName name) }
        requires value { Holds self.old (IsNode value) }
        ensures set { OnOk result ((t : Reading) → Reads t self.new →
            plain t self.new ≡ with_value_in (plain t self.old) dict (t.text name.0) value) }
        ensures reads { (t : Reading) → Reads t self.new → Reads t self.old }
        ensures grows { Grows self.old self.new }
    {
        match self.place_in(dict, name) {
            None => self.add_value(dict, name, value),
            Some(place) => {
                self.put_value(dict, place, value);
                Ok(())
            }
        }
    }

    /// Takes the value under a name out of a dict.
    pub fn take_value_out(&mut self, dict: PyObjectRef, name: PyStrInterned)
        requires dict { Holds self.old (IsNode dict) }
        requires holding { Holds self.old (Holding dict Dict) }
        requires name { Holds self.old (IsName name) }
        ensures taken { (t : Reading) → Reads t self.new →
            plain t self.new ≡ without_value_in (plain t self.old) dict (t.text name.0) }
        ensures reads { (t : Reading) → Reads t self.new → Reads t self.old }
        ensures grows { Grows self.old self.new }
    {
        match self.place_in(dict, name) {
            None => (),
            Some(place) => self.take_entry(dict, place),
        }
    }

    // A name that is no key of a dict becomes the last one, as a new text.
    fn add_value(
        &mut self,
        dict: PyObjectRef,
        name: PyStrInterned,
        value: PyObjectRef,
    ) -> Result<(), OutOfMemory>
        requires dict { Holds self.old (IsNode dict) }
        requires holding { Holds self.old (Holding dict Dict) }
        requires name { Holds self.old (IsName name) }
        requires value { Holds self.old (IsNode value) }
        requires entries { AllHold self.old (of_keyed (held_dict self.old.nodes dict)) }
        requires absent { position (λ e. is_held_key self.old.nodes (held_text self.old name) e.0)
            (held_dict self.old.nodes dict).items ≡ None }
        ensures added { OnOk result ((t : Reading) → Reads t self.new →
            plain t self.new ≡ with_entries (with_node (plain t self.old) the_str (AText (t.text name.0))) dict
            ((held_dict self.old.nodes dict).items ++ (next_node (plain t self.old) the_str, value) ∷ [])) }
        ensures reads { (t : Reading) → Reads t self.new → Reads t self.old }
        ensures grows { Grows self.old self.new }
    {
        let text = self.spelling(name)?;
        let class = self.class_of_texts();
        let key = self.make_node(class, Payload::Text(text))?;
        self.readable();
        self.push_entry(dict, PyDictKey::Text(name), key, value)
    }

    // The class of texts.
    #[tactic(auto, unfolding(py_node::specs::BuiltIns::place_of))]
    fn class_of_texts(&self) -> PyTypeRef
        ensures place { result.0 ≡ the_str }
        ensures class { Holds self.now (IsClass result.0) }
        ensures of { Holds self.now (IsOf result.0 Str) }
    {
        self.built_in(BuiltIn::Str)
    }

    // Another value for the key at a place.
    pub(crate) fn put_value(&mut self, dict: PyObjectRef, place: usize, value: PyObjectRef)
        requires dict { Holds self.old (IsNode dict) }
        requires holding { Holds self.old (Holding dict Dict) }
        requires place { place < length (held_dict self.old.nodes dict).items }
        requires value { Holds self.old (IsNode value) }
        ensures put { (t : Reading) → plain t self.new ≡ with_entries (plain t self.old) dict
            (put_at (held_dict self.old.nodes dict).items place value) }
        ensures reads { (t : Reading) → Reads t self.new → Reads t self.old }
        ensures grows { Grows self.old self.new }
    {
        put_value(&mut self.nodes[dict.0 as usize], place, value);
    }

    // A key is put last, with its value. It is unlike the others, and is stored as given.
    pub(crate) fn push_entry(
        &mut self,
        dict: PyObjectRef,
        stored: PyDictKey,
        key: PyObjectRef,
        value: PyObjectRef,
    ) -> Result<(), OutOfMemory>
        requires dict { Holds self.old (IsNode dict) }
        requires holding { Holds self.old (Holding dict Dict) }
        requires key { Holds self.old (IsNode key) }
        requires value { Holds self.old (IsNode value) }
        requires read { Holds self.old (KeysRead (stored ∷ []) (key ∷ [])) }
        requires differs { Holds self.old (KeysDiffer (map (λ e. e.0)
            ((held_dict self.old.nodes dict).items ++ (key, value) ∷ []))) }
        ensures pushed { OnOk result ((t : Reading) → plain t self.new ≡ with_entries (plain t self.old) dict
            ((held_dict self.old.nodes dict).items ++ (key, value) ∷ [])) }
        ensures reads { (t : Reading) → Reads t self.new → Reads t self.old }
        ensures grows { Grows self.old self.new }
    {
        let alloc = self.alloc;
        push_entry(&mut self.nodes[dict.0 as usize], alloc, stored, key, value)
    }

    // The key at a place is taken out.
    pub(crate) fn take_entry(&mut self, dict: PyObjectRef, place: usize)
        requires dict { Holds self.old (IsNode dict) }
        requires holding { Holds self.old (Holding dict Dict) }
        requires place { place < length (held_dict self.old.nodes dict).items }
        ensures taken { (t : Reading) → plain t self.new ≡ with_entries (plain t self.old) dict
            (remove (held_dict self.old.nodes dict).items place) }
        ensures reads { (t : Reading) → Reads t self.new → Reads t self.old }
        ensures grows { Grows self.old self.new }
    {
        take_entry(&mut self.nodes[dict.0 as usize], place);
    }
}
