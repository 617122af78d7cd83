//! The keys of dicts: which objects can be keys, how they are stored, and dicts with a value under one.
#![tactic(auto, unfolding(crate::specs::Reading::plain))]

ghost use Rattle.class_world.specs.Below.{List, ℕ, [], true, is_some, IfOk, IfSome, IfNone, OnErr, Some, slice_get, PyDictKey as StoredKey, AreDistinct, with_entry, entries_from, key_at};
ghost use Rattle.std.specs.Prelude.{◌≡◌, ◌∷◌};
ghost use Rattle.class_world.specs.Keyed.{of_keyed, of_pairs};
ghost use Rattle.class_world.specs.Reading.{Reading, Reads, plain};
ghost use Rattle.class_world.specs.Sound.{IsNode, CanBeKeys, KeysRead, NamesKey, Holds, AllHold, Grows, key_in, held_key};

use crate::world::World;
use py_node::{Names, OutOfMemory, Payload, PyDict, PyDictKey, PyObjectRef};

impl World {
    /// Whether an object can be the key of a dict: whether it is a number or a text.
    pub fn can_be_key(&self, node: PyObjectRef) -> bool
        requires { Holds self.now (IsNode node) }
        ensures key { (t : Reading) → is_some (key_at (plain t self.now) node) ≡ result }
        ensures holds { result ≡ true → Holds self.now (CanBeKeys (node ∷ [])) }
    {
        is_key(&self.nodes[node.0 as usize].payload)
    }

    /// A dict with a value under a key. A key that is there stays, and gets the value; else the key comes last. Where the
    /// key is a text, it becomes a name, by which it is found.
    pub fn with_entry(
        &mut self,
        dict: PyDict,
        key: PyObjectRef,
        value: PyObjectRef,
    ) -> Result<PyDict, OutOfMemory>
        requires dict { AllHold self.old (of_keyed dict) }
        requires node { Holds self.old (IsNode key) }
        requires key { Holds self.old (CanBeKeys (key ∷ [])) }
        requires value { Holds self.old (IsNode value) }
        ensures entries { IfOk result (λ d. (t : Reading) →
            d.items ≡ with_entry (plain t self.old) dict.items (key, value)) }
        ensures holds { IfOk result (λ d. AllHold self.new (of_keyed d)) }
        ensures same { (t : Reading) → plain t self.new ≡ plain t self.old }
        ensures reads { (t : Reading) → Reads t self.new → Reads t self.old }
        ensures grows { Grows self.old self.new }
    {
        let stored = self.intern_key(key)?;
        self.distinct();
        let alloc = self.alloc();
        let mut dict = dict;
        match dict.place_of(stored) {
            Some(place) => {
                dict.put(place, value);
                Ok(dict)
            }
            None => {
                dict.push(alloc, stored, key, value)?;
                Ok(dict)
            }
        }
    }

    /// Keys with their values, one after another, as a dict.
    pub fn entries_from(
        &mut self,
        pairs: &[(PyObjectRef, PyObjectRef)],
    ) -> Result<PyDict, OutOfMemory>
        requires { AllHold self.old (of_pairs pairs.now) }
        ensures entries { IfOk result (λ d. (t : Reading) → d.items ≡ entries_from (plain t self.old) pairs.now) }
        ensures holds { IfOk result (λ d. AllHold self.new (of_keyed d)) }
        ensures same { (t : Reading) → plain t self.new ≡ plain t self.old }
        ensures reads { (t : Reading) → Reads t self.new → Reads t self.old }
        ensures grows { Grows self.old self.new }
    {
        let mut dict = PyDict::new(self.alloc());
        for pair in pairs {
            dict = self.with_entry(dict, pair.0, pair.1)?;
        }
        Ok(dict)
    }

    // How a key is stored: a text becomes a name.
    pub(crate) fn intern_key(&mut self, key: PyObjectRef) -> Result<PyDictKey, OutOfMemory>
        requires node { Holds self.old (IsNode key) }
        requires can { Holds self.old (CanBeKeys (key ∷ [])) }
        ensures read { IfOk result (λ k. Holds self.new (KeysRead (k ∷ []) (key ∷ []))) }
        ensures nodes { self.new.nodes ≡ self.old.nodes }
        ensures same { (t : Reading) → plain t self.new ≡ plain t self.old }
        ensures reads { (t : Reading) → Reads t self.new → Reads t self.old }
        ensures grows { Grows self.old self.new }
    {
        key_named(&mut self.names, &self.nodes[key.0 as usize].payload)
    }

    // How a key is stored, where it is a number or the text of a name.
    pub(crate) fn known_key(&self, key: PyObjectRef) -> Option<PyDictKey>
        requires { Holds self.now (IsNode key) }
        ensures read { IfSome result (λ k. NamesKey self.now.names k (held_key self.now.nodes key)) }
        ensures none { IfNone result ((k : StoredKey) → NamesKey self.now.names k (held_key self.now.nodes key) → ⊥) }
    {
        known_key(&self.names, &self.nodes[key.0 as usize].payload)
    }

    // No two names have one text.
    pub(crate) fn distinct(&self)
        ensures { AreDistinct self.now.names }
    {
        let _names = self.names.len();
    }
}

// Whether this can be a key.
fn is_key(payload: &Payload) -> bool
    ensures { is_some (key_in payload.now) ≡ result }
{
    match payload {
        Payload::Number(_) | Payload::Text(_) => true,
        _ => false,
    }
}

// How a key is stored. A text becomes a name.
fn key_named(names: &mut Names, payload: &Payload) -> Result<PyDictKey, OutOfMemory>
    requires { is_some (key_in payload.now) ≡ true }
    ensures read { IfOk result (λ k. NamesKey names.new k (key_in payload.now)) }
    ensures grows { (n : ℕ) (x : List ℕ) → slice_get names.old n ≡ Some x → slice_get names.new n ≡ Some x }
    ensures err { OnErr result (names.new ≡ names.old) }
{
    match payload {
        Payload::Number(number) => Ok(PyDictKey::Number(*number)),
        Payload::Text(text) => Ok(PyDictKey::Text(names.intern(text.as_str())?)),
        _ => Ok(PyDictKey::Number(0)),
    }
}

// How a key is stored, where it is a number or the text of a name.
fn known_key(names: &Names, payload: &Payload) -> Option<PyDictKey>
    ensures read { IfSome result (λ k. NamesKey names.now k (key_in payload.now)) }
    ensures none { IfNone result ((k : StoredKey) → NamesKey names.now k (key_in payload.now) → ⊥) }
{
    match payload {
        Payload::Number(number) => Some(PyDictKey::Number(*number)),
        Payload::Text(text) => match names.interned_str(text.as_str()) {
            Some(name) => Some(PyDictKey::Text(name)),
            None => None,
        },
        _ => None,
    }
}
