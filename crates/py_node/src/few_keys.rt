//! A few keys of a dict, which are looked for one by one.

ghost use Rattle.py_node.specs.Below.{IsDistinct, [], length, position, None, IfOk, IfSome, OnOk, OnErr, remove};
ghost use Rattle.std.specs.Prelude.{◌≡◌, ◌<◌, ◌∷◌, ◌++◌};
ghost use Rattle.py_node.specs.Dicts.{is_same_key};

use crate::dict::PyDictKey;
use crate::memory::OutOfMemory;
use std::alloc::Global;
use std::marker::Model;

/// Keys in the order in which they came, none of them twice. Before its first key it takes no memory.
#[derive(Drop)]
pub(crate) struct FewKeys {
    keys: Vec<PyDictKey>,
}

impl Model for FewKeys {
    ghost use Rattle.std.specs.Prelude.{List};
    ghost use Rattle.std.specs.List.{IsDistinct};
    ghost use Rattle.py_node.specs.declared.dict.PyDictKey.{PyDictKey as Key};
    ghost use Rattle.py_node.specs.Dicts.{is_same_key};

    ghost Value = { List Key };

    ghost view = { λ a. a.keys.items };

    ghost invariant = { λ a. IsDistinct is_same_key a.keys.items };
}

impl FewKeys {
    /// No keys.
    pub(crate) fn new(alloc: Global) -> FewKeys
        ensures { result ≡ [] }
    {
        FewKeys {
            keys: Vec::new(alloc),
        }
    }

    /// The keys in order.
    pub(crate) fn as_slice(&self) -> &[PyDictKey]
        ensures keys { result.now ≡ self.now }
        ensures distinct { IsDistinct is_same_key result.now }
    {
        &self.keys
    }

    /// The place of a key, if it is there.
    pub(crate) fn place_of(&self, key: PyDictKey) -> Option<usize>
        ensures first { result ≡ position (is_same_key key) self.now }
        ensures below { IfSome result (λ n. n < length self.now) }
    {
        place_among(&self.keys, key)
    }

    /// One more key, which goes last. Where memory runs out, the keys are as they were.
    pub(crate) fn push(&mut self, key: PyDictKey) -> Result<(), OutOfMemory>
        requires { position (is_same_key key) self.old ≡ None }
        ensures ok { OnOk result (self.new ≡ self.old ++ key ∷ []) }
        ensures err { OnErr result (self.new ≡ self.old) }
    {
        put_last(&mut self.keys, key)?;
        Ok(())
    }

    /// Takes out the key at a place. Those after it keep their order.
    pub(crate) fn remove(&mut self, place: usize)
        requires { place < length self.old }
        ensures { self.new ≡ remove self.old place }
    {
        self.keys.remove(place);
    }

    /// The same keys, unless memory runs out.
    pub(crate) fn try_clone(&self, alloc: Global) -> Result<FewKeys, OutOfMemory>
        ensures { IfOk result (λ k. k ≡ self.now) }
    {
        let mut keys = Vec::with_capacity(alloc, self.keys.len())?;
        keys.extend_from_slice(&self.keys)?;
        Ok(FewKeys { keys })
    }
}

// Room for one more key. The first has room for itself alone, since most objects have few attributes.
fn make_room(keys: &mut Vec<PyDictKey>) -> Result<(), OutOfMemory>
    ensures { keys.new.items ≡ keys.old.items }
{
    if keys.is_empty() {
        keys.reserve_exact(1)?;
    }
    Ok(())
}

// One more key at the end of a list.
fn put_last(keys: &mut Vec<PyDictKey>, key: PyDictKey) -> Result<(), OutOfMemory>
    ensures ok { OnOk result (keys.new.items ≡ keys.old.items ++ key ∷ []) }
    ensures err { OnErr result (keys.new.items ≡ keys.old.items) }
{
    make_room(keys)?;
    keys.push(key)?;
    Ok(())
}

// The place of a key among a few.
fn place_among(keys: &[PyDictKey], key: PyDictKey) -> Option<usize>
    ensures first { result ≡ position (is_same_key key) keys.now }
    ensures below { IfSome result (λ n. n < length keys.now) }
{
    for (place, other) in keys.iter().enumerate() {
        if is_one(key, *other) {
            return Some(place);
        }
    }
    None
}

// Whether two keys are one: the same number, or the same text.
fn is_one(key: PyDictKey, other: PyDictKey) -> bool
    ensures { is_same_key key other ≡ result }
{
    key == other
}
