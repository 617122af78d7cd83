//! The keys of a dict: a few are looked for one by one, and more of them by hash.

ghost use Rattle.py_node.specs.Below.{IsDistinct, [], length, position, None, IfOk, IfSome, OnOk, OnErr, remove};
ghost use Rattle.std.specs.Prelude.{◌≡◌, ◌<◌, ◌∷◌, ◌++◌};
ghost use Rattle.py_node.specs.Dicts.{is_same_key};

use crate::dict::PyDictKey;
use crate::few_keys::FewKeys;
use crate::memory::OutOfMemory;
use indexmap::IndexSet;
use std::alloc::Global;
use std::marker::Model;

// So many keys are looked for one by one: an index of them would take more memory and hardly less time.
const FEW: usize = 8;

/// Keys in the order in which they came, none of them twice. Before its first key it takes no memory.
#[derive(Drop)]
pub(crate) struct KeyIndex {
    store: KeyStore,
}

/// How the keys are kept. An index by hash is made once they are more than a few, and stays when they become fewer.
#[derive(Drop)]
pub(crate) enum KeyStore {
    Few(FewKeys),
    Many(Box<IndexSet<PyDictKey>>),
}

impl Model for KeyIndex {
    ghost use Rattle.std.specs.Prelude.{List};
    ghost use Rattle.py_node.specs.declared.dict.PyDictKey.{PyDictKey as Key};
    ghost use Rattle.py_node.specs.Keys.{keys_in};

    ghost Value = { List Key };

    ghost view = { λ a. keys_in a.store };
}

impl KeyIndex {
    /// No keys.
    pub(crate) fn new(alloc: Global) -> KeyIndex
        ensures { result ≡ [] }
    {
        KeyIndex {
            store: KeyStore::Few(FewKeys::new(alloc)),
        }
    }

    /// The place of a key, if it is there.
    pub(crate) fn place_of(&self, key: PyDictKey) -> Option<usize>
        ensures first { result ≡ position (is_same_key key) self.now }
        ensures below { IfSome result (λ n. n < length self.now) }
    {
        match &self.store {
            KeyStore::Few(keys) => keys.place_of(key),
            KeyStore::Many(keys) => keys.as_ref().get_index_of(&key),
        }
    }

    /// One more key, which goes last. Where memory runs out, the keys are as they were.
    pub(crate) fn push(&mut self, alloc: Global, key: PyDictKey) -> Result<(), OutOfMemory>
        requires { position (is_same_key key) self.old ≡ None }
        ensures ok { OnOk result (self.new ≡ self.old ++ key ∷ []) }
        ensures err { OnErr result (self.new ≡ self.old) }
    {
        match &mut self.store {
            KeyStore::Few(keys) => {
                if keys.as_slice().len() < FEW {
                    return keys.push(key);
                }
                let more = index_of(alloc, keys.as_slice(), key)?;
                self.store = KeyStore::Many(more);
                Ok(())
            }
            KeyStore::Many(keys) => add_key(keys.as_mut(), key),
        }
    }

    /// Takes out the key at a place. Those after it keep their order.
    pub(crate) fn remove(&mut self, place: usize)
        requires { place < length self.old }
        ensures { self.new ≡ remove self.old place }
    {
        match &mut self.store {
            KeyStore::Few(keys) => keys.remove(place),
            KeyStore::Many(keys) => {
                keys.as_mut().shift_remove_index(place);
            }
        }
    }

    /// The same keys, unless memory runs out.
    pub(crate) fn try_clone(&self, alloc: Global) -> Result<KeyIndex, OutOfMemory>
        ensures { IfOk result (λ k. k ≡ self.now) }
    {
        match &self.store {
            KeyStore::Few(keys) => {
                let copy = keys.try_clone(alloc)?;
                Ok(KeyIndex {
                    store: KeyStore::Few(copy),
                })
            }
            KeyStore::Many(keys) => {
                let copy = keys.as_ref().clone()?;
                let copy = Box::new(alloc, copy)?;
                Ok(KeyIndex {
                    store: KeyStore::Many(copy),
                })
            }
        }
    }
}

// The index of some keys, none of which stands twice, and of one more that isn't among them.
fn index_of(
    alloc: Global,
    keys: &[PyDictKey],
    key: PyDictKey,
) -> Result<Box<IndexSet<PyDictKey>>, OutOfMemory>
    requires distinct { IsDistinct is_same_key keys.now }
    requires lacks { position (is_same_key key) keys.now ≡ None }
    ensures { IfOk result (λ b. b.value.keys ≡ keys.now ++ key ∷ []) }
{
    let mut index = set_of(alloc, keys)?;
    add_key(&mut index, key)?;
    Ok(Box::new(alloc, index)?)
}

// The set of some keys, none of which stands twice, with room for one more.
fn set_of(alloc: Global, keys: &[PyDictKey]) -> Result<IndexSet<PyDictKey>, OutOfMemory>
    requires { IsDistinct is_same_key keys.now }
    ensures { IfOk result (λ s. s.keys ≡ keys.now) }
{
    let mut set = IndexSet::with_capacity(alloc, keys.len() + 1)?;
    for key in keys {
        set.insert(*key)?;
    }
    Ok(set)
}

// One more key of a set that lacks it.
fn add_key(keys: &mut IndexSet<PyDictKey>, key: PyDictKey) -> Result<(), OutOfMemory>
    requires { position (is_same_key key) keys.old.keys ≡ None }
    ensures ok { OnOk result (keys.new.keys ≡ keys.old.keys ++ key ∷ []) }
    ensures err { OnErr result (keys.new.keys ≡ keys.old.keys) }
{
    keys.insert(key)?;
    Ok(())
}
