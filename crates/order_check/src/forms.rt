//! What the entries of a hierarchy keep to.

ghost use Rattle.order_check.specs.Below.{true, length, has, is_distinct};
ghost use Rattle.std.specs.Prelude.{◌≡◌, ◌↔◌};
ghost use Rattle.order_check.specs.Hierarchy.{AreKeyed, IsInOrder, keys_of};
ghost use Rattle.order_check.specs.Forms.{AreBefore, AreEarlierTo, AreAscending};

use crate::hierarchy::{Entry, Hierarchy};
use crate::place::place_of;

// Whether each key is less than the next one.
fn ascend(entries: &[Entry]) -> bool
    ensures { result ≡ true → AreAscending (keys_of entries.now) (length entries.now) }
{
    for place in 1..entries.len() {
        if entries[place].key <= entries[place - 1].key {
            return false;
        }
    }
    true
}

fn has_key(entries: &[Entry], key: u64) -> bool
    ensures { result ≡ has (keys_of entries.now) key }
{
    for entry in entries {
        if entry.key == key {
            return true;
        }
    }
    false
}

fn all_differ(entries: &[Entry]) -> bool
    ensures { result ≡ is_distinct (keys_of entries.now) }
{
    for place in 0..entries.len() {
        if has_key(&entries[place + 1..], entries[place].key) {
            return false;
        }
    }
    true
}

// Whether no two entries have one key. Keys that ascend are seen to differ at once.
pub(crate) fn are_keyed(entries: &[Entry]) -> bool
    ensures { (result ≡ true) ↔ AreKeyed entries.now }
{
    if ascend(entries) {
        return true;
    }
    all_differ(entries)
}

// Whether each of some bases is the key of an entry before a place.
fn are_before(entries: &[Entry], place: usize, bases: &[u64]) -> bool
    requires { AreKeyed entries.now }
    ensures { (result ≡ true) ↔ AreBefore (keys_of entries.now) place bases.now }
{
    for base in bases {
        match place_of(entries, *base) {
            None => return false,
            Some(other) => {
                if other >= place {
                    return false;
                }
            }
        }
    }
    true
}

fn are_earlier(entries: &[Entry]) -> bool
    requires { AreKeyed entries.now }
    ensures { (result ≡ true) ↔ AreEarlierTo entries.now (length entries.now) }
{
    for place in 0..entries.len() {
        if !are_before(entries, place, &entries[place].bases) {
            return false;
        }
    }
    true
}

/// Whether no two entries have one key and each base is that of an earlier entry. It takes no memory.
pub fn is_in_order(hierarchy: &Hierarchy) -> bool
    ensures { (result ≡ true) ↔ IsInOrder hierarchy.now.entries.items }
{
    if !are_keyed(&hierarchy.entries) {
        return false;
    }
    are_earlier(&hierarchy.entries)
}
