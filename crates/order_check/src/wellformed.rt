//! Whether the classes of a hierarchy are well formed.

ghost use Rattle.order_check.specs.Below.{true, IfOk, has, is_within};
ghost use Rattle.std.specs.Prelude.{◌≡◌, ◌↔◌, ◌≤◌};
ghost use Rattle.order_check.specs.Hierarchy.{AreKeyed, keys_of};
ghost use Rattle.order_check.specs.WellFormed.{all_within, roots, AreThere, IsRooted, IsWellFormed};

use crate::forms::are_keyed;
use crate::hierarchy::{Entry, Hierarchy};
use crate::place::place_of;
use crate::ranks::are_apart;
use py_node::OutOfMemory;
use std::alloc::Global;

fn is_key(entries: &[Entry], key: u64) -> bool
    ensures { result ≡ has (keys_of entries.now) key }
{
    match place_of(entries, key) {
        None => false,
        Some(_) => true,
    }
}

fn are_keys(entries: &[Entry], bases: &[u64]) -> bool
    ensures { result ≡ is_within bases.now (keys_of entries.now) }
{
    for base in bases {
        if !is_key(entries, *base) {
            return false;
        }
    }
    true
}

fn all_there(entries: &[Entry]) -> bool
    ensures { result ≡ all_within (keys_of entries.now) entries.now }
{
    for entry in entries {
        if !are_keys(entries, &entry.bases) {
            return false;
        }
    }
    true
}

// How many classes have no base.
fn roots(entries: &[Entry]) -> usize
    ensures { result ≡ roots entries.now }
{
    let mut count = 0;
    for entry in entries {
        if entry.bases.is_empty() {
            count += 1;
        }
    }
    count
}

fn are_there(entries: &[Entry]) -> bool
    requires { AreKeyed entries.now }
    ensures { (result ≡ true) ↔ AreThere entries.now }
{
    all_there(entries)
}

/// Whether no two classes have one key, bases are classes of the hierarchy, one class at most has no base, and no
/// class derives from itself.
pub fn well_formed(alloc: Global, hierarchy: &Hierarchy) -> Result<bool, OutOfMemory>
    ensures { IfOk result (λ formed. (formed ≡ true) ↔ IsWellFormed hierarchy.now.entries.items) }
{
    let entries = hierarchy.entries.as_slice();
    if !are_keyed(entries) {
        return Ok(false);
    }
    if !are_there(entries) {
        return Ok(false);
    }
    if roots(entries) > 1 {
        return Ok(false);
    }
    are_apart(alloc, entries)
}
