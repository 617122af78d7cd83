//! The linearisations of all classes of a hierarchy.

ghost use Rattle.order_check.specs.Below.{true, false, Some, length, get_or, IfOk, OnOk, option_map, bases_of};
ghost use Rattle.std.specs.Prelude.{◌≡◌, ◌<◌, ◌≤◌};
ghost use Rattle.order_check.specs.Hierarchy.{AreKeyed, classes, keys_of, orders, all_orders};
ghost use Rattle.order_check.specs.Known.{known_in, over, AreKnown, IsClosedAt, IsClosedTo, AllNone, unknown};

use crate::hierarchy::{Entry, Hierarchy};
use crate::known::{Lines, known_lines};
use crate::least::least_order;
use py_node::OutOfMemory;
use std::alloc::Global;

// The least order of a class over what is known of its bases, where something is known of each.
pub(crate) fn order_over(
    alloc: Global,
    entries: &[Entry],
    known: &[Option<Vec<u64>>],
    entry: &Entry,
) -> Result<Option<Vec<u64>>, OutOfMemory>
    requires keyed { AreKeyed entries.now }
    requires count { length known.now ≡ length entries.now }
    requires known { AreKnown entries.now (orders known.now) }
    requires class { bases_of (classes entries.now) entry.now.key ≡ Some entry.now.bases.items }
    ensures { IfOk result (λ r. option_map (λ v. v.items) r ≡
        over (known_in entries.now (orders known.now)) entry.now.key entry.now.bases.items) }
{
    match known_lines(alloc, entries, known, &entry.bases)? {
        Lines::Without(_) => Ok(None),
        Lines::All(lines) => least_order(alloc, entry.key, &entry.bases, &lines),
    }
}

// Looks for the order of the class at a place, if it is not known. Tells whether it was found.
fn try_place(
    alloc: Global,
    entries: &[Entry],
    known: &mut Vec<Option<Vec<u64>>>,
    place: usize,
) -> Result<bool, OutOfMemory>
    requires keyed { AreKeyed entries.now }
    requires count { length known.old.items ≡ length entries.now }
    requires known { AreKnown entries.now (orders known.old.items) }
    requires inside { place < length entries.now }
    ensures count { length known.new.items ≡ length entries.now }
    ensures known { OnOk result (AreKnown entries.now (orders known.new.items)) }
    ensures found { IfOk result (λ found. found ≡ true →
        unknown (orders known.new.items) < unknown (orders known.old.items)) }
    ensures same { IfOk result (λ found. found ≡ false → known.new.items ≡ known.old.items) }
    ensures closed { IfOk result (λ found. found ≡ false →
        IsClosedAt entries.now (orders known.old.items) (get_or (keys_of entries.now) place 0)) }
{
    if known[place].is_some() {
        return Ok(false);
    }
    match order_over(alloc, entries, known, &entries[place])? {
        None => Ok(false),
        Some(order) => {
            known[place] = Some(order);
            Ok(true)
        }
    }
}

// Looks for the order of each class of which it is not known. Tells whether any was found.
fn try_all(
    alloc: Global,
    entries: &[Entry],
    known: &mut Vec<Option<Vec<u64>>>,
) -> Result<bool, OutOfMemory>
    requires keyed { AreKeyed entries.now }
    requires count { length known.old.items ≡ length entries.now }
    requires known { AreKnown entries.now (orders known.old.items) }
    ensures count { length known.new.items ≡ length entries.now }
    ensures known { OnOk result (AreKnown entries.now (orders known.new.items)) }
    ensures found { IfOk result (λ found. found ≡ true →
        unknown (orders known.new.items) < unknown (orders known.old.items)) }
    ensures closed { IfOk result (λ found. found ≡ false →
        IsClosedTo entries.now (orders known.new.items) (length entries.now)) }
{
    let mut found = false;
    for place in 0..entries.len() {
        if try_place(alloc, entries, known, place)? {
            found = true;
        }
    }
    Ok(found)
}

pub(crate) fn none_known(alloc: Global, count: usize) -> Result<Vec<Option<Vec<u64>>>, OutOfMemory>
    ensures count { IfOk result (λ v. length v.items ≡ count) }
    ensures none { IfOk result (λ v. AllNone (orders v.items)) }
{
    let mut known = Vec::with_capacity(alloc, count)?;
    for place in 0..count {
        known.push(None)?;
    }
    Ok(known)
}

// All orders, from some that are known: looks for those of the other classes until none is found.
pub(crate) fn complete(
    alloc: Global,
    entries: &[Entry],
    mut known: Vec<Option<Vec<u64>>>,
) -> Result<Vec<Option<Vec<u64>>>, OutOfMemory>
    requires keyed { AreKeyed entries.now }
    requires count { length known.items ≡ length entries.now }
    requires known { AreKnown entries.now (orders known.items) }
    ensures count { IfOk result (λ found. length found.items ≡ length entries.now) }
    ensures all { IfOk result (λ found. orders found.items ≡ all_orders entries.now) }
{
    loop {
        if !try_all(alloc, entries, &mut known)? {
            return Ok(known);
        }
    }
}

/// The linearisation of each class, in the order of the entries: of a class's consistent orders the least, and
/// `None` where it has none.
pub fn all_orders(
    alloc: Global,
    hierarchy: &Hierarchy,
) -> Result<Vec<Option<Vec<u64>>>, OutOfMemory>
    requires { AreKeyed hierarchy.now.entries.items }
    ensures { IfOk result (λ found. orders found.items ≡ all_orders hierarchy.now.entries.items) }
{
    let known = none_known(alloc, hierarchy.entries.len())?;
    complete(alloc, &hierarchy.entries, known)
}
