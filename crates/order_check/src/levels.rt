//! The linearisations of all classes, level after level, the classes of one level by several threads.
//!
//! A class without bases is at level 0, another one a level above the highest of its bases. So the orders of a level
//! need those of the levels below it alone.

ghost use Rattle.order_check.specs.Below.{All, length, IfOk, OnOk};
ghost use Rattle.std.specs.Prelude.{◌≡◌, ◌+◌, ◌<◌};
ghost use Rattle.order_check.specs.Hierarchy.{AreKeyed, orders, all_orders};
ghost use Rattle.order_check.specs.Known.{AreKnown, CanFind, IsFound};

use crate::hierarchy::{Entry, Hierarchy};
use crate::known::known_order;
use crate::orders::{complete, none_known, order_over};
use py_node::OutOfMemory;
use rayon::prelude::*;
use std::alloc::Global;
use std::thread::Threads;

/// What was found of the class at a place: its order, or none.
#[derive(Drop)]
pub(crate) struct Found {
    pub(crate) place: usize,
    pub(crate) order: Option<Vec<u64>>,
}

// The places of the classes of a level, and of those above it.
#[derive(Drop)]
struct Parted {
    level: Vec<usize>,
    above: Vec<usize>,
}

fn all_places(alloc: Global, count: usize) -> Result<Vec<usize>, OutOfMemory>
    ensures { IfOk result (λ v. All (λ place. place < count) v.items) }
{
    let mut places = Vec::with_capacity(alloc, count)?;
    for place in 0..count {
        places.push(place)?;
    }
    Ok(places)
}

// Whether the orders of some bases are known.
fn are_known(entries: &[Entry], known: &[Option<Vec<u64>>], bases: &[u64]) -> bool
    requires keyed { AreKeyed entries.now }
    requires count { length known.now ≡ length entries.now }
{
    bases
        .iter()
        .all(|base| known_order(entries, known, *base).is_some())
}

// Parts the classes whose bases' orders are all known, which are the next level, from those above them.
fn part(
    alloc: Global,
    entries: &[Entry],
    known: &[Option<Vec<u64>>],
    places: &[usize],
) -> Result<Parted, OutOfMemory>
    requires keyed { AreKeyed entries.now }
    requires count { length known.now ≡ length entries.now }
    requires inside { All (λ place. place < length entries.now) places.now }
    ensures level { IfOk result (λ parted. All (λ place. place < length entries.now) parted.level.items) }
    ensures above { IfOk result (λ parted. All (λ place. place < length entries.now) parted.above.items) }
    ensures all { IfOk result (λ parted.
        length parted.level.items + length parted.above.items ≡ length places.now) }
{
    let mut level = Vec::new(alloc);
    let mut above = Vec::new(alloc);
    for place in places {
        if are_known(entries, known, &entries[*place].bases) {
            level.push(*place)?;
        } else {
            above.push(*place)?;
        }
    }
    Ok(Parted { level, above })
}

// The order of the class at a place over what is known of its bases.
fn order_at(
    alloc: Global,
    entries: &[Entry],
    known: &[Option<Vec<u64>>],
    place: usize,
) -> Result<Found, OutOfMemory>
    requires { CanFind entries.now known.now place }
    ensures { IfOk result (IsFound entries.now) }
{
    let order = order_over(alloc, entries, known, &entries[place])?;
    Ok(Found { place, order })
}

// The orders of the classes of a level, each by whichever thread is free.
fn level_orders<R: Threads + Sync>(
    rt: &R,
    alloc: Global,
    entries: &[Entry],
    known: &[Option<Vec<u64>>],
    level: &[usize],
) -> Result<Vec<Found>, OutOfMemory>
    requires { All (CanFind entries.now known.now) level.now }
    ensures { IfOk result (λ found. All (IsFound entries.now) found.items) }
{
    level
        .par_iter()
        .map(
            |place: &usize| -> Result<Found, OutOfMemory>
                requires { CanFind entries.now known.now place.now }
                ensures { IfOk result (IsFound entries.entry.now) }
            { order_at(alloc, entries, known, *place) },
        )
        .collect::<Result<Vec<_>, OutOfMemory>>(rt, alloc)?
}

// Keeps the orders that were found.
fn keep(entries: &[Entry], known: &mut Vec<Option<Vec<u64>>>, mut found: Vec<Found>)
    requires keyed { AreKeyed entries.now }
    requires count { length known.old.items ≡ length entries.now }
    requires known { AreKnown entries.now (orders known.old.items) }
    requires found { All (IsFound entries.now) found.items }
    ensures count { length known.new.items ≡ length entries.now }
    ensures known { AreKnown entries.now (orders known.new.items) }
{
    while let Some(one) = found.pop() {
        if one.order.is_some() {
            known[one.place] = one.order;
        }
    }
}

/// The same as `all_orders` gives, by as many threads as there are processors.
pub fn all_orders_par<R: Threads + Sync>(
    rt: &R,
    alloc: Global,
    hierarchy: &Hierarchy,
) -> Result<Vec<Option<Vec<u64>>>, OutOfMemory>
    requires { AreKeyed hierarchy.now.entries.items }
    ensures { IfOk result (λ found. orders found.items ≡ all_orders hierarchy.now.entries.items) }
{
    let entries = hierarchy.entries.as_slice();
    let mut known = none_known(alloc, entries.len())?;
    let mut places = all_places(alloc, entries.len())?;
    loop {
        let parted = part(alloc, entries, &known, &places)?;
        if parted.level.is_empty() {
            return complete(alloc, entries, known);
        }
        let found = level_orders(rt, alloc, entries, &known, &parted.level)?;
        keep(entries, &mut known, found);
        places = parted.above;
    }
}
