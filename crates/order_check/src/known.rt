//! What is known of the orders of a hierarchy's classes.

ghost use Rattle.order_check.specs.Below.{Some, None, length, IfOk, IfSome, IfNone};
ghost use Rattle.std.specs.Prelude.{◌≡◌};
ghost use Rattle.order_check.specs.Hierarchy.{AreKeyed, orders};
ghost use Rattle.order_check.specs.Known.{known_in, AreLinesFor};

use crate::hierarchy::Entry;
use crate::place::place_of;
use py_node::OutOfMemory;
use std::alloc::Global;

// What is known of the order of the class with a key.
pub(crate) fn known_order<'a>(
    entries: &[Entry],
    known: &'a [Option<Vec<u64>>],
    key: u64,
) -> Option<&'a [u64]>
    requires keyed { AreKeyed entries.now }
    requires count { length known.now ≡ length entries.now }
    ensures some { IfSome result (λ order. known_in entries.now (orders known.now) key ≡ Some order.now) }
    ensures none { IfNone result (known_in entries.now (orders known.now) key ≡ None) }
{
    match place_of(entries, key) {
        None => None,
        Some(place) => match &known[place] {
            None => None,
            Some(order) => Some(order),
        },
    }
}

/// The orders of some bases.
#[derive(Drop)]
pub(crate) enum Lines {
    All(Vec<Vec<u64>>),
    // This is the first base that has none.
    Without(u64),
}

// Copies of the orders of some bases, or the first base of whose order nothing is known.
pub(crate) fn known_lines(
    alloc: Global,
    entries: &[Entry],
    known: &[Option<Vec<u64>>],
    bases: &[u64],
) -> Result<Lines, OutOfMemory>
    requires keyed { AreKeyed entries.now }
    requires count { length known.now ≡ length entries.now }
    ensures { IfOk result (AreLinesFor (known_in entries.now (orders known.now)) bases.now) }
{
    let mut lines = Vec::new(alloc);
    for base in bases {
        match known_order(entries, known, *base) {
            None => return Ok(Lines::Without(*base)),
            Some(order) => lines.push(Vec::from_slice(alloc, order)?)?,
        }
    }
    Ok(Lines::All(lines))
}
