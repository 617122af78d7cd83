//! The cycle that lists have where they have no merge.

ghost use Rattle.order_check.specs.Below.{IfOk, option_map};
ghost use Rattle.std.specs.Prelude.{◌≡◌};
ghost use Rattle.order_check.specs.Lists.{rows};
ghost use Rattle.order_check.specs.Cycle.{is_before, IsAnswer, IsMergedOrCyclic};
ghost use Rattle.order_check.specs.Orders.{IsOrderedOrCyclic};
ghost use Rattle.order_check.specs.Found.{cycle_of, found_in, least_from, turned};

use crate::left::{has, left};
use crate::walk::walk;
use py_node::OutOfMemory;
use std::alloc::Global;

fn least(cycle: &[u64], first: u64) -> u64
    ensures { result ≡ least_from first cycle.now }
{
    let mut least = first;
    for key in cycle {
        if *key < least {
            least = *key;
        }
    }
    least
}

// The list, turned so that its least member comes first.
fn turned(alloc: Global, cycle: &[u64]) -> Result<Vec<u64>, OutOfMemory>
    ensures { IfOk result (λ v. v.items ≡ turned cycle.now) }
{
    if cycle.is_empty() {
        return Ok(Vec::new(alloc));
    }
    let least = least(&cycle[1..], cycle[0]);
    for place in 0..cycle.len() {
        if cycle[place] == least {
            let mut line = Vec::from_slice(alloc, &cycle[place..])?;
            line.extend_from_slice(&cycle[..place])?;
            return Ok(line);
        }
    }
    Ok(Vec::from_slice(alloc, cycle)?)
}

// The cycle of lists that have no free head.
fn found_in(alloc: Global, lists: &[Vec<u64>]) -> Result<Option<Vec<u64>>, OutOfMemory>
    ensures { IfOk result (λ r. option_map (λ v. v.items) r ≡ found_in (rows lists.now)) }
{
    for list in lists {
        if !list.is_empty() {
            let line = walk(alloc, lists, list[0])?;
            return Ok(Some(turned(alloc, &line)?));
        }
    }
    Ok(None)
}

/// A cycle of the lists' constraints: none where the lists have a merge. It is the cycle that the
/// walk gives from the head of the first list that is left, turned so that its least member comes first.
pub fn cycle_of(alloc: Global, lists: &[Vec<u64>]) -> Result<Option<Vec<u64>>, OutOfMemory>
    ensures rule { IfOk result (λ r. option_map (λ v. v.items) r ≡ cycle_of (rows lists.now)) }
    ensures answer { IfOk result (λ r. IsAnswer (rows lists.now) (option_map (λ v. v.items) r)) }
    ensures fact { IsMergedOrCyclic (rows lists.now) }
    ensures orders { IsOrderedOrCyclic (rows lists.now) }
{
    let left = left(alloc, lists)?;
    found_in(alloc, &left)
}

pub(crate) fn is_before(list: &[u64], first: u64, second: u64) -> bool
    ensures { result ≡ is_before first second list.now }
{
    for place in 0..list.len() {
        if list[place] == first && has(&list[place + 1..], second) {
            return true;
        }
    }
    false
}
