//! The walk from a member to the head that holds it back.

ghost use Rattle.order_check.specs.Below.{[], length, IfOk};
ghost use Rattle.std.specs.Prelude.{◌≡◌};
ghost use Rattle.order_check.specs.Lists.{rows};
ghost use Rattle.order_check.specs.Found.{holder, up_to, walk};

use crate::left::{has, is_past};
use py_node::OutOfMemory;
use std::alloc::Global;

// The head of the first list that holds the key past its head.
fn holder(lists: &[Vec<u64>], key: u64) -> u64
    ensures { result ≡ holder key (rows lists.now) }
{
    for list in lists {
        if is_past(list, key) {
            return list[0];
        }
    }
    key
}

// The list up to the first place of a key.
fn up_to(alloc: Global, list: &[u64], key: u64) -> Result<Vec<u64>, OutOfMemory>
    ensures { IfOk result (λ v. v.items ≡ up_to key list.now) }
{
    let mut found = Vec::new(alloc);
    for other in list {
        found.push(*other)?;
        if *other == key {
            return Ok(found);
        }
    }
    Ok(found)
}

// The keys from the first coming on of the one that came back, the latest first.
pub(crate) fn walk(alloc: Global, lists: &[Vec<u64>], first: u64) -> Result<Vec<u64>, OutOfMemory>
    ensures { IfOk result (λ v. v.items ≡ walk (length lists.now) (rows lists.now) [] first) }
{
    let mut seen = Vec::new(alloc);
    let mut next = first;
    for _step in 0..lists.len() {
        if has(&seen, next) {
            return up_to(alloc, &seen, next);
        }
        seen.insert(0, next)?;
        next = holder(lists, next);
    }
    up_to(alloc, &seen, next)
}
