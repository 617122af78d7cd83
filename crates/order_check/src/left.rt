//! What is left of lists when their merge can't go on.

ghost use Rattle.order_check.specs.Below.{IfOk, has, without, past_first, stands_past, first_free, struck};
ghost use Rattle.std.specs.Prelude.{◌≡◌};
ghost use Rattle.order_check.specs.Lists.{rows};
ghost use Rattle.order_check.specs.Found.{left};

use py_node::OutOfMemory;
use std::alloc::Global;

pub(crate) fn has(list: &[u64], key: u64) -> bool
    ensures { result ≡ has list.now key }
{
    for other in list {
        if *other == key {
            return true;
        }
    }
    false
}

pub(crate) fn is_past(list: &[u64], key: u64) -> bool
    ensures { result ≡ has (past_first list.now) key }
{
    !list.is_empty() && has(&list[1..], key)
}

fn stands_past(lists: &[Vec<u64>], key: u64) -> bool
    ensures { result ≡ stands_past key (rows lists.now) }
{
    for list in lists {
        if is_past(list, key) {
            return true;
        }
    }
    false
}

// The first head that stands past no head.
fn first_free(lists: &[Vec<u64>]) -> Option<u64>
    ensures { result ≡ first_free (rows lists.now) (rows lists.now) }
{
    for list in lists {
        if !list.is_empty() && !stands_past(lists, list[0]) {
            return Some(list[0]);
        }
    }
    None
}

fn strike(lists: &mut Vec<Vec<u64>>, key: u64)
    ensures { rows lists.new.items ≡ struck key (rows lists.old.items) }
{
    for i in 0..lists.len() {
        remove(&mut lists[i], key);
    }
}

fn remove(list: &mut Vec<u64>, key: u64)
    ensures { list.new.items ≡ without key list.old.items }
{
    list.retain(|other| *other != key);
}

fn copy(alloc: Global, lists: &[Vec<u64>]) -> Result<Vec<Vec<u64>>, OutOfMemory>
    ensures { IfOk result (λ v. rows v.items ≡ rows lists.now) }
{
    let mut copied = Vec::new(alloc);
    for list in lists {
        copied.push(Vec::from_slice(alloc, list)?)?;
    }
    Ok(copied)
}

pub(crate) fn left(alloc: Global, lists: &[Vec<u64>]) -> Result<Vec<Vec<u64>>, OutOfMemory>
    ensures { IfOk result (λ v. rows v.items ≡ left (rows lists.now)) }
{
    let mut rest = copy(alloc, lists)?;
    while let Some(next) = first_free(&rest) {
        strike(&mut rest, next);
    }
    Ok(rest)
}
