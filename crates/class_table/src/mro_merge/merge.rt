//! The merge, a member at a time.

ghost use Rattle.class_table.specs.Below.{false, IfOk, is_some, option_map, has, without, unique, past_first, stands_past};
ghost use Rattle.std.specs.Prelude.{◌≡◌};
ghost use Rattle.class_table.specs.MroMerge.Lists.{numbers, number_of, rows};
ghost use Rattle.class_table.specs.MroMerge.Merge.{heads, AreLines};
ghost use Rattle.class_table.specs.MroMerge.Steps.{first_free, are_empty, struck, merged};

use py_node::{OutOfMemory, PyTypeRef};
use std::alloc::Global;

// Whether a list holds a class.
pub(crate) fn has(list: &[PyTypeRef], class: PyTypeRef) -> bool
    ensures { result ≡ has (numbers list.now) class.0 }
{
    for other in list {
        if other.0 == class.0 {
            return true;
        }
    }
    false
}

fn is_past(list: &[PyTypeRef], class: PyTypeRef) -> bool
    ensures { result ≡ has (past_first (numbers list.now)) class.0 }
{
    !list.is_empty() && has(&list[1..], class)
}

// Whether a class stands past the head of a list.
pub(crate) fn stands_past(lists: &[Vec<PyTypeRef>], class: PyTypeRef) -> bool
    ensures { result ≡ stands_past class.0 (rows lists.now) }
{
    for list in lists {
        if is_past(list, class) {
            return true;
        }
    }
    false
}

fn are_empty(lists: &[Vec<PyTypeRef>]) -> bool
    ensures { result ≡ are_empty (rows lists.now) }
{
    for list in lists {
        if !list.is_empty() {
            return false;
        }
    }
    true
}

// The place of a list past whose head a class stands, where there is one. A likely place is tried first.
fn blocked_at(lists: &[Vec<PyTypeRef>], likely: usize, class: PyTypeRef) -> Option<usize>
    ensures { is_some result ≡ stands_past class.0 (rows lists.now) }
{
    if likely < lists.len() && is_past(&lists[likely], class) {
        return Some(likely);
    }
    for (place, list) in lists.iter().enumerate() {
        if is_past(list, class) {
            return Some(place);
        }
    }
    None
}

// The first head that stands past no head. `blocks` has, for the head of each list, the likely place of a list
// that holds it back. Any number will do: each is tested.
fn first_free(lists: &[Vec<PyTypeRef>], blocks: &mut [usize]) -> Option<PyTypeRef>
    ensures { number_of result ≡ first_free (rows lists.now) (rows lists.now) }
{
    for (place, list) in lists.iter().enumerate() {
        if !list.is_empty() {
            match blocked_at(lists, likely(blocks, place), list[0]) {
                None => return Some(list[0]),
                Some(block) => note(blocks, place, block),
            }
        }
    }
    None
}

// The number at a place, or 0.
fn likely(blocks: &[usize], place: usize) -> usize {
    if place < blocks.len() {
        blocks[place]
    } else {
        0
    }
}

// Notes a number, where there is such a place.
fn note(blocks: &mut [usize], place: usize, block: usize) {
    if place < blocks.len() {
        blocks[place] = block;
    }
}

// Takes a class, which stands past no head, off the lists that it heads.
fn strike(lists: &mut Vec<Vec<PyTypeRef>>, class: PyTypeRef)
    requires { stands_past class.0 (rows lists.old.items) ≡ false }
    ensures { rows lists.new.items ≡ struck class.0 (rows lists.old.items) }
{
    for i in 0..lists.len() {
        behead(&mut lists[i], class);
    }
}

fn behead(list: &mut Vec<PyTypeRef>, class: PyTypeRef)
    requires { has (past_first (numbers list.old.items)) class.0 ≡ false }
    ensures { numbers list.new.items ≡ without class.0 (numbers list.old.items) }
{
    if !list.is_empty() && list[0].0 == class.0 {
        list.remove(0);
    }
}

// The lists' heads, each once.
pub(crate) fn heads(alloc: Global, lists: &[Vec<PyTypeRef>]) -> Result<Vec<PyTypeRef>, OutOfMemory>
    requires { AreLines (rows lists.now) }
    ensures { IfOk result (λ v. numbers v.items ≡ unique (heads (rows lists.now))) }
{
    let mut found = Vec::new(alloc);
    for list in lists {
        let head = list[0];
        if !has(&found, head) {
            found.push(head)?;
        }
    }
    Ok(found)
}

// The merge whose ranks are the least, or none where the lists have no merge.
pub(crate) fn merge(
    alloc: Global,
    mut lists: Vec<Vec<PyTypeRef>>,
) -> Result<Option<Vec<PyTypeRef>>, OutOfMemory>
    ensures { IfOk result (λ r. option_map (λ v. numbers v.items) r ≡ merged (rows lists.items)) }
{
    let mut line = Vec::new(alloc);
    let mut blocks = vec![in alloc; 0; lists.len()]?;
    while !are_empty(&lists) {
        match first_free(&lists, &mut blocks) {
            None => return Ok(None),
            Some(next) => {
                line.push(next)?;
                strike(&mut lists, next);
            }
        }
    }
    Ok(Some(line))
}
