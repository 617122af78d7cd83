//! Whether a line is the order of a class, tested a member at a time: no merge is made for it, and it takes no memory.

ghost use Rattle.order_check.specs.Below.{[], true, Some, stands_past, past, first_free, are_empty, merged};
ghost use Rattle.std.specs.Prelude.{◌≡◌, ◌↔◌};
ghost use Rattle.order_check.specs.Hierarchy.{AreKeyed};
ghost use Rattle.order_check.specs.Line.{rest, free_first, is_led};
ghost use Rattle.order_check.specs.Told.{told_in, lists_told};

use crate::line::{first_left, is_past_left};
use crate::told::{Told, list};

// Whether a class stands past the head of a list, when some are gone.
fn stands_past_left(told: Told<'_>, bases: &[u64], seen: &[u64], key: u64) -> bool
    requires { AreKeyed told.entries.now }
    ensures { result ≡ stands_past key (rest (lists_told (told_in told.entry) bases.now) seen.now) }
{
    for base in bases {
        if is_past_left(list(told, *base), seen, key) {
            return true;
        }
    }
    is_past_left(bases, seen, key)
}

// The head of a list, when some are gone, if it stands past no head.
fn free_head(told: Told<'_>, bases: &[u64], seen: &[u64], list: &[u64]) -> Option<u64>
    requires { AreKeyed told.entries.now }
    ensures { result ≡ free_first (rest (lists_told (told_in told.entry) bases.now) seen.now) (past seen.now list.now) }
{
    let key = first_left(list, seen)?;
    if stands_past_left(told, bases, seen, key) {
        None
    } else {
        Some(key)
    }
}

// The first free head of what is left when some are gone.
fn first_free_left(told: Told<'_>, bases: &[u64], seen: &[u64]) -> Option<u64>
    requires { AreKeyed told.entries.now }
    ensures { let ls = rest (lists_told (told_in told.entry) bases.now) seen.now in result ≡ first_free ls ls }
{
    for base in bases {
        if let Some(key) = free_head(told, bases, seen, list(told, *base)) {
            return Some(key);
        }
    }
    free_head(told, bases, seen, bases)
}

fn are_gone(told: Told<'_>, bases: &[u64], seen: &[u64]) -> bool
    requires { AreKeyed told.entries.now }
    ensures { result ≡ are_empty (rest (lists_told (told_in told.entry) bases.now) seen.now) }
{
    for base in bases {
        if first_left(list(told, *base), seen).is_some() {
            return false;
        }
    }
    first_left(bases, seen).is_none()
}

// Whether each member is the first free head of what is left when those before it are gone, and nothing is left.
fn are_led(told: Told<'_>, bases: &[u64], line: &[u64]) -> bool
    requires { AreKeyed told.entries.now }
    ensures { result ≡ is_led (lists_told (told_in told.entry) bases.now) [] line.now }
{
    for place in 0..line.len() {
        match first_free_left(told, bases, &line[..place]) {
            None => return false,
            Some(key) => {
                if key != line[place] {
                    return false;
                }
            }
        }
    }
    are_gone(told, bases, line)
}

// Whether a line is the merge of a class's lists whose ranks are the least.
pub(crate) fn is_merge(told: Told<'_>, bases: &[u64], line: &[u64]) -> bool
    requires { AreKeyed told.entries.now }
    ensures { (result ≡ true) ↔ (merged (lists_told (told_in told.entry) bases.now) ≡ Some line.now) }
{
    are_led(told, bases, line)
}
