//! What is left of a list when some of its members are gone.

ghost use Rattle.std.specs.Prelude.{◌≡◌};
ghost use Rattle.order_check.specs.Below.{has, past_first, past};
ghost use Rattle.order_check.specs.Line.{first_of};

use crate::left::has;

// The first member that was not seen.
pub(crate) fn first_left(list: &[u64], seen: &[u64]) -> Option<u64>
    ensures { result ≡ first_of (past seen.now list.now) }
{
    for key in list {
        if !has(seen, *key) {
            return Some(*key);
        }
    }
    None
}

// Whether a key stands past the first member that was not seen, and was not seen either.
pub(crate) fn is_past_left(list: &[u64], seen: &[u64], key: u64) -> bool
    ensures { result ≡ has (past_first (past seen.now list.now)) key }
{
    for place in 0..list.len() {
        if !has(seen, list[place]) {
            return !has(seen, key) && has(&list[place + 1..], key);
        }
    }
    false
}
