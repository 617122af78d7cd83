//! Whether pairs are those of a cycle, tested with no memory.

ghost use Rattle.std.specs.Prelude.{◌≡◌};
ghost use Rattle.order_check.specs.Below.{has, is_distinct};
ghost use Rattle.order_check.specs.Hierarchy.{AreKeyed};
ghost use Rattle.order_check.specs.Told.{told_in, lists_told, firsts, is_least, is_told, are_told, tells_cycle};

use crate::report::Pair;
use crate::told::{Told, is_before_in, list_with};

fn has_first(pairs: &[Pair], class: u64) -> bool
    ensures { result ≡ has (firsts pairs.now) class }
{
    for pair in pairs {
        if pair.first == class {
            return true;
        }
    }
    false
}

fn are_different(pairs: &[Pair]) -> bool
    ensures { result ≡ is_distinct (firsts pairs.now) }
{
    for place in 0..pairs.len() {
        if has_first(&pairs[place + 1..], pairs[place].first) {
            return false;
        }
    }
    true
}

// Whether none of the pairs begins with a lesser class.
fn is_least(pairs: &[Pair], class: u64) -> bool
    ensures { result ≡ is_least class (firsts pairs.now) }
{
    for pair in pairs {
        if pair.first < class {
            return false;
        }
    }
    true
}

// Whether a pair goes on to the next class in one of the lists, and names the first of them.
fn is_told(told: Told<'_>, bases: &[u64], pair: Pair, next: u64) -> bool
    requires { AreKeyed told.entries.now }
    ensures { result ≡ is_told bases.now (lists_told (told_in told.entry) bases.now) pair next }
{
    pair.second == next
        && is_before_in(told, bases, pair.first, next)
        && pair.list == list_with(told, bases, pair.first, next)
}

// Whether each pair goes on to the next one, and the last to the given class.
fn are_told(told: Told<'_>, bases: &[u64], pairs: &[Pair], last: u64) -> bool
    requires { AreKeyed told.entries.now }
    ensures { result ≡ are_told bases.now (lists_told (told_in told.entry) bases.now) last pairs.now }
{
    for place in 0..pairs.len() {
        let next = if place + 1 < pairs.len() {
            pairs[place + 1].first
        } else {
            last
        };
        if !is_told(told, bases, pairs[place], next) {
            return false;
        }
    }
    true
}

// Whether the pairs are those of a cycle of a class's lists.
pub(crate) fn tells_cycle(told: Told<'_>, bases: &[u64], pairs: &[Pair]) -> bool
    requires { AreKeyed told.entries.now }
    ensures { result ≡ tells_cycle bases.now (lists_told (told_in told.entry) bases.now) pairs.now }
{
    if pairs.is_empty() {
        return false;
    }
    let first = pairs[0].first;
    are_different(pairs) && is_least(&pairs[1..], first) && are_told(told, bases, pairs, first)
}
