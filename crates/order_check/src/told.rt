//! The lists of a class, as the earlier lines of a report tell them.

ghost use Rattle.order_check.specs.Below.{Some, None, map, get_or, IfSome, IfNone};
ghost use Rattle.std.specs.Prelude.{◌≡◌};
ghost use Rattle.order_check.specs.Cycle.{is_before_in};
ghost use Rattle.order_check.specs.Hierarchy.{AreKeyed};
ghost use Rattle.order_check.specs.Report.{list_with, first_without};
ghost use Rattle.order_check.specs.Told.{order_told, told_in, or_empty, lists_told};

use crate::cycles::is_before;
use crate::hierarchy::Entry;
use crate::place::place_of;
use crate::report::Line;

/// A hierarchy, the order of its first class, and the lines that tell of the others.
#[derive(Clone, Copy)]
pub(crate) struct Told<'a> {
    pub(crate) entries: &'a [Entry],
    pub(crate) root: &'a [u64],
    pub(crate) lines: &'a [Line],
}

fn order_at(lines: &[Line], place: usize) -> Option<&[u64]>
    ensures some { IfSome result (λ order. get_or (map order_told lines.now) place None ≡ Some order.now) }
    ensures none { IfNone result (get_or (map order_told lines.now) place None ≡ None) }
{
    if place >= lines.len() {
        return None;
    }
    match &lines[place] {
        Line::Order(order) => Some(order),
        Line::Cycle(_) | Line::Without(_) => None,
    }
}

// What is told of the order of the class with a key.
fn order(told: Told<'_>, key: u64) -> Option<&[u64]>
    requires { AreKeyed told.entries.now }
    ensures some { IfSome result (λ order. told_in told.entry key ≡ Some order.now) }
    ensures none { IfNone result (told_in told.entry key ≡ None) }
{
    match place_of(told.entries, key) {
        None => None,
        Some(0) => Some(told.root),
        Some(place) => order_at(told.lines, place - 1),
    }
}

// The same, and nothing where none is told.
pub(crate) fn list(told: Told<'_>, key: u64) -> &[u64]
    requires { AreKeyed told.entries.now }
    ensures { result.now ≡ or_empty (told_in told.entry key) }
{
    match order(told, key) {
        Some(order) => order,
        None => &[],
    }
}

// The first base of whose order nothing is told.
pub(crate) fn first_without(told: Told<'_>, bases: &[u64]) -> Option<u64>
    requires { AreKeyed told.entries.now }
    ensures { result ≡ first_without (told_in told.entry) bases.now }
{
    for base in bases {
        if order(told, *base).is_none() {
            return Some(*base);
        }
    }
    None
}

// Whether a list has one class before another.
pub(crate) fn is_before_in(told: Told<'_>, bases: &[u64], first: u64, second: u64) -> bool
    requires { AreKeyed told.entries.now }
    ensures { result ≡ is_before_in first second (lists_told (told_in told.entry) bases.now) }
{
    for base in bases {
        if is_before(list(told, *base), first, second) {
            return true;
        }
    }
    is_before(bases, first, second)
}

// The first list that has one class before another: by its base, and `None` where it is the list of bases.
pub(crate) fn list_with(told: Told<'_>, bases: &[u64], first: u64, second: u64) -> Option<u64>
    requires { AreKeyed told.entries.now }
    ensures { result ≡ list_with first second bases.now (lists_told (told_in told.entry) bases.now) }
{
    for base in bases {
        if is_before(list(told, *base), first, second) {
            return Some(*base);
        }
    }
    None
}
