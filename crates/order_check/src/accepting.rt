//! Whether a report is right, tested with no merge and no memory.

ghost use Rattle.order_check.specs.Below.{true, Some, length, IsOk, IfErr, IfNone, IfSome, get_or, bases_of};
ghost use Rattle.std.specs.Prelude.{◌≡◌, ◌↔◌, ◌+◌, ◌<◌};
ghost use Rattle.order_check.specs.Hierarchy.{AreKeyed, IsInOrder, classes, keys_of, order_in};
ghost use Rattle.order_check.specs.Report.{first_without, IsCycleLine, IsLine, IsRightAt, IsReport, IsFirstWrong};
ghost use Rattle.order_check.specs.Told.{told_in, orders_told, lists_told, merged_order, AreToldOf, AreToldTo};

use crate::hierarchy::{Entry, Hierarchy};
use crate::led::is_merge;
use crate::pairs::tells_cycle;
use crate::report::{Line, Pair, Report, Wrong};
use crate::told::{Told, first_without};

// Whether a line is a class and then the least merge of its lists.
fn is_order(told: Told<'_>, key: u64, bases: &[u64], order: &[u64]) -> bool
    requires { AreKeyed told.entries.now }
    ensures { (result ≡ true) ↔ (merged_order key (lists_told (told_in told.entry) bases.now) ≡ Some order.now) }
{
    if order.is_empty() || order[0] != key {
        return false;
    }
    is_merge(told, bases, &order[1..])
}

fn is_order_line(told: Told<'_>, entry: &Entry, order: &[u64]) -> bool
    requires keyed { AreKeyed told.entries.now }
    requires class { bases_of (classes told.entries.now) entry.now.key ≡ Some entry.now.bases.items }
    requires told { AreToldOf told entry.now.bases.items }
    ensures { (result ≡ true) ↔ (order_in told.entry.entries.now entry.now.key ≡ Some order.now) }
{
    if first_without(told, &entry.bases).is_some() {
        return false;
    }
    is_order(told, entry.key, &entry.bases, order)
}

fn is_cycle_line(told: Told<'_>, entry: &Entry, pairs: &[Pair]) -> bool
    requires keyed { AreKeyed told.entries.now }
    requires told { AreToldOf told entry.now.bases.items }
    ensures { (result ≡ true) ↔ IsCycleLine told.entry.entries.now entry.now pairs.now }
{
    if first_without(told, &entry.bases).is_some() {
        return false;
    }
    tells_cycle(told, &entry.bases, pairs)
}

fn is_without_line(told: Told<'_>, entry: &Entry, base: u64) -> bool
    requires keyed { AreKeyed told.entries.now }
    requires told { AreToldOf told entry.now.bases.items }
    ensures { (result ≡ true) ↔
        (first_without (order_in told.entry.entries.now) entry.now.bases.items ≡ Some base) }
{
    match first_without(told, &entry.bases) {
        None => false,
        Some(first) => first == base,
    }
}

// Whether what a line tells of a class is so, where what is told of its bases is so.
fn is_line(told: Told<'_>, entry: &Entry, line: &Line) -> bool
    requires keyed { AreKeyed told.entries.now }
    requires class { bases_of (classes told.entries.now) entry.now.key ≡ Some entry.now.bases.items }
    requires told { AreToldOf told entry.now.bases.items }
    ensures { (result ≡ true) ↔ IsLine told.entry.entries.now entry.now line.now }
{
    match line {
        Line::Order(order) => is_order_line(told, entry, order),
        Line::Cycle(pairs) => is_cycle_line(told, entry, pairs),
        Line::Without(base) => is_without_line(told, entry, *base),
    }
}

// Whether the line at a place, counting from 0, is right, where what is told of the classes before its own is so.
fn is_right(told: Told<'_>, place: usize) -> bool
    requires order { IsInOrder told.entries.now }
    requires inside { place + 1 < length told.entries.now }
    requires told { AreToldTo told.entries.now (orders_told told.root.now told.lines.now) (place + 1) }
    ensures { (result ≡ true) ↔ IsRightAt told.entry.entries.now told.entry.lines.now place }
{
    if place >= told.lines.len() {
        return false;
    }
    is_line(told, &told.entries[place + 1], &told.lines[place])
}

// The first line that is not right, counting from 1.
fn first_wrong(told: Told<'_>) -> Option<usize>
    requires order { IsInOrder told.entries.now }
    requires told { AreToldTo told.entries.now (orders_told told.root.now told.lines.now) 1 }
    ensures right { IfNone result (IsReport told.entry.entries.now told.entry.lines.now) }
    ensures wrong { IfSome result (IsFirstWrong told.entry.entries.now told.entry.lines.now) }
{
    let wanted = told.entries.len().saturating_sub(1);
    for place in 0..wanted {
        if !is_right(told, place) {
            return Some(place + 1);
        }
    }
    if told.lines.len() > wanted {
        return Some(wanted + 1);
    }
    None
}

// The key of the first class, if there is one.
fn first_key(entries: &[Entry]) -> u64
    ensures { result ≡ get_or (keys_of entries.now) 0 0 }
{
    if entries.is_empty() {
        0
    } else {
        entries[0].key
    }
}

/// Whether a report is right: it tells of each class but the first its linearisation, or the first of its bases that
/// has none, or else a cycle of its lists. Any such cycle will do. Where it is not right, the first line that is not
/// is given; a line that is missing or too many is not right at its number. It makes no merge and takes no memory.
pub fn accept(hierarchy: &Hierarchy, report: &Report) -> Result<(), Wrong>
    requires { IsInOrder hierarchy.now.entries.items }
    ensures right { IsOk result ↔ IsReport hierarchy.now.entries.items report.now.lines.items }
    ensures wrong { IfErr result (λ w. IsFirstWrong hierarchy.now.entries.items report.now.lines.items w.line) }
{
    let root = [first_key(&hierarchy.entries)];
    let told = Told {
        entries: &hierarchy.entries,
        root: &root,
        lines: &report.lines,
    };
    match first_wrong(told) {
        None => Ok(()),
        Some(line) => Err(Wrong { line }),
    }
}
