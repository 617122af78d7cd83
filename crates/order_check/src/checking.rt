//! The report of a hierarchy.

ghost use Rattle.order_check.specs.Below.{Some, length, IfOk, bases_of};
ghost use Rattle.std.specs.Prelude.{◌≡◌, ◌≤◌};
ghost use Rattle.order_check.specs.Lists.{rows};
ghost use Rattle.order_check.specs.Found.{cycle_of};
ghost use Rattle.order_check.specs.Orders.{lists_of};
ghost use Rattle.order_check.specs.Hierarchy.{AreKeyed, classes, orders, all_orders};
ghost use Rattle.order_check.specs.Report.{list_with, pairs_of, found_pairs, IsLine, IsFoundLine, IsReport, AreFound};

use crate::cycles::{cycle_of, is_before};
use crate::hierarchy::{Entry, Hierarchy};
use crate::known::{Lines, known_lines, known_order};
use crate::levels::all_orders_par;
use crate::orders::all_orders;
use crate::report::{Line, Pair, Report};
use py_node::OutOfMemory;
use std::alloc::Global;
use std::thread::Threads;

// The first list that has one key before the other: by its base, and `None` where it is the list past those of the bases.
fn list_with(lists: &[Vec<u64>], bases: &[u64], first: u64, second: u64) -> Option<u64>
    requires { length bases.now ≤ length lists.now }
    ensures { result ≡ list_with first second bases.now (rows lists.now) }
{
    for place in 0..bases.len() {
        if is_before(&lists[place], first, second) {
            return Some(bases[place]);
        }
    }
    None
}

// Each class of a cycle with the next, and the last with the first.
fn pairs(
    alloc: Global,
    lists: &[Vec<u64>],
    bases: &[u64],
    cycle: &[u64],
) -> Result<Vec<Pair>, OutOfMemory>
    requires { length bases.now ≤ length lists.now }
    ensures { IfOk result (λ v. v.items ≡ pairs_of bases.now (rows lists.now) cycle.now) }
{
    let mut found = Vec::with_capacity(alloc, cycle.len())?;
    for place in 0..cycle.len() {
        let first = cycle[place];
        let second = if place + 1 < cycle.len() {
            cycle[place + 1]
        } else {
            cycle[0]
        };
        let list = list_with(lists, bases, first, second);
        found.push(Pair {
            first,
            second,
            list,
        })?;
    }
    Ok(found)
}

// The pairs of the cycle that is found, where the bases' linearisations are these.
fn cycle_pairs(
    alloc: Global,
    bases: &[u64],
    mut lists: Vec<Vec<u64>>,
) -> Result<Vec<Pair>, OutOfMemory>
    requires { length lists.items ≡ length bases.now }
    ensures { let ls = lists_of bases.now (rows lists.items) in
        IfOk result (λ v. v.items ≡ found_pairs bases.now ls (cycle_of ls)) }
{
    lists.push(Vec::from_slice(alloc, bases)?)?;
    match cycle_of(alloc, &lists)? {
        None => Ok(Vec::new(alloc)),
        Some(cycle) => pairs(alloc, &lists, bases, &cycle),
    }
}

// What is to be told of a class, where all orders are known.
fn line_of(
    alloc: Global,
    entries: &[Entry],
    known: &[Option<Vec<u64>>],
    entry: &Entry,
) -> Result<Line, OutOfMemory>
    requires keyed { AreKeyed entries.now }
    requires count { length known.now ≡ length entries.now }
    requires known { orders known.now ≡ all_orders entries.now }
    requires class { bases_of (classes entries.now) entry.now.key ≡ Some entry.now.bases.items }
    ensures line { IfOk result (IsLine entries.now entry.now) }
    ensures found { IfOk result (IsFoundLine entries.now entry.now) }
{
    if let Some(order) = known_order(entries, known, entry.key) {
        return Ok(Line::Order(Vec::from_slice(alloc, order)?));
    }
    match known_lines(alloc, entries, known, &entry.bases)? {
        Lines::Without(base) => Ok(Line::Without(base)),
        Lines::All(lines) => Ok(Line::Cycle(cycle_pairs(alloc, &entry.bases, lines)?)),
    }
}

// The report, where all orders are known.
pub(crate) fn report_of(
    alloc: Global,
    entries: &[Entry],
    known: &[Option<Vec<u64>>],
) -> Result<Report, OutOfMemory>
    requires keyed { AreKeyed entries.now }
    requires count { length known.now ≡ length entries.now }
    requires known { orders known.now ≡ all_orders entries.now }
    ensures report { IfOk result (λ r. IsReport entries.now r.lines.items) }
    ensures found { IfOk result (λ r. AreFound entries.now r.lines.items) }
{
    let mut lines = Vec::new(alloc);
    for place in 1..entries.len() {
        lines.push(line_of(alloc, entries, known, &entries[place])?)?;
    }
    Ok(Report { lines })
}

/// The report of a hierarchy: of each class but the first its linearisation, or the first of its bases that has none,
/// or else a cycle of its lists. It is the cycle that `cycle_of` finds.
pub fn check(alloc: Global, hierarchy: &Hierarchy) -> Result<Report, OutOfMemory>
    requires { AreKeyed hierarchy.now.entries.items }
    ensures report { IfOk result (λ r. IsReport hierarchy.now.entries.items r.lines.items) }
    ensures cycles { IfOk result (λ r. AreFound hierarchy.now.entries.items r.lines.items) }
{
    let known = all_orders(alloc, hierarchy)?;
    report_of(alloc, &hierarchy.entries, &known)
}

/// The same as `check` gives, with the orders found by as many threads as there are processors.
pub fn check_par<R: Threads + Sync>(
    rt: &R,
    alloc: Global,
    hierarchy: &Hierarchy,
) -> Result<Report, OutOfMemory>
    requires { AreKeyed hierarchy.now.entries.items }
    ensures report { IfOk result (λ r. IsReport hierarchy.now.entries.items r.lines.items) }
    ensures cycles { IfOk result (λ r. AreFound hierarchy.now.entries.items r.lines.items) }
{
    let known = all_orders_par(rt, alloc, hierarchy)?;
    report_of(alloc, &hierarchy.entries, &known)
}
