//! The orders of a hierarchy, and who accepts a report of them.

use order_check::{
    Entry, Hierarchy, Line, Pair, Report, Wrong, accept, all_orders, all_orders_par, check,
    check_par, is_in_order,
};
use py_node::OutOfMemory;
use std::alloc::Global;
use std::test::Fail;

fn entry(alloc: Global, key: u64, name: &str, bases: &[u64]) -> Result<Entry, OutOfMemory> {
    Ok(Entry {
        key,
        name: String::from_str(alloc, name)?,
        bases: Vec::from_slice(alloc, bases)?,
    })
}

// C(A, B) and E(C), where B(A).
fn conflicting(alloc: Global) -> Result<Hierarchy, OutOfMemory> {
    let mut entries = Vec::new(alloc);
    entries.push(entry(alloc, 0, "object", &[])?)?;
    entries.push(entry(alloc, 1, "A", &[0])?)?;
    entries.push(entry(alloc, 2, "B", &[1])?)?;
    entries.push(entry(alloc, 3, "C", &[1, 2])?)?;
    entries.push(entry(alloc, 4, "E", &[3])?)?;
    Ok(Hierarchy { entries })
}

fn report(
    alloc: Global,
    first_list: Option<u64>,
    second_list: Option<u64>,
) -> Result<Report, OutOfMemory> {
    let pairs = [
        Pair {
            first: 1,
            second: 2,
            list: first_list,
        },
        Pair {
            first: 2,
            second: 1,
            list: second_list,
        },
    ];
    let mut lines = Vec::new(alloc);
    lines.push(Line::Order(Vec::from_slice(alloc, &[1, 0])?))?;
    lines.push(Line::Order(Vec::from_slice(alloc, &[2, 1, 0])?))?;
    lines.push(Line::Cycle(Vec::from_slice(alloc, &pairs)?))?;
    lines.push(Line::Without(3))?;
    Ok(Report { lines })
}

#[test]
fn accepts_the_right_report_alone(rt: HostRuntime) -> Result<(), Fail> {
    let alloc = rt.alloc();
    let hierarchy = conflicting(alloc)?;
    assert!(rt; is_in_order(&hierarchy));
    let right = report(alloc, None, Some(2))?;
    assert_eq!(rt; accept(&hierarchy, &right), Ok(()));
    let exchanged = report(alloc, Some(2), None)?;
    assert_eq!(rt; accept(&hierarchy, &exchanged), Err(Wrong { line: 3 }));
    Ok(())
}

#[test]
fn tells_the_cycle(rt: HostRuntime) -> Result<(), Fail> {
    let alloc = rt.alloc();
    let hierarchy = conflicting(alloc)?;
    assert!(rt; is_in_order(&hierarchy));
    let found = check(alloc, &hierarchy)?;
    assert_eq!(rt; accept(&hierarchy, &found), Ok(()));
    assert_eq!(rt; found.lines.len(), 4);
    if let Line::Cycle(pairs) = &found.lines[2] {
        assert_eq!(rt; pairs.len(), 2);
        assert_eq!(rt; pairs[0].first, 1);
        assert_eq!(rt; pairs[0].list, None);
        assert_eq!(rt; pairs[1].list, Some(2));
    }
    Ok(())
}

// So many classes below one base.
fn wide(alloc: Global) -> Result<Hierarchy, OutOfMemory> {
    let mut entries = Vec::new(alloc);
    entries.push(entry(alloc, 0, "object", &[])?)?;
    entries.push(entry(alloc, 1, "Base", &[0])?)?;
    for key in 2..4_098u64 {
        entries.push(entry(alloc, key, "Leaf", &[1])?)?;
    }
    Ok(Hierarchy { entries })
}

#[test]
fn finds_the_same_orders_by_levels(rt: HostRuntime) -> Result<(), Fail> {
    let alloc = rt.alloc();
    let hierarchy = wide(alloc)?;
    assert!(rt; is_in_order(&hierarchy));
    let orders = all_orders(alloc, &hierarchy)?;
    let by_levels = all_orders_par(&rt, alloc, &hierarchy)?;
    assert_eq!(rt; by_levels.len(), 4_098);
    assert!(rt; by_levels == orders);
    Ok(())
}

#[test]
fn tells_the_same_by_levels(rt: HostRuntime) -> Result<(), Fail> {
    let alloc = rt.alloc();
    let hierarchy = conflicting(alloc)?;
    assert!(rt; is_in_order(&hierarchy));
    let found = check_par(&rt, alloc, &hierarchy)?;
    assert_eq!(rt; accept(&hierarchy, &found), Ok(()));
    assert_eq!(rt; found.lines.len(), 4);
    Ok(())
}
