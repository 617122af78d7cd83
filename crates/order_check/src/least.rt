//! The least order of a class, over those of its bases.

ghost use Rattle.order_check.specs.Below.{IfOk, option_map, least_order, numbers, rows as class_rows, AreLinesOf, IsApart};
ghost use Rattle.std.specs.Prelude.{◌≡◌, ◌∷◌};
ghost use Rattle.order_check.specs.Lists.{rows};

use class_table::mro_merge::MroFault;
use class_table::mro_merge::laws::resolve_mro;
use py_node::{OutOfMemory, PyTypeRef};
use std::alloc::Global;

fn references(alloc: Global, keys: &[u64]) -> Result<Vec<PyTypeRef>, OutOfMemory>
    ensures { IfOk result (λ v. numbers v.items ≡ keys.now) }
{
    let mut found = Vec::with_capacity(alloc, keys.len())?;
    for key in keys {
        found.push(PyTypeRef(*key))?;
    }
    Ok(found)
}

fn all_references(alloc: Global, lists: &[Vec<u64>]) -> Result<Vec<Vec<PyTypeRef>>, OutOfMemory>
    ensures { IfOk result (λ v. class_rows v.items ≡ rows lists.now) }
{
    let mut found = Vec::with_capacity(alloc, lists.len())?;
    for list in lists {
        found.push(references(alloc, list)?)?;
    }
    Ok(found)
}

// A class, and then those that follow it.
fn with_first(alloc: Global, key: u64, rest: &[PyTypeRef]) -> Result<Vec<u64>, OutOfMemory>
    ensures { IfOk result (λ v. v.items ≡ key ∷ numbers rest.now) }
{
    let mut order = vec![in alloc; key]?;
    for class in rest {
        order.push(class.0)?;
    }
    Ok(order)
}

// A class, and then the linearisation of its one base.
fn prepended(alloc: Global, key: u64, line: &[u64]) -> Result<Vec<u64>, OutOfMemory>
    ensures { IfOk result (λ v. v.items ≡ key ∷ line.now) }
{
    let mut order = vec![in alloc; key]?;
    order.extend_from_slice(line)?;
    Ok(order)
}

// The least order of a class over the linearisations of its bases, where it has an order. Over one base it is a copy,
// without a merge.
pub(crate) fn least_order(
    alloc: Global,
    key: u64,
    bases: &[u64],
    lines: &[Vec<u64>],
) -> Result<Option<Vec<u64>>, OutOfMemory>
    requires lines { AreLinesOf bases.now (rows lines.now) }
    requires apart { IsApart key (rows lines.now) }
    ensures { IfOk result (λ r. option_map (λ v. v.items) r ≡ least_order key bases.now (rows lines.now)) }
{
    if let [line] = lines {
        return Ok(Some(prepended(alloc, key, line)?));
    }
    let classes = references(alloc, bases)?;
    let lists = all_references(alloc, lines)?;
    match resolve_mro(alloc, &classes, lists) {
        Ok(rest) => Ok(Some(with_first(alloc, key, &rest)?)),
        Err(MroFault::OutOfMemory) => Err(OutOfMemory),
        Err(MroFault::DuplicateBase(_) | MroFault::LocalPrecedence | MroFault::MroConflict) => {
            Ok(None)
        }
    }
}
