//! The order of classes over their bases.

use crate::Table;
use class_table::mro_merge::MroFault;
use class_table::mro_merge::laws::{linearise_mro, resolve_mro};
use py_node::PyTypeRef;
use std::alloc::Global;

const OBJECT: PyTypeRef = PyTypeRef(0);

const FIRST: PyTypeRef = PyTypeRef(1);

const SECOND: PyTypeRef = PyTypeRef(2);

pub fn put(table: &mut Table, alloc: Global) {
    table.put("mro_merge::linearise_mro", linearised(alloc));
    table.put("mro_merge::resolve_mro", resolved(alloc));
}

// Two branches over one root.
fn linearised(alloc: Global) -> Result<Vec<PyTypeRef>, MroFault> {
    let first = vec![in alloc; FIRST, OBJECT]?;
    let second = vec![in alloc; SECOND, OBJECT]?;
    linearise_mro(alloc, vec![in alloc; first, second]?)
}

// A base whose linearisation goes further than the other's.
fn resolved(alloc: Global) -> Result<Vec<PyTypeRef>, MroFault> {
    let first = vec![in alloc; FIRST, OBJECT]?;
    let second = vec![in alloc; SECOND]?;
    resolve_mro(alloc, &[FIRST, SECOND], vec![in alloc; first, second]?)
}
