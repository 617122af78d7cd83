//! The entries of dicts, apart and again.

ghost use Rattle.row_kit.specs.Below.{IfOk};
ghost use Rattle.std.specs.Prelude.{◌≡◌};
ghost use Rattle.row_kit.specs.GiveContainers.{keys_of, values_of};

use crate::take_containers::entries;
use py_node::task::Args;
use py_node::{OutOfMemory, PyObjectRef};
use std::alloc::Global;

/// Keys with their values.
pub(crate) type Entries = Vec<(PyObjectRef, PyObjectRef)>;

/// The keys, in order.
pub fn keys_of(alloc: Global, entries: &[(PyObjectRef, PyObjectRef)]) -> Result<Args, OutOfMemory>
    ensures { IfOk result (λ rs. rs.items ≡ keys_of entries.now) }
{
    Ok(entries.iter().map(|entry| entry.0).collect(alloc)?)
}

/// The values, in the order of the keys.
pub fn values_of(alloc: Global, entries: &[(PyObjectRef, PyObjectRef)]) -> Result<Args, OutOfMemory>
    ensures { IfOk result (λ rs. rs.items ≡ values_of entries.now) }
{
    Ok(entries.iter().map(|entry| entry.1).collect(alloc)?)
}

/// The same entries again.
pub fn copy_entries(
    alloc: Global,
    entries: &[(PyObjectRef, PyObjectRef)],
) -> Result<Entries, OutOfMemory>
    ensures { IfOk result (λ v. v.items ≡ entries.now) }
{
    let mut copy = Vec::new(alloc);
    copy.extend_from_slice(entries)?;
    Ok(copy)
}
