//! The answers of look-ups, kept until a class changes.

ghost use Rattle.class_table.specs.Below.{IfSome, IfOk, Some, slice_set, PyStrInterned as Name, is_same_name, Classes, found};
ghost use Rattle.std.specs.Prelude.{◌≡◌};
ghost use Rattle.class_table.specs.Cache.{IsCached, AreEmpty};

use py_node::{OutOfMemory, PyObjectRef, PyStrInterned, PyTypeRef};
use std::alloc::Global;

// How many rows a cache has that has any.
const ROWS: usize = 4096;

/// What a look-up found: the value of a name for a class, or that there is none. It counts as long as the cache has its
/// version.
#[derive(Clone, Copy)]
pub(crate) struct Row {
    class: PyTypeRef,
    name: PyStrInterned,
    version: u64,
    answer: Option<PyObjectRef>,
}

/// A fixed number of rows, each empty or filled, and the present version. A class and a name have one row. Each change of
/// a class raises the version, so that no row counts that was filled before.
#[derive(Drop)]
pub(crate) struct Cache {
    rows: Vec<Option<Row>>,
    version: u64,
}

// The place of the row of a class and a name.
fn row_of(class: PyTypeRef, name: PyStrInterned) -> usize {
    (class.0.wrapping_mul(257).wrapping_add(name.0) % 4096) as usize
}

impl Cache {
    // A cache with no rows, which keeps nothing.
    pub(crate) fn without_rows(alloc: Global) -> Cache
        ensures { (t : Classes Name) → IsCached t result }
    {
        Cache {
            rows: Vec::new(alloc),
            version: 0,
        }
    }

    // A cache with empty rows. They are all that it ever has.
    pub(crate) fn with_rows(alloc: Global) -> Result<Cache, OutOfMemory>
        ensures { IfOk result (λ cache. (t : Classes Name) → IsCached t cache) }
    {
        let rows = blank_rows(alloc)?;
        Ok(Cache { rows, version: 0 })
    }

    // What was found for a class and a name, where the present version has a row of it.
    pub(crate) fn get(&self, class: PyTypeRef, name: PyStrInterned) -> Option<Option<PyObjectRef>>
        ensures { (t : Classes Name) → IsCached t self.now →
            IfSome result (λ answer. answer ≡ found is_same_name t class.0 name) }
    {
        match self.rows.get(row_of(class, name)) {
            Some(Some(row)) => {
                if row.version == self.version && row.class == class && row.name == name {
                    Some(row.answer)
                } else {
                    None
                }
            }
            _ => None,
        }
    }

    // Keeps what is found for a class and a name, in place of what their row had.
    pub(crate) fn put(&mut self, class: PyTypeRef, name: PyStrInterned, answer: Option<PyObjectRef>)
        ensures { (t : Classes Name) → IsCached t self.old → answer ≡ found is_same_name t class.0 name →
            IsCached t self.new }
    {
        let row = Row {
            class,
            name,
            version: self.version,
            answer,
        };
        set_row(&mut self.rows, row_of(class, name), row);
    }

    // Raises the version, so that no row is of the present one, whatever the classes are then. After the last version
    // all rows are emptied, and the first one begins again. It takes no memory.
    pub(crate) fn raise(&mut self)
        ensures { (s t : Classes Name) → IsCached s self.old → IsCached t self.new }
    {
        if self.version == u64::MAX {
            self.begin_again();
            return;
        }
        self.version += 1;
    }

    // Empties all rows, and goes back to the first version.
    fn begin_again(&mut self)
        ensures { (t : Classes Name) → IsCached t self.new }
    {
        empty_rows(&mut self.rows);
        self.version = 0;
    }
}

// Empty rows.
fn blank_rows(alloc: Global) -> Result<Vec<Option<Row>>, OutOfMemory>
    ensures { IfOk result (λ rows. AreEmpty rows.items) }
{
    let mut rows = Vec::with_capacity(alloc, ROWS)?;
    for _row in 0..ROWS {
        rows.push(None)?;
    }
    Ok(rows)
}

// Fills the row at a place, where there is one.
fn set_row(rows: &mut [Option<Row>], place: usize, row: Row)
    ensures { rows.new ≡ slice_set rows.old place (Some row) }
{
    if place < rows.len() {
        rows[place] = Some(row);
    }
}

// Empties all rows, where they stand.
fn empty_rows(rows: &mut [Option<Row>])
    ensures { AreEmpty rows.new }
{
    for place in 0..rows.len() {
        rows[place] = None;
    }
}
