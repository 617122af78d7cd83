//! The lines of a table of calls with their values, of the world and what stands below it: each public call that can find
//! no memory, and that no script reaches by itself, is called once with ample memory. A line tells its name and its value;
//! the table ends early at a call that has none.
#![tactic(auto)]

mod changes;
mod classes;
mod definitions;
mod descriptors;
mod members;
mod merges;
mod nodes;
mod payloads;
mod texts;
mod world_classes;
mod worlds;

use crate::Table;
use class_table::ClassTable;
use class_world::World;
use std::alloc::Global;

/// Adds all lines.
pub fn put(table: &mut Table, alloc: Global) {
    nodes::put(table, alloc);
    merges::put(table, alloc);
    texts::put(table, alloc);
    put_classes(table, alloc);
    put_world(table, alloc);
}

// The calls of a table of classes.
fn put_classes(table: &mut Table, alloc: Global) {
    match ClassTable::new(alloc) {
        Ok(mut classes) => {
            classes::put(table, &mut classes, alloc);
            changes::put(table, &mut classes, alloc);
        }
        Err(_) => table.end(),
    }
}

// The calls of a world.
fn put_world(table: &mut Table, alloc: Global) {
    match World::new(alloc) {
        Ok(mut world) => {
            worlds::put(table, &mut world);
            world_classes::put(table, &mut world);
            members::put(table, &mut world);
            definitions::put(table, &mut world, alloc);
            descriptors::put(table, &mut world, alloc);
        }
        Err(_) => table.end(),
    }
}
