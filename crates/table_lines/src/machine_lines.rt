//! The lines of a table of calls with their values, of the machine and of what hosts ask it by name: each public call that
//! can find no memory, and that no script reaches by itself, is called once with ample memory. A line tells its name and
//! its value; the table ends early at a call that has none.
#![tactic(auto)]

mod asking;
mod attributes;
mod changes;
mod hosts;
mod machine;
mod makers;
mod mappings;
mod operators;
mod questions;
mod sequences;

use crate::Table;
use std::alloc::Global;
use vm_eval::VirtualMachine;

/// Adds all lines.
pub fn put(table: &mut Table, alloc: Global) {
    match VirtualMachine::new(alloc) {
        Ok(mut vm) => {
            machine::put(table, &mut vm, alloc);
            changes::put(table, &mut vm);
            makers::put(table, &mut vm, alloc);
            attributes::put(table, &mut vm, alloc);
            operators::put(table, &mut vm);
            questions::put(table, &mut vm);
            sequences::put(table, &mut vm);
            mappings::put(table, &mut vm, alloc);
            hosts::put(table, &mut vm, alloc);
        }
        Err(_) => table.end(),
    }
}
