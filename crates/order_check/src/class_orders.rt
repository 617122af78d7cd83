//! The classes of a table as a hierarchy: all their orders can be found at once, and are those that the table keeps.
#![tactic(auto)]

ghost use Rattle.order_check.specs.Below.{ℕ, true, length, map, option_map, Some, IfOk, lin, is_class, class_at, AreSound};
ghost use Rattle.std.specs.Prelude.{◌≡◌, ◌<◌};
ghost use Rattle.class_table.specs.Keys.{numbers};
ghost use Rattle.order_check.specs.Hierarchy.{AreKeyed, order_in, all_orders};
ghost use Rattle.order_check.specs.ClassOrders.Shown.{shown, class_shown};

use crate::{Entry, Hierarchy};
use class_table::ClassTable;
use py_node::{OutOfMemory, PyTypeRef};
use std::alloc::Global;

/// The classes of a table, by number: the key of each is its number.
pub fn hierarchy_of(alloc: Global, table: &ClassTable) -> Result<Hierarchy, OutOfMemory>
    ensures classes { IfOk result (λ h. map shown h.entries.items ≡ map class_shown table.now) }
    ensures keyed { IfOk result (λ h. AreKeyed h.entries.items) }
    // Each class has the linearisation that it has in the table, and so what `all_orders` finds is what the table keeps.
    ensures order { IfOk result (λ h. (c : ℕ) → order_in h.entries.items c ≡ lin table.now c) }
    ensures all { IfOk result (λ h. all_orders h.entries.items ≡ map (λ k. lin table.now k.number) table.now) }
{
    table.sound();
    let mut entries = Vec::with_capacity(alloc, table.len())?;
    for place in 0..table.len() {
        let class = table.number_at(place);
        entries.push(entry_of(alloc, table, class)?)?;
    }
    Ok(Hierarchy { entries })
}

// A class by itself.
fn entry_of(alloc: Global, table: &ClassTable, class: PyTypeRef) -> Result<Entry, OutOfMemory>
    requires { is_class table.now class.0 ≡ true }
    ensures { IfOk result (λ e. option_map class_shown (class_at table.now class.0) ≡ Some (shown e)) }
{
    Ok(Entry {
        key: class.0,
        name: String::from_str(alloc, table.slot_name(class))?,
        bases: keys_of(alloc, table.bases(class))?,
    })
}

fn keys_of(alloc: Global, classes: &[PyTypeRef]) -> Result<Vec<u64>, OutOfMemory>
    ensures { IfOk result (λ v. v.items ≡ numbers classes.now) }
{
    let mut keys = Vec::with_capacity(alloc, classes.len())?;
    for class in classes {
        keys.push(class.0)?;
    }
    Ok(keys)
}
