//! What a host hands to a machine and takes from it: values, the orders of its classes, a book, and a machine with seats.

use crate::{NoValue, Table};
use order_check::class_orders::hierarchy_of;
use order_check::{all_orders, well_formed};
use py_node::{Command, Constant, Expr, OutOfMemory, PyResult};
use shared_vm::{Book, SharedVm};
use std::alloc::Global;
use vm_calls::{int_of, new_int, new_text, text_of};
use vm_eval::{RunFault, VirtualMachine};

pub fn put(table: &mut Table, vm: &mut VirtualMachine, alloc: Global) {
    table.put("vm_calls::new_int", number(vm));
    table.put("vm_calls::new_text", text(vm, alloc));
    table.put("class_orders::hierarchy_of", ordered(vm, alloc));
    table.put("order_check::well_formed", formed(vm, alloc));
    table.put("Book::step", stepped(alloc));
    table.put("SharedVm::new", seats(alloc));
}

fn number(vm: &mut VirtualMachine) -> Result<Option<i128>, RunFault> {
    let object = new_int(vm, 33)?;
    Ok(int_of(vm, object))
}

// How long a text is that went in and came out.
fn text(vm: &mut VirtualMachine, alloc: Global) -> Result<Option<usize>, NoValue> {
    match new_text(vm, String::from_str(alloc, "a text")?)? {
        PyResult::Done(object) => Ok(text_of(vm, object).map(|text| text.len())),
        _ => Err(NoValue),
    }
}

// How many classes there are, and whether each has an order.
fn ordered(vm: &VirtualMachine, alloc: Global) -> Result<(usize, bool), OutOfMemory> {
    let hierarchy = hierarchy_of(alloc, vm.classes())?;
    let orders = all_orders(alloc, &hierarchy)?;
    let are_found = orders.iter().all(|order| order.is_some());
    Ok((orders.len(), are_found))
}

// Whether they are as classes of a hierarchy have to be.
fn formed(vm: &VirtualMachine, alloc: Global) -> Result<bool, OutOfMemory> {
    well_formed(alloc, &hierarchy_of(alloc, vm.classes())?)
}

// The place of a first command's entry, and its number among those of its seat.
fn stepped(alloc: Global) -> Result<(usize, u32), NoValue> {
    let mut book = Book::new(alloc)?;
    let expr = Expr::Const(Constant::Int(7));
    let receipt = book.step(1, Command { expr }, 10)?;
    Ok((receipt.place, receipt.seat))
}

// How many seats there are.
fn seats(alloc: Global) -> Result<usize, OutOfMemory> {
    let (_vm, seats) = SharedVm::new(alloc, 3)?;
    Ok(seats.len())
}
