//! Two threads that take turns at one sheet. The first seat signs it before they start, each of them signs it many
//! times, and at the end the sheet is read: whatever the order was, no signature is missing.
#![tactic(auto)]

mod sheet;
mod sign;

use py_node::OutOfMemory;
use seat_lock::SeatLock;
use sheet::Sheet;
use sign::all_sign;
use std::io;

fn main(rt: HostRuntime) -> io::Result<()> {
    let Ok(names) = Vec::with_capacity(rt.alloc(), 2_001) else {
        return println!(rt; "no memory for the sheet");
    };
    let (lock, seats) = match SeatLock::new(rt.alloc(), 3, Sheet::new(names)) {
        Ok(made) => made,
        Err((OutOfMemory, _sheet)) => return println!(rt; "no memory for the lock"),
    };
    let Some(sheet) = all_sign(&rt, lock, seats) else {
        return println!(rt; "no memory for the seats");
    };
    let first = sheet.first().unwrap_or(u32::MAX);
    println!(rt; "first: seat {first}")?;
    for seat in 0..3u32 {
        let count = sheet.count(seat);
        println!(rt; "seat {seat}: {count}")?;
    }
    Ok(())
}
