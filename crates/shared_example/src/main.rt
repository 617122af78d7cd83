//! How another program shares a machine among its threads. One seat makes a variable, and then two seats, each in a thread
//! of its own, add to it many times. Whatever the order was in which they came, the journal has it: no addition is lost,
//! each sum is the place of its entry, and the machine that is left is as one caller had left it who gave these commands.
#![tactic(auto)]

mod seats;
mod stop;
mod sum;

use script_text::read_script;
use seats::{UNITS, add_at_once, execute_script, take_seat};
use shared_vm::{Closed, SharedVm};
use std::alloc::Global;
use std::io;
use std::sync::Wait;
use std::thread::Threads;
use stop::Stop;
use sum::{are_in_place, count_of, sum_of};
use vm_eval::VirtualMachine;

// What one seat executes before the threads start.
const OPENING: &[u8] = br#"[["bind","total",0]]"#;

// What is asked of the machine at the end.
const TOTAL: &[u8] = br#"[["name","total"]]"#;

// What came of it, as far as no order of the threads changes it.
#[derive(Drop)]
struct Told {
    // How many entries the two seats have.
    entries: [usize; 2],
    // Whether the sum of each entry is its place.
    in_place: bool,
    // The greatest sum that either thread was answered at its end.
    greatest: u64,
    total: u64,
}

fn main(rt: HostRuntime) -> io::Result<()> {
    let told = match share(&rt) {
        Ok(told) => told,
        Err(stop) => {
            let word = stop.word();
            return println!(rt; "{word}");
        }
    };
    let [one, two] = told.entries;
    println!(rt; "entries: {one} and {two}")?;
    let in_place = told.in_place;
    println!(rt; "each sum is the place of its entry: {in_place}")?;
    let greatest = told.greatest;
    println!(rt; "the last sum: {greatest}")?;
    let total = told.total;
    println!(rt; "total: {total}")
}

// One seat executes the opening, and then both add at once.
fn share<R: AllocGlobal + Threads + Wait + Sync>(rt: &R) -> Result<Told, Stop> {
    let alloc = rt.alloc();
    let (vm, mut seats) = SharedVm::new(alloc, 2)?;
    let mut two = take_seat(&vm, &mut seats)?;
    let mut one = take_seat(&vm, &mut seats)?;
    execute_script(rt, &vm, &mut one, OPENING)?;
    vm.meet(&mut two, &mut one)?;
    let (one, two) = add_at_once(rt, &vm, one, two)?;
    let greatest = one.sum.max(two.sum);
    seats.push(one.seat)?;
    seats.push(two.seat)?;
    let Closed {
        journal,
        mut machine,
    } = vm.close(seats);
    Ok(Told {
        entries: [count_of(&journal, 0), count_of(&journal, 1)],
        in_place: are_in_place(&journal),
        greatest,
        total: total(alloc, &mut machine)?,
    })
}

// What the variable has at the end: no other caller is left, so the machine is asked as any other is.
fn total(alloc: Global, machine: &mut VirtualMachine) -> Result<u64, Stop> {
    let mut replies = machine.run(&read_script(alloc, TOTAL)?, UNITS)?;
    let reply = replies.pop().ok_or(Stop::Other)?;
    sum_of(&reply).ok_or(Stop::Other)
}
