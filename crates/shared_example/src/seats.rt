//! What is done with the seats of a shared machine.

ghost use Rattle.std.specs.Prelude.{◌≡◌, ◌+◌, IfOk, OnOk, vec_len};
ghost use Rattle.std.specs.List.{All};
ghost use Rattle.seat_lock.specs.Known.{IsFree};

use crate::stop::Stop;
use crate::sum::sum_of;
use py_node::Command;
use script_text::read_script;
use seat_lock::MOST_TURNS;
use shared_vm::{Seat, SharedVm};
use std::sync::Wait;
use std::thread::{Threads, join};

/// What each command may spend.
pub const UNITS: u64 = 1000;

// How often each thread adds.
const ROUNDS: u32 = 500;

// What a thread executes again and again.
const ADD: &[u8] = br#"[["bind","total",["op","+",["name","total"],1]]]"#;

/// A seat that adds, and the last sum that it was answered.
#[derive(Drop)]
pub struct Adder {
    pub seat: Seat,
    pub sum: u64,
}

/// The last of the seats.
#[tactic(auto, using(crate::proofs::Free::popped))]
pub fn take_seat(vm: &SharedVm, seats: &mut Vec<Seat>) -> Result<Seat, Stop>
    requires { All (IsFree vm.now.id) seats.old.items }
    ensures taken { IfOk result (IsFree vm.now.id) }
    ensures rest { All (IsFree vm.now.id) seats.new.items }
    ensures fewer { OnOk result (vec_len seats.old ≡ vec_len seats.new + 1) }
{
    match seats.pop() {
        Some(seat) => Ok(seat),
        None => Err(Stop::NoTurn),
    }
}

// Executes a command in a turn of the seat. What it is answered is a number.
#[tactic(auto, using(crate::proofs::Free::free_again))]
fn execute<R: Wait>(rt: &R, vm: &SharedVm, seat: &mut Seat, command: Command) -> Result<u64, Stop>
    requires { IsFree vm.now.id seat.old }
    ensures { OnOk result (IsFree vm.now.id seat.new) }
{
    if seat.made() >= MOST_TURNS {
        return Err(Stop::NoTurn);
    }
    let receipt = vm.execute(rt, seat, command, UNITS)?;
    match sum_of(&receipt.reply) {
        Some(sum) => Ok(sum),
        None => Err(Stop::Other),
    }
}

/// Executes the commands of a script, each in a turn of the seat, and gives the last number that it is answered.
pub fn execute_script<R: AllocGlobal + Wait>(
    rt: &R,
    vm: &SharedVm,
    seat: &mut Seat,
    script: &[u8],
) -> Result<u64, Stop>
    requires { IsFree vm.now.id seat.old }
    ensures { OnOk result (IsFree vm.now.id seat.new) }
{
    let mut sum = 0;
    for command in read_script(rt.alloc(), script)? {
        sum = execute(rt, vm, seat, command)?;
    }
    Ok(sum)
}

// Adds as often as a thread does.
fn add_often<R: AllocGlobal + Wait>(rt: &R, vm: &SharedVm, mut adder: Adder) -> Result<Adder, Stop>
    requires { IsFree vm.now.id adder.seat }
    ensures { IfOk result (λ a. IsFree vm.now.id a.seat) }
{
    for _ in 0..ROUNDS {
        adder.sum = execute_script(rt, vm, &mut adder.seat, ADD)?;
    }
    Ok(adder)
}

/// Two seats add at once, each in a thread of its own.
#[tactic(auto, using(crate::proofs::Sent::vm_sync, crate::proofs::Sent::adder_send))]
pub fn add_at_once<R: AllocGlobal + Threads + Wait + Sync>(
    rt: &R,
    vm: &SharedVm,
    one: Seat,
    two: Seat,
) -> Result<(Adder, Adder), Stop>
    requires one { IsFree vm.now.id one }
    requires two { IsFree vm.now.id two }
    ensures one { IfOk result (λ both. IsFree vm.now.id both.0.seat) }
    ensures two { IfOk result (λ both. IsFree vm.now.id both.1.seat) }
{
    let one = Adder { seat: one, sum: 0 };
    let two = Adder { seat: two, sum: 0 };
    let (one, two) = join(
        rt,
        move || -> Result<Adder, Stop>
            requires { IsFree vm.now.id one.seat }
            ensures { IfOk result (λ a. IsFree vm.entry.now.id a.seat) }
        { add_often(rt, vm, one) },
        move || -> Result<Adder, Stop>
            requires { IsFree vm.now.id two.seat }
            ensures { IfOk result (λ a. IsFree vm.entry.now.id a.seat) }
        { add_often(rt, vm, two) },
    );
    Ok((one?, two?))
}
