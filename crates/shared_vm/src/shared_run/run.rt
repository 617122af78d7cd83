//! A run of sessions on a new machine.

ghost use Rattle.shared_vm.specs.Below.{List, length, map, vec_len, false, IfOk, OnOk, All, Turn, fresh_seat};
ghost use Rattle.std.specs.Prelude.{◌≡◌, ◌<◌, ◌∷◌};
ghost use Rattle.shared_vm.specs.declared.entry.Entry.{Entry};
ghost use Rattle.shared_vm.specs.Book.{IsReplay};
ghost use Rattle.shared_vm.specs.Journal.{Legal, plain_journal};
ghost use Rattle.shared_vm.specs.SharedRun.Crew.{AllDid, Each};
ghost use Rattle.shared_vm.specs.SharedRun.Mix.{Mix, session_trees};

use crate::shared_run::crew::{Worker, introduce, work_all};
use crate::{Closed, Gate, Seat, SharedVm, perform};
use py_node::{Command, OutOfMemory};
use seat_lock::MOST_TURNS;
use std::alloc::Global;
use std::sync::Wait;
use std::thread::Threads;

/// Runs an opening, which is the first of the sessions, and then all others at once on a new machine: each command has
/// so many units, and each session a seat and a thread of its own. The journal is legal and a mix of the sessions, and
/// the machine is the one that it leaves. Want of memory is the one error.
pub fn share_run<R: AllocGlobal + Threads + Wait + Sync, G: Gate + Sync>(
    rt: &R,
    sessions: Vec<Vec<Command>>,
    budget: u64,
    gate: &G,
) -> Result<Closed, OutOfMemory>
    requires opening { 0 < vec_len sessions }
    requires few { vec_len sessions < MOST_TURNS }
    requires short { All (λ s. vec_len s < MOST_TURNS) sessions.items }
    ensures legal { IfOk result (λ closed. Legal (plain_journal closed.journal.items)) }
    ensures mix { IfOk result (λ closed.
        Mix (plain_journal closed.journal.items) (session_trees sessions.items) budget) }
    ensures clear { IfOk result (λ closed. closed.machine.failed ≡ false) }
    ensures world { IfOk result (λ closed. IsReplay closed.machine (plain_journal closed.journal.items)) }
{
    let count = sessions.len() as u32;
    let (vm, seats) = SharedVm::new(rt.alloc(), count)?;
    let seats = run_seats(rt, &vm, gate, seats, sessions, budget)?;
    let closed = vm.close(seats);
    if closed.machine.has_failed() {
        return Err(OutOfMemory);
    }
    Ok(closed)
}

// The first seat executes the opening, and then each later seat its session, all at once.
fn run_seats<R: AllocGlobal + Threads + Wait + Sync, G: Gate + Sync>(
    rt: &R,
    vm: &SharedVm,
    gate: &G,
    mut seats: Vec<Seat>,
    mut sessions: Vec<Vec<Command>>,
    budget: u64,
) -> Result<Vec<Seat>, OutOfMemory>
    requires seats { Each (λ k s. s ≡ fresh_seat vm.now.id k) seats.items }
    requires opening { 0 < length sessions.items }
    requires len { length seats.items ≡ length sessions.items }
    requires short { All (λ s. vec_len s < MOST_TURNS) sessions.items }
    ensures len { IfOk result (λ all. length all.items ≡ length sessions.items) }
    ensures did { IfOk result (λ all. (opening : List (Turn Entry)) ×
        AllDid vm.now.id budget opening (session_trees sessions.items) all.items) }
{
    let opening = sessions.remove(0);
    let mut first = seats.remove(0);
    if !perform(rt, vm, gate, &mut first, opening, budget) {
        return Err(OutOfMemory);
    }
    let mut crew = introduce(rt.alloc(), vm, &mut first, seats, sessions)?;
    work_all(rt, vm, gate, budget, crew.as_mut_slice());
    let all = gather(rt.alloc(), first, crew)?;
    Ok(all)
}

// All seats in the order of their numbers, unless a worker was refused.
fn gather(alloc: Global, first: Seat, crew: Vec<Worker>) -> Result<Vec<Seat>, OutOfMemory>
    ensures seats { IfOk result (λ all. all.items ≡ first ∷ map (λ w. w.seat) crew.items) }
    ensures accepted { OnOk result (All (λ w. w.refused ≡ false) crew.items) }
{
    let mut seats = Vec::new(alloc);
    seats.push(first)?;
    for worker in crew {
        let Worker { seat, refused, .. } = worker;
        if refused {
            return Err(OutOfMemory);
        }
        seats.push(seat)?;
    }
    Ok(seats)
}
