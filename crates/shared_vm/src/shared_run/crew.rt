//! The workers of a run: each later seat with its session, and a thread of its own.

ghost use Rattle.shared_vm.specs.Below.{ℕ, length, vec_len, IfOk, suc, slice_index_or, All, IsFree, fresh_seat};
ghost use Rattle.std.specs.Prelude.{◌≡◌, ◌<◌};
ghost use Rattle.shared_vm.specs.Work.{MayPerform};
ghost use Rattle.shared_vm.specs.SharedRun.Crew.{AllReady, Each, Worked};
ghost use Rattle.shared_vm.specs.SharedRun.Mix.{session_trees};

use crate::{Gate, Seat, SharedVm, perform};
use py_node::{Command, OutOfMemory};
use seat_lock::MOST_TURNS;
use std::alloc::Global;
use std::mem;
use std::sync::Wait;
use std::thread::{Threads, for_each_mut};

/// A seat, the session that it is to execute, and whether one of its commands was refused.
#[derive(Drop)]
pub(crate) struct Worker {
    pub(crate) seat: Seat,
    pub(crate) session: Vec<Command>,
    pub(crate) refused: bool,
}

/// Each later seat meets the first, so that its turns come after all that the first has seen, and has its session.
pub(crate) fn introduce(
    alloc: Global,
    vm: &SharedVm,
    first: &mut Seat,
    seats: Vec<Seat>,
    sessions: Vec<Vec<Command>>,
) -> Result<Vec<Worker>, OutOfMemory>
    requires first { IsFree vm.now.id first.old }
    requires seats { Each (λ k s. s ≡ fresh_seat vm.now.id (suc k)) seats.items }
    requires len { length seats.items ≡ length sessions.items }
    requires short { All (λ s. vec_len s < MOST_TURNS) sessions.items }
    ensures same { first.new ≡ first.old }
    ensures len { IfOk result (λ crew. length crew.items ≡ length sessions.items) }
    ensures ready { IfOk result (λ crew.
        AllReady vm.now.id first.old.seen (session_trees sessions.items) crew.items) }
{
    let mut crew = Vec::new(alloc);
    for (mut seat, session) in seats.into_iter().zip(sessions) {
        vm.meet(&mut seat, first)?;
        crew.push(Worker {
            seat,
            session,
            refused: false,
        })?;
    }
    Ok(crew)
}

/// All sessions at once. This takes no memory.
pub(crate) fn work_all<R: AllocGlobal + Threads + Wait + Sync, G: Gate + Sync>(
    rt: &R,
    vm: &SharedVm,
    gate: &G,
    budget: u64,
    crew: &mut [Worker],
)
    requires crew { All (λ w. MayPerform vm.now.id (vec_len w.session) w.seat) crew.old }
    ensures { (k : ℕ) (d : _) → k < length crew.old →
        Worked vm.now.id budget (slice_index_or crew.old k d) (slice_index_or crew.new k d) }
{
    let threads = crew.len();
    if threads == 0 {
        return;
    }
    for_each_mut(
        rt,
        crew,
        threads,
        &|_place: usize, worker: &mut Worker|
            requires { MayPerform vm.now.id (vec_len worker.now.session) worker.now.seat }
            ensures { Worked vm.entry.now.id budget worker.entry.now worker.exit.now }
        { work(rt, vm, gate, budget, worker) },
    );
}

// Executes the session, up to the first refusal.
fn work<R: AllocGlobal + Wait, G: Gate>(
    rt: &R,
    vm: &SharedVm,
    gate: &G,
    budget: u64,
    worker: &mut Worker,
)
    requires { MayPerform vm.now.id (vec_len worker.old.session) worker.old.seat }
    ensures { Worked vm.now.id budget worker.old worker.new }
{
    let session = mem::replace(&mut worker.session, Vec::new(rt.alloc()));
    let all = perform(rt, vm, gate, &mut worker.seat, session, budget);
    worker.refused = !all;
}
