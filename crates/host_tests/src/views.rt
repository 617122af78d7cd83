//! A machine that callers share, whose classes a reader looks up.

ghost use Rattle.host_tests.specs.Below.{vec_len, All, IsFree};
ghost use Rattle.std.specs.Prelude.{◌≡◌, ◌<◌};

use class_view::{ClassReader, RuledPane, Told};
use class_world::Fixed;
use py_node::{Command, PyStrInterned, PyTypeRef};
use seat_lock::MOST_TURNS;
use shared_vm::viewed_vm::{ViewedSeat, ViewedVm};
use std::sync::Wait;

// More numbers than the machine has classes.
const NUMBERS: u64 = 2_000;

// Whether a command was executed.
#[tactic(auto, using(crate::proofs::Free::executed_free))]
fn executes<R: Wait>(rt: &R, vm: &ViewedVm, seat: &mut ViewedSeat, command: Command) -> bool
    requires { IsFree vm.now.id seat.old }
    ensures { IsFree vm.now.id seat.new }
{
    seat.made() < MOST_TURNS && vm.execute(rt, seat, command, 1_000).is_ok()
}

// The name of a text on the machine.
#[tactic(auto, using(crate::proofs::Free::named_free))]
fn name_of<R: Wait>(
    rt: &R,
    vm: &ViewedVm,
    seat: &mut ViewedSeat,
    text: &str,
) -> Option<PyStrInterned>
    requires { IsFree vm.now.id seat.old }
    ensures { IsFree vm.now.id seat.new }
{
    if seat.made() >= MOST_TURNS {
        return None;
    }
    vm.interned(rt, seat, text)
}

// What is told of the classes that are published.
#[tactic(auto, using(crate::proofs::Free::published_free))]
fn publish<R: Wait>(rt: &R, vm: &ViewedVm, seat: &mut ViewedSeat) -> Option<Told>
    requires { IsFree vm.now.id seat.old }
    ensures { IsFree vm.now.id seat.new }
{
    if seat.made() >= MOST_TURNS {
        return None;
    }
    match vm.publish(rt, seat) {
        Ok((_count, told)) => Some(told),
        Err(_) => None,
    }
}

// In how many classes the reader finds None under a name.
fn classes_with(reader: &mut ClassReader<RuledPane>, name: PyStrInterned) -> Option<u64> {
    let mut count: u64 = 0;
    for number in 0..NUMBERS {
        let Ok(found) = reader.find(PyTypeRef(number), name) else {
            return None;
        };
        if found == Some(Fixed::None.node()) {
            count = count.saturating_add(1);
        }
    }
    Some(count)
}

// In how many classes the reader finds the attribute `x` before it is published, and once it is and the reader learnt it;
// and whether the machine has a name that was never used.
fn look<R: Wait>(
    rt: &R,
    vm: &ViewedVm,
    seat: &mut ViewedSeat,
    reader: &mut ClassReader<RuledPane>,
    commands: Vec<Command>,
) -> Option<(u64, u64, bool)>
    requires { IsFree vm.now.id seat.old }
    ensures { IsFree vm.now.id seat.new }
{
    for command in commands {
        if !executes(rt, vm, seat, command) {
            return None;
        }
    }
    let name = name_of(rt, vm, seat, "x")?;
    let before = classes_with(reader, name)?;
    let told = publish(rt, vm, seat)?;
    reader.learn(told);
    let after = classes_with(reader, name)?;
    Some((before, after, name_of(rt, vm, seat, "never").is_some()))
}

// Executes commands on a machine, looks the attribute `x` up by a reader, and ends the machine. It tells in how many
// classes the reader finds None under that name before it is published, and once it is and the reader learnt it; whether
// the machine has a name that was never used; and how many entries the journal has.
pub(crate) fn look_and_close<R: Wait>(
    rt: &R,
    vm: ViewedVm,
    mut seats: Vec<ViewedSeat>,
    mut readers: Vec<ClassReader<RuledPane>>,
    commands: Vec<Command>,
) -> (Option<(u64, u64, bool)>, usize)
    requires all { vec_len seats ≡ vm.seats }
    requires some { (0 < vec_len seats) × (0 < vec_len readers) }
    requires free { All (IsFree vm.id) seats.items }
{
    let seen = look(rt, &vm, &mut seats[0], &mut readers[0], commands);
    let closed = vm.close(rt, seats);
    (seen, closed.journal.len())
}
