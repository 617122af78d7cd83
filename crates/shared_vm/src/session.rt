//! A session: commands that a seat executes, one after another.

ghost use Rattle.shared_vm.specs.Below.{true, vec_len, trees_in};
ghost use Rattle.std.specs.Prelude.{◌≡◌};
ghost use Rattle.shared_vm.specs.Work.{MayPerform, Performed, Stays};

use crate::gate::Gate;
use crate::shared::{Seat, SharedVm};
use py_node::Command;
use std::sync::Wait;

/// Executes the commands in their order, each with so many units, up to the first refusal. It tells whether none came.
pub fn perform<R: Wait, G: Gate>(
    rt: &R,
    vm: &SharedVm,
    gate: &G,
    seat: &mut Seat,
    session: Vec<Command>,
    budget: u64,
) -> bool
    requires { MayPerform vm.now.id (vec_len session) seat.old }
    ensures stays { Stays vm.now.id seat.old seat.new }
    ensures all { result ≡ true → Performed budget (trees_in session.items) seat.old seat.new }
{
    for command in session {
        gate.before(seat.number(), seat.made());
        let Ok(_receipt) = vm.execute(rt, seat, command, budget) else {
            return false;
        };
    }
    true
}
