//! A run of one command.

ghost use Rattle.shared_vm.specs.Below.{IfOk, OnOk, OnErr, true, false, reply_of, tree_of, Keeps, IsReadable};
ghost use Rattle.std.specs.Prelude.{◌≡◌};
ghost use Rattle.shared_vm.specs.Book.{Ran};

use py_node::{Command, OutOfMemory, Reply};
use std::slice;
use vm_eval::VirtualMachine;

/// The machine's reply to one command, which may use so many units.
pub(crate) fn run_single(
    machine: &mut VirtualMachine,
    command: &Command,
    units: u64,
) -> Result<Reply, OutOfMemory>
    requires { machine.old.failed ≡ false }
    ensures ran { IfOk result (λ reply.
        Ran (tree_of command.now.expr) machine.old.world units machine.new.world (reply_of reply)) }
    ensures log { Keeps machine.old.world.log machine.new.world.log }
    ensures readable { OnOk result (IsReadable machine.new.world) }
    ensures clear { OnOk result (machine.new.failed ≡ false) }
    ensures failed { OnErr result (machine.new.failed ≡ true) }
{
    let Ok(mut replies) = machine.run(slice::from_ref(command), units) else {
        return Err(OutOfMemory);
    };
    let Some(reply) = replies.pop() else {
        unreachable!()
    };
    Ok(reply)
}
