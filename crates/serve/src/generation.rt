//! The commands that a seed generates: they are run one at a time, and their replies counted.

ghost use Rattle.serve.specs.Below.{[], IfOk, OnOk, List, ℕ, length, take, Some, ForSome, Rose, Tree, tree_of, IsReadable};
ghost use Rattle.std.specs.Prelude.{◌≡◌, ◌+◌, ◌<◌, ◌≤◌, ◌^◌, ◌∷◌, ◌++◌};
ghost use Rattle.serve.specs.Headline.{generation_text};
ghost use Rattle.serve.specs.Ran.{Ran};
ghost use Rattle.serve.specs.Status.{IsDoneOrPoor, IsWriteEnd};

use crate::status::Status;
use generator::commands::{CLASSES, change_command, class_command};
use generator::{Draws, Tally};
use outside::Sink;
use outside::words::Generation;
use outside::write_all::write_all;
use py_node::{Command, OutOfMemory};
use std::alloc::Global;
use vm_eval::VirtualMachine;

// How many units each command may spend.
const UNITS: u64 = 10_000;

// Runs the commands that are generated, and writes what their replies add up to.
pub(crate) fn generate<K: Sink>(alloc: Global, generation: Generation, sink: &mut K) -> Status
    requires { generation.count ≤ 100000 }
    ensures ends { IsWriteEnd result }
    ensures done { result ≡ Status.Done → ForSome (K.taken sink.old) (λ old. K.taken sink.new ≡
        Some (old ++ generation_text generation.seed generation.count)) }
    ensures write_fault { result ≡ Status.WriteFault → Rose (K.faults sink.old) (K.faults sink.new) }
    ensures front { result ≡ Status.WriteFault → ForSome (K.taken sink.old) (λ old. (n : ℕ)
        × (n < length (generation_text generation.seed generation.count))
        × (K.taken sink.new ≡ Some (old ++ take n (generation_text generation.seed generation.count)))) }
    ensures nothing { (result ≡ Status.Done → ⊥) → (result ≡ Status.WriteFault → ⊥) → K.taken sink.new ≡
        K.taken sink.old }
    ensures complete { (Rose (K.faults sink.old) (K.faults sink.new) → ⊥) → IsDoneOrPoor result }
    ensures ahead { length (generation_text generation.seed generation.count) ≤ K.sure sink.old
        → IsDoneOrPoor result }
    ensures later { K.faults sink.old ≤ K.faults sink.new }
{
    match generation_text(alloc, generation) {
        Err(_) => Status::OutOfMemory,
        Ok(text) => match write_all(sink, &text) {
            Ok(()) => Status::Done,
            Err(_) => Status::WriteFault,
        },
    }
}

// The text of the tally of the replies to the commands that are generated.
fn generation_text(alloc: Global, generation: Generation) -> Result<Vec<u8>, OutOfMemory>
    requires { generation.count ≤ 100000 }
    ensures { IfOk result (λ v. v.items ≡ generation_text generation.seed generation.count) }
{
    let mut vm = VirtualMachine::new(alloc)?;
    let mut draws = Draws::new(generation.seed);
    let mut tally = Tally::new();
    for i in 0..CLASSES {
        let command = class_command(alloc, &mut draws, i)?;
        run_one(&mut vm, command, &mut tally)?;
    }
    for i in 0..generation.count {
        let command = change_command(alloc, &mut draws, i)?;
        run_one(&mut vm, command, &mut tally)?;
    }
    tally.text(alloc)
}

// Runs one command, and counts its reply.
fn run_one(vm: &mut VirtualMachine, command: Command, tally: &mut Tally) -> Result<(), OutOfMemory>
    requires { tally.old.replies < 2 ^ 62 }
    ensures ran { OnOk result ((done : List Tree) → Ran done vm.old.world tally.old →
        Ran (done ++ tree_of command.expr ∷ []) vm.new.world tally.new) }
    ensures replies { OnOk result (tally.new.replies ≡ tally.old.replies + 1) }
    ensures readable { OnOk result (IsReadable vm.new.world) }
{
    match vm.run(&[command], UNITS) {
        Ok(replies) => {
            tally.add_all(&replies);
            Ok(())
        }
        Err(_) => Err(OutOfMemory),
    }
}
