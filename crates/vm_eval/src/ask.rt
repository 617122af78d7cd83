//! One task, which a host asks.

ghost use Rattle.vm_eval.specs.Below.{[], IfOk, OnOk, OnErr, Err, IsTrue, false, IsSound, of_answer, of_task, Reading, plain, IsReadable, AllHold, Grows};
ghost use Rattle.std.specs.Prelude.{◌≡◌};
ghost use Rattle.vm_eval.specs.Asks.{Asked, ending_in, of_done};
ghost use Rattle.vm_eval.specs.Stack.{ending_of, of_end};

use crate::machine::{RunFault, VirtualMachine};
use crate::stack::{End, drive};
use py_node::{Answer, PyResult, Task};

impl VirtualMachine {
    /// Runs one task with so many units, with no row waiting below it, and tells how it ended: with its
    /// value, with a fault, or its units were used up. That and the world after it are the plain
    /// machine's, and the world is sound; however the task ends, no body is left running. Which bodies
    /// it started is not noted for a later reply. Where memory cannot be had, this call and every later
    /// one fails, and the world is sound all the same.
    pub fn ask(&mut self, task: Task, units: u64) -> Result<PyResult<Answer>, RunFault>
        requires { AllHold self.old.world (of_task task) }
        ensures answers { IfOk result (λ end. Asked task self.old.world units self.new.world end) }
        ensures holds { IfOk result (λ end. AllHold self.new.world (of_done of_answer end)) }
        ensures grows { Grows self.old.world self.new.world }
        ensures rests { (t : Reading) → (plain t self.new.world).scopes ≡ [] }
        ensures quiet { (t : Reading) → (plain t self.new.world).calls ≡ [] }
        ensures readable { OnOk result (IsReadable self.new.world) }
        ensures works { OnOk result (self.new.failed ≡ self.old.failed) }
        ensures gives_up { OnErr result (IsTrue self.new.failed) }
        ensures failed { IsTrue self.old.failed → result ≡ Err RunFault.Failed }
        ensures same { IsTrue self.old.failed → self.new ≡ self.old }
        ensures memory { self.old.failed ≡ false → result ≡ Err RunFault.Failed → ⊥ }
        ensures sound { (t : Reading) → IsSound (plain t self.new.world) }
    {
        if self.failed {
            self.world.sound();
            return Err(RunFault::Failed);
        }
        match drive(&mut self.world, &mut self.stack, task, units) {
            Ok(end) => {
                let _starts = self.world.take_calls();
                self.world.readable();
                self.world.sound();
                Ok(result_of(end))
            }
            Err(_) => {
                self.world.end_bodies(0);
                let _left = self.world.take_calls();
                self.failed = true;
                self.world.sound();
                Err(RunFault::OutOfMemory)
            }
        }
    }
}

// The end of a task, as hosts are told it.
fn result_of(end: End) -> PyResult<Answer>
    ensures ending { ending_in result ≡ ending_of end }
    ensures names { of_done of_answer result ≡ of_end end }
{
    match end {
        End::Over(Ok(answer)) => PyResult::Done(answer),
        End::Over(Err(raised)) => PyResult::Raised(raised),
        End::NoUnits => PyResult::Budget,
    }
}
