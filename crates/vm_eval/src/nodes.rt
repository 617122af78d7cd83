//! Objects that a host makes on a machine.

ghost use Rattle.vm_eval.specs.Below.{[], None, IfOk, OnOk, OnErr, Err, IsTrue, false, IsSound, with_node, next_node, Reading, Reads, datum, plain, IsReadable, AllHold, Grows, Holding, Holds, IsClass, IsNode, IsOf, class_in, home_of, of_payload};
ghost use Rattle.std.specs.Prelude.{◌≡◌};

use crate::machine::{RunFault, VirtualMachine};
use py_node::{Payload, PyObjectRef, PyTypeRef};

impl VirtualMachine {
    /// Makes an object that is no class, after its dict where its class gives it one, and changes nothing else. It
    /// holds what the objects of its class hold. Where memory cannot be had, there is neither, and this call and
    /// every later one fails.
    pub fn make_node(&mut self, class: PyTypeRef, payload: Payload) -> Result<PyObjectRef, RunFault>
        requires class { Holds self.old.world (IsClass class.0) }
        requires of { Holds self.old.world (IsOf class.0 (home_of payload)) }
        requires payload { AllHold self.old.world (of_payload payload) }
        requires other { class_in payload ≡ None }
        ensures made { OnOk result ((t : Reading) → plain t self.new.world ≡
            with_node (plain t self.old.world) class.0 (datum t payload)) }
        ensures number { IfOk result (λ r. (t : Reading) → r ≡ next_node (plain t self.old.world) class.0) }
        ensures node { IfOk result (λ r. Holds self.new.world (IsNode r)) }
        ensures holding { IfOk result (λ r. Holds self.new.world (Holding r (home_of payload))) }
        ensures err { OnErr result (self.new.world ≡ self.old.world) }
        ensures reads { (t : Reading) → Reads t self.new.world → Reads t self.old.world }
        ensures grows { Grows self.old.world self.new.world }
        ensures rests { (t : Reading) → (plain t self.new.world).scopes ≡ [] }
        ensures readable { OnOk result (IsReadable self.new.world) }
        ensures works { OnOk result (self.new.failed ≡ self.old.failed) }
        ensures gives_up { OnErr result (IsTrue self.new.failed) }
        ensures failed { IsTrue self.old.failed → result ≡ Err RunFault.Failed }
        ensures same { IsTrue self.old.failed → self.new ≡ self.old }
        ensures memory { self.old.failed ≡ false → result ≡ Err RunFault.Failed → ⊥ }
        ensures sound { (t : Reading) → IsSound (plain t self.new.world) }
    {
        if self.failed {
            self.world.sound();
            return Err(RunFault::Failed);
        }
        match self.world.make_node(class, payload) {
            Ok(node) => {
                self.world.readable();
                self.world.sound();
                Ok(node)
            }
            Err(_) => {
                self.failed = true;
                self.world.sound();
                Err(RunFault::OutOfMemory)
            }
        }
    }
}
