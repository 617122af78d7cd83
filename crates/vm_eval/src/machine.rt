//! The virtual machine: a world, and whether a run of it found no memory.

ghost use Rattle.vm_eval.specs.Below.{[], map, IfErr, IfOk, OnOk, OnErr, Err, IsTrue, false, true, change_of, AreSameButForNames, AreMade, shown, first_classes, start, Reading, Reads, plain, IsReadable, IsSound, Grows};
ghost use Rattle.std.specs.Prelude.{◌≡◌, ◌≤◌};
ghost use Rattle.vm_eval.specs.Runs.{Runs};

use crate::run::replies;
use crate::stack::{DEPTH, Kept};
use class_table::class_log::ClassChange;
use class_world::World;
use py_node::{Command, OutOfMemory, Reply};
use std::alloc::Global;
use std::marker::Model;

/// Why commands have no replies: memory could not be had, or an earlier run found none.
#[derive(Clone, Copy, PartialEq, Eq, Debug)]
pub enum RunFault {
    OutOfMemory,
    Failed,
}

impl From<OutOfMemory> for RunFault {
    fn from(_: OutOfMemory) -> RunFault {
        RunFault::OutOfMemory
    }
}

/// The machine that runs commands.
#[derive(Drop)]
pub struct VirtualMachine {
    pub(crate) world: World,
    pub(crate) stack: Vec<Kept>,
    pub(crate) failed: bool,
}

impl Model for VirtualMachine {
    ghost use Rattle.std.specs.Prelude.{◌≡◌, ◌≤◌, [], vec_capacity};
    ghost use Rattle.vm_eval.specs.State.{State};

    ghost Value = { State };

    ghost view = { λ a. record { world = a.world; failed = a.failed; frames = vec_capacity a.stack } };

    // No body runs, no start of one is noted, and there is room for 1,000 frames.
    ghost invariant = { λ a. (a.world.scopes ≡ []) × (a.world.calls ≡ []) × (1000 ≤ vec_capacity a.stack) };
}

impl VirtualMachine {
    /// A new machine, with the built-in classes, no variables and no running body. Room for 1,000 frames is
    /// reserved.
    pub fn new(alloc: Global) -> Result<VirtualMachine, OutOfMemory>
        ensures start { IfOk result (λ vm. (t : Reading) → Reads t vm.world → plain t vm.world ≡ start) }
        ensures rests { IfOk result (λ vm. (t : Reading) → (plain t vm.world).scopes ≡ []) }
        ensures quiet { IfOk result (λ vm. (t : Reading) → (plain t vm.world).calls ≡ []) }
        ensures clear { IfOk result (λ vm. vm.failed ≡ false) }
        ensures frames { IfOk result (λ vm. 1000 ≤ vm.frames) }
    {
        let world = World::new(alloc)?;
        let stack = Vec::with_capacity(alloc, DEPTH)?;
        world.readable();
        Ok(VirtualMachine {
            world,
            stack,
            failed: false,
        })
    }

    /// The room for 1,000 frames that `new` reserved is there still: no call gives it back.
    pub fn has_room(&self)
        ensures { 1000 ≤ self.now.frames }
    {
        let _frames = self.stack.len();
    }

    /// Between calls no body runs, and no note of one is left that a later reply could tell.
    pub fn is_at_rest(&self)
        ensures rests { (t : Reading) → (plain t self.now.world).scopes ≡ [] }
        ensures quiet { (t : Reading) → (plain t self.now.world).calls ≡ [] }
    {
        let _frames = self.stack.len();
    }

    /// The machine's world.
    pub fn world(&self) -> &World
        ensures { result.now ≡ self.now.world }
    {
        &self.world
    }

    /// The accepted changes of classes, in the order in which they were made since the machine was new, by scripts and by
    /// the host. What they show are the classes of the machine's world but for their names, of which no change tells. Each
    /// was made in its turn, so that a replica can follow the log.
    pub fn class_log(&self) -> &[ClassChange]
        ensures log { map change_of result.now ≡ self.now.world.log }
        ensures shown { AreSameButForNames (shown (map change_of result.now)) self.now.world.classes }
        ensures made { AreMade first_classes (map change_of result.now) }
    {
        self.world.class_log()
    }

    /// Runs commands, each of which may use so many units. The replies are the plain machine's, and so
    /// is the world after them, which is sound; however the commands end, no body is left running and none noted.
    /// Where memory cannot be had, this run and every later one fails, and the world is sound all the
    /// same; no commands take no memory.
    pub fn run(&mut self, commands: &[Command], units: u64) -> Result<Vec<Reply>, RunFault>
        ensures runs { IfOk result (λ replies. Runs commands.now self.old.world units self.new.world replies.items) }
        ensures grows { Grows self.old.world self.new.world }
        ensures rests { (t : Reading) → (plain t self.new.world).scopes ≡ [] }
        ensures quiet { (t : Reading) → (plain t self.new.world).calls ≡ [] }
        ensures readable { OnOk result (IsReadable self.new.world) }
        ensures works { OnOk result (self.new.failed ≡ self.old.failed) }
        ensures gives_up { OnErr result (IsTrue self.new.failed) }
        ensures failed { IsTrue self.old.failed → result ≡ Err RunFault.Failed }
        ensures same { IsTrue self.old.failed → self.new ≡ self.old }
        ensures memory { self.old.failed ≡ false → result ≡ Err RunFault.Failed → ⊥ }
        ensures idle { commands.now ≡ [] → self.old.failed ≡ false → IfErr result (λ _. ⊥) }
        ensures sound { (t : Reading) → IsSound (plain t self.new.world) }
    {
        if self.failed {
            self.world.sound();
            return Err(RunFault::Failed);
        }
        match replies(&mut self.world, &mut self.stack, commands, units) {
            Ok(replies) => {
                self.world.readable();
                self.world.sound();
                Ok(replies)
            }
            Err(_) => {
                self.world.end_bodies(0);
                let _left = self.world.take_calls();
                self.failed = true;
                self.world.sound();
                Err(RunFault::OutOfMemory)
            }
        }
    }
}
