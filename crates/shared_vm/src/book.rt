//! The book: a machine, and the journal of the commands that it ran.

ghost use Rattle.shared_vm.specs.Below.{[], length, IfOk, OnErr, IfSome, Option, true, false, tree_of, Keeps};
ghost use Rattle.std.specs.Prelude.{◌≡◌, ◌++◌, ◌∷◌};
ghost use Rattle.shared_vm.specs.declared.entry.Entry.{Entry};
ghost use Rattle.shared_vm.specs.Book.{Adds, IsNameOf, IsOf, IsTrue, Stepped, Tells};

use crate::entry::{Entry, ExecFault, Receipt};
use crate::number::next_number;
use crate::shared::Closed;
use crate::single::run_single;
use py_node::{Command, OutOfMemory, PyStrInterned};
use seat_lock::Turns;
use std::alloc::Global;
use std::marker::Model;
use vm_eval::VirtualMachine;

/// A machine, and the journal of the commands that it ran. The journal is legal, and while the machine has not failed
/// its world is the one that the journal's commands leave.
#[derive(Drop)]
pub struct Book {
    pub(crate) machine: VirtualMachine,
    pub(crate) journal: Vec<Entry>,
}

impl Model for Book {
    ghost use Rattle.shared_vm.specs.Book.{Pages, IsTrue};

    ghost Value = { Pages };

    ghost use Rattle.std.specs.Coded.{codes};
    ghost use Rattle.py_node.specs.contracts.expr.Expr as expr;

    ghost coded = { Prim.hlevel (codes, expr.the_row.coded) };

    ghost view = { λ a. record { machine = a.machine; journal = a.journal.items } };

    ghost invariant = { λ a. IsTrue (record { machine = a.machine; journal = a.journal.items }) };
}

impl Turns for Book {
    ghost use Rattle.shared_vm.specs.Turns.{Stands};

    type Entry = Entry;

    ghost stands = { Stands };
}

impl Book {
    /// A new machine with an empty journal.
    pub fn new(alloc: Global) -> Result<Book, OutOfMemory>
        ensures journal { IfOk result (λ book. book.journal ≡ []) }
        ensures clear { IfOk result (λ book. book.machine.failed ≡ false) }
    {
        let machine = VirtualMachine::new(alloc)?;
        machine.world().readable();
        Ok(Book {
            machine,
            journal: Vec::new(alloc),
        })
    }

    /// Runs a command of a seat with so many units and adds its entry. The receipt tells of it. Where memory can't be
    /// had the machine has failed, whether the entry stands or not, and no later step does anything. Each change of classes
    /// that the machine has logged stands in its place still.
    pub fn step(&mut self, seat: u32, command: Command, budget: u64) -> Result<Receipt, ExecFault>
        ensures step { Stepped self.old self.new seat (tree_of command.expr) budget result }
        ensures log { Keeps self.old.machine.world.log self.new.machine.world.log }
        ensures keeps { IsTrue self.new }
    {
        if self.machine.has_failed() {
            return Err(ExecFault::Failed {
                after: self.journal.len(),
            });
        }
        match self.add(seat, command, budget) {
            Ok(receipt) => Ok(receipt),
            Err(_) => {
                self.machine.fail();
                Err(ExecFault::OutOfMemory)
            }
        }
    }

    /// The name of a text, if one of the machine's names is, also where the machine has failed. It takes no memory.
    pub fn interned(&self, text: &str) -> Option<PyStrInterned>
        ensures name { IsNameOf result self.now text.now }
        ensures keeps { IsTrue self.now }
    {
        self.machine.world().names().interned_str(text)
    }

    /// The machine.
    pub fn machine(&self) -> &VirtualMachine
        ensures { result.now ≡ self.now.machine }
    {
        &self.machine
    }

    /// The commands that the machine ran, in their order.
    pub fn journal(&self) -> &[Entry]
        ensures journal { result.now ≡ self.now.journal }
        ensures keeps { IsTrue self.now }
    {
        &self.journal
    }

    /// Ends the book.
    pub fn into_closed(self) -> Closed
        ensures journal { result.journal.items ≡ self.journal }
        ensures machine { result.machine ≡ self.machine }
        ensures keeps { IsTrue self }
    {
        let Book { machine, journal } = self;
        Closed { journal, machine }
    }

    // Runs a command and adds its entry, for which there is room before the command runs.
    fn add(&mut self, seat: u32, command: Command, budget: u64) -> Result<Receipt, OutOfMemory>
        requires { self.old.machine.failed ≡ false }
        ensures log { Keeps self.old.machine.world.log self.new.machine.world.log }
        ensures clear { IfOk result (λ r. self.new.machine.failed ≡ false) }
        ensures added { IfOk result (λ r. (e : Entry) × (self.new.journal ≡ self.old.journal ++ e ∷ []) ×
            IsOf seat (tree_of command.expr) budget e × Tells r (length self.old.journal) e) }
        ensures left { OnErr result ((left : Option Entry) × Adds self.old.journal self.new.journal left ×
            IfSome left (IsOf seat (tree_of command.expr) budget)) }
    {
        let alloc = self.machine.world().alloc();
        self.journal.reserve(1)?;
        let told = command.try_clone(alloc)?;
        let number = next_number(&self.journal, seat);
        let place = self.journal.len();
        let reply = run_single(&mut self.machine, &command, budget)?;
        let copy = reply.try_clone(alloc);
        self.journal.push_reserved(Entry {
            seat,
            number,
            command,
            budget,
            reply,
        });
        Ok(Receipt {
            place,
            seat,
            command: told,
            reply: copy?,
        })
    }
}
