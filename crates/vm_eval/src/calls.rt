//! What a host does with a machine beside running commands: it looks at the classes and gives names and expressions.
//! Want of memory sets the machine's mark, as in a run.

ghost use Rattle.vm_eval.specs.Below.{true, IfOk, OnOk, OnErr, tree_of, AddsName, Reading, Reads, plain, Holds, Grows, IsName, IsExpression};
ghost use Rattle.std.specs.Prelude.{◌≡◌};
ghost use Rattle.vm_eval.specs.State.{MarkedBy};

use crate::machine::VirtualMachine;
use class_table::ClassTable;
use py_node::{Expr, ExprRef, OutOfMemory, PyStrInterned};
use world_text::expressions::add_expr;

impl VirtualMachine {
    /// Whether the machine has failed: some call found no memory, or a layer above said so.
    pub fn has_failed(&self) -> bool
        ensures { result ≡ self.now.failed }
    {
        self.failed
    }

    /// The machine has failed: a layer above could find no memory of its own for a command. Nothing
    /// else changes.
    pub fn fail(&mut self)
        ensures { self.new ≡ record { world = self.old.world; failed = true; frames = self.old.frames } }
    {
        self.failed = true;
    }

    /// The classes of the machine.
    pub fn classes(&self) -> &ClassTable
        ensures { result.now ≡ self.now.world.classes }
    {
        self.world.classes()
    }

    /// The name of a text, which may be new.
    pub fn intern(&mut self, text: &str) -> Result<PyStrInterned, OutOfMemory>
        ensures err { OnErr result (self.new.world ≡ self.old.world) }
        ensures adds { OnOk result (AddsName self.old.world self.new.world text.now) }
        ensures spelled { IfOk result (λ x. (t : Reading) → Reads t self.new.world → t.text x.0 ≡ text.now) }
        ensures same { (t : Reading) → plain t self.new.world ≡ plain t self.old.world }
        ensures reads { (t : Reading) → Reads t self.new.world → Reads t self.old.world }
        ensures grows { Grows self.old.world self.new.world }
        ensures holds { IfOk result (λ x. Holds self.new.world (IsName x)) }
        ensures mark { MarkedBy self.old self.new result }
    {
        let name = self.world.intern(text);
        self.marked(name)
    }

    /// Puts an expression into the machine's store, and answers its number there.
    pub fn add_expr(&mut self, expr: &Expr) -> Result<ExprRef, OutOfMemory>
        ensures added { IfOk result (λ e. (t : Reading) → Reads t self.new.world → t.tree e.0 ≡ tree_of expr.now) }
        ensures same { (t : Reading) → plain t self.new.world ≡ plain t self.old.world }
        ensures reads { (t : Reading) → Reads t self.new.world → Reads t self.old.world }
        ensures grows { Grows self.old.world self.new.world }
        ensures holds { IfOk result (λ e. Holds self.new.world (IsExpression e)) }
        ensures mark { MarkedBy self.old self.new result }
    {
        let stored = add_expr(&mut self.world, expr);
        self.marked(stored)
    }
}
