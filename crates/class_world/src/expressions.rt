//! The store of expressions.

ghost use Rattle.class_world.specs.Below.{IfOk, Some, OnErr, slice_get};
ghost use Rattle.std.specs.Prelude.{◌≡◌};
ghost use Rattle.class_world.specs.Reading.{Reading, Reads, plain, form_tree};
ghost use Rattle.class_world.specs.Sound.{IsExpression, Holds, Grows, AllHold, of_form};

use crate::world::World;
use py_node::{ExprRef, Form, OutOfMemory};

#[tactic(auto, unfolding(crate::specs::Reading::plain))]
impl World {
    /// What an expression is.
    pub fn form(&self, expr: ExprRef) -> &Form
        requires { Holds self.now (IsExpression expr) }
        ensures stored { slice_get self.now.forms expr.0 ≡ Some result.now }
        ensures reads { (t : Reading) → Reads t self.now → t.tree expr.0 ≡ form_tree t.text t.tree result.now }
        ensures holds { AllHold self.now (of_form result.now) }
    {
        &self.forms[expr.0 as usize]
    }

    /// One more expression, of names and expressions that are there.
    pub fn add_form(&mut self, form: Form) -> Result<ExprRef, OutOfMemory>
        requires { AllHold self.old (of_form form) }
        ensures added { IfOk result (λ e. (t : Reading) → Reads t self.new → t.tree e.0 ≡ form_tree t.text t.tree form) }
        ensures err { OnErr result (self.new ≡ self.old) }
        ensures same { (t : Reading) → plain t self.new ≡ plain t self.old }
        ensures reads { (t : Reading) → Reads t self.new → Reads t self.old }
        ensures grows { Grows self.old self.new }
        ensures holds { IfOk result (λ e. Holds self.new (IsExpression e)) }
    {
        let number = self.forms.len();
        self.forms.push(form)?;
        Ok(ExprRef(number as u64))
    }
}
