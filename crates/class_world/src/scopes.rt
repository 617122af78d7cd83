//! Running bodies and variables.

ghost use Rattle.class_world.specs.Below.{[], suc, map, length, take, OnOk, OnErr, IfSome, started_of, at_depth, without_calls, variable, with_binding, with_scope, without_scope};
ghost use Rattle.std.specs.Prelude.{◌≡◌, ◌-◌};
ghost use Rattle.class_world.specs.Reading.{Reading, Reads, bindings, plain};
ghost use Rattle.class_world.specs.Sound.{IsNode, IsName, HasValues, Holds, AllHold, Lasts, Grows, of_binding, of_each};

use crate::scope::Scope;
use crate::variables::{bind_in, value_in};
use crate::world::World;
use py_node::{BodyCall, OutOfMemory, PyAttributes, PyObjectRef, PyStrInterned};
use std::mem;

#[tactic(auto, unfolding(crate::specs::Reading::plain))]
impl World {
    /// How many bodies run.
    pub fn depth(&self) -> usize
        ensures { length self.now.scopes ≡ result }
    {
        self.scopes.len()
    }

    /// All bodies but the first so many are over: their scopes are taken away.
    pub fn end_bodies(&mut self, depth: usize)
        ensures ended { (t : Reading) → plain t self.new ≡ at_depth depth (plain t self.old) }
        ensures bodies { self.new.scopes ≡ take depth self.old.scopes }
        ensures reads { (t : Reading) → Reads t self.new → Reads t self.old }
        ensures lasts { Lasts self.old self.new }
    {
        self.scopes.truncate(depth);
    }

    /// Takes the notes of the bodies that were started: none are left.
    pub fn take_calls(&mut self) -> Vec<BodyCall>
        ensures calls { (t : Reading) → map started_of result.items ≡ (plain t self.old).calls }
        ensures taken { (t : Reading) → plain t self.new ≡ without_calls (plain t self.old) }
        ensures rests { self.new.calls ≡ [] }
        ensures bodies { self.new.scopes ≡ self.old.scopes }
        ensures reads { (t : Reading) → Reads t self.new → Reads t self.old }
        ensures lasts { Lasts self.old self.new }
    {
        let alloc = self.alloc;
        mem::replace(&mut self.calls, Vec::new(alloc))
    }

    /// A variable, of the running body or else of the machine.
    pub fn variable(&self, name: PyStrInterned) -> Option<PyObjectRef>
        requires { Holds self.now (IsName name) }
        ensures found { (t : Reading) → variable (plain t self.now) (t.text name.0) ≡ result }
        ensures node { IfSome result (λ r. Holds self.now (IsNode r)) }
    {
        value_in(&self.scopes, &self.vars, name)
    }

    /// Binds a variable, of the running body or else of the machine.
    pub fn bind(&mut self, name: PyStrInterned, value: PyObjectRef) -> Result<(), OutOfMemory>
        requires name { Holds self.old (IsName name) }
        requires value { Holds self.old (IsNode value) }
        ensures bound { OnOk result ((t : Reading) → plain t self.new ≡
            with_binding (plain t self.old) (t.text name.0) value) }
        ensures err { OnErr result (self.new ≡ self.old) }
        ensures reads { (t : Reading) → Reads t self.new → Reads t self.old }
        ensures grows { Grows self.old self.new }
    {
        bind_in(&mut self.scopes, &mut self.vars, name, value)
    }

    /// A body of a function begins: its scope, in which each parameter has a value, and the note of its
    /// start. Where memory runs out, there is neither.
    pub fn open_scope(
        &mut self,
        func: PyObjectRef,
        vars: PyAttributes,
        start: BodyCall,
    ) -> Result<(), OutOfMemory>
        requires func { Holds self.old (IsNode func) }
        requires vars { AllHold self.old (of_each of_binding vars) }
        requires values { Holds self.old (HasValues func vars) }
        ensures opened { OnOk result ((t : Reading) → plain t self.new ≡
            with_scope (plain t self.old) (record { func = func; vars = bindings t vars }) (started_of start)) }
        ensures bodies { OnOk result (length self.new.scopes ≡ suc (length self.old.scopes)) }
        ensures err { OnErr result (self.new ≡ self.old) }
        ensures reads { (t : Reading) → Reads t self.new → Reads t self.old }
        ensures lasts { Lasts self.old self.new }
    {
        let _count = vars.len();
        self.scopes.reserve(1)?;
        self.calls.reserve(1)?;
        self.scopes.push_reserved(Scope { func, vars });
        self.calls.push_reserved(start);
        Ok(())
    }

    /// A body is over: its scope is taken away.
    pub fn close_scope(&mut self)
        ensures closed { (t : Reading) → plain t self.new ≡ without_scope (plain t self.old) }
        ensures bodies { length self.new.scopes ≡ length self.old.scopes - 1 }
        ensures reads { (t : Reading) → Reads t self.new → Reads t self.old }
        ensures lasts { Lasts self.old self.new }
    {
        let _ = self.scopes.pop();
    }
}
