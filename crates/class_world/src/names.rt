//! Names: their numbers and their texts.

ghost use Rattle.class_world.specs.Below.{IfOk, OnOk, OnErr, string_bytes, known_text, number_of};
ghost use Rattle.std.specs.Prelude.{◌≡◌};
ghost use Rattle.class_world.specs.Names.{AddsName};
ghost use Rattle.class_world.specs.Reading.{Reading, Reads, plain};
ghost use Rattle.class_world.specs.Sound.{IsName, Holds, Grows};

use crate::world::World;
use py_node::{Known, Names, OutOfMemory, PyStrInterned};

#[tactic(auto, unfolding(crate::specs::Reading::plain))]
impl World {
    /// The names, by themselves.
    pub fn names(&self) -> &Names
        ensures { result.now ≡ self.now.names }
    {
        &self.names
    }

    /// A name that every world knows.
    pub fn known(&self, name: Known) -> PyStrInterned
        ensures spelled { (t : Reading) → Reads t self.now → t.text result.0 ≡ known_text name }
        ensures number { result ≡ record { 0 = number_of name } }
        ensures holds { Holds self.now (IsName result) }
    {
        let _names = &self.names;
        name.interned()
    }

    /// The name of a text, which may be new.
    pub fn intern(&mut self, text: &str) -> Result<PyStrInterned, OutOfMemory>
        ensures spelled { IfOk result (λ x. (t : Reading) → Reads t self.new → t.text x.0 ≡ text.now) }
        ensures adds { OnOk result (AddsName self.old self.new text.now) }
        ensures err { OnErr result (self.new ≡ self.old) }
        ensures same { (t : Reading) → plain t self.new ≡ plain t self.old }
        ensures reads { (t : Reading) → Reads t self.new → Reads t self.old }
        ensures grows { Grows self.old self.new }
        ensures holds { IfOk result (λ x. Holds self.new (IsName x)) }
    {
        Ok(self.names.intern(text)?)
    }

    /// The text of a name.
    pub fn spelling(&self, name: PyStrInterned) -> Result<String, OutOfMemory>
        requires { Holds self.now (IsName name) }
        ensures { IfOk result (λ s. (t : Reading) → Reads t self.now → string_bytes s ≡ t.text name.0) }
    {
        let alloc = self.alloc;
        Ok(String::from_str(alloc, self.names.text(name))?)
    }
}
