//! The body that runs: its function, and its variables.

ghost use Rattle.class_world.specs.Below.{IfSome, in_last, running};
ghost use Rattle.std.specs.Prelude.{◌≡◌};
ghost use Rattle.class_world.specs.Bound.{last_function};
ghost use Rattle.class_world.specs.Reading.{Reading, plain};
ghost use Rattle.class_world.specs.Sound.{IsNode, IsName, Holds};

use crate::scope::Scope;
use crate::variables::last_value;
use crate::world::World;
use py_node::{PyObjectRef, PyStrInterned};

// The function of the last of some scopes.
fn last_function(scopes: &[Scope]) -> Option<PyObjectRef>
    ensures { result ≡ last_function scopes.now }
{
    let count = scopes.len();
    if count == 0 {
        None
    } else {
        Some(scopes[count - 1].func)
    }
}

#[tactic(auto, unfolding(crate::specs::Reading::plain))]
impl World {
    /// The function whose body runs, if any.
    pub fn running(&self) -> Option<PyObjectRef>
        ensures function { (t : Reading) → running (plain t self.now).scopes ≡ result }
        ensures node { IfSome result (λ f. Holds self.now (IsNode f)) }
    {
        last_function(&self.scopes)
    }

    /// A variable of the body that runs.
    pub fn local(&self, name: PyStrInterned) -> Option<PyObjectRef>
        requires { Holds self.now (IsName name) }
        ensures found { (t : Reading) → in_last (plain t self.now).scopes (t.text name.0) ≡ result }
        ensures node { IfSome result (λ r. Holds self.now (IsNode r)) }
    {
        last_value(&self.scopes, name)
    }
}
