//! Whether a number is one of an object, a class, a name or an expression.

ghost use Rattle.class_world.specs.Below.{length, ltb, IsTrue, is_class};
ghost use Rattle.std.specs.Prelude.{◌≡◌, ◌<◌};
ghost use Rattle.class_world.specs.Reading.{Reading, plain};
ghost use Rattle.class_world.specs.Sound.{IsNode, IsClass, IsName, IsExpression, Holds};

use crate::world::World;
use py_node::{ExprRef, PyObjectRef, PyStrInterned, PyTypeRef};

#[tactic(auto, unfolding(crate::specs::Reading::plain, crate::specs::Sound::Holds))]
impl World {
    /// Whether a number is that of an object.
    pub fn is_node(&self, node: PyObjectRef) -> bool
        ensures is { (t : Reading) → ltb node.0 (length (plain t self.now).nodes) ≡ result }
        ensures node { IsTrue result → Holds self.now (IsNode node) }
    {
        node.0 < self.nodes.len() as u64
    }

    /// Whether a number is that of a class.
    pub fn is_class(&self, class: PyTypeRef) -> bool
        ensures is { (t : Reading) → is_class (plain t self.now).classes class.0 ≡ result }
        ensures class { IsTrue result → Holds self.now (IsClass class.0) }
    {
        self.classes.has_class(class)
    }

    /// Whether a number is that of a name.
    pub fn is_name(&self, name: PyStrInterned) -> bool
        ensures is { ltb name.0 (length self.now.names) ≡ result }
        ensures name { IsTrue result → Holds self.now (IsName name) }
    {
        name.0 < self.names.len() as u64
    }

    /// Whether a number is that of an expression.
    pub fn is_expression(&self, expr: ExprRef) -> bool
        ensures is { ltb expr.0 (length self.now.forms) ≡ result }
        ensures expression { IsTrue result → Holds self.now (IsExpression expr) }
    {
        expr.0 < self.forms.len() as u64
    }
}
