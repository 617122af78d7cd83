//! The arguments of a call: objects that are there.

ghost use Rattle.std.specs.Prelude.{IfOk};
ghost use Rattle.class_world.specs.Held.{Held};
ghost use Rattle.class_world.specs.Sound.{AreNodes, Holds, IsNode};

use py_node::PyObjectRef;
use std::alloc::{AllocError, Global};

/// No arguments.
#[tactic(auto, unfolding(class_world::specs::Sound::Holds))]
pub fn none(alloc: Global) -> Vec<PyObjectRef>
    ensures { (w : Held) → Holds w (AreNodes result.items) }
{
    Vec::new(alloc)
}

/// One argument.
#[tactic(auto, unfolding(class_world::specs::Sound::Holds))]
pub fn one(alloc: Global, object: PyObjectRef) -> Result<Vec<PyObjectRef>, AllocError>
    ensures { IfOk result (λ v. (w : Held) → Holds w (IsNode object) → Holds w (AreNodes v.items)) }
{
    Vec::from_slice(alloc, &[object])
}
