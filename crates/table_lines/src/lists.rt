//! Lists of classes and of names, of which classes are made.

ghost use Rattle.std.specs.Prelude.{◌≡◌, ◌∷◌, [], IfOk};
ghost use Rattle.class_world.specs.Held.{Held};
ghost use Rattle.class_world.specs.Sound.{AreNames, Holds, IsName};

use py_node::{OutOfMemory, PyStrInterned, PyTypeRef};
use std::alloc::Global;

/// A list of one class.
pub fn one_class(alloc: Global, class: PyTypeRef) -> Result<Vec<PyTypeRef>, OutOfMemory>
    ensures { IfOk result (λ v. v.items ≡ class ∷ []) }
{
    Ok(vec![in alloc; class]?)
}

/// A list of one name.
pub fn one_name(alloc: Global, name: PyStrInterned) -> Result<Vec<PyStrInterned>, OutOfMemory>
    ensures { IfOk result (λ v. (w : Held) → Holds w (IsName name) → Holds w (AreNames v.items)) }
{
    Ok(vec![in alloc; name]?)
}

/// No names.
pub fn no_names(alloc: Global) -> Vec<PyStrInterned>
    ensures { (w : Held) → Holds w (AreNames result.items) }
{
    Vec::new(alloc)
}
