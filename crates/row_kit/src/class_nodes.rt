//! The objects that stand for classes.

ghost use Rattle.row_kit.specs.Below.{ℕ, map, IfOk, Includes, numbers, ref, AreNodes, IsClass, Holds};
ghost use Rattle.std.specs.Prelude.{◌≡◌};

use class_world::World;
use py_node::{OutOfMemory, PyObjectRef, PyTypeRef};

/// The objects that stand for some classes, in order.
pub fn class_nodes(world: &World, classes: &[PyTypeRef]) -> Result<Vec<PyObjectRef>, OutOfMemory>
    requires { (c : ℕ) → Includes (numbers classes.now) c → Holds world.now (IsClass c) }
    ensures items { IfOk result (λ v. v.items ≡ map ref (numbers classes.now)) }
    ensures holds { IfOk result (λ v. Holds world.now (AreNodes v.items)) }
{
    let mut nodes = Vec::new(world.alloc());
    for class in classes {
        nodes.push(world.class_node(*class))?;
    }
    Ok(nodes)
}
