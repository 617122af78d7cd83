//! Whole numbers as ints, their hashes, and the truth value that an object is.

ghost use Rattle.py_node.specs.Stops.{Ended};
ghost use Rattle.row_kit.specs.Below.{Reading, plain, Holds, IsNode, class_at, EndsAs, LeavesEnd};
ghost use Rattle.std.specs.Prelude.{◌≡◌};
ghost use Rattle.row_kit.specs.IntValues.{truth_of, as_int, is_int, number_hash};

use crate::give::new_int;
use class_world::{Fixed, World};
use py_node::{Answer, BuiltIn, PyObjectRef, Stop};

/// The truth value that an object is, if it is one.
pub fn truth_of(object: PyObjectRef) -> Option<bool>
    ensures { result ≡ truth_of object }
{
    if object.0 == Fixed::False.node().0 {
        Some(false)
    } else if object.0 == Fixed::True.node().0 {
        Some(true)
    } else {
        None
    }
}

/// A number as an int: an int of no other class is itself.
pub fn as_int(world: &mut World, o: PyObjectRef, z: i128) -> Result<Answer, Stop>
    requires { Holds world.old (IsNode o) }
    ensures ends { Ended result (EndsAs (λ t u. as_int u o z) world.old world.new) }
    ensures safe { LeavesEnd world.old world.new result }
{
    if is_int(world, o) {
        Ok(Answer::Value(o))
    } else {
        new_int(world, Ok(z))
    }
}

/// Whether the class of an object is `int` itself.
#[tactic(auto, unfolding(py_node::specs::BuiltIns::place_of))]
pub fn is_int(world: &World, o: PyObjectRef) -> bool
    requires { Holds world.now (IsNode o) }
    ensures { (t : Reading) → is_int (class_at (plain t world.now) o) ≡ result }
{
    world.class_of(o).0 == BuiltIn::Int.class().0
}

/// The lowest 64 bits of a number, with their sign.
pub fn number_hash(z: i128) -> i64
    ensures { result ≡ number_hash z }
{
    let low = z.rem_euclid(0x1_0000_0000_0000_0000) as u64;
    low.cast_signed()
}
