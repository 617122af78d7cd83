//! What rows ask of one object or one text: whether it is NotImplemented, and whether it has a null.

ghost use Rattle.row_kit.specs.Below.{true, is_not_implemented};
ghost use Rattle.std.specs.Prelude.{◌≡◌};
ghost use Rattle.row_kit.specs.Questions.{has_null};

use class_world::Fixed;
use py_node::PyObjectRef;

/// Whether an object is NotImplemented.
pub fn is_not_implemented(object: PyObjectRef) -> bool
    ensures { result ≡ is_not_implemented object }
{
    object.0 == Fixed::NotImplemented.node().0
}

/// Whether a name has a null character.
pub fn has_null(name: &str) -> bool
    ensures { result ≡ has_null name.now }
{
    let bytes = name.as_bytes();
    for byte in bytes {
        if *byte == 0 {
            return true;
        }
    }
    false
}
