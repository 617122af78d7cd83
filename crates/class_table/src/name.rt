//! The name of a class without the parts before it.

ghost use Rattle.class_table.specs.Below.{true, false, Some, option_map, PyStrInterned, Class, class_at, is_class, is_heap, last_part as past_dots, short_name};
ghost use Rattle.std.specs.Prelude.{◌≡◌};
ghost use Rattle.class_table.specs.Name.{IsLastPart};

use crate::table::ClassTable;
use py_node::PyTypeRef;

/// The part of a name after its last dot.
pub fn last_part(name: &str) -> &str
    ensures part { IsLastPart name.now result.now }
    ensures past { result.now ≡ past_dots name.now }
{
    match name.rsplit_once('.') {
        None => name,
        Some((_, part)) => part,
    }
}

impl ClassTable {
    /// The name of a class: all of it where a script made the class, and else the part after its last dot.
    pub fn name(&self, class: PyTypeRef) -> &str
        requires { is_class self.now class.0 ≡ true }
        ensures short { option_map short_name (class_at self.now class.0) ≡ Some result.now }
        ensures whole { (k : Class PyStrInterned) → class_at self.now class.0 ≡ Some k → is_heap k ≡ true →
            result.now ≡ k.name }
        ensures part { (k : Class PyStrInterned) → class_at self.now class.0 ≡ Some k → is_heap k ≡ false →
            IsLastPart k.name result.now }
    {
        let name = self.slot_name(class);
        if self.is_heap(class) {
            name
        } else {
            last_part(name)
        }
    }
}
