//! The names of attributes as new texts, with their values.

ghost use Rattle.row_kit.specs.Below.{[], IfOk, OnOk, the_str, AText, with_node, next_node, of_entries, Reading, Reads, bindings, plain, spelled, AllHold, Grows, IsName, IsNode, Holds, of_binding, of_each};
ghost use Rattle.std.specs.Prelude.{◌≡◌};
ghost use Rattle.row_kit.specs.ClassAttributes.{keyed};

use class_world::World;
use py_node::{BuiltIn, OutOfMemory, Payload, PyAttributes, PyObjectRef, PyStrInterned};

// Keys with their values.
type Entries = Vec<(PyObjectRef, PyObjectRef)>;

/// A new text for each name, in order, with its value.
pub fn key_all(world: &mut World, attrs: &PyAttributes) -> Result<Entries, OutOfMemory>
    requires { AllHold world.old (of_each of_binding attrs.now) }
    ensures keyed { IfOk result (λ v. (t : Reading) → Reads t world.new →
        keyed (plain t world.old) [] (bindings t attrs.now) ≡ (plain t world.new, v.items)) }
    ensures reads { (t : Reading) → Reads t world.new → Reads t world.old }
    ensures grows { Grows world.old world.new }
    ensures holds { IfOk result (λ v. AllHold world.new (of_entries v.items)) }
{
    let mut entries = Vec::new(world.alloc());
    for i in 0..attrs.len() {
        let (name, value) = attrs.at(i);
        let key = new_key(world, name)?;
        entries.push((key, value))?;
    }
    world.readable();
    Ok(entries)
}

// A new text: that of a name.
#[tactic(auto, unfolding(py_node::specs::BuiltIns::place_of))]
fn new_key(world: &mut World, name: PyStrInterned) -> Result<PyObjectRef, OutOfMemory>
    requires { Holds world.old (IsName name) }
    ensures made { OnOk result ((t : Reading) → Reads t world.old → plain t world.new ≡
        with_node (plain t world.old) the_str (AText (spelled t name))) }
    ensures number { IfOk result (λ r. (t : Reading) → r ≡ next_node (plain t world.old) the_str) }
    ensures reads { (t : Reading) → Reads t world.new → Reads t world.old }
    ensures grows { Grows world.old world.new }
    ensures node { IfOk result (λ r. Holds world.new (IsNode r)) }
{
    let text = world.spelling(name)?;
    let class = world.built_in(BuiltIn::Str);
    world.make_node(class, Payload::Text(text))
}
