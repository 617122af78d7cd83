//! What a name names: a variable, or a built-in object.

ghost use Rattle.proto_call.specs.Below.{IfSome, bytes_eq, map, option_map, find, AllHold, Holds, IsName, IsNode, of_step, Reading, Reads};
ghost use Rattle.std.specs.Prelude.{◌≡◌};
ghost use Rattle.proto_call.specs.EvalForms.Say.{built_in_named, class_named, class_names, fixed_named, name_say};
ghost use Rattle.proto_call.specs.EvalForms.Rows.{EndsRow, of_eval_kept};

use crate::eval_forms::EvalKept;
use class_world::{Fixed, World};
use py_node::{Answer, BuiltIn, Cause, PyObjectRef, PyStrInterned, Step};

// A name is that of a variable, or else of a built-in object.
pub(crate) fn name_step(world: &World, name: PyStrInterned) -> Step<EvalKept>
    requires { Holds world.now (IsName name) }
    ensures goes { EndsRow (λ t w. name_say w (t.text name.0)) world.now world.now result }
    ensures safe { AllHold world.now (of_step of_eval_kept result) }
{
    match world.variable(name) {
        Some(node) => Step::End(Ok(Answer::Value(node))),
        None => match built_in_at(world, name) {
            Some(node) => Step::End(Ok(Answer::Value(node))),
            None => Step::raise(Cause::Unbound),
        },
    }
}

// The built-in object of a name.
fn built_in_at(world: &World, name: PyStrInterned) -> Option<PyObjectRef>
    requires { Holds world.now (IsName name) }
    ensures named { (t : Reading) → Reads t world.now → built_in_named (t.text name.0) ≡ result }
    ensures node { IfSome result (λ r. Holds world.now (IsNode r)) }
{
    let text = world.names().text(name);
    match find_class(text) {
        Some(class) => Some(world.built_in_node(class)),
        None => fixed_named(world, text),
    }
}

// The fixed object that a text names.
#[tactic(auto, unfolding(crate::specs::EvalForms::Say::fixed_named))]
fn fixed_named(world: &World, text: &str) -> Option<PyObjectRef>
    ensures named { result ≡ fixed_named text.now }
    ensures node { IfSome result (λ r. Holds world.now (IsNode r)) }
{
    if text == "NotImplemented" {
        Some(world.fixed(Fixed::NotImplemented))
    } else {
        None
    }
}

/// The built-in classes that every body can name, with their names.
pub(crate) const CLASS_NAMES: [(&str, BuiltIn); 12] = [
    ("object", BuiltIn::Object),
    ("type", BuiltIn::TypeType),
    ("int", BuiltIn::Int),
    ("bool", BuiltIn::Bool),
    ("str", BuiltIn::Str),
    ("tuple", BuiltIn::Tuple),
    ("list", BuiltIn::List),
    ("dict", BuiltIn::Dict),
    ("property", BuiltIn::Property),
    ("classmethod", BuiltIn::ClassMethod),
    ("staticmethod", BuiltIn::StaticMethod),
    ("super", BuiltIn::Super),
];

// The names in order.
#[tactic(auto, unfolding(crate::specs::EvalForms::Say::class_names))]
fn all_class_names() -> &'static [(&'static str, BuiltIn)]
    ensures { map (λ row. (row.0.now, row.1)) result.now ≡ class_names }
{
    &CLASS_NAMES
}

// The built-in class that a text names.
fn find_class(text: &str) -> Option<BuiltIn>
    ensures { result ≡ class_named text.now }
{
    class_in(all_class_names(), text)
}

// What stands for a text in the first row that has it.
fn class_in(rows: &[(&str, BuiltIn)], text: &str) -> Option<BuiltIn>
    ensures { result ≡ option_map (λ row. row.1) (find (λ row. bytes_eq text.now row.0.now) rows.now) }
{
    rows.iter().find(|row| text == row.0).map(|row| row.1)
}
