//! Numbers and texts of a host as objects of a machine, and back.

ghost use Rattle.vm_calls.specs.Below.{[], None, true, false, length, nat_le, option_map, string_bytes, the_int, the_str, ANumber, AText, most_items, datum_at, number_of, Reading, plain, Holds, IsNode};
ghost use Rattle.std.specs.Prelude.{◌≡◌, ◌∷◌};
ghost use Rattle.vm_calls.specs.Told.{Keeps};
ghost use Rattle.vm_calls.specs.Values.{text_of};
ghost use Rattle.vm_calls.specs.Views.{MakesNode, TellsNew, lacks};

use crate::asked::lacking;
use crate::made::new_node;
use class_world::limits::is_within_limit;
use py_node::{BuiltIn, Cause, Payload, PyObjectRef, PyResult};
use vm_eval::{RunFault, VirtualMachine};

/// The number that an object holds: an int's, and 1 or 0 of True or False. `None` for any other object.
pub fn int_of(vm: &VirtualMachine, object: PyObjectRef) -> Option<i128>
    requires { Holds vm.now.world (IsNode object) }
    ensures { (t : Reading) → number_of (datum_at (plain t vm.now.world) object) ≡ result }
{
    vm.world().number(object)
}

/// The text that an object of `str`, or of a class below it, holds. `None` for any other object.
pub fn text_of(vm: &VirtualMachine, object: PyObjectRef) -> Option<&str>
    requires { Holds vm.now.world (IsNode object) }
    ensures { (t : Reading) → text_of (datum_at (plain t vm.now.world) object) ≡ option_map (λ s. s.now) result }
{
    match vm.world().payload(object) {
        Payload::Text(text) => Some(text.as_str()),
        _ => None,
    }
}

/// A new int. Where memory cannot be had, this call and every later one fails.
#[tactic(auto, unfolding(py_node::specs::BuiltIns::place_of))]
pub fn new_int(vm: &mut VirtualMachine, number: i128) -> Result<PyObjectRef, RunFault>
    ensures { MakesNode the_int (λ t. ANumber number) vm.old vm.new result }
{
    let class = vm.world().built_in(BuiltIn::Int);
    new_node(vm, class, Payload::Number(number))
}

/// A new str. A text of more than 2^24 bytes raises `OverflowError` with the cause `TooLong`, as it does wherever one is
/// made, and changes nothing. Where memory cannot be had, this call and every later one fails.
pub fn new_text(vm: &mut VirtualMachine, text: String) -> Result<PyResult<PyObjectRef>, RunFault>
    ensures made { nat_le (length (string_bytes text)) most_items ≡ true →
        TellsNew the_str (λ t. AText (string_bytes text)) vm.old vm.new result }
    ensures too_long { nat_le (length (string_bytes text)) most_items ≡ false →
        Keeps (lacks Cause.TooLong) vm.old vm.new result }
{
    if !is_within_limit(text.len()) {
        return lacking(vm, Cause::TooLong);
    }
    let node = new_str(vm, text)?;
    Ok(PyResult::Done(node))
}

// A new str of a text that is not too long.
#[tactic(auto, unfolding(py_node::specs::BuiltIns::place_of))]
fn new_str(vm: &mut VirtualMachine, text: String) -> Result<PyObjectRef, RunFault>
    ensures { MakesNode the_str (λ t. AText (string_bytes text)) vm.old vm.new result }
{
    let class = vm.world().built_in(BuiltIn::Str);
    new_node(vm, class, Payload::Text(text))
}
