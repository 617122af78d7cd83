//! Methods that are loaded to be called at once, beside attributes that are read.

ghost use Rattle.vm_calls.specs.Loaded.{InvokedIsCalled, LoadedIsRead};

use crate::answer_kinds::answers_are_of_their_kinds;
use crate::attribute_laws::methods::{every_world_is_usual, laws_of_methods};
use vm_eval::VirtualMachine;

/// Loading a method and calling what was loaded does what reading the attribute and calling that does.
///
/// Where `method_get` tells a function with its target, that is the object itself, and nothing has changed. `get_attr` of the
/// same object and name, with two units at least, would have told a new method of just these two. And `invoke` of a function
/// with its target tells what `call` tells of a method of just these two, and leads to the same world.
pub fn loaded_methods_are_read(vm: &VirtualMachine)
    ensures read { LoadedIsRead vm.now }
    ensures called { InvokedIsCalled vm.now }
{
    answers_are_of_their_kinds();
    laws_of_methods();
    every_world_is_usual(vm.world());
    vm.is_at_rest();
}
