//! Methods that are loaded to be called at once.

ghost use Rattle.vm_calls.specs.AttributeLaws.Methods.{IsUsual, MethodAsksIt, NativeIsAsked, ReadIsAMethod, TargetIsFirst};
ghost use Rattle.vm_calls.specs.Below.{Reading, plain};

use class_world::World;

/// Loading a method and calling what was loaded does what reading the attribute and calling the method does. Where a
/// function is loaded with its target, no method is made; the read would have made one, of just these two, and have
/// answered with it. What was loaded is called with the target before the arguments, and the call of the method asks
/// the same: the very call, or of a native what that call asks.
pub fn laws_of_methods()
    ensures read { ReadIsAMethod }
    ensures first { TargetIsFirst }
    ensures method { MethodAsksIt }
    ensures native { NativeIsAsked }
{}

/// What these laws ask of a world is so of each, and so of a machine's at any time.
pub fn every_world_is_usual(world: &World)
    ensures { (t : Reading) → IsUsual (plain t world.now) }
{
    world.sound();
    world.keeps_built_ins();
}
