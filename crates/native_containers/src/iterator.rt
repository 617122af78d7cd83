//! The natives of iterators.

ghost use Rattle.std.specs.Prelude.{◌≡◌};
ghost use Rattle.native_containers.specs.Below.{of_ended, Reading, bindings, AllHold, AreNodes, Holds, EndsAs};
ghost use Rattle.native_containers.specs.Say.{iterator_say};

use crate::receivers::lone;
use class_world::World;
use py_node::{Answer, Cause, FuncArgs, IteratorNative, Raised};
use row_kit::take_containers::Kind;

/// A native of iterators.
pub fn iterator_native(
    world: &World,
    native: IteratorNative,
    call: FuncArgs<'_>,
) -> Result<Answer, Raised>
    requires { Holds world.now (AreNodes call.args.now) }
    ensures ends { EndsAs (λ t u. iterator_say u native call.entry.args.now (bindings t call.entry.kw.now)) world.now world.now result }
    ensures holds { AllHold world.now (of_ended result) }
{
    match native {
        IteratorNative::Iter => {
            let iterator = lone(world, Kind::Iterator, call)?;
            Ok(Answer::Value(iterator))
        }
        IteratorNative::Next => Err(Raised::new(Cause::SelfType)),
    }
}
