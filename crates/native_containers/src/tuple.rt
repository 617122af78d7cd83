//! The natives of tuples.

ghost use Rattle.py_node.specs.Stops.{Ended};
ghost use Rattle.native_containers.specs.Below.{Reading, bindings, AreNodes, Holds, EndsAs, LeavesEnd, tuple_made};
ghost use Rattle.std.specs.Prelude.{◌≡◌};
ghost use Rattle.native_containers.specs.Say.{tuple_say, with_joined};
ghost use Rattle.row_kit.specs.declared.take_containers.Kind.TheVariants as kind;

use crate::sequence::{iter, joined, length};
use class_world::World;
use py_node::{Answer, Cause, FuncArgs, Stop, TupleNative};
use row_kit::give_containers::new_tuple;
use row_kit::take_containers::Kind;

/// A native of tuples.
pub fn tuple_native(
    world: &mut World,
    native: TupleNative,
    call: FuncArgs<'_>,
) -> Result<Answer, Stop>
    requires { Holds world.old (AreNodes call.args.now) }
    ensures ends { Ended result (EndsAs (λ t u. tuple_say u native call.entry.args.now (bindings t call.entry.kw.now))
        world.old world.new) }
    ensures safe { LeavesEnd world.old world.new result }
{
    match native {
        TupleNative::Length => Ok(length(world, Kind::Tuple, call)?),
        TupleNative::Iter => iter(world, Kind::Tuple, call),
        TupleNative::Add => add(world, call),
        _ => Err(Stop::raise(Cause::SelfType)),
    }
}

// Two tuples after one another, as a new one.
fn add(world: &mut World, call: FuncArgs<'_>) -> Result<Answer, Stop>
    requires { Holds world.old (AreNodes call.args.now) }
    ensures ends { Ended result (EndsAs (λ t u.
        with_joined kind.Tuple u call.entry.args.now (bindings t call.entry.kw.now) (tuple_made u)) world.old world.new) }
    ensures safe { LeavesEnd world.old world.new result }
{
    let items = joined(world, Kind::Tuple, call)?;
    new_tuple(world, items)
}
