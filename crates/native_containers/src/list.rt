//! The natives of lists.

ghost use Rattle.py_node.specs.Stops.{Ended};
ghost use Rattle.native_containers.specs.Below.{[], Reading, bindings, AreNodes, Holding, Holds, IsNode, EndsAs, LeavesEnd, list_made, items_at};
ghost use Rattle.std.specs.Prelude.{◌≡◌, ◌++◌, ◌∷◌};
ghost use Rattle.py_node.specs.declared.built_in.BuiltIn.TheVariants.{List};
ghost use Rattle.native_containers.specs.Say.{list_changed, list_say, with_joined};
ghost use Rattle.native_containers.specs.Take.{with_own_and};
ghost use Rattle.row_kit.specs.declared.take_containers.Kind.TheVariants as kind;

use crate::made::ends_none;
use crate::receivers::own_and;
use crate::sequence::{iter, joined, length};
use class_world::World;
use class_world::limits::is_within_limit;
use py_node::{Answer, Cause, FuncArgs, ListNative, PyObjectRef, Stop};
use row_kit::give_containers::new_list;
use row_kit::take_containers::{Kind, items};

/// A native of lists.
pub fn list_native(
    world: &mut World,
    native: ListNative,
    call: FuncArgs<'_>,
) -> Result<Answer, Stop>
    requires { Holds world.old (AreNodes call.args.now) }
    ensures ends { Ended result (EndsAs (λ t u. list_say u native call.entry.args.now (bindings t call.entry.kw.now))
        world.old world.new) }
    ensures safe { LeavesEnd world.old world.new result }
{
    match native {
        ListNative::Length => Ok(length(world, Kind::List, call)?),
        ListNative::Iter => iter(world, Kind::List, call),
        ListNative::Add => add(world, call),
        ListNative::Append => append(world, call),
        _ => Err(Stop::raise(Cause::SelfType)),
    }
}

// Two lists after one another, as a new one.
fn add(world: &mut World, call: FuncArgs<'_>) -> Result<Answer, Stop>
    requires { Holds world.old (AreNodes call.args.now) }
    ensures ends { Ended result (EndsAs (λ t u.
        with_joined kind.List u call.entry.args.now (bindings t call.entry.kw.now) (list_made u)) world.old world.new) }
    ensures safe { LeavesEnd world.old world.new result }
{
    let items = joined(world, Kind::List, call)?;
    new_list(world, items)
}

// An object is put last into a list.
fn append(world: &mut World, call: FuncArgs<'_>) -> Result<Answer, Stop>
    requires { Holds world.old (AreNodes call.args.now) }
    ensures ends { Ended result (EndsAs (λ t u.
        with_own_and kind.List u call.entry.args.now (bindings t call.entry.kw.now)
        (λ o a. list_changed u o (items_at u o ++ a ∷ []))) world.old world.new) }
    ensures safe { LeavesEnd world.old world.new result }
{
    let (list, last) = own_and(world, Kind::List, call)?;
    push(world, list, last)
}

// It is put there, unless the list would be too long.
fn push(world: &mut World, list: PyObjectRef, last: PyObjectRef) -> Result<Answer, Stop>
    requires list { Holds world.old (IsNode list) }
    requires holding { Holds world.old (Holding list List) }
    requires last { Holds world.old (IsNode last) }
    ensures ends { Ended result (EndsAs (λ t u. list_changed u list (items_at u list ++ last ∷ []))
        world.old world.new) }
    ensures safe { LeavesEnd world.old world.new result }
{
    if !is_within_limit(items(world, list).len() + 1) {
        return Err(Stop::raise(Cause::TooLong));
    }
    world.push_items(list, &[last])?;
    Ok(ends_none(world)?)
}
