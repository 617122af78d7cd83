//! What members and properties give of an object, by name.

ghost use Rattle.proto_attr.specs.Below.{IfOk, Leaves, bindings, AreNodes, Holds};
ghost use Rattle.proto_attr.specs.ProtoDescr.Rows.{StepsAs, nothing_held};
ghost use Rattle.proto_attr.specs.NativeCalls.Say.{member_get_by_name, property_get_by_name};

use crate::native_calls::bind::bound;
use crate::native_calls::way::Kind;
use crate::proto_descr::{member_get, property_get};
use class_world::World;
use py_node::{FuncArgs, OutOfMemory, Step};

/// What a member gives of an object.
pub(crate) fn member_get_by_name(world: &World, call: FuncArgs<'_>) -> Result<Step<()>, OutOfMemory>
    requires { Holds world.now (AreNodes call.args.now) }
    ensures steps { IfOk result (λ step. StepsAs (λ t u. member_get_by_name u call.entry.args.now (bindings t call.entry.kw.now))
        world.now world.now step) }
    ensures safe { Leaves nothing_held world.now world.now result }
{
    match bound(world, Kind::Member, call) {
        Err(raised) => Ok(Step::End(Err(raised))),
        Ok((m, o, _class)) => member_get(world, m, Some(o)),
    }
}

/// What a property gives of an object.
pub(crate) fn property_get_by_name(
    world: &World,
    call: FuncArgs<'_>,
) -> Result<Step<()>, OutOfMemory>
    requires { Holds world.now (AreNodes call.args.now) }
    ensures steps { IfOk result (λ step. StepsAs (λ t u. property_get_by_name u call.entry.args.now (bindings t call.entry.kw.now))
        world.now world.now step) }
    ensures safe { Leaves nothing_held world.now world.now result }
{
    match bound(world, Kind::Property, call) {
        Err(raised) => Ok(Step::End(Err(raised))),
        Ok((m, o, _class)) => property_get(world, m, Some(o)),
    }
}
