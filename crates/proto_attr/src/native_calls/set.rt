//! What is set in an object by name, or taken out there.

ghost use Rattle.proto_attr.specs.Below.{IfOk, of_setter, Leaves, bindings, setter_value, AllHold, AreNodes, Holds, IsNode};
ghost use Rattle.std.specs.Prelude.{◌≡◌, ◌∷◌};
ghost use Rattle.proto_attr.specs.ProtoDescr.Rows.{StepsAs, nothing_held};
ghost use Rattle.proto_attr.specs.NativeCalls.Say.{delete_so, kind_of, set_as, set_so};

use crate::native_calls::bind::is_of_kind;
use crate::native_calls::way::{Kind, Setting};
use crate::proto_descr::{getset_set, member_set, property_set};
use class_world::World;
use class_world::takes::{one, two};
use py_node::{Cause, FuncArgs, OutOfMemory, PyObjectRef, PySetterValue, Step};

/// What an object stands for is set in another one.
pub(crate) fn set_by_name(
    world: &mut World,
    setting: Setting,
    call: FuncArgs<'_>,
) -> Result<Step<()>, OutOfMemory>
    requires { Holds world.old (AreNodes call.args.now) }
    ensures steps { IfOk result (λ step. StepsAs (λ t u. set_so u setting call.entry.args.now (bindings t call.entry.kw.now))
        world.old world.new step) }
    ensures safe { Leaves nothing_held world.old world.new result }
{
    match call.args {
        [] => Ok(Step::raise(Cause::ArgCount)),
        [m, rest @ ..] => {
            if !is_of_kind(world, kind_of(setting), *m) {
                return Ok(Step::raise(Cause::SelfType));
            }
            match two(FuncArgs {
                args: rest,
                kw: call.kw,
            }) {
                Err(raised) => Ok(Step::End(Err(raised))),
                Ok((o, value)) => set_as(world, setting, *m, o, PySetterValue::Assign(value)),
            }
        }
    }
}

/// It is taken out there.
pub(crate) fn delete_by_name(
    world: &mut World,
    setting: Setting,
    call: FuncArgs<'_>,
) -> Result<Step<()>, OutOfMemory>
    requires { Holds world.old (AreNodes call.args.now) }
    ensures steps { IfOk result (λ step. StepsAs (λ t u. delete_so u setting call.entry.args.now (bindings t call.entry.kw.now))
        world.old world.new step) }
    ensures safe { Leaves nothing_held world.old world.new result }
{
    match call.args {
        [] => Ok(Step::raise(Cause::ArgCount)),
        [m, rest @ ..] => {
            if !is_of_kind(world, kind_of(setting), *m) {
                return Ok(Step::raise(Cause::SelfType));
            }
            match one(FuncArgs {
                args: rest,
                kw: call.kw,
            }) {
                Err(raised) => Ok(Step::End(Err(raised))),
                Ok(o) => set_as(world, setting, *m, o, PySetterValue::Delete),
            }
        }
    }
}

// The kind of an object by which an attribute is set.
fn kind_of(setting: Setting) -> Kind
    ensures { result ≡ kind_of setting }
{
    match setting {
        Setting::GetSet => Kind::GetSet,
        Setting::Member => Kind::Member,
        Setting::Property => Kind::Property,
    }
}

// It is set as an object of its kind sets it.
fn set_as(
    world: &mut World,
    setting: Setting,
    m: PyObjectRef,
    o: PyObjectRef,
    value: PySetterValue,
) -> Result<Step<()>, OutOfMemory>
    requires { AllHold world.old (IsNode m ∷ IsNode o ∷ of_setter value) }
    ensures steps { IfOk result (λ step. StepsAs (λ t u. set_as u setting m o (setter_value value))
        world.old world.new step) }
    ensures safe { Leaves nothing_held world.old world.new result }
{
    match setting {
        Setting::GetSet => getset_set(world, m, o, value),
        Setting::Member => member_set(world, m, o, value),
        Setting::Property => property_set(world, m, o, value),
    }
}
