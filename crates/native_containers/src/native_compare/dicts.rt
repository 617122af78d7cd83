//! Dicts.

ghost use Rattle.native_containers.specs.Below.{IfOk, IfSome, option_map, of_step, of_entries, Reading, bindings, plain, AllHold, AreNodes, Holds, IsNode, keys_of};
ghost use Rattle.std.specs.Prelude.{◌≡◌};
ghost use Rattle.native_containers.specs.NativeCompare.Containers.{dicts_by, dicts_equal, values_under};
ghost use Rattle.native_containers.specs.NativeCompare.Rows.{Compares, of_compared_kept};

use crate::native_compare::ComparedKept;
use crate::native_compare::sequences::both;
use crate::native_compare::turn::compare;
use class_world::{Fixed, World};
use py_node::task::Args;
use py_node::{Answer, CompareNative, FuncArgs, OutOfMemory, PyObjectRef, Step};
use row_kit::entries::values_of;
use row_kit::take_containers::{Kind, entries};

/// Two dicts are compared.
pub(crate) fn dicts(
    world: &World,
    native: CompareNative,
    call: FuncArgs<'_>,
) -> Result<Step<ComparedKept>, OutOfMemory>
    requires { Holds world.now (AreNodes call.args.now) }
    ensures goes { IfOk result (λ step. Compares native
        (λ t u. dicts_by u native call.entry.args.now (bindings t call.entry.kw.now)) world.now step) }
    ensures safe { IfOk result (λ step. AllHold world.now (of_step of_compared_kept step)) }
{
    match both(world, Kind::Dict, call) {
        Err(ended) => Ok(Step::End(ended)),
        Ok((a, b)) => match native {
            CompareNative::Eq => dicts_equal(world, native, false, a, b),
            CompareNative::Ne => dicts_equal(world, native, true, a, b),
            CompareNative::All => Ok(Step::elsewhere()),
            _ => {
                let other = world.fixed(Fixed::NotImplemented);
                Ok(Step::End(Ok(Answer::Value(other))))
            }
        },
    }
}

// Dicts are equal that have the same keys, and equal values under them. Where they have other keys, this is given.
fn dicts_equal(
    world: &World,
    native: CompareNative,
    differ: bool,
    a: PyObjectRef,
    b: PyObjectRef,
) -> Result<Step<ComparedKept>, OutOfMemory>
    requires a { Holds world.now (IsNode a) }
    requires b { Holds world.now (IsNode b) }
    ensures goes { IfOk result (λ step. Compares native (λ t u. dicts_equal u native differ a b) world.now step) }
    ensures safe { IfOk result (λ step. AllHold world.now (of_step of_compared_kept step)) }
{
    let own = entries(world, a);
    if own.len() != entries(world, b).len() {
        return Ok(Step::End(Ok(Answer::Value(world.truth(differ)))));
    }
    match values_under(world, b, own)? {
        None => Ok(Step::End(Ok(Answer::Value(world.truth(differ))))),
        Some(second) => {
            let first = values_of(world.alloc(), own)?;
            Ok(compare(world, native, first, second))
        }
    }
}

// The values that a dict has under the keys of some entries, unless it lacks one.
fn values_under(
    world: &World,
    dict: PyObjectRef,
    entries: &[(PyObjectRef, PyObjectRef)],
) -> Result<Option<Args>, OutOfMemory>
    requires dict { Holds world.now (IsNode dict) }
    requires entries { AllHold world.now (of_entries entries.now) }
    ensures values { IfOk result (λ o. (t : Reading) →
        values_under (plain t world.now) dict (keys_of entries.now) ≡ option_map (λ rs. rs.items) o) }
    ensures holds { IfOk result (λ o. IfSome o (λ rs. Holds world.now (AreNodes rs.items))) }
{
    let mut values = Vec::new(world.alloc());
    for entry in entries {
        match world.value_under(dict, entry.0) {
            None => return Ok(None),
            Some(value) => values.push(value)?,
        }
    }
    Ok(Some(values))
}
