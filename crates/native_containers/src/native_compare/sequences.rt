//! Tuples and lists.

ghost use Rattle.native_containers.specs.Below.{IfErr, IfOk, PyObjectRef as Object, Said, Ends, of_ended, of_step, Reading, bindings, ended_of, plain, AllHold, AreNodes, Holds, IsNode};
ghost use Rattle.std.specs.Prelude.{◌≡◌};
ghost use Rattle.native_containers.specs.NativeCompare.Containers.{sequences_by, with_both};
ghost use Rattle.native_containers.specs.NativeCompare.Rows.{Compares, of_compared_kept};

use crate::native_compare::ComparedKept;
use crate::native_compare::turn::compare;
use crate::receivers::own_and;
use class_world::args::copy_args;
use class_world::{Fixed, World};
use py_node::{Answer, CompareNative, FuncArgs, OutOfMemory, PyObjectRef, Raised, Step};
use row_kit::take_containers::{Kind, is_of, items};

/// Two tuples or two lists are compared.
pub(crate) fn sequences(
    world: &World,
    kind: Kind,
    native: CompareNative,
    call: FuncArgs<'_>,
) -> Result<Step<ComparedKept>, OutOfMemory>
    requires { Holds world.now (AreNodes call.args.now) }
    ensures goes { IfOk result (λ step. Compares native
        (λ t u. sequences_by kind u native call.entry.args.now (bindings t call.entry.kw.now)) world.now step) }
    ensures safe { IfOk result (λ step. AllHold world.now (of_step of_compared_kept step)) }
{
    match both(world, kind, call) {
        Err(ended) => Ok(Step::End(ended)),
        Ok((a, b)) => {
            let first = copy_args(world.alloc(), items(world, a))?;
            let second = copy_args(world.alloc(), items(world, b))?;
            Ok(compare(world, native, first, second))
        }
    }
}

/// Two objects of a kind, or how their comparison ends without them.
pub(crate) fn both(
    world: &World,
    kind: Kind,
    call: FuncArgs<'_>,
) -> Result<(PyObjectRef, PyObjectRef), Result<Answer, Raised>>
    requires { Holds world.now (AreNodes call.args.now) }
    ensures given { IfOk result (λ p. (t : Reading) (go : Object → Object → Said) →
        with_both kind (plain t world.now) call.entry.args.now (bindings t call.entry.kw.now) go ≡ go p.0 p.1) }
    ensures ended { IfErr result (λ r. (t : Reading) (go : Object → Object → Said) →
        with_both kind (plain t world.now) call.entry.args.now (bindings t call.entry.kw.now) go ≡
        Ends (plain t world.now) (ended_of r)) }
    ensures first { IfOk result (λ p. Holds world.now (IsNode p.0)) }
    ensures second { IfOk result (λ p. Holds world.now (IsNode p.1)) }
    ensures holds { IfErr result (λ r. AllHold world.now (of_ended r)) }
{
    match own_and(world, kind, call) {
        Err(raised) => Err(Err(raised)),
        Ok((a, b)) => {
            if is_of(world, kind, b) {
                Ok((a, b))
            } else {
                Err(Ok(Answer::Value(world.fixed(Fixed::NotImplemented))))
            }
        }
    }
}
