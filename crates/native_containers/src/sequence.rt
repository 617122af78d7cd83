//! What tuples and lists do alike.

ghost use Rattle.py_node.specs.Stops.{Ended, IfRaised};
ghost use Rattle.native_containers.specs.Below.{Err, IfOk, List, Said, Ends, PyObjectRef as Object, Reading, bindings, plain, of_ended, AllHold, AreNodes, Holds, EndsAs, LeavesEnd, iterator_made, items_at};
ghost use Rattle.std.specs.Prelude.{◌≡◌, ◌++◌};
ghost use Rattle.native_containers.specs.Say.{counted, with_joined};
ghost use Rattle.native_containers.specs.Take.{with_lone};

use crate::receivers::{lone, own_and};
use class_world::World;
use class_world::limits::is_within_limit;
use py_node::task::Args;
use py_node::{Answer, Cause, FuncArgs, OutOfMemory, PyObjectRef, Raised, Stop};
use row_kit::give::new_iterator;
use row_kit::take_containers::{Kind, is_of, items};
use std::alloc::Global;

/// How many items a tuple or a list has.
pub(crate) fn length(world: &World, kind: Kind, call: FuncArgs<'_>) -> Result<Answer, Raised>
    requires { Holds world.now (AreNodes call.args.now) }
    ensures ends { EndsAs (λ t u. with_lone kind u call.entry.args.now (bindings t call.entry.kw.now)
        (λ o. counted u (items_at u o))) world.now world.now result }
    ensures holds { AllHold world.now (of_ended result) }
{
    let object = lone(world, kind, call)?;
    Ok(Answer::Number(items(world, object).len() as i64))
}

/// A new iterator over a tuple or a list.
pub(crate) fn iter(world: &mut World, kind: Kind, call: FuncArgs<'_>) -> Result<Answer, Stop>
    requires { Holds world.old (AreNodes call.args.now) }
    ensures ends { Ended result (EndsAs (λ t u.
        with_lone kind u call.entry.args.now (bindings t call.entry.kw.now) (iterator_made u)) world.old world.new) }
    ensures safe { LeavesEnd world.old world.new result }
{
    let object = lone(world, kind, call)?;
    new_iterator(world, object)
}

/// The items of two objects of a kind after one another, or why there are none.
pub(crate) fn joined(world: &World, kind: Kind, call: FuncArgs<'_>) -> Result<Args, Stop>
    requires { Holds world.now (AreNodes call.args.now) }
    ensures given { IfOk result (λ rs. (t : Reading) (go : List Object → Said) →
        with_joined kind (plain t world.now) call.entry.args.now (bindings t call.entry.kw.now) go ≡ go rs.items) }
    ensures refused { IfRaised result (λ x. (t : Reading) (go : List Object → Said) →
        with_joined kind (plain t world.now) call.entry.args.now (bindings t call.entry.kw.now) go ≡ Ends (plain t world.now) (Err x)) }
    ensures holds { IfOk result (λ rs. Holds world.now (AreNodes rs.items)) }
{
    let (first, second) = own_and(world, kind, call)?;
    if !is_of(world, kind, second) {
        return Err(Stop::raise(Cause::ConcatType));
    }
    let all = in_one(world.alloc(), items(world, first), items(world, second))?;
    if is_within_limit(all.len()) {
        Ok(all)
    } else {
        Err(Stop::raise(Cause::TooLong))
    }
}

// Items with others after them.
fn in_one(alloc: Global, items: &[PyObjectRef], more: &[PyObjectRef]) -> Result<Args, OutOfMemory>
    ensures { IfOk result (λ rs. rs.items ≡ items.now ++ more.now) }
{
    let mut all = Vec::new(alloc);
    all.extend_from_slice(items)?;
    all.extend_from_slice(more)?;
    Ok(all)
}
