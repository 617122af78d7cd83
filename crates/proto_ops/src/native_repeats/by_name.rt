//! Repetition by name.

ghost use Rattle.py_node.specs.Stops.{IfRaised};
ghost use Rattle.proto_ops.specs.Below.{[], Err, IfOk, IfSome, Ok, option_map, Asks, Bindings, DoIndex, Ends, ReadObjects, ToProtocol, with_two, datum_at, Leaves, Reading, plain, AllHold, AreNodes, Holds, IsNode, sequence_for};
ghost use Rattle.std.specs.Prelude.{◌≡◌, ◌∷◌};
ghost use Rattle.py_node.specs.declared.task.Answer.TheVariants as answer;
ghost use Rattle.proto_ops.specs.NativeRepeats.Rows.{Resumes, of_repeat_kept};
ghost use Rattle.proto_ops.specs.NativeRepeats.Say.{entry_of, repeat_by_name, stood};

use crate::native_repeats::RepeatKept;
use crate::native_repeats::count::count_in;
use crate::native_repeats::kind::{Repeated, entry_of};
use crate::native_repeats::repeated::repeat_stood;
use class_world::World;
use py_node::task::Args;
use py_node::{Answer, Cause, OutOfMemory, Payload, PyObjectRef, Step, Stop, caught};

/// The items of the first argument where it is a list, and none where it is a text or a tuple that a native repeats. Else
/// it is refused.
///
/// # Errors
///
/// `ArgCount` where there is no argument, and `SelfType` where the first is of another kind.
pub(crate) fn standing(world: &World, kind: Repeated, args: &[PyObjectRef]) -> Result<Args, Stop>
    requires { Holds world.now (AreNodes args.now) }
    ensures given { IfOk result (λ rs. (t : Reading) (kw : Bindings) →
        repeat_by_name (plain t world.now) (entry_of kind) args.now kw ≡ with_two (plain t world.now) args.now kw
        (λ a k. Asks (plain t world.now) (ReadObjects (a ∷ rs.items) ∷ []) (ToProtocol (DoIndex k)))) }
    ensures refused { IfRaised result (λ x. (t : Reading) (kw : Bindings) →
        repeat_by_name (plain t world.now) (entry_of kind) args.now kw ≡ Ends (plain t world.now) (Err x)) }
    ensures items { IfOk result (λ rs. Holds world.now (AreNodes rs.items)) }
{
    match args {
        [] => Err(Stop::raise(Cause::ArgCount)),
        [object, ..] => match items_of(world, kind, *object)? {
            None => Err(Stop::raise(Cause::SelfType)),
            Some(items) => Ok(items),
        },
    }
}

// The same of an object, if a native repeats it.
fn items_of(world: &World, kind: Repeated, object: PyObjectRef) -> Result<Option<Args>, OutOfMemory>
    requires { Holds world.now (IsNode object) }
    ensures stood { IfOk result (λ o. (t : Reading) →
        option_map stood (sequence_for (entry_of kind) (datum_at (plain t world.now) object)) ≡
        option_map (λ rs. rs.items) o) }
    ensures items { IfOk result (λ o. IfSome o (λ rs. Holds world.now (AreNodes rs.items))) }
{
    match (kind, world.payload(object)) {
        (Repeated::Text | Repeated::RightText, Payload::Text(_)) => {
            Ok(Some(Vec::new(world.alloc())))
        }
        (Repeated::Tuple | Repeated::RightTuple, Payload::Tuple(_)) => {
            Ok(Some(Vec::new(world.alloc())))
        }
        (Repeated::List | Repeated::RightList | Repeated::ListInPlace, Payload::List(items)) => {
            let items = Vec::from_slice(world.alloc(), items)?;
            Ok(Some(items))
        }
        _ => Ok(None),
    }
}

/// What was kept is repeated as often as an index says.
pub(crate) fn given(
    world: &mut World,
    kept: RepeatKept,
    index: PyObjectRef,
) -> Result<Step<RepeatKept>, OutOfMemory>
    requires kept { AllHold world.old (of_repeat_kept kept) }
    requires index { Holds world.old (IsNode index) }
    ensures goes { IfOk result (λ step. Resumes kept (Ok (answer.Value index)) world.old world.new step) }
    ensures safe { Leaves of_repeat_kept world.old world.new result }
{
    match count_in(world.number(index)) {
        Err(raised) => Ok(Step::End(Err(raised))),
        Ok(n) => {
            let ended = caught(repeat_stood(
                world,
                entry_of(kept.kind),
                kept.object,
                &kept.items,
                n,
            ))?;
            Ok(Step::End(ended))
        }
    }
}
