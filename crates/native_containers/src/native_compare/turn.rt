//! Items that are asked in turn.

ghost use Rattle.native_containers.specs.Below.{IfNone, IfSome, PlainWorld, Told, Ends, Row, of_ended, of_step, ended_of, AllHold, AreNodes, Holds};
ghost use Rattle.std.specs.Prelude.{◌≡◌};
ghost use Rattle.native_containers.specs.NativeCompare.Containers.{answered, both_read};
ghost use Rattle.native_containers.specs.NativeCompare.Rows.{Compares, TakesTurn, of_compared_kept};

use crate::native_compare::ComparedKept;
use crate::native_compare::way::{Turns, Way, asked, turns_of};
use class_world::World;
use py_node::task::Args;
use py_node::{Answer, CompareNative, Raised, Step, Task};

/// Two sequences of items that were read are compared.
pub(crate) fn compare(
    world: &World,
    native: CompareNative,
    first: Args,
    second: Args,
) -> Step<ComparedKept>
    requires first { Holds world.now (AreNodes first.items) }
    requires second { Holds world.now (AreNodes second.items) }
    ensures goes { Compares native (λ t u. both_read u native first.items second.items) world.now result }
    ensures safe { AllHold world.now (of_step of_compared_kept result) }
{
    match turns_of(native, first.len(), second.len()) {
        Turns::Told(truth) => Step::End(Ok(Answer::Value(world.truth(truth)))),
        Turns::Missing => Step::elsewhere(),
        Turns::Each(way, last) => {
            let kept = ComparedKept {
                way,
                last,
                first,
                second,
                next: 0,
            };
            ask_next(world, kept)
        }
    }
}

/// The next two items are asked. Where none are left, the comparison is over.
pub(crate) fn ask_next(world: &World, kept: ComparedKept) -> Step<ComparedKept>
    requires { AllHold world.now (of_compared_kept kept) }
    ensures goes { TakesTurn kept world.now result }
    ensures safe { AllHold world.now (of_step of_compared_kept result) }
{
    let ComparedKept {
        way,
        last,
        first,
        second,
        next,
    } = kept;
    if next < first.len() && next < second.len() {
        let task = Task::Compare(asked(way, first[next], second[next]));
        let next = next + 1;
        let kept = ComparedKept {
            way,
            last,
            first,
            second,
            next,
        };
        Step::Ask(task, kept)
    } else {
        Step::End(Ok(Answer::Value(world.truth(last))))
    }
}

/// How a comparison ends with what two items answered, unless it goes on.
pub(crate) fn ended_by(
    world: &World,
    way: Way,
    last: bool,
    answer: Result<Answer, Raised>,
) -> Option<Result<Answer, Raised>>
    requires { AllHold world.now (of_ended answer) }
    ensures goes { IfNone result ((u : PlainWorld) (go : Row) (more : Told) →
        answered u way last (ended_of answer) go more ≡ go more) }
    ensures ends { IfSome result (λ r. (u : PlainWorld) (go : Row) (more : Told) →
        answered u way last (ended_of answer) go more ≡ Ends u (ended_of r)) }
    ensures holds { IfSome result (λ r. AllHold world.now (of_ended r)) }
{
    match way {
        Way::Equal => match answer {
            Ok(Answer::Truth(true)) => None,
            Ok(Answer::Truth(false)) => Some(Ok(Answer::Value(world.truth(!last)))),
            other => Some(other),
        },
        Way::Less | Way::Greater => match answer {
            Ok(Answer::Maybe(None)) => None,
            Ok(Answer::Maybe(Some(object))) => Some(Ok(Answer::Value(object))),
            other => Some(other),
        },
    }
}
