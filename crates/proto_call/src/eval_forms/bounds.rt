//! Words some of whose operands stand for numbers: how often, from where, and to where.

ghost use Rattle.proto_call.specs.Below.{ℤ, cond, Err, IfErr, IfOk, None, Some, two_of, Said, Ends, fits_index, of_ended, of_step, of_task, Reading, ended_of, plain, task_of, AllHold, Holds, IsNode, AreNodes};
ghost use Rattle.std.specs.Prelude.{◌≡◌};
ghost use Rattle.py_node.specs.declared.protocol.ProtocolTask.TheVariants as protocol;
ghost use Rattle.proto_call.specs.EvalForms.Words.{counted_outcome, counted_say, counted_task, del_slice_say, part_outcome, part_say, part_task, set_slice_say, slice_say, with_index};
ghost use Rattle.proto_call.specs.EvalForms.Rows.{Goes, Resumes, of_eval_kept, of_part};

use crate::eval_forms::outcome::Outcome;
use crate::eval_forms::{EvalKept, object_of};
use class_world::World;
use class_world::args::two_of;
use py_node::{Answer, Cause, OperatorTask, ProtocolTask, PyObjectRef, Raised, Step, Task};

/// A word whose second operand stands for a number.
#[derive(Clone, Copy)]
pub enum Counted {
    Repeat,
    InplaceRepeat,
    Hint,
}

/// What a word does with a part of a sequence.
#[derive(Clone, Copy)]
pub enum Part {
    Get,
    /// It gets the items of this object instead.
    Set(PyObjectRef),
    Delete,
}

// The second operand is asked for its number.
pub(crate) fn counted_step(counted: Counted, values: &[PyObjectRef]) -> Step<EvalKept>
    ensures goes { (w : World) → Goes (λ t u. counted_say u counted (two_of values.now)) w w result }
    ensures safe { (w : World) → Holds w (AreNodes values.now) → AllHold w (of_step of_eval_kept result) }
{
    match two_of(values) {
        None => Step::raise(Cause::ArgCount),
        Some((object, count)) => Step::Ask(index_of(count), EvalKept::Count(counted, object)),
    }
}

// The task is asked with the number.
pub(crate) fn with_count(
    world: &World,
    counted: Counted,
    object: PyObjectRef,
    answer: Result<Answer, Raised>,
) -> Step<EvalKept>
    requires kept { AllHold world.now (of_eval_kept (EvalKept.Count counted object)) }
    requires answer { AllHold world.now (of_ended answer) }
    ensures goes { Resumes (EvalKept.Count counted object) answer world.now world.now result }
    ensures safe { AllHold world.now (of_step of_eval_kept result) }
{
    match number_in(world, answer) {
        Err(ended) => Step::End(ended),
        Ok(count) => Step::Ask(
            counted_task(counted, object, count),
            EvalKept::Made(counted_outcome(counted)),
        ),
    }
}

fn counted_task(counted: Counted, object: PyObjectRef, count: i64) -> Task
    ensures task { (t : Reading) → task_of t result ≡ counted_task counted object count }
    ensures holds { (w : World) → Holds w (IsNode object) → AllHold w (of_task result) }
{
    match counted {
        Counted::Repeat => Task::Operator(OperatorTask::Repeat(object, count)),
        Counted::InplaceRepeat => Task::Operator(OperatorTask::InplaceRepeat(object, count)),
        Counted::Hint => Task::Protocol(ProtocolTask::Hint(object, Some(count))),
    }
}

fn counted_outcome(counted: Counted) -> Outcome
    ensures { result ≡ counted_outcome counted }
{
    match counted {
        Counted::Hint => Outcome::Number,
        _ => Outcome::Same,
    }
}

// A part of the first operand, from the second to the third.
#[tactic(auto, using(class_world::proofs::Items::item_holds))]
pub(crate) fn slice_step(values: &[PyObjectRef]) -> Step<EvalKept>
    ensures goes { (w : World) → Goes (λ t u. slice_say u values.now) w w result }
    ensures safe { (w : World) → Holds w (AreNodes values.now) → AllHold w (of_step of_eval_kept result) }
{
    match values {
        [object, start, stop] => part_step(Part::Get, *object, *start, *stop),
        _ => Step::raise(Cause::ArgCount),
    }
}

// Such a part is set to the items of the fourth operand.
#[tactic(auto, using(class_world::proofs::Items::item_holds))]
pub(crate) fn set_slice_step(values: &[PyObjectRef]) -> Step<EvalKept>
    ensures goes { (w : World) → Goes (λ t u. set_slice_say u values.now) w w result }
    ensures safe { (w : World) → Holds w (AreNodes values.now) → AllHold w (of_step of_eval_kept result) }
{
    match values {
        [object, start, stop, items] => part_step(Part::Set(*items), *object, *start, *stop),
        _ => Step::raise(Cause::ArgCount),
    }
}

// Such a part is taken out.
#[tactic(auto, using(class_world::proofs::Items::item_holds))]
pub(crate) fn del_slice_step(values: &[PyObjectRef]) -> Step<EvalKept>
    ensures goes { (w : World) → Goes (λ t u. del_slice_say u values.now) w w result }
    ensures safe { (w : World) → Holds w (AreNodes values.now) → AllHold w (of_step of_eval_kept result) }
{
    match values {
        [object, start, stop] => part_step(Part::Delete, *object, *start, *stop),
        _ => Step::raise(Cause::ArgCount),
    }
}

// The first place is asked for its number.
fn part_step(
    part: Part,
    object: PyObjectRef,
    start: PyObjectRef,
    stop: PyObjectRef,
) -> Step<EvalKept>
    ensures goes { (w : World) → Goes (λ t u. part_say u part object start stop) w w result }
    ensures safe { (w : World) → Holds w (IsNode object) → Holds w (IsNode start) → Holds w (IsNode stop) →
        AllHold w (of_part part) → AllHold w (of_step of_eval_kept result) }
{
    Step::Ask(index_of(start), EvalKept::Start(part, object, stop))
}

// Then the second place.
pub(crate) fn with_start(
    world: &World,
    part: Part,
    object: PyObjectRef,
    stop: PyObjectRef,
    answer: Result<Answer, Raised>,
) -> Step<EvalKept>
    requires kept { AllHold world.now (of_eval_kept (EvalKept.Start part object stop)) }
    requires answer { AllHold world.now (of_ended answer) }
    ensures goes { Resumes (EvalKept.Start part object stop) answer world.now world.now result }
    ensures safe { AllHold world.now (of_step of_eval_kept result) }
{
    match object_of(answer) {
        Err(ended) => Step::End(ended),
        Ok(start) => match number_in(world, Ok(Answer::Value(start))) {
            Err(ended) => Step::End(ended),
            Ok(_number) => Step::Ask(index_of(stop), EvalKept::Stop(part, object, start)),
        },
    }
}

// The task is asked with both numbers.
pub(crate) fn with_stop(
    world: &World,
    part: Part,
    object: PyObjectRef,
    start: PyObjectRef,
    answer: Result<Answer, Raised>,
) -> Step<EvalKept>
    requires kept { AllHold world.now (of_eval_kept (EvalKept.Stop part object start)) }
    requires answer { AllHold world.now (of_ended answer) }
    ensures goes { Resumes (EvalKept.Stop part object start) answer world.now world.now result }
    ensures safe { AllHold world.now (of_step of_eval_kept result) }
{
    match number_in(world, Ok(Answer::Value(start))) {
        Err(ended) => Step::End(ended),
        Ok(first) => match number_in(world, answer) {
            Err(ended) => Step::End(ended),
            Ok(last) => Step::Ask(
                part_task(part, object, first, last),
                EvalKept::Made(part_outcome(part)),
            ),
        },
    }
}

fn part_task(part: Part, object: PyObjectRef, start: i64, stop: i64) -> Task
    ensures task { (t : Reading) → task_of t result ≡ part_task part object start stop }
    ensures holds { (w : World) → Holds w (IsNode object) → AllHold w (of_part part) → AllHold w (of_task result) }
{
    match part {
        Part::Get => Task::Protocol(ProtocolTask::GetSlice(object, start, stop)),
        Part::Set(items) => Task::Protocol(ProtocolTask::SetSlice(object, start, stop, items)),
        Part::Delete => Task::Protocol(ProtocolTask::DelSlice(object, start, stop)),
    }
}

fn part_outcome(part: Part) -> Outcome
    ensures { result ≡ part_outcome part }
{
    match part {
        Part::Get => Outcome::Same,
        _ => Outcome::Nothing,
    }
}

// The task of an object as a whole number.
fn index_of(object: PyObjectRef) -> Task
    ensures { result ≡ Task.Protocol (protocol.Index object) }
{
    Task::Protocol(ProtocolTask::Index(object))
}

// The number that an object stands for that was answered, or how that ends.
fn number_in(world: &World, answer: Result<Answer, Raised>) -> Result<i64, Result<Answer, Raised>>
    requires { AllHold world.now (of_ended answer) }
    ensures given { IfOk result (λ z. (t : Reading) (go : ℤ → Said) →
        with_index (plain t world.now) (ended_of answer) go ≡ go z) }
    ensures refused { IfErr result (λ r. (t : Reading) (go : ℤ → Said) →
        with_index (plain t world.now) (ended_of answer) go ≡ Ends (plain t world.now) (ended_of r)) }
    ensures holds { IfErr result (λ r. AllHold world.now (of_ended r)) }
{
    match answer {
        Ok(Answer::Value(object)) => match world.number(object) {
            None => Err(Err(Raised::new(Cause::SelfType))),
            Some(number) => match within_index(number) {
                Some(index) => Ok(index),
                None => Err(Err(Raised::new(Cause::IndexRange))),
            },
        },
        other => Err(other),
    }
}

// A number of no more bits than an index has.
fn within_index(number: i128) -> Option<i64>
    ensures { result ≡ cond (fits_index number) (Some number) None }
{
    match i64::try_from(number) {
        Ok(index) => Some(index),
        Err(_) => None,
    }
}
