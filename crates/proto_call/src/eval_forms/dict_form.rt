//! Dicts: each key is evaluated and then its value, and then the key is tested, before the next pair.

ghost use Rattle.proto_call.specs.Below.{length, slice_get, Ok, IfOk, of_keyed, of_pairs, AllHold, Holds, IsExpression, of_ended, of_step, Leaves, entries_from};
ghost use Rattle.std.specs.Prelude.{◌≡◌, ◌≤◌, ◌<◌};
ghost use Rattle.proto_call.specs.EvalForms.Say.{make_dict};
ghost use Rattle.proto_call.specs.EvalForms.Rows.{EndsRow, Goes, Resumes, of_eval_kept, pairs, pairs_at, pairs_row};

use crate::eval_forms::{EvalKept, object_of};
use class_world::World;
use class_world::limits::is_within_limit;
use py_node::{
    Answer, BuiltIn, Cause, EvalTask, ExprRef, Form, OutOfMemory, Payload, PyDict, PyObjectRef,
    Raised, Step, Task,
};

// Keys with their values.
type Pairs = Vec<(PyObjectRef, PyObjectRef)>;

// The next key is evaluated. Where all pairs have values, they are a new dict.
pub(crate) fn next_key(
    world: &mut World,
    e: ExprRef,
    found: Pairs,
) -> Result<Step<EvalKept>, OutOfMemory>
    requires dict { Holds world.old (IsExpression e) }
    requires found { AllHold world.old (of_pairs found.items) }
    requires fits { length found.items ≤ length (pairs_at (slice_get world.old.forms e.0)) }
    ensures goes { IfOk result (λ step. Goes (λ t. pairs_row (t.tree e.0) found.items) world.old world.new step) }
    ensures safe { Leaves of_eval_kept world.old world.new result }
{
    match pair(world.form(e), found.len()) {
        Some(pair) => Ok(Step::Ask(Task::Eval(EvalTask::Eval(pair.0)), EvalKept::Key(e, found))),
        None => make_dict(world, &found),
    }
}

// The pairs of a dict.
fn pairs(form: &Form) -> &[(ExprRef, ExprRef)]
    ensures { result.now ≡ pairs form.now }
{
    match form {
        Form::Dict(pairs) => pairs,
        _ => &[],
    }
}

// The pair of a dict at a place.
fn pair(form: &Form, place: usize) -> Option<(ExprRef, ExprRef)>
    ensures { result ≡ slice_get (pairs form.now) place }
{
    pairs(form).get(place).copied()
}

// A key was evaluated: its value is.
pub(crate) fn keyed(
    world: &World,
    e: ExprRef,
    found: Pairs,
    answer: Result<Answer, Raised>,
) -> Step<EvalKept>
    requires kept { AllHold world.now (of_eval_kept (EvalKept.Key e found)) }
    requires answer { AllHold world.now (of_ended answer) }
    ensures goes { Resumes (EvalKept.Key e found) answer world.now world.now result }
    ensures safe { AllHold world.now (of_step of_eval_kept result) }
{
    match object_of(answer) {
        Ok(key) => {
            let pair = pairs(world.form(e))[found.len()];
            Step::Ask(
                Task::Eval(EvalTask::Eval(pair.1)),
                EvalKept::Value(e, found, key),
            )
        }
        Err(other) => Step::End(other),
    }
}

// A value was evaluated: its key is tested.
pub(crate) fn valued(
    world: &mut World,
    e: ExprRef,
    found: Pairs,
    key: PyObjectRef,
    answer: Result<Answer, Raised>,
) -> Result<Step<EvalKept>, OutOfMemory>
    requires kept { AllHold world.old (of_eval_kept (EvalKept.Value e found key)) }
    requires answer { AllHold world.old (of_ended answer) }
    ensures goes { IfOk result (λ step. Resumes (EvalKept.Value e found key) answer world.old world.new step) }
    ensures safe { Leaves of_eval_kept world.old world.new result }
{
    match object_of(answer) {
        Ok(value) => {
            if !world.can_be_key(key) {
                return Ok(Step::raise(Cause::KeyType));
            }
            let mut found = found;
            found.push((key, value))?;
            next_key(world, e, found)
        }
        Err(other) => Ok(Step::End(other)),
    }
}

// A new dict of keys with their values, of which later ones win.
fn make_dict(
    world: &mut World,
    found: &[(PyObjectRef, PyObjectRef)],
) -> Result<Step<EvalKept>, OutOfMemory>
    requires { AllHold world.old (of_pairs found.now) }
    ensures goes { IfOk result (λ step.
        EndsRow (λ t w. make_dict w (entries_from w found.now)) world.old world.new step) }
    ensures safe { Leaves of_eval_kept world.old world.new result }
{
    let dict = world.entries_from(found)?;
    new_dict(world, dict)
}

// A new dict, unless it is too long.
#[tactic(auto, unfolding(py_node::specs::BuiltIns::place_of))]
fn new_dict(world: &mut World, dict: PyDict) -> Result<Step<EvalKept>, OutOfMemory>
    requires { AllHold world.old (of_keyed dict) }
    ensures goes { IfOk result (λ step. EndsRow (λ t w. make_dict w dict.items) world.old world.new step) }
    ensures safe { Leaves of_eval_kept world.old world.new result }
{
    if !is_within_limit(dict.len()) {
        return Ok(Step::raise(Cause::TooLong));
    }
    let class = world.built_in(BuiltIn::Dict);
    let node = world.make_node(class, Payload::Dict(dict))?;
    Ok(Step::End(Ok(Answer::Value(node))))
}
