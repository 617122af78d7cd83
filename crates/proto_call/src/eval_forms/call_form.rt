//! Calls: what is called, or the object whose method is, has a value. Then a method is loaded, and then the
//! arguments and the keywords are evaluated.

ghost use Rattle.proto_call.specs.Below.{[], length, map, slice_get, IfOk, start, pass, end, AllHold, Holds, IsExpression, IsNode, AreNames, AreNodes, of_node_ref, of_option, of_args, of_ended, of_step, of_task, Reading, Reads, bindings, spelled, task_of};
ghost use Rattle.std.specs.Prelude.{◌≡◌, ◌+◌, ◌≤◌};
ghost use Rattle.proto_call.specs.EvalForms.Say.{callee_say, callee_tree, called_say, given_say};
ghost use Rattle.proto_call.specs.EvalForms.Rows.{Goes, Resumes, args_of, arguments, arguments_at, arguments_row, attribute, called_task, evaluated_tree, keywords_of, named, of_called, of_eval_kept, positional};

use crate::eval_forms::keywords::{list_of, unrepeated};
use crate::eval_forms::operand::entry_value;
use crate::eval_forms::{EvalKept, names_of, object_of, with_value};
use class_world::World;
use class_world::args::copy_args;
use py_node::task::{Args, Keywords};
use py_node::{
    Answer, AttributeTask, CallTask, Cause, EvalTask, ExprRef, Form, OutOfMemory, PyMethod,
    PyObjectRef, PyStrInterned, Raised, Step, Task,
};
use std::alloc::Global;

/// What is called once the arguments have values.
#[derive(Clone, Copy)]
pub enum Called {
    Object(PyObjectRef),
    Method(PyMethod),
}

// What is evaluated for an operand: where a call's operand is an attribute, the object.
pub(crate) fn evaluated(world: &World, form: &Form, operand: ExprRef) -> ExprRef
    requires { Holds world.now (IsExpression operand) }
    ensures tree { (t : Reading) → Reads t world.now →
        t.tree result.0 ≡ evaluated_tree form.now (t.tree operand.0) }
    ensures holds { Holds world.now (IsExpression result) }
{
    match form {
        Form::Call(_) => callee(world, operand),
        _ => operand,
    }
}

// What a call evaluates first.
fn callee(world: &World, func: ExprRef) -> ExprRef
    requires { Holds world.now (IsExpression func) }
    ensures tree { (t : Reading) → Reads t world.now → t.tree result.0 ≡ callee_tree (t.tree func.0) }
    ensures holds { Holds world.now (IsExpression result) }
{
    match attribute(world.form(func)) {
        Some((object, _)) => object,
        None => func,
    }
}

// The object and the name of an attribute.
fn attribute(form: &Form) -> Option<(ExprRef, PyStrInterned)>
    ensures { result ≡ attribute form.now }
{
    match form {
        Form::Attr(object, name) => Some((*object, *name)),
        _ => None,
    }
}

// What is called has a value, or the object whose method is.
pub(crate) fn call_step(
    world: &World,
    e: ExprRef,
    func: ExprRef,
    value: Option<PyObjectRef>,
) -> Result<Step<EvalKept>, OutOfMemory>
    requires call { Holds world.now (IsExpression e) }
    requires func { Holds world.now (IsExpression func) }
    requires value { AllHold world.now (of_option of_node_ref value) }
    ensures goes { IfOk result (λ step. Goes (λ t u.
        called_say u (t.tree func.0) (args_of (t.tree e.0)) (keywords_of (t.tree e.0)) value) world.now world.now step) }
    ensures safe { IfOk result (λ step. AllHold world.now (of_step of_eval_kept step)) }
{
    match value {
        None => Ok(Step::raise(Cause::ArgCount)),
        Some(value) => callee_step(world, e, func, value),
    }
}

// An attribute that is called is loaded as a method. Else the first argument is evaluated.
fn callee_step(
    world: &World,
    e: ExprRef,
    func: ExprRef,
    value: PyObjectRef,
) -> Result<Step<EvalKept>, OutOfMemory>
    requires call { Holds world.now (IsExpression e) }
    requires func { Holds world.now (IsExpression func) }
    requires value { Holds world.now (IsNode value) }
    ensures goes { IfOk result (λ step. Goes (λ t u.
        callee_say u (t.tree func.0) (args_of (t.tree e.0)) (keywords_of (t.tree e.0)) value) world.now world.now step) }
    ensures safe { IfOk result (λ step. AllHold world.now (of_step of_eval_kept step)) }
{
    match attribute(world.form(func)) {
        Some((_, name)) => Ok(Step::Ask(
            Task::Attribute(AttributeTask::LoadMethod(value, name)),
            EvalKept::Load(e),
        )),
        None => next_argument(world, e, Called::Object(value), Vec::new(world.alloc())),
    }
}

// A method was loaded: the first argument is evaluated.
pub(crate) fn loaded(
    world: &World,
    e: ExprRef,
    answer: Result<Answer, Raised>,
) -> Result<Step<EvalKept>, OutOfMemory>
    requires call { Holds world.now (IsExpression e) }
    requires answer { AllHold world.now (of_ended answer) }
    ensures goes { IfOk result (λ step. Resumes (EvalKept.Load e) answer world.now world.now step) }
    ensures safe { IfOk result (λ step. AllHold world.now (of_step of_eval_kept step)) }
{
    match answer {
        Ok(Answer::Method(method)) => {
            next_argument(world, e, Called::Method(method), Vec::new(world.alloc()))
        }
        other => Ok(Step::End(other)),
    }
}

// An argument or a keyword was evaluated.
pub(crate) fn argued(
    world: &World,
    e: ExprRef,
    called: Called,
    values: Vec<PyObjectRef>,
    answer: Result<Answer, Raised>,
) -> Result<Step<EvalKept>, OutOfMemory>
    requires kept { AllHold world.now (of_eval_kept (EvalKept.Arguments e called values)) }
    requires answer { AllHold world.now (of_ended answer) }
    ensures goes { IfOk result (λ step.
        Resumes (EvalKept.Arguments e called values) answer world.now world.now step) }
    ensures safe { IfOk result (λ step. AllHold world.now (of_step of_eval_kept step)) }
{
    match object_of(answer) {
        Ok(value) => {
            let values = with_value(values, value)?;
            next_argument(world, e, called, values)
        }
        Err(other) => Ok(Step::End(other)),
    }
}

// The next argument is evaluated, and after the arguments the keywords. Where all have values, what is called is
// called with them.
fn next_argument(
    world: &World,
    e: ExprRef,
    called: Called,
    values: Vec<PyObjectRef>,
) -> Result<Step<EvalKept>, OutOfMemory>
    requires call { Holds world.now (IsExpression e) }
    requires called { AllHold world.now (of_called called) }
    requires values { Holds world.now (AreNodes values.items) }
    requires fits { length values.items ≤ length (arguments_at (slice_get world.now.forms e.0)) }
    ensures goes { IfOk result (λ step. Goes (λ t. arguments_row (t.tree e.0) called values.items) world.now world.now step) }
    ensures safe { IfOk result (λ step. AllHold world.now (of_step of_eval_kept step)) }
{
    let form = world.form(e);
    match argument(form, values.len()) {
        Some(argument) => Ok(Step::Ask(
            Task::Eval(EvalTask::Eval(argument)),
            EvalKept::Arguments(e, called, values),
        )),
        None => {
            let alloc = world.alloc();
            let keywords = named(form);
            if keywords.is_empty() {
                return Ok(call_plainly(alloc, called, values));
            }
            let names = names_of(alloc, keywords)?;
            call_with(alloc, called, positional(form).len(), &names, &values)
        }
    }
}

// Something is called with these arguments, and with no keywords.
fn call_plainly(alloc: Global, called: Called, values: Args) -> Step<EvalKept>
    ensures goes { (w : World) → Goes (λ t u. start (pass u (called_task called values.items [])) (end u)) w w result }
    ensures safe { (w : World) → AllHold w (of_called called) → Holds w (AreNodes values.items) →
        AllHold w (of_step of_eval_kept result) }
{
    Step::Ask(call_task(called, values, Vec::new(alloc)), EvalKept::Pass)
}

// The arguments of a call.
fn positional(form: &Form) -> &[ExprRef]
    ensures { result.now ≡ positional form.now }
{
    match form {
        Form::Call(call) => &call.args,
        _ => &[],
    }
}

// The keywords of a call.
fn named(form: &Form) -> &[(PyStrInterned, ExprRef)]
    ensures { result.now ≡ named form.now }
{
    match form {
        Form::Call(call) => &call.keywords,
        _ => &[],
    }
}

// What is evaluated at a place: an argument of a call, or past them a keyword.
fn argument(form: &Form, place: usize) -> Option<ExprRef>
    ensures { result ≡ slice_get (arguments form.now) place }
{
    let args = positional(form);
    if place < args.len() {
        Some(args[place])
    } else {
        entry_value(named(form), place - args.len())
    }
}

// Something is called with so many of the values as arguments and with the others as keywords, unless one is repeated.
fn call_with(
    alloc: Global,
    called: Called,
    count: usize,
    names: &[PyStrInterned],
    values: &[PyObjectRef],
) -> Result<Step<EvalKept>, OutOfMemory>
    requires { length values.now ≡ count + length names.now }
    ensures goes { IfOk result (λ step. (w : World) → Goes (λ t u.
        given_say u (called_task called) count (map (spelled t) names.now) values.now) w w step) }
    ensures safe { IfOk result (λ step. (w : World) → AllHold w (of_called called) → Holds w (AreNames names.now) →
        Holds w (AreNodes values.now) → AllHold w (of_step of_eval_kept step)) }
{
    let (args, rest) = values.split_at(count);
    match unrepeated(alloc, names, rest)? {
        None => Ok(Step::raise(Cause::RepeatedKeyword)),
        Some(keywords) => {
            let args = copy_args(alloc, args)?;
            let keywords = list_of(alloc, &keywords)?;
            Ok(Step::Ask(call_task(called, args, keywords), EvalKept::Pass))
        }
    }
}

// What is called is called with arguments and keywords.
fn call_task(called: Called, args: Args, keywords: Keywords) -> Task
    ensures task { (t : Reading) → task_of t result ≡ called_task called args.items (bindings t keywords.items) }
    ensures safe { (w : World) → AllHold w (of_called called) → AllHold w (of_args args.items keywords.items) →
        AllHold w (of_task result) }
{
    match called {
        Called::Object(func) => Task::Call(CallTask::Call(func, args, keywords)),
        Called::Method(method) => Task::Attribute(AttributeTask::Invoke(method, args, keywords)),
    }
}
