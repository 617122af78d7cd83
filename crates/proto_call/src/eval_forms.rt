//! The rows of expressions, each a small automaton: `begin` and `resume`.
#![tactic(auto, unfolding(crate::specs::EvalForms::Say::eval_say))]

ghost use Rattle.proto_call.specs.Below.{[], map, length, slice_get, Ok, IfOk, IfErr, OnOk, IfSome, AllHold, Holds, IsExpression, IsName, AreNames, IsNode, AreNodes, of_node_ref, of_option, of_eval_task, of_ended, of_step, Leaves, Reading, Reads, TConst, literal_of};
ghost use Rattle.std.specs.Prelude.{◌≡◌, ◌≤◌, ◌++◌, ◌∷◌};
ghost use Rattle.proto_call.specs.EvalForms.Words.{one_of};
ghost use Rattle.proto_call.specs.EvalForms.Say.{bind_say, func_say, raise_say, tuple_say, list_say};
ghost use Rattle.proto_call.specs.EvalForms.Rows.{Begins, Resumes, Continues, EndsRow, Goes, IsOwn, HasValues, IsOther, of_eval_kept, operands, operands_at, operands_row};

mod attr;
pub mod bounds;
mod call_form;
mod class_form;
mod dict_form;
mod flow;
mod keywords;
pub mod manner;
mod names;
mod operand;
pub mod outcome;
mod tasks;
mod words;

use attr::{attr_step, del_attr_step, set_attr_step};
use bounds::{Counted, Part, with_count, with_start, with_stop};
use call_form::{Called, argued, call_step, evaluated, loaded};
use class_form::class_step;
use class_world::limits::is_within_limit;
use class_world::{Fixed, World};
use dict_form::{keyed, next_key, valued};
use flow::{branch, if_step, seq_step};
use names::name_step;
use operand::operand;
use outcome::{Outcome, made};
use py_node::{
    Answer, BuiltIn, Cause, Constant, EvalTask, ExprRef, Form, Function, Kind, OutOfMemory,
    Payload, PyObjectRef, PyStrInterned, Raised, Step, Task, Word,
};
use std::alloc::Global;
use words::op_step;

/// What a row of an expression keeps while it waits for an answer.
#[derive(Drop)]
pub enum EvalKept {
    /// The answer is passed on.
    Pass,
    /// This is made of the answer.
    Made(Outcome),
    /// A word whose second operand is asked for its number, and the first operand.
    Count(Counted, PyObjectRef),
    /// A word for a part of a sequence whose first place is asked for its number: the sequence, and the second place.
    Start(Part, PyObjectRef, PyObjectRef),
    /// The same for the second place: the sequence, and what was answered for the first.
    Stop(Part, PyObjectRef, PyObjectRef),
    /// The branches of a condition.
    Branch(ExprRef, ExprRef),
    /// The expression, and the values of its operands so far.
    Operands(ExprRef, Vec<PyObjectRef>),
    /// The call whose method is being loaded.
    Load(ExprRef),
    /// The call, what it calls, and the values of its arguments, and then of its keywords, so far.
    Arguments(ExprRef, Called, Vec<PyObjectRef>),
    /// The dict whose next key is evaluated, and its pairs so far.
    Key(ExprRef, Vec<(PyObjectRef, PyObjectRef)>),
    /// The dict, its pairs so far, and the key whose value is evaluated.
    Value(ExprRef, Vec<(PyObjectRef, PyObjectRef)>, PyObjectRef),
}

/// Begins a task.
pub fn begin(world: &mut World, task: EvalTask) -> Result<Step<EvalKept>, OutOfMemory>
    requires { AllHold world.old (of_eval_task task) }
    ensures goes { IfOk result (λ step. Begins task world.old world.new step) }
    ensures safe { Leaves of_eval_kept world.old world.new result }
{
    let alloc = world.alloc();
    match task {
        EvalTask::Eval(e) => next_operand(world, e, Vec::new(alloc)),
    }
}

/// Goes on with a task that was given an answer.
pub fn resume(
    world: &mut World,
    kept: EvalKept,
    answer: Result<Answer, Raised>,
) -> Result<Step<EvalKept>, OutOfMemory>
    requires kept { AllHold world.old (of_eval_kept kept) }
    requires answer { AllHold world.old (of_ended answer) }
    ensures goes { IfOk result (λ step. Resumes kept answer world.old world.new step) }
    ensures safe { Leaves of_eval_kept world.old world.new result }
{
    match kept {
        EvalKept::Pass => Ok(Step::End(answer)),
        EvalKept::Operands(e, values) => match object_of(answer) {
            Ok(value) => one_more(world, e, values, value),
            Err(other) => Ok(Step::End(other)),
        },
        EvalKept::Load(e) => loaded(world, e, answer),
        EvalKept::Arguments(e, called, values) => argued(world, e, called, values, answer),
        EvalKept::Key(e, pairs) => {
            let step = keyed(world, e, pairs, answer);
            Ok(step)
        }
        EvalKept::Value(e, pairs, key) => valued(world, e, pairs, key, answer),
        EvalKept::Made(outcome) => made(world, outcome, answer),
        EvalKept::Count(counted, object) => {
            let step = with_count(world, counted, object, answer);
            Ok(step)
        }
        EvalKept::Start(part, object, stop) => {
            let step = with_start(world, part, object, stop, answer);
            Ok(step)
        }
        EvalKept::Stop(part, object, start) => {
            let step = with_stop(world, part, object, start, answer);
            Ok(step)
        }
        EvalKept::Branch(chosen, other) => {
            let step = branch(world, chosen, other, answer);
            Ok(step)
        }
    }
}

// The object that was answered, or else the answer as it is.
pub(crate) fn object_of(
    answer: Result<Answer, Raised>,
) -> Result<PyObjectRef, Result<Answer, Raised>>
    ensures object { IfOk result (λ r. answer ≡ Ok (Answer.Value r)) }
    ensures same { IfErr result (λ other. other ≡ answer) }
    ensures other { IfErr result (λ _. IsOther answer) }
{
    match answer {
        Ok(Answer::Value(value)) => Ok(value),
        other => Err(other),
    }
}

// The next operand is evaluated, after one that has a value.
fn one_more(
    world: &mut World,
    e: ExprRef,
    values: Vec<PyObjectRef>,
    value: PyObjectRef,
) -> Result<Step<EvalKept>, OutOfMemory>
    requires kept { AllHold world.old (of_eval_kept (EvalKept.Operands e values)) }
    requires answer { Holds world.old (IsNode value) }
    ensures goes { IfOk result (λ step.
        Resumes (EvalKept.Operands e values) (Ok (Answer.Value value)) world.old world.new step) }
    ensures safe { Leaves of_eval_kept world.old world.new result }
{
    let values = with_value(values, value)?;
    next_operand(world, e, values)
}

// The values with one more.
pub(crate) fn with_value(
    values: Vec<PyObjectRef>,
    value: PyObjectRef,
) -> Result<Vec<PyObjectRef>, OutOfMemory>
    ensures { IfOk result (λ v. v.items ≡ values.items ++ value ∷ []) }
{
    let mut values = values;
    values.push(value)?;
    Ok(values)
}

// The next operand is evaluated. Where all have values, the expression has its own step.
fn next_operand(
    world: &mut World,
    e: ExprRef,
    values: Vec<PyObjectRef>,
) -> Result<Step<EvalKept>, OutOfMemory>
    requires expression { Holds world.old (IsExpression e) }
    requires values { Holds world.old (AreNodes values.items) }
    requires fits { length values.items ≤ length (operands_at (slice_get world.old.forms e.0)) }
    ensures goes { IfOk result (λ step. Continues e values.items world.old world.new step) }
    ensures safe { Leaves of_eval_kept world.old world.new result }
{
    let form = world.form(e);
    match operand(form, values.len()) {
        Some(operand) => Ok(Step::Ask(
            Task::Eval(EvalTask::Eval(evaluated(world, form, operand))),
            EvalKept::Operands(e, values),
        )),
        None => own_step(world, e, values),
    }
}

/// What an expression does with the values of its operands.
#[derive(Drop)]
pub enum Own {
    Const(Constant),
    Name(PyStrInterned),
    Bind(PyStrInterned),
    Tuple,
    List,
    Dict,
    /// The function's name, its parameters, whether the last one takes the rest, and its body.
    Func(PyStrInterned, Vec<PyStrInterned>, bool, ExprRef),
    Attr(PyStrInterned),
    SetAttr(PyStrInterned),
    DelAttr(PyStrInterned),
    /// The expression of what is called.
    Call(ExprRef),
    Op(Word),
    /// The expressions of the branches.
    If(ExprRef, ExprRef),
    Seq,
    Raise(Kind),
    /// The class's name, how many bases it has, the names of its keywords, and those of its entries.
    Class(PyStrInterned, usize, Vec<PyStrInterned>, Vec<PyStrInterned>),
}

// The step of an expression whose operands have their values.
fn own_step(
    world: &mut World,
    e: ExprRef,
    values: Vec<PyObjectRef>,
) -> Result<Step<EvalKept>, OutOfMemory>
    requires expression { Holds world.old (IsExpression e) }
    requires values { Holds world.old (AreNodes values.items) }
    requires all { HasValues world.old e values.items }
    ensures goes { IfOk result (λ step. Continues e values.items world.old world.new step) }
    ensures safe { Leaves of_eval_kept world.old world.new result }
{
    let alloc = world.alloc();
    match own_of(alloc, world.form(e))? {
        Own::Const(constant) => const_step(world, constant),
        Own::Name(name) => {
            let step = name_step(world, name);
            Ok(step)
        }
        Own::Bind(name) => bind_step(world, name, one_of(&values)),
        Own::Tuple => tuple_step(world, values),
        Own::List => list_step(world, values),
        Own::Dict => next_key(world, e, Vec::new(alloc)),
        Own::Func(name, params, rest, body) => func_step(world, name, params, rest, body),
        Own::Attr(name) => {
            let step = attr_step(name, one_of(&values));
            Ok(step)
        }
        Own::SetAttr(name) => {
            let step = set_attr_step(name, &values);
            Ok(step)
        }
        Own::DelAttr(name) => {
            let step = del_attr_step(name, one_of(&values));
            Ok(step)
        }
        Own::Call(func) => call_step(world, e, func, one_of(&values)),
        Own::Op(word) => op_step(world, word, &values),
        Own::If(chosen, other) => {
            let step = if_step(chosen, other, one_of(&values));
            Ok(step)
        }
        Own::Seq => {
            let step = seq_step(world, &values);
            Ok(step)
        }
        Own::Raise(kind) => Ok(raise_step(kind)),
        Own::Class(name, bases, keys, names) => {
            class_step(world, name, bases, &keys, &names, &values)
        }
    }
}

// What an expression does with the values of its operands.
fn own_of(alloc: Global, form: &Form) -> Result<Own, OutOfMemory>
    ensures { IfOk result (λ o. IsOwn o form.now) }
{
    match form {
        Form::Const(constant) => {
            let copy = constant.try_clone(alloc)?;
            Ok(Own::Const(copy))
        }
        Form::Name(name) => Ok(Own::Name(*name)),
        Form::Bind(name, _) => Ok(Own::Bind(*name)),
        Form::Tuple(_) => Ok(Own::Tuple),
        Form::List(_) => Ok(Own::List),
        Form::Dict(_) => Ok(Own::Dict),
        Form::Func(func) => {
            let params = func.params.clone()?;
            Ok(Own::Func(func.name, params, func.rest, func.body))
        }
        Form::Attr(_, name) => Ok(Own::Attr(*name)),
        Form::SetAttr(_, name, _) => Ok(Own::SetAttr(*name)),
        Form::DelAttr(_, name) => Ok(Own::DelAttr(*name)),
        Form::If(_, chosen, other) => Ok(Own::If(*chosen, *other)),
        Form::Seq(_) => Ok(Own::Seq),
        Form::Call(call) => Ok(Own::Call(call.function)),
        Form::Op(word, _) => Ok(Own::Op(*word)),
        Form::Raise(kind) => Ok(Own::Raise(*kind)),
        Form::Class(class) => {
            let keys = names_of(alloc, &class.keywords)?;
            let names = names_of(alloc, &class.entries)?;
            Ok(Own::Class(class.name, class.bases.len(), keys, names))
        }
    }
}

// The names of entries.
pub(crate) fn names_of(
    alloc: Global,
    entries: &[(PyStrInterned, ExprRef)],
) -> Result<Vec<PyStrInterned>, OutOfMemory>
    ensures { IfOk result (λ v. v.items ≡ map (λ e. e.0) entries.now) }
{
    let mut names = Vec::new(alloc);
    for entry in entries {
        names.push(entry.0)?;
    }
    Ok(names)
}

// A constant is a fixed object, or a new one.
#[tactic(auto, unfolding(crate::specs::EvalForms::Say::eval_say, py_node::specs::BuiltIns::place_of))]
fn const_step(world: &mut World, constant: Constant) -> Result<Step<EvalKept>, OutOfMemory>
    ensures goes { IfOk result (λ step. Goes (λ t. operands_row (TConst (literal_of constant)) []) world.old world.new step) }
    ensures safe { Leaves of_eval_kept world.old world.new result }
{
    match constant {
        Constant::None => Ok(Step::End(Ok(Answer::Value(world.fixed(Fixed::None))))),
        Constant::False => Ok(Step::End(Ok(Answer::Value(world.fixed(Fixed::False))))),
        Constant::True => Ok(Step::End(Ok(Answer::Value(world.fixed(Fixed::True))))),
        Constant::Int(z) => {
            let class = world.built_in(BuiltIn::Int);
            let node = world.make_node(class, Payload::Number(z as i128))?;
            Ok(Step::End(Ok(Answer::Value(node))))
        }
        Constant::Str(text) => {
            if !is_within_limit(text.len()) {
                return Ok(Step::raise(Cause::TooLong));
            }
            let class = world.built_in(BuiltIn::Str);
            let node = world.make_node(class, Payload::Text(text))?;
            Ok(Step::End(Ok(Answer::Value(node))))
        }
    }
}

// A variable is bound to the value of its operand, which is the answer.
fn bind_step(
    world: &mut World,
    name: PyStrInterned,
    value: Option<PyObjectRef>,
) -> Result<Step<EvalKept>, OutOfMemory>
    requires name { Holds world.old (IsName name) }
    requires value { AllHold world.old (of_option of_node_ref value) }
    ensures goes { IfOk result (λ step. EndsRow (λ t w. bind_say w (t.text name.0) value) world.old world.new step) }
    ensures safe { Leaves of_eval_kept world.old world.new result }
{
    match value {
        None => Ok(Step::raise(Cause::ArgCount)),
        Some(value) => {
            world.bind(name, value)?;
            Ok(Step::End(Ok(Answer::Value(value))))
        }
    }
}

// The operand of a form with one.
pub(crate) fn one_of(values: &[PyObjectRef]) -> Option<PyObjectRef>
    ensures { result ≡ one_of values.now }
{
    match values {
        [a] => Some(*a),
        _ => None,
    }
}

// A new tuple of the operands.
#[tactic(auto, unfolding(py_node::specs::BuiltIns::place_of))]
pub(crate) fn tuple_step(
    world: &mut World,
    values: Vec<PyObjectRef>,
) -> Result<Step<EvalKept>, OutOfMemory>
    requires { Holds world.old (AreNodes values.items) }
    ensures goes { IfOk result (λ step. EndsRow (λ t w. tuple_say w values.items) world.old world.new step) }
    ensures safe { Leaves of_eval_kept world.old world.new result }
{
    if !is_within_limit(values.len()) {
        return Ok(Step::raise(Cause::TooLong));
    }
    let class = world.built_in(BuiltIn::Tuple);
    let node = world.make_node(class, Payload::Tuple(values))?;
    Ok(Step::End(Ok(Answer::Value(node))))
}

// A new list of the operands.
#[tactic(auto, unfolding(py_node::specs::BuiltIns::place_of))]
pub(crate) fn list_step(
    world: &mut World,
    values: Vec<PyObjectRef>,
) -> Result<Step<EvalKept>, OutOfMemory>
    requires { Holds world.old (AreNodes values.items) }
    ensures goes { IfOk result (λ step. EndsRow (λ t w. list_say w values.items) world.old world.new step) }
    ensures safe { Leaves of_eval_kept world.old world.new result }
{
    if !is_within_limit(values.len()) {
        return Ok(Step::raise(Cause::TooLong));
    }
    let class = world.built_in(BuiltIn::List);
    let node = world.make_node(class, Payload::List(values))?;
    Ok(Step::End(Ok(Answer::Value(node))))
}

// A function is a new object.
#[tactic(auto, unfolding(py_node::specs::BuiltIns::place_of))]
fn func_step(
    world: &mut World,
    name: PyStrInterned,
    params: Vec<PyStrInterned>,
    rest: bool,
    body: ExprRef,
) -> Result<Step<EvalKept>, OutOfMemory>
    requires parts { AllHold world.old (IsName name ∷ AreNames params.items ∷ IsExpression body ∷ []) }
    ensures goes { IfOk result (λ step.
        EndsRow (λ t w.
        func_say w (t.text name.0) (map (λ p. t.text p.0) params.items) rest (t.tree body.0)) world.old world.new step) }
    ensures safe { Leaves of_eval_kept world.old world.new result }
{
    let class = world.built_in(BuiltIn::Function);
    let function = Function {
        name,
        params,
        rest,
        body,
        class: None,
    };
    let boxed = Box::new(world.alloc(), function)?;
    let node = world.make_node(class, Payload::Function(boxed))?;
    Ok(Step::End(Ok(Answer::Value(node))))
}

// A fault of this kind.
fn raise_step(kind: Kind) -> Step<EvalKept>
    ensures goes { (w : World) → EndsRow (λ t u. raise_say u kind) w w result }
    ensures safe { (w : World) → AllHold w (of_step of_eval_kept result) }
{
    Step::End(Err(Raised {
        kind,
        cause: Cause::Body,
    }))
}
