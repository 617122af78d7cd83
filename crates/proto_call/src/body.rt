//! The row of a body: arguments and keywords fill the parameters of its function, and its scope opens.

ghost use Rattle.proto_call.specs.Below.{[], map, string_bytes, IfOk, IfSome, OnOk, started_of, ATuple, datum_at, is_text, with_node, next_node, Reading, Reads, spelled, bindings, plain, function_datum, AllHold, AreNames, AreNodes, Grows, HasParams, HasValues, Holds, IsName, IsNode, of_binding, of_each, of_function, of_node_ref, of_option, of_args, LeavesOpen, with_value, the_tuple, filled};
ghost use Rattle.std.specs.Prelude.{◌≡◌, ◌∷◌};
ghost use Rattle.py_node.specs.declared.task.CallTask.TheVariants as call;
ghost use Rattle.proto_call.specs.Say.{but_last, last_of, left_over, rest_fits, value_text, shown, started};
ghost use Rattle.proto_call.specs.Rows.{Begins, of_call_kept, bodies_of};
ghost use Rattle.proto_call.specs.Bodies.{Enters, LastFilled, RestFilled, RunsAs, datum_of, last_in, opened_of, by_keywords_of, by_place_of};

use crate::CallKept;
use crate::parameters::{all_filled, left_over, single, with_keywords};
use class_world::World;
use class_world::args::{copy_args, filled};
use class_world::limits::is_within_limit;
use py_node::task::{Args, Keywords};
use py_node::{
    BodyCall, BuiltIn, Cause, EvalTask, FuncArgs, Function, OutOfMemory, Payload, PyAttributes,
    PyObjectRef, PyStrInterned, Step, Task,
};
use std::alloc::Global;
use world_text::show::show;

/// Runs the body of a function.
pub(crate) fn begin_body(
    world: &mut World,
    f: PyObjectRef,
    args: Args,
    kw: Keywords,
) -> Result<Step<CallKept>, OutOfMemory>
    requires { AllHold world.old (IsNode f ∷ of_args args.items kw.items) }
    ensures goes { IfOk result (λ step. Begins (call.Body f args kw) world.old world.new step) }
    ensures safe { LeavesOpen of_call_kept bodies_of 0 world.old world.new result }
{
    match function_at(world, f)? {
        Some(function) => by_place(
            world,
            f,
            &function,
            FuncArgs {
                args: &args,
                kw: &kw,
            },
        ),
        None => Ok(Step::raise(Cause::NotCallable)),
    }
}

// The function that an object is, if it is one.
fn function_at(world: &World, node: PyObjectRef) -> Result<Option<Function>, OutOfMemory>
    requires { Holds world.now (IsNode node) }
    ensures params { IfOk result (λ o. IfSome o (λ g. Holds world.now (HasParams node g.params.items))) }
    ensures runs { IfOk result (λ o. (t : Reading) → RunsAs (datum_at (plain t world.now) node) (datum_of t o)) }
    ensures holds { IfOk result (λ o. AllHold world.now (of_option of_function o)) }
{
    let alloc = world.alloc();
    match world.payload(node) {
        Payload::Function(function) => Ok(Some(copy_function(alloc, function)?)),
        _ => Ok(None),
    }
}

// The same function again.
fn copy_function(alloc: Global, function: &Function) -> Result<Function, OutOfMemory>
    ensures same { IfOk result (λ g. (t : Reading) → function_datum t g ≡
        function_datum t function.now) }
    ensures params { IfOk result (λ g. g.params.items ≡ function.now.params.items) }
    ensures claims { IfOk result (λ g. of_function g ≡ of_function function.now) }
{
    let mut params = Vec::new(alloc);
    params.extend_from_slice(&function.params)?;
    Ok(Function {
        name: function.name,
        params,
        rest: function.rest,
        body: function.body,
        class: function.class,
    })
}

// Arguments fill the parameters by place. Those that are left over are a new tuple, for the
// parameter that takes the rest, and no more than a tuple may have; without one there may be none.
fn by_place(
    world: &mut World,
    f: PyObjectRef,
    function: &Function,
    call: FuncArgs<'_>,
) -> Result<Step<CallKept>, OutOfMemory>
    requires params { Holds world.old (HasParams f function.now.params.items) }
    requires node { Holds world.old (IsNode f) }
    requires function { AllHold world.old (of_function function.now) }
    requires args { AllHold world.old (of_args call.args.now call.kw.now) }
    ensures goes { IfOk result (λ step. Enters (by_place_of function.now f call.entry.args.now call.entry.kw.now) world.old world.new step) }
    ensures safe { LeavesOpen of_call_kept bodies_of 0 world.old world.new result }
{
    let alloc = world.alloc();
    if function.rest {
        if !rest_fits(&function.params, call.args) {
            return Ok(Step::raise(Cause::TooLong));
        }
        let vars = with_rest(world, &function.params, call.args)?;
        by_keywords(world, f, function, vars, call.kw)
    } else if left_over(&function.params, call.args).is_empty() {
        let vars = filled(alloc, &function.params, call.args)?;
        by_keywords(world, f, function, vars, call.kw)
    } else {
        Ok(Step::raise(Cause::ArgCount))
    }
}

// Whether the arguments that are left over for the last parameter can be a tuple.
fn rest_fits(params: &[PyStrInterned], args: &[PyObjectRef]) -> bool
    ensures { (t : Reading) → rest_fits (map (spelled t) params.now) args.now ≡ result }
{
    is_within_limit(left_over(single(params, true), args).len())
}

// The values of parameters of which the last takes the arguments that are left over, as a new
// tuple.
fn with_rest(
    world: &mut World,
    params: &[PyStrInterned],
    args: &[PyObjectRef],
) -> Result<PyAttributes, OutOfMemory>
    requires params { Holds world.old (AreNames params.now) }
    requires args { Holds world.old (AreNodes args.now) }
    ensures made { OnOk result ((t : Reading) → plain t world.new ≡
        with_node (plain t world.old) the_tuple (ATuple (left_over (but_last (map (spelled t) params.now)) args.now))) }
    ensures vars { IfOk result (λ vars. (t : Reading) → Reads t world.new → bindings t vars ≡
        with_value is_text (filled [] (but_last (map (spelled t) params.now)) args.now)
        (last_of (map (spelled t) params.now)) (next_node (plain t world.old) the_tuple)) }
    ensures last { IfOk result (λ vars. LastFilled params.now vars) }
    ensures reads { (t : Reading) → Reads t world.new → Reads t world.old }
    ensures grows { Grows world.old world.new }
    ensures holds { IfOk result (λ vars. AllHold world.new (of_each of_binding vars)) }
{
    let alloc = world.alloc();
    let last = last_name(world, params)?;
    let singles = single(params, true);
    let mut vars = filled(alloc, singles, args)?;
    let tuple = make_tuple(world, left_over(singles, args))?;
    vars.insert(last, tuple)?;
    Ok(vars)
}

// The last of some names, or else the name of no characters.
fn last_name(world: &mut World, names: &[PyStrInterned]) -> Result<PyStrInterned, OutOfMemory>
    requires { Holds world.old (AreNames names.now) }
    ensures spelled { IfOk result (λ x. (t : Reading) → Reads t world.new → spelled t x ≡
        last_of (map (spelled t) names.now)) }
    ensures last { IfOk result (λ x. IfSome (last_in names.now) (λ y. y ≡ x)) }
    ensures same { (t : Reading) → plain t world.new ≡ plain t world.old }
    ensures reads { (t : Reading) → Reads t world.new → Reads t world.old }
    ensures grows { Grows world.old world.new }
    ensures holds { IfOk result (λ x. Holds world.new (IsName x)) }
{
    match names {
        [.., name] => Ok(*name),
        [] => world.intern(""),
    }
}

// A new tuple.
fn make_tuple(world: &mut World, items: &[PyObjectRef]) -> Result<PyObjectRef, OutOfMemory>
    requires { Holds world.old (AreNodes items.now) }
    ensures made { OnOk result ((t : Reading) → plain t world.new ≡
        with_node (plain t world.old) the_tuple (ATuple items.now)) }
    ensures number { IfOk result (λ r. (t : Reading) → r ≡ next_node (plain t world.old) the_tuple) }
    ensures reads { (t : Reading) → Reads t world.new → Reads t world.old }
    ensures grows { Grows world.old world.new }
    ensures node { IfOk result (λ r. Holds world.new (IsNode r)) }
{
    let alloc = world.alloc();
    let items = copy_args(alloc, items)?;
    let class = world.built_in(BuiltIn::Tuple);
    world.make_node(class, Payload::Tuple(items))
}

// Keywords fill parameters that have no value yet, and then each must have one.
fn by_keywords(
    world: &mut World,
    f: PyObjectRef,
    function: &Function,
    vars: PyAttributes,
    kw: &[(PyStrInterned, PyObjectRef)],
) -> Result<Step<CallKept>, OutOfMemory>
    requires params { Holds world.old (HasParams f function.now.params.items) }
    requires rest { RestFilled function.now vars }
    requires node { Holds world.old (IsNode f) }
    requires function { AllHold world.old (of_function function.now) }
    requires vars { AllHold world.old (of_each of_binding vars) }
    requires kw { AllHold world.old (of_each of_binding kw.now) }
    ensures goes { IfOk result (λ step. Enters (by_keywords_of function.now f vars kw.now) world.old world.new step) }
    ensures safe { LeavesOpen of_call_kept bodies_of 0 world.old world.new result }
{
    let singles = single(&function.params, function.rest);
    match with_keywords(vars, singles, kw)? {
        None => Ok(Step::raise(Cause::UnexpectedKeyword)),
        Some(vars) => {
            if all_filled(&vars, singles) {
                opened(world, f, function, vars)
            } else {
                Ok(Step::raise(Cause::ArgCount))
            }
        }
    }
}

// The body's scope opens, its start is noted, and it is evaluated.
fn opened(
    world: &mut World,
    f: PyObjectRef,
    function: &Function,
    vars: PyAttributes,
) -> Result<Step<CallKept>, OutOfMemory>
    requires values { Holds world.old (HasValues f vars) }
    requires node { Holds world.old (IsNode f) }
    requires function { AllHold world.old (of_function function.now) }
    requires vars { AllHold world.old (of_each of_binding vars) }
    ensures goes { IfOk result (λ step. Enters (opened_of function.now f vars) world.old world.new step) }
    ensures safe { LeavesOpen of_call_kept bodies_of 0 world.old world.new result }
{
    let start = started(world, function, &vars)?;
    world.open_scope(f, vars, start)?;
    Ok(Step::Ask(Task::Eval(EvalTask::Eval(function.body)), CallKept::Scope))
}

// The note of a body's start: its function's name, and the texts of its parameters' values.
fn started(world: &World, function: &Function, vars: &PyAttributes) -> Result<BodyCall, OutOfMemory>
    requires function { AllHold world.now (of_function function.now) }
    requires vars { AllHold world.now (of_each of_binding vars.now) }
    ensures { IfOk result (λ c. (t : Reading) → Reads t world.now → started_of c ≡
        started (plain t world.now) (spelled t function.now.name) (map (spelled t) function.now.params.items)
        (bindings t vars.now)) }
{
    let name = world.spelling(function.name)?;
    let args = texts(world, &function.params, vars)?;
    Ok(BodyCall { name, args })
}

// The texts of parameters' values, in order.
fn texts(
    world: &World,
    params: &[PyStrInterned],
    vars: &PyAttributes,
) -> Result<Vec<String>, OutOfMemory>
    requires { AllHold world.now (of_each of_binding vars.now) }
    ensures { IfOk result (λ v. (t : Reading) → map (λ s. string_bytes s) v.items ≡
        map (shown (plain t world.now) (bindings t vars.now)) (map (spelled t) params.now)) }
{
    let alloc = world.alloc();
    let mut texts = Vec::with_capacity(alloc, params.len())?;
    for param in params {
        texts.push(shown(world, vars, *param)?)?;
    }
    Ok(texts)
}

// The text of a parameter's value.
fn shown(world: &World, vars: &PyAttributes, param: PyStrInterned) -> Result<String, OutOfMemory>
    requires { AllHold world.now (of_each of_binding vars.now) }
    ensures { IfOk result (λ s. (t : Reading) → string_bytes s ≡
        shown (plain t world.now) (bindings t vars.now) (spelled t param)) }
{
    value_text(world, vars.get(param))
}

// The text of a value, which is empty where there is none.
fn value_text(world: &World, value: Option<PyObjectRef>) -> Result<String, OutOfMemory>
    requires { AllHold world.now (of_option of_node_ref value) }
    ensures { IfOk result (λ s. (t : Reading) → string_bytes s ≡ value_text (plain t world.now) value) }
{
    let alloc = world.alloc();
    match value {
        Some(value) => show(world, value),
        None => Ok(String::new(alloc)),
    }
}
