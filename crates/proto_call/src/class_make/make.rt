//! The making of a class from a name, a tuple of bases and a namespace.

ghost use Rattle.proto_call.specs.Below.{eqb, map, option_map, string_bytes, IfOk, IfSome, TypeType, of_class_task, of_args, of_ended, of_step, Leaves, bindings, IsNode, AreNodes, IsClass, IsOf, Holds, AllHold, has_null, the_type};
ghost use Rattle.std.specs.Prelude.{◌≡◌};
ghost use Rattle.proto_call.specs.ClassMake.Say.{by_one, by_parts, from_three, one_of, three_of};
ghost use Rattle.proto_call.specs.ClassMake.Rows.{Begins, Resumes, Makes, of_class_kept};
ghost use Rattle.py_node.specs.declared.task.ClassTask.TheVariants as class_task;

use crate::class_make::ClassKept;
use crate::class_make::bases::by_bases;
use crate::class_make::namespace::{Entries, dict_at, text_at, tuple_at};
use class_world::World;
use py_node::task::{Args, Keywords};
use py_node::{
    Answer, BuiltIn, Cause, FuncArgs, Kind, OutOfMemory, PyObjectRef, PyTypeRef, Raised, Step,
};
use row_kit::questions::has_null;

/// Three arguments.
type Three = (PyObjectRef, (PyObjectRef, PyObjectRef));

/// The arguments and the keywords that a metaclass was called with.
#[derive(Drop)]
pub(crate) struct Call {
    pub(crate) args: Args,
    pub(crate) kw: Keywords,
}

/// The name and the namespace of a class to be.
#[derive(Drop)]
pub(crate) struct Body {
    pub(crate) name: String,
    pub(crate) entries: Entries,
}

/// The class of an object, or a new class.
pub(crate) fn make_class(
    world: &mut World,
    meta: PyTypeRef,
    args: Args,
    kw: Keywords,
) -> Result<Step<ClassKept>, OutOfMemory>
    requires { AllHold world.old (of_class_task (class_task.MakeClass meta args kw)) }
    ensures goes { IfOk result (λ step. Begins (class_task.MakeClass meta args kw) world.old world.new step) }
    ensures safe { Leaves of_class_kept world.old world.new result }
{
    let one = one_of(FuncArgs {
        args: &args,
        kw: &kw,
    });
    let call = Call { args, kw };
    by_one(world, meta, one, call)
}

// The one argument, without keywords.
fn one_of(call: FuncArgs<'_>) -> Option<PyObjectRef>
    ensures { result ≡ one_of call.entry.args.now call.entry.kw.now }
{
    match call.args {
        [only] if call.kw.is_empty() => Some(*only),
        _ => None,
    }
}

// Three arguments.
fn three_of(args: &[PyObjectRef]) -> Option<Three>
    ensures { result ≡ three_of args.now }
{
    match args {
        [name, bases, namespace] => Some((*name, (*bases, *namespace))),
        _ => None,
    }
}

// The class of the one argument, or a new class from three.
fn by_one(
    world: &mut World,
    meta: PyTypeRef,
    one: Option<PyObjectRef>,
    call: Call,
) -> Result<Step<ClassKept>, OutOfMemory>
    requires meta { Holds world.old (IsClass meta.0) }
    requires meta_of { Holds world.old (IsOf meta.0 TypeType) }
    requires one { IfSome one (λ r. Holds world.old (IsNode r)) }
    requires rest { AllHold world.old (of_args call.args.items call.kw.items) }
    ensures goes { IfOk result (λ step. Makes call.kw.items (λ t u.
        by_one u meta.0 one call.args.items (bindings t call.kw.items)) world.old world.new step) }
    ensures safe { Leaves of_class_kept world.old world.new result }
{
    match one {
        Some(object) => {
            if is_type(world, meta) {
                return Ok(Step::End(Ok(Answer::Value(world.type_object(object)))));
            }
            Ok(Step::raise(Cause::TypeArgs))
        }
        None => {
            let three = three_of(&call.args);
            from_three(world, meta, three, call)
        }
    }
}

// Whether a class is `type`.
#[tactic(auto, unfolding(py_node::specs::BuiltIns::place_of))]
fn is_type(world: &World, class: PyTypeRef) -> bool
    ensures { result ≡ eqb class.0 the_type }
{
    let of_type = world.built_in(BuiltIn::TypeType);
    class.0 == of_type.0
}

// A new class from three arguments.
fn from_three(
    world: &mut World,
    meta: PyTypeRef,
    three: Option<Three>,
    call: Call,
) -> Result<Step<ClassKept>, OutOfMemory>
    requires meta { Holds world.old (IsClass meta.0) }
    requires meta_of { Holds world.old (IsOf meta.0 TypeType) }
    requires three { IfSome three (λ p. Holds world.old (IsNode p.0) ×
        (Holds world.old (IsNode p.1.0) × Holds world.old (IsNode p.1.1))) }
    requires rest { AllHold world.old (of_args call.args.items call.kw.items) }
    ensures goes { IfOk result (λ step. Makes call.kw.items (λ t u.
        from_three u meta.0 three call.args.items (bindings t call.kw.items)) world.old world.new step) }
    ensures safe { Leaves of_class_kept world.old world.new result }
{
    match three {
        None => Ok(Step::raise(Cause::TypeArgs)),
        Some((name, (bases, entries))) => {
            let name = text_at(world, name)?;
            let bases = tuple_at(world, bases)?;
            let entries = dict_at(world, entries)?;
            by_parts(world, meta, name, bases, entries, call)
        }
    }
}

// A new class from a text, a tuple and a dict.
fn by_parts(
    world: &mut World,
    meta: PyTypeRef,
    name: Option<String>,
    bases: Option<Args>,
    entries: Option<Entries>,
    call: Call,
) -> Result<Step<ClassKept>, OutOfMemory>
    requires meta { Holds world.old (IsClass meta.0) }
    requires meta_of { Holds world.old (IsOf meta.0 TypeType) }
    requires bases { IfSome bases (λ rs. Holds world.old (AreNodes rs.items)) }
    requires keys { IfSome entries (λ es. Holds world.old (AreNodes (map (λ e. e.0) es.items))) }
    requires values { IfSome entries (λ es. Holds world.old (AreNodes (map (λ e. e.1) es.items))) }
    requires rest { AllHold world.old (of_args call.args.items call.kw.items) }
    ensures goes { IfOk result (λ step. Makes call.kw.items (λ t u.
        by_parts u meta.0 (option_map (λ s. string_bytes s) name) (option_map (λ rs. rs.items) bases)
        (option_map (λ es. es.items) entries) call.args.items (bindings t call.kw.items)) world.old world.new step) }
    ensures safe { Leaves of_class_kept world.old world.new result }
{
    match (name, bases, entries) {
        (Some(name), Some(bases), Some(entries)) => {
            if has_null(name.as_str()) {
                return Ok(Step::raise(Cause::NullInName));
            }
            let body = Body { name, entries };
            by_bases(world, meta, bases, body, call)
        }
        _ => Ok(Step::raise(Cause::TypeArgTypes)),
    }
}

/// A base that is no class and names others is refused, and so is one that does not.
pub(crate) fn no_class(world: &World, answer: Result<Answer, Raised>) -> Step<ClassKept>
    requires { AllHold world.now (of_ended answer) }
    ensures goes { Resumes ClassKept.NoClass answer world.now world.now result }
    ensures safe { AllHold world.now (of_step of_class_kept result) }
{
    match answer {
        Ok(_others) => Step::raise(Cause::MroEntries),
        Err(raised) => match raised.kind {
            Kind::AttributeError => Step::raise(Cause::BasesNotTypes),
            _ => Step::End(Err(raised)),
        },
    }
}
