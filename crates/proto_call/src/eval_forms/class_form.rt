//! The class form: a class's name, bases and entries are new objects, and a metaclass is called with them and with
//! keywords.

ghost use Rattle.proto_call.specs.Below.{[], length, map, slice_get, IfOk, OnOk, with_node, next_node, AText, ATuple, start, end, AllHold, Grows, Holds, IsName, IsNode, AreNames, AreNodes, of_each, of_binding, of_option, of_node_ref, Leaves, of_entries, of_keyed, Reading, Reads, bindings, plain, spelled, is_same_name, the_str, the_tuple};
ghost use Rattle.std.specs.Prelude.{◌≡◌, ◌+◌, ◌∷◌};
ghost use Rattle.proto_call.specs.EvalForms.Say.{class_by, class_say, class_within, keyed, metaclass, with_dict};
ghost use Rattle.proto_call.specs.EvalForms.Rows.{Goes, of_eval_kept};

use crate::eval_forms::EvalKept;
use crate::eval_forms::keywords::{list_of, unrepeated, without};
use class_world::World;
use class_world::args::{copy_args, filled};
use class_world::limits::is_within_limit;
use py_node::{
    BuiltIn, CallTask, Cause, Known, OutOfMemory, Payload, PyAttributes, PyDict, PyObjectRef,
    PyStrInterned, Step, Task,
};

// A class, with the values of its bases, of its keywords and of its entries.
pub(crate) fn class_step(
    world: &mut World,
    name: PyStrInterned,
    bases: usize,
    keys: &[PyStrInterned],
    names: &[PyStrInterned],
    values: &[PyObjectRef],
) -> Result<Step<EvalKept>, OutOfMemory>
    requires name { Holds world.old (IsName name) }
    requires keys { Holds world.old (AreNames keys.now) }
    requires names { Holds world.old (AreNames names.now) }
    requires values { Holds world.old (AreNodes values.now) }
    requires all { length values.now ≡ bases + (length keys.now + length names.now) }
    ensures goes { IfOk result (λ step.
        Goes (λ t u.
        class_say u (t.text name.0) bases (map (spelled t) keys.now) (map (spelled t) names.now) values.now)
        world.old world.new step) }
    ensures safe { Leaves of_eval_kept world.old world.new result }
{
    let alloc = world.alloc();
    let (bases, values) = values.split_at(bases);
    let (given, values) = values.split_at(keys.len());
    match unrepeated(alloc, keys, given)? {
        None => Ok(Step::raise(Cause::RepeatedKeyword)),
        Some(keywords) => {
            let entries = filled(alloc, names, values)?;
            class_within(world, name, bases, &keywords, &entries)
        }
    }
}

// The same once the keywords and the entries have their values, where neither the bases nor the entries are too many.
fn class_within(
    world: &mut World,
    name: PyStrInterned,
    bases: &[PyObjectRef],
    keywords: &PyAttributes,
    entries: &PyAttributes,
) -> Result<Step<EvalKept>, OutOfMemory>
    requires name { Holds world.old (IsName name) }
    requires bases { Holds world.old (AreNodes bases.now) }
    requires keywords { AllHold world.old (of_each of_binding keywords.now) }
    requires entries { AllHold world.old (of_each of_binding entries.now) }
    ensures goes { IfOk result (λ step.
        Goes (λ t u. class_within u (t.text name.0) bases.now (bindings t keywords.now) (bindings t entries.now))
        world.old world.new step) }
    ensures safe { Leaves of_eval_kept world.old world.new result }
{
    if !is_within_limit(bases.len()) {
        return Ok(Step::raise(Cause::TooLong));
    }
    if !is_within_limit(entries.len()) {
        return Ok(Step::raise(Cause::TooLong));
    }
    call_metaclass(world, name, bases, keywords, entries)
}

// A metaclass is called with a class's name, bases and entries, and with the keywords that do not give it.
#[tactic(auto, unfolding(crate::specs::EvalForms::Say::eval_say, py_node::specs::BuiltIns::place_of))]
fn call_metaclass(
    world: &mut World,
    name: PyStrInterned,
    bases: &[PyObjectRef],
    keywords: &PyAttributes,
    entries: &PyAttributes,
) -> Result<Step<EvalKept>, OutOfMemory>
    requires name { Holds world.old (IsName name) }
    requires bases { Holds world.old (AreNodes bases.now) }
    requires keywords { AllHold world.old (of_each of_binding keywords.now) }
    requires entries { AllHold world.old (of_each of_binding entries.now) }
    ensures goes { IfOk result (λ step.
        Goes (λ t u.
        start (class_by u (t.text name.0) bases.now (bindings t keywords.now) (bindings t entries.now)) (end u))
        world.old world.new step) }
    ensures safe { Leaves of_eval_kept world.old world.new result }
{
    let alloc = world.alloc();
    let key = world.known(Known::Metaclass);
    let meta = metaclass(world, keywords.get(key), first(bases));
    let given = list_of(alloc, keywords)?;
    let others = without(alloc, &given, key)?;
    let name = new_text(world, name)?;
    let bases = new_tuple(world, bases)?;
    let dict = new_dict(world, entries)?;
    let args = vec![in alloc; name, bases, dict]?;
    let task = CallTask::Call(meta, args, others);
    Ok(Step::Ask(Task::Call(task), EvalKept::Pass))
}

// A new tuple.
#[tactic(auto, unfolding(py_node::specs::BuiltIns::place_of))]
fn new_tuple(world: &mut World, items: &[PyObjectRef]) -> Result<PyObjectRef, OutOfMemory>
    requires { Holds world.old (AreNodes items.now) }
    ensures made { OnOk result ((t : Reading) → plain t world.new ≡
        with_node (plain t world.old) the_tuple (ATuple items.now)) }
    ensures number { IfOk result (λ r. (t : Reading) → r ≡ next_node (plain t world.old) the_tuple) }
    ensures reads { (t : Reading) → Reads t world.new → Reads t world.old }
    ensures grows { Grows world.old world.new }
    ensures node { IfOk result (λ r. Holds world.new (IsNode r)) }
{
    let alloc = world.alloc();
    let copy = copy_args(alloc, items)?;
    let class = world.built_in(BuiltIn::Tuple);
    world.make_node(class, Payload::Tuple(copy))
}

// A new dict: a new text for each name, with its value.
#[tactic(auto, unfolding(py_node::specs::BuiltIns::place_of))]
fn new_dict(world: &mut World, entries: &PyAttributes) -> Result<PyObjectRef, OutOfMemory>
    requires { AllHold world.old (of_each of_binding entries.now) }
    ensures made { IfOk result (λ r. (t : Reading) → Reads t world.new →
        with_dict (keyed (plain t world.old) [] (bindings t entries.now)) ≡ (plain t world.new, r)) }
    ensures reads { (t : Reading) → Reads t world.new → Reads t world.old }
    ensures grows { Grows world.old world.new }
    ensures node { IfOk result (λ r. Holds world.new (IsNode r)) }
{
    let dict = dict_of(world, entries)?;
    let class = world.built_in(BuiltIn::Dict);
    world.make_node(class, Payload::Dict(dict))
}

// The first of some objects.
fn first(objects: &[PyObjectRef]) -> Option<PyObjectRef>
    ensures { result ≡ slice_get objects.now 0 }
{
    objects.first().copied()
}

// What is called for a class: the one that is given, or else the class of the first base, or else `type`.
#[tactic(auto, unfolding(py_node::specs::BuiltIns::place_of))]
fn metaclass(world: &World, given: Option<PyObjectRef>, first: Option<PyObjectRef>) -> PyObjectRef
    requires given { AllHold world.now (of_option of_node_ref given) }
    requires first { AllHold world.now (of_option of_node_ref first) }
    ensures meta { (t : Reading) → metaclass (plain t world.now) given first ≡ result }
    ensures node { Holds world.now (IsNode result) }
{
    match (given, first) {
        (Some(meta), _) => meta,
        (None, Some(base)) => world.type_object(base),
        (None, None) => {
            let class = world.built_in(BuiltIn::TypeType);
            world.class_object(class)
        }
    }
}

// A new text: that of a name.
#[tactic(auto, unfolding(py_node::specs::BuiltIns::place_of))]
fn new_text(world: &mut World, name: PyStrInterned) -> Result<PyObjectRef, OutOfMemory>
    requires { Holds world.old (IsName name) }
    ensures made { OnOk result ((t : Reading) → Reads t world.old → plain t world.new ≡
        with_node (plain t world.old) the_str (AText (t.text name.0))) }
    ensures number { IfOk result (λ r. (t : Reading) → r ≡ next_node (plain t world.old) the_str) }
    ensures reads { (t : Reading) → Reads t world.new → Reads t world.old }
    ensures grows { Grows world.old world.new }
    ensures node { IfOk result (λ r. Holds world.new (IsNode r)) }
{
    let text = world.spelling(name)?;
    let class = world.built_in(BuiltIn::Str);
    world.make_node(class, Payload::Text(text))
}

// The dict of new texts for names, with their values.
fn dict_of(world: &mut World, entries: &PyAttributes) -> Result<PyDict, OutOfMemory>
    requires { AllHold world.old (of_each of_binding entries.now) }
    ensures keyed { IfOk result (λ d. (t : Reading) → Reads t world.new →
        keyed (plain t world.old) [] (bindings t entries.now) ≡ (plain t world.new, d.items)) }
    ensures reads { (t : Reading) → Reads t world.new → Reads t world.old }
    ensures grows { Grows world.old world.new }
    ensures holds { IfOk result (λ d. AllHold world.new (of_keyed d)) }
{
    let pairs = key_all(world, entries)?;
    let dict = world.entries_from(&pairs)?;
    Ok(dict)
}

// New texts for names, with their values.
fn key_all(
    world: &mut World,
    entries: &PyAttributes,
) -> Result<Vec<(PyObjectRef, PyObjectRef)>, OutOfMemory>
    requires { AllHold world.old (of_each of_binding entries.now) }
    ensures keyed { IfOk result (λ v. (t : Reading) → Reads t world.new →
        keyed (plain t world.old) [] (bindings t entries.now) ≡ (plain t world.new, v.items)) }
    ensures reads { (t : Reading) → Reads t world.new → Reads t world.old }
    ensures grows { Grows world.old world.new }
    ensures holds { IfOk result (λ v. AllHold world.new (of_entries v.items)) }
{
    let alloc = world.alloc();
    let mut pairs = Vec::new(alloc);
    for i in 0..entries.len() {
        let (name, value) = entries.at(i);
        let key = new_text(world, name)?;
        pairs.push((key, value))?;
    }
    world.readable();
    Ok(pairs)
}
