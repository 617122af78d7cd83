//! Keywords of calls and of classes.

ghost use Rattle.proto_call.specs.Below.{[], filter, length, map, not, option_map, IfOk, IfSome, is_same_name, Held, Reading, bindings, spelled, AllHold, AreNames, AreNodes, Holds, of_binding, of_each};
ghost use Rattle.std.specs.Prelude.{◌≡◌, ◌≤◌};
ghost use Rattle.proto_call.specs.EvalForms.Say.{unrepeated};

use class_world::args::filled;
use py_node::task::Keywords;
use py_node::{OutOfMemory, PyAttributes, PyObjectRef, PyStrInterned};
use std::alloc::Global;

// Names with values in order, unless a name stands twice.
pub(crate) fn unrepeated(
    alloc: Global,
    names: &[PyStrInterned],
    values: &[PyObjectRef],
) -> Result<Option<PyAttributes>, OutOfMemory>
    requires { length names.now ≤ length values.now }
    ensures keywords { IfOk result (λ o. (t : Reading) →
        unrepeated [] (map (spelled t) names.now) values.now ≡ option_map (bindings t) o) }
    ensures holds { IfOk result (λ o. IfSome o (λ kw. (w : Held) → Holds w (AreNames names.now) →
        Holds w (AreNodes values.now) → AllHold w (of_each of_binding kw))) }
{
    let keywords = filled(alloc, names, values)?;
    if keywords.len() < names.len() {
        Ok(None)
    } else {
        Ok(Some(keywords))
    }
}

// The keywords as a list.
pub(crate) fn list_of(alloc: Global, keywords: &PyAttributes) -> Result<Keywords, OutOfMemory>
    ensures { IfOk result (λ v. v.items ≡ keywords.now) }
{
    let mut list = Vec::new(alloc);
    for i in 0..keywords.len() {
        list.push(keywords.at(i))?;
    }
    Ok(list)
}

// The keywords without one.
pub(crate) fn without(
    alloc: Global,
    keywords: &[(PyStrInterned, PyObjectRef)],
    name: PyStrInterned,
) -> Result<Keywords, OutOfMemory>
    ensures { IfOk result (λ v. v.items ≡ filter (λ k. not (is_same_name k.0 name)) keywords.now) }
{
    let mut rest = Vec::new(alloc);
    for (key, value) in keywords {
        if key.0 != name.0 {
            rest.push((*key, *value))?;
        }
    }
    Ok(rest)
}
