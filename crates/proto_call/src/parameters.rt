//! How the arguments of a call fill the parameters of a function.

ghost use Rattle.proto_call.specs.Below.{true, map, is_none, IsTrue, IfOk, IfSome, option_map, All, PyStrInterned, Held, Reading, spelled, bindings, AllHold, AreNames, AreNodes, Holds, has_value, of_binding, of_each};
ghost use Rattle.std.specs.Prelude.{◌≡◌, ◌&&◌};
ghost use Rattle.proto_call.specs.Say.{single, left_over, is_member, value_at, with_keywords, all_filled};

use py_node::{OutOfMemory, PyAttributes, PyObjectRef, PyStrInterned};

/// The parameters that take one argument each: all, or all but the last where that takes the rest.
pub(crate) fn single(params: &[PyStrInterned], rest: bool) -> &[PyStrInterned]
    ensures names { (t : Reading) → map (spelled t) result.now ≡ single rest (map (spelled t) params.now) }
    ensures held { result.now ≡ single rest params.now }
    ensures holds { (w : Held) → Holds w (AreNames params.now) → Holds w (AreNames result.now) }
{
    match params {
        [singles @ .., _] if rest => singles,
        _ => params,
    }
}

/// The arguments past the parameters.
pub(crate) fn left_over<'a>(params: &[PyStrInterned], args: &'a [PyObjectRef]) -> &'a [PyObjectRef]
    ensures items { (t : Reading) → result.now ≡ left_over (map (spelled t) params.now) args.now }
    ensures holds { (w : Held) → Holds w (AreNodes args.now) → Holds w (AreNodes result.now) }
{
    let taken = params.len().min(args.len());
    &args[taken..]
}

// Whether a name is one of some names.
fn is_member(names: &[PyStrInterned], name: PyStrInterned) -> bool
    ensures { (t : Reading) → is_member (map (spelled t) names.now) (spelled t name) ≡ result }
{
    names.contains(&name)
}

// Whether a keyword names a parameter that has no value yet.
fn is_open(params: &[PyStrInterned], vars: &PyAttributes, name: PyStrInterned) -> bool
    ensures { (t : Reading) → (is_member (map (spelled t) params.now) (spelled t name) &&
        is_none (value_at (bindings t vars.now) (spelled t name))) ≡ result }
{
    is_member(params, name) && !vars.contains(name)
}

/// The values with those of keywords, each of which fills a parameter that has no value yet.
pub(crate) fn with_keywords(
    mut vars: PyAttributes,
    params: &[PyStrInterned],
    keywords: &[(PyStrInterned, PyObjectRef)],
) -> Result<Option<PyAttributes>, OutOfMemory>
    ensures vars { IfOk result (λ o. (t : Reading) → option_map (bindings t) o ≡
        with_keywords (map (spelled t) params.now) (bindings t vars) (bindings t keywords.now)) }
    ensures keeps { IfOk result (λ o. IfSome o (λ more. (x : PyStrInterned) → has_value vars x ≡ true →
        has_value more x ≡ true)) }
    ensures holds { IfOk result (λ o. IfSome o (λ more. (w : Held) → AllHold w (of_each of_binding vars) →
        AllHold w (of_each of_binding keywords.now) → AllHold w (of_each of_binding more))) }
{
    for (name, value) in keywords {
        if !is_open(params, &vars, *name) {
            return Ok(None);
        }
        vars.insert(*name, *value)?;
    }
    Ok(Some(vars))
}

/// Whether each parameter has a value.
pub(crate) fn all_filled(vars: &PyAttributes, params: &[PyStrInterned]) -> bool
    ensures filled { (t : Reading) → all_filled (bindings t vars.now) (map (spelled t) params.now) ≡ result }
    ensures all { IsTrue result → All (λ x. has_value vars.now x ≡ true) params.now }
{
    params.iter().all(|param| vars.contains(*param))
}
