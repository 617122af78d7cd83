//! Arguments and keywords, as tasks take them.

ghost use Rattle.class_world.specs.Below.{[], map, IfOk, two_of, filled};
ghost use Rattle.std.specs.Prelude.{◌≡◌, ◌∷◌};
ghost use Rattle.class_world.specs.Held.{Held};
ghost use Rattle.class_world.specs.Reading.{Reading, spelled, bindings};
ghost use Rattle.class_world.specs.Sound.{AllHold, AreNames, AreNodes, Holds, IsNode, of_binding, of_each};

use py_node::task::{Args, Keywords};
use py_node::{OutOfMemory, PyAttributes, PyObjectRef, PyStrInterned};
use std::alloc::Global;

/// The arguments with one before them.
pub fn with_first(
    alloc: Global,
    first: PyObjectRef,
    args: &[PyObjectRef],
) -> Result<Args, OutOfMemory>
    ensures { IfOk result (λ v. v.items ≡ first ∷ args.now) }
{
    let mut all = Vec::new(alloc);
    all.push(first)?;
    all.extend_from_slice(args)?;
    Ok(all)
}

/// One argument.
pub fn alone(alloc: Global, a: PyObjectRef) -> Result<Args, OutOfMemory>
    ensures items { IfOk result (λ v. v.items ≡ a ∷ []) }
    ensures holds { IfOk result (λ v. (w : Held) → Holds w (IsNode a) → Holds w (AreNodes v.items)) }
{
    Ok(vec![in alloc; a]?)
}

/// Two arguments.
pub fn both(alloc: Global, a: PyObjectRef, b: PyObjectRef) -> Result<Args, OutOfMemory>
    ensures items { IfOk result (λ v. v.items ≡ a ∷ b ∷ []) }
    ensures holds { IfOk result (λ v. (w : Held) → Holds w (IsNode a) → Holds w (IsNode b) →
        Holds w (AreNodes v.items)) }
{
    Ok(vec![in alloc; a, b]?)
}

/// The same arguments again.
pub fn copy_args(alloc: Global, args: &[PyObjectRef]) -> Result<Args, OutOfMemory>
    ensures { IfOk result (λ v. v.items ≡ args.now) }
{
    let mut copy = Vec::new(alloc);
    copy.extend_from_slice(args)?;
    Ok(copy)
}

/// The same keywords again.
pub fn copy_keywords(
    alloc: Global,
    keywords: &[(PyStrInterned, PyObjectRef)],
) -> Result<Keywords, OutOfMemory>
    ensures { IfOk result (λ v. v.items ≡ keywords.now) }
{
    let mut copy = Vec::new(alloc);
    copy.extend_from_slice(keywords)?;
    Ok(copy)
}

/// The two arguments, where there are just two.
pub fn two_of(args: &[PyObjectRef]) -> Option<(PyObjectRef, PyObjectRef)>
    ensures { result ≡ two_of args.now }
{
    match args {
        [a, b] => Some((*a, *b)),
        _ => None,
    }
}

/// Names with values in order, as far as there are both. A name that stands twice takes the later value.
pub fn filled(
    alloc: Global,
    names: &[PyStrInterned],
    values: &[PyObjectRef],
) -> Result<PyAttributes, OutOfMemory>
    ensures vars { IfOk result (λ vars. (t : Reading) → bindings t vars ≡
        filled [] (map (spelled t) names.now) values.now) }
    ensures holds { IfOk result (λ vars. (w : Held) → Holds w (AreNames names.now) → Holds w (AreNodes values.now) →
        AllHold w (of_each of_binding vars)) }
{
    let mut vars = PyAttributes::with_capacity(alloc, names.len().min(values.len()))?;
    for (name, value) in names.iter().zip(values) {
        vars.insert(*name, *value)?;
    }
    Ok(vars)
}
