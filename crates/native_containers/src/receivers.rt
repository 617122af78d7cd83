//! What these natives take: an object of their kind, alone or with arguments.

ghost use Rattle.native_containers.specs.Below.{[], Err, IfErr, IfNone, IfOk, IfSome, Some, Said, Ends, Dict, PyObjectRef as Object, Reading, bindings, plain, AreNodes, CanBeKeys, Holding, Holds, IsNode, home_of_kind, is_of};
ghost use Rattle.std.specs.Prelude.{◌≡◌, ◌∷◌};
ghost use Rattle.native_containers.specs.Take.{with_default, with_dict_and_key, with_key, with_kind, with_own, with_lone, with_own_and, with_own_and_two};

use class_world::takes::{one, three, two};
use class_world::{Fixed, World};
use py_node::{Cause, FuncArgs, PyObjectRef, Raised};
use row_kit::take_containers::{Kind, is_of};

/// The first argument, which must be of a kind, or why it is refused.
pub fn own(world: &World, kind: Kind, args: &[PyObjectRef]) -> Result<PyObjectRef, Raised>
    requires { Holds world.now (AreNodes args.now) }
    ensures given { IfOk result (λ o. (t : Reading) (go : Object → Said) →
        with_own kind (plain t world.now) args.now go ≡ go o) }
    ensures refused { IfErr result (λ x. (t : Reading) (go : Object → Said) →
        with_own kind (plain t world.now) args.now go ≡ Ends (plain t world.now) (Err x)) }
    ensures node { IfOk result (λ o. Holds world.now (IsNode o)) }
    ensures holding { IfOk result (λ o. Holds world.now (Holding o (home_of_kind kind))) }
{
    match args {
        [] => Err(Raised::new(Cause::ArgCount)),
        [o, ..] => match kind_refusal(world, kind, *o) {
            Some(raised) => Err(raised),
            None => Ok(*o),
        },
    }
}

/// Why an object is refused that must be of a kind.
pub fn kind_refusal(world: &World, kind: Kind, object: PyObjectRef) -> Option<Raised>
    requires { Holds world.now (IsNode object) }
    ensures taken { IfNone result ((t : Reading) (go : Said) → with_kind kind (plain t world.now) object go ≡ go) }
    ensures refused { IfSome result (λ x. (t : Reading) (go : Said) →
        with_kind kind (plain t world.now) object go ≡ Ends (plain t world.now) (Err x)) }
    ensures holding { IfNone result (Holds world.now (Holding object (home_of_kind kind))) }
{
    if is_of(world, kind, object) {
        None
    } else {
        Some(Raised::new(Cause::SelfType))
    }
}

/// The only argument, which must be of a kind, or why the arguments are refused.
pub fn lone(world: &World, kind: Kind, call: FuncArgs<'_>) -> Result<PyObjectRef, Raised>
    requires { Holds world.now (AreNodes call.args.now) }
    ensures given { IfOk result (λ o. (t : Reading) (go : Object → Said) →
        with_lone kind (plain t world.now) call.entry.args.now (bindings t call.entry.kw.now) go ≡ go o) }
    ensures refused { IfErr result (λ x. (t : Reading) (go : Object → Said) →
        with_lone kind (plain t world.now) call.entry.args.now (bindings t call.entry.kw.now) go ≡ Ends (plain t world.now) (Err x)) }
    ensures node { IfOk result (λ o. Holds world.now (IsNode o)) }
    ensures holding { IfOk result (λ o. Holds world.now (Holding o (home_of_kind kind))) }
{
    let o = own(world, kind, call.args)?;
    let _ = one(call)?;
    Ok(o)
}

/// The first argument, which must be of a kind, and one more, or why the arguments are refused.
pub fn own_and(
    world: &World,
    kind: Kind,
    call: FuncArgs<'_>,
) -> Result<(PyObjectRef, PyObjectRef), Raised>
    requires { Holds world.now (AreNodes call.args.now) }
    ensures given { IfOk result (λ p. (t : Reading) (go : Object → Object → Said) →
        with_own_and kind (plain t world.now) call.entry.args.now (bindings t call.entry.kw.now) go ≡ go p.0 p.1) }
    ensures refused { IfErr result (λ x. (t : Reading) (go : Object → Object → Said) →
        with_own_and kind (plain t world.now) call.entry.args.now (bindings t call.entry.kw.now) go ≡ Ends (plain t world.now) (Err x)) }
    ensures first { IfOk result (λ p. Holds world.now (IsNode p.0)) }
    ensures second { IfOk result (λ p. Holds world.now (IsNode p.1)) }
    ensures holding { IfOk result (λ p. Holds world.now (Holding p.0 (home_of_kind kind))) }
{
    let o = own(world, kind, call.args)?;
    let (_, a) = two(call)?;
    Ok((o, a))
}

/// The first argument, which must be of a kind, and two more, or why the arguments are refused.
pub fn own_and_two(
    world: &World,
    kind: Kind,
    call: FuncArgs<'_>,
) -> Result<(PyObjectRef, PyObjectRef, PyObjectRef), Raised>
    requires { Holds world.now (AreNodes call.args.now) }
    ensures given { IfOk result (λ p. (t : Reading) (go : Object → Object → Object → Said) →
        with_own_and_two kind (plain t world.now) call.entry.args.now (bindings t call.entry.kw.now) go ≡ go p.0 p.1 p.2) }
    ensures refused { IfErr result (λ x. (t : Reading) (go : Object → Object → Object → Said) →
        with_own_and_two kind (plain t world.now) call.entry.args.now (bindings t call.entry.kw.now) go ≡
        Ends (plain t world.now) (Err x)) }
    ensures first { IfOk result (λ p. Holds world.now (IsNode p.0)) }
    ensures second { IfOk result (λ p. Holds world.now (IsNode p.1)) }
    ensures third { IfOk result (λ p. Holds world.now (IsNode p.2)) }
    ensures holding { IfOk result (λ p. Holds world.now (Holding p.0 (home_of_kind kind))) }
{
    let o = own(world, kind, call.args)?;
    let (_, a, b) = three(call)?;
    Ok((o, a, b))
}

/// Why a key of a dict is refused: it must be a number or a text.
pub fn key_refusal(world: &World, key: PyObjectRef) -> Option<Raised>
    requires { Holds world.now (IsNode key) }
    ensures taken { IfNone result ((t : Reading) (go : Said) → with_key (plain t world.now) key go ≡ go) }
    ensures refused { IfSome result (λ x. (t : Reading) (go : Said) →
        with_key (plain t world.now) key go ≡ Ends (plain t world.now) (Err x)) }
    ensures can { IfNone result (Holds world.now (CanBeKeys (key ∷ []))) }
{
    if world.can_be_key(key) {
        None
    } else {
        Some(Raised::new(Cause::KeyType))
    }
}

/// A dict and a key, or why the arguments are refused.
pub fn dict_and_key(world: &World, call: FuncArgs<'_>) -> Result<(PyObjectRef, PyObjectRef), Raised>
    requires { Holds world.now (AreNodes call.args.now) }
    ensures given { IfOk result (λ p. (t : Reading) (go : Object → Object → Said) →
        with_dict_and_key (plain t world.now) call.entry.args.now (bindings t call.entry.kw.now) go ≡ go p.0 p.1) }
    ensures refused { IfErr result (λ x. (t : Reading) (go : Object → Object → Said) →
        with_dict_and_key (plain t world.now) call.entry.args.now (bindings t call.entry.kw.now) go ≡ Ends (plain t world.now) (Err x)) }
    ensures dict { IfOk result (λ p. Holds world.now (IsNode p.0)) }
    ensures key { IfOk result (λ p. Holds world.now (IsNode p.1)) }
    ensures holding { IfOk result (λ p. Holds world.now (Holding p.0 Dict)) }
{
    let (dict, key) = own_and(world, Kind::Dict, call)?;
    match key_refusal(world, key) {
        Some(raised) => Err(raised),
        None => Ok((dict, key)),
    }
}

/// A key and what is given without it, or why the arguments are refused.
pub fn with_default(world: &World, call: FuncArgs<'_>) -> Result<(PyObjectRef, PyObjectRef), Raised>
    requires { Holds world.now (AreNodes call.args.now) }
    ensures given { IfOk result (λ p. (t : Reading) (go : Object → Object → Said) →
        with_default (plain t world.now) call.entry.args.now (bindings t call.entry.kw.now) go ≡ go p.0 p.1) }
    ensures refused { IfErr result (λ x. (t : Reading) (go : Object → Object → Said) →
        with_default (plain t world.now) call.entry.args.now (bindings t call.entry.kw.now) go ≡ Ends (plain t world.now) (Err x)) }
    ensures key { IfOk result (λ p. Holds world.now (IsNode p.0)) }
    ensures other { IfOk result (λ p. Holds world.now (IsNode p.1)) }
{
    if call.args.len() == 3 {
        let (_, key, other) = three(call)?;
        Ok((key, other))
    } else {
        let (_, key) = two(call)?;
        Ok((key, world.fixed(Fixed::None)))
    }
}
