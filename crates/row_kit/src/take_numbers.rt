//! What a native takes: an object that holds a number, alone or with one argument, or two numbers.

ghost use Rattle.row_kit.specs.Below.{ℤ, Err, IfErr, IfOk, Said, Ends, PyObjectRef as Object, Reading, bindings, ended_of, plain, AllHold, AreNodes, IsNode, Holds, of_ended};
ghost use Rattle.std.specs.Prelude.{◌≡◌};
ghost use Rattle.row_kit.specs.Say.{with_number, with_lone_number, with_number_and, with_numbers, numbers_of};

use class_world::takes::{one, two};
use class_world::{Fixed, World};
use py_node::{Answer, Cause, FuncArgs, PyObjectRef, Raised};

/// The number that the first argument holds, or why it is refused.
pub fn own_number(world: &World, args: &[PyObjectRef]) -> Result<i128, Raised>
    requires { Holds world.now (AreNodes args.now) }
    ensures given { IfOk result (λ z. (t : Reading) (go : ℤ → Said) →
        with_number (plain t world.now) args.now go ≡ go z) }
    ensures refused { IfErr result (λ x. (t : Reading) (go : ℤ → Said) →
        with_number (plain t world.now) args.now go ≡ Ends (plain t world.now) (Err x)) }
{
    match args {
        [] => Err(Raised::new(Cause::ArgCount)),
        [o, ..] => match world.number(*o) {
            None => Err(Raised::new(Cause::SelfType)),
            Some(z) => Ok(z),
        },
    }
}

/// The only argument and the number that it holds, or why the arguments are refused.
pub fn lone_number(world: &World, call: FuncArgs<'_>) -> Result<(PyObjectRef, i128), Raised>
    requires { Holds world.now (AreNodes call.args.now) }
    ensures given { IfOk result (λ p. (t : Reading) (go : Object → ℤ → Said) →
        with_lone_number (plain t world.now) call.entry.args.now (bindings t call.entry.kw.now) go ≡ go p.0 p.1) }
    ensures refused { IfErr result (λ x. (t : Reading) (go : Object → ℤ → Said) →
        with_lone_number (plain t world.now) call.entry.args.now (bindings t call.entry.kw.now) go ≡ Ends (plain t world.now) (Err x)) }
    ensures node { IfOk result (λ p. Holds world.now (IsNode p.0)) }
{
    let z = own_number(world, call.args)?;
    let o = one(call)?;
    Ok((o, z))
}

/// The number that the first argument holds, and the second argument, or why the arguments are refused.
pub fn number_and(world: &World, call: FuncArgs<'_>) -> Result<(i128, PyObjectRef), Raised>
    requires { Holds world.now (AreNodes call.args.now) }
    ensures given { IfOk result (λ p. (t : Reading) (go : ℤ → Object → Said) →
        with_number_and (plain t world.now) call.entry.args.now (bindings t call.entry.kw.now) go ≡ go p.0 p.1) }
    ensures refused { IfErr result (λ x. (t : Reading) (go : ℤ → Object → Said) →
        with_number_and (plain t world.now) call.entry.args.now (bindings t call.entry.kw.now) go ≡ Ends (plain t world.now) (Err x)) }
    ensures node { IfOk result (λ p. Holds world.now (IsNode p.1)) }
{
    let z = own_number(world, call.args)?;
    let (_, other) = two(call)?;
    Ok((z, other))
}

/// The numbers that two objects hold, or the answer NotImplemented.
pub fn numbers_of(
    world: &World,
    a: PyObjectRef,
    b: PyObjectRef,
) -> Result<(i128, i128), Result<Answer, Raised>>
    requires a { Holds world.now (IsNode a) }
    requires b { Holds world.now (IsNode b) }
    ensures given { IfOk result (λ p. (t : Reading) (go : ℤ → ℤ → Said) →
        numbers_of (plain t world.now) a b go ≡ go p.0 p.1) }
    ensures ended { IfErr result (λ r. (t : Reading) (go : ℤ → ℤ → Said) →
        numbers_of (plain t world.now) a b go ≡ Ends (plain t world.now) (ended_of r)) }
    ensures holds { IfErr result (λ r. AllHold world.now (of_ended r)) }
{
    match (world.number(a), world.number(b)) {
        (Some(x), Some(y)) => Ok((x, y)),
        _ => Err(Ok(Answer::Value(world.fixed(Fixed::NotImplemented)))),
    }
}

/// The two numbers that the arguments hold, or how the native ends without them.
pub fn numbers(world: &World, call: FuncArgs<'_>) -> Result<(i128, i128), Result<Answer, Raised>>
    requires { Holds world.now (AreNodes call.args.now) }
    ensures given { IfOk result (λ p. (t : Reading) (go : ℤ → ℤ → Said) →
        with_numbers (plain t world.now) call.entry.args.now (bindings t call.entry.kw.now) go ≡ go p.0 p.1) }
    ensures ended { IfErr result (λ r. (t : Reading) (go : ℤ → ℤ → Said) →
        with_numbers (plain t world.now) call.entry.args.now (bindings t call.entry.kw.now) go ≡ Ends (plain t world.now) (ended_of r)) }
    ensures holds { IfErr result (λ r. AllHold world.now (of_ended r)) }
{
    match two(call) {
        Err(raised) => Err(Err(raised)),
        Ok((a, b)) => numbers_of(world, a, b),
    }
}
