//! What a native takes: one or two arguments, a class and what is given for it, or an object of a kind.

ghost use Rattle.proto_attr.specs.Below.{ℕ, Option, Err, IfErr, IfOk, IfSome, option_map, Text, PyProperty as Parts, StaticMethod, PlainWorld, Said, Ends, PyObjectRef as Object, Held, Reading, bindings, plain, spelled, AllHold, AreNodes, Holding, Holds, IsClass, IsName, IsNode, of_option, of_property, of_start, with_own};
ghost use Rattle.std.specs.Prelude.{◌≡◌, ◌∷◌};
ghost use Rattle.py_node.specs.declared.built_in.BuiltIn.TheVariants.{Property};
ghost use Rattle.proto_attr.specs.NativeObjects.Takes.{with_class_and_given, with_one_or_two, method_in, member_in, property_in, static_in, super_in};

use class_world::World;
use class_world::takes::{one, two};
use py_node::{
    Cause, FuncArgs, Payload, PyObjectRef, PyProperty, PyStrInterned, PySuper, PyTypeRef, Raised,
};
use row_kit::take_classes::own_class;

/// The only argument, or the first one with a second, or why the arguments are refused.
pub(crate) fn one_or_two(call: FuncArgs<'_>) -> Result<(PyObjectRef, Option<PyObjectRef>), Raised>
    ensures given { IfOk result (λ p. (t : Reading) (w : PlainWorld) (go : Object → Option Object → Said) →
        with_one_or_two w call.entry.args.now (bindings t call.entry.kw.now) go ≡ go p.0 p.1) }
    ensures refused { IfErr result (λ x. (t : Reading) (w : PlainWorld) (go : Object → Option Object → Said) →
        with_one_or_two w call.entry.args.now (bindings t call.entry.kw.now) go ≡ Ends w (Err x)) }
    ensures first { IfOk result (λ p. (w : Held) → Holds w (AreNodes call.entry.args.now) → Holds w (IsNode p.0)) }
    ensures second { IfOk result (λ p. (w : Held) → Holds w (AreNodes call.entry.args.now) →
        IfSome p.1 (λ r. Holds w (IsNode r))) }
{
    if call.args.len() == 2 {
        match two(call) {
            Err(raised) => Err(raised),
            Ok((object, value)) => Ok((object, Some(value))),
        }
    } else {
        match one(call) {
            Err(raised) => Err(raised),
            Ok(object) => Ok((object, None)),
        }
    }
}

/// The class that the first argument is, and the second argument, if there is one, or why the arguments are refused.
pub(crate) fn class_and_given(
    world: &World,
    call: FuncArgs<'_>,
) -> Result<(PyTypeRef, Option<PyObjectRef>), Raised>
    requires { Holds world.now (AreNodes call.args.now) }
    ensures given { IfOk result (λ p. (t : Reading) (go : ℕ → Option Object → Said) →
        with_class_and_given (plain t world.now) call.entry.args.now (bindings t call.entry.kw.now) go ≡ go p.0.0 p.1) }
    ensures refused { IfErr result (λ x. (t : Reading) (go : ℕ → Option Object → Said) →
        with_class_and_given (plain t world.now) call.entry.args.now (bindings t call.entry.kw.now) go ≡ Ends (plain t world.now) (Err x)) }
    ensures class { IfOk result (λ p. Holds world.now (IsClass p.0.0)) }
    ensures node { IfOk result (λ p. IfSome p.1 (λ r. Holds world.now (IsNode r))) }
{
    match own_class(world, call.args) {
        Err(raised) => Err(raised),
        Ok(class) => match one_or_two(call) {
            Err(raised) => Err(raised),
            Ok((_object, given)) => Ok((class, given)),
        },
    }
}

/// The native as a method that the first argument is, with its class and its name, or why it is refused.
pub(crate) fn own_method(
    world: &World,
    args: &[PyObjectRef],
) -> Result<(PyObjectRef, (PyTypeRef, PyStrInterned)), Raised>
    requires { Holds world.now (AreNodes args.now) }
    ensures given { IfOk result (λ p. (t : Reading) (go : Object → ℕ × Text → Said) →
        with_own method_in (plain t world.now) args.now go ≡ go p.0 (p.1.0.0, spelled t p.1.1)) }
    ensures refused { IfErr result (λ x. (t : Reading) (go : Object → ℕ × Text → Said) →
        with_own method_in (plain t world.now) args.now go ≡ Ends (plain t world.now) (Err x)) }
    ensures class { IfOk result (λ p. Holds world.now (IsClass p.1.0.0)) }
    ensures name { IfOk result (λ p. Holds world.now (IsName p.1.1)) }
{
    match args {
        [] => Err(Raised::new(Cause::ArgCount)),
        [o, ..] => match world.payload(*o) {
            Payload::MethodDescriptor(m) => {
                let m = m.get();
                Ok((*o, (m.class, m.name)))
            }
            _ => Err(Raised::new(Cause::SelfType)),
        },
    }
}

/// The member that the first argument is, with its class and its name, or why it is refused.
pub(crate) fn own_member(
    world: &World,
    args: &[PyObjectRef],
) -> Result<(PyObjectRef, (PyTypeRef, PyStrInterned)), Raised>
    requires { Holds world.now (AreNodes args.now) }
    ensures given { IfOk result (λ p. (t : Reading) (go : Object → ℕ × Text → Said) →
        with_own member_in (plain t world.now) args.now go ≡ go p.0 (p.1.0.0, spelled t p.1.1)) }
    ensures refused { IfErr result (λ x. (t : Reading) (go : Object → ℕ × Text → Said) →
        with_own member_in (plain t world.now) args.now go ≡ Ends (plain t world.now) (Err x)) }
    ensures class { IfOk result (λ p. Holds world.now (IsClass p.1.0.0)) }
    ensures name { IfOk result (λ p. Holds world.now (IsName p.1.1)) }
{
    match args {
        [] => Err(Raised::new(Cause::ArgCount)),
        [o, ..] => match world.payload(*o) {
            Payload::Member(m) => Ok((*o, (m.class, m.name))),
            _ => Err(Raised::new(Cause::SelfType)),
        },
    }
}

/// The class past which the first argument looks, and what it is bound to, or why it is refused.
pub(crate) fn own_super(
    world: &World,
    args: &[PyObjectRef],
) -> Result<(PyObjectRef, PySuper), Raised>
    requires { Holds world.now (AreNodes args.now) }
    ensures given { IfOk result (λ p. (t : Reading) (go : Object → ℕ × Option (Object × ℕ) → Said) →
        with_own super_in (plain t world.now) args.now go ≡ go p.0 (p.1.typ.0, option_map (λ b. (b.0, b.1.0)) p.1.obj)) }
    ensures refused { IfErr result (λ x. (t : Reading) (go : Object → ℕ × Option (Object × ℕ) → Said) →
        with_own super_in (plain t world.now) args.now go ≡ Ends (plain t world.now) (Err x)) }
    ensures claims { IfOk result (λ p. AllHold world.now (IsClass p.1.typ.0 ∷ of_option of_start p.1.obj)) }
{
    match args {
        [] => Err(Raised::new(Cause::ArgCount)),
        [o, ..] => match world.payload(*o) {
            Payload::Super(s) => Ok((*o, *s.get())),
            _ => Err(Raised::new(Cause::SelfType)),
        },
    }
}

/// The parts of the property that the first argument is, or why it is refused.
pub fn own_property(
    world: &World,
    args: &[PyObjectRef],
) -> Result<(PyObjectRef, PyProperty), Raised>
    requires { Holds world.now (AreNodes args.now) }
    ensures given { IfOk result (λ p. (t : Reading) (go : Object → Parts → Said) →
        with_own property_in (plain t world.now) args.now go ≡ go p.0 p.1) }
    ensures refused { IfErr result (λ x. (t : Reading) (go : Object → Parts → Said) →
        with_own property_in (plain t world.now) args.now go ≡ Ends (plain t world.now) (Err x)) }
    ensures node { IfOk result (λ p. Holds world.now (IsNode p.0)) }
    ensures holding { IfOk result (λ p. Holds world.now (Holding p.0 Property)) }
    ensures parts { IfOk result (λ p. AllHold world.now (of_property p.1)) }
{
    match args {
        [] => Err(Raised::new(Cause::ArgCount)),
        [o, ..] => match world.payload(*o) {
            Payload::Property(p) => Ok((*o, **p)),
            _ => Err(Raised::new(Cause::SelfType)),
        },
    }
}

/// The static method that the first argument is, with what it wraps, or why it is refused.
pub(crate) fn own_static(
    world: &World,
    args: &[PyObjectRef],
) -> Result<(PyObjectRef, PyObjectRef), Raised>
    requires { Holds world.now (AreNodes args.now) }
    ensures given { IfOk result (λ p. (t : Reading) (go : Object → Object → Said) →
        with_own static_in (plain t world.now) args.now go ≡ go p.0 p.1) }
    ensures refused { IfErr result (λ x. (t : Reading) (go : Object → Object → Said) →
        with_own static_in (plain t world.now) args.now go ≡ Ends (plain t world.now) (Err x)) }
    ensures node { IfOk result (λ p. Holds world.now (IsNode p.0)) }
    ensures callable { IfOk result (λ p. Holds world.now (IsNode p.1)) }
    ensures holding { IfOk result (λ p. Holds world.now (Holding p.0 StaticMethod)) }
{
    match args {
        [] => Err(Raised::new(Cause::ArgCount)),
        [o, ..] => match world.payload(*o) {
            Payload::StaticMethod(f) => Ok((*o, *f)),
            _ => Err(Raised::new(Cause::SelfType)),
        },
    }
}
