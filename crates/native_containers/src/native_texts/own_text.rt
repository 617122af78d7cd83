//! What the natives of texts take: an object that holds a text, alone or with one argument.

ghost use Rattle.native_containers.specs.Below.{Err, IfErr, IfOk, option_map, Said, Ends, datum_at, PyObjectRef as Object, Text, Reading, bindings, plain, AreNodes, IsNode, Holds, text_of};
ghost use Rattle.std.specs.Prelude.{◌≡◌};
ghost use Rattle.native_containers.specs.NativeTexts.Say.{with_own_text, with_lone_text, with_text_and};

use class_world::World;
use class_world::takes::{one, two};
use py_node::{Cause, FuncArgs, Payload, PyObjectRef, Raised};

/// The text that an object holds, if it holds one.
pub fn text_of(world: &World, node: PyObjectRef) -> Option<&str>
    requires { Holds world.now (IsNode node) }
    ensures { (t : Reading) → text_of (datum_at (plain t world.now) node) ≡ option_map (λ s. s.now) result }
{
    match world.payload(node) {
        Payload::Text(text) => Some(text.as_str()),
        _ => None,
    }
}

/// The text that the first argument holds, or why it is refused.
pub fn own_text<'a>(world: &'a World, args: &[PyObjectRef]) -> Result<&'a str, Raised>
    requires { Holds world.now (AreNodes args.now) }
    ensures given { IfOk result (λ x. (t : Reading) (go : Text → Said) →
        with_own_text (plain t world.now) args.now go ≡ go x.now) }
    ensures refused { IfErr result (λ x. (t : Reading) (go : Text → Said) →
        with_own_text (plain t world.now) args.now go ≡ Ends (plain t world.now) (Err x)) }
{
    match args {
        [] => Err(Raised::new(Cause::ArgCount)),
        [o, ..] => match world.payload(*o) {
            Payload::Text(text) => Ok(text.as_str()),
            _ => Err(Raised::new(Cause::SelfType)),
        },
    }
}

/// The only argument and the text that it holds, or why the arguments are refused.
pub fn lone_text<'a>(world: &'a World, call: FuncArgs<'_>) -> Result<(PyObjectRef, &'a str), Raised>
    requires { Holds world.now (AreNodes call.args.now) }
    ensures given { IfOk result (λ p. (t : Reading) (go : Object → Text → Said) →
        with_lone_text (plain t world.now) call.entry.args.now (bindings t call.entry.kw.now) go ≡ go p.0 p.1.now) }
    ensures refused { IfErr result (λ x. (t : Reading) (go : Object → Text → Said) →
        with_lone_text (plain t world.now) call.entry.args.now (bindings t call.entry.kw.now) go ≡ Ends (plain t world.now) (Err x)) }
    ensures node { IfOk result (λ p. Holds world.now (IsNode p.0)) }
{
    let text = own_text(world, call.args)?;
    let o = one(call)?;
    Ok((o, text))
}

/// The text that the first argument holds, and the second argument, or why the arguments are refused.
pub fn text_and<'a>(world: &'a World, call: FuncArgs<'_>) -> Result<(&'a str, PyObjectRef), Raised>
    requires { Holds world.now (AreNodes call.args.now) }
    ensures given { IfOk result (λ p. (t : Reading) (go : Text → Object → Said) →
        with_text_and (plain t world.now) call.entry.args.now (bindings t call.entry.kw.now) go ≡ go p.0.now p.1) }
    ensures refused { IfErr result (λ x. (t : Reading) (go : Text → Object → Said) →
        with_text_and (plain t world.now) call.entry.args.now (bindings t call.entry.kw.now) go ≡ Ends (plain t world.now) (Err x)) }
    ensures node { IfOk result (λ p. Holds world.now (IsNode p.1)) }
{
    let text = own_text(world, call.args)?;
    let (_, other) = two(call)?;
    Ok((text, other))
}
