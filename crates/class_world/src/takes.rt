//! What a native takes: so many arguments and no keyword.
#![tactic(auto, using(crate::proofs::Items::item_holds))]

ghost use Rattle.py_node.specs.Stops.{IfRaised};
ghost use Rattle.class_world.specs.Below.{Err, IfErr, IfNone, IfOk, IfSome, string_bytes, raised, PlainWorld, Said, Ends, without_keywords, with_one, with_two, with_three, text_in, with_text, datum_at, Text, PyObjectRef as Object};
ghost use Rattle.std.specs.Prelude.{◌≡◌};
ghost use Rattle.class_world.specs.Held.{Held};
ghost use Rattle.class_world.specs.Reading.{Reading, Reads, bindings, plain};
ghost use Rattle.class_world.specs.Sound.{AreNodes, IsName, IsNode, Holds, Grows};

use crate::world::World;
use py_node::{Cause, FuncArgs, OutOfMemory, Payload, PyObjectRef, PyStrInterned, Raised, Stop};

/// The only argument, or why the arguments are refused.
pub fn one(call: FuncArgs<'_>) -> Result<PyObjectRef, Raised>
    ensures given { IfOk result (λ o. (t : Reading) (w : PlainWorld) (go : Object → Said) →
        with_one w call.entry.args.now (bindings t call.entry.kw.now) go ≡ go o) }
    ensures refused { IfErr result (λ x. (t : Reading) (w : PlainWorld) (go : Object → Said) →
        with_one w call.entry.args.now (bindings t call.entry.kw.now) go ≡ Ends w (Err x)) }
    ensures node { IfOk result (λ o. (w : Held) → Holds w (AreNodes call.entry.args.now) → Holds w (IsNode o)) }
{
    match call.args {
        [o] => match keyword_refusal(call.kw) {
            None => Ok(*o),
            Some(raised) => Err(raised),
        },
        _ => Err(wrong_count()),
    }
}

/// The two arguments, or why the arguments are refused.
pub fn two(call: FuncArgs<'_>) -> Result<(PyObjectRef, PyObjectRef), Raised>
    ensures given { IfOk result (λ p. (t : Reading) (w : PlainWorld) (go : Object → Object → Said) →
        with_two w call.entry.args.now (bindings t call.entry.kw.now) go ≡ go p.0 p.1) }
    ensures refused { IfErr result (λ x. (t : Reading) (w : PlainWorld) (go : Object → Object → Said) →
        with_two w call.entry.args.now (bindings t call.entry.kw.now) go ≡ Ends w (Err x)) }
    ensures first { IfOk result (λ p. (w : Held) → Holds w (AreNodes call.entry.args.now) → Holds w (IsNode p.0)) }
    ensures second { IfOk result (λ p. (w : Held) → Holds w (AreNodes call.entry.args.now) → Holds w (IsNode p.1)) }
{
    match call.args {
        [o, a] => match keyword_refusal(call.kw) {
            None => Ok((*o, *a)),
            Some(raised) => Err(raised),
        },
        _ => Err(wrong_count()),
    }
}

/// The three arguments, or why the arguments are refused.
pub fn three(call: FuncArgs<'_>) -> Result<(PyObjectRef, PyObjectRef, PyObjectRef), Raised>
    ensures given { IfOk result (λ p. (t : Reading) (w : PlainWorld) (go : Object → Object → Object → Said) →
        with_three w call.entry.args.now (bindings t call.entry.kw.now) go ≡ go p.0 p.1 p.2) }
    ensures refused { IfErr result (λ x. (t : Reading) (w : PlainWorld) (go : Object → Object → Object → Said) →
        with_three w call.entry.args.now (bindings t call.entry.kw.now) go ≡ Ends w (Err x)) }
    ensures first { IfOk result (λ p. (w : Held) → Holds w (AreNodes call.entry.args.now) → Holds w (IsNode p.0)) }
    ensures second { IfOk result (λ p. (w : Held) → Holds w (AreNodes call.entry.args.now) → Holds w (IsNode p.1)) }
    ensures third { IfOk result (λ p. (w : Held) → Holds w (AreNodes call.entry.args.now) → Holds w (IsNode p.2)) }
{
    match call.args {
        [o, a, b] => match keyword_refusal(call.kw) {
            None => Ok((*o, *a, *b)),
            Some(raised) => Err(raised),
        },
        _ => Err(wrong_count()),
    }
}

// Why keywords are refused, if there are any.
fn keyword_refusal(kw: &[(PyStrInterned, PyObjectRef)]) -> Option<Raised>
    ensures taken { IfNone result ((t : Reading) (w : PlainWorld) (go : Said) →
        without_keywords w (bindings t kw.now) go ≡ go) }
    ensures refused { IfSome result (λ x. (t : Reading) (w : PlainWorld) (go : Said) →
        without_keywords w (bindings t kw.now) go ≡ Ends w (Err x)) }
{
    if kw.is_empty() {
        None
    } else {
        Some(Raised::new(Cause::UnexpectedKeyword))
    }
}

// There are too few arguments, or too many.
fn wrong_count() -> Raised
    ensures { result ≡ raised Cause.ArgCount }
{
    Raised::new(Cause::ArgCount)
}

impl World {
    /// The name that an argument is, or why it is refused: it must be a text.
    pub fn name_in(&mut self, node: PyObjectRef) -> Result<PyStrInterned, Stop>
        requires { Holds self.old (IsNode node) }
        ensures given { IfOk result (λ x. (t : Reading) (go : Text → Said) → Reads t self.new →
            with_text (plain t self.old) node go ≡ go (t.text x.0)) }
        ensures refused { IfRaised result (λ x. (t : Reading) (go : Text → Said) →
            with_text (plain t self.old) node go ≡ Ends (plain t self.old) (Err x)) }
        ensures same { (t : Reading) → plain t self.new ≡ plain t self.old }
        ensures reads { (t : Reading) → Reads t self.new → Reads t self.old }
        ensures grows { Grows self.old self.new }
        ensures name { IfOk result (λ x. Holds self.new (IsName x)) }
    {
        match self.text_in(node)? {
            None => Err(Stop::raise(Cause::SelfType)),
            Some(text) => {
                let name = self.intern(text.as_str())?;
                Ok(name)
            }
        }
    }

    // The text that an object is, if it is one.
    fn text_in(&self, node: PyObjectRef) -> Result<Option<String>, OutOfMemory>
        requires { Holds self.now (IsNode node) }
        ensures text { IfOk result (λ o. IfSome o (λ s. (t : Reading) (w : PlainWorld) (go : Text → Said) →
            text_in w (datum_at (plain t self.now) node) go ≡ go (string_bytes s))) }
        ensures other { IfOk result (λ o. IfNone o ((t : Reading) (w : PlainWorld) (go : Text → Said) →
            text_in w (datum_at (plain t self.now) node) go ≡
            Ends w (Err (raised Cause.SelfType)))) }
    {
        let alloc = self.alloc();
        match self.payload(node) {
            Payload::Text(text) => {
                let copy = String::from_str(alloc, text.as_str())?;
                Ok(Some(copy))
            }
            _ => Ok(None),
        }
    }
}
