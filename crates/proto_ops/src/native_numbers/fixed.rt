//! The natives of None and NotImplemented.

ghost use Rattle.py_node.specs.Stops.{Ended};
ghost use Rattle.proto_ops.specs.Below.{Err, IfSome, IfNone, PlainWorld, Said, Ends, Reading, bindings, EndsAs, LeavesEnd};
ghost use Rattle.std.specs.Prelude.{◌≡◌};
ghost use Rattle.proto_ops.specs.NativeNumbers.Say.{fixed_first, fixed_of, fixed_say, with_fixed};

use class_world::takes::one;
use class_world::{Fixed, World};
use py_node::{Answer, Cause, FixedNative, FuncArgs, PyObjectRef, Raised, Stop};
use row_kit::give::new_word;

/// A native of None or NotImplemented.
pub fn fixed_native(
    world: &mut World,
    native: FixedNative,
    call: FuncArgs<'_>,
) -> Result<Answer, Stop>
    ensures ends { Ended result (EndsAs (λ t u. fixed_say u native call.entry.args.now (bindings t call.entry.kw.now))
        world.old world.new) }
    ensures safe { LeavesEnd world.old world.new result }
{
    if let Some(raised) = refusal(native, call) {
        return Err(raised.into());
    }
    match native {
        FixedNative::NoneRepr => new_word(world, "None"),
        FixedNative::NoneBoolean => Ok(Answer::Value(world.truth(false))),
        FixedNative::NotImplementedRepr => new_word(world, "NotImplemented"),
    }
}

// Why the arguments are refused: just the native's own object is wanted.
fn refusal(native: FixedNative, call: FuncArgs<'_>) -> Option<Raised>
    ensures taken { IfNone result ((t : Reading) (w : PlainWorld) (go : Said) →
        with_fixed w (fixed_of native) call.entry.args.now (bindings t call.entry.kw.now) go ≡ go) }
    ensures refused { IfSome result (λ x. (t : Reading) (w : PlainWorld) (go : Said) →
        with_fixed w (fixed_of native) call.entry.args.now (bindings t call.entry.kw.now) go ≡ Ends w (Err x)) }
{
    if let Some(raised) = other_object(native, call.args) {
        return Some(raised);
    }
    match one(call) {
        Err(raised) => Some(raised),
        Ok(_) => None,
    }
}

// Why the first argument is refused: it must be the native's own object.
fn other_object(native: FixedNative, args: &[PyObjectRef]) -> Option<Raised>
    ensures taken { IfNone result ((w : PlainWorld) (go : Said) →
        fixed_first w (fixed_of native) args.now go ≡ go) }
    ensures refused { IfSome result (λ x. (w : PlainWorld) (go : Said) →
        fixed_first w (fixed_of native) args.now go ≡ Ends w (Err x)) }
{
    match args {
        [] => Some(Raised::new(Cause::ArgCount)),
        [o, ..] => {
            if o.0 == own_object(native).0 {
                None
            } else {
                Some(Raised::new(Cause::SelfType))
            }
        }
    }
}

// The object that a native is for.
fn own_object(native: FixedNative) -> PyObjectRef
    ensures { result.0 ≡ fixed_of native }
{
    match native {
        FixedNative::NoneRepr | FixedNative::NoneBoolean => Fixed::None.node(),
        FixedNative::NotImplementedRepr => Fixed::NotImplemented.node(),
    }
}
