//! The comparisons of texts, by name.

ghost use Rattle.std.specs.Prelude.{◌≡◌};
ghost use Rattle.native_containers.specs.Below.{Reading, bindings, of_ended, AllHold, AreNodes, Holds, EndsAs};
ghost use Rattle.native_containers.specs.NativeTexts.Say.{compare_text_say, order_by};

use crate::native_texts::own_text::{text_and, text_of};
use class_world::{Fixed, World};
use py_node::{Answer, Cause, CompareNative, FuncArgs, Raised};
use std::cmp::Ordering;

/// A comparison of texts, by name. Where the other object holds none, it answers NotImplemented.
pub fn compare_text(
    world: &World,
    native: CompareNative,
    call: FuncArgs<'_>,
) -> Result<Answer, Raised>
    requires { Holds world.now (AreNodes call.args.now) }
    ensures ends { EndsAs (λ t u. compare_text_say u native call.entry.args.now (bindings t call.entry.kw.now)) world.now world.now result }
    ensures holds { AllHold world.now (of_ended result) }
{
    if native == CompareNative::All {
        return Err(Raised::new(Cause::SelfType));
    }
    let (text, other) = text_and(world, call)?;
    match text_of(world, other) {
        Some(more) => Ok(Answer::Value(world.truth(order_by(native, text.cmp(more))))),
        None => Ok(Answer::Value(world.fixed(Fixed::NotImplemented))),
    }
}

// Whether two texts stand so, in this order.
fn order_by(native: CompareNative, order: Ordering) -> bool
    ensures { result ≡ order_by native order }
{
    match native {
        CompareNative::Eq => order.is_eq(),
        CompareNative::Ne => order.is_ne(),
        CompareNative::Lt => order.is_lt(),
        CompareNative::Le => order.is_le(),
        CompareNative::Ge => order.is_ge(),
        CompareNative::Gt => order.is_gt(),
        CompareNative::All => false,
    }
}
