//! The items of a list, one by one.

ghost use Rattle.script_text.specs.Below.{List, [], IfOk, IfErr, Value as JsonValue};
ghost use Rattle.std.specs.Prelude.{◌≡◌, ◌∷◌};
ghost use Rattle.script_text.specs.JsonText.Items.{IsNotOne, IsUnderTwo, IsNotTwo, IsUnderThree, IsNotThree};

use serde_json::Value;
use std::alloc::{AllocError, AllocFailed};

/// Why a value gives no expression: it spells none, or memory could not be had.
#[derive(Clone, Copy, Debug, Drop)]
pub enum Unread {
    Shape,
    OutOfMemory,
}

impl From<AllocError> for Unread {
    ghost use Rattle.script_text.specs.declared.json_text.items.Unread.TheVariants.{OutOfMemory};
    ghost use Rattle.std.specs.Prelude.{◌≡◌};

    ghost from_gives = { λ _ e. e ≡ OutOfMemory };

    fn from(_refused: AllocError) -> Unread {
        Unread::OutOfMemory
    }
}

impl<T: Drop> From<AllocFailed<T>> for Unread {
    ghost use Rattle.script_text.specs.declared.json_text.items.Unread.TheVariants.{OutOfMemory};
    ghost use Rattle.std.specs.Prelude.{◌≡◌};

    ghost from_gives = { λ _ e. e ≡ OutOfMemory };

    fn from(_refused: AllocFailed<T>) -> Unread {
        Unread::OutOfMemory
    }
}

/// The first value of a list, and the rest.
pub fn next(items: &[Value]) -> Result<(&Value, &[Value]), Unread>
    ensures ok { IfOk result (λ p. items.now ≡ p.0.now ∷ p.1.now) }
    ensures shape { IfErr result (λ e. items.now ≡ []) }
{
    items.split_first().ok_or(Unread::Shape)
}

/// The end of a list.
pub fn no_more(items: &[Value]) -> Result<(), Unread>
    ensures ok { IfOk result (λ u. items.now ≡ []) }
    ensures shape { IfErr result (λ e. (v : JsonValue) × (vs : List JsonValue) × (items.now ≡ v ∷ vs)) }
{
    match items.split_first() {
        Some(_) => Err(Unread::Shape),
        None => Ok(()),
    }
}

/// The only item of a list.
pub fn one(items: &[Value]) -> Result<&Value, Unread>
    ensures ok { IfOk result (λ a. items.now ≡ a.now ∷ []) }
    ensures shape { IfErr result (λ e. IsNotOne items.now) }
{
    let (a, rest) = next(items)?;
    no_more(rest)?;
    Ok(a)
}

/// The first two items of a list, and the rest.
pub fn two_and_rest(items: &[Value]) -> Result<(&Value, &Value, &[Value]), Unread>
    ensures ok { IfOk result (λ p. items.now ≡ p.0.now ∷ p.1.now ∷ p.2.now) }
    ensures shape { IfErr result (λ e. IsUnderTwo items.now) }
{
    let (a, rest) = next(items)?;
    let (b, rest) = next(rest)?;
    Ok((a, b, rest))
}

/// The only two items of a list.
pub fn two(items: &[Value]) -> Result<(&Value, &Value), Unread>
    ensures ok { IfOk result (λ p. items.now ≡ p.0.now ∷ p.1.now ∷ []) }
    ensures shape { IfErr result (λ e. IsNotTwo items.now) }
{
    let (a, b, rest) = two_and_rest(items)?;
    no_more(rest)?;
    Ok((a, b))
}

/// The first three items of a list, and the rest.
pub fn three_and_rest(items: &[Value]) -> Result<(&Value, &Value, &Value, &[Value]), Unread>
    ensures ok { IfOk result (λ p. items.now ≡ p.0.now ∷ p.1.now ∷ p.2.now ∷ p.3.now) }
    ensures shape { IfErr result (λ e. IsUnderThree items.now) }
{
    let (a, b, rest) = two_and_rest(items)?;
    let (c, rest) = next(rest)?;
    Ok((a, b, c, rest))
}

/// The only three items of a list.
pub fn three(items: &[Value]) -> Result<(&Value, &Value, &Value), Unread>
    ensures ok { IfOk result (λ p. items.now ≡ p.0.now ∷ p.1.now ∷ p.2.now ∷ []) }
    ensures shape { IfErr result (λ e. IsNotThree items.now) }
{
    let (a, b, c, rest) = three_and_rest(items)?;
    no_more(rest)?;
    Ok((a, b, c))
}
