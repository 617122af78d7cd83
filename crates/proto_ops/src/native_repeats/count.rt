//! How often something is repeated.

ghost use Rattle.proto_ops.specs.Below.{ℤ, Err, None, Some, IfErr, IfOk, cond, nat_le, RepeatTooLong, Ends, PlainWorld, Told, Row, most_items, within_index, times};
ghost use Rattle.std.specs.Prelude.{◌≡◌, ◌*◌};
ghost use Rattle.proto_ops.specs.NativeRepeats.Counts.{repeat_checked};

use class_world::limits::is_within_limit;
use py_node::{Cause, Raised};

/// How often a number says that something is repeated: it has at most 64 bits, with its sign. What is no number is
/// refused as an operand of another kind, and another number as too long a repetition.
pub fn count_in(number: Option<i128>) -> Result<i64, Raised>
    ensures given { IfOk result (λ z. (w : PlainWorld) (go : ℤ → Row) (told : Told) →
        within_index w RepeatTooLong number go told ≡ go z told) }
    ensures refused { IfErr result (λ x. (w : PlainWorld) (go : ℤ → Row) (told : Told) →
        within_index w RepeatTooLong number go told ≡ Ends w (Err x)) }
{
    match number {
        None => Err(Raised::new(Cause::SelfType)),
        Some(z) => {
            if z < i64::MIN as i128 || z > i64::MAX as i128 {
                return Err(Raised::new(Cause::RepeatTooLong));
            }
            Ok(z as i64)
        }
    }
}

/// How often a sequence of `length` items is repeated that is repeated `n` times: 0 where `n` is below zero.
///
/// # Errors
///
/// `RepeatTooLong` where the items would be more than an `i64` can count.
pub fn check_repeat_or_overflow_error(length: usize, n: i64) -> Result<usize, Raised>
    ensures { result ≡ repeat_checked length n }
{
    let times = times(n);
    if times != 0 && length > i64::MAX as usize / times {
        return Err(Raised::new(Cause::RepeatTooLong));
    }
    Ok(times)
}

// A number below zero counts as none.
fn times(n: i64) -> usize
    ensures { result ≡ times n }
{
    if n < 0 { 0 } else { n as usize }
}

/// How often something of so many items is repeated, unless these are too many.
pub(crate) fn times_within(n: i64, length: usize) -> Option<usize>
    ensures { result ≡ cond (nat_le (times n * length) most_items) (Some (times n)) None }
{
    let times = times(n);
    match times.checked_mul(length) {
        Some(all) if is_within_limit(all) => Some(times),
        _ => None,
    }
}
