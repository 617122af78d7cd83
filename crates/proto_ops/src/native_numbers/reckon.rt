//! What natives reckon with whole numbers.

ghost use Rattle.proto_ops.specs.Below.{neg_ℤ, unsigned_abs, pos, SomeIff, FitsSigned, IsNonZero, int_rem_euclid, w128};
ghost use Rattle.std.specs.Prelude.{◌≡◌, ◌<◌, ◌≤◌, ◌^◌, ◌*ℤ◌, ◌≤ℤ◌, ◌<ℤ◌};
ghost use Rattle.proto_ops.specs.NativeNumbers.Numbers.{in_range_of, negated, absolute, inverted, difference, product, floor_quotient, floor_remainder, quotient, remainder, counted, power, right_shifted, left_places, left_shifted};

use py_node::{Cause, Raised};

/// The number with its sign turned.
pub fn negated(z: i128) -> Result<i128, Raised>
    ensures { result ≡ negated z }
{
    in_range(z.checked_neg())
}

/// The number without its sign.
pub fn absolute(z: i128) -> Result<i128, Raised>
    ensures { result ≡ absolute z }
{
    in_range(z.checked_abs())
}

/// The number with each bit turned.
pub fn inverted(z: i128) -> i128
    ensures { result ≡ inverted z }
{
    !z
}

/// The first number less the second.
pub fn difference(x: i128, y: i128) -> Result<i128, Raised>
    ensures { result ≡ difference x y }
{
    in_range(x.checked_sub(y))
}

/// The product of two numbers.
pub fn product(x: i128, y: i128) -> Result<i128, Raised>
    ensures { result ≡ product x y }
{
    in_range(x.checked_mul(y))
}

/// The quotient of two numbers, rounded down.
pub fn quotient(x: i128, y: i128) -> Result<i128, Raised>
    ensures { result ≡ quotient x y }
{
    if y == 0 {
        Err(Raised::new(Cause::ZeroDivisor))
    } else {
        in_range(floor_quotient(x, y))
    }
}

/// What the quotient of two numbers leaves, with the sign of the second.
pub fn remainder(x: i128, y: i128) -> Result<i128, Raised>
    ensures { result ≡ remainder x y }
{
    if y == 0 {
        Err(Raised::new(Cause::ZeroDivisor))
    } else {
        Ok(floor_remainder(x, y))
    }
}

/// The first number to the power of the second.
pub fn power(x: i128, y: i128) -> Result<i128, Raised>
    ensures { result ≡ power x y }
{
    if y < 0 {
        return Err(Raised::new(Cause::NegativeExponent));
    }
    in_range(x.checked_pow(counted(y)))
}

// An exponent as far as it counts.
fn counted(exponent: i128) -> u32
    requires { pos 0 ≤ℤ exponent }
    ensures { result ≡ counted (unsigned_abs exponent) }
{
    if exponent < 128 {
        exponent as u32
    } else {
        (128 + exponent as u128 % 2) as u32
    }
}

/// The first number to the right by as many places as the second says, rounded down.
pub fn right_shifted(x: i128, y: i128) -> Result<i128, Raised>
    ensures { result ≡ right_shifted x y }
{
    if y < 0 {
        return Err(Raised::new(Cause::NegativeShift));
    }
    let places = if y < 127 { y as u32 } else { 127 };
    Ok(x >> places)
}

/// The first number to the left by as many places as the second says.
pub fn left_shifted(x: i128, y: i128) -> Result<i128, Raised>
    ensures { result ≡ left_shifted x y }
{
    if y < 0 {
        Err(Raised::new(Cause::NegativeShift))
    } else {
        in_range(shifted(x, left_places(y)))
    }
}

// As many places to the left as count.
fn left_places(count: i128) -> u32
    requires { pos 0 ≤ℤ count }
    ensures { result ≡ left_places (unsigned_abs count) }
{
    if count < 128 { count as u32 } else { 128 }
}

// A number to the left by at most 128 places, where it is in range.
fn shifted(x: i128, places: u32) -> Option<i128>
    requires { places ≤ 128 }
    ensures { SomeIff result (FitsSigned w128 (x *ℤ pos (2 ^ places))) (x *ℤ pos (2 ^ places)) }
{
    if places < 127 {
        x.checked_mul(2i128.pow(places))
    } else if x == 0 {
        Some(0)
    } else if x == -1 && places == 127 {
        Some(i128::MIN)
    } else {
        None
    }
}

// A number that came out in range, or else the fault that it did not.
fn in_range(number: Option<i128>) -> Result<i128, Raised>
    ensures { result ≡ in_range_of number }
{
    match number {
        Some(z) => Ok(z),
        None => Err(Raised::new(Cause::IntRange)),
    }
}

// The quotient rounded down, where it is in range.
fn floor_quotient(x: i128, y: i128) -> Option<i128>
    requires { IsNonZero w128 y }
    ensures { SomeIff result (FitsSigned w128 (floor_quotient x y)) (floor_quotient x y) }
{
    if y > 0 {
        Some(x.div_euclid(y))
    } else if x > 0 {
        Some((x - 1) / y - 1)
    } else {
        x.checked_div(y)
    }
}

/// What the quotient rounded down leaves.
pub fn floor_remainder(x: i128, y: i128) -> i128
    requires { IsNonZero w128 y }
    ensures { result ≡ floor_remainder x y }
{
    if y > 0 {
        x.rem_euclid(y)
    } else if x > 0 {
        -left_of_negative(x, y.unsigned_abs())
    } else if y == -1 {
        0
    } else {
        x % y
    }
}

// What a number with its sign turned leaves by a divisor of this size.
fn left_of_negative(x: i128, size: u128) -> i128
    requires above { pos 0 <ℤ x }
    requires some { 0 < size }
    requires fits { size ≤ 2 ^ 127 }
    ensures left { result ≡ int_rem_euclid (neg_ℤ x) (pos size) }
    ensures least { pos 0 ≤ℤ result }
{
    (size - 1 - (x - 1) as u128 % size) as i128
}
