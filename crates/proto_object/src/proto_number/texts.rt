//! The whole number that a text spells.

ghost use Rattle.py_node.specs.Stops.{Ended};
ghost use Rattle.proto_object.specs.Below.{is_ascii_digit, list_all, datum_at, EndsAs, LeavesEnd, Holds, IsNode};
ghost use Rattle.std.specs.Prelude.{◌≡◌};
ghost use Rattle.proto_object.specs.ProtoNumber.Numbers.{is_numeral, spelled, text_number, without_sign};

use class_world::World;
use py_node::{Answer, Cause, Payload, PyObjectRef, Raised, Stop};
use row_kit::give::new_int;

/// The whole number that a text spells, as a new one. Other objects spell none.
pub(crate) fn text_number(world: &mut World, o: PyObjectRef) -> Result<Answer, Stop>
    requires { Holds world.old (IsNode o) }
    ensures ends { Ended result (EndsAs (λ t u. text_number u (datum_at u o)) world.old world.new) }
    ensures safe { LeavesEnd world.old world.new result }
{
    match world.payload(o) {
        Payload::Text(text) => {
            let number = spelled(text.as_str());
            new_int(world, number)
        }
        _ => Err(Stop::raise(Cause::NotInt)),
    }
}

// The number that a text spells, if it spells one.
fn spelled(text: &str) -> Result<i128, Raised>
    ensures { result ≡ spelled text.now }
{
    if !is_numeral(without_sign(text.as_bytes())) {
        return Err(Raised::new(Cause::IntLiteral));
    }
    match text.parse::<i128>() {
        Ok(z) => Ok(z),
        Err(_) => Err(Raised::new(Cause::IntRange)),
    }
}

// The bytes after a sign, if there is one.
fn without_sign(bytes: &[u8]) -> &[u8]
    ensures { result.now ≡ without_sign bytes.now }
{
    match bytes {
        [b'-', rest @ ..] => rest,
        [b'+', rest @ ..] => rest,
        _ => bytes,
    }
}

// Whether these are decimal digits, at least one.
fn is_numeral(digits: &[u8]) -> bool
    ensures { result ≡ is_numeral digits.now }
{
    match digits {
        [] => false,
        _ => are_digits(digits),
    }
}

// Whether each byte is a decimal digit.
fn are_digits(bytes: &[u8]) -> bool
    ensures { result ≡ list_all is_ascii_digit bytes.now }
{
    bytes.iter().all(|byte| byte.is_ascii_digit())
}
