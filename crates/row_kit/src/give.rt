//! What a native gives: a new object, a new number, or a new text.

ghost use Rattle.py_node.specs.Stops.{Ended};
ghost use Rattle.row_kit.specs.Below.{Ok, None, [], string_bytes, place_of, holds_as, named_end, of_ended, Reading, datum, ended_of, AllHold, Holds, IsNode, class_in, home_of, of_payload, EndsAs, LeavesEnd};
ghost use Rattle.std.specs.Prelude.{◌≡◌};
ghost use Rattle.row_kit.specs.Say.{int_made, iterator_made, text_made, object_made, size_of, sized_made};

use class_world::limits::is_within_limit;
use class_world::{Fixed, World};
use py_node::{Answer, BuiltIn, Cause, Payload, PyObjectRef, Raised, SequenceIterator, Stop};

/// Ends with a new object of a built-in class.
pub fn new_object(world: &mut World, class: BuiltIn, payload: Payload) -> Result<Answer, Stop>
    requires of { holds_as class ≡ home_of payload }
    requires holds { AllHold world.old (of_payload payload) }
    requires other { class_in payload ≡ None }
    ensures ends { Ended result (EndsAs (λ t u. object_made u (place_of class) (datum t payload)) world.old world.new) }
    ensures safe { LeavesEnd world.old world.new result }
{
    let class = world.built_in(class);
    let node = world.make_node(class, payload)?;
    Ok(Answer::Value(node))
}

/// Ends with a new text, tuple, list or dict, where it has no more bytes or items than there may be.
pub fn new_sized(world: &mut World, class: BuiltIn, payload: Payload) -> Result<Answer, Stop>
    requires of { holds_as class ≡ home_of payload }
    requires holds { AllHold world.old (of_payload payload) }
    requires other { class_in payload ≡ None }
    ensures ends { Ended result (EndsAs (λ t u. sized_made u (place_of class) (datum t payload)) world.old world.new) }
    ensures safe { LeavesEnd world.old world.new result }
{
    if is_within_limit(size_of(&payload)) {
        new_object(world, class, payload)
    } else {
        Err(Stop::raise(Cause::TooLong))
    }
}

// How many bytes or items a text or a container has.
fn size_of(payload: &Payload) -> usize
    ensures { (t : Reading) → result ≡ size_of (datum t payload.now) }
{
    match payload {
        Payload::Text(text) => text.len(),
        Payload::Tuple(items) => items.len(),
        Payload::List(items) => items.len(),
        Payload::Dict(dict) => dict.len(),
        _ => 0,
    }
}

/// Ends with a new whole number, or with a fault.
pub fn new_int(world: &mut World, number: Result<i128, Raised>) -> Result<Answer, Stop>
    ensures ends { Ended result (EndsAs (λ t u. int_made u number) world.old world.new) }
    ensures safe { LeavesEnd world.old world.new result }
{
    let z = number?;
    let class = world.built_in(BuiltIn::Int);
    let node = world.make_node(class, Payload::Number(z))?;
    Ok(Answer::Value(node))
}

/// Ends with a new text.
pub fn new_text(world: &mut World, text: String) -> Result<Answer, Stop>
    ensures ends { Ended result (EndsAs (λ t u. text_made u (Ok (string_bytes text))) world.old world.new) }
    ensures safe { LeavesEnd world.old world.new result }
{
    let class = world.built_in(BuiltIn::Str);
    let node = world.make_node(class, Payload::Text(text))?;
    Ok(Answer::Value(node))
}

/// Ends with a new text that is this word.
pub fn new_word(world: &mut World, word: &str) -> Result<Answer, Stop>
    ensures ends { Ended result (EndsAs (λ t u. text_made u (Ok word.now)) world.old world.new) }
    ensures safe { LeavesEnd world.old world.new result }
{
    let text = String::from_str(world.alloc(), word)?;
    new_text(world, text)
}

/// Ends with a new iterator over an object, whose first item is the next.
pub fn new_iterator(world: &mut World, object: PyObjectRef) -> Result<Answer, Stop>
    requires { Holds world.old (IsNode object) }
    ensures ends { Ended result (EndsAs (λ t u. iterator_made u object) world.old world.new) }
    ensures safe { LeavesEnd world.old world.new result }
{
    let iterator = SequenceIterator {
        object,
        place: Some(0),
    };
    new_object(world, BuiltIn::Iterator, Payload::Iterator(iterator))
}

/// Ends with an object, as a native does that is called by name or by which an attribute is read: of a number that it
/// told, a new one, and None where it told nothing. Other answers and faults stay.
pub fn as_object(world: &mut World, answer: Result<Answer, Raised>) -> Result<Answer, Stop>
    requires { AllHold world.old (of_ended answer) }
    ensures ends { Ended result (EndsAs (λ t u. named_end u (ended_of answer) []) world.old world.new) }
    ensures safe { LeavesEnd world.old world.new result }
{
    match answer {
        Ok(Answer::Number(z)) => new_int(world, Ok(z as i128)),
        Ok(Answer::Done) => Ok(Answer::Value(world.fixed(Fixed::None))),
        other => Ok(other?),
    }
}
