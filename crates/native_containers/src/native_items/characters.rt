//! A character or a part of a text.

ghost use Rattle.py_node.specs.Stops.{Ended};
ghost use Rattle.native_containers.specs.Below.{[], IfOk, option_map, slice_range, string_bytes, chars, encode_utf8_all, OfStr, datum_at, of_ended, Leaves, EndsAs, LeavesEnd, Reading, ended_of, plain, AllHold, AreNodes, Holds, IsNode, of_node_ref, of_option, argument, text_of};
ghost use Rattle.std.specs.Prelude.{◌≡◌};
ghost use Rattle.py_node.specs.declared.entry.StrNative.TheVariants.{GetItem};
ghost use Rattle.native_containers.specs.NativeTexts.Say.{or_no_text};
ghost use Rattle.native_containers.specs.NativeItems.Items.{character_at, char_rest, chars_at};
ghost use Rattle.native_containers.specs.NativeItems.Places.{part};
ghost use Rattle.native_containers.specs.NativeItems.Rows.{Enters, of_item_kept};

use crate::native_items::ItemKept;
use crate::native_items::places::{bounds, place_at, slice_of};
use crate::native_texts::own_text::{text_and, text_of};
use crate::native_texts::text_length;
use class_world::{Fixed, World};
use py_node::protocol::ProtocolTask;
use py_node::{
    Answer, Cause, FuncArgs, OutOfMemory, PyObjectRef, PySlice, Raised, Step, Stop, Task, caught,
};
use row_kit::give::new_text;
use std::alloc::Global;

/// A character, or a part, of a text as a new text.
pub(crate) fn get_character(
    world: &mut World,
    call: FuncArgs<'_>,
) -> Result<Step<ItemKept>, OutOfMemory>
    requires { Holds world.old (AreNodes call.args.now) }
    ensures goes { IfOk result (λ step. Enters (OfStr GetItem) call.entry.args.now call.entry.kw.now world.old world.new step) }
    ensures safe { Leaves of_item_kept world.old world.new result }
{
    match text_and(world, call) {
        Err(raised) => Ok(Step::End(Err(raised))),
        Ok((text, key)) => match slice_of(world, key) {
            Some(slice) => {
                let part = text_part(world, slice, text)?;
                let ended = caught(new_text(world, part))?;
                Ok(Step::End(ended))
            }
            None => {
                let task = Task::Protocol(ProtocolTask::Index(key));
                let object = first_argument(world, call.args);
                Ok(Step::Ask(task, ItemKept::GettingCharacter(object)))
            }
        },
    }
}

// The first argument, or None.
fn first_argument(world: &World, args: &[PyObjectRef]) -> PyObjectRef
    requires { Holds world.now (AreNodes args.now) }
    ensures same { argument args.now 0 ≡ result }
    ensures node { Holds world.now (IsNode result) }
{
    match args {
        [] => world.fixed(Fixed::None),
        [first, ..] => *first,
    }
}

// The characters between the bounds of a slice.
fn text_part(world: &World, slice: PySlice, text: &str) -> Result<String, OutOfMemory>
    requires start { AllHold world.now (of_option of_node_ref slice.start) }
    requires stop { AllHold world.now (of_option of_node_ref slice.stop) }
    ensures { IfOk result (λ s. (t : Reading) →
        encode_utf8_all (part (plain t world.now) slice (chars text.now)) ≡ string_bytes s) }
{
    let (start, stop) = bounds(world, slice, text_length(text));
    characters_between(world.alloc(), text, start, stop)
}

// The characters of a text between two places.
fn characters_between(
    alloc: Global,
    text: &str,
    start: usize,
    stop: usize,
) -> Result<String, OutOfMemory>
    ensures { IfOk result (λ s. string_bytes s ≡ encode_utf8_all (slice_range (chars text.now) start stop)) }
{
    let count = stop.saturating_sub(start);
    Ok(text.chars().skip(start).take(count).collect(alloc)?)
}

/// The character at a place that was asked for, as a new text.
pub(crate) fn character_given(
    world: &mut World,
    object: PyObjectRef,
    answer: Result<Answer, Raised>,
) -> Result<Answer, Stop>
    requires object { Holds world.old (IsNode object) }
    requires answer { AllHold world.old (of_ended answer) }
    ensures ends { Ended result (EndsAs (λ t u. char_rest u (chars_at u object) (ended_of answer) [])
        world.old world.new) }
    ensures safe { LeavesEnd world.old world.new result }
{
    match answer {
        Ok(Answer::Value(index)) => match character_at(world, object, index)? {
            None => Err(Stop::raise(Cause::IndexOut)),
            Some(text) => new_text(world, text),
        },
        other => Ok(other?),
    }
}

// The character of a text at the place to which an object leads, as a text, if there is one.
fn character_at(
    world: &World,
    object: PyObjectRef,
    index: PyObjectRef,
) -> Result<Option<String>, OutOfMemory>
    requires object { Holds world.now (IsNode object) }
    requires index { Holds world.now (IsNode index) }
    ensures given { IfOk result (λ o. (t : Reading) →
        character_at (plain t world.now) (chars_at (plain t world.now) object) index ≡ option_map string_bytes o) }
{
    let text = text_at(world, object);
    match place_at(world, text_length(text), index) {
        None => Ok(None),
        Some(place) => {
            let text = characters_between(world.alloc(), text, place, place + 1)?;
            Ok(Some(text))
        }
    }
}

// The text that an object holds, or else none.
fn text_at(world: &World, object: PyObjectRef) -> &str
    requires { Holds world.now (IsNode object) }
    ensures { (t : Reading) → or_no_text (text_of (datum_at (plain t world.now) object)) ≡ result.now }
{
    match text_of(world, object) {
        Some(text) => text,
        None => "",
    }
}
