//! The natives of texts.

ghost use Rattle.py_node.specs.Stops.{Ended};
ghost use Rattle.native_containers.specs.Below.{of_ended, Reading, bindings, plain, AllHold, AreNodes, Holds, IsNode, EndsAs, LeavesEnd, class_at};
ghost use Rattle.std.specs.Prelude.{◌≡◌};
ghost use Rattle.native_containers.specs.NativeTexts.Say.{is_str, str_add, str_contains, str_hash, str_iter, str_len, str_repr, str_str, str_upper, text_say};

use crate::native_texts::of_bytes::{repr_text, stands_in, text_hash, text_length};
use crate::native_texts::own_text::{lone_text, text_and, text_of};
use class_world::World;
use py_node::{Answer, BuiltIn, Cause, FuncArgs, PyObjectRef, Raised, Stop, StrNative};
use row_kit::class_names::limited_text;
use row_kit::give::{new_iterator, new_text};

/// A native of texts. Those that ask a task are not done here.
pub fn text_native(world: &mut World, native: StrNative, call: FuncArgs<'_>) -> Result<Answer, Stop>
    requires { Holds world.old (AreNodes call.args.now) }
    ensures ends { Ended result (EndsAs (λ t u. text_say u native call.entry.args.now (bindings t call.entry.kw.now))
        world.old world.new) }
    ensures safe { LeavesEnd world.old world.new result }
{
    match native {
        StrNative::Repr => str_repr(world, call),
        StrNative::Str => str_str(world, call),
        StrNative::Hash => Ok(str_hash(world, call)?),
        StrNative::Length => Ok(str_len(world, call)?),
        StrNative::Contains => Ok(str_contains(world, call)?),
        StrNative::Iter => str_iter(world, call),
        StrNative::Add => str_add(world, call),
        StrNative::Upper => str_upper(world, call),
        StrNative::GetItem | StrNative::Multiply | StrNative::RightMultiply => {
            Err(Stop::raise(Cause::SelfType))
        }
    }
}

// The text as Python writes it.
fn str_repr(world: &mut World, call: FuncArgs<'_>) -> Result<Answer, Stop>
    requires { Holds world.old (AreNodes call.args.now) }
    ensures ends { Ended result (EndsAs (λ t u. str_repr u call.entry.args.now (bindings t call.entry.kw.now))
        world.old world.new) }
    ensures safe { LeavesEnd world.old world.new result }
{
    let (_, text) = lone_text(world, call)?;
    let quoted = repr_text(world.alloc(), text)?;
    limited_text(world, quoted)
}

// The text itself, as a str of no other class.
fn str_str(world: &mut World, call: FuncArgs<'_>) -> Result<Answer, Stop>
    requires { Holds world.old (AreNodes call.args.now) }
    ensures ends { Ended result (EndsAs (λ t u. str_str u call.entry.args.now (bindings t call.entry.kw.now))
        world.old world.new) }
    ensures safe { LeavesEnd world.old world.new result }
{
    match lone_text(world, call) {
        Err(raised) => Err(raised.into()),
        Ok((o, _)) if is_str(world, o) => Ok(Answer::Value(o)),
        Ok((_, text)) => {
            let copy = String::from_str(world.alloc(), text)?;
            new_text(world, copy)
        }
    }
}

// The hash of the text.
fn str_hash(world: &World, call: FuncArgs<'_>) -> Result<Answer, Raised>
    requires { Holds world.now (AreNodes call.args.now) }
    ensures ends { EndsAs (λ t u. str_hash u call.entry.args.now (bindings t call.entry.kw.now)) world.now world.now result }
    ensures holds { AllHold world.now (of_ended result) }
{
    let (_, text) = lone_text(world, call)?;
    Ok(Answer::Number(text_hash(text)))
}

// How many characters the text has.
fn str_len(world: &World, call: FuncArgs<'_>) -> Result<Answer, Raised>
    requires { Holds world.now (AreNodes call.args.now) }
    ensures ends { EndsAs (λ t u. str_len u call.entry.args.now (bindings t call.entry.kw.now)) world.now world.now result }
    ensures holds { AllHold world.now (of_ended result) }
{
    let (_, text) = lone_text(world, call)?;
    Ok(Answer::Number((text_length(text) as u64).cast_signed()))
}

// An iterator over the characters of the text.
fn str_iter(world: &mut World, call: FuncArgs<'_>) -> Result<Answer, Stop>
    requires { Holds world.old (AreNodes call.args.now) }
    ensures ends { Ended result (EndsAs (λ t u. str_iter u call.entry.args.now (bindings t call.entry.kw.now))
        world.old world.new) }
    ensures safe { LeavesEnd world.old world.new result }
{
    let (o, _) = lone_text(world, call)?;
    new_iterator(world, o)
}

// The text with the letters of ASCII in upper case.
fn str_upper(world: &mut World, call: FuncArgs<'_>) -> Result<Answer, Stop>
    requires { Holds world.old (AreNodes call.args.now) }
    ensures ends { Ended result (EndsAs (λ t u. str_upper u call.entry.args.now (bindings t call.entry.kw.now))
        world.old world.new) }
    ensures safe { LeavesEnd world.old world.new result }
{
    let (_, text) = lone_text(world, call)?;
    let upper = text.to_ascii_uppercase(world.alloc())?;
    new_text(world, upper)
}

// Both texts, one after the other.
fn str_add(world: &mut World, call: FuncArgs<'_>) -> Result<Answer, Stop>
    requires { Holds world.old (AreNodes call.args.now) }
    ensures ends { Ended result (EndsAs (λ t u. str_add u call.entry.args.now (bindings t call.entry.kw.now))
        world.old world.new) }
    ensures safe { LeavesEnd world.old world.new result }
{
    let (text, other) = text_and(world, call)?;
    match text_of(world, other) {
        None => Err(Stop::raise(Cause::ConcatType)),
        Some(more) => {
            let mut both = String::from_str(world.alloc(), text)?;
            both.push_str(more)?;
            limited_text(world, both)
        }
    }
}

// Whether the other text stands somewhere in the first.
fn str_contains(world: &World, call: FuncArgs<'_>) -> Result<Answer, Raised>
    requires { Holds world.now (AreNodes call.args.now) }
    ensures ends { EndsAs (λ t u. str_contains u call.entry.args.now (bindings t call.entry.kw.now)) world.now world.now result }
    ensures holds { AllHold world.now (of_ended result) }
{
    let (text, other) = text_and(world, call)?;
    match text_of(world, other) {
        None => Err(Raised::new(Cause::ContainsType)),
        Some(part) => Ok(Answer::Value(world.truth(stands_in(part, text)))),
    }
}

// Whether the class of an object is `str` itself.
#[tactic(auto, unfolding(py_node::specs::BuiltIns::place_of))]
fn is_str(world: &World, o: PyObjectRef) -> bool
    requires { Holds world.now (IsNode o) }
    ensures { (t : Reading) → is_str (class_at (plain t world.now) o) ≡ result }
{
    world.class_of(o).0 == BuiltIn::Str.class().0
}
