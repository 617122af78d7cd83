//! The next item of an iterator.

ghost use Rattle.native_containers.specs.Below.{[], IfOk, IfSome, pos, slice_get, encode_utf8, chars, Iterator, Next, OfIterator, GetItem, known_text, the_int, the_str, ANumber, AText, DoSpecial, ToAttribute, datum_at, next_node, with_node, of_ended, of_task, Leaves, Reading, Reads, ended_of, plain, task_of, EndsAs, AllHold, AreNodes, Grows, Holding, Holds, IsNode};
ghost use Rattle.std.specs.Prelude.{◌≡◌, ◌∷◌};
ghost use Rattle.native_containers.specs.NativeItems.Iterators.{found_in, is_end, item_found, iterator_in, next_by, next_in, next_place, next_rest, with_place};
ghost use Rattle.native_containers.specs.NativeItems.Rows.{Does, Enters, of_found, of_item_kept};

use crate::native_items::ItemKept;
use crate::receivers::lone;
use class_world::World;
use class_world::args::alone;
use py_node::{
    Answer, AttributeTask, BuiltIn, Cause, FuncArgs, Kind as FaultKind, Known, OutOfMemory,
    Payload, PyObjectRef, Raised, SequenceIterator, Step, Task,
};
use row_kit::take_containers::Kind;

/// What an object has at a place: an item, a character, or nothing; or it must be asked.
#[derive(Clone, Copy)]
pub enum Found {
    Nothing,
    Item(PyObjectRef),
    Character(char),
    Unknown,
}

/// The next item of an iterator.
pub(crate) fn next_item(
    world: &mut World,
    call: FuncArgs<'_>,
) -> Result<Step<ItemKept>, OutOfMemory>
    requires { Holds world.old (AreNodes call.args.now) }
    ensures goes { IfOk result (λ step. Enters (OfIterator Next) call.entry.args.now call.entry.kw.now world.old world.new step) }
    ensures safe { Leaves of_item_kept world.old world.new result }
{
    match lone(world, Kind::Iterator, call) {
        Err(raised) => Ok(Step::End(Err(raised))),
        Ok(iterator) => next_from(world, iterator),
    }
}

// The item at the iterator's place, if it has not ended.
fn next_from(world: &mut World, object: PyObjectRef) -> Result<Step<ItemKept>, OutOfMemory>
    requires object { Holds world.old (IsNode object) }
    requires holding { Holds world.old (Holding object Iterator) }
    ensures goes { IfOk result (λ step. Does (OfIterator Next) (object ∷ [])
        (λ t u. next_by u object (iterator_in (datum_at u object))) world.old world.new step) }
    ensures safe { Leaves of_item_kept world.old world.new result }
{
    match iterator_of(world, object) {
        None => Ok(Step::raise(Cause::IterEnd)),
        Some(iterator) => match iterator.place {
            None => Ok(Step::raise(Cause::IterEnd)),
            Some(place) => next_at(world, object, iterator, place),
        },
    }
}

// The iterator that an object is, if it is one.
fn iterator_of(world: &World, object: PyObjectRef) -> Option<SequenceIterator>
    requires { Holds world.now (IsNode object) }
    ensures reads { (t : Reading) → iterator_in (datum_at (plain t world.now) object) ≡ result }
    ensures holds { IfSome result (λ i. Holds world.now (IsNode i.object)) }
{
    match world.payload(object) {
        Payload::Iterator(iterator) => Some(*iterator),
        _ => None,
    }
}

// The item at a place, which moves the iterator on, or the object is asked.
fn next_at(
    world: &mut World,
    object: PyObjectRef,
    iterator: SequenceIterator,
    place: u64,
) -> Result<Step<ItemKept>, OutOfMemory>
    requires object { Holds world.old (IsNode object) }
    requires holding { Holds world.old (Holding object Iterator) }
    requires iterator { Holds world.old (IsNode iterator.object) }
    ensures goes { IfOk result (λ step. Does (OfIterator Next) (object ∷ [])
        (λ t u. next_in u object iterator place (found_in place (datum_at u iterator.object)))
        world.old world.new step) }
    ensures safe { Leaves of_item_kept world.old world.new result }
{
    match found_in(world, iterator.object, place) {
        Found::Nothing => {
            set_place(world, object, iterator, None);
            Ok(Step::raise(Cause::IterEnd))
        }
        Found::Item(item) => {
            set_place(world, object, iterator, next_place(place));
            Ok(Step::End(Ok(Answer::Value(item))))
        }
        Found::Character(character) => {
            let item = new_character(world, character)?;
            set_place(world, object, iterator, next_place(place));
            Ok(Step::End(Ok(Answer::Value(item))))
        }
        Found::Unknown => {
            let task = ask_item(world, iterator.object, place)?;
            Ok(Step::Ask(task, ItemKept::Iterating(object)))
        }
    }
}

// What an object has at a place.
fn found_in(world: &World, object: PyObjectRef, place: u64) -> Found
    requires { Holds world.now (IsNode object) }
    ensures found { (t : Reading) → found_in place (datum_at (plain t world.now) object) ≡ result }
    ensures holds { AllHold world.now (of_found result) }
{
    match world.payload(object) {
        Payload::Text(text) => match character_in(text.as_str(), place) {
            None => Found::Nothing,
            Some(character) => Found::Character(character),
        },
        Payload::Tuple(items) => item_in(items, place),
        Payload::List(items) => item_in(items, place),
        _ => Found::Unknown,
    }
}

// The character at a place, if there is one.
fn character_in(text: &str, place: u64) -> Option<char>
    ensures { result ≡ slice_get (chars text.now) place }
{
    text.chars().nth(place as usize)
}

// The item at a place, if there is one.
fn item_in(items: &[PyObjectRef], place: u64) -> Found
    ensures { result ≡ item_found (slice_get items.now place) }
{
    match items.get(place as usize) {
        None => Found::Nothing,
        Some(item) => Found::Item(*item),
    }
}

// A new text of one character.
#[tactic(auto, using(class_world::proofs::Items::item_holds), unfolding(py_node::specs::BuiltIns::place_of))]
fn new_character(world: &mut World, character: char) -> Result<PyObjectRef, OutOfMemory>
    ensures made { IfOk result (λ r. (t : Reading) →
        plain t world.new ≡ with_node (plain t world.old) the_str (AText (encode_utf8 character))) }
    ensures number { IfOk result (λ r. (t : Reading) → r ≡ next_node (plain t world.old) the_str) }
    ensures reads { (t : Reading) → Reads t world.new → Reads t world.old }
    ensures grows { Grows world.old world.new }
    ensures node { IfOk result (λ r. Holds world.new (IsNode r)) }
{
    let mut text = String::new(world.alloc());
    text.push(character)?;
    let class = world.built_in(BuiltIn::Str);
    let node = world.make_node(class, Payload::Text(text))?;
    Ok(node)
}

// A new whole number that is a place.
#[tactic(auto, using(class_world::proofs::Items::item_holds), unfolding(py_node::specs::BuiltIns::place_of))]
fn new_place(world: &mut World, place: u64) -> Result<PyObjectRef, OutOfMemory>
    ensures made { IfOk result (λ r. (t : Reading) →
        plain t world.new ≡ with_node (plain t world.old) the_int (ANumber (pos place))) }
    ensures number { IfOk result (λ r. (t : Reading) → r ≡ next_node (plain t world.old) the_int) }
    ensures reads { (t : Reading) → Reads t world.new → Reads t world.old }
    ensures grows { Grows world.old world.new }
    ensures node { IfOk result (λ r. Holds world.new (IsNode r)) }
{
    let class = world.built_in(BuiltIn::Int);
    let node = world.make_node(class, Payload::Number(place as i128))?;
    Ok(node)
}

// The task that asks an object for the item of a new number.
fn ask_item(world: &mut World, object: PyObjectRef, place: u64) -> Result<Task, OutOfMemory>
    requires { Holds world.old (IsNode object) }
    ensures made { IfOk result (λ task. (t : Reading) →
        plain t world.new ≡ with_node (plain t world.old) the_int (ANumber (pos place))) }
    ensures task { IfOk result (λ task. (t : Reading) → Reads t world.new → task_of t task ≡
        ToAttribute (DoSpecial object (known_text GetItem) (next_node (plain t world.old) the_int ∷ []) [])) }
    ensures reads { (t : Reading) → Reads t world.new → Reads t world.old }
    ensures grows { Grows world.old world.new }
    ensures holds { IfOk result (λ task. AllHold world.new (of_task task)) }
{
    let number = new_place(world, place)?;
    let args = alone(world.alloc(), number)?;
    let kw = Vec::new(world.alloc());
    let name = world.known(Known::GetItem);
    Ok(Task::Attribute(AttributeTask::Special(object, name, args, kw)))
}

// The place after another, as far as 64 bits go.
fn next_place(place: u64) -> Option<u64>
    ensures { result ≡ next_place place }
{
    if place < u64::MAX {
        Some(place + 1)
    } else {
        None
    }
}

// Moves an iterator to another place, or ends it.
fn set_place(world: &mut World, object: PyObjectRef, iterator: SequenceIterator, place: Option<u64>)
    requires object { Holds world.old (IsNode object) }
    requires holding { Holds world.old (Holding object Iterator) }
    requires iterator { Holds world.old (IsNode iterator.object) }
    ensures set { (t : Reading) → plain t world.new ≡ with_place (plain t world.old) object iterator place }
    ensures reads { (t : Reading) → Reads t world.new → Reads t world.old }
    ensures grows { Grows world.old world.new }
{
    let moved = SequenceIterator {
        object: iterator.object,
        place,
    };
    world.set_payload(object, Payload::Iterator(moved));
}

/// The item that was asked for moves the iterator on. A fault leaves it ended.
pub(crate) fn next_given(
    world: &mut World,
    object: PyObjectRef,
    answer: Result<Answer, Raised>,
) -> Result<Answer, Raised>
    requires object { Holds world.old (IsNode object) }
    requires holding { Holds world.old (Holding object Iterator) }
    requires answer { AllHold world.old (of_ended answer) }
    ensures ends { EndsAs (λ t u. next_rest u object (iterator_in (datum_at u object)) (ended_of answer) [])
        world.old world.new result }
    ensures grows { Grows world.old world.new }
    ensures holds { AllHold world.new (of_ended result) }
{
    let Some(iterator) = iterator_of(world, object) else {
        return answer;
    };
    match answer {
        Ok(Answer::Value(item)) => {
            if let Some(place) = iterator.place {
                set_place(world, object, iterator, next_place(place));
            }
            Ok(Answer::Value(item))
        }
        Err(raised) => {
            set_place(world, object, iterator, None);
            if is_end(raised.kind) {
                Err(Raised::new(Cause::IterEnd))
            } else {
                Err(raised)
            }
        }
        other => other,
    }
}

// Whether a fault of this kind is the end of the items.
fn is_end(kind: FaultKind) -> bool
    ensures { result ≡ is_end kind }
{
    matches!(kind, FaultKind::IndexError | FaultKind::StopIteration)
}
