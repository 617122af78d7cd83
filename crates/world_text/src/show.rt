//! The text of an object, as replies show it.

ghost use Rattle.world_text.specs.Below.{IfOk, OnOk, codes, string_bytes, option_map, map, take, drop, place_of, escaped, joined, show, class_name, plain_text, fixed_text, datum_text, dots, rest_text, item_texts, entry_text, tuple_end, tuple_text, list_text, dict_text, containers, text_within, Reading, plain, datum, IsNode, AreNodes, IsClass, Holds, AllHold, of_payload};
ghost use Rattle.std.specs.Prelude.{◌≡◌, ◌==◌, ◌++◌};
ghost use Rattle.world_text.specs.Inside.{texts_of, inside, or_dots};

use class_world::World;
use class_world::built_ins::{FALSE, NONE, NOT_IMPLEMENTED, TRUE};
use py_node::{BuiltIn, OutOfMemory, Payload, PyObjectRef, PyTypeRef};
use script_text::reply_text::escape::{escaped_string, quoted_string};
use std::alloc::Global;

// How many containers deep are shown, and how many items of each.
const DEPTH: u8 = 3;

const ITEMS: usize = 20;

/// The text of an object.
#[tactic(auto, unfolding(plain_machine::specs::Show::show))]
pub fn show(world: &World, node: PyObjectRef) -> Result<String, OutOfMemory>
    requires { Holds world.now (IsNode node) }
    ensures { IfOk result (λ s. (t : Reading) → string_bytes s ≡ show (plain t world.now) node) }
{
    text_within(world, DEPTH, node)
}

// The text of an object, where containers are shown so many deep.
#[cycle(show)]
fn text_within(world: &World, depth: u8, node: PyObjectRef) -> Result<String, OutOfMemory>
    requires { Holds world.now (IsNode node) }
    ensures { IfOk result (λ s. (t : Reading) → string_bytes s ≡ text_within depth (plain t world.now) node) }
{
    let alloc = world.alloc();
    match fixed(node) {
        Some(text) => Ok(String::from_str(alloc, text)?),
        None => show_payload(world, depth, world.class_of(node), world.payload(node)),
    }
}

// The text of a fixed object.
fn fixed(node: PyObjectRef) -> Option<&'static str>
    ensures { option_map (λ s. s.now) result ≡ fixed_text node.0 }
{
    match node.0 {
        NONE => Some("None"),
        NOT_IMPLEMENTED => Some("NotImplemented"),
        FALSE => Some("False"),
        TRUE => Some("True"),
        _ => None,
    }
}

// Whether a class is this built-in one.
fn is(class: PyTypeRef, built_in: BuiltIn) -> bool
    ensures { (class.0 == place_of built_in) ≡ result }
{
    class.0 == built_in.class().0
}

// The text of an object of this class that holds this.
#[cycle(show)]
#[tactic(auto, unfolding(py_node::specs::BuiltIns::place_of))]
fn show_payload(
    world: &World,
    depth: u8,
    class: PyTypeRef,
    payload: &Payload,
) -> Result<String, OutOfMemory>
    requires class { Holds world.now (IsClass class.0) }
    requires payload { AllHold world.now (of_payload payload.now) }
    ensures { IfOk result (λ s. (t : Reading) → string_bytes s ≡
        datum_text (containers depth (plain t world.now)) (plain t world.now) class.0 (datum t payload.now)) }
{
    let alloc = world.alloc();
    match payload {
        Payload::Number(z) if is(class, BuiltIn::Int) => Ok(format!(in alloc; "{z}")?),
        Payload::Text(text) if is(class, BuiltIn::Str) => quoted_string(alloc, text.as_str()),
        Payload::Tuple(items) if is(class, BuiltIn::Tuple) => {
            tuple_of(alloc, item_texts(world, depth, items)?)
        }
        Payload::List(items) if is(class, BuiltIn::List) => {
            list_of(alloc, item_texts(world, depth, items)?)
        }
        Payload::Dict(dict) if is(class, BuiltIn::Dict) => {
            dict_of(alloc, entry_texts(world, depth, dict.entries())?)
        }
        Payload::Class(named) => show_class(world, *named),
        _ => show_plain(world, class),
    }
}

// The texts of items, the first twenty, unless no container inside this one is shown.
#[cycle(show)]
fn item_texts(
    world: &World,
    depth: u8,
    items: &[PyObjectRef],
) -> Result<Option<Vec<String>>, OutOfMemory>
    requires { Holds world.now (AreNodes items.now) }
    ensures { IfOk result (λ o. (t : Reading) → texts_of o ≡
        inside depth (λ n. item_texts (text_within n (plain t world.now)) items.now)) }
{
    let alloc = world.alloc();
    match depth.checked_sub(1) {
        None => Ok(None),
        Some(less) => {
            let mut texts = Vec::new(alloc);
            for item in first_items(items) {
                texts.push(text_within(world, less, *item)?)?;
            }
            push_rest(alloc, &mut texts, items)?;
            Ok(Some(texts))
        }
    }
}

// The texts of keys with their values, the first twenty, unless no container inside this one is shown.
#[cycle(show)]
fn entry_texts(
    world: &World,
    depth: u8,
    entries: &[(PyObjectRef, PyObjectRef)],
) -> Result<Option<Vec<String>>, OutOfMemory>
    requires keys { Holds world.now (AreNodes (map (λ e. e.0) entries.now)) }
    requires values { Holds world.now (AreNodes (map (λ e. e.1) entries.now)) }
    ensures { IfOk result (λ o. (t : Reading) → texts_of o ≡
        inside depth (λ n. item_texts (entry_text (text_within n (plain t world.now))) entries.now)) }
{
    let alloc = world.alloc();
    match depth.checked_sub(1) {
        None => Ok(None),
        Some(less) => {
            let mut texts = Vec::new(alloc);
            for entry in first_items(entries) {
                texts.push(show_entry(world, less, *entry)?)?;
            }
            push_rest(alloc, &mut texts, entries)?;
            Ok(Some(texts))
        }
    }
}

// A key with its value.
#[cycle(show)]
fn show_entry(
    world: &World,
    depth: u8,
    entry: (PyObjectRef, PyObjectRef),
) -> Result<String, OutOfMemory>
    requires key { Holds world.now (IsNode entry.0) }
    requires value { Holds world.now (IsNode entry.1) }
    ensures { IfOk result (λ s. (t : Reading) → string_bytes s ≡
        entry_text (text_within depth (plain t world.now)) entry) }
{
    let alloc = world.alloc();
    let key = text_within(world, depth, entry.0)?;
    let value = text_within(world, depth, entry.1)?;
    between(alloc, key.as_str(), ": ", value.as_str())
}

// The items that are shown.
fn first_items<T>(items: &[T]) -> &[T]
    ensures { result.now ≡ take 20 items.now }
{
    if items.len() <= ITEMS {
        items
    } else {
        &items[..ITEMS]
    }
}

// Adds dots where there are items that are not shown.
fn push_rest<T>(alloc: Global, texts: &mut Vec<String>, items: &[T]) -> Result<(), OutOfMemory>
    ensures { OnOk result (map string_bytes texts.new.items ≡ map string_bytes texts.old.items ++
        rest_text (drop 20 items.now)) }
{
    if items.len() > ITEMS {
        texts.push(String::from_str(alloc, "...")?)?;
    }
    Ok(())
}

// A tuple whose items have these texts.
fn tuple_of(alloc: Global, texts: Option<Vec<String>>) -> Result<String, OutOfMemory>
    ensures { IfOk result (λ s. string_bytes s ≡ or_dots tuple_text (texts_of texts)) }
{
    match texts {
        None => dots(alloc),
        Some(texts) => {
            let inside = with_commas(alloc, &texts)?;
            between(alloc, "(", inside.as_str(), tuple_end(&texts))
        }
    }
}

// The end of a tuple.
fn tuple_end(texts: &[String]) -> &'static str
    ensures { result.now ≡ tuple_end (map string_bytes texts.now) }
{
    match texts {
        [_] => ",)",
        _ => ")",
    }
}

// A list whose items have these texts.
fn list_of(alloc: Global, texts: Option<Vec<String>>) -> Result<String, OutOfMemory>
    ensures { IfOk result (λ s. string_bytes s ≡ or_dots list_text (texts_of texts)) }
{
    match texts {
        None => dots(alloc),
        Some(texts) => {
            let inside = with_commas(alloc, &texts)?;
            between(alloc, "[", inside.as_str(), "]")
        }
    }
}

// A dict whose keys with their values have these texts.
fn dict_of(alloc: Global, texts: Option<Vec<String>>) -> Result<String, OutOfMemory>
    ensures { IfOk result (λ s. string_bytes s ≡ or_dots dict_text (texts_of texts)) }
{
    match texts {
        None => dots(alloc),
        Some(texts) => {
            let inside = with_commas(alloc, &texts)?;
            between(alloc, "{", inside.as_str(), "}")
        }
    }
}

// What stands for a container that is not shown.
fn dots(alloc: Global) -> Result<String, OutOfMemory>
    ensures { IfOk result (λ s. string_bytes s ≡ dots) }
{
    Ok(String::from_str(alloc, "...")?)
}

// Texts with commas between them.
fn with_commas(alloc: Global, texts: &[String]) -> Result<String, OutOfMemory>
    ensures { IfOk result (λ s. string_bytes s ≡ joined (codes ", ") (map string_bytes texts.now)) }
{
    Ok(texts.join(alloc, ", ")?)
}

// The text of a class.
fn show_class(world: &World, class: PyTypeRef) -> Result<String, OutOfMemory>
    requires { Holds world.now (IsClass class.0) }
    ensures { IfOk result (λ s. (t : Reading) → string_bytes s ≡ codes "<class '" ++
        class_name (plain t world.now) class.0 ++ codes "'>") }
{
    let alloc = world.alloc();
    wrapped(alloc, "<class '", world.class_name(class), "'>")
}

// The text of an object whose class gives it no text of its own.
fn show_plain(world: &World, class: PyTypeRef) -> Result<String, OutOfMemory>
    requires { Holds world.now (IsClass class.0) }
    ensures { IfOk result (λ s. (t : Reading) → string_bytes s ≡ plain_text (plain t world.now) class.0) }
{
    let alloc = world.alloc();
    wrapped(alloc, "<", world.class_name(class), " object>")
}

// A name as names are written, between two texts.
fn wrapped(alloc: Global, before: &str, name: &str, after: &str) -> Result<String, OutOfMemory>
    ensures { IfOk result (λ s. string_bytes s ≡ before.now ++ escaped name.now ++ after.now) }
{
    let name = escaped_string(alloc, name)?;
    between(alloc, before, name.as_str(), after)
}

// A text between two others.
fn between(alloc: Global, before: &str, text: &str, after: &str) -> Result<String, OutOfMemory>
    ensures { IfOk result (λ s. string_bytes s ≡ before.now ++ text.now ++ after.now) }
{
    let mut all = String::from_str(alloc, before)?;
    all.push_str(text)?;
    all.push_str(after)?;
    Ok(all)
}
