//! The natives that read and set the items of texts, tuples and lists, and that which gives the next item of an
//! iterator. Each is a small automaton: `begin` and `resume`.
#![tactic(auto, using(class_world::proofs::Items::item_holds), unfolding(crate::specs::NativeItems::Say::item_job_say))]

ghost use Rattle.native_containers.specs.Below.{IfOk, of_args, of_ended, Leaves, AllHold};
ghost use Rattle.std.specs.Prelude.{◌≡◌};
ghost use Rattle.py_node.specs.declared.task.Task.TheVariants as task;
ghost use Rattle.native_containers.specs.NativeItems.Rows.{Begins, Resumes, of_item_kept};

mod characters;
mod delete;
mod extend;
mod get;
mod next;
mod places;
mod search;
mod set;
mod stood;

use crate::native_items::characters::{character_given, get_character};
use crate::native_items::delete::{delete_item, item_deleted};
use crate::native_items::extend::{extend_list, list_extended};
use crate::native_items::get::{Sequence, get_item, item_got};
use crate::native_items::next::{next_given, next_item};
use crate::native_items::search::{contains, searched};
use crate::native_items::set::{item_set, set_item};
use class_world::World;
use py_node::task::{Args, Keywords};
use py_node::{
    Answer, FuncArgs, IteratorNative, ListNative, NativeEntry, OutOfMemory, PyObjectRef, Raised,
    Step, StrNative, TupleNative, caught,
};

/// What a native of items keeps while it waits for an answer. Where a script may run meanwhile, this has the items
/// that stood in the object at the start.
#[derive(Drop)]
pub enum ItemKept {
    /// Where an item is in a tuple or a list: the object, and its items.
    Getting(PyObjectRef, Option<Args>),
    /// Where a character is in a text.
    GettingCharacter(PyObjectRef),
    /// Where an item of a list is to be set, or what to: the list, the key, the value, and the items.
    Setting(PyObjectRef, PyObjectRef, PyObjectRef, Option<Args>),
    /// Where an item of a list is to be taken out: the list, and its items.
    Deleting(PyObjectRef, Option<Args>),
    /// What a list is to get after its items: the list, and its items.
    Extending(PyObjectRef, Option<Args>),
    /// Whether an item is the object that is looked for: the object, the items, and the place of the next.
    Searching(PyObjectRef, Args, usize),
    /// What an iterator's next item is.
    Iterating(PyObjectRef),
}

/// The first step of one of these natives.
pub fn begin(
    world: &mut World,
    entry: NativeEntry,
    args: Args,
    kw: Keywords,
) -> Result<Step<ItemKept>, OutOfMemory>
    requires { AllHold world.old (of_args args.items kw.items) }
    ensures goes { IfOk result (λ step. Begins (task.Native entry args kw) world.old world.new step) }
    ensures safe { Leaves of_item_kept world.old world.new result }
{
    let call = FuncArgs {
        args: &args,
        kw: &kw,
    };
    match entry {
        NativeEntry::OfStr(StrNative::GetItem) => get_character(world, call),
        NativeEntry::OfTuple(TupleNative::GetItem) => get_item(world, Sequence::Tuple, call),
        NativeEntry::OfTuple(TupleNative::Contains) => contains(world, Sequence::Tuple, call),
        NativeEntry::OfList(ListNative::GetItem) => get_item(world, Sequence::List, call),
        NativeEntry::OfList(ListNative::SetItem) => set_item(world, call),
        NativeEntry::OfList(ListNative::DelItem) => delete_item(world, call),
        NativeEntry::OfList(ListNative::Contains) => contains(world, Sequence::List, call),
        NativeEntry::OfList(ListNative::InplaceAdd) => extend_list(world, call),
        NativeEntry::OfIterator(IteratorNative::Next) => next_item(world, call),
        _ => Ok(Step::elsewhere()),
    }
}

/// Goes on with a native that was given an answer.
pub fn resume(
    world: &mut World,
    kept: ItemKept,
    answer: Result<Answer, Raised>,
) -> Result<Step<ItemKept>, OutOfMemory>
    requires kept { AllHold world.old (of_item_kept kept) }
    requires answer { AllHold world.old (of_ended answer) }
    ensures goes { IfOk result (λ step. Resumes kept answer world.old world.new step) }
    ensures safe { Leaves of_item_kept world.old world.new result }
{
    match kept {
        ItemKept::Getting(object, stood) => {
            let ended = item_got(world, object, &stood, answer);
            Ok(Step::End(ended))
        }
        ItemKept::GettingCharacter(object) => {
            let ended = caught(character_given(world, object, answer))?;
            Ok(Step::End(ended))
        }
        ItemKept::Setting(list, key, value, stood) => {
            let ended = caught(item_set(world, list, key, value, stood, answer))?;
            Ok(Step::End(ended))
        }
        ItemKept::Deleting(list, stood) => {
            let ended = caught(item_deleted(world, list, stood, answer))?;
            Ok(Step::End(ended))
        }
        ItemKept::Extending(list, stood) => {
            let ended = caught(list_extended(world, list, stood, answer))?;
            Ok(Step::End(ended))
        }
        ItemKept::Searching(needle, items, next) => Ok(searched(
            world, needle, items, next, answer,
        )),
        ItemKept::Iterating(iterator) => {
            let ended = next_given(world, iterator, answer);
            Ok(Step::End(ended))
        }
    }
}
