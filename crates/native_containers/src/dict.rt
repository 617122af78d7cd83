//! The natives of dicts.

ghost use Rattle.py_node.specs.Stops.{Ended};
ghost use Rattle.native_containers.specs.Below.{[], is_some, Dict, MissingKey, with_entry, Ends, fault, truth, value, of_args, of_ended, Reading, bindings, AllHold, AreNodes, Grows, Holding, Holds, IsNode, EndsAs, LeavesEnd, keys_of, list_made, pairs_made, values_of, entries_at};
ghost use Rattle.std.specs.Prelude.{◌≡◌};
ghost use Rattle.native_containers.specs.Say.{counted, dict_changed, dict_say, dict_updated, ends_none, given_or, key_taken, list_iterated, value_under};
ghost use Rattle.native_containers.specs.Take.{with_default, with_dict_and_key, with_key, with_lone, with_own, with_own_and, with_own_and_two};
ghost use Rattle.row_kit.specs.declared.take_containers.Kind.TheVariants as kind;

use crate::init::{init, update_from};
use crate::keys::has_room;
use crate::made::ends_none;
use crate::receivers::{dict_and_key, key_refusal, lone, own, own_and, own_and_two, with_default};
use class_world::World;
use py_node::{Answer, BuiltIn, Cause, DictNative, FuncArgs, Payload, PyObjectRef, Raised, Stop};
use row_kit::entries::{keys_of, values_of};
use row_kit::give::new_iterator;
use row_kit::give_containers::{new_list, new_pairs};
use row_kit::take_containers::{Kind, entries};

/// A native of dicts.
pub fn dict_native(
    world: &mut World,
    native: DictNative,
    call: FuncArgs<'_>,
) -> Result<Answer, Stop>
    requires { AllHold world.old (of_args call.args.now call.kw.now) }
    ensures ends { Ended result (EndsAs (λ t u. dict_say u native call.entry.args.now (bindings t call.entry.kw.now))
        world.old world.new) }
    ensures safe { LeavesEnd world.old world.new result }
{
    match native {
        DictNative::Init => init(world, call),
        DictNative::Repr => Err(Stop::raise(Cause::SelfType)),
        DictNative::Length => Ok(length(world, call)?),
        DictNative::GetItem => Ok(get_item(world, call)?),
        DictNative::SetItem => set_item(world, call),
        DictNative::DelItem => del_item(world, call),
        DictNative::Contains => Ok(contains(world, call)?),
        DictNative::Iter => iter(world, call),
        DictNative::Keys => keys(world, call),
        DictNative::Values => values(world, call),
        DictNative::Items => items(world, call),
        DictNative::Get => Ok(get(world, call)?),
        DictNative::Update => update(world, call),
    }
}

// How many keys there are.
fn length(world: &World, call: FuncArgs<'_>) -> Result<Answer, Raised>
    requires { Holds world.now (AreNodes call.args.now) }
    ensures ends { EndsAs (λ t u. with_lone kind.Dict u call.entry.args.now (bindings t call.entry.kw.now)
        (λ d. counted u (entries_at u d))) world.now world.now result }
    ensures holds { AllHold world.now (of_ended result) }
{
    let dict = lone(world, Kind::Dict, call)?;
    Ok(Answer::Number(entries(world, dict).len() as i64))
}

// The value under a key, which must be there.
fn get_item(world: &World, call: FuncArgs<'_>) -> Result<Answer, Raised>
    requires { Holds world.now (AreNodes call.args.now) }
    ensures ends { EndsAs (λ t u. with_dict_and_key u call.entry.args.now (bindings t call.entry.kw.now)
        (λ d k. given_or u (value_under u d k) (fault MissingKey))) world.now world.now result }
    ensures holds { AllHold world.now (of_ended result) }
{
    let (dict, key) = dict_and_key(world, call)?;
    match world.value_under(dict, key) {
        Some(value) => Ok(Answer::Value(value)),
        None => Err(Raised::new(Cause::MissingKey)),
    }
}

// Sets the value under a key.
fn set_item(world: &mut World, call: FuncArgs<'_>) -> Result<Answer, Stop>
    requires { Holds world.old (AreNodes call.args.now) }
    ensures ends { Ended result (EndsAs (λ t u. with_own_and_two kind.Dict u call.entry.args.now (bindings t call.entry.kw.now)
        (λ d k v. with_key u k (dict_changed u d (with_entry u (entries_at u d) (k, v)) ends_none)))
        world.old world.new) }
    ensures safe { LeavesEnd world.old world.new result }
{
    let (dict, key, value) = own_and_two(world, Kind::Dict, call)?;
    put(world, dict, key, value)
}

// Sets the value under what must be a key.
fn put(
    world: &mut World,
    dict: PyObjectRef,
    key: PyObjectRef,
    value: PyObjectRef,
) -> Result<Answer, Stop>
    requires dict { Holds world.old (IsNode dict) }
    requires holding { Holds world.old (Holding dict Dict) }
    requires key { Holds world.old (IsNode key) }
    requires value { Holds world.old (IsNode value) }
    ensures ends { Ended result (EndsAs (λ t u.
        with_key u key (dict_changed u dict (with_entry u (entries_at u dict) (key, value)) ends_none))
        world.old world.new) }
    ensures safe { LeavesEnd world.old world.new result }
{
    if let Some(raised) = key_refusal(world, key) {
        return Err(raised.into());
    }
    if !has_room(world, dict, key) {
        return Err(Stop::raise(Cause::TooLong));
    }
    world.set_value_under(dict, key, value)?;
    Ok(ends_none(world)?)
}

// Takes a key out, which must be there.
fn del_item(world: &mut World, call: FuncArgs<'_>) -> Result<Answer, Stop>
    requires { Holds world.old (AreNodes call.args.now) }
    ensures ends { Ended result (EndsAs (λ t u. with_dict_and_key u call.entry.args.now (bindings t call.entry.kw.now)
        (λ d k. key_taken u d k (value_under u d k))) world.old world.new) }
    ensures safe { LeavesEnd world.old world.new result }
{
    let (dict, key) = dict_and_key(world, call)?;
    Ok(take_key(world, dict, key)?)
}

// Takes a key out of a dict, with its value.
fn take_key(world: &mut World, dict: PyObjectRef, key: PyObjectRef) -> Result<Answer, Raised>
    requires dict { Holds world.old (IsNode dict) }
    requires holding { Holds world.old (Holding dict Dict) }
    requires key { Holds world.old (IsNode key) }
    ensures ends { EndsAs (λ t u. key_taken u dict key (value_under u dict key)) world.old world.new result }
    ensures grows { Grows world.old world.new }
    ensures holds { AllHold world.new (of_ended result) }
{
    if !world.take_value_under(dict, key) {
        return Err(Raised::new(Cause::MissingKey));
    }
    ends_none(world)
}

// Whether a key is there.
fn contains(world: &World, call: FuncArgs<'_>) -> Result<Answer, Raised>
    requires { Holds world.now (AreNodes call.args.now) }
    ensures ends { EndsAs (λ t u. with_dict_and_key u call.entry.args.now (bindings t call.entry.kw.now)
        (λ d k. Ends u (value (truth (is_some (value_under u d k)))))) world.now world.now result }
    ensures holds { AllHold world.now (of_ended result) }
{
    let (dict, key) = dict_and_key(world, call)?;
    let is_there = world.value_under(dict, key).is_some();
    Ok(Answer::Value(world.truth(is_there)))
}

// A new iterator over a new list of the keys.
fn iter(world: &mut World, call: FuncArgs<'_>) -> Result<Answer, Stop>
    requires { Holds world.old (AreNodes call.args.now) }
    ensures ends { Ended result (EndsAs (λ t u.
        with_lone kind.Dict u call.entry.args.now (bindings t call.entry.kw.now) (λ d. list_iterated u (keys_of (entries_at u d))))
        world.old world.new) }
    ensures safe { LeavesEnd world.old world.new result }
{
    let dict = lone(world, Kind::Dict, call)?;
    iterate_keys(world, dict)
}

// A new iterator over a new list of a dict's keys.
#[tactic(auto, unfolding(py_node::specs::BuiltIns::place_of))]
fn iterate_keys(world: &mut World, dict: PyObjectRef) -> Result<Answer, Stop>
    requires { Holds world.old (IsNode dict) }
    ensures ends { Ended result (EndsAs (λ t u. list_iterated u (keys_of (entries_at u dict)))
        world.old world.new) }
    ensures safe { LeavesEnd world.old world.new result }
{
    let keys = keys_of(world.alloc(), entries(world, dict))?;
    let list = world.make_node(world.built_in(BuiltIn::List), Payload::List(keys))?;
    new_iterator(world, list)
}

// A new list of the keys.
fn keys(world: &mut World, call: FuncArgs<'_>) -> Result<Answer, Stop>
    requires { Holds world.old (AreNodes call.args.now) }
    ensures ends { Ended result (EndsAs (λ t u.
        with_lone kind.Dict u call.entry.args.now (bindings t call.entry.kw.now) (λ d. list_made u (keys_of (entries_at u d))))
        world.old world.new) }
    ensures safe { LeavesEnd world.old world.new result }
{
    let dict = lone(world, Kind::Dict, call)?;
    let keys = keys_of(world.alloc(), entries(world, dict))?;
    new_list(world, keys)
}

// A new list of the values.
fn values(world: &mut World, call: FuncArgs<'_>) -> Result<Answer, Stop>
    requires { Holds world.old (AreNodes call.args.now) }
    ensures ends { Ended result (EndsAs (λ t u.
        with_lone kind.Dict u call.entry.args.now (bindings t call.entry.kw.now) (λ d. list_made u (values_of (entries_at u d))))
        world.old world.new) }
    ensures safe { LeavesEnd world.old world.new result }
{
    let dict = lone(world, Kind::Dict, call)?;
    let values = values_of(world.alloc(), entries(world, dict))?;
    new_list(world, values)
}

// A new list of new tuples, each of a key with its value.
fn items(world: &mut World, call: FuncArgs<'_>) -> Result<Answer, Stop>
    requires { Holds world.old (AreNodes call.args.now) }
    ensures ends { Ended result (EndsAs (λ t u.
        with_lone kind.Dict u call.entry.args.now (bindings t call.entry.kw.now) (λ d. pairs_made u [] (entries_at u d)))
        world.old world.new) }
    ensures safe { LeavesEnd world.old world.new result }
{
    let dict = lone(world, Kind::Dict, call)?;
    new_pairs(world, dict)
}

// The value under a key, or else what is given for that, or None.
fn get(world: &World, call: FuncArgs<'_>) -> Result<Answer, Raised>
    requires { Holds world.now (AreNodes call.args.now) }
    ensures ends { EndsAs (λ t u. with_own kind.Dict u call.entry.args.now (λ d. with_default u call.entry.args.now (bindings t call.entry.kw.now)
        (λ k v. with_key u k (given_or u (value_under u d k) (value v))))) world.now world.now result }
    ensures holds { AllHold world.now (of_ended result) }
{
    let dict = own(world, Kind::Dict, call.args)?;
    let (key, other) = with_default(world, call)?;
    if let Some(raised) = key_refusal(world, key) {
        return Err(raised);
    }
    let value = world.value_under(dict, key);
    Ok(Answer::Value(value.unwrap_or(other)))
}

// Sets each key of another dict, with its value there.
fn update(world: &mut World, call: FuncArgs<'_>) -> Result<Answer, Stop>
    requires { Holds world.old (AreNodes call.args.now) }
    ensures ends { Ended result (EndsAs (λ t u. with_own_and kind.Dict u call.entry.args.now (bindings t call.entry.kw.now)
        (λ d o. dict_updated u d o ends_none)) world.old world.new) }
    ensures safe { LeavesEnd world.old world.new result }
{
    let (dict, other) = own_and(world, Kind::Dict, call)?;
    update_from(world, dict, other)?;
    Ok(ends_none(world)?)
}
