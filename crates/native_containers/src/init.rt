//! Dicts that get the entries of other dicts, and keywords.

ghost use Rattle.py_node.specs.Stops.{Ended, IfRaised};
ghost use Rattle.native_containers.specs.Below.{Err, IfOk, Dict, PlainWorld, Said, Ends, of_args, Reading, Reads, bindings, plain, AllHold, Grows, Holding, Holds, IsName, IsNode, of_binding, of_each, EndsAs, LeavesEnd};
ghost use Rattle.std.specs.Prelude.{◌≡◌};
ghost use Rattle.native_containers.specs.Say.{dict_filled, dict_updated, names_set};
ghost use Rattle.native_containers.specs.Take.{with_own};
ghost use Rattle.row_kit.specs.declared.take_containers.Kind.TheVariants as kind;

use crate::entries::with_entries;
use crate::made::{change_dict, ends_none};
use crate::receivers::{kind_refusal, own};
use class_world::World;
use class_world::limits::has_place;
use py_node::{Answer, Cause, FuncArgs, PyObjectRef, PyStrInterned, Stop};
use row_kit::take_containers::Kind;

/// Sets the entries of another dict, if there is one, and then keywords, in a dict.
pub(crate) fn init(world: &mut World, call: FuncArgs<'_>) -> Result<Answer, Stop>
    requires { AllHold world.old (of_args call.args.now call.kw.now) }
    ensures ends { Ended result (EndsAs (λ t u.
        with_own kind.Dict u call.entry.args.now (λ d. dict_filled u d call.entry.args.now (bindings t call.entry.kw.now)))
        world.old world.new) }
    ensures safe { LeavesEnd world.old world.new result }
{
    let dict = own(world, Kind::Dict, call.args)?;
    fill(world, dict, call)
}

// Sets what the arguments after a dict and the keywords say.
fn fill(world: &mut World, dict: PyObjectRef, call: FuncArgs<'_>) -> Result<Answer, Stop>
    requires dict { Holds world.old (IsNode dict) }
    requires holding { Holds world.old (Holding dict Dict) }
    requires args { AllHold world.old (of_args call.args.now call.kw.now) }
    ensures ends { Ended result (EndsAs (λ t u. dict_filled u dict call.entry.args.now (bindings t call.entry.kw.now))
        world.old world.new) }
    ensures safe { LeavesEnd world.old world.new result }
{
    match call.args {
        [_] => set_names(world, dict, call.kw),
        [_, other] => {
            update_from(world, dict, *other)?;
            set_names(world, dict, call.kw)
        }
        _ => Err(Stop::raise(Cause::ArgCount)),
    }
}

/// Sets each key of another dict, with its value there, in a dict.
pub(crate) fn update_from(
    world: &mut World,
    dict: PyObjectRef,
    other: PyObjectRef,
) -> Result<(), Stop>
    requires dict { Holds world.old (IsNode dict) }
    requires holding { Holds world.old (Holding dict Dict) }
    requires other { Holds world.old (IsNode other) }
    ensures updated { IfOk result (λ u. (t : Reading) (go : PlainWorld → Said) →
        dict_updated (plain t world.old) dict other go ≡ go (plain t world.new)) }
    ensures refused { IfRaised result (λ x. (t : Reading) (go : PlainWorld → Said) →
        dict_updated (plain t world.old) dict other go ≡ Ends (plain t world.new) (Err x)) }
    ensures reads { (t : Reading) → Reads t world.new → Reads t world.old }
    ensures grows { Grows world.old world.new }
{
    if let Some(raised) = kind_refusal(world, Kind::Dict, other) {
        return Err(raised.into());
    }
    let all = with_entries(world, dict, other)?;
    Ok(change_dict(world, dict, all)?)
}

// Sets each keyword in a dict, as far as there is room.
fn set_names(
    world: &mut World,
    dict: PyObjectRef,
    kw: &[(PyStrInterned, PyObjectRef)],
) -> Result<Answer, Stop>
    requires dict { Holds world.old (IsNode dict) }
    requires holding { Holds world.old (Holding dict Dict) }
    requires kw { AllHold world.old (of_each of_binding kw.now) }
    ensures ends { Ended result (EndsAs (λ t u. names_set u dict (bindings t kw.now)) world.old world.new) }
    ensures safe { LeavesEnd world.old world.new result }
{
    for keyword in kw {
        if !has_place(world, dict, keyword.0) {
            return Err(Stop::raise(Cause::TooLong));
        }
        world.set_value_in(dict, keyword.0, keyword.1)?;
    }
    Ok(ends_none(world)?)
}
