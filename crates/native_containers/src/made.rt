//! Lists and dicts that change.

ghost use Rattle.native_containers.specs.Below.{IfErr, IfOk, Err, Dict, PlainWorld, Said, Ends, of_ended, of_keyed, Reading, Reads, plain, AllHold, AreNodes, Grows, Holding, Holds, IsNode, EndsAs};
ghost use Rattle.std.specs.Prelude.{◌≡◌};
ghost use Rattle.py_node.specs.declared.built_in.BuiltIn.TheVariants.{List};
ghost use Rattle.native_containers.specs.Say.{dict_changed, ends_none, list_changed};

use class_world::limits::is_within_limit;
use class_world::{Fixed, World};
use py_node::task::Args;
use py_node::{Answer, Cause, Payload, PyDict, PyObjectRef, Raised};

/// Ends with None.
pub fn ends_none(world: &World) -> Result<Answer, Raised>
    ensures ends { EndsAs (λ t u. ends_none u) world.now world.now result }
    ensures holds { AllHold world.now (of_ended result) }
{
    Ok(Answer::Value(world.fixed(Fixed::None)))
}

/// Gives a list other items, and ends with None, unless they are too many.
pub fn change_list(world: &mut World, list: PyObjectRef, items: Args) -> Result<Answer, Raised>
    requires list { Holds world.old (IsNode list) }
    requires holding { Holds world.old (Holding list List) }
    requires items { Holds world.old (AreNodes items.items) }
    ensures ends { EndsAs (λ t u. list_changed u list items.items) world.old world.new result }
    ensures grows { Grows world.old world.new }
    ensures holds { AllHold world.new (of_ended result) }
{
    if !is_within_limit(items.len()) {
        return Err(Raised::new(Cause::TooLong));
    }
    world.set_payload(list, Payload::List(items));
    ends_none(world)
}

/// Gives a dict other entries, unless they are too many. Then the dict stays as it is.
pub(crate) fn change_dict(
    world: &mut World,
    dict: PyObjectRef,
    entries: PyDict,
) -> Result<(), Raised>
    requires dict { Holds world.old (IsNode dict) }
    requires holding { Holds world.old (Holding dict Dict) }
    requires entries { AllHold world.old (of_keyed entries) }
    ensures changed { IfOk result (λ u. (t : Reading) (go : PlainWorld → Said) →
        dict_changed (plain t world.old) dict entries.items go ≡ go (plain t world.new)) }
    ensures refused { IfErr result (λ x. (t : Reading) (go : PlainWorld → Said) →
        dict_changed (plain t world.old) dict entries.items go ≡ Ends (plain t world.new) (Err x)) }
    ensures reads { (t : Reading) → Reads t world.new → Reads t world.old }
    ensures grows { Grows world.old world.new }
{
    if !is_within_limit(entries.len()) {
        return Err(Raised::new(Cause::TooLong));
    }
    world.set_payload(dict, Payload::Dict(entries));
    Ok(())
}
