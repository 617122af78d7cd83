//! New tuples and lists, and the keys of a dict with their values as pairs.

ghost use Rattle.py_node.specs.Stops.{Ended};
ghost use Rattle.row_kit.specs.Below.{IfOk, [], OnOk, AreNodes, Holds, Grows, IsNode, EndsAs, LeavesEnd, the_tuple, ATuple, next_node, with_node, Reading, Reads, plain};
ghost use Rattle.std.specs.Prelude.{◌≡◌, ◌∷◌};
ghost use Rattle.py_node.specs.declared.built_in.BuiltIn.TheVariants.{List};
ghost use Rattle.row_kit.specs.GiveContainers.{list_made, tuple_made, pairs_made};
ghost use Rattle.row_kit.specs.TakeContainers.{entries_at};

use crate::entries::copy_entries;
use crate::give::new_object;
use crate::take_containers::entries;
use class_world::World;
use class_world::args::both;
use py_node::task::Args;
use py_node::{Answer, BuiltIn, OutOfMemory, Payload, PyObjectRef, Stop};

/// Ends with a new tuple.
#[tactic(auto, unfolding(py_node::specs::BuiltIns::place_of))]
pub fn new_tuple(world: &mut World, items: Args) -> Result<Answer, Stop>
    requires { Holds world.old (AreNodes items.items) }
    ensures ends { Ended result (EndsAs (λ t u. tuple_made u items.items) world.old world.new) }
    ensures safe { LeavesEnd world.old world.new result }
{
    new_object(world, BuiltIn::Tuple, Payload::Tuple(items))
}

/// Ends with a new list.
#[tactic(auto, unfolding(py_node::specs::BuiltIns::place_of))]
pub fn new_list(world: &mut World, items: Args) -> Result<Answer, Stop>
    requires { Holds world.old (AreNodes items.items) }
    ensures ends { Ended result (EndsAs (λ t u. list_made u items.items) world.old world.new) }
    ensures safe { LeavesEnd world.old world.new result }
{
    new_object(world, BuiltIn::List, Payload::List(items))
}

/// A new tuple for each key of a dict with its value, and then a new list of these.
pub fn new_pairs(world: &mut World, dict: PyObjectRef) -> Result<Answer, Stop>
    requires { Holds world.old (IsNode dict) }
    ensures ends { Ended result (EndsAs (λ t u. pairs_made u [] (entries_at u dict)) world.old world.new) }
    ensures safe { LeavesEnd world.old world.new result }
{
    let entries = copy_entries(world.alloc(), entries(world, dict))?;
    let mut pairs = Vec::new(world.alloc());
    for entry in &entries {
        let pair = new_pair(world, entry.0, entry.1)?;
        pairs.push(pair)?;
    }
    new_list(world, pairs)
}

// A new tuple of a key and its value.
#[tactic(auto, unfolding(py_node::specs::BuiltIns::place_of))]
fn new_pair(
    world: &mut World,
    key: PyObjectRef,
    value: PyObjectRef,
) -> Result<PyObjectRef, OutOfMemory>
    requires key { Holds world.old (IsNode key) }
    requires value { Holds world.old (IsNode value) }
    ensures made { OnOk result ((t : Reading) → plain t world.new ≡
        with_node (plain t world.old) the_tuple (ATuple (key ∷ value ∷ []))) }
    ensures number { IfOk result (λ r. (t : Reading) → r ≡ next_node (plain t world.old) the_tuple) }
    ensures reads { (t : Reading) → Reads t world.new → Reads t world.old }
    ensures grows { Grows world.old world.new }
    ensures node { IfOk result (λ r. Holds world.new (IsNode r)) }
{
    let items = both(world.alloc(), key, value)?;
    let class = world.built_in(BuiltIn::Tuple);
    world.make_node(class, Payload::Tuple(items))
}
