//! The classes of which a change of bases may touch more than the slots.

ghost use Rattle.class_table.specs.Below.{true, IfOk, is_class};
ghost use Rattle.std.specs.Prelude.{◌≡◌};
ghost use Rattle.class_table.specs.Keys.{numbers};
ghost use Rattle.class_table.specs.Stored.{classes_of};
ghost use Rattle.class_table.specs.Coherent.{IsCoherent};
ghost use Rattle.class_table.specs.Refused.{AreThere};
ghost use Rattle.class_table.specs.Affected.{AreAffected};

use crate::descendants::{add_places, descendants};
use crate::place::stored_at;
use crate::place_set::PlaceSet;
use crate::trial::Change;
use py_node::OutOfMemory;
use std::alloc::Global;

// The places of the class and of all that derive from it, of its bases of now and of those that it is to have.
pub(crate) fn affected(change: Change<'_>, alloc: Global) -> Result<PlaceSet, OutOfMemory>
    requires coherent { IsCoherent change.classes.now }
    requires own { is_class (classes_of change.classes.now) change.class.0 ≡ true }
    requires there { AreThere (classes_of change.classes.now) (numbers change.bases.now) }
    ensures { IfOk result (λ v.
        AreAffected change.entry.classes.now change.entry.class.0 (numbers change.entry.bases.now) v) }
{
    let mut found = descendants(change.classes, alloc, change.class)?;
    let bases = stored_at(change.classes, change.class).bases();
    add_places(change.classes, &mut found, bases)?;
    add_places(change.classes, &mut found, change.bases)?;
    let _all = found.all();
    Ok(found)
}
