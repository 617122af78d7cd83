//! The order of classes that several lists allow.

ghost use Rattle.class_table.specs.Below.{[], Err, IfOk, IfErr, PyTypeRef, breaks_precedence, order_cause};
ghost use Rattle.std.specs.Prelude.{◌≡◌, ◌↔◌};
ghost use Rattle.class_table.specs.declared.mro_merge.fault.MroFault.TheVariants.{DuplicateBase, LocalPrecedence, MroConflict};
ghost use Rattle.class_table.specs.MroMerge.Lists.{numbers, number_of, rows};
ghost use Rattle.class_table.specs.MroMerge.Faults.{WithMemory, OnRefusal, Tells};
ghost use Rattle.class_table.specs.MroMerge.Steps.{repeat_past};
ghost use Rattle.class_table.specs.MroMerge.Merge.{heads, with_heads, AreLines, IsLeastMerge, DifferByRanks, AreOutOfOrder, IsConflict};
ghost use Rattle.class_table.specs.MroMerge.Merge.{AreLinesOf, IsFirstRepeat, IsBrokenPrecedence, IsOrderConflict};
ghost use Rattle.class_table.specs.MroMerge.Merge.{IsRest, HasNoOrder};

use crate::mro_merge::fault::MroFault;
use crate::mro_merge::merge::{has, heads, merge, stands_past};
use py_node::PyTypeRef;
use std::alloc::Global;

// Whether a head stands past the head of a later list.
fn breaks_precedence(lists: &[Vec<PyTypeRef>]) -> bool
    requires { AreLines (rows lists.now) }
    ensures { result ≡ breaks_precedence (heads (rows lists.now)) (rows lists.now) }
{
    for i in 0..lists.len() {
        if stands_past(&lists[i + 1..], lists[i][0]) {
            return true;
        }
    }
    false
}

// The base whose second place comes first, where a base stands twice.
fn first_repeat(bases: &[PyTypeRef]) -> Option<PyTypeRef>
    ensures { number_of result ≡ repeat_past [] (numbers bases.now) }
{
    for i in 0..bases.len() {
        if has(&bases[..i], bases[i]) {
            return Some(bases[i]);
        }
    }
    None
}

/// The merge of some lists: a list without repeats that has just their members, in the order of each
/// list and of the lists' heads, and of all such lists the one whose ranks are the least. A member's
/// rank is the place of the first list that holds it. Where a head stands past the head of a later
/// list, or there is no such list, it is refused.
#[tactic(auto, using(crate::proofs::MroMerge::Linearised::same_ranks))]
pub fn linearise_mro(
    alloc: Global,
    mut lists: Vec<Vec<PyTypeRef>>,
) -> Result<Vec<PyTypeRef>, MroFault>
    requires lines { AreLines (rows lists.items) }
    ensures merge { IfOk result (λ line. IsLeastMerge (with_heads (rows lists.items)) (numbers line.items)) }
    ensures unique { DifferByRanks (with_heads (rows lists.items)) }
    ensures precedence { (result ≡ Err LocalPrecedence) ↔ AreOutOfOrder (rows lists.items) }
    ensures conflict { WithMemory result ((result ≡ Err MroConflict) ↔ IsConflict (rows lists.items)) }
    ensures duplicate { (b : PyTypeRef) → (result ≡ Err (DuplicateBase b)) → ⊥ }
{
    if breaks_precedence(&lists) {
        return Err(MroFault::LocalPrecedence);
    }
    // (a line alone is its own merge)
    if lists.len() == 1 {
        return Ok(lists.remove(0));
    }
    let last = heads(alloc, &lists)?;
    lists.push(last)?;
    match merge(alloc, lists)? {
        Some(line) => Ok(line),
        None => Err(MroFault::MroConflict),
    }
}

/// The order of the bases of a class, as it follows the class: the merge of their linearisations.
/// Where a base stands twice, or the linearisations have no such merge, it is refused.
pub fn resolve_mro(
    alloc: Global,
    bases: &[PyTypeRef],
    mros: Vec<Vec<PyTypeRef>>,
) -> Result<Vec<PyTypeRef>, MroFault>
    requires lines { AreLinesOf (numbers bases.now) (rows mros.items) }
    ensures merge { IfOk result (λ line. IsLeastMerge (with_heads (rows mros.items)) (numbers line.items)) }
    ensures order { IfOk result (λ line. IsRest (numbers bases.now) (rows mros.items) (numbers line.items)) }
    ensures duplicate { (b : PyTypeRef) → (result ≡ Err (DuplicateBase b)) ↔ IsFirstRepeat (numbers bases.now) b.0 }
    ensures precedence { (result ≡ Err LocalPrecedence) ↔ IsBrokenPrecedence (numbers bases.now) (rows mros.items) }
    ensures conflict { WithMemory result ((result ≡ Err MroConflict) ↔
        IsOrderConflict (numbers bases.now) (rows mros.items)) }
    ensures none { OnRefusal result (HasNoOrder (numbers bases.now) (rows mros.items)) }
    ensures cause { IfErr result (λ fault. Tells fault (order_cause (numbers bases.now) (rows mros.items))) }
{
    match first_repeat(bases) {
        Some(base) => Err(MroFault::DuplicateBase(base)),
        None => linearise_mro(alloc, mros),
    }
}
