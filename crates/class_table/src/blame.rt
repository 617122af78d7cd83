//! The class that is to blame where other bases leave no order.

ghost use Rattle.class_table.specs.Below.{ℕ, false, true, None, Some, IfSome, IfNone, option_map, slice_get, has, is_blamed, caused, failing};
ghost use Rattle.std.specs.Prelude.{◌≡◌, ◌<◌, ◌≤◌, ◌⊎◌};
ghost use Rattle.class_table.specs.Keys.{numbers};
ghost use Rattle.class_table.specs.Stored.{StoredClass, classes_of};
ghost use Rattle.class_table.specs.Coherent.{IsCoherent};
ghost use Rattle.class_table.specs.Rebase.{told};
ghost use Rattle.class_table.specs.Descendants.{AreRanked};
ghost use Rattle.class_table.specs.Trial.{changed, bases_under, AreKnown, cause_tried};
ghost use Rattle.class_table.specs.Blame.{AreBlame, IsReached, AllReached};

use crate::descendants::Ranked;
use crate::fault::ClassFault;
use crate::place::number_in;
use crate::trial::{Change, Trial};
use crate::trial_map::Trials;
use py_node::Cause;

/// The place of a class that has no order while all its bases have one, and why it has none.
#[derive(Clone, Copy)]
pub(crate) struct Blame {
    pub(crate) place: usize,
    pub(crate) cause: Cause,
}

// Why a class has no linearisation, where all its bases have one.
fn cause_in(trial: &Trial) -> Option<Cause>
    ensures { result ≡ cause_tried trial.now }
{
    match trial {
        Trial::Failed(cause) => Some(*cause),
        Trial::Line(_) | Trial::Without => None,
    }
}

// The same of the class at a place, which derives from the changed one.
fn cause_at(change: Change<'_>, trials: &Trials, at: usize) -> Option<Cause>
    requires coherent { IsCoherent change.classes.now }
    requires known { AreKnown change.classes.now change.class.0 (numbers change.bases.now) trials.now }
    requires derives { (k : StoredClass) → slice_get change.classes.now at ≡ Some k → has k.mro change.class.0 ≡ true }
    ensures blamed { IfSome result (λ cause. (k : StoredClass) → slice_get change.entry.classes.now at ≡ Some k →
        is_blamed (changed change.entry) k.number
        (bases_under change.entry.class.0 (numbers change.entry.bases.now) k) ≡ true) }
    ensures caused { IfSome result (λ cause. (k : StoredClass) → slice_get change.entry.classes.now at ≡ Some k →
        caused (changed change.entry) k.number ≡ Some (k.number, cause)) }
    ensures none { IfNone result ((k : StoredClass) → slice_get change.entry.classes.now at ≡ Some k →
        is_blamed (changed change.entry) k.number
        (bases_under change.entry.class.0 (numbers change.entry.bases.now) k) ≡ false) }
{
    match trials.get(at) {
        None => None,
        Some(trial) => cause_in(trial),
    }
}

// The first of a class that was found, if one was, and a further one.
fn earlier(first: Option<Blame>, next: Blame) -> Blame
    ensures own { result.place ≤ next.place }
    ensures other { (i : ℕ) → IsReached first i → result.place ≤ i }
    ensures one { (Some result ≡ first) ⊎ (result ≡ next) }
{
    match first {
        None => next,
        Some(found) => if found.place <= next.place {
            found
        } else {
            next
        },
    }
}

// The first class that has no order under the change while all its bases have one, if there is such a class. All that
// derive from the changed one are looked at.
fn first_blamed(change: Change<'_>, ranked: &[Ranked], trials: &Trials) -> Option<Blame>
    requires coherent { IsCoherent change.classes.now }
    requires ranked { AreRanked change.classes.now change.class.0 ranked.now }
    requires known { AreKnown change.classes.now change.class.0 (numbers change.bases.now) trials.now }
    ensures blame { AreBlame change.entry.classes.now change.entry.class.0 (numbers change.entry.bases.now) result }
    ensures first { AllReached change.entry.classes.now change.entry.class.0 (numbers change.entry.bases.now) result }
{
    let mut first = None;
    for next in ranked {
        let place = next.place;
        match cause_at(change, trials, place) {
            None => {}
            Some(cause) => first = Some(earlier(first, Blame { place, cause })),
        }
    }
    first
}

// The least-numbered class that has no order under the change while all its bases have one, if there is such a class.
pub(crate) fn blamed(
    change: Change<'_>,
    ranked: &[Ranked],
    trials: &Trials,
) -> Result<(), ClassFault>
    requires coherent { IsCoherent change.classes.now }
    requires ranked { AreRanked change.classes.now change.class.0 ranked.now }
    requires known { AreKnown change.classes.now change.class.0 (numbers change.bases.now) trials.now }
    ensures { told result ≡ option_map (λ r. (r.1, Some r.0))
        (failing (classes_of change.entry.classes.now) change.entry.class.0 (numbers change.entry.bases.now)) }
{
    match first_blamed(change, ranked, trials) {
        None => Ok(()),
        Some(first) => {
            let class = number_in(change.classes, first.place);
            Err(ClassFault::RefusedAt(first.cause, class))
        }
    }
}
