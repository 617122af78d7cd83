//! The linearisations that other bases of a class would give, before anything is changed.

ghost use Rattle.class_table.specs.Below.{ℕ, List, false, true, length, IfOk, None, Some, slice_get, Includes, Distinct, has, is_class, bases_of, lin};
ghost use Rattle.std.specs.Prelude.{◌≡◌, ◌<◌};
ghost use Rattle.class_table.specs.Keys.{numbers};
ghost use Rattle.class_table.specs.Stored.{StoredClass, classes_of};
ghost use Rattle.class_table.specs.Coherent.{IsCoherent};
ghost use Rattle.class_table.specs.Refused.{AreThere};
ghost use Rattle.class_table.specs.Rebase.{any_derives};
ghost use Rattle.class_table.specs.Steps.{RiseBy};
ghost use Rattle.class_table.specs.Descendants.{AreRanked};
ghost use Rattle.class_table.specs.declared.trial.Trial.{Trial};
ghost use Rattle.class_table.specs.Trial.{changed, bases_under, trial_at, IsTrial, HasTrial, IsKnown, AreKnown, line_lent, line_tried, AreLinesFor};

use crate::add::line;
use crate::descendants::Ranked;
use crate::mro_merge::MroFault;
use crate::mro_merge::laws::resolve_mro;
use crate::place::place;
use crate::steps::Steps;
use crate::stored_classes::StoredClasses;
use crate::stored_ref::StoredRef;
use crate::trial_map::Trials;
use py_node::{Cause, OutOfMemory, PyTypeRef};
use std::alloc::Global;
use std::sync::ledger::Ledger;

/// What other bases of a class make of a class's linearisation.
#[derive(Drop)]
pub(crate) enum Trial {
    // It has this one.
    Line(Vec<PyTypeRef>),
    // It has none for this cause, while all its bases have one.
    Failed(Cause),
    // One of its bases has none.
    Without,
}

/// Other bases for a class, to be tried.
#[derive(Clone, Copy)]
pub(crate) struct Change<'a> {
    pub(crate) classes: &'a StoredClasses,
    pub(crate) class: PyTypeRef,
    pub(crate) bases: &'a [PyTypeRef],
}

// The direct bases that a class has under the trial.
pub(crate) fn bases_under<'a>(change: Change<'a>, stored: &StoredRef<'a>) -> &'a [PyTypeRef]
    ensures { numbers result.now ≡ bases_under change.entry.class.0 (numbers change.entry.bases.now) stored.now }
{
    if stored.number().0 == change.class.0 {
        change.bases
    } else {
        stored.bases()
    }
}

// The linearisation that was found, if one was.
fn line_in(trial: &Trial) -> Option<&[PyTypeRef]>
    ensures { line_lent result ≡ line_tried trial.now }
{
    match trial {
        Trial::Line(line) => Some(line),
        Trial::Failed(_) | Trial::Without => None,
    }
}

// The linearisation that the class at a place has under the trial, if it has one: its own of now, where it does not
// derive from the changed class.
fn line_at<'a>(change: Change<'a>, trials: &'a Trials, at: usize) -> Option<&'a [PyTypeRef]>
    requires coherent { IsCoherent change.classes.now }
    requires inside { at < length change.classes.now }
    requires known { (k : StoredClass) → slice_get change.classes.now at ≡ Some k → has k.mro change.class.0 ≡ true →
        HasTrial (changed change) k.number (trial_at trials.now at) }
    ensures { (k : StoredClass) → slice_get change.entry.classes.now at ≡ Some k → line_lent result ≡
        lin (changed change.entry) k.number }
{
    let stored = change.classes.at(at);
    if !stored.derives(change.class) {
        return Some(stored.mro());
    }
    match trials.get(at) {
        None => None,
        Some(trial) => line_in(trial),
    }
}

// The linearisation that a class has under the trial, if it has one.
pub(crate) fn line_of<'a>(
    change: Change<'a>,
    trials: &'a Trials,
    class: PyTypeRef,
) -> Option<&'a [PyTypeRef]>
    requires coherent { IsCoherent change.classes.now }
    requires there { is_class (classes_of change.classes.now) class.0 ≡ true }
    requires known { IsKnown change.classes.now change.class.0 (numbers change.bases.now) trials.now class.0 }
    ensures { line_lent result ≡ lin (changed change.entry) class.0 }
{
    let at = place(change.classes, class);
    line_at(change, trials, at)
}

// The linearisations that some classes have under the trial, if all have one.
fn lines_of(
    change: Change<'_>,
    alloc: Global,
    trials: &Trials,
    bases: &[PyTypeRef],
) -> Result<Option<Vec<Vec<PyTypeRef>>>, OutOfMemory>
    requires coherent { IsCoherent change.classes.now }
    requires there { (b : ℕ) → Includes (numbers bases.now) b → is_class (classes_of change.classes.now) b ≡ true }
    requires known { (b : ℕ) → Includes (numbers bases.now) b →
        IsKnown change.classes.now change.class.0 (numbers change.bases.now) trials.now b }
    ensures { IfOk result (λ lines. AreLinesFor (changed change.entry) (numbers bases.now) lines) }
{
    let mut lines = Vec::new(alloc);
    for base in bases {
        match line_of(change, trials, *base) {
            None => return Ok(None),
            Some(line) => {
                let copy = Vec::from_slice(alloc, line)?;
                lines.push(copy)?;
            }
        }
    }
    Ok(Some(lines))
}

// The trial of a class with these bases, all of which have these linearisations.
fn merged(
    change: Change<'_>,
    alloc: Global,
    number: PyTypeRef,
    bases: &[PyTypeRef],
    lines: Vec<Vec<PyTypeRef>>,
) -> Result<Trial, OutOfMemory>
    requires distinct { Distinct (numbers bases.now) }
    requires bases { bases_of (changed change) number.0 ≡ Some (numbers bases.now) }
    requires lines { AreLinesFor (changed change) (numbers bases.now) (Some lines) }
    ensures { IfOk result (λ r. IsTrial (changed change.entry) number.0 r) }
{
    match resolve_mro(alloc, bases, lines) {
        Err(MroFault::OutOfMemory) => Err(OutOfMemory),
        Err(MroFault::LocalPrecedence) => Ok(Trial::Failed(Cause::LocalPrecedence)),
        Err(MroFault::MroConflict) => Ok(Trial::Failed(Cause::MroConflict)),
        Err(MroFault::DuplicateBase(_)) => unreachable!(),
        Ok(rest) => Ok(Trial::Line(line(alloc, number, &rest)?)),
    }
}

// The trial of the class at a place, which derives from the changed one. It counts the merge.
fn attempt<L: Ledger>(
    change: Change<'_>,
    alloc: Global,
    trials: &Trials,
    at: usize,
    steps: &mut Steps<L>,
) -> Result<Trial, OutOfMemory>
    requires coherent { IsCoherent change.classes.now }
    requires there { AreThere (classes_of change.classes.now) (numbers change.bases.now) }
    requires apart { any_derives (classes_of change.classes.now) (numbers change.bases.now) change.class.0 ≡ false }
    requires distinct { Distinct (numbers change.bases.now) }
    requires inside { at < length change.classes.now }
    requires known { (k : StoredClass) (b : ℕ) → slice_get change.classes.now at ≡ Some k →
        Includes (bases_under change.class.0 (numbers change.bases.now) k) b →
        IsKnown change.classes.now change.class.0 (numbers change.bases.now) trials.now b }
    ensures trial { IfOk result (λ r. (k : StoredClass) → slice_get change.entry.classes.now at ≡ Some k →
        IsTrial (changed change.entry) k.number r) }
    ensures steps { RiseBy 1 0 steps.old steps.new }
{
    let stored = change.classes.at(at);
    let bases = bases_under(change, &stored);
    match lines_of(change, alloc, trials, bases)? {
        None => Ok(Trial::Without),
        Some(lines) => {
            steps.merge();
            merged(change, alloc, stored.number(), bases, lines)
        }
    }
}

// The trials of the class and of all that derive from it, of which these are the places, each after its bases. It counts
// at most one merge for each.
pub(crate) fn trials<L: Ledger>(
    change: Change<'_>,
    alloc: Global,
    ranked: &[Ranked],
    steps: &mut Steps<L>,
) -> Result<Trials, OutOfMemory>
    requires coherent { IsCoherent change.classes.now }
    requires there { AreThere (classes_of change.classes.now) (numbers change.bases.now) }
    requires apart { any_derives (classes_of change.classes.now) (numbers change.bases.now) change.class.0 ≡ false }
    requires distinct { Distinct (numbers change.bases.now) }
    requires ranked { AreRanked change.classes.now change.class.0 ranked.now }
    ensures known { IfOk result (λ v.
        AreKnown change.entry.classes.now change.entry.class.0 (numbers change.entry.bases.now) v) }
    ensures steps { RiseBy (length ranked.now) 0 steps.old steps.new }
{
    let mut trials = Trials::new(alloc);
    for next in ranked {
        let trial = attempt(change, alloc, &trials, next.place, steps)?;
        trials.insert(next.place, trial)?;
    }
    Ok(trials)
}
