//! The trials of other bases, by the places of the classes.

ghost use Rattle.class_table.specs.Below.{ℕ, List, [], cond, eqb, Some, OnOk, option_copied};
ghost use Rattle.std.specs.Prelude.{◌≡◌};
ghost use Rattle.class_table.specs.Trial.{trial_at};

use crate::trial::Trial;
use indexmap::IndexMap;
use py_node::OutOfMemory;
use std::alloc::Global;
use std::marker::Model;

/// Trials by places.
#[derive(Drop)]
pub(crate) struct Trials {
    entries: IndexMap<usize, Trial>,
}

impl Model for Trials {
    ghost use Rattle.std.specs.Prelude.{ℕ, List};
    ghost use Rattle.class_table.specs.declared.trial.Trial.{Trial as Tried};

    ghost Value = { List (ℕ × Tried) };

    ghost view = { λ a. a.entries.entries };
}

impl Trials {
    // No trials.
    pub(crate) fn new(alloc: Global) -> Trials
        ensures { result ≡ [] }
    {
        Trials {
            entries: IndexMap::new(alloc),
        }
    }

    // The trial of the class at a place, if there is one.
    pub(crate) fn get(&self, place: usize) -> Option<&Trial>
        ensures { option_copied result ≡ trial_at self.now place }
    {
        self.entries.get(&place)
    }

    // Notes the trial of the class at a place.
    pub(crate) fn insert(&mut self, place: usize, trial: Trial) -> Result<(), OutOfMemory>
        ensures { OnOk result ((i : ℕ) →
            trial_at self.new i ≡ cond (eqb place i) (Some trial) (trial_at self.old i)) }
    {
        self.entries.insert(place, trial)?;
        Ok(())
    }
}
