//! The comparisons of tuples, lists and dicts, which ask those of their items. Each is a small automaton: `begin` and
//! `resume`.
#![tactic(auto, using(class_world::proofs::Items::item_holds), unfolding(crate::specs::NativeCompare::Say::compared_job_say))]

ghost use Rattle.native_containers.specs.Below.{IfOk, of_args, of_ended, Leaves, AllHold};
ghost use Rattle.std.specs.Prelude.{◌≡◌};
ghost use Rattle.py_node.specs.declared.task.Task.TheVariants as task;
ghost use Rattle.native_containers.specs.NativeCompare.Rows.{Begins, Resumes, of_compared_kept};

mod dicts;
mod sequences;
mod turn;
pub mod way;

use crate::native_compare::dicts::dicts;
use crate::native_compare::sequences::sequences;
use crate::native_compare::turn::{ask_next, ended_by};
use crate::native_compare::way::Way;
use class_world::World;
use py_node::task::{Args, Keywords};
use py_node::{Answer, BuiltIn, FuncArgs, NativeEntry, OutOfMemory, Raised, Step};
use row_kit::take_containers::Kind;

/// What a comparison keeps while it waits for what two items answer.
#[derive(Drop)]
pub struct ComparedKept {
    /// What items are asked.
    pub way: Way,
    /// What the comparison gives where no two items decide.
    pub last: bool,
    /// The items of the left operand, as they stood at the start.
    pub first: Args,
    /// Those of the right one.
    pub second: Args,
    /// The place of the two items that come next.
    pub next: usize,
}

/// The first step of one of these natives.
pub fn begin(
    world: &mut World,
    entry: NativeEntry,
    args: Args,
    kw: Keywords,
) -> Result<Step<ComparedKept>, OutOfMemory>
    requires { AllHold world.old (of_args args.items kw.items) }
    ensures goes { IfOk result (λ step. Begins (task.Native entry args kw) world.old world.new step) }
    ensures safe { Leaves of_compared_kept world.old world.new result }
{
    let call = FuncArgs {
        args: &args,
        kw: &kw,
    };
    match entry {
        NativeEntry::Compare(BuiltIn::Tuple, native) => {
            sequences(world, Kind::Tuple, native, call)
        }
        NativeEntry::Compare(BuiltIn::List, native) => {
            sequences(world, Kind::List, native, call)
        }
        NativeEntry::Compare(BuiltIn::Dict, native) => dicts(world, native, call),
        _ => Ok(Step::elsewhere()),
    }
}

/// Goes on with a comparison that was given an answer.
pub fn resume(
    world: &mut World,
    kept: ComparedKept,
    answer: Result<Answer, Raised>,
) -> Result<Step<ComparedKept>, OutOfMemory>
    requires kept { AllHold world.old (of_compared_kept kept) }
    requires answer { AllHold world.old (of_ended answer) }
    ensures goes { IfOk result (λ step. Resumes kept answer world.old world.new step) }
    ensures safe { Leaves of_compared_kept world.old world.new result }
{
    match ended_by(world, kept.way, kept.last, answer) {
        Some(ended) => Ok(Step::End(ended)),
        None => Ok(ask_next(world, kept)),
    }
}
