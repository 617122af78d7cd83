//! The natives that stand in no group of tasks, by what they ask. Each is a small automaton: `begin` and `resume`.
#![tactic(auto)]

ghost use Rattle.vm_eval.specs.Below.{IfOk, of_args, of_ended, of_step, Leaves, AllHold, of_native_kept, of_compared_kept, of_detail_kept, of_item_kept, of_conversion_kept, of_repeat_kept};
ghost use Rattle.std.specs.Prelude.{◌≡◌};
ghost use Rattle.vm_eval.specs.OfNatives.Rows.{Begins, Resumes, kept_among, of_natives_kept};

use crate::natives::family::{Family, family_of};
use crate::natives::plain::plain_native;
use class_world::World;
use native_containers::native_compare::ComparedKept;
use native_containers::native_conversions::ConversionKept;
use native_containers::native_items::ItemKept;
use proto_attr::native_calls::NativeKept;
use proto_attr::native_details::DetailKept;
use proto_ops::native_repeats::RepeatKept;
use py_node::task::{Args, Keywords};
use py_node::{Answer, FuncArgs, NativeEntry, OutOfMemory, Raised, Step, caught};

pub mod family;
mod plain;

/// What a native keeps while it waits for an answer.
#[derive(Drop)]
pub enum NativesKept {
    ForItems(ItemKept),
    ForConversions(ConversionKept),
    ForComparisons(ComparedKept),
    ForRepeats(RepeatKept),
    ForDetails(DetailKept),
    ForCalls(NativeKept),
}

/// The first step of a native.
pub fn begin(
    world: &mut World,
    entry: NativeEntry,
    args: Args,
    kw: Keywords,
) -> Result<Step<NativesKept>, OutOfMemory>
    requires { AllHold world.old (of_args args.items kw.items) }
    ensures goes { IfOk result (λ step. Begins entry args.items kw.items world.old world.new step) }
    ensures safe { Leaves of_natives_kept world.old world.new result }
{
    match family_of(entry) {
        Family::Items => {
            let step = native_containers::native_items::begin(world, entry, args, kw)?;
            Ok(of_items(step))
        }
        Family::Conversions => {
            let step = native_containers::native_conversions::begin(world, entry, args, kw)?;
            Ok(of_conversions(step))
        }
        Family::Comparisons => {
            let step = native_containers::native_compare::begin(world, entry, args, kw)?;
            Ok(of_comparisons(step))
        }
        Family::Repeats => {
            let step = proto_ops::native_repeats::begin(world, entry, args, kw)?;
            Ok(of_repeats(step))
        }
        Family::Details => {
            let step = proto_attr::native_details::begin(world, entry, args, kw)?;
            Ok(of_details(step))
        }
        Family::Calls => {
            let step = proto_attr::native_calls::begin(world, entry, args, kw)?;
            Ok(of_calls(step))
        }
        Family::Plain => {
            let answer = caught(plain_native(
                world,
                entry,
                FuncArgs {
                    args: &args,
                    kw: &kw,
                },
            ))?;
            Ok(Step::End(answer))
        }
    }
}

/// Goes on with a native that was given an answer.
pub fn resume(
    world: &mut World,
    kept: NativesKept,
    answer: Result<Answer, Raised>,
) -> Result<Step<NativesKept>, OutOfMemory>
    requires kept { AllHold world.old (of_natives_kept kept) }
    requires answer { AllHold world.old (of_ended answer) }
    ensures goes { IfOk result (λ step. Resumes kept answer world.old world.new step) }
    ensures safe { Leaves of_natives_kept world.old world.new result }
{
    match kept {
        NativesKept::ForItems(kept) => {
            let step = native_containers::native_items::resume(world, kept, answer)?;
            Ok(of_items(step))
        }
        NativesKept::ForConversions(kept) => {
            let step = native_containers::native_conversions::resume(world, kept, answer)?;
            Ok(of_conversions(step))
        }
        NativesKept::ForComparisons(kept) => {
            let step = native_containers::native_compare::resume(world, kept, answer)?;
            Ok(of_comparisons(step))
        }
        NativesKept::ForRepeats(kept) => {
            let step = proto_ops::native_repeats::resume(world, kept, answer)?;
            Ok(of_repeats(step))
        }
        NativesKept::ForDetails(kept) => {
            let step = proto_attr::native_details::resume(world, kept, answer)?;
            Ok(of_details(step))
        }
        NativesKept::ForCalls(kept) => {
            let step = proto_attr::native_calls::resume(world, kept, answer)?;
            Ok(of_calls(step))
        }
    }
}

// A step of a native on items, among all steps.
fn of_items(step: Step<ItemKept>) -> Step<NativesKept>
    ensures step { result ≡ kept_among NativesKept.ForItems step }
    ensures says { of_step of_natives_kept result ≡ of_step of_item_kept step }
{
    match step {
        Step::Ask(task, kept) => Step::Ask(task, NativesKept::ForItems(kept)),
        Step::End(answer) => Step::End(answer),
    }
}

// A step of a native on parts, among all steps.
fn of_conversions(step: Step<ConversionKept>) -> Step<NativesKept>
    ensures step { result ≡ kept_among NativesKept.ForConversions step }
    ensures says { of_step of_natives_kept result ≡ of_step of_conversion_kept step }
{
    match step {
        Step::Ask(task, kept) => Step::Ask(task, NativesKept::ForConversions(kept)),
        Step::End(answer) => Step::End(answer),
    }
}

// A step of a native that compares, among all steps.
fn of_comparisons(step: Step<ComparedKept>) -> Step<NativesKept>
    ensures step { result ≡ kept_among NativesKept.ForComparisons step }
    ensures says { of_step of_natives_kept result ≡ of_step of_compared_kept step }
{
    match step {
        Step::Ask(task, kept) => Step::Ask(task, NativesKept::ForComparisons(kept)),
        Step::End(answer) => Step::End(answer),
    }
}

// A step of a native that repeats, among all steps.
fn of_repeats(step: Step<RepeatKept>) -> Step<NativesKept>
    ensures step { result ≡ kept_among NativesKept.ForRepeats step }
    ensures says { of_step of_natives_kept result ≡ of_step of_repeat_kept step }
{
    match step {
        Step::Ask(task, kept) => Step::Ask(task, NativesKept::ForRepeats(kept)),
        Step::End(answer) => Step::End(answer),
    }
}

// A step of a native that tells a part, among all steps.
fn of_details(step: Step<DetailKept>) -> Step<NativesKept>
    ensures step { result ≡ kept_among NativesKept.ForDetails step }
    ensures says { of_step of_natives_kept result ≡ of_step of_detail_kept step }
{
    match step {
        Step::Ask(task, kept) => Step::Ask(task, NativesKept::ForDetails(kept)),
        Step::End(answer) => Step::End(answer),
    }
}

// A step of a native that calls or binds, among all steps.
fn of_calls(step: Step<NativeKept>) -> Step<NativesKept>
    ensures step { result ≡ kept_among NativesKept.ForCalls step }
    ensures says { of_step of_natives_kept result ≡ of_step of_native_kept step }
{
    match step {
        Step::Ask(task, kept) => Step::Ask(task, NativesKept::ForCalls(kept)),
        Step::End(answer) => Step::End(answer),
    }
}
