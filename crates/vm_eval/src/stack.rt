//! The stack of frames: one turn at a time, until a task is answered or its units are used up.

ghost use Rattle.vm_eval.specs.Below.{[], length, IfOk, OnOk, vec_capacity, AllHold, Lasts, of_task, of_ended, raised};
ghost use Rattle.std.specs.Prelude.{◌≡◌, ◌≤◌, ◌∷◌, ◌++◌};
ghost use Rattle.vm_eval.specs.Stack.{Answers, Comes, IsFirstAbove, Reaches, AsDeep, EndsDeep, of_end};

use crate::first_steps::begin;
use crate::natives::NativesKept;
use crate::next_steps::resume;
use class_world::World;
use proto_attr::AttributeKept;
use proto_attr::proto_descr::DescriptorKept;
use proto_call::CallKept;
use proto_call::class_make::ClassKept;
use proto_call::eval_forms::EvalKept;
use proto_object::ObjectKept;
use proto_object::proto_items::ItemsKept;
use proto_object::proto_iter::IterKept;
use proto_object::proto_number::NumberKept;
use proto_ops::OperatorKept;
use proto_ops::proto_compare::CompareKept;
use py_node::{Answer, Cause, OutOfMemory, Raised, Step, Task};

// No task stands so deep.
pub(crate) const DEPTH: usize = 1000;

/// What a row keeps while it waits for an answer.
#[derive(Drop)]
pub enum Kept {
    ForEval(EvalKept),
    ForAttribute(AttributeKept),
    ForDescriptor(DescriptorKept),
    ForCall(CallKept),
    ForClass(ClassKept),
    ForOperator(OperatorKept),
    ForCompare(CompareKept),
    ForNumber(NumberKept),
    ForIteration(IterKept),
    ForItems(ItemsKept),
    ForObject(ObjectKept),
    ForNative(NativesKept),
}

/// How a command ended: its row ended, or its units were used up.
#[derive(Drop)]
pub enum End {
    Over(Result<Answer, Raised>),
    NoUnits,
}

/// What a task comes to: what its row asks, where what the row keeps is on top of the stack, or its end.
#[derive(Drop)]
pub enum Next {
    Ask(Task),
    End(Result<Answer, Raised>),
}

// A row waits for a task: what it keeps goes on top of the stack.
#[inline(always)]
pub(crate) fn wait(stack: &mut Vec<Kept>, kept: Kept, asked: Task) -> Result<Next, OutOfMemory>
    ensures waits { IfOk result (λ to. (to ≡ Next.Ask asked) × (stack.new.items ≡ stack.old.items ++ kept ∷ [])) }
    ensures room { vec_capacity stack.old ≤ vec_capacity stack.new }
{
    match stack.push(kept) {
        Ok(()) => return Ok(Next::Ask(asked)),
        Err(_) => return Err(unasked(asked)),
    }
}

// What is asked is let go where memory runs out.
#[cold]
#[inline(never)]
fn unasked(_asked: Task) -> OutOfMemory {
    OutOfMemory
}

// The first step of a task that a row asked, whose frame is on top of the stack.
fn begin_above(world: &mut World, stack: &mut Vec<Kept>, task: Task) -> Result<Next, OutOfMemory>
    requires { AllHold world.old (of_task task) }
    ensures goes { IfOk result (λ to. Comes (IsFirstAbove (length stack.old.items) task world.old world.new) stack.old.items stack.new.items to) }
    ensures lasts { Lasts world.old world.new }
    ensures room { vec_capacity stack.old ≤ vec_capacity stack.new }
{
    if stack.len() < DEPTH {
        return begin(world, stack, task);
    }
    Ok(Next::End(Err(too_deep(task))))
}

// A task that stands too deep is let go.
#[cold]
#[inline(never)]
fn too_deep(_task: Task) -> Raised
    ensures { result ≡ raised Cause.DepthLimit }
{
    Raised::new(Cause::DepthLimit)
}

// A task for which no unit is left is let go.
#[cold]
#[inline(never)]
fn unpaid(_asked: Task) -> End
    ensures { result ≡ End.NoUnits }
{
    End::NoUnits
}

// How a task ends that may use so many units, on a stack that is empty. As many bodies run as before.
pub(crate) fn drive(
    world: &mut World,
    stack: &mut Vec<Kept>,
    task: Task,
    units: u64,
) -> Result<End, OutOfMemory>
    requires { AllHold world.old (of_task task) }
    ensures answers { IfOk result (λ end. Answers task world.old units world.new end) }
    ensures lasts { Lasts world.old world.new }
    ensures holds { IfOk result (λ end. AllHold world.new (of_end end)) }
    ensures bodies { OnOk result (AsDeep world.old world.new) }
    ensures room { vec_capacity stack.old ≤ vec_capacity stack.new }
{
    let depth = world.depth();
    match take_turns(world, stack, task, units)? {
        End::Over(answer) => Ok(End::Over(answer)),
        End::NoUnits => {
            world.end_bodies(depth);
            Ok(End::NoUnits)
        }
    }
}

// The turns of a task, on a stack that is empty: an answer goes to the frame on top, and what a row asks begins above its
// frame.
fn take_turns(
    world: &mut World,
    stack: &mut Vec<Kept>,
    task: Task,
    units: u64,
) -> Result<End, OutOfMemory>
    requires { AllHold world.old (of_task task) }
    ensures reaches { IfOk result (λ end. Reaches task world.old units world.new end) }
    ensures lasts { Lasts world.old world.new }
    ensures holds { IfOk result (λ end. AllHold world.new (of_end end)) }
    ensures bodies { IfOk result (λ end. EndsDeep world.old world.new end) }
    ensures room { vec_capacity stack.old ≤ vec_capacity stack.new }
{
    stack.clear();
    let mut left = units;
    let mut next = begin(world, stack, task)?;
    'turns: loop {
        match next {
            Next::End(answer) => match stack.pop() {
                None => return Ok(End::Over(answer)),
                Some(kept) => next = resume(world, stack, kept, answer)?,
            },
            Next::Ask(asked) => {
                if left == 0 {
                    return Ok(unpaid(asked));
                }
                left -= 1;
                next = begin_above(world, stack, asked)?;
            }
        }
    }
}
