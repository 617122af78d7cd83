//! The next step of a row that was given an answer. Each group has a function of its own, and each arm returns by itself: a step
//! is then written once, and takes no more room than its group needs.

ghost use Rattle.vm_eval.specs.Below.{IfOk, AllHold, Lasts, of_ended, vec_capacity};
ghost use Rattle.std.specs.Prelude.{◌≤◌};
ghost use Rattle.vm_eval.specs.Say.{of_kept};
ghost use Rattle.vm_eval.specs.Stack.{Comes, IsNext};

use crate::natives::NativesKept;
use crate::stack::{Kept, Next, wait};
use class_world::World;
use proto_attr::AttributeKept;
use proto_attr::proto_descr::DescriptorKept;
use proto_call::CallKept;
use proto_call::class_make::ClassKept;
use proto_call::eval_forms::EvalKept;
use proto_object::ObjectKept;
use proto_object::proto_items::ItemsKept;
use proto_object::proto_iter::IterKept;
use proto_object::proto_number::NumberKept;
use proto_ops::OperatorKept;
use proto_ops::proto_compare::CompareKept;
use py_node::{Answer, OutOfMemory, Raised, Step};

// The next step of a row: those of most rows are told apart first.
pub(crate) fn resume(
    world: &mut World,
    stack: &mut Vec<Kept>,
    kept: Kept,
    answer: Result<Answer, Raised>,
) -> Result<Next, OutOfMemory>
    requires kept { AllHold world.old (of_kept kept) }
    requires answer { AllHold world.old (of_ended answer) }
    ensures goes { IfOk result (λ to. Comes (IsNext kept answer world.old world.new) stack.old.items stack.new.items to) }
    ensures lasts { Lasts world.old world.new }
    ensures room { vec_capacity stack.old ≤ vec_capacity stack.new }
{
    match kept {
        Kept::ForEval(kept) => return resume_eval(world, stack, kept, answer),
        Kept::ForAttribute(kept) => return resume_attribute(world, stack, kept, answer),
        Kept::ForCall(kept) => return resume_call(world, stack, kept, answer),
        Kept::ForOperator(kept) => return resume_operator(world, stack, kept, answer),
        rest => return resume_rare(world, stack, rest, answer),
    }
}

// The next step of any row.
#[inline(never)]
fn resume_rare(
    world: &mut World,
    stack: &mut Vec<Kept>,
    kept: Kept,
    answer: Result<Answer, Raised>,
) -> Result<Next, OutOfMemory>
    requires kept { AllHold world.old (of_kept kept) }
    requires answer { AllHold world.old (of_ended answer) }
    ensures goes { IfOk result (λ to. Comes (IsNext kept answer world.old world.new) stack.old.items stack.new.items to) }
    ensures lasts { Lasts world.old world.new }
    ensures room { vec_capacity stack.old ≤ vec_capacity stack.new }
{
    match kept {
        Kept::ForEval(kept) => return resume_eval(world, stack, kept, answer),
        Kept::ForAttribute(kept) => return resume_attribute(world, stack, kept, answer),
        Kept::ForDescriptor(kept) => return resume_descriptor(world, stack, kept, answer),
        Kept::ForCall(kept) => return resume_call(world, stack, kept, answer),
        Kept::ForClass(kept) => return resume_class(world, stack, kept, answer),
        Kept::ForOperator(kept) => return resume_operator(world, stack, kept, answer),
        Kept::ForCompare(kept) => return resume_compare(world, stack, kept, answer),
        Kept::ForNumber(kept) => return resume_number(world, stack, kept, answer),
        Kept::ForIteration(kept) => return resume_iteration(world, stack, kept, answer),
        Kept::ForItems(kept) => return resume_items(world, stack, kept, answer),
        Kept::ForObject(kept) => return resume_object(world, stack, kept, answer),
        Kept::ForNative(kept) => return resume_native(world, stack, kept, answer),
    }
}

// The next step of an expression.
#[inline(never)]
fn resume_eval(
    world: &mut World,
    stack: &mut Vec<Kept>,
    kept: EvalKept,
    answer: Result<Answer, Raised>,
) -> Result<Next, OutOfMemory>
    requires kept { AllHold world.old (of_kept (Kept.ForEval kept)) }
    requires answer { AllHold world.old (of_ended answer) }
    ensures goes { IfOk result (λ to. Comes (IsNext (Kept.ForEval kept) answer world.old world.new) stack.old.items stack.new.items to) }
    ensures lasts { Lasts world.old world.new }
    ensures room { vec_capacity stack.old ≤ vec_capacity stack.new }
{
    match proto_call::eval_forms::resume(world, kept, answer) {
        Ok(Step::Ask(asked, kept)) => return wait(stack, Kept::ForEval(kept), asked),
        Ok(Step::End(answer)) => return Ok(Next::End(answer)),
        Err(error) => return Err(error),
    }
}

// The next step of an attribute.
#[inline(never)]
fn resume_attribute(
    world: &mut World,
    stack: &mut Vec<Kept>,
    kept: AttributeKept,
    answer: Result<Answer, Raised>,
) -> Result<Next, OutOfMemory>
    requires kept { AllHold world.old (of_kept (Kept.ForAttribute kept)) }
    requires answer { AllHold world.old (of_ended answer) }
    ensures goes { IfOk result (λ to. Comes (IsNext (Kept.ForAttribute kept) answer world.old world.new) stack.old.items stack.new.items to) }
    ensures lasts { Lasts world.old world.new }
    ensures room { vec_capacity stack.old ≤ vec_capacity stack.new }
{
    match proto_attr::resume(world, kept, answer) {
        Ok(Step::Ask(asked, kept)) => return wait(stack, Kept::ForAttribute(kept), asked),
        Ok(Step::End(answer)) => return Ok(Next::End(answer)),
        Err(error) => return Err(error),
    }
}

// The next step of a descriptor.
#[inline(never)]
fn resume_descriptor(
    world: &mut World,
    stack: &mut Vec<Kept>,
    kept: DescriptorKept,
    answer: Result<Answer, Raised>,
) -> Result<Next, OutOfMemory>
    requires kept { AllHold world.old (of_kept (Kept.ForDescriptor kept)) }
    requires answer { AllHold world.old (of_ended answer) }
    ensures goes { IfOk result (λ to. Comes (IsNext (Kept.ForDescriptor kept) answer world.old world.new) stack.old.items stack.new.items to) }
    ensures lasts { Lasts world.old world.new }
    ensures room { vec_capacity stack.old ≤ vec_capacity stack.new }
{
    match proto_attr::proto_descr::resume(world, kept, answer) {
        Ok(Step::Ask(asked, kept)) => return wait(stack, Kept::ForDescriptor(kept), asked),
        Ok(Step::End(answer)) => return Ok(Next::End(answer)),
        Err(error) => return Err(error),
    }
}

// The next step of a call.
#[inline(never)]
fn resume_call(
    world: &mut World,
    stack: &mut Vec<Kept>,
    kept: CallKept,
    answer: Result<Answer, Raised>,
) -> Result<Next, OutOfMemory>
    requires kept { AllHold world.old (of_kept (Kept.ForCall kept)) }
    requires answer { AllHold world.old (of_ended answer) }
    ensures goes { IfOk result (λ to. Comes (IsNext (Kept.ForCall kept) answer world.old world.new) stack.old.items stack.new.items to) }
    ensures lasts { Lasts world.old world.new }
    ensures room { vec_capacity stack.old ≤ vec_capacity stack.new }
{
    match proto_call::resume(world, kept, answer) {
        Ok(Step::Ask(asked, kept)) => return wait(stack, Kept::ForCall(kept), asked),
        Ok(Step::End(answer)) => return Ok(Next::End(answer)),
        Err(error) => return Err(error),
    }
}

// The next step of the creation of a class.
#[inline(never)]
fn resume_class(
    world: &mut World,
    stack: &mut Vec<Kept>,
    kept: ClassKept,
    answer: Result<Answer, Raised>,
) -> Result<Next, OutOfMemory>
    requires kept { AllHold world.old (of_kept (Kept.ForClass kept)) }
    requires answer { AllHold world.old (of_ended answer) }
    ensures goes { IfOk result (λ to. Comes (IsNext (Kept.ForClass kept) answer world.old world.new) stack.old.items stack.new.items to) }
    ensures lasts { Lasts world.old world.new }
    ensures room { vec_capacity stack.old ≤ vec_capacity stack.new }
{
    match proto_call::class_make::resume(world, kept, answer) {
        Ok(Step::Ask(asked, kept)) => return wait(stack, Kept::ForClass(kept), asked),
        Ok(Step::End(answer)) => return Ok(Next::End(answer)),
        Err(error) => return Err(error),
    }
}

// The next step of an operator.
#[inline(never)]
fn resume_operator(
    world: &mut World,
    stack: &mut Vec<Kept>,
    kept: OperatorKept,
    answer: Result<Answer, Raised>,
) -> Result<Next, OutOfMemory>
    requires kept { AllHold world.old (of_kept (Kept.ForOperator kept)) }
    requires answer { AllHold world.old (of_ended answer) }
    ensures goes { IfOk result (λ to. Comes (IsNext (Kept.ForOperator kept) answer world.old world.new) stack.old.items stack.new.items to) }
    ensures lasts { Lasts world.old world.new }
    ensures room { vec_capacity stack.old ≤ vec_capacity stack.new }
{
    match proto_ops::resume(world, kept, answer) {
        Ok(Step::Ask(asked, kept)) => return wait(stack, Kept::ForOperator(kept), asked),
        Ok(Step::End(answer)) => return Ok(Next::End(answer)),
        Err(error) => return Err(error),
    }
}

// The next step of a comparison.
#[inline(never)]
fn resume_compare(
    world: &mut World,
    stack: &mut Vec<Kept>,
    kept: CompareKept,
    answer: Result<Answer, Raised>,
) -> Result<Next, OutOfMemory>
    requires kept { AllHold world.old (of_kept (Kept.ForCompare kept)) }
    requires answer { AllHold world.old (of_ended answer) }
    ensures goes { IfOk result (λ to. Comes (IsNext (Kept.ForCompare kept) answer world.old world.new) stack.old.items stack.new.items to) }
    ensures lasts { Lasts world.old world.new }
    ensures room { vec_capacity stack.old ≤ vec_capacity stack.new }
{
    match proto_ops::proto_compare::resume(world, kept, answer) {
        Ok(Step::Ask(asked, kept)) => return wait(stack, Kept::ForCompare(kept), asked),
        Ok(Step::End(answer)) => return Ok(Next::End(answer)),
        Err(error) => return Err(error),
    }
}

// The next step of a truth value, a number or a length.
#[inline(never)]
fn resume_number(
    world: &mut World,
    stack: &mut Vec<Kept>,
    kept: NumberKept,
    answer: Result<Answer, Raised>,
) -> Result<Next, OutOfMemory>
    requires kept { AllHold world.old (of_kept (Kept.ForNumber kept)) }
    requires answer { AllHold world.old (of_ended answer) }
    ensures goes { IfOk result (λ to. Comes (IsNext (Kept.ForNumber kept) answer world.old world.new) stack.old.items stack.new.items to) }
    ensures lasts { Lasts world.old world.new }
    ensures room { vec_capacity stack.old ≤ vec_capacity stack.new }
{
    match proto_object::proto_number::resume(world, kept, answer) {
        Ok(Step::Ask(asked, kept)) => return wait(stack, Kept::ForNumber(kept), asked),
        Ok(Step::End(answer)) => return Ok(Next::End(answer)),
        Err(error) => return Err(error),
    }
}

// The next step of an iteration.
#[inline(never)]
fn resume_iteration(
    world: &mut World,
    stack: &mut Vec<Kept>,
    kept: IterKept,
    answer: Result<Answer, Raised>,
) -> Result<Next, OutOfMemory>
    requires kept { AllHold world.old (of_kept (Kept.ForIteration kept)) }
    requires answer { AllHold world.old (of_ended answer) }
    ensures goes { IfOk result (λ to. Comes (IsNext (Kept.ForIteration kept) answer world.old world.new) stack.old.items stack.new.items to) }
    ensures lasts { Lasts world.old world.new }
    ensures room { vec_capacity stack.old ≤ vec_capacity stack.new }
{
    match proto_object::proto_iter::resume(world, kept, answer) {
        Ok(Step::Ask(asked, kept)) => return wait(stack, Kept::ForIteration(kept), asked),
        Ok(Step::End(answer)) => return Ok(Next::End(answer)),
        Err(error) => return Err(error),
    }
}

// The next step of items.
#[inline(never)]
fn resume_items(
    world: &mut World,
    stack: &mut Vec<Kept>,
    kept: ItemsKept,
    answer: Result<Answer, Raised>,
) -> Result<Next, OutOfMemory>
    requires kept { AllHold world.old (of_kept (Kept.ForItems kept)) }
    requires answer { AllHold world.old (of_ended answer) }
    ensures goes { IfOk result (λ to. Comes (IsNext (Kept.ForItems kept) answer world.old world.new) stack.old.items stack.new.items to) }
    ensures lasts { Lasts world.old world.new }
    ensures room { vec_capacity stack.old ≤ vec_capacity stack.new }
{
    match proto_object::proto_items::resume(world, kept, answer) {
        Ok(Step::Ask(asked, kept)) => return wait(stack, Kept::ForItems(kept), asked),
        Ok(Step::End(answer)) => return Ok(Next::End(answer)),
        Err(error) => return Err(error),
    }
}

// The next step of what all objects can do.
#[inline(never)]
fn resume_object(
    world: &mut World,
    stack: &mut Vec<Kept>,
    kept: ObjectKept,
    answer: Result<Answer, Raised>,
) -> Result<Next, OutOfMemory>
    requires kept { AllHold world.old (of_kept (Kept.ForObject kept)) }
    requires answer { AllHold world.old (of_ended answer) }
    ensures goes { IfOk result (λ to. Comes (IsNext (Kept.ForObject kept) answer world.old world.new) stack.old.items stack.new.items to) }
    ensures lasts { Lasts world.old world.new }
    ensures room { vec_capacity stack.old ≤ vec_capacity stack.new }
{
    match proto_object::resume(world, kept, answer) {
        Ok(Step::Ask(asked, kept)) => return wait(stack, Kept::ForObject(kept), asked),
        Ok(Step::End(answer)) => return Ok(Next::End(answer)),
        Err(error) => return Err(error),
    }
}

// The next step of a native.
#[inline(never)]
fn resume_native(
    world: &mut World,
    stack: &mut Vec<Kept>,
    kept: NativesKept,
    answer: Result<Answer, Raised>,
) -> Result<Next, OutOfMemory>
    requires kept { AllHold world.old (of_kept (Kept.ForNative kept)) }
    requires answer { AllHold world.old (of_ended answer) }
    ensures goes { IfOk result (λ to. Comes (IsNext (Kept.ForNative kept) answer world.old world.new) stack.old.items stack.new.items to) }
    ensures lasts { Lasts world.old world.new }
    ensures room { vec_capacity stack.old ≤ vec_capacity stack.new }
{
    match crate::natives::resume(world, kept, answer) {
        Ok(Step::Ask(asked, kept)) => return wait(stack, Kept::ForNative(kept), asked),
        Ok(Step::End(answer)) => return Ok(Next::End(answer)),
        Err(error) => return Err(error),
    }
}
