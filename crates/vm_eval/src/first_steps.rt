//! The first step of a task. Each group has a function of its own, and each arm returns by itself: a step is then written once,
//! and takes no more room than its group needs.

ghost use Rattle.vm_eval.specs.Below.{IfOk, AllHold, Lasts, of_task, protocol_job, vec_capacity};
ghost use Rattle.std.specs.Prelude.{◌≡◌, ◌≤◌};
ghost use Rattle.vm_eval.specs.Say.{branch_of};
ghost use Rattle.vm_eval.specs.Stack.{Comes, IsFirst};

use crate::look_ahead;
use crate::protocols::{Branch, branch_of};
use crate::stack::{Kept, Next, wait};
use class_world::World;
use py_node::protocol::{CompareTask, ObjectTask, ProtocolTask};
use py_node::task::{Args, CallTask, ClassTask, DescriptorTask, Keywords};
use py_node::{AttributeTask, EvalTask, NativeEntry, OperatorTask, OutOfMemory, Step, Task};

// The first step of a task: those of most tasks are told apart first.
pub(crate) fn begin(
    world: &mut World,
    stack: &mut Vec<Kept>,
    task: Task,
) -> Result<Next, OutOfMemory>
    requires { AllHold world.old (of_task task) }
    ensures goes { IfOk result (λ to. Comes (IsFirst task world.old world.new) stack.old.items stack.new.items to) }
    ensures lasts { Lasts world.old world.new }
    ensures room { vec_capacity stack.old ≤ vec_capacity stack.new }
{
    match task {
        Task::Eval(task) => return begin_eval(world, stack, task),
        Task::Attribute(task) => return begin_attribute(world, stack, task),
        Task::Call(task) => return begin_call(world, stack, task),
        Task::Operator(task) => return begin_operator(world, stack, task),
        rest => return begin_rare(world, stack, rest),
    }
}

// The first step of any task.
#[inline(never)]
fn begin_rare(world: &mut World, stack: &mut Vec<Kept>, task: Task) -> Result<Next, OutOfMemory>
    requires { AllHold world.old (of_task task) }
    ensures goes { IfOk result (λ to. Comes (IsFirst task world.old world.new) stack.old.items stack.new.items to) }
    ensures lasts { Lasts world.old world.new }
    ensures room { vec_capacity stack.old ≤ vec_capacity stack.new }
{
    match task {
        Task::Eval(task) => return begin_eval(world, stack, task),
        Task::Attribute(task) => return begin_attribute(world, stack, task),
        Task::Descriptor(task) => return begin_descriptor(world, stack, task),
        Task::Call(task) => return begin_call(world, stack, task),
        Task::Class(task) => return begin_class(world, stack, task),
        Task::Operator(task) => return begin_operator(world, stack, task),
        Task::Compare(task) => return begin_compare(world, stack, task),
        Task::Protocol(task) => return begin_protocol(world, stack, task),
        Task::Object(task) => return begin_object(world, stack, task),
        Task::Native(entry, args, kw) => return begin_native(world, stack, entry, args, kw),
    }
}

// The first step of a task on numbers, iterations or items.
#[inline(never)]
fn begin_protocol(
    world: &mut World,
    stack: &mut Vec<Kept>,
    task: ProtocolTask,
) -> Result<Next, OutOfMemory>
    requires { AllHold world.old (of_task (Task.Protocol task)) }
    ensures goes { IfOk result (λ to. Comes (IsFirst (Task.Protocol task) world.old world.new) stack.old.items stack.new.items to) }
    ensures lasts { Lasts world.old world.new }
    ensures room { vec_capacity stack.old ≤ vec_capacity stack.new }
{
    match branch_of(&task) {
        Branch::Numbers => return begin_number(world, stack, task),
        Branch::Iterations => return begin_iteration(world, stack, task),
        Branch::Items => return begin_items(world, stack, task),
    }
}

// The first step of an expression.
#[inline(never)]
fn begin_eval(world: &mut World, stack: &mut Vec<Kept>, task: EvalTask) -> Result<Next, OutOfMemory>
    requires { AllHold world.old (of_task (Task.Eval task)) }
    ensures goes { IfOk result (λ to. Comes (IsFirst (Task.Eval task) world.old world.new) stack.old.items stack.new.items to) }
    ensures lasts { Lasts world.old world.new }
    ensures room { vec_capacity stack.old ≤ vec_capacity stack.new }
{
    match proto_call::eval_forms::begin(world, task) {
        Ok(Step::Ask(asked, kept)) => return wait(stack, Kept::ForEval(kept), asked),
        Ok(Step::End(answer)) => return Ok(Next::End(answer)),
        Err(error) => return Err(error),
    }
}

// The first step of an attribute.
#[inline(never)]
fn begin_attribute(
    world: &mut World,
    stack: &mut Vec<Kept>,
    task: AttributeTask,
) -> Result<Next, OutOfMemory>
    requires { AllHold world.old (of_task (Task.Attribute task)) }
    ensures goes { IfOk result (λ to. Comes (IsFirst (Task.Attribute task) world.old world.new) stack.old.items stack.new.items to) }
    ensures lasts { Lasts world.old world.new }
    ensures room { vec_capacity stack.old ≤ vec_capacity stack.new }
{
    match look_ahead::begin(world, task) {
        Ok(Step::Ask(asked, kept)) => return wait(stack, Kept::ForAttribute(kept), asked),
        Ok(Step::End(answer)) => return Ok(Next::End(answer)),
        Err(error) => return Err(error),
    }
}

// The first step of a descriptor.
#[inline(never)]
fn begin_descriptor(
    world: &mut World,
    stack: &mut Vec<Kept>,
    task: DescriptorTask,
) -> Result<Next, OutOfMemory>
    requires { AllHold world.old (of_task (Task.Descriptor task)) }
    ensures goes { IfOk result (λ to. Comes (IsFirst (Task.Descriptor task) world.old world.new) stack.old.items stack.new.items to) }
    ensures lasts { Lasts world.old world.new }
    ensures room { vec_capacity stack.old ≤ vec_capacity stack.new }
{
    match proto_attr::proto_descr::begin(world, task) {
        Ok(Step::Ask(asked, kept)) => return wait(stack, Kept::ForDescriptor(kept), asked),
        Ok(Step::End(answer)) => return Ok(Next::End(answer)),
        Err(error) => return Err(error),
    }
}

// The first step of a call.
#[inline(never)]
fn begin_call(world: &mut World, stack: &mut Vec<Kept>, task: CallTask) -> Result<Next, OutOfMemory>
    requires { AllHold world.old (of_task (Task.Call task)) }
    ensures goes { IfOk result (λ to. Comes (IsFirst (Task.Call task) world.old world.new) stack.old.items stack.new.items to) }
    ensures lasts { Lasts world.old world.new }
    ensures room { vec_capacity stack.old ≤ vec_capacity stack.new }
{
    match proto_call::begin(world, task) {
        Ok(Step::Ask(asked, kept)) => return wait(stack, Kept::ForCall(kept), asked),
        Ok(Step::End(answer)) => return Ok(Next::End(answer)),
        Err(error) => return Err(error),
    }
}

// The first step of the creation of a class.
#[inline(never)]
fn begin_class(
    world: &mut World,
    stack: &mut Vec<Kept>,
    task: ClassTask,
) -> Result<Next, OutOfMemory>
    requires { AllHold world.old (of_task (Task.Class task)) }
    ensures goes { IfOk result (λ to. Comes (IsFirst (Task.Class task) world.old world.new) stack.old.items stack.new.items to) }
    ensures lasts { Lasts world.old world.new }
    ensures room { vec_capacity stack.old ≤ vec_capacity stack.new }
{
    match proto_call::class_make::begin(world, task) {
        Ok(Step::Ask(asked, kept)) => return wait(stack, Kept::ForClass(kept), asked),
        Ok(Step::End(answer)) => return Ok(Next::End(answer)),
        Err(error) => return Err(error),
    }
}

// The first step of an operator.
#[inline(never)]
fn begin_operator(
    world: &mut World,
    stack: &mut Vec<Kept>,
    task: OperatorTask,
) -> Result<Next, OutOfMemory>
    requires { AllHold world.old (of_task (Task.Operator task)) }
    ensures goes { IfOk result (λ to. Comes (IsFirst (Task.Operator task) world.old world.new) stack.old.items stack.new.items to) }
    ensures lasts { Lasts world.old world.new }
    ensures room { vec_capacity stack.old ≤ vec_capacity stack.new }
{
    match proto_ops::begin(world, task) {
        Ok(Step::Ask(asked, kept)) => return wait(stack, Kept::ForOperator(kept), asked),
        Ok(Step::End(answer)) => return Ok(Next::End(answer)),
        Err(error) => return Err(error),
    }
}

// The first step of a comparison.
#[inline(never)]
fn begin_compare(
    world: &mut World,
    stack: &mut Vec<Kept>,
    task: CompareTask,
) -> Result<Next, OutOfMemory>
    requires { AllHold world.old (of_task (Task.Compare task)) }
    ensures goes { IfOk result (λ to. Comes (IsFirst (Task.Compare task) world.old world.new) stack.old.items stack.new.items to) }
    ensures lasts { Lasts world.old world.new }
    ensures room { vec_capacity stack.old ≤ vec_capacity stack.new }
{
    match proto_ops::proto_compare::begin(world, task) {
        Ok(Step::Ask(asked, kept)) => return wait(stack, Kept::ForCompare(kept), asked),
        Ok(Step::End(answer)) => return Ok(Next::End(answer)),
        Err(error) => return Err(error),
    }
}

// The first step of a truth value, a number or a length.
#[inline(never)]
fn begin_number(
    world: &mut World,
    stack: &mut Vec<Kept>,
    task: ProtocolTask,
) -> Result<Next, OutOfMemory>
    requires holds { AllHold world.old (of_task (Task.Protocol task)) }
    requires branch { branch_of (protocol_job task) ≡ Branch.Numbers }
    ensures goes { IfOk result (λ to. Comes (IsFirst (Task.Protocol task) world.old world.new) stack.old.items stack.new.items to) }
    ensures lasts { Lasts world.old world.new }
    ensures room { vec_capacity stack.old ≤ vec_capacity stack.new }
{
    match proto_object::proto_number::begin(world, task) {
        Ok(Step::Ask(asked, kept)) => return wait(stack, Kept::ForNumber(kept), asked),
        Ok(Step::End(answer)) => return Ok(Next::End(answer)),
        Err(error) => return Err(error),
    }
}

// The first step of an iteration.
#[inline(never)]
fn begin_iteration(
    world: &mut World,
    stack: &mut Vec<Kept>,
    task: ProtocolTask,
) -> Result<Next, OutOfMemory>
    requires holds { AllHold world.old (of_task (Task.Protocol task)) }
    requires branch { branch_of (protocol_job task) ≡ Branch.Iterations }
    ensures goes { IfOk result (λ to. Comes (IsFirst (Task.Protocol task) world.old world.new) stack.old.items stack.new.items to) }
    ensures lasts { Lasts world.old world.new }
    ensures room { vec_capacity stack.old ≤ vec_capacity stack.new }
{
    match proto_object::proto_iter::begin(world, task) {
        Ok(Step::Ask(asked, kept)) => return wait(stack, Kept::ForIteration(kept), asked),
        Ok(Step::End(answer)) => return Ok(Next::End(answer)),
        Err(error) => return Err(error),
    }
}

// The first step of items.
#[inline(never)]
fn begin_items(
    world: &mut World,
    stack: &mut Vec<Kept>,
    task: ProtocolTask,
) -> Result<Next, OutOfMemory>
    requires holds { AllHold world.old (of_task (Task.Protocol task)) }
    requires branch { branch_of (protocol_job task) ≡ Branch.Items }
    ensures goes { IfOk result (λ to. Comes (IsFirst (Task.Protocol task) world.old world.new) stack.old.items stack.new.items to) }
    ensures lasts { Lasts world.old world.new }
    ensures room { vec_capacity stack.old ≤ vec_capacity stack.new }
{
    match proto_object::proto_items::begin(world, task) {
        Ok(Step::Ask(asked, kept)) => return wait(stack, Kept::ForItems(kept), asked),
        Ok(Step::End(answer)) => return Ok(Next::End(answer)),
        Err(error) => return Err(error),
    }
}

// The first step of what all objects can do.
#[inline(never)]
fn begin_object(
    world: &mut World,
    stack: &mut Vec<Kept>,
    task: ObjectTask,
) -> Result<Next, OutOfMemory>
    requires { AllHold world.old (of_task (Task.Object task)) }
    ensures goes { IfOk result (λ to. Comes (IsFirst (Task.Object task) world.old world.new) stack.old.items stack.new.items to) }
    ensures lasts { Lasts world.old world.new }
    ensures room { vec_capacity stack.old ≤ vec_capacity stack.new }
{
    match proto_object::begin(world, task) {
        Ok(Step::Ask(asked, kept)) => return wait(stack, Kept::ForObject(kept), asked),
        Ok(Step::End(answer)) => return Ok(Next::End(answer)),
        Err(error) => return Err(error),
    }
}

// The first step of a native.
#[inline(never)]
fn begin_native(
    world: &mut World,
    stack: &mut Vec<Kept>,
    entry: NativeEntry,
    args: Args,
    kw: Keywords,
) -> Result<Next, OutOfMemory>
    requires { AllHold world.old (of_task (Task.Native entry args kw)) }
    ensures goes { IfOk result (λ to. Comes (IsFirst (Task.Native entry args kw) world.old world.new) stack.old.items stack.new.items to) }
    ensures lasts { Lasts world.old world.new }
    ensures room { vec_capacity stack.old ≤ vec_capacity stack.new }
{
    match crate::natives::begin(world, entry, args, kw) {
        Ok(Step::Ask(asked, kept)) => return wait(stack, Kept::ForNative(kept), asked),
        Ok(Step::End(answer)) => return Ok(Next::End(answer)),
        Err(error) => return Err(error),
    }
}
