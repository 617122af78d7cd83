//! Commands, one after another.

ghost use Rattle.vm_eval.specs.Below.{[], IfErr, IfOk, OnOk, vec_capacity, tree_of, reply_of, reply_answer_of, GivesValue, show as show_of, answering, Reading, plain, AllHold, Lasts, Holds, IsNode};
ghost use Rattle.std.specs.Prelude.{◌≡◌, ◌≤◌, ◌∷◌, ◌++◌};
ghost use Rattle.vm_eval.specs.Stack.{AsDeep, of_end, ending_of};
ghost use Rattle.vm_eval.specs.Runs.{Replied, Runs};

use crate::stack::{End, Kept, drive};
use class_world::{Fixed, World};
use py_node::{Answer, Command, EvalTask, OutOfMemory, PyObjectRef, Reply, ReplyAnswer, Task};
use world_text::expressions::add_expr;
use world_text::show::show;

// The replies to commands, each of which may use so many units.
pub(crate) fn replies(
    world: &mut World,
    stack: &mut Vec<Kept>,
    commands: &[Command],
    units: u64,
) -> Result<Vec<Reply>, OutOfMemory>
    ensures runs { IfOk result (λ replies. Runs commands.now world.old units world.new replies.items) }
    ensures lasts { Lasts world.old world.new }
    ensures bodies { OnOk result (AsDeep world.old world.new) }
    ensures quiet { OnOk result (world.old.calls ≡ [] → world.new.calls ≡ []) }
    ensures room { vec_capacity stack.old ≤ vec_capacity stack.new }
    ensures idle { commands.now ≡ [] → IfErr result (λ _. ⊥) }
{
    let alloc = world.alloc();
    let mut replies = Vec::new(alloc);
    for command in commands {
        let reply = reply(world, stack, command, units)?;
        push(&mut replies, reply)?;
    }
    Ok(replies)
}

// One more reply.
fn push(replies: &mut Vec<Reply>, reply: Reply) -> Result<(), OutOfMemory>
    ensures { OnOk result (replies.new.items ≡ replies.old.items ++ reply ∷ []) }
{
    replies.push(reply)?;
    Ok(())
}

// The reply to one command.
fn reply(
    world: &mut World,
    stack: &mut Vec<Kept>,
    command: &Command,
    units: u64,
) -> Result<Reply, OutOfMemory>
    ensures replied { IfOk result (λ reply.
        Replied (tree_of command.now.expr) world.old units world.new (reply_of reply)) }
    ensures lasts { Lasts world.old world.new }
    ensures bodies { OnOk result (AsDeep world.old world.new) }
    ensures quiet { OnOk result (world.new.calls ≡ []) }
    ensures room { vec_capacity stack.old ≤ vec_capacity stack.new }
{
    let expr = add_expr(world, &command.expr)?;
    let end = drive(world, stack, Task::Eval(EvalTask::Eval(expr)), units)?;
    let answer = answering(world, end)?;
    let calls = world.take_calls();
    Ok(Reply { answer, calls })
}

// How a command is answered, with the text of its value.
fn answering(world: &World, end: End) -> Result<ReplyAnswer, OutOfMemory>
    requires { AllHold world.now (of_end end) }
    ensures { IfOk result (λ answer. (t : Reading) →
        reply_answer_of answer ≡ answering (plain t world.now) (ending_of end)) }
{
    match end {
        End::NoUnits => Ok(ReplyAnswer::Budget),
        End::Over(Err(raised)) => Ok(ReplyAnswer::Raised(raised)),
        End::Over(Ok(Answer::Value(node))) => shown(world, node),
        End::Over(Ok(_)) => shown(world, world.fixed(Fixed::None)),
    }
}

// A value, with its text.
fn shown(world: &World, node: PyObjectRef) -> Result<ReplyAnswer, OutOfMemory>
    requires { Holds world.now (IsNode node) }
    ensures { IfOk result (λ answer. (t : Reading) → reply_answer_of answer ≡
        GivesValue node (show_of (plain t world.now) node)) }
{
    let text = show(world, node)?;
    Ok(ReplyAnswer::Value(node, text))
}
