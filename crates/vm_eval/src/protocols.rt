//! The rows of numbers, iterations and items, which are of one group of tasks.

ghost use Rattle.std.specs.Prelude.{◌≡◌};
ghost use Rattle.vm_eval.specs.Below.{protocol_job};
ghost use Rattle.vm_eval.specs.Say.{branch_of};

use py_node::protocol::ProtocolTask;

/// What a task of containers, iterations, numbers and truth is on.
#[derive(Clone, Copy, PartialEq, Eq)]
pub enum Branch {
    /// Truth values, whole numbers and lengths.
    Numbers,
    /// Iterations, and what is asked of each item.
    Iterations,
    /// Items, slices, and the lists of mappings.
    Items,
}

/// What a task is on.
pub(crate) fn branch_of(task: &ProtocolTask) -> Branch
    ensures { branch_of (protocol_job task.now) ≡ result }
{
    match task {
        ProtocolTask::IsTrue(_)
        | ProtocolTask::Index(_)
        | ProtocolTask::Int(_)
        | ProtocolTask::Length(_)
        | ProtocolTask::Hint(_, _) => Branch::Numbers,
        ProtocolTask::GetIter(_)
        | ProtocolTask::Next(_)
        | ProtocolTask::Collect(_)
        | ProtocolTask::Contains(_, _)
        | ProtocolTask::Count(_, _)
        | ProtocolTask::Find(_, _) => Branch::Iterations,
        _ => Branch::Items,
    }
}
