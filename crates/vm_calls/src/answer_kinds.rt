//! Of which kind a task's answer is: one relation, for all rows.
#![tactic(auto)]

ghost use Rattle.vm_calls.specs.AnswerKinds.Rows.{AnswersAreOfTheirKinds};

/// A task's answer is of the task's kind: an object, or a number, or a truth value, and so on, as one table says for all
/// tasks. So it is of every task in every world, sound or not, with however many units, wherever all tasks go by their
/// rows, as those of a machine do.
pub fn answers_are_of_their_kinds()
    ensures { AnswersAreOfTheirKinds }
{}
