//! How a task is asked, and how its value is told.
//!
//! A task's answers are of one kind (`answer_kinds`), so that each type is read of its own kind of answers alone.

ghost use Rattle.vm_calls.specs.Below.{List, cond, Answer as GivenValue, of_answer, of_method, of_task, Held, AllHold, Claim, of_node_ref, of_option};
ghost use Rattle.std.specs.Prelude.{◌≡◌};
ghost use Rattle.vm_calls.specs.AnswerKinds.Kinds as kinds;
ghost use Rattle.vm_calls.specs.Answers.{GivesJust, IsAnswer, IsDone, IsHint, IsLength, IsMaybe, IsMethod, IsNumber, IsObject, IsOrder, IsTruth, AreObjects, Of, length_of};
ghost use Rattle.vm_calls.specs.Told.{Told, ToldSome, of_nothing};
ghost use Rattle.vm_calls.specs.Views.{lacks, of_items};

use crate::answer_kinds::answers_are_of_their_kinds;
use class_world::Fixed;
use py_node::{Answer, Cause, PyMethod, PyObjectRef, PyResult, Raised, Task};
use vm_eval::{RunFault, VirtualMachine};

/// What is told of a task's answer.
pub trait FromAnswer: Sized + Drop {
    // The answers that it is read of.
    ghost fits: { GivenValue → Type 0 };

    // What is told of an answer.
    ghost told: { Self → GivenValue → Type 0 };

    // What is said of what it names.
    ghost names: { Self → List Claim };

    /// What is told of such an answer. What it names is there, where what the answer names is.
    fn from_answer(answer: Answer) -> Self
        requires { fits answer }
        ensures told { told result answer }
        ensures holds { (w : Held) → AllHold w (of_answer answer) → AllHold w (names result) };
}

/// Asks the machine for a task, which may use so many units, and tells how it ended. The answers of the task's kind must be
/// such that this can be read of them.
pub fn ask<T: FromAnswer>(
    vm: &mut VirtualMachine,
    task: Task,
    budget: u64,
) -> Result<PyResult<T>, RunFault>
    requires there { AllHold vm.old.world (of_task task) }
    requires kind { GivesJust T.fits task }
    ensures { Told T.told T.names task budget vm.old vm.new result }
{
    answers_are_of_their_kinds();
    match vm.ask(task, budget)? {
        PyResult::Done(answer) => Ok(PyResult::Done(T::from_answer(answer))),
        PyResult::Raised(raised) => Ok(PyResult::Raised(raised)),
        PyResult::Budget => Ok(PyResult::Budget),
    }
}

/// The same, its value told as some.
pub fn ask_some<T: FromAnswer>(
    vm: &mut VirtualMachine,
    task: Task,
    budget: u64,
) -> Result<PyResult<Option<T>>, RunFault>
    requires there { AllHold vm.old.world (of_task task) }
    requires kind { GivesJust T.fits task }
    ensures { ToldSome T.told T.names task budget vm.old vm.new result }
{
    match ask::<T>(vm, task, budget)? {
        PyResult::Done(value) => Ok(PyResult::Done(Some(value))),
        PyResult::Raised(raised) => Ok(PyResult::Raised(raised)),
        PyResult::Budget => Ok(PyResult::Budget),
    }
}

/// None is told and no task is asked, unless the machine has failed.
pub fn none_told<T>(vm: &VirtualMachine) -> Result<PyResult<Option<T>>, RunFault>
    ensures { result ≡ cond vm.now.failed (Err RunFault.Failed) (Ok (PyResult.Done None)) }
{
    if vm.has_failed() {
        return Err(RunFault::Failed);
    }
    Ok(PyResult::Done(None))
}

/// A fault of a cause is told and no task is asked, unless the machine has failed.
pub fn lacking<T>(vm: &VirtualMachine, cause: Cause) -> Result<PyResult<T>, RunFault>
    ensures { result ≡ cond vm.now.failed (Err RunFault.Failed) (Ok (lacks cause)) }
{
    if vm.has_failed() {
        return Err(RunFault::Failed);
    }
    Ok(PyResult::Raised(Raised::new(cause)))
}

impl FromAnswer for Answer {
    ghost fits = { λ a. Unit {0} };

    ghost told = { IsAnswer };

    ghost names = { of_answer };

    fn from_answer(answer: Answer) -> Answer {
        answer
    }
}

impl FromAnswer for PyObjectRef {
    ghost fits = { Of kinds.Value };

    ghost told = { IsObject };

    ghost names = { of_node_ref };

    fn from_answer(answer: Answer) -> PyObjectRef {
        match answer {
            Answer::Value(object) => object,
            _ => unreachable!(),
        }
    }
}

impl FromAnswer for Option<PyObjectRef> {
    ghost fits = { Of kinds.Maybe };

    ghost told = { IsMaybe };

    ghost names = { of_option of_node_ref };

    fn from_answer(answer: Answer) -> Option<PyObjectRef> {
        match answer {
            Answer::Maybe(object) => object,
            _ => unreachable!(),
        }
    }
}

impl FromAnswer for Vec<PyObjectRef> {
    ghost fits = { Of kinds.Objects };

    ghost told = { AreObjects };

    ghost names = { of_items };

    fn from_answer(answer: Answer) -> Vec<PyObjectRef> {
        match answer {
            Answer::Objects(items) => items,
            _ => unreachable!(),
        }
    }
}

impl FromAnswer for PyMethod {
    ghost fits = { Of kinds.Method };

    ghost told = { IsMethod };

    ghost names = { of_method };

    fn from_answer(answer: Answer) -> PyMethod {
        match answer {
            Answer::Method(method) => method,
            _ => unreachable!(),
        }
    }
}

impl FromAnswer for () {
    ghost fits = { λ a. Unit {0} };

    ghost told = { IsDone };

    ghost names = { of_nothing };

    fn from_answer(_answer: Answer) {}
}

impl FromAnswer for bool {
    ghost fits = { Of kinds.Truth };

    ghost told = { IsTruth };

    ghost names = { of_nothing };

    fn from_answer(answer: Answer) -> bool {
        match answer {
            Answer::Truth(truth) => truth,
            _ => unreachable!(),
        }
    }
}

impl FromAnswer for Option<bool> {
    ghost fits = { Of kinds.TruthOrNone };

    ghost told = { IsOrder };

    ghost names = { of_nothing };

    #[tactic(auto, using(crate::proofs::Hints::truth_told))]
    fn from_answer(answer: Answer) -> Option<bool> {
        match answer {
            Answer::Maybe(Some(object)) => Some(object == Fixed::True.node()),
            Answer::Maybe(None) => None,
            _ => unreachable!(),
        }
    }
}

impl FromAnswer for i64 {
    ghost fits = { Of kinds.Number };

    ghost told = { IsNumber };

    ghost names = { of_nothing };

    fn from_answer(answer: Answer) -> i64 {
        match answer {
            Answer::Number(number) => number,
            _ => unreachable!(),
        }
    }
}

impl FromAnswer for usize {
    ghost fits = { Of kinds.Number };

    ghost told = { IsLength };

    ghost names = { of_nothing };

    fn from_answer(answer: Answer) -> usize {
        match answer {
            Answer::Number(number) => length_of(number),
            _ => unreachable!(),
        }
    }
}

impl FromAnswer for Option<usize> {
    ghost fits = { Of kinds.NumberOrNone };

    ghost told = { IsHint };

    ghost names = { of_nothing };

    fn from_answer(answer: Answer) -> Option<usize> {
        match answer {
            Answer::Number(number) => Some(length_of(number)),
            Answer::Maybe(None) => None,
            _ => unreachable!(),
        }
    }
}

// A number as a length: 0 where it is below.
fn length_of(number: i64) -> usize
    ensures { result ≡ length_of number }
{
    if number < 0 { 0 } else { number as usize }
}
