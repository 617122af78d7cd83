//! The tasks that the words of operations ask.

ghost use Rattle.proto_call.specs.Below.{option_map, of_task, Held, Reading, task_of, AllHold, Holds, IsNode, AreNodes, of_option};
ghost use Rattle.std.specs.Prelude.{◌≡◌};
ghost use Rattle.proto_call.specs.EvalForms.Words.{binary_task, inplace_task, object_of_one, object_of_two, of_one, of_three, of_two, sequence_of_one, sequence_of_two, task_for};

use class_world::{Fixed, World};
use py_node::{
    CompareTask, ObjectTask, ObjectWord, OperatorTask, ProtocolTask, PyNumberBinaryOp, PyObjectRef,
    SequenceWord, Task, Word,
};

/// The task of a word with operands, if it takes so many.
#[tactic(auto, using(class_world::proofs::Items::item_holds))]
pub(crate) fn task_for(world: &World, word: Word, values: &[PyObjectRef]) -> Option<Task>
    requires { Holds world.now (AreNodes values.now) }
    ensures task { (t : Reading) → option_map (task_of t) result ≡ task_for word values.now }
    ensures holds { AllHold world.now (of_option of_task result) }
{
    match values {
        [a] => of_one(word, *a),
        [a, b] => of_two(world, word, *a, *b),
        [a, b, c] => of_three(word, *a, *b, *c),
        _ => None,
    }
}

// With one operand.
fn of_one(word: Word, o: PyObjectRef) -> Option<Task>
    ensures task { (t : Reading) → option_map (task_of t) result ≡ of_one word o }
    ensures holds { (w : Held) → Holds w (IsNode o) → AllHold w (of_option of_task result) }
{
    match word {
        Word::Unary(op) => Some(Task::Operator(OperatorTask::Unary(op, o))),
        Word::Sequence(word) => sequence_of_one(word, o),
        Word::Object(word) => object_of_one(word, o),
        _ => None,
    }
}

fn sequence_of_one(word: SequenceWord, o: PyObjectRef) -> Option<Task>
    ensures task { (t : Reading) → option_map (task_of t) result ≡ sequence_of_one word o }
    ensures holds { (w : Held) → Holds w (IsNode o) → AllHold w (of_option of_task result) }
{
    match word {
        SequenceWord::Len => Some(Task::Protocol(ProtocolTask::Length(o))),
        SequenceWord::Iter => Some(Task::Protocol(ProtocolTask::GetIter(o))),
        SequenceWord::Next => Some(Task::Protocol(ProtocolTask::Next(o))),
        SequenceWord::ToList => Some(Task::Protocol(ProtocolTask::Collect(o))),
        SequenceWord::ToTuple => Some(Task::Protocol(ProtocolTask::Collect(o))),
        _ => None,
    }
}

fn object_of_one(word: ObjectWord, o: PyObjectRef) -> Option<Task>
    ensures task { (t : Reading) → option_map (task_of t) result ≡ object_of_one word o }
    ensures holds { (w : Held) → Holds w (IsNode o) → AllHold w (of_option of_task result) }
{
    match word {
        ObjectWord::Not => Some(Task::Protocol(ProtocolTask::IsTrue(o))),
        ObjectWord::Bool => Some(Task::Protocol(ProtocolTask::IsTrue(o))),
        ObjectWord::Hash => Some(Task::Object(ObjectTask::Hash(o))),
        ObjectWord::Repr => Some(Task::Object(ObjectTask::Repr(o))),
        ObjectWord::Str => Some(Task::Object(ObjectTask::Str(o))),
        ObjectWord::Dir => Some(Task::Object(ObjectTask::Dir(o))),
        ObjectWord::Index => Some(Task::Protocol(ProtocolTask::Index(o))),
        ObjectWord::Int => Some(Task::Protocol(ProtocolTask::Int(o))),
        ObjectWord::Keys => Some(Task::Protocol(ProtocolTask::Keys(o))),
        ObjectWord::Values => Some(Task::Protocol(ProtocolTask::Values(o))),
        ObjectWord::Items => Some(Task::Protocol(ProtocolTask::Items(o))),
        _ => None,
    }
}

// With two. A power by no modulus has None as its third.
fn of_two(world: &World, word: Word, a: PyObjectRef, b: PyObjectRef) -> Option<Task>
    requires a { Holds world.now (IsNode a) }
    requires b { Holds world.now (IsNode b) }
    ensures task { (t : Reading) → option_map (task_of t) result ≡ of_two word a b }
    ensures holds { AllHold world.now (of_option of_task result) }
{
    let none = world.fixed(Fixed::None);
    match word {
        Word::Binary(op) => Some(binary_task(op, a, b)),
        Word::Inplace(op) => Some(inplace_task(op, a, b)),
        Word::Power => Some(Task::Operator(OperatorTask::Power(a, b, none))),
        Word::InplacePower => Some(Task::Operator(OperatorTask::InplacePower(a, b, none))),
        Word::Compare(op) => Some(Task::Compare(CompareTask::Compare(a, b, op))),
        Word::Sequence(word) => sequence_of_two(word, a, b),
        Word::Object(word) => object_of_two(word, a, b),
        Word::Unary(_) => None,
    }
}

// A binary operator: sequences can be joined and repeated besides numbers.
fn binary_task(op: PyNumberBinaryOp, a: PyObjectRef, b: PyObjectRef) -> Task
    ensures task { (t : Reading) → task_of t result ≡ binary_task op a b }
    ensures holds { (w : Held) → Holds w (IsNode a) → Holds w (IsNode b) → AllHold w (of_task result) }
{
    match op {
        PyNumberBinaryOp::Add => Task::Operator(OperatorTask::Add(a, b)),
        PyNumberBinaryOp::Multiply => Task::Operator(OperatorTask::Mul(a, b)),
        _ => Task::Operator(OperatorTask::Binary(op, a, b)),
    }
}

// The same in place.
fn inplace_task(op: PyNumberBinaryOp, a: PyObjectRef, b: PyObjectRef) -> Task
    ensures task { (t : Reading) → task_of t result ≡ inplace_task op a b }
    ensures holds { (w : Held) → Holds w (IsNode a) → Holds w (IsNode b) → AllHold w (of_task result) }
{
    match op {
        PyNumberBinaryOp::Add => Task::Operator(OperatorTask::InplaceAdd(a, b)),
        PyNumberBinaryOp::Multiply => Task::Operator(OperatorTask::InplaceMul(a, b)),
        _ => Task::Operator(OperatorTask::Inplace(op, a, b)),
    }
}

// The operands of `in` stand the other way round.
fn sequence_of_two(word: SequenceWord, a: PyObjectRef, b: PyObjectRef) -> Option<Task>
    ensures task { (t : Reading) → option_map (task_of t) result ≡ sequence_of_two word a b }
    ensures holds { (w : Held) → Holds w (IsNode a) → Holds w (IsNode b) → AllHold w (of_option of_task result) }
{
    match word {
        SequenceWord::In => Some(Task::Protocol(ProtocolTask::Contains(b, a))),
        SequenceWord::GetItem => Some(Task::Protocol(ProtocolTask::GetItem(a, b))),
        SequenceWord::DelItem => Some(Task::Protocol(ProtocolTask::DelItem(a, b))),
        SequenceWord::Count => Some(Task::Protocol(ProtocolTask::Count(a, b))),
        SequenceWord::Find => Some(Task::Protocol(ProtocolTask::Find(a, b))),
        SequenceWord::Concat => Some(Task::Operator(OperatorTask::Concat(a, b))),
        SequenceWord::InplaceConcat => Some(Task::Operator(OperatorTask::InplaceConcat(a, b))),
        _ => None,
    }
}

fn object_of_two(word: ObjectWord, a: PyObjectRef, b: PyObjectRef) -> Option<Task>
    ensures task { (t : Reading) → option_map (task_of t) result ≡ object_of_two word a b }
    ensures holds { (w : Held) → Holds w (IsNode a) → Holds w (IsNode b) → AllHold w (of_option of_task result) }
{
    match word {
        ObjectWord::IsInstance => Some(Task::Object(ObjectTask::IsInstance(a, b))),
        ObjectWord::IsSubclass => Some(Task::Object(ObjectTask::IsSubclass(a, b))),
        _ => None,
    }
}

// With three.
fn of_three(word: Word, a: PyObjectRef, b: PyObjectRef, c: PyObjectRef) -> Option<Task>
    ensures task { (t : Reading) → option_map (task_of t) result ≡ of_three word a b c }
    ensures holds { (w : Held) → Holds w (IsNode a) → Holds w (IsNode b) → Holds w (IsNode c) →
        AllHold w (of_option of_task result) }
{
    match word {
        Word::Power => Some(Task::Operator(OperatorTask::Power(a, b, c))),
        Word::Sequence(SequenceWord::SetItem) => {
            Some(Task::Protocol(ProtocolTask::SetItem(a, b, c)))
        }
        _ => None,
    }
}
