//! Tasks, what they answer, and the steps of their rows.

ghost use Rattle.py_node.specs.Below.{Err};
ghost use Rattle.std.specs.Prelude.{◌≡◌};
ghost use Rattle.py_node.specs.Faults.{raised};

use crate::entry::{IntNative, NativeEntry, ObjectNative, SlotEntry, TypeNative};
use crate::protocol::{CompareTask, ObjectTask, ProtocolTask};
use crate::raised::{Cause, Raised};
use crate::refs::{ExprRef, PyObjectRef, PyStrInterned, PyTypeRef};

/// A binary operator of numbers.
#[derive(Clone, Copy, PartialEq, Eq)]
pub enum PyNumberBinaryOp {
    Add,
    Subtract,
    Multiply,
    Remainder,
    Divmod,
    Lshift,
    Rshift,
    And,
    Xor,
    Or,
    FloorDivide,
    TrueDivide,
    MatrixMultiply,
}

/// An operator of one number.
#[derive(Clone, Copy, PartialEq, Eq)]
pub enum PyNumberUnaryOp {
    Negative,
    Positive,
    Absolute,
    Invert,
}

/// A comparison.
#[derive(Clone, Copy, PartialEq, Eq)]
pub enum PyComparisonOp {
    Lt,
    Gt,
    Ne,
    Eq,
    Le,
    Ge,
}

/// What an attribute is given: a value, or that it is taken out.
#[derive(Clone, Copy, PartialEq, Eq)]
pub enum PySetterValue {
    Assign(PyObjectRef),
    Delete,
}

/// A method that was loaded to be called at once: a function with the object that goes before its
/// arguments, or what the attribute gave.
#[derive(Clone, Copy, PartialEq, Eq)]
pub enum PyMethod {
    Function {
        target: PyObjectRef,
        func: PyObjectRef,
    },
    Attribute(PyObjectRef),
}

/// What a task answers.
#[derive(Drop)]
pub enum Answer {
    /// An object.
    Value(PyObjectRef),
    /// It is done.
    Done,
    /// A number: a length or a hash.
    Number(i64),
    /// A truth value.
    Truth(bool),
    /// An object, or that there is none.
    Maybe(Option<PyObjectRef>),
    /// A list of objects.
    Objects(Vec<PyObjectRef>),
    /// An iteration has come to its end.
    Exhausted,
    /// A method with its target.
    Method(PyMethod),
    /// The class past which `super` starts to look.
    Start(PyTypeRef),
}

/// How a command or a task that is asked from outside ends.
#[derive(Clone, Copy, PartialEq, Eq)]
pub enum PyResult<T> {
    Done(T),
    Raised(Raised),
    Budget,
}

/// Positional arguments, in order.
pub type Args = Vec<PyObjectRef>;

/// Keyword arguments, in order.
pub type Keywords = Vec<(PyStrInterned, PyObjectRef)>;

/// What something is called with, as it is lent to what reads it.
#[derive(Clone, Copy)]
pub struct FuncArgs<'a> {
    /// The positional arguments, in order.
    pub args: &'a [PyObjectRef],
    /// The keyword arguments, in order.
    pub kw: &'a [(PyStrInterned, PyObjectRef)],
}

/// A task: something to do, whose row says how.
#[derive(Drop)]
pub enum Task {
    Eval(EvalTask),
    Attribute(AttributeTask),
    Descriptor(DescriptorTask),
    Call(CallTask),
    Class(ClassTask),
    Operator(OperatorTask),
    Compare(CompareTask),
    Protocol(ProtocolTask),
    Object(ObjectTask),
    /// A native that stands in no group.
    Native(NativeEntry, Args, Keywords),
}

/// A task on expressions.
#[derive(Drop)]
pub enum EvalTask {
    Eval(ExprRef),
}

/// A task on attributes and special methods.
#[derive(Drop)]
pub enum AttributeTask {
    /// An object's attribute.
    GetAttr(PyObjectRef, PyStrInterned),
    /// An object's attribute, as objects have them.
    Generic(PyObjectRef, PyStrInterned),
    /// The same, or that there is none. The dict that is given, if any, stands for the object's own.
    GenericOpt(PyObjectRef, PyStrInterned, Option<PyObjectRef>),
    /// Sets an object's attribute, or takes it out.
    SetAttr(PyObjectRef, PyStrInterned, PySetterValue),
    /// Sets an object's attribute, or takes it out, as objects do.
    GenericSet(PyObjectRef, PyStrInterned, PySetterValue),
    /// A class's attribute, as classes have them.
    TypeGet(PyTypeRef, PyStrInterned),
    /// Sets a class's attribute, or takes it out, as classes do.
    TypeSet(PyTypeRef, PyStrInterned, PySetterValue),
    /// Whether an object has an attribute that isn't None.
    HasAttr(PyObjectRef, PyStrInterned),
    /// Calls the special method of a name that an object's class has.
    Special(PyObjectRef, PyStrInterned, Args, Keywords),
    /// Binds a value that was found for an object, if any, and a class.
    Bind(PyObjectRef, Option<PyObjectRef>, PyObjectRef),
    /// An object's attribute, to be called at once.
    LoadMethod(PyObjectRef, PyStrInterned),
    /// Calls a method that was loaded.
    Invoke(PyMethod, Args, Keywords),
}

/// A task on descriptors and `super`.
#[derive(Drop)]
pub enum DescriptorTask {
    /// What a descriptor gives for an object and a class, of which each may be missing.
    DescrGet(PyObjectRef, Option<PyObjectRef>, Option<PyObjectRef>),
    /// Sets what a descriptor stands for in an object, or takes it out.
    DescrSet(PyObjectRef, PyObjectRef, PySetterValue),
    /// An attribute of what a super object stands for.
    SuperGet(PyObjectRef, PyStrInterned),
    /// Initialises a super object with arguments.
    SuperInit(PyObjectRef, Args),
    /// The class from which `super` of a class and an object starts.
    SuperCheck(PyTypeRef, PyObjectRef),
}

/// A task on calls, and the natives of `object`.
#[derive(Drop)]
pub enum CallTask {
    /// Calls an object.
    Call(PyObjectRef, Args, Keywords),
    /// Runs the body of a function.
    Body(PyObjectRef, Args, Keywords),
    /// Calls a class.
    TypeCall(PyTypeRef, Args, Keywords),
    /// Makes an object of the second class, as the first one makes objects.
    New(PyTypeRef, PyTypeRef, Args, Keywords),
    /// Initialises an object.
    Init(PyObjectRef, Args, Keywords),
    Object(ObjectNative, Args, Keywords),
}

/// A task on the creation of classes, and the natives of `type`.
#[derive(Drop)]
pub enum ClassTask {
    /// Makes a class of a metaclass.
    MakeClass(PyTypeRef, Args, Keywords),
    Type(TypeNative, Args, Keywords),
}

/// A task on operators, and the natives of `int`.
#[derive(Drop)]
pub enum OperatorTask {
    /// The sum of numbers, or sequences joined.
    Add(PyObjectRef, PyObjectRef),
    /// What an operator's candidates give, or NotImplemented.
    BinOp1(PyNumberBinaryOp, PyObjectRef, PyObjectRef),
    /// Enters an operator's entry with both operands.
    Enter(SlotEntry, PyObjectRef, PyObjectRef),
    /// An operator of two numbers.
    Binary(PyNumberBinaryOp, PyObjectRef, PyObjectRef),
    /// What an operator in place gives, or else its candidates, or NotImplemented.
    InplaceOp1(PyNumberBinaryOp, PyObjectRef, PyObjectRef),
    /// An operator of two numbers in place.
    Inplace(PyNumberBinaryOp, PyObjectRef, PyObjectRef),
    /// Joins sequences.
    Concat(PyObjectRef, PyObjectRef),
    InplaceAdd(PyObjectRef, PyObjectRef),
    InplaceConcat(PyObjectRef, PyObjectRef),
    /// The product of numbers, or a sequence repeated.
    Mul(PyObjectRef, PyObjectRef),
    /// Repeats a sequence so many times.
    Repeat(PyObjectRef, i64),
    InplaceMul(PyObjectRef, PyObjectRef),
    InplaceRepeat(PyObjectRef, i64),
    /// Runs a native that repeats a sequence, so many times.
    NativeRepeat(NativeEntry, PyObjectRef, i64),
    /// Enters an entry for powers with both operands and a modulus, which may be None.
    EnterPower(SlotEntry, PyObjectRef, PyObjectRef, PyObjectRef),
    /// A power, by a modulus unless that is None.
    Power(PyObjectRef, PyObjectRef, PyObjectRef),
    InplacePower(PyObjectRef, PyObjectRef, PyObjectRef),
    /// An operator of one number.
    Unary(PyNumberUnaryOp, PyObjectRef),
    Int(IntNative, Args, Keywords),
}

/// What a row does next: it asks another task and keeps something, or it ends.
#[derive(Drop)]
pub enum Step<K> {
    Ask(Task, K),
    End(Result<Answer, Raised>),
}

impl<K> Step<K> {
    /// What a row says that is asked for what another group of rows does. No task comes to it: each is
    /// handed to its own group.
    pub fn elsewhere() -> Step<K>
        ensures { result ≡ Step.End (Err (raised Cause.SelfType)) }
    {
        Step::raise(Cause::SelfType)
    }

    /// The row ends with a fault of a cause.
    pub fn raise(cause: Cause) -> Step<K>
        ensures { result ≡ Step.End (Err (raised cause)) }
    {
        Step::End(Err(Raised::new(cause)))
    }
}
