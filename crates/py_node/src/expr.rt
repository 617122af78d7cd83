//! Expressions and commands of a script.

use crate::raised::Kind;
use crate::task::{PyComparisonOp, PyNumberBinaryOp, PyNumberUnaryOp};

/// A constant of a script.
#[derive(Drop, Debug)]
pub enum Constant {
    None,
    False,
    True,
    Int(i64),
    Str(String),
}

/// The word of an operation.
#[derive(Clone, Copy, PartialEq, Eq)]
pub enum Word {
    Binary(PyNumberBinaryOp),
    /// A binary operator in place, as `+=`.
    Inplace(PyNumberBinaryOp),
    /// `**`, with two operands or three.
    Power,
    /// `**=`.
    InplacePower,
    Compare(PyComparisonOp),
    Unary(PyNumberUnaryOp),
    Sequence(SequenceWord),
    Object(ObjectWord),
}

/// The word of an operation on a sequence or a mapping, or on what iterates over one.
#[derive(Clone, Copy, PartialEq, Eq)]
pub enum SequenceWord {
    In,
    GetItem,
    SetItem,
    DelItem,
    Slice,
    SetSlice,
    DelSlice,
    Count,
    Find,
    Concat,
    Repeat,
    InplaceConcat,
    InplaceRepeat,
    Len,
    /// The length, or a number where an object can't tell it.
    Hint,
    Iter,
    Next,
    ToList,
    ToTuple,
}

/// The word of an operation on an object of any class.
#[derive(Clone, Copy, PartialEq, Eq)]
pub enum ObjectWord {
    Is,
    Not,
    Bool,
    Hash,
    Repr,
    Str,
    Dir,
    Format,
    IsInstance,
    IsSubclass,
    Index,
    Int,
    Callable,
    TypeOf,
    Keys,
    Values,
    Items,
    HasAttr,
}

/// The parts of a function. In a script its names are texts and its body is an expression; in the world's store both are numbers.
#[derive(Drop)]
pub struct FuncParts<N, E> {
    pub name: N,
    pub params: Vec<N>,
    /// Whether the last parameter takes the rest of the arguments.
    pub rest: bool,
    pub body: E,
}

/// The parts of a call. In a script its names are texts and its parts are expressions; in the world's store all are numbers.
#[derive(Drop)]
pub struct CallParts<N, E> {
    /// What is called.
    pub function: E,
    pub args: Vec<E>,
    pub keywords: Vec<(N, E)>,
}

/// The parts of a class. In a script its names are texts and its parts are expressions; in the world's store all are numbers.
#[derive(Drop)]
pub struct ClassParts<N, E> {
    pub name: N,
    pub bases: Vec<E>,
    pub keywords: Vec<(N, E)>,
    /// What the body binds, in order.
    pub entries: Vec<(N, E)>,
}

/// The parts of an attribute that is set.
#[derive(Drop)]
pub struct SetAttrParts<E> {
    pub object: E,
    pub name: String,
    pub value: E,
}

/// An expression of a script. What is large stands in a box, so that the others are small.
#[derive(Drop)]
pub enum Expr {
    Const(Constant),
    Name(String),
    Bind(String, Box<Expr>),
    Tuple(Vec<Expr>),
    List(Vec<Expr>),
    /// Keys with their values.
    Dict(Vec<(Expr, Expr)>),
    Func(Box<FuncParts<String, Expr>>),
    Attr(Box<Expr>, String),
    SetAttr(Box<SetAttrParts<Expr>>),
    DelAttr(Box<Expr>, String),
    Call(Box<CallParts<String, Expr>>),
    Op(Word, Vec<Expr>),
    /// A condition, and what is evaluated where it is true and where it isn't.
    If(Box<Expr>, Box<Expr>, Box<Expr>),
    Seq(Vec<Expr>),
    Raise(Kind),
    Class(Box<ClassParts<String, Expr>>),
}

const _: () = prove!(size_of::<Expr>() == 40);

/// A command: an expression that is evaluated by itself.
#[derive(Drop)]
pub struct Command {
    pub expr: Expr,
}
