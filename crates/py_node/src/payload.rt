//! What the nodes of the machine hold.

ghost use Rattle.std.specs.Prelude.{◌≡◌};
ghost use Rattle.py_node.specs.Members.{kind_number};

use crate::boxed::Boxed;
use crate::dict::PyDict;
use crate::entry::NativeEntry;
use crate::expr::{CallParts, ClassParts, Constant, FuncParts, Word};
use crate::members::PyMembers;
use crate::raised::Kind;
use crate::refs::{ExprRef, PyObjectRef, PyStrInterned, PyTypeRef};

/// What a node holds beside its class and its dict. What is larger than the others stands in a box, so that nodes are small.
#[derive(Drop)]
pub enum Payload {
    /// An object of a class that keeps nothing else, and None and NotImplemented.
    Object,
    /// A class: that of the node's own number.
    Class(PyTypeRef),
    /// A whole number, also of a bool.
    Number(i128),
    /// A text.
    Text(String),
    Tuple(Vec<PyObjectRef>),
    List(Vec<PyObjectRef>),
    /// Keys with their values, in the order in which the keys came.
    Dict(PyDict),
    Function(Box<Function>),
    Method(BoundMethod),
    NativeFunction(Boxed<NativeFunction>),
    BuiltinMethod(Boxed<BuiltinMethod>),
    MethodDescriptor(Boxed<MethodDescriptor>),
    GetSet(Boxed<GetSet>),
    /// The callable that a class method wraps.
    ClassMethod(PyObjectRef),
    /// The callable that a static method wraps.
    StaticMethod(PyObjectRef),
    Member(Box<MemberDescriptor>),
    Property(Box<PyProperty>),
    Super(Boxed<PySuper>),
    Iterator(SequenceIterator),
    Slice(Boxed<PySlice>),
}

const _: () = prove!(size_of::<Payload>() == 32);

/// A function of a script.
#[derive(Drop)]
pub struct Function {
    pub name: PyStrInterned,
    pub params: Vec<PyStrInterned>,
    /// Whether the last parameter takes the rest of the arguments.
    pub rest: bool,
    /// Its body.
    pub body: ExprRef,
    /// The class that defines it, if any.
    pub class: Option<PyTypeRef>,
}

/// A function that is bound to an object.
#[derive(Clone, Copy)]
pub struct BoundMethod {
    pub target: PyObjectRef,
    pub func: PyObjectRef,
}

/// A native as a function, which may be bound to an object.
#[derive(Clone, Copy)]
pub struct NativeFunction {
    pub name: PyStrInterned,
    pub entry: NativeEntry,
    pub target: Option<PyObjectRef>,
    pub doc: Option<PyStrInterned>,
}

/// A native of a class that is bound to an object.
#[derive(Clone, Copy)]
pub struct BuiltinMethod {
    pub name: PyStrInterned,
    pub entry: NativeEntry,
    pub target: PyObjectRef,
    pub class: PyTypeRef,
    pub doc: Option<PyStrInterned>,
}

/// A native as a method of a class.
#[derive(Clone, Copy)]
pub struct MethodDescriptor {
    pub class: PyTypeRef,
    pub name: PyStrInterned,
    pub entry: NativeEntry,
    pub flags: u64,
    pub doc: Option<PyStrInterned>,
}

/// The natives that read and set an attribute of the objects of a class.
#[derive(Clone, Copy)]
pub struct GetSet {
    pub class: PyTypeRef,
    pub name: PyStrInterned,
    pub getter: Option<NativeEntry>,
    pub setter: Option<NativeEntry>,
}

/// The kind of a member: what it gives while its place is empty, and what it takes.
#[derive(Clone, Copy, PartialEq, Eq)]
pub enum MemberKind {
    /// A bool, and False while it is empty.
    Bool = 14,
    /// Any object, and a fault while it is empty.
    ObjectEx = 16,
}

impl MemberKind {
    /// The kind's number.
    pub fn number(self) -> u64
        ensures { result ≡ kind_number self }
    {
        self as u64
    }
}

/// What reads a member of an object.
#[derive(Clone, Copy, PartialEq, Eq)]
pub enum MemberGetter {
    Getter(NativeEntry),
    /// The place among all members of the object.
    Offset(usize),
}

/// What sets a member of an object.
#[derive(Clone, Copy, PartialEq, Eq)]
pub enum MemberSetter {
    /// A native, or nothing where the member can only be read.
    Setter(Option<NativeEntry>),
    /// The place among all members of the object.
    Offset(usize),
}

/// A member of the objects of a class.
#[derive(Clone, Copy)]
pub struct MemberDescriptor {
    pub class: PyTypeRef,
    pub name: PyStrInterned,
    pub kind: MemberKind,
    pub getter: MemberGetter,
    pub setter: MemberSetter,
    /// The qualified name, once it was asked for.
    pub qualname: Option<PyStrInterned>,
    pub doc: Option<PyStrInterned>,
}

/// What gets, sets and deletes an attribute, each if it is there.
#[derive(Clone, Copy)]
pub struct PyProperty {
    pub fget: Option<PyObjectRef>,
    pub fset: Option<PyObjectRef>,
    pub fdel: Option<PyObjectRef>,
    pub doc: Option<PyObjectRef>,
    pub name: Option<PyObjectRef>,
}

/// A class past which attributes are found, for an object if it is bound to one.
#[derive(Clone, Copy)]
pub struct PySuper {
    pub typ: PyTypeRef,
    /// The object, and the class in whose linearisation the search starts.
    pub obj: Option<(PyObjectRef, PyTypeRef)>,
}

/// What gives the items of an object one after another.
#[derive(Clone, Copy)]
pub struct SequenceIterator {
    pub object: PyObjectRef,
    /// The place of the next item, or nothing once it has ended.
    pub place: Option<u64>,
}

/// The bounds of a part of a sequence.
#[derive(Clone, Copy)]
pub struct PySlice {
    pub start: Option<PyObjectRef>,
    pub stop: Option<PyObjectRef>,
    pub step: Option<PyObjectRef>,
}

/// A node: an object's class, its dict if it has one, what stands in its places, and what it holds.
#[derive(Drop)]
pub struct Node {
    pub class: PyTypeRef,
    pub dict: Option<PyObjectRef>,
    pub members: PyMembers,
    pub payload: Payload,
}

const _: () = prove!(size_of::<Node>() == 80);

/// An expression in the world's store, which names its parts by their numbers. What is large stands in a box.
#[derive(Drop)]
pub enum Form {
    Const(Constant),
    Name(PyStrInterned),
    Bind(PyStrInterned, ExprRef),
    Tuple(Vec<ExprRef>),
    List(Vec<ExprRef>),
    Dict(Vec<(ExprRef, ExprRef)>),
    Func(Box<FuncParts<PyStrInterned, ExprRef>>),
    Attr(ExprRef, PyStrInterned),
    SetAttr(ExprRef, PyStrInterned, ExprRef),
    DelAttr(ExprRef, PyStrInterned),
    Call(Box<CallParts<PyStrInterned, ExprRef>>),
    Op(Word, Vec<ExprRef>),
    If(ExprRef, ExprRef, ExprRef),
    Seq(Vec<ExprRef>),
    Raise(Kind),
    Class(Box<ClassParts<PyStrInterned, ExprRef>>),
}

const _: () = prove!(size_of::<Form>() == 40);
