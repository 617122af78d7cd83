//! Nodes of the machine: names, flags, slots, expressions, tasks and faults, as plain types.
#![tactic(auto)]

pub mod attr;
pub mod attributes;
pub mod attrs_of_callables;
pub mod attrs_of_values;
pub mod boxed;
pub mod built_in;
pub mod clone;
pub mod dict;
pub mod entry;
pub mod expr;
mod few_attributes;
mod few_keys;
mod filled_dict;
pub mod flags;
mod key_index;
pub mod known;
pub mod members;
pub mod memory;
pub mod names;
pub mod operator;
pub mod own_attrs;
pub mod payload;
pub mod protocol;
pub mod raised;
pub mod refs;
pub mod reply;
pub mod slots;
pub mod stop;
pub mod task;

pub use attr::Attr;
pub use attributes::PyAttributes;
pub use boxed::Boxed;
pub use built_in::BuiltIn;
pub use dict::{PyDict, PyDictKey};
pub use entry::{
    ArithmeticNative, BitNative, CallableNative, CompareNative, DescriptorNative, Detail,
    DictNative, FixedNative, IntNative, IteratorNative, ListNative, NativeEntry, NumberNative,
    ObjectNative, Property, PropertyNative, SlotEntry, SlotId, StrNative, SuperNative, TupleNative,
    TypeNative, WrapperNative,
};
pub use expr::{
    CallParts, ClassParts, Command, Constant, Expr, FuncParts, ObjectWord, SequenceWord,
    SetAttrParts, Word,
};
pub use flags::{PyMethodFlags, PyTypeFlags};
pub use known::Known;
pub use members::{MemberPlace, PyMembers};
pub use memory::OutOfMemory;
pub use names::Names;
pub use payload::{
    BoundMethod, BuiltinMethod, Form, Function, GetSet, MemberDescriptor, MemberGetter, MemberKind,
    MemberSetter, MethodDescriptor, NativeFunction, Node, Payload, PyProperty, PySlice, PySuper,
    SequenceIterator,
};
pub use protocol::{CompareTask, ObjectTask, ProtocolTask};
pub use raised::{Cause, Kind, Raised};
pub use refs::{ExprRef, PyObjectRef, PyStrInterned, PyTypeRef};
pub use reply::{BodyCall, Reply, ReplyAnswer};
pub use slots::{Filling, Sort};
pub use stop::{Stop, caught};
pub use task::{
    Answer, AttributeTask, CallTask, ClassTask, DescriptorTask, EvalTask, FuncArgs, OperatorTask,
    PyComparisonOp, PyMethod, PyNumberBinaryOp, PyNumberUnaryOp, PyResult, PySetterValue, Step,
    Task,
};
