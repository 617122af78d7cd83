//! The own attributes of the built-in classes whose objects are called, bound or gone through, in order: `__new__`, the
//! methods, the parts that are read and set, and the dict.

use crate::attr::Attr::{Method, New, Part, Settable, SettablePart};
use crate::attr::OwnAttr;
use crate::entry::NativeEntry::{
    OfCallable, OfDescriptor, OfIterator, OfProperty, OfSuper, OfWrapper,
};
use crate::entry::{
    CallableNative, DescriptorNative, Detail, IteratorNative, Property, PropertyNative,
    SuperNative, WrapperNative,
};
use crate::known::Known;

/// Those of `function`.
pub const FUNCTION: [OwnAttr; 5] = [
    (Known::New, New),
    (
        Known::Call,
        Method(OfCallable(CallableNative::CallFunction)),
    ),
    (Known::Get, Method(OfCallable(CallableNative::GetFunction))),
    (Known::Name, Part(Detail::Name)),
    (Known::Dict, Settable(Property::InstanceDict)),
];

/// Those of `method`.
pub const METHOD: [OwnAttr; 4] = [
    (Known::New, New),
    (Known::Call, Method(OfCallable(CallableNative::CallMethod))),
    (Known::BoundSelf, Part(Detail::BoundSelf)),
    (Known::Func, Part(Detail::Func)),
];

/// Those of `builtin_function_or_method`.
pub const BUILTIN_FUNCTION_OR_METHOD: [OwnAttr; 4] = [
    (Known::New, New),
    (
        Known::Call,
        Method(OfCallable(CallableNative::CallNativeFunction)),
    ),
    (Known::Name, Part(Detail::Name)),
    (Known::BoundSelf, Part(Detail::BoundSelf)),
];

/// Those of `builtin_method`.
pub const BUILTIN_METHOD: [OwnAttr; 4] = [
    (Known::New, New),
    (
        Known::Call,
        Method(OfCallable(CallableNative::CallBuiltinMethod)),
    ),
    (Known::Name, Part(Detail::Name)),
    (Known::BoundSelf, Part(Detail::BoundSelf)),
];

/// Those of `method_descriptor`.
pub const METHOD_DESCRIPTOR: [OwnAttr; 9] = [
    (Known::New, New),
    (
        Known::Call,
        Method(OfCallable(CallableNative::CallMethodDescriptor)),
    ),
    (
        Known::Get,
        Method(OfCallable(CallableNative::GetMethodDescriptor)),
    ),
    (
        Known::Repr,
        Method(OfCallable(CallableNative::ReprMethodDescriptor)),
    ),
    (Known::Name, Part(Detail::Name)),
    (Known::Qualname, Part(Detail::Qualname)),
    (Known::Doc, Part(Detail::Doc)),
    (Known::TextSignature, Part(Detail::TextSignature)),
    (Known::Objclass, Part(Detail::Objclass)),
];

/// Those of `getset_descriptor`.
pub const GET_SET_DESCRIPTOR: [OwnAttr; 7] = [
    (Known::New, New),
    (
        Known::Get,
        Method(OfDescriptor(DescriptorNative::GetSetGet)),
    ),
    (
        Known::Set,
        Method(OfDescriptor(DescriptorNative::GetSetSet)),
    ),
    (
        Known::Delete,
        Method(OfDescriptor(DescriptorNative::GetSetDelete)),
    ),
    (Known::Name, Part(Detail::Name)),
    (Known::Qualname, Part(Detail::Qualname)),
    (Known::Objclass, Part(Detail::Objclass)),
];

/// Those of `member_descriptor`.
pub const MEMBER_DESCRIPTOR: [OwnAttr; 7] = [
    (Known::New, New),
    (
        Known::Get,
        Method(OfDescriptor(DescriptorNative::MemberGet)),
    ),
    (
        Known::Set,
        Method(OfDescriptor(DescriptorNative::MemberSet)),
    ),
    (
        Known::Delete,
        Method(OfDescriptor(DescriptorNative::MemberDelete)),
    ),
    (
        Known::Repr,
        Method(OfDescriptor(DescriptorNative::MemberRepr)),
    ),
    (Known::Doc, Part(Detail::Doc)),
    (Known::Qualname, Part(Detail::Qualname)),
];

/// Those of `property`.
pub const PROPERTY: [OwnAttr; 14] = [
    (Known::New, New),
    (Known::Init, Method(OfProperty(PropertyNative::Init))),
    (Known::Get, Method(OfProperty(PropertyNative::Get))),
    (Known::Set, Method(OfProperty(PropertyNative::Set))),
    (Known::Delete, Method(OfProperty(PropertyNative::Delete))),
    (Known::SetName, Method(OfProperty(PropertyNative::SetName))),
    (Known::Getter, Method(OfProperty(PropertyNative::Getter))),
    (Known::Setter, Method(OfProperty(PropertyNative::Setter))),
    (Known::Deleter, Method(OfProperty(PropertyNative::Deleter))),
    (Known::Fget, Part(Detail::Getter)),
    (Known::Fset, Part(Detail::Setter)),
    (Known::Fdel, Part(Detail::Deleter)),
    (Known::Doc, SettablePart(Detail::Doc)),
    (Known::Isabstractmethod, SettablePart(Detail::IsAbstract)),
];

/// Those of `classmethod`.
pub const CLASS_METHOD: [OwnAttr; 11] = [
    (Known::New, New),
    (Known::Get, Method(OfWrapper(WrapperNative::ClassGet))),
    (Known::Repr, Method(OfWrapper(WrapperNative::ClassRepr))),
    (Known::Func, Part(Detail::Func)),
    (Known::Wrapped, Part(Detail::Wrapped)),
    (Known::Module, Part(Detail::Module)),
    (Known::Qualname, Part(Detail::Qualname)),
    (Known::Name, Part(Detail::Name)),
    (Known::Annotations, Part(Detail::Annotations)),
    (Known::Isabstractmethod, SettablePart(Detail::IsAbstract)),
    (Known::Dict, Settable(Property::InstanceDict)),
];

/// Those of `staticmethod`.
pub const STATIC_METHOD: [OwnAttr; 13] = [
    (Known::New, New),
    (Known::Init, Method(OfWrapper(WrapperNative::StaticInit))),
    (Known::Call, Method(OfWrapper(WrapperNative::StaticCall))),
    (Known::Get, Method(OfWrapper(WrapperNative::StaticGet))),
    (Known::Repr, Method(OfWrapper(WrapperNative::StaticRepr))),
    (Known::Func, Part(Detail::Func)),
    (Known::Wrapped, Part(Detail::Wrapped)),
    (Known::Module, Part(Detail::Module)),
    (Known::Qualname, Part(Detail::Qualname)),
    (Known::Name, Part(Detail::Name)),
    (Known::Annotations, Part(Detail::Annotations)),
    (Known::Isabstractmethod, SettablePart(Detail::IsAbstract)),
    (Known::Dict, Settable(Property::InstanceDict)),
];

/// Those of `super`.
pub const SUPER: [OwnAttr; 8] = [
    (Known::New, New),
    (Known::Init, Method(OfSuper(SuperNative::Init))),
    (
        Known::GetAttribute,
        Method(OfSuper(SuperNative::GetAttribute)),
    ),
    (Known::Get, Method(OfSuper(SuperNative::Get))),
    (Known::Repr, Method(OfSuper(SuperNative::Repr))),
    (Known::Thisclass, Part(Detail::ThisClass)),
    (Known::SelfClass, Part(Detail::SelfClass)),
    (Known::BoundSelf, Part(Detail::BoundSelf)),
];

/// Those of `iterator`.
pub const ITERATOR: [OwnAttr; 3] = [
    (Known::New, New),
    (Known::Iter, Method(OfIterator(IteratorNative::Iter))),
    (Known::Next, Method(OfIterator(IteratorNative::Next))),
];

/// Those of `slice`.
pub const SLICE: [OwnAttr; 4] = [
    (Known::New, New),
    (Known::Start, Part(Detail::Start)),
    (Known::Stop, Part(Detail::Stop)),
    (Known::Step, Part(Detail::Step)),
];
