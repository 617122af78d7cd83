//! What each native does that asks.

ghost use Rattle.std.specs.Prelude.{◌≡◌};
ghost use Rattle.proto_attr.specs.NativeCalls.Say.{way_of};

use py_node::{
    BuiltIn, CallableNative, DescriptorNative, Detail, NativeEntry, PropertyNative, SuperNative,
    WrapperNative,
};

/// What an object is that a native binds.
#[derive(Clone, Copy)]
pub enum Kind {
    Function,
    Native,
    GetSet,
    Member,
    Property,
    ClassMethod,
    StaticMethod,
    Super,
}

/// What an object is by which a native sets an attribute, or takes it out.
#[derive(Clone, Copy)]
pub enum Setting {
    GetSet,
    Member,
    Property,
}

/// What wraps a callable: a class method or a static method.
#[derive(Clone, Copy)]
pub enum Wrapper {
    Class,
    Static,
}

/// What a native does: it binds an object of a kind, sets an attribute by one or takes it out, makes a new
/// wrapper, makes an object as a class does, or calls.
#[derive(Clone, Copy)]
pub enum Way {
    Binds(Kind),
    Sets(Setting),
    Deletes(Setting),
    /// A `super` gives an attribute.
    Looks,
    /// A `super` is initialised.
    Starts,
    /// A class method or a static method gives a part of what it wraps.
    Reads(Wrapper, Detail),
    /// It tells whether what it wraps is abstract.
    Marked(Wrapper),
    /// What it wraps, or the getter of a property, is marked as abstract.
    Marks(BuiltIn),
    Wraps(Wrapper),
    Makes,
    Calls,
}

// What it does.
pub(crate) fn way_of(entry: NativeEntry) -> Way
    ensures { result ≡ way_of entry }
{
    match entry {
        NativeEntry::OfCallable(CallableNative::GetFunction) => Way::Binds(Kind::Function),
        NativeEntry::OfCallable(CallableNative::GetMethodDescriptor) => Way::Binds(Kind::Native),
        NativeEntry::OfDescriptor(DescriptorNative::GetSetGet) => Way::Binds(Kind::GetSet),
        NativeEntry::OfDescriptor(DescriptorNative::GetSetSet) => Way::Sets(Setting::GetSet),
        NativeEntry::OfDescriptor(DescriptorNative::GetSetDelete) => Way::Deletes(Setting::GetSet),
        NativeEntry::OfDescriptor(DescriptorNative::MemberGet) => Way::Binds(Kind::Member),
        NativeEntry::OfDescriptor(DescriptorNative::MemberSet) => Way::Sets(Setting::Member),
        NativeEntry::OfDescriptor(DescriptorNative::MemberDelete) => Way::Deletes(Setting::Member),
        NativeEntry::OfProperty(PropertyNative::Get) => Way::Binds(Kind::Property),
        NativeEntry::OfProperty(PropertyNative::Set) => Way::Sets(Setting::Property),
        NativeEntry::OfProperty(PropertyNative::Delete) => Way::Deletes(Setting::Property),
        NativeEntry::OfSuper(SuperNative::Get) => Way::Binds(Kind::Super),
        NativeEntry::OfSuper(SuperNative::Init) => Way::Starts,
        NativeEntry::OfSuper(SuperNative::GetAttribute) => Way::Looks,
        NativeEntry::OfWrapper(WrapperNative::ClassGet) => Way::Binds(Kind::ClassMethod),
        NativeEntry::OfWrapper(WrapperNative::StaticGet) => Way::Binds(Kind::StaticMethod),
        NativeEntry::NewOf(BuiltIn::ClassMethod) => Way::Wraps(Wrapper::Class),
        NativeEntry::NewOf(BuiltIn::StaticMethod) => Way::Wraps(Wrapper::Static),
        NativeEntry::NewWrapper => Way::Makes,
        NativeEntry::GetterOf(BuiltIn::ClassMethod, Detail::IsAbstract) => {
            Way::Marked(Wrapper::Class)
        }
        NativeEntry::GetterOf(BuiltIn::ClassMethod, detail) => Way::Reads(Wrapper::Class, detail),
        NativeEntry::GetterOf(BuiltIn::StaticMethod, Detail::IsAbstract) => {
            Way::Marked(Wrapper::Static)
        }
        NativeEntry::GetterOf(BuiltIn::StaticMethod, detail) => {
            Way::Reads(Wrapper::Static, detail)
        }
        NativeEntry::SetterOf(class, _) => Way::Marks(class),
        _ => Way::Calls,
    }
}
