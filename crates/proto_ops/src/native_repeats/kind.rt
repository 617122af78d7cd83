//! The natives that repeat by name.

ghost use Rattle.std.specs.Prelude.{◌≡◌};
ghost use Rattle.proto_ops.specs.NativeRepeats.Say.{entry_of, kind_of};

use py_node::{ListNative, NativeEntry, StrNative, TupleNative};

/// What a native repeats by name: the left operand, or as a reflected product the right one.
#[derive(Clone, Copy, PartialEq, Eq)]
pub enum Repeated {
    Text,
    RightText,
    Tuple,
    RightTuple,
    List,
    RightList,
    /// A list, which has the repeated items then.
    ListInPlace,
}

/// The native.
pub(crate) fn entry_of(kind: Repeated) -> NativeEntry
    ensures { result ≡ entry_of kind }
{
    match kind {
        Repeated::Text => NativeEntry::OfStr(StrNative::Multiply),
        Repeated::RightText => NativeEntry::OfStr(StrNative::RightMultiply),
        Repeated::Tuple => NativeEntry::OfTuple(TupleNative::Multiply),
        Repeated::RightTuple => NativeEntry::OfTuple(TupleNative::RightMultiply),
        Repeated::List => NativeEntry::OfList(ListNative::Multiply),
        Repeated::RightList => NativeEntry::OfList(ListNative::RightMultiply),
        Repeated::ListInPlace => NativeEntry::OfList(ListNative::InplaceMultiply),
    }
}

/// Which of these a native is, if it is one.
pub(crate) fn kind_of(entry: NativeEntry) -> Option<Repeated>
    ensures { result ≡ kind_of entry }
{
    match entry {
        NativeEntry::OfStr(StrNative::Multiply) => Some(Repeated::Text),
        NativeEntry::OfStr(StrNative::RightMultiply) => Some(Repeated::RightText),
        NativeEntry::OfTuple(TupleNative::Multiply) => Some(Repeated::Tuple),
        NativeEntry::OfTuple(TupleNative::RightMultiply) => Some(Repeated::RightTuple),
        NativeEntry::OfList(ListNative::Multiply) => Some(Repeated::List),
        NativeEntry::OfList(ListNative::RightMultiply) => Some(Repeated::RightList),
        NativeEntry::OfList(ListNative::InplaceMultiply) => Some(Repeated::ListInPlace),
        _ => None,
    }
}
