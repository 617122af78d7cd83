//! Faults: their kinds, their causes and the words for both.

ghost use Rattle.py_node.specs.Below.{map, length};
ghost use Rattle.std.specs.Prelude.{◌≡◌, ◌<◌};
ghost use Rattle.py_node.specs.Faults.{kind_words, kind_place, kind_word, cause_rows, cause_place, cause_word, kind_of, raised};

/// The kind of a fault: the exception that the language reference names.
#[derive(Clone, Copy, PartialEq, Eq, Debug)]
pub enum Kind {
    TypeError,
    AttributeError,
    OverflowError,
    ZeroDivisionError,
    ValueError,
    KeyError,
    IndexError,
    StopIteration,
    NotImplementedError,
    NameError,
    RuntimeError,
    RecursionError,
}

/// The kinds with their words.
pub const KINDS: [(Kind, &str); 12] = [
    (Kind::TypeError, "TypeError"),
    (Kind::AttributeError, "AttributeError"),
    (Kind::OverflowError, "OverflowError"),
    (Kind::ZeroDivisionError, "ZeroDivisionError"),
    (Kind::ValueError, "ValueError"),
    (Kind::KeyError, "KeyError"),
    (Kind::IndexError, "IndexError"),
    (Kind::StopIteration, "StopIteration"),
    (Kind::NotImplementedError, "NotImplementedError"),
    (Kind::NameError, "NameError"),
    (Kind::RuntimeError, "RuntimeError"),
    (Kind::RecursionError, "RecursionError"),
];

// The kinds with their words.
fn all_kinds() -> &'static [(Kind, &'static str)]
    ensures words { map (λ r. r.1.now) result.now ≡ kind_words }
    ensures count { length result.now ≡ 12 }
{
    &KINDS
}

impl Kind {
    // Its place among the kinds.
    #[tactic(auto, using(crate::proofs::Faults::kind_below))]
    fn place(self) -> usize
        ensures place { result ≡ kind_place self }
        ensures within { result < 12 }
    {
        self as usize
    }

    /// The word for the kind.
    pub fn word(self) -> &'static str
        ensures { result.now ≡ kind_word self }
    {
        all_kinds()[self.place()].1
    }
}

/// Why a fault was raised.
#[derive(Clone, Copy, PartialEq, Eq, Debug)]
pub enum Cause {
    DuplicateBase,
    LocalPrecedence,
    MroConflict,
    MetaclassConflict,
    NotBaseType,
    LayoutConflict,
    InheritanceCycle,
    ImmutableType,
    EmptyBases,
    LayoutDiffers,
    BasesShape,
    CannotDelete,
    NotAClass,
    NotCallable,
    ArgCount,
    UnexpectedKeyword,
    RepeatedKeyword,
    SelfType,
    TypeArgs,
    TypeArgTypes,
    BasesNotTypes,
    MroEntries,
    NamespaceKey,
    SlotsType,
    QualnameType,
    NameType,
    CannotCreate,
    UnsafeNew,
    NewSubtype,
    AbstractMethods,
    InitNotNone,
    NeedsType,
    MemberClass,
    MemberBool,
    DictType,
    SuperArg,
    SuperNoClass,
    SuperCheckFailed,
    UnsupportedOperand,
    UnsupportedUnary,
    NotConcatenable,
    NotRepeatable,
    ConcatType,
    NotIndex,
    IndexReturn,
    IntReturn,
    TruncReturn,
    NotInt,
    BoolType,
    NotIterable,
    NotIterator,
    NoLength,
    LengthType,
    NotSubscriptable,
    NoItemAssignment,
    NoItemDeletion,
    Unsliceable,
    KeyType,
    ContainsType,
    Unhashable,
    HashType,
    ReprType,
    StrType,
    FormatType,
    FormatSpec,
    ClassArg,
    NonIterableMethod,
    NotMapping,
    NotSequence,
    NoAttribute,
    NoSpecial,
    NoGetter,
    NoSetter,
    NoDeleter,
    EmptyMember,
    NoDict,
    ReadOnly,
    IntRange,
    IndexRange,
    TooLong,
    RepeatTooLong,
    ZeroDivisor,
    NullInName,
    NegativeLength,
    NegativeExponent,
    NegativeShift,
    IntLiteral,
    NotFound,
    MissingKey,
    IndexOut,
    IterEnd,
    ClassDict,
    Unbound,
    NoBody,
    NoArguments,
    SetNameCalled,
    DepthLimit,
    /// Raised by a script itself.
    Body,
}

/// The causes with their words and the kinds of their faults. A script that raises by itself, with
/// the cause `Body`, gives a kind of its own.
pub const CAUSES: [(Cause, &str, Kind); 98] = [
    (Cause::DuplicateBase, "DuplicateBase", Kind::TypeError),
    (Cause::LocalPrecedence, "LocalPrecedence", Kind::TypeError),
    (Cause::MroConflict, "MroConflict", Kind::TypeError),
    (
        Cause::MetaclassConflict,
        "MetaclassConflict",
        Kind::TypeError,
    ),
    (Cause::NotBaseType, "NotBaseType", Kind::TypeError),
    (Cause::LayoutConflict, "LayoutConflict", Kind::TypeError),
    (Cause::InheritanceCycle, "InheritanceCycle", Kind::TypeError),
    (Cause::ImmutableType, "ImmutableType", Kind::TypeError),
    (Cause::EmptyBases, "EmptyBases", Kind::TypeError),
    (Cause::LayoutDiffers, "LayoutDiffers", Kind::TypeError),
    (Cause::BasesShape, "BasesShape", Kind::TypeError),
    (Cause::CannotDelete, "CannotDelete", Kind::TypeError),
    (Cause::NotAClass, "NotAClass", Kind::TypeError),
    (Cause::NotCallable, "NotCallable", Kind::TypeError),
    (Cause::ArgCount, "ArgCount", Kind::TypeError),
    (
        Cause::UnexpectedKeyword,
        "UnexpectedKeyword",
        Kind::TypeError,
    ),
    (Cause::RepeatedKeyword, "RepeatedKeyword", Kind::TypeError),
    (Cause::SelfType, "SelfType", Kind::TypeError),
    (Cause::TypeArgs, "TypeArgs", Kind::TypeError),
    (Cause::TypeArgTypes, "TypeArgTypes", Kind::TypeError),
    (Cause::BasesNotTypes, "BasesNotTypes", Kind::TypeError),
    (Cause::MroEntries, "MroEntries", Kind::TypeError),
    (Cause::NamespaceKey, "NamespaceKey", Kind::TypeError),
    (Cause::SlotsType, "SlotsType", Kind::TypeError),
    (Cause::QualnameType, "QualnameType", Kind::TypeError),
    (Cause::NameType, "NameType", Kind::TypeError),
    (Cause::CannotCreate, "CannotCreate", Kind::TypeError),
    (Cause::UnsafeNew, "UnsafeNew", Kind::TypeError),
    (Cause::NewSubtype, "NewSubtype", Kind::TypeError),
    (Cause::AbstractMethods, "AbstractMethods", Kind::TypeError),
    (Cause::InitNotNone, "InitNotNone", Kind::TypeError),
    (Cause::NeedsType, "NeedsType", Kind::TypeError),
    (Cause::MemberClass, "MemberClass", Kind::TypeError),
    (Cause::MemberBool, "MemberBool", Kind::TypeError),
    (Cause::DictType, "DictType", Kind::TypeError),
    (Cause::SuperArg, "SuperArg", Kind::TypeError),
    (Cause::SuperNoClass, "SuperNoClass", Kind::TypeError),
    (Cause::SuperCheckFailed, "SuperCheckFailed", Kind::TypeError),
    (
        Cause::UnsupportedOperand,
        "UnsupportedOperand",
        Kind::TypeError,
    ),
    (Cause::UnsupportedUnary, "UnsupportedUnary", Kind::TypeError),
    (Cause::NotConcatenable, "NotConcatenable", Kind::TypeError),
    (Cause::NotRepeatable, "NotRepeatable", Kind::TypeError),
    (Cause::ConcatType, "ConcatType", Kind::TypeError),
    (Cause::NotIndex, "NotIndex", Kind::TypeError),
    (Cause::IndexReturn, "IndexReturn", Kind::TypeError),
    (Cause::IntReturn, "IntReturn", Kind::TypeError),
    (Cause::TruncReturn, "TruncReturn", Kind::TypeError),
    (Cause::NotInt, "NotInt", Kind::TypeError),
    (Cause::BoolType, "BoolType", Kind::TypeError),
    (Cause::NotIterable, "NotIterable", Kind::TypeError),
    (Cause::NotIterator, "NotIterator", Kind::TypeError),
    (Cause::NoLength, "NoLength", Kind::TypeError),
    (Cause::LengthType, "LengthType", Kind::TypeError),
    (Cause::NotSubscriptable, "NotSubscriptable", Kind::TypeError),
    (Cause::NoItemAssignment, "NoItemAssignment", Kind::TypeError),
    (Cause::NoItemDeletion, "NoItemDeletion", Kind::TypeError),
    (Cause::Unsliceable, "Unsliceable", Kind::TypeError),
    (Cause::KeyType, "KeyType", Kind::TypeError),
    (Cause::ContainsType, "ContainsType", Kind::TypeError),
    (Cause::Unhashable, "Unhashable", Kind::TypeError),
    (Cause::HashType, "HashType", Kind::TypeError),
    (Cause::ReprType, "ReprType", Kind::TypeError),
    (Cause::StrType, "StrType", Kind::TypeError),
    (Cause::FormatType, "FormatType", Kind::TypeError),
    (Cause::FormatSpec, "FormatSpec", Kind::TypeError),
    (Cause::ClassArg, "ClassArg", Kind::TypeError),
    (
        Cause::NonIterableMethod,
        "NonIterableMethod",
        Kind::TypeError,
    ),
    (Cause::NotMapping, "NotMapping", Kind::TypeError),
    (Cause::NotSequence, "NotSequence", Kind::TypeError),
    (Cause::NoAttribute, "NoAttribute", Kind::AttributeError),
    (Cause::NoSpecial, "NoSpecial", Kind::AttributeError),
    (Cause::NoGetter, "NoGetter", Kind::AttributeError),
    (Cause::NoSetter, "NoSetter", Kind::AttributeError),
    (Cause::NoDeleter, "NoDeleter", Kind::AttributeError),
    (Cause::EmptyMember, "EmptyMember", Kind::AttributeError),
    (Cause::NoDict, "NoDict", Kind::AttributeError),
    (Cause::ReadOnly, "ReadOnly", Kind::AttributeError),
    (Cause::IntRange, "IntRange", Kind::OverflowError),
    (Cause::IndexRange, "IndexRange", Kind::OverflowError),
    (Cause::TooLong, "TooLong", Kind::OverflowError),
    (Cause::RepeatTooLong, "RepeatTooLong", Kind::OverflowError),
    (Cause::ZeroDivisor, "ZeroDivisor", Kind::ZeroDivisionError),
    (Cause::NullInName, "NullInName", Kind::ValueError),
    (Cause::NegativeLength, "NegativeLength", Kind::ValueError),
    (
        Cause::NegativeExponent,
        "NegativeExponent",
        Kind::ValueError,
    ),
    (Cause::NegativeShift, "NegativeShift", Kind::ValueError),
    (Cause::IntLiteral, "IntLiteral", Kind::ValueError),
    (Cause::NotFound, "NotFound", Kind::ValueError),
    (Cause::MissingKey, "MissingKey", Kind::KeyError),
    (Cause::IndexOut, "IndexOut", Kind::IndexError),
    (Cause::IterEnd, "IterEnd", Kind::StopIteration),
    (Cause::ClassDict, "ClassDict", Kind::NotImplementedError),
    (Cause::Unbound, "Unbound", Kind::NameError),
    (Cause::NoBody, "NoBody", Kind::RuntimeError),
    (Cause::NoArguments, "NoArguments", Kind::RuntimeError),
    (Cause::SetNameCalled, "SetNameCalled", Kind::RuntimeError),
    (Cause::DepthLimit, "DepthLimit", Kind::RecursionError),
    (Cause::Body, "Body", Kind::RuntimeError),
];

// The causes with their words and kinds.
fn all_causes() -> &'static [(Cause, &'static str, Kind)]
    ensures rows { map (λ r. (r.1.now, r.2)) result.now ≡ cause_rows }
    ensures count { length result.now ≡ 98 }
{
    &CAUSES
}

impl Cause {
    // Its place among the causes.
    #[tactic(auto, using(crate::proofs::Faults::cause_below))]
    fn place(self) -> usize
        ensures place { result ≡ cause_place self }
        ensures within { result < 98 }
    {
        self as usize
    }

    /// The word for the cause.
    pub fn word(self) -> &'static str
        ensures { result.now ≡ cause_word self }
    {
        all_causes()[self.place()].1
    }

    /// The kind of the faults of this cause. Those of `Body` have any kind.
    pub fn kind(self) -> Kind
        ensures { result ≡ kind_of self }
    {
        all_causes()[self.place()].2
    }
}

/// A fault: its kind and its cause.
#[derive(Clone, Copy, PartialEq, Eq, Debug)]
pub struct Raised {
    pub kind: Kind,
    pub cause: Cause,
}

#[tactic(auto, unfolding(crate::specs::Faults::raised))]
impl Raised {
    /// A fault of a cause, with the kind that such faults have.
    pub fn new(cause: Cause) -> Raised
        ensures { result ≡ raised cause }
    {
        Raised {
            kind: cause.kind(),
            cause,
        }
    }
}
