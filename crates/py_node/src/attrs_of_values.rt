//! The own attributes of the built-in classes whose objects are values, in order: `__new__`, the methods, and that there
//! is no hash.

use crate::attr::Attr::{Method, New, NoHash};
use crate::attr::OwnAttr;
use crate::built_in::BuiltIn;
use crate::entry::CompareNative::{Eq, Ge, Gt, Le, Lt, Ne};
use crate::entry::NativeEntry::{
    Compare, OfArithmetic, OfBits, OfDict, OfFixed, OfInt, OfList, OfNumber, OfStr, OfTuple,
};
use crate::entry::{
    ArithmeticNative, BitNative, DictNative, FixedNative, IntNative, ListNative, NumberNative,
    StrNative, TupleNative,
};
use crate::known::Known;

/// Those of `NoneType`.
pub const NONE_TYPE: [OwnAttr; 3] = [
    (Known::New, New),
    (Known::Repr, Method(OfFixed(FixedNative::NoneRepr))),
    (Known::Bool, Method(OfFixed(FixedNative::NoneBoolean))),
];

/// Those of `NotImplementedType`.
pub const NOT_IMPLEMENTED_TYPE: [OwnAttr; 2] = [
    (Known::New, New),
    (
        Known::Repr,
        Method(OfFixed(FixedNative::NotImplementedRepr)),
    ),
];

/// Those of `int`.
pub const INT: [OwnAttr; 41] = [
    (Known::New, New),
    (Known::Repr, Method(OfNumber(NumberNative::Repr))),
    (Known::Hash, Method(OfNumber(NumberNative::Hash))),
    (Known::Eq, Method(Compare(BuiltIn::Int, Eq))),
    (Known::Ne, Method(Compare(BuiltIn::Int, Ne))),
    (Known::Lt, Method(Compare(BuiltIn::Int, Lt))),
    (Known::Le, Method(Compare(BuiltIn::Int, Le))),
    (Known::Ge, Method(Compare(BuiltIn::Int, Ge))),
    (Known::Gt, Method(Compare(BuiltIn::Int, Gt))),
    (Known::Add, Method(OfInt(IntNative::Add))),
    (Known::RightAdd, Method(OfInt(IntNative::RightAdd))),
    (Known::Sub, Method(OfArithmetic(ArithmeticNative::Subtract))),
    (
        Known::RightSub,
        Method(OfArithmetic(ArithmeticNative::RightSubtract)),
    ),
    (Known::Mul, Method(OfArithmetic(ArithmeticNative::Multiply))),
    (
        Known::RightMul,
        Method(OfArithmetic(ArithmeticNative::RightMultiply)),
    ),
    (
        Known::Mod,
        Method(OfArithmetic(ArithmeticNative::Remainder)),
    ),
    (
        Known::RightMod,
        Method(OfArithmetic(ArithmeticNative::RightRemainder)),
    ),
    (
        Known::Divmod,
        Method(OfArithmetic(ArithmeticNative::Divmod)),
    ),
    (
        Known::RightDivmod,
        Method(OfArithmetic(ArithmeticNative::RightDivmod)),
    ),
    (Known::Pow, Method(OfArithmetic(ArithmeticNative::Power))),
    (
        Known::RightPow,
        Method(OfArithmetic(ArithmeticNative::RightPower)),
    ),
    (Known::Lshift, Method(OfBits(BitNative::Lshift))),
    (Known::RightLshift, Method(OfBits(BitNative::RightLshift))),
    (Known::Rshift, Method(OfBits(BitNative::Rshift))),
    (Known::RightRshift, Method(OfBits(BitNative::RightRshift))),
    (Known::And, Method(OfBits(BitNative::And))),
    (Known::RightAnd, Method(OfBits(BitNative::RightAnd))),
    (Known::Xor, Method(OfBits(BitNative::Xor))),
    (Known::RightXor, Method(OfBits(BitNative::RightXor))),
    (Known::Or, Method(OfBits(BitNative::Or))),
    (Known::RightOr, Method(OfBits(BitNative::RightOr))),
    (
        Known::Floordiv,
        Method(OfArithmetic(ArithmeticNative::FloorDivide)),
    ),
    (
        Known::RightFloordiv,
        Method(OfArithmetic(ArithmeticNative::RightFloorDivide)),
    ),
    (Known::Neg, Method(OfNumber(NumberNative::Negative))),
    (Known::Pos, Method(OfNumber(NumberNative::Positive))),
    (Known::Abs, Method(OfNumber(NumberNative::Absolute))),
    (Known::Invert, Method(OfNumber(NumberNative::Invert))),
    (Known::Bool, Method(OfNumber(NumberNative::Boolean))),
    (Known::Int, Method(OfNumber(NumberNative::Int))),
    (Known::Index, Method(OfNumber(NumberNative::Index))),
    (Known::Trunc, Method(OfNumber(NumberNative::Truncate))),
];

/// Those of `bool`.
pub const BOOL: [OwnAttr; 8] = [
    (Known::New, New),
    (Known::Repr, Method(OfNumber(NumberNative::BooleanRepr))),
    (Known::And, Method(OfBits(BitNative::BooleanAnd))),
    (Known::RightAnd, Method(OfBits(BitNative::RightBooleanAnd))),
    (Known::Or, Method(OfBits(BitNative::BooleanOr))),
    (Known::RightOr, Method(OfBits(BitNative::RightBooleanOr))),
    (Known::Xor, Method(OfBits(BitNative::BooleanXor))),
    (Known::RightXor, Method(OfBits(BitNative::RightBooleanXor))),
];

/// Those of `str`.
pub const STR: [OwnAttr; 18] = [
    (Known::New, New),
    (Known::Repr, Method(OfStr(StrNative::Repr))),
    (Known::Str, Method(OfStr(StrNative::Str))),
    (Known::Hash, Method(OfStr(StrNative::Hash))),
    (Known::Eq, Method(Compare(BuiltIn::Str, Eq))),
    (Known::Ne, Method(Compare(BuiltIn::Str, Ne))),
    (Known::Lt, Method(Compare(BuiltIn::Str, Lt))),
    (Known::Le, Method(Compare(BuiltIn::Str, Le))),
    (Known::Ge, Method(Compare(BuiltIn::Str, Ge))),
    (Known::Gt, Method(Compare(BuiltIn::Str, Gt))),
    (Known::Len, Method(OfStr(StrNative::Length))),
    (Known::GetItem, Method(OfStr(StrNative::GetItem))),
    (Known::Contains, Method(OfStr(StrNative::Contains))),
    (Known::Iter, Method(OfStr(StrNative::Iter))),
    (Known::Add, Method(OfStr(StrNative::Add))),
    (Known::Mul, Method(OfStr(StrNative::Multiply))),
    (Known::RightMul, Method(OfStr(StrNative::RightMultiply))),
    (Known::Upper, Method(OfStr(StrNative::Upper))),
];

/// Those of `tuple`.
pub const TUPLE: [OwnAttr; 16] = [
    (Known::New, New),
    (Known::Repr, Method(OfTuple(TupleNative::Repr))),
    (Known::Hash, Method(OfTuple(TupleNative::Hash))),
    (Known::Eq, Method(Compare(BuiltIn::Tuple, Eq))),
    (Known::Ne, Method(Compare(BuiltIn::Tuple, Ne))),
    (Known::Lt, Method(Compare(BuiltIn::Tuple, Lt))),
    (Known::Le, Method(Compare(BuiltIn::Tuple, Le))),
    (Known::Ge, Method(Compare(BuiltIn::Tuple, Ge))),
    (Known::Gt, Method(Compare(BuiltIn::Tuple, Gt))),
    (Known::Len, Method(OfTuple(TupleNative::Length))),
    (Known::GetItem, Method(OfTuple(TupleNative::GetItem))),
    (Known::Contains, Method(OfTuple(TupleNative::Contains))),
    (Known::Iter, Method(OfTuple(TupleNative::Iter))),
    (Known::Add, Method(OfTuple(TupleNative::Add))),
    (Known::Mul, Method(OfTuple(TupleNative::Multiply))),
    (Known::RightMul, Method(OfTuple(TupleNative::RightMultiply))),
];

/// Those of `list`.
pub const LIST: [OwnAttr; 22] = [
    (Known::New, New),
    (Known::Init, Method(OfList(ListNative::Init))),
    (Known::Repr, Method(OfList(ListNative::Repr))),
    (Known::Eq, Method(Compare(BuiltIn::List, Eq))),
    (Known::Ne, Method(Compare(BuiltIn::List, Ne))),
    (Known::Lt, Method(Compare(BuiltIn::List, Lt))),
    (Known::Le, Method(Compare(BuiltIn::List, Le))),
    (Known::Ge, Method(Compare(BuiltIn::List, Ge))),
    (Known::Gt, Method(Compare(BuiltIn::List, Gt))),
    (Known::Len, Method(OfList(ListNative::Length))),
    (Known::GetItem, Method(OfList(ListNative::GetItem))),
    (Known::SetItem, Method(OfList(ListNative::SetItem))),
    (Known::DelItem, Method(OfList(ListNative::DelItem))),
    (Known::Contains, Method(OfList(ListNative::Contains))),
    (Known::Iter, Method(OfList(ListNative::Iter))),
    (Known::Add, Method(OfList(ListNative::Add))),
    (Known::Mul, Method(OfList(ListNative::Multiply))),
    (Known::RightMul, Method(OfList(ListNative::RightMultiply))),
    (Known::InplaceAdd, Method(OfList(ListNative::InplaceAdd))),
    (
        Known::InplaceMul,
        Method(OfList(ListNative::InplaceMultiply)),
    ),
    (Known::Append, Method(OfList(ListNative::Append))),
    (Known::Hash, NoHash),
];

/// Those of `dict`.
pub const DICT: [OwnAttr; 21] = [
    (Known::New, New),
    (Known::Init, Method(OfDict(DictNative::Init))),
    (Known::Repr, Method(OfDict(DictNative::Repr))),
    (Known::Eq, Method(Compare(BuiltIn::Dict, Eq))),
    (Known::Ne, Method(Compare(BuiltIn::Dict, Ne))),
    (Known::Lt, Method(Compare(BuiltIn::Dict, Lt))),
    (Known::Le, Method(Compare(BuiltIn::Dict, Le))),
    (Known::Ge, Method(Compare(BuiltIn::Dict, Ge))),
    (Known::Gt, Method(Compare(BuiltIn::Dict, Gt))),
    (Known::Len, Method(OfDict(DictNative::Length))),
    (Known::GetItem, Method(OfDict(DictNative::GetItem))),
    (Known::SetItem, Method(OfDict(DictNative::SetItem))),
    (Known::DelItem, Method(OfDict(DictNative::DelItem))),
    (Known::Contains, Method(OfDict(DictNative::Contains))),
    (Known::Iter, Method(OfDict(DictNative::Iter))),
    (Known::Keys, Method(OfDict(DictNative::Keys))),
    (Known::Values, Method(OfDict(DictNative::Values))),
    (Known::Items, Method(OfDict(DictNative::Items))),
    (Known::GetWord, Method(OfDict(DictNative::Get))),
    (Known::Update, Method(OfDict(DictNative::Update))),
    (Known::Hash, NoHash),
];
