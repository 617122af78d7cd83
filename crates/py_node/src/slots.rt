//! The slots: their printed names, how they are read, and the special names that fill them.

ghost use Rattle.py_node.specs.Below.{Some, map, length, slice_get};
ghost use Rattle.std.specs.Prelude.{◌≡◌, ◌<◌};
ghost use Rattle.py_node.specs.Slots.{all_slots, slot_texts, slot_sorts, number_names, other_names, slot_fillings, slot_count, place_of, printed_name, sort_of, names_of, filling_of};

use crate::entry::SlotId;
use crate::known::Known;
use Filling::{Number, Sequence};

/// How a slot is read along a linearisation.
#[derive(Clone, Copy, PartialEq, Eq)]
pub enum Sort {
    /// From the class itself.
    ByItself,
    /// From the nearest class that has any slot of a sequence.
    BySequence,
    /// From the nearest class that has any slot of a mapping.
    ByMapping,
    /// From the nearest class that has it.
    Nearest,
}

/// By which of its own attributes a built-in class fills a slot.
#[derive(Clone, Copy, PartialEq, Eq)]
pub enum Filling {
    /// By those with a special name of the slot.
    BySpecial,
    /// By those with a special name of the slot, but `dict` doesn't.
    NotDict,
    /// By the one of that name; only `int` and `bool` do.
    Number(Known),
    /// By the one of that name; only `str`, `tuple` and `list` do.
    Sequence(Known),
}

/// The slots in order, each with its printed name and how it is read.
pub const SLOTS: [(SlotId, &str, Sort); 73] = [
    (SlotId::Add, "add", Sort::ByItself),
    (SlotId::RightAdd, "right_add", Sort::ByItself),
    (SlotId::InplaceAdd, "inplace_add", Sort::ByItself),
    (SlotId::Subtract, "subtract", Sort::ByItself),
    (SlotId::RightSubtract, "right_subtract", Sort::ByItself),
    (SlotId::InplaceSubtract, "inplace_subtract", Sort::ByItself),
    (SlotId::Multiply, "multiply", Sort::ByItself),
    (SlotId::RightMultiply, "right_multiply", Sort::ByItself),
    (SlotId::InplaceMultiply, "inplace_multiply", Sort::ByItself),
    (SlotId::Remainder, "remainder", Sort::ByItself),
    (SlotId::RightRemainder, "right_remainder", Sort::ByItself),
    (
        SlotId::InplaceRemainder,
        "inplace_remainder",
        Sort::ByItself,
    ),
    (SlotId::Divmod, "divmod", Sort::ByItself),
    (SlotId::RightDivmod, "right_divmod", Sort::ByItself),
    (SlotId::Power, "power", Sort::ByItself),
    (SlotId::RightPower, "right_power", Sort::ByItself),
    (SlotId::InplacePower, "inplace_power", Sort::ByItself),
    (SlotId::Lshift, "lshift", Sort::ByItself),
    (SlotId::RightLshift, "right_lshift", Sort::ByItself),
    (SlotId::InplaceLshift, "inplace_lshift", Sort::ByItself),
    (SlotId::Rshift, "rshift", Sort::ByItself),
    (SlotId::RightRshift, "right_rshift", Sort::ByItself),
    (SlotId::InplaceRshift, "inplace_rshift", Sort::ByItself),
    (SlotId::And, "and", Sort::ByItself),
    (SlotId::RightAnd, "right_and", Sort::ByItself),
    (SlotId::InplaceAnd, "inplace_and", Sort::ByItself),
    (SlotId::Xor, "xor", Sort::ByItself),
    (SlotId::RightXor, "right_xor", Sort::ByItself),
    (SlotId::InplaceXor, "inplace_xor", Sort::ByItself),
    (SlotId::Or, "or", Sort::ByItself),
    (SlotId::RightOr, "right_or", Sort::ByItself),
    (SlotId::InplaceOr, "inplace_or", Sort::ByItself),
    (SlotId::FloorDivide, "floor_divide", Sort::ByItself),
    (
        SlotId::RightFloorDivide,
        "right_floor_divide",
        Sort::ByItself,
    ),
    (
        SlotId::InplaceFloorDivide,
        "inplace_floor_divide",
        Sort::ByItself,
    ),
    (SlotId::TrueDivide, "true_divide", Sort::ByItself),
    (SlotId::RightTrueDivide, "right_true_divide", Sort::ByItself),
    (
        SlotId::InplaceTrueDivide,
        "inplace_true_divide",
        Sort::ByItself,
    ),
    (SlotId::MatrixMultiply, "matrix_multiply", Sort::ByItself),
    (
        SlotId::RightMatrixMultiply,
        "right_matrix_multiply",
        Sort::ByItself,
    ),
    (
        SlotId::InplaceMatrixMultiply,
        "inplace_matrix_multiply",
        Sort::ByItself,
    ),
    (SlotId::Int, "int", Sort::ByItself),
    (SlotId::Index, "index", Sort::ByItself),
    (SlotId::Float, "float", Sort::ByItself),
    (SlotId::Negative, "negative", Sort::ByItself),
    (SlotId::Positive, "positive", Sort::ByItself),
    (SlotId::Absolute, "absolute", Sort::ByItself),
    (SlotId::Invert, "invert", Sort::ByItself),
    (SlotId::Boolean, "boolean", Sort::ByItself),
    (SlotId::SeqLength, "seq_length", Sort::BySequence),
    (SlotId::SeqItem, "seq_item", Sort::BySequence),
    (SlotId::SeqAssItem, "seq_ass_item", Sort::BySequence),
    (SlotId::SeqContains, "seq_contains", Sort::BySequence),
    (SlotId::Concat, "concat", Sort::BySequence),
    (SlotId::Repeat, "repeat", Sort::BySequence),
    (SlotId::InplaceConcat, "inplace_concat", Sort::BySequence),
    (SlotId::InplaceRepeat, "inplace_repeat", Sort::BySequence),
    (SlotId::MapLength, "map_length", Sort::ByMapping),
    (SlotId::MapSubscript, "map_subscript", Sort::ByMapping),
    (
        SlotId::MapAssSubscript,
        "map_ass_subscript",
        Sort::ByMapping,
    ),
    (SlotId::Hash, "hash", Sort::Nearest),
    (SlotId::Call, "call", Sort::Nearest),
    (SlotId::Repr, "repr", Sort::ByItself),
    (SlotId::Getattro, "getattro", Sort::Nearest),
    (SlotId::Setattro, "setattro", Sort::Nearest),
    (SlotId::Richcompare, "richcompare", Sort::Nearest),
    (SlotId::Iter, "iter", Sort::Nearest),
    (SlotId::Iternext, "iternext", Sort::Nearest),
    (SlotId::DescrGet, "descr_get", Sort::Nearest),
    (SlotId::DescrSet, "descr_set", Sort::Nearest),
    (SlotId::Init, "init", Sort::Nearest),
    (SlotId::New, "new", Sort::Nearest),
    (SlotId::Del, "del", Sort::Nearest),
];

/// The slots of numbers in order, each with the special names that fill it in a class that a script makes. The two parts of
/// the table are constants of their own, since Rattle's own compiler builds none of more than 62 parts.
pub const NUMBER_SPECIAL: [(SlotId, &[Known]); 49] = [
    (SlotId::Add, &[Known::Add]),
    (SlotId::RightAdd, &[Known::RightAdd]),
    (SlotId::InplaceAdd, &[Known::InplaceAdd]),
    (SlotId::Subtract, &[Known::Sub]),
    (SlotId::RightSubtract, &[Known::RightSub]),
    (SlotId::InplaceSubtract, &[Known::InplaceSub]),
    (SlotId::Multiply, &[Known::Mul]),
    (SlotId::RightMultiply, &[Known::RightMul]),
    (SlotId::InplaceMultiply, &[Known::InplaceMul]),
    (SlotId::Remainder, &[Known::Mod]),
    (SlotId::RightRemainder, &[Known::RightMod]),
    (SlotId::InplaceRemainder, &[Known::InplaceMod]),
    (SlotId::Divmod, &[Known::Divmod]),
    (SlotId::RightDivmod, &[Known::RightDivmod]),
    (SlotId::Power, &[Known::Pow]),
    (SlotId::RightPower, &[Known::RightPow]),
    (SlotId::InplacePower, &[Known::InplacePow]),
    (SlotId::Lshift, &[Known::Lshift]),
    (SlotId::RightLshift, &[Known::RightLshift]),
    (SlotId::InplaceLshift, &[Known::InplaceLshift]),
    (SlotId::Rshift, &[Known::Rshift]),
    (SlotId::RightRshift, &[Known::RightRshift]),
    (SlotId::InplaceRshift, &[Known::InplaceRshift]),
    (SlotId::And, &[Known::And]),
    (SlotId::RightAnd, &[Known::RightAnd]),
    (SlotId::InplaceAnd, &[Known::InplaceAnd]),
    (SlotId::Xor, &[Known::Xor]),
    (SlotId::RightXor, &[Known::RightXor]),
    (SlotId::InplaceXor, &[Known::InplaceXor]),
    (SlotId::Or, &[Known::Or]),
    (SlotId::RightOr, &[Known::RightOr]),
    (SlotId::InplaceOr, &[Known::InplaceOr]),
    (SlotId::FloorDivide, &[Known::Floordiv]),
    (SlotId::RightFloorDivide, &[Known::RightFloordiv]),
    (SlotId::InplaceFloorDivide, &[Known::InplaceFloordiv]),
    (SlotId::TrueDivide, &[Known::Truediv]),
    (SlotId::RightTrueDivide, &[Known::RightTruediv]),
    (SlotId::InplaceTrueDivide, &[Known::InplaceTruediv]),
    (SlotId::MatrixMultiply, &[Known::Matmul]),
    (SlotId::RightMatrixMultiply, &[Known::RightMatmul]),
    (SlotId::InplaceMatrixMultiply, &[Known::InplaceMatmul]),
    (SlotId::Int, &[Known::Int]),
    (SlotId::Index, &[Known::Index]),
    (SlotId::Float, &[Known::Float]),
    (SlotId::Negative, &[]),
    (SlotId::Positive, &[]),
    (SlotId::Absolute, &[]),
    (SlotId::Invert, &[]),
    (SlotId::Boolean, &[]),
];

/// The other slots in order, each with the special names that fill it in a class that a script makes.
pub const OTHER_SPECIAL: [(SlotId, &[Known]); 24] = [
    (SlotId::SeqLength, &[Known::Len]),
    (SlotId::SeqItem, &[Known::GetItem]),
    (SlotId::SeqAssItem, &[Known::SetItem, Known::DelItem]),
    (SlotId::SeqContains, &[Known::Contains]),
    (SlotId::Concat, &[]),
    (SlotId::Repeat, &[]),
    (SlotId::InplaceConcat, &[]),
    (SlotId::InplaceRepeat, &[]),
    (SlotId::MapLength, &[Known::Len]),
    (SlotId::MapSubscript, &[Known::GetItem]),
    (SlotId::MapAssSubscript, &[Known::SetItem, Known::DelItem]),
    (SlotId::Hash, &[Known::Hash]),
    (SlotId::Call, &[Known::Call]),
    (SlotId::Repr, &[Known::Repr]),
    (SlotId::Getattro, &[Known::GetAttr, Known::GetAttribute]),
    (SlotId::Setattro, &[Known::SetAttr, Known::DelAttr]),
    (
        SlotId::Richcompare,
        &[
            Known::Eq,
            Known::Ne,
            Known::Lt,
            Known::Le,
            Known::Ge,
            Known::Gt,
        ],
    ),
    (SlotId::Iter, &[Known::Iter]),
    (SlotId::Iternext, &[Known::Next]),
    (SlotId::DescrGet, &[Known::Get]),
    (SlotId::DescrSet, &[Known::Set, Known::Delete]),
    (SlotId::Init, &[Known::Init]),
    (SlotId::New, &[Known::New]),
    (SlotId::Del, &[Known::Del]),
];

/// The slots in order, each with the own attributes by which a built-in class fills it. The binary operators of numbers
/// fill the left and the right slot alike.
pub const FILLINGS: [(SlotId, Filling); 73] = [
    (SlotId::Add, Number(Known::Add)),
    (SlotId::RightAdd, Number(Known::Add)),
    (SlotId::InplaceAdd, Number(Known::InplaceAdd)),
    (SlotId::Subtract, Number(Known::Sub)),
    (SlotId::RightSubtract, Number(Known::Sub)),
    (SlotId::InplaceSubtract, Number(Known::InplaceSub)),
    (SlotId::Multiply, Number(Known::Mul)),
    (SlotId::RightMultiply, Number(Known::Mul)),
    (SlotId::InplaceMultiply, Number(Known::InplaceMul)),
    (SlotId::Remainder, Number(Known::Mod)),
    (SlotId::RightRemainder, Number(Known::Mod)),
    (SlotId::InplaceRemainder, Number(Known::InplaceMod)),
    (SlotId::Divmod, Number(Known::Divmod)),
    (SlotId::RightDivmod, Number(Known::Divmod)),
    (SlotId::Power, Number(Known::Pow)),
    (SlotId::RightPower, Number(Known::Pow)),
    (SlotId::InplacePower, Number(Known::InplacePow)),
    (SlotId::Lshift, Number(Known::Lshift)),
    (SlotId::RightLshift, Number(Known::Lshift)),
    (SlotId::InplaceLshift, Number(Known::InplaceLshift)),
    (SlotId::Rshift, Number(Known::Rshift)),
    (SlotId::RightRshift, Number(Known::Rshift)),
    (SlotId::InplaceRshift, Number(Known::InplaceRshift)),
    (SlotId::And, Number(Known::And)),
    (SlotId::RightAnd, Number(Known::And)),
    (SlotId::InplaceAnd, Number(Known::InplaceAnd)),
    (SlotId::Xor, Number(Known::Xor)),
    (SlotId::RightXor, Number(Known::Xor)),
    (SlotId::InplaceXor, Number(Known::InplaceXor)),
    (SlotId::Or, Number(Known::Or)),
    (SlotId::RightOr, Number(Known::Or)),
    (SlotId::InplaceOr, Number(Known::InplaceOr)),
    (SlotId::FloorDivide, Number(Known::Floordiv)),
    (SlotId::RightFloorDivide, Number(Known::Floordiv)),
    (SlotId::InplaceFloorDivide, Number(Known::InplaceFloordiv)),
    (SlotId::TrueDivide, Number(Known::Truediv)),
    (SlotId::RightTrueDivide, Number(Known::Truediv)),
    (SlotId::InplaceTrueDivide, Number(Known::InplaceTruediv)),
    (SlotId::MatrixMultiply, Number(Known::Matmul)),
    (SlotId::RightMatrixMultiply, Number(Known::Matmul)),
    (SlotId::InplaceMatrixMultiply, Number(Known::InplaceMatmul)),
    (SlotId::Int, Filling::BySpecial),
    (SlotId::Index, Filling::BySpecial),
    (SlotId::Float, Filling::BySpecial),
    (SlotId::Negative, Number(Known::Neg)),
    (SlotId::Positive, Number(Known::Pos)),
    (SlotId::Absolute, Number(Known::Abs)),
    (SlotId::Invert, Number(Known::Invert)),
    (SlotId::Boolean, Number(Known::Bool)),
    (SlotId::SeqLength, Filling::NotDict),
    (SlotId::SeqItem, Filling::NotDict),
    (SlotId::SeqAssItem, Filling::NotDict),
    (SlotId::SeqContains, Filling::BySpecial),
    (SlotId::Concat, Sequence(Known::Add)),
    (SlotId::Repeat, Sequence(Known::Mul)),
    (SlotId::InplaceConcat, Sequence(Known::InplaceAdd)),
    (SlotId::InplaceRepeat, Sequence(Known::InplaceMul)),
    (SlotId::MapLength, Filling::BySpecial),
    (SlotId::MapSubscript, Filling::BySpecial),
    (SlotId::MapAssSubscript, Filling::BySpecial),
    (SlotId::Hash, Filling::BySpecial),
    (SlotId::Call, Filling::BySpecial),
    (SlotId::Repr, Filling::BySpecial),
    (SlotId::Getattro, Filling::BySpecial),
    (SlotId::Setattro, Filling::BySpecial),
    (SlotId::Richcompare, Filling::BySpecial),
    (SlotId::Iter, Filling::BySpecial),
    (SlotId::Iternext, Filling::BySpecial),
    (SlotId::DescrGet, Filling::BySpecial),
    (SlotId::DescrSet, Filling::BySpecial),
    (SlotId::Init, Filling::BySpecial),
    (SlotId::New, Filling::BySpecial),
    (SlotId::Del, Filling::BySpecial),
];

/// All slots in order, each with its printed name and how it is read.
#[tactic(auto, unfolding(crate::specs::Slots::all_slots, crate::specs::Slots::slot_texts, crate::specs::Slots::slot_sorts))]
pub fn slots() -> &'static [(SlotId, &'static str, Sort)]
    ensures slots { map (λ r. r.0) result.now ≡ all_slots }
    ensures texts { map (λ r. r.1.now) result.now ≡ slot_texts }
    ensures sorts { map (λ r. r.2) result.now ≡ slot_sorts }
    ensures count { length result.now ≡ slot_count }
{
    &SLOTS
}

// The slots of numbers in order, each with its special names.
#[tactic(auto, unfolding(crate::specs::Slots::number_names))]
fn number_special() -> &'static [(SlotId, &'static [Known])]
    ensures names { map (λ r. r.1.now) result.now ≡ number_names }
    ensures count { length result.now ≡ 49 }
{
    &NUMBER_SPECIAL
}

// The other slots in order, each with its special names.
#[tactic(auto, unfolding(crate::specs::Slots::other_names))]
fn other_special() -> &'static [(SlotId, &'static [Known])]
    ensures names { map (λ r. r.1.now) result.now ≡ other_names }
    ensures count { length result.now ≡ 24 }
{
    &OTHER_SPECIAL
}

// All slots in order, each with the own attributes by which a built-in class fills it.
#[tactic(auto, unfolding(crate::specs::Slots::slot_fillings))]
fn fillings() -> &'static [(SlotId, Filling)]
    ensures fillings { map (λ r. r.1) result.now ≡ slot_fillings }
    ensures count { length result.now ≡ slot_count }
{
    &FILLINGS
}

impl SlotId {
    /// The slot at a place.
    pub fn at(place: usize) -> SlotId
        requires { place < slot_count }
        ensures { slice_get all_slots place ≡ Some result }
    {
        slots()[place].0
    }

    /// The slot's place in the order.
    #[tactic(auto, using(crate::proofs::SlotTables::below), unfolding(crate::specs::Slots::place_of))]
    pub fn place(self) -> usize
        ensures value { result ≡ place_of self }
        ensures within { result < slot_count }
    {
        self as usize
    }

    /// The slot's name, as it is printed.
    #[tactic(auto, unfolding(crate::specs::Slots::printed_name))]
    pub fn name(self) -> &'static str
        ensures { result.now ≡ printed_name self }
    {
        slots()[self.place()].1
    }

    /// How the slot is read.
    #[tactic(auto, unfolding(crate::specs::Slots::sort_of))]
    pub fn sort(self) -> Sort
        ensures { result ≡ sort_of self }
    {
        slots()[self.place()].2
    }

    /// The special names that fill the slot in a class that a script makes.
    pub fn special_names(self) -> &'static [Known]
        ensures { result.now ≡ names_of self }
    {
        let (place, numbers) = (self.place(), number_special());
        if place < numbers.len() {
            numbers[place].1
        } else {
            other_special()[place - numbers.len()].1
        }
    }

    /// By which of its own attributes a built-in class fills the slot.
    #[tactic(auto, unfolding(crate::specs::Slots::filling_of))]
    pub fn filling(self) -> Filling
        ensures { result ≡ filling_of self }
    {
        fillings()[self.place()].1
    }
}
