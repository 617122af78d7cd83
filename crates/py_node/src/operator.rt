//! The binary operators and their slots.

ghost use Rattle.py_node.specs.Below.{length};
ghost use Rattle.std.specs.Prelude.{◌≡◌, ◌<◌};
ghost use Rattle.py_node.specs.Operators.{operators as the_operators, operator_row, is_reflected, is_right};

use crate::entry::SlotId;
use crate::task::PyNumberBinaryOp;

/// The operators in order, each with its slots for the left and for the right operand, and its slot in place, if it
/// has one.
pub const OPERATORS: [(PyNumberBinaryOp, SlotId, SlotId, Option<SlotId>); 13] = [
    (
        PyNumberBinaryOp::Add,
        SlotId::Add,
        SlotId::RightAdd,
        Some(SlotId::InplaceAdd),
    ),
    (
        PyNumberBinaryOp::Subtract,
        SlotId::Subtract,
        SlotId::RightSubtract,
        Some(SlotId::InplaceSubtract),
    ),
    (
        PyNumberBinaryOp::Multiply,
        SlotId::Multiply,
        SlotId::RightMultiply,
        Some(SlotId::InplaceMultiply),
    ),
    (
        PyNumberBinaryOp::Remainder,
        SlotId::Remainder,
        SlotId::RightRemainder,
        Some(SlotId::InplaceRemainder),
    ),
    (
        PyNumberBinaryOp::Divmod,
        SlotId::Divmod,
        SlotId::RightDivmod,
        None,
    ),
    (
        PyNumberBinaryOp::Lshift,
        SlotId::Lshift,
        SlotId::RightLshift,
        Some(SlotId::InplaceLshift),
    ),
    (
        PyNumberBinaryOp::Rshift,
        SlotId::Rshift,
        SlotId::RightRshift,
        Some(SlotId::InplaceRshift),
    ),
    (
        PyNumberBinaryOp::And,
        SlotId::And,
        SlotId::RightAnd,
        Some(SlotId::InplaceAnd),
    ),
    (
        PyNumberBinaryOp::Xor,
        SlotId::Xor,
        SlotId::RightXor,
        Some(SlotId::InplaceXor),
    ),
    (
        PyNumberBinaryOp::Or,
        SlotId::Or,
        SlotId::RightOr,
        Some(SlotId::InplaceOr),
    ),
    (
        PyNumberBinaryOp::FloorDivide,
        SlotId::FloorDivide,
        SlotId::RightFloorDivide,
        Some(SlotId::InplaceFloorDivide),
    ),
    (
        PyNumberBinaryOp::TrueDivide,
        SlotId::TrueDivide,
        SlotId::RightTrueDivide,
        Some(SlotId::InplaceTrueDivide),
    ),
    (
        PyNumberBinaryOp::MatrixMultiply,
        SlotId::MatrixMultiply,
        SlotId::RightMatrixMultiply,
        Some(SlotId::InplaceMatrixMultiply),
    ),
];

/// All operators in order, with their slots.
#[tactic(auto, unfolding(crate::specs::Operators::operators))]
pub fn operators() -> &'static [(PyNumberBinaryOp, SlotId, SlotId, Option<SlotId>)]
    ensures rows { result.now ≡ the_operators }
    ensures count { length result.now ≡ 13 }
{
    &OPERATORS
}

#[tactic(auto, using(crate::proofs::Operators::below), unfolding(crate::specs::Operators::operator_row))]
impl PyNumberBinaryOp {
    /// The operator's slot for its left operand.
    pub fn left_slot(self) -> SlotId
        ensures { result ≡ (operator_row self).1 }
    {
        operators()[self as usize].1
    }

    /// The operator's slot for its right operand.
    pub fn right_slot(self) -> SlotId
        ensures { result ≡ (operator_row self).2 }
    {
        operators()[self as usize].2
    }

    /// The operator's slot in place, if it has one.
    pub fn inplace_slot(self) -> Option<SlotId>
        ensures { result ≡ (operator_row self).3 }
    {
        operators()[self as usize].3
    }
}

impl SlotId {
    // Whether the slot is that of an operator for its right operand.
    #[tactic(auto, unfolding(crate::specs::Operators::is_right))]
    fn is_right(self) -> bool
        ensures { result ≡ is_right self }
    {
        operators().iter().any(|row| row.2 == self)
    }

    /// Whether the slot is that of an operator, or of a power, for its right operand.
    #[tactic(auto, unfolding(crate::specs::Operators::is_reflected))]
    pub fn is_reflected(self) -> bool
        ensures { result ≡ is_reflected self }
    {
        self == SlotId::RightPower || self.is_right()
    }
}
