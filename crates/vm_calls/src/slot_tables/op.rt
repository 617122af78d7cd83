//! The operators of two and of three operands by which tables of number slots are asked, in place or not.

ghost use Rattle.std.specs.Prelude.{◌≡◌};
ghost use Rattle.vm_calls.specs.SlotTables.Numbers.{operator_of, is_in_place, left_slot_of, right_slot_of, left_power, right_power};

use py_node::{PyNumberBinaryOp as Operator, SlotId};

/// A binary operator of numbers, by itself or in place.
#[derive(Clone, Copy, PartialEq, Eq)]
pub enum PyNumberBinaryOp {
    Add,
    Subtract,
    Multiply,
    Remainder,
    Divmod,
    Lshift,
    Rshift,
    And,
    Xor,
    Or,
    InplaceAdd,
    InplaceSubtract,
    InplaceMultiply,
    InplaceRemainder,
    InplaceLshift,
    InplaceRshift,
    InplaceAnd,
    InplaceXor,
    InplaceOr,
    FloorDivide,
    TrueDivide,
    InplaceFloorDivide,
    InplaceTrueDivide,
    MatrixMultiply,
    InplaceMatrixMultiply,
}

/// An operator of numbers with three operands, by itself or in place.
#[derive(Clone, Copy, PartialEq, Eq)]
pub enum PyNumberTernaryOp {
    Power,
    InplacePower,
}

#[tactic(auto, unfolding(crate::specs::SlotTables::Numbers::operator_of, crate::specs::SlotTables::Numbers::is_in_place))]
impl PyNumberBinaryOp {
    /// The operator, whether it is in place or not.
    pub fn operator(self) -> Operator
        ensures { result ≡ operator_of self }
    {
        match self {
            PyNumberBinaryOp::Add | PyNumberBinaryOp::InplaceAdd => Operator::Add,
            PyNumberBinaryOp::Subtract | PyNumberBinaryOp::InplaceSubtract => Operator::Subtract,
            PyNumberBinaryOp::Multiply | PyNumberBinaryOp::InplaceMultiply => Operator::Multiply,
            PyNumberBinaryOp::Remainder | PyNumberBinaryOp::InplaceRemainder => Operator::Remainder,
            PyNumberBinaryOp::Divmod => Operator::Divmod,
            PyNumberBinaryOp::Lshift | PyNumberBinaryOp::InplaceLshift => Operator::Lshift,
            PyNumberBinaryOp::Rshift | PyNumberBinaryOp::InplaceRshift => Operator::Rshift,
            PyNumberBinaryOp::And | PyNumberBinaryOp::InplaceAnd => Operator::And,
            PyNumberBinaryOp::Xor | PyNumberBinaryOp::InplaceXor => Operator::Xor,
            PyNumberBinaryOp::Or | PyNumberBinaryOp::InplaceOr => Operator::Or,
            PyNumberBinaryOp::FloorDivide | PyNumberBinaryOp::InplaceFloorDivide =>
                Operator::FloorDivide,
            PyNumberBinaryOp::TrueDivide | PyNumberBinaryOp::InplaceTrueDivide =>
                Operator::TrueDivide,
            PyNumberBinaryOp::MatrixMultiply | PyNumberBinaryOp::InplaceMatrixMultiply =>
                Operator::MatrixMultiply,
        }
    }

    /// Whether the operator changes its left operand in place.
    pub fn is_in_place(self) -> bool
        ensures { result ≡ is_in_place self }
    {
        match self {
            PyNumberBinaryOp::Add
            | PyNumberBinaryOp::Subtract
            | PyNumberBinaryOp::Multiply
            | PyNumberBinaryOp::Remainder
            | PyNumberBinaryOp::Divmod
            | PyNumberBinaryOp::Lshift
            | PyNumberBinaryOp::Rshift
            | PyNumberBinaryOp::And
            | PyNumberBinaryOp::Xor
            | PyNumberBinaryOp::Or
            | PyNumberBinaryOp::FloorDivide
            | PyNumberBinaryOp::TrueDivide
            | PyNumberBinaryOp::MatrixMultiply => false,
            _ => true,
        }
    }

    /// The slot of the operator that the left operand's class has.
    pub fn left_slot(self) -> Option<SlotId>
        ensures { result ≡ left_slot_of self }
    {
        if self.is_in_place() {
            self.operator().inplace_slot()
        } else {
            Some(self.operator().left_slot())
        }
    }

    /// The slot of the operator that the right operand's class has. There is none in place.
    pub fn right_slot(self) -> Option<SlotId>
        ensures { result ≡ right_slot_of self }
    {
        if self.is_in_place() {
            None
        } else {
            Some(self.operator().right_slot())
        }
    }
}

impl PyNumberTernaryOp {
    /// The slot of the operator that the left operand's class has.
    pub fn left_slot(self) -> SlotId
        ensures { result ≡ left_power self }
    {
        match self {
            PyNumberTernaryOp::Power => SlotId::Power,
            PyNumberTernaryOp::InplacePower => SlotId::InplacePower,
        }
    }

    /// The slot of the operator that the right operand's class has. There is none in place.
    pub fn right_slot(self) -> Option<SlotId>
        ensures { result ≡ right_power self }
    {
        match self {
            PyNumberTernaryOp::Power => Some(SlotId::RightPower),
            PyNumberTernaryOp::InplacePower => None,
        }
    }
}
