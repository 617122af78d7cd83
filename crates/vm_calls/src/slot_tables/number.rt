//! What a class has in the slots of numbers, and what a class gives of them for itself.

ghost use Rattle.vm_calls.specs.Below.{None, option_and_then, SlotId as Slot};
ghost use Rattle.std.specs.Prelude.{◌≡◌};
ghost use Rattle.vm_calls.specs.SlotTables.Numbers.{number_entry, method_entry, given_by, left_slot_of, right_slot_of, left_power, right_power};

use crate::slot_tables::op::{PyNumberBinaryOp, PyNumberTernaryOp};
use py_node::{SlotEntry, SlotId};

/// What a class gives for the slots of numbers: the entry of a binary operator is for both of its operands.
#[derive(Clone, Copy)]
pub struct PyNumberMethods {
    pub add: Option<SlotEntry>,
    pub inplace_add: Option<SlotEntry>,
    pub subtract: Option<SlotEntry>,
    pub inplace_subtract: Option<SlotEntry>,
    pub multiply: Option<SlotEntry>,
    pub inplace_multiply: Option<SlotEntry>,
    pub remainder: Option<SlotEntry>,
    pub inplace_remainder: Option<SlotEntry>,
    pub divmod: Option<SlotEntry>,
    pub power: Option<SlotEntry>,
    pub inplace_power: Option<SlotEntry>,
    pub lshift: Option<SlotEntry>,
    pub inplace_lshift: Option<SlotEntry>,
    pub rshift: Option<SlotEntry>,
    pub inplace_rshift: Option<SlotEntry>,
    pub and: Option<SlotEntry>,
    pub inplace_and: Option<SlotEntry>,
    pub xor: Option<SlotEntry>,
    pub inplace_xor: Option<SlotEntry>,
    pub or: Option<SlotEntry>,
    pub inplace_or: Option<SlotEntry>,
    pub floor_divide: Option<SlotEntry>,
    pub inplace_floor_divide: Option<SlotEntry>,
    pub true_divide: Option<SlotEntry>,
    pub inplace_true_divide: Option<SlotEntry>,
    pub matrix_multiply: Option<SlotEntry>,
    pub inplace_matrix_multiply: Option<SlotEntry>,
    pub int: Option<SlotEntry>,
    pub index: Option<SlotEntry>,
    pub float: Option<SlotEntry>,
    pub negative: Option<SlotEntry>,
    pub positive: Option<SlotEntry>,
    pub absolute: Option<SlotEntry>,
    pub invert: Option<SlotEntry>,
    pub boolean: Option<SlotEntry>,
}

/// What a class has in the slots of numbers.
#[derive(Clone, Copy)]
pub struct PyNumberSlots {
    pub add: Option<SlotEntry>,
    pub right_add: Option<SlotEntry>,
    pub inplace_add: Option<SlotEntry>,
    pub subtract: Option<SlotEntry>,
    pub right_subtract: Option<SlotEntry>,
    pub inplace_subtract: Option<SlotEntry>,
    pub multiply: Option<SlotEntry>,
    pub right_multiply: Option<SlotEntry>,
    pub inplace_multiply: Option<SlotEntry>,
    pub remainder: Option<SlotEntry>,
    pub right_remainder: Option<SlotEntry>,
    pub inplace_remainder: Option<SlotEntry>,
    pub divmod: Option<SlotEntry>,
    pub right_divmod: Option<SlotEntry>,
    pub power: Option<SlotEntry>,
    pub right_power: Option<SlotEntry>,
    pub inplace_power: Option<SlotEntry>,
    pub lshift: Option<SlotEntry>,
    pub right_lshift: Option<SlotEntry>,
    pub inplace_lshift: Option<SlotEntry>,
    pub rshift: Option<SlotEntry>,
    pub right_rshift: Option<SlotEntry>,
    pub inplace_rshift: Option<SlotEntry>,
    pub and: Option<SlotEntry>,
    pub right_and: Option<SlotEntry>,
    pub inplace_and: Option<SlotEntry>,
    pub xor: Option<SlotEntry>,
    pub right_xor: Option<SlotEntry>,
    pub inplace_xor: Option<SlotEntry>,
    pub or: Option<SlotEntry>,
    pub right_or: Option<SlotEntry>,
    pub inplace_or: Option<SlotEntry>,
    pub floor_divide: Option<SlotEntry>,
    pub right_floor_divide: Option<SlotEntry>,
    pub inplace_floor_divide: Option<SlotEntry>,
    pub true_divide: Option<SlotEntry>,
    pub right_true_divide: Option<SlotEntry>,
    pub inplace_true_divide: Option<SlotEntry>,
    pub matrix_multiply: Option<SlotEntry>,
    pub right_matrix_multiply: Option<SlotEntry>,
    pub inplace_matrix_multiply: Option<SlotEntry>,
    pub int: Option<SlotEntry>,
    pub index: Option<SlotEntry>,
    pub float: Option<SlotEntry>,
    pub negative: Option<SlotEntry>,
    pub positive: Option<SlotEntry>,
    pub absolute: Option<SlotEntry>,
    pub invert: Option<SlotEntry>,
    pub boolean: Option<SlotEntry>,
}

// No methods.
const NO_METHODS: PyNumberMethods = PyNumberMethods {
    add: None,
    inplace_add: None,
    subtract: None,
    inplace_subtract: None,
    multiply: None,
    inplace_multiply: None,
    remainder: None,
    inplace_remainder: None,
    divmod: None,
    power: None,
    inplace_power: None,
    lshift: None,
    inplace_lshift: None,
    rshift: None,
    inplace_rshift: None,
    and: None,
    inplace_and: None,
    xor: None,
    inplace_xor: None,
    or: None,
    inplace_or: None,
    floor_divide: None,
    inplace_floor_divide: None,
    true_divide: None,
    inplace_true_divide: None,
    matrix_multiply: None,
    inplace_matrix_multiply: None,
    int: None,
    index: None,
    float: None,
    negative: None,
    positive: None,
    absolute: None,
    invert: None,
    boolean: None,
};

impl PyNumberMethods {
    /// None of the methods.
    pub const NOT_IMPLEMENTED: PyNumberMethods = NO_METHODS;

    /// None of the methods.
    #[tactic(auto, using(crate::proofs::SlotTables::Filled::no_methods))]
    pub fn not_implemented() -> &'static PyNumberMethods
        ensures { (s : Slot) → method_entry result.now s ≡ None }
    {
        &NO_METHODS
    }
}

impl Default for PyNumberMethods {
    #[tactic(auto, using(crate::proofs::SlotTables::Filled::no_methods))]
    fn default() -> PyNumberMethods
        ensures { (s : Slot) → method_entry result s ≡ None }
    {
        NO_METHODS
    }
}

impl Default for PyNumberSlots {
    fn default() -> PyNumberSlots
        ensures { (s : Slot) → number_entry result s ≡ None }
    {
        PyNumberSlots::from(PyNumberMethods::not_implemented())
    }
}

impl From<&PyNumberMethods> for PyNumberSlots {
    #[tactic(auto, using(crate::proofs::SlotTables::Filled::filled))]
    fn from(methods: &PyNumberMethods) -> PyNumberSlots
        ensures { (s : Slot) → number_entry result s ≡ method_entry methods.now (given_by s) }
    {
        PyNumberSlots {
            add: methods.add,
            right_add: methods.add,
            inplace_add: methods.inplace_add,
            subtract: methods.subtract,
            right_subtract: methods.subtract,
            inplace_subtract: methods.inplace_subtract,
            multiply: methods.multiply,
            right_multiply: methods.multiply,
            inplace_multiply: methods.inplace_multiply,
            remainder: methods.remainder,
            right_remainder: methods.remainder,
            inplace_remainder: methods.inplace_remainder,
            divmod: methods.divmod,
            right_divmod: methods.divmod,
            power: methods.power,
            right_power: methods.power,
            inplace_power: methods.inplace_power,
            lshift: methods.lshift,
            right_lshift: methods.lshift,
            inplace_lshift: methods.inplace_lshift,
            rshift: methods.rshift,
            right_rshift: methods.rshift,
            inplace_rshift: methods.inplace_rshift,
            and: methods.and,
            right_and: methods.and,
            inplace_and: methods.inplace_and,
            xor: methods.xor,
            right_xor: methods.xor,
            inplace_xor: methods.inplace_xor,
            or: methods.or,
            right_or: methods.or,
            inplace_or: methods.inplace_or,
            floor_divide: methods.floor_divide,
            right_floor_divide: methods.floor_divide,
            inplace_floor_divide: methods.inplace_floor_divide,
            true_divide: methods.true_divide,
            right_true_divide: methods.true_divide,
            inplace_true_divide: methods.inplace_true_divide,
            matrix_multiply: methods.matrix_multiply,
            right_matrix_multiply: methods.matrix_multiply,
            inplace_matrix_multiply: methods.inplace_matrix_multiply,
            int: methods.int,
            index: methods.index,
            float: methods.float,
            negative: methods.negative,
            positive: methods.positive,
            absolute: methods.absolute,
            invert: methods.invert,
            boolean: methods.boolean,
        }
    }
}

#[tactic(auto, unfolding(crate::specs::SlotTables::Numbers::number_entry))]
impl PyNumberSlots {
    /// What the table has in a slot. It has nothing in those that aren't of numbers.
    pub fn entry(&self, slot: SlotId) -> Option<SlotEntry>
        ensures { result ≡ number_entry self.now slot }
    {
        match slot {
            SlotId::Add => self.add,
            SlotId::RightAdd => self.right_add,
            SlotId::InplaceAdd => self.inplace_add,
            SlotId::Subtract => self.subtract,
            SlotId::RightSubtract => self.right_subtract,
            SlotId::InplaceSubtract => self.inplace_subtract,
            SlotId::Multiply => self.multiply,
            SlotId::RightMultiply => self.right_multiply,
            SlotId::InplaceMultiply => self.inplace_multiply,
            SlotId::Remainder => self.remainder,
            SlotId::RightRemainder => self.right_remainder,
            SlotId::InplaceRemainder => self.inplace_remainder,
            SlotId::Divmod => self.divmod,
            SlotId::RightDivmod => self.right_divmod,
            SlotId::Power => self.power,
            SlotId::RightPower => self.right_power,
            SlotId::InplacePower => self.inplace_power,
            SlotId::Lshift => self.lshift,
            SlotId::RightLshift => self.right_lshift,
            SlotId::InplaceLshift => self.inplace_lshift,
            SlotId::Rshift => self.rshift,
            SlotId::RightRshift => self.right_rshift,
            SlotId::InplaceRshift => self.inplace_rshift,
            SlotId::And => self.and,
            SlotId::RightAnd => self.right_and,
            SlotId::InplaceAnd => self.inplace_and,
            SlotId::Xor => self.xor,
            SlotId::RightXor => self.right_xor,
            SlotId::InplaceXor => self.inplace_xor,
            SlotId::Or => self.or,
            SlotId::RightOr => self.right_or,
            SlotId::InplaceOr => self.inplace_or,
            SlotId::FloorDivide => self.floor_divide,
            SlotId::RightFloorDivide => self.right_floor_divide,
            SlotId::InplaceFloorDivide => self.inplace_floor_divide,
            SlotId::TrueDivide => self.true_divide,
            SlotId::RightTrueDivide => self.right_true_divide,
            SlotId::InplaceTrueDivide => self.inplace_true_divide,
            SlotId::MatrixMultiply => self.matrix_multiply,
            SlotId::RightMatrixMultiply => self.right_matrix_multiply,
            SlotId::InplaceMatrixMultiply => self.inplace_matrix_multiply,
            SlotId::Int => self.int,
            SlotId::Index => self.index,
            SlotId::Float => self.float,
            SlotId::Negative => self.negative,
            SlotId::Positive => self.positive,
            SlotId::Absolute => self.absolute,
            SlotId::Invert => self.invert,
            SlotId::Boolean => self.boolean,
            _ => None,
        }
    }

    /// What an operator does where this is the table of its left operand's class.
    pub fn left_binary_op(&self, op: PyNumberBinaryOp) -> Option<SlotEntry>
        ensures { result ≡ option_and_then (number_entry self.now) (left_slot_of op) }
    {
        self.entry(op.left_slot()?)
    }

    /// What an operator does where this is the table of its right operand's class. Nothing in place.
    pub fn right_binary_op(&self, op: PyNumberBinaryOp) -> Option<SlotEntry>
        ensures { result ≡ option_and_then (number_entry self.now) (right_slot_of op) }
    {
        self.entry(op.right_slot()?)
    }

    /// The same of an operator with three operands.
    pub fn left_ternary_op(&self, op: PyNumberTernaryOp) -> Option<SlotEntry>
        ensures { result ≡ number_entry self.now (left_power op) }
    {
        self.entry(op.left_slot())
    }

    /// The same of an operator with three operands. Nothing in place.
    pub fn right_ternary_op(&self, op: PyNumberTernaryOp) -> Option<SlotEntry>
        ensures { result ≡ option_and_then (number_entry self.now) (right_power op) }
    {
        self.entry(op.right_slot()?)
    }
}
