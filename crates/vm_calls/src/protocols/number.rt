//! An object as a number.

ghost use Rattle.vm_calls.specs.Below.{is_some, Reading, Reads, plain, IsNode, Holds};
ghost use Rattle.std.specs.Prelude.{◌≡◌, ◌||◌};
ghost use Rattle.vm_calls.specs.OfProtocols.Views.{HasNumberSlots};

use crate::slot_tables::PyNumberSlots;
use class_world::World;
use py_node::{PyObjectRef, SlotId};

/// An object, with a table of the slots of numbers: that of its class, or one that it was given.
#[derive(Clone, Copy)]
pub struct PyNumber {
    pub obj: PyObjectRef,
    pub methods: PyNumberSlots,
}

impl PyNumber {
    /// What the class of an object has in the slots of numbers, which are its own: none is read at a class that it
    /// derives from, unless it is one that no script made and lacks the slot.
    pub fn find_methods(world: &World, o: PyObjectRef) -> PyNumberSlots
        requires { Holds world.now (IsNode o) }
        ensures { (t : Reading) → Reads t world.now → HasNumberSlots (plain t world.now) o result }
    {
        PyNumberSlots {
            add: world.slot(o, SlotId::Add),
            right_add: world.slot(o, SlotId::RightAdd),
            inplace_add: world.slot(o, SlotId::InplaceAdd),
            subtract: world.slot(o, SlotId::Subtract),
            right_subtract: world.slot(o, SlotId::RightSubtract),
            inplace_subtract: world.slot(o, SlotId::InplaceSubtract),
            multiply: world.slot(o, SlotId::Multiply),
            right_multiply: world.slot(o, SlotId::RightMultiply),
            inplace_multiply: world.slot(o, SlotId::InplaceMultiply),
            remainder: world.slot(o, SlotId::Remainder),
            right_remainder: world.slot(o, SlotId::RightRemainder),
            inplace_remainder: world.slot(o, SlotId::InplaceRemainder),
            divmod: world.slot(o, SlotId::Divmod),
            right_divmod: world.slot(o, SlotId::RightDivmod),
            power: world.slot(o, SlotId::Power),
            right_power: world.slot(o, SlotId::RightPower),
            inplace_power: world.slot(o, SlotId::InplacePower),
            lshift: world.slot(o, SlotId::Lshift),
            right_lshift: world.slot(o, SlotId::RightLshift),
            inplace_lshift: world.slot(o, SlotId::InplaceLshift),
            rshift: world.slot(o, SlotId::Rshift),
            right_rshift: world.slot(o, SlotId::RightRshift),
            inplace_rshift: world.slot(o, SlotId::InplaceRshift),
            and: world.slot(o, SlotId::And),
            right_and: world.slot(o, SlotId::RightAnd),
            inplace_and: world.slot(o, SlotId::InplaceAnd),
            xor: world.slot(o, SlotId::Xor),
            right_xor: world.slot(o, SlotId::RightXor),
            inplace_xor: world.slot(o, SlotId::InplaceXor),
            or: world.slot(o, SlotId::Or),
            right_or: world.slot(o, SlotId::RightOr),
            inplace_or: world.slot(o, SlotId::InplaceOr),
            floor_divide: world.slot(o, SlotId::FloorDivide),
            right_floor_divide: world.slot(o, SlotId::RightFloorDivide),
            inplace_floor_divide: world.slot(o, SlotId::InplaceFloorDivide),
            true_divide: world.slot(o, SlotId::TrueDivide),
            right_true_divide: world.slot(o, SlotId::RightTrueDivide),
            inplace_true_divide: world.slot(o, SlotId::InplaceTrueDivide),
            matrix_multiply: world.slot(o, SlotId::MatrixMultiply),
            right_matrix_multiply: world.slot(o, SlotId::RightMatrixMultiply),
            inplace_matrix_multiply: world.slot(o, SlotId::InplaceMatrixMultiply),
            int: world.slot(o, SlotId::Int),
            index: world.slot(o, SlotId::Index),
            float: world.slot(o, SlotId::Float),
            negative: world.slot(o, SlotId::Negative),
            positive: world.slot(o, SlotId::Positive),
            absolute: world.slot(o, SlotId::Absolute),
            invert: world.slot(o, SlotId::Invert),
            boolean: world.slot(o, SlotId::Boolean),
        }
    }

    /// The view of an object with the table of its class. It may be empty.
    pub fn new(world: &World, o: PyObjectRef) -> PyNumber
        requires { Holds world.now (IsNode o) }
        ensures obj { result.obj ≡ o }
        ensures methods { (t : Reading) → Reads t world.now → HasNumberSlots (plain t world.now) o result.methods }
    {
        PyNumber {
            obj: o,
            methods: PyNumber::find_methods(world, o),
        }
    }

    /// The view of an object with a given table.
    pub fn with_methods(obj: PyObjectRef, methods: PyNumberSlots) -> PyNumber
        ensures obj { result.obj ≡ obj }
        ensures methods { result.methods ≡ methods }
    {
        PyNumber { obj, methods }
    }

    /// Whether the view is of a number: its table has what gives a whole number, an index or a float.
    pub fn check(&self) -> bool
        ensures { let m = self.now.methods in result ≡ (is_some m.int || is_some m.index || is_some m.float) }
    {
        self.methods.int.is_some() || self.methods.index.is_some() || self.methods.float.is_some()
    }

    /// Whether the view is of what can be an index: its table has what gives one.
    pub fn is_index(&self) -> bool
        ensures { result ≡ is_some self.now.methods.index }
    {
        self.methods.index.is_some()
    }
}

/// The view of an object as a number, with the table of its class. It may be empty.
pub fn to_number(world: &World, o: PyObjectRef) -> PyNumber
    requires { Holds world.now (IsNode o) }
    ensures obj { result.obj ≡ o }
    ensures methods { (t : Reading) → Reads t world.now → HasNumberSlots (plain t world.now) o result.methods }
{
    PyNumber::new(world, o)
}
