//! Tables of what a class has in its slots, as plain types: of numbers, of sequences, of mappings, and of all slots.
#![tactic(auto)]

pub mod number;
pub mod op;
pub mod type_slots;

pub use number::{PyNumberMethods, PyNumberSlots};
pub use op::{PyNumberBinaryOp, PyNumberTernaryOp};
pub use type_slots::{
    HeapTypeExt, PyMappingMethods, PySequenceMethods, PyTypeSlots, hash_not_implemented,
};
