//! Views of objects by a protocol: an object, with what its class has in the slots of sequences, of mappings or of
//! numbers, or with what calls it. They take no memory.
#![tactic(auto, unfolding(class_world::specs::Reading::plain))]

pub mod callable;
pub mod mapping;
pub mod number;
pub mod object;
pub mod sequence;

pub use callable::{PyCallable, is_callable, to_callable};
pub use mapping::{PyMapping, to_mapping};
pub use number::{PyNumber, to_number};
pub use object::{obj_type, type_check};
pub use sequence::{PySequence, to_sequence};
