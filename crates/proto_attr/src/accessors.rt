//! What gives and takes attributes, as plain types with their makers: descriptors of natives and of getters, class
//! methods, static methods, and the arguments that properties and `super` are made of.
#![tactic(auto)]

pub mod arguments;
pub mod bound;
pub mod getset;
pub mod method;
pub mod wrapped;

pub use arguments::{InitArgs, PropertyArgs};
pub use getset::PyGetSet;
pub use method::{PyDescriptor, PyDescriptorOwned, PyMethodDescriptor};
pub use py_node::{MemberDescriptor as PyMemberDescriptor, PyProperty, PySuper};
pub use wrapped::{PyClassMethod, PyStaticMethod};

/// What an object of `object` keeps beside its class and its dict: nothing.
#[derive(Clone, Copy, PartialEq, Eq, Debug)]
pub struct PyBaseObject;
