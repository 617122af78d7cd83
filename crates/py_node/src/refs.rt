//! The numbers by which objects, classes, names and expressions are known.

/// An object: the number of its node in the machine.
#[derive(Clone, Copy, PartialEq, Eq, Hash, Debug)]
pub struct PyObjectRef(pub u64);

/// A class: the number of the node that is the class. There are gaps between the numbers of classes.
#[derive(Clone, Copy, PartialEq, Eq, Hash, Debug)]
pub struct PyTypeRef(pub u64);

/// A name: the number that a table of names gave to its text.
#[derive(Clone, Copy, PartialEq, Eq, Hash, Debug)]
pub struct PyStrInterned(pub u64);

/// An expression: the number that the world's store of expressions gave it.
#[derive(Clone, Copy, PartialEq, Eq, Debug)]
pub struct ExprRef(pub u64);
