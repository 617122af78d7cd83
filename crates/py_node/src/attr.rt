//! What an own attribute of a built-in class is.

use crate::entry::{Detail, NativeEntry, Property};
use crate::known::Known;

/// What an own attribute of a built-in class is.
#[derive(Clone, Copy, PartialEq, Eq)]
pub enum Attr {
    /// `__new__`, bound to the class.
    New,
    /// A method of the objects.
    Method(NativeEntry),
    /// A method of the class.
    ClassMethod(NativeEntry),
    /// A property of the objects that nothing sets.
    ReadOnly(Property),
    /// A property of the objects that can be set.
    Settable(Property),
    /// A part of what an object of just this class holds, to be read.
    Part(Detail),
    /// The same, to be read and set.
    SettablePart(Detail),
    /// None under the name `__hash__`: the objects have no hash.
    NoHash,
}

/// An own attribute: its name, and what it is.
pub type OwnAttr = (Known, Attr);
