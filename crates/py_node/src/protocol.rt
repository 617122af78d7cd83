//! Tasks on comparisons, on containers and numbers, and on what all objects can do.

use crate::refs::PyObjectRef;
use crate::task::PyComparisonOp;

/// A task on comparisons.
#[derive(Drop)]
pub enum CompareTask {
    /// What a comparison gives.
    Compare(PyObjectRef, PyObjectRef, PyComparisonOp),
    /// What the first object's class says of a comparison, or NotImplemented.
    Cmp(PyObjectRef, PyObjectRef, PyComparisonOp),
    /// Whether a comparison holds.
    RichBool(PyObjectRef, PyObjectRef, PyComparisonOp),
    /// Whether two objects are equal.
    BoolEq(PyObjectRef, PyObjectRef),
    /// Whether two objects are one or equal.
    IdEq(PyObjectRef, PyObjectRef),
    /// Whether a sequence is less than another, unless the lengths decide.
    SeqLt(PyObjectRef, PyObjectRef),
    /// Whether a sequence is greater than another, unless the lengths decide.
    SeqGt(PyObjectRef, PyObjectRef),
}

/// A task on containers, iterations, numbers and truth. Bounds of slices are whole numbers.
#[derive(Drop)]
pub enum ProtocolTask {
    /// Whether an object counts as true.
    IsTrue(PyObjectRef),
    /// An object as a whole number that it stands for exactly.
    Index(PyObjectRef),
    /// An object as a whole number.
    Int(PyObjectRef),
    Length(PyObjectRef),
    /// A length, or what an object says of it, or else the number that is given.
    Hint(PyObjectRef, Option<i64>),
    GetItem(PyObjectRef, PyObjectRef),
    /// Sets the item of a key to a value.
    SetItem(PyObjectRef, PyObjectRef, PyObjectRef),
    DelItem(PyObjectRef, PyObjectRef),
    GetSlice(PyObjectRef, i64, i64),
    SetSlice(PyObjectRef, i64, i64, PyObjectRef),
    DelSlice(PyObjectRef, i64, i64),
    GetIter(PyObjectRef),
    /// The next item of an iteration, or that it is exhausted.
    Next(PyObjectRef),
    /// All items of an iteration.
    Collect(PyObjectRef),
    /// Whether the first object contains the second.
    Contains(PyObjectRef, PyObjectRef),
    /// How often the second object stands in the first.
    Count(PyObjectRef, PyObjectRef),
    /// Where the second object first stands in the first.
    Find(PyObjectRef, PyObjectRef),
    Keys(PyObjectRef),
    Values(PyObjectRef),
    Items(PyObjectRef),
}

/// A task on what all objects can do.
#[derive(Drop)]
pub enum ObjectTask {
    Hash(PyObjectRef),
    Repr(PyObjectRef),
    Str(PyObjectRef),
    /// An object's text by a specification.
    Format(PyObjectRef, PyObjectRef),
    /// The names of an object's attributes.
    Dir(PyObjectRef),
    /// Whether an object counts as an instance of a class.
    IsInstance(PyObjectRef, PyObjectRef),
    /// The same, without asking the class.
    Inst(PyObjectRef, PyObjectRef),
    /// Whether the first class counts as derived from the second.
    IsSubclass(PyObjectRef, PyObjectRef),
    /// The same, without asking the second class.
    Sub(PyObjectRef, PyObjectRef),
    /// The same of objects that are no classes, by their bases.
    AbsSub(PyObjectRef, PyObjectRef),
}
