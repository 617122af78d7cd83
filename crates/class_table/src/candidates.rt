//! The candidates of an operator.

ghost use Rattle.class_table.specs.Below.{true, is_class, in_turn, is_other_node, is_overridden, goes_first, without_same, candidates_of, natives_of};
ghost use Rattle.std.specs.Prelude.{◌≡◌};
ghost use Rattle.class_table.specs.Keys.{table_keys};
ghost use Rattle.class_table.specs.Turn.{list_of};

use crate::table::ClassTable;
use py_node::{Known, PyObjectRef, PyTypeRef, SlotEntry, SlotId};

/// What an operator is tried with, in turn.
#[derive(Clone, Copy, PartialEq, Eq)]
pub struct Candidates {
    pub first: Option<SlotEntry>,
    pub second: Option<SlotEntry>,
    /// Whether the right operand's slot goes before the left one's, where both are there.
    pub is_right_first: bool,
}

// The right candidate, unless it is the same as the left one.
fn without_same(left: Option<SlotEntry>, right: Option<SlotEntry>) -> Option<SlotEntry>
    ensures { result ≡ without_same left right }
{
    match left {
        None => right,
        Some(l) => match right {
            None => None,
            Some(r) => { if l.is_same(r) { None } else { Some(r) } }
        },
    }
}

// Whether what the right operand's class finds is another node than what the left one's finds.
fn is_other_node(left: Option<PyObjectRef>, right: Option<PyObjectRef>) -> bool
    ensures { result ≡ is_other_node left right }
{
    match (left, right) {
        (Some(l), Some(r)) => l.0 != r.0,
        _ => true,
    }
}

// Both in turn.
fn in_turn(is_right_first: bool, left: Option<SlotEntry>, right: Option<SlotEntry>) -> Candidates
    ensures list { list_of result ≡ in_turn is_right_first left right }
    ensures first { result.is_right_first ≡ is_right_first }
{
    match left {
        None => Candidates {
            first: right,
            second: None,
            is_right_first,
        },
        Some(l) => match right {
            None => Candidates {
                first: Some(l),
                second: None,
                is_right_first,
            },
            Some(r) => {
                if is_right_first {
                    Candidates {
                        first: Some(r),
                        second: Some(l),
                        is_right_first,
                    }
                } else {
                    Candidates {
                        first: Some(l),
                        second: Some(r),
                        is_right_first,
                    }
                }
            }
        },
    }
}

impl ClassTable {
    // Whether the right operand's class has another method for its slot than the left one's. A name that this one lacks
    // counts as another.
    fn is_overridden(&self, names: &[Known], a: PyTypeRef, b: PyTypeRef) -> bool
        requires a { is_class self.now a.0 ≡ true }
        requires b { is_class self.now b.0 ≡ true }
        ensures { result ≡ is_overridden table_keys self.now names.now a.0 b.0 }
    {
        match names {
            [] => false,
            [name, ..] => {
                let name = name.interned();
                is_other_node(self.get_attr(a, name), self.get_attr(b, name))
            }
        }
    }

    // Whether the slot of the right operand's class is tried first: the class derives from that of the left one, and has
    // another method for it.
    fn goes_first(&self, right: SlotId, a: PyTypeRef, b: PyTypeRef) -> bool
        requires a { is_class self.now a.0 ≡ true }
        requires b { is_class self.now b.0 ≡ true }
        ensures { result ≡ goes_first table_keys self.now right a.0 b.0 }
    {
        self.fast_issubclass(b, a) && self.is_overridden(right.special_names(), a, b)
    }

    /// The candidates of an operator, from the slots of the classes of its operands: the right one first where its class
    /// derives from the other's and has another method for it.
    pub fn candidates(&self, left: SlotId, right: SlotId, a: PyTypeRef, b: PyTypeRef) -> Candidates
        requires a { is_class self.now a.0 ≡ true }
        requires b { is_class self.now b.0 ≡ true }
        ensures list { list_of result ≡ candidates_of table_keys natives_of self.now left right a.0 b.0 }
        ensures first { result.is_right_first ≡ goes_first table_keys self.now right a.0 b.0 }
    {
        let first = self.slot(a, left);
        let second = if a.0 == b.0 {
            None
        } else {
            without_same(first, self.slot(b, right))
        };
        in_turn(self.goes_first(right, a, b), first, second)
    }
}
