//! The six comparisons.

ghost use Rattle.proto_ops.specs.Below.{Bool, None, Ordering as TheOrdering, PyComparisonOp as Comparison};
ghost use Rattle.std.specs.Prelude.{◌≡◌};
ghost use Rattle.proto_ops.specs.ProtoCompare.Comparisons.{AsksEqual, decided_by_equal, holds_by, method_of, swapped, turned};

use py_node::{Known, PyComparisonOp};
use std::cmp::Ordering;

/// The comparison that says the same of the operands the other way round.
pub fn swapped(op: PyComparisonOp) -> PyComparisonOp
    ensures { result ≡ swapped op }
{
    match op {
        PyComparisonOp::Lt => PyComparisonOp::Gt,
        PyComparisonOp::Gt => PyComparisonOp::Lt,
        PyComparisonOp::Le => PyComparisonOp::Ge,
        PyComparisonOp::Ge => PyComparisonOp::Le,
        same => same,
    }
}

/// Whether a comparison holds of two things that are so ordered.
pub fn eval_ord(op: PyComparisonOp, order: Ordering) -> bool
    ensures { result ≡ holds_by op order }
{
    match op {
        PyComparisonOp::Lt => order.is_lt(),
        PyComparisonOp::Gt => order.is_gt(),
        PyComparisonOp::Ne => order.is_ne(),
        PyComparisonOp::Eq => order.is_eq(),
        PyComparisonOp::Le => order.is_le(),
        PyComparisonOp::Ge => order.is_ge(),
    }
}

/// What a comparison gives of two things that are equal, which is asked only where that decides it: for the other
/// comparisons `are_equal` need not be callable, and isn't called.
pub fn map_eq<F: FnOnce() -> bool>(op: PyComparisonOp, are_equal: F) -> Option<bool>
    requires { AsksEqual op → F.IsAlwaysCallable are_equal }
    ensures asks { AsksEqual op → (b : Bool) × F.post are_equal b × (result ≡ decided_by_equal op b) }
    ensures other { (AsksEqual op → ⊥) → result ≡ None }
{
    match op {
        PyComparisonOp::Eq => { if are_equal() { Some(true) } else { None } }
        PyComparisonOp::Ne => { if are_equal() { Some(false) } else { None } }
        _ => None,
    }
}

/// The special method of a comparison.
pub fn method_name(op: PyComparisonOp) -> Known
    ensures { result ≡ method_of op }
{
    match op {
        PyComparisonOp::Lt => Known::Lt,
        PyComparisonOp::Gt => Known::Gt,
        PyComparisonOp::Ne => Known::Ne,
        PyComparisonOp::Eq => Known::Eq,
        PyComparisonOp::Le => Known::Le,
        PyComparisonOp::Ge => Known::Ge,
    }
}

/// The laws of operands that change places: twice is not at all, and a comparison that changes with its operands says
/// the same.
pub fn laws_of_swapped()
    ensures twice { (op : Comparison) → swapped (swapped op) ≡ op }
    ensures same { (op : Comparison) (order : TheOrdering) → holds_by (swapped op) (turned order) ≡ holds_by op order }
{}
