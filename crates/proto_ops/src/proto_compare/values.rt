//! What a comparison of two objects gives, and what two equal objects decide.

ghost use Rattle.proto_ops.specs.Below.{Bool, eqb};
ghost use Rattle.std.specs.Prelude.{◌≡◌};
ghost use Rattle.proto_ops.specs.ProtoCompare.Comparisons.{AsksEqual, decided_by_equal};
ghost use Rattle.proto_ops.specs.ProtoCompare.Values.{by_equal, comparison_of, token_of};
ghost use Rattle.proto_ops.specs.declared.proto_compare.values.PyArithmeticValue.{PyArithmeticValue as Value};
ghost use Rattle.proto_ops.specs.declared.proto_compare.values.PyArithmeticValue.TheVariants.{NotImplemented};

use py_node::{PyComparisonOp, PyObjectRef};

/// What an operation on two objects gives: a value, or that it is not for these objects.
#[derive(Clone, Copy, PartialEq, Eq, Debug)]
pub enum PyArithmeticValue<T> {
    Implemented(T),
    NotImplemented,
}

/// What a comparison of two objects gives.
pub type PyComparisonValue = PyArithmeticValue<bool>;

/// The comparisons by their names.
#[derive(Clone, Copy, PartialEq, Eq, Debug)]
pub enum ComparisonOperator {
    Less,
    Greater,
    NotEqual,
    Equal,
    LessOrEqual,
    GreaterOrEqual,
}

impl From<ComparisonOperator> for PyComparisonOp {
    fn from(operator: ComparisonOperator) -> PyComparisonOp
        ensures { result ≡ comparison_of operator }
    {
        match operator {
            ComparisonOperator::Less => PyComparisonOp::Lt,
            ComparisonOperator::Greater => PyComparisonOp::Gt,
            ComparisonOperator::NotEqual => PyComparisonOp::Ne,
            ComparisonOperator::Equal => PyComparisonOp::Eq,
            ComparisonOperator::LessOrEqual => PyComparisonOp::Le,
            ComparisonOperator::GreaterOrEqual => PyComparisonOp::Ge,
        }
    }
}

/// The token of a comparison, as Python writes it.
pub fn operator_token(op: PyComparisonOp) -> &'static str
    ensures { result.now ≡ token_of op }
{
    match op {
        PyComparisonOp::Lt => "<",
        PyComparisonOp::Gt => ">",
        PyComparisonOp::Ne => "!=",
        PyComparisonOp::Eq => "==",
        PyComparisonOp::Le => "<=",
        PyComparisonOp::Ge => ">=",
    }
}

/// A comparison of objects that can only be equal or not: `==` gives what is told of them, `!=` the opposite, and the
/// others are not for them: `equal` need not be callable for these, and isn't called.
pub fn eq_only<F: FnOnce() -> PyComparisonValue>(op: PyComparisonOp, equal: F) -> PyComparisonValue
    requires { AsksEqual op → F.IsAlwaysCallable equal }
    ensures asks { AsksEqual op → (v : Value Bool) × F.post equal v × (result ≡ by_equal op v) }
    ensures other { (AsksEqual op → ⊥) → result ≡ NotImplemented }
{
    match op {
        PyComparisonOp::Eq => equal(),
        PyComparisonOp::Ne => match equal() {
            PyArithmeticValue::Implemented(value) => PyArithmeticValue::Implemented(!value),
            PyArithmeticValue::NotImplemented => PyArithmeticValue::NotImplemented,
        },
        _ => PyArithmeticValue::NotImplemented,
    }
}

/// What a comparison gives of an object and itself, where that decides it: of two objects, nothing.
pub fn identical_optimization(op: PyComparisonOp, a: PyObjectRef, b: PyObjectRef) -> Option<bool>
    ensures { result ≡ decided_by_equal op (eqb a.0 b.0) }
{
    match op {
        PyComparisonOp::Eq => { if a == b { Some(true) } else { None } }
        PyComparisonOp::Ne => { if a == b { Some(false) } else { None } }
        _ => None,
    }
}
