//! The operands of expressions.

ghost use Rattle.proto_call.specs.Below.{[], map, slice_get};
ghost use Rattle.std.specs.Prelude.{◌≡◌, ◌++◌, ◌∷◌};
ghost use Rattle.proto_call.specs.EvalForms.Rows.{operands};

use py_node::{ExprRef, Form, PyStrInterned};

// The operand of an expression at a place.
pub(crate) fn operand(form: &Form, place: usize) -> Option<ExprRef>
    ensures { result ≡ slice_get (operands form.now) place }
{
    match form {
        Form::Bind(_, value) => first_of(*value, place),
        Form::Attr(target, _) => first_of(*target, place),
        Form::SetAttr(target, _, value) => {
            if place == 0 {
                Some(*target)
            } else {
                first_of(*value, place - 1)
            }
        }
        Form::DelAttr(target, _) => first_of(*target, place),
        Form::If(condition, _, _) => first_of(*condition, place),
        Form::Call(call) => first_of(call.function, place),
        Form::Tuple(items) => items.get(place).copied(),
        Form::List(items) => items.get(place).copied(),
        Form::Op(_, operands) => operands.get(place).copied(),
        Form::Seq(items) => items.get(place).copied(),
        Form::Class(class) => {
            if place < class.bases.len() {
                Some(class.bases[place])
            } else {
                entry_of_two(&class.keywords, &class.entries, place - class.bases.len())
            }
        }
        _ => None,
    }
}

// The expression at a place of two lists of entries, one after the other.
fn entry_of_two(
    first: &[(PyStrInterned, ExprRef)],
    second: &[(PyStrInterned, ExprRef)],
    place: usize,
) -> Option<ExprRef>
    ensures { result ≡ slice_get (map (λ e. e.1) first.now ++ map (λ e. e.1) second.now) place }
{
    if place < first.len() {
        entry_value(first, place)
    } else {
        entry_value(second, place - first.len())
    }
}

// The expression of the entry at a place.
pub(crate) fn entry_value(entries: &[(PyStrInterned, ExprRef)], place: usize) -> Option<ExprRef>
    ensures { result ≡ slice_get (map (λ e. e.1) entries.now) place }
{
    match entries.get(place) {
        Some(entry) => Some(entry.1),
        None => None,
    }
}

// The only one, at its place.
fn first_of(only: ExprRef, place: usize) -> Option<ExprRef>
    ensures { result ≡ slice_get (only ∷ []) place }
{
    if place == 0 { Some(only) } else { None }
}
