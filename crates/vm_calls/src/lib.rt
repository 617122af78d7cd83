//! What a host asks a machine for, by name: each function asks one task, with so many units, and reads its
//! value. Those of `sequence`, `mapping`, `number` and `callable` ask it of an object by a view.
#![tactic(auto)]

pub mod answer_kinds;
mod asked;
pub mod attribute_laws;
pub mod attributes;
pub mod callable;
pub mod calls;
pub mod comparisons;
pub mod in_place;
pub mod laws;
mod lengths;
mod made;
pub mod mapping;
pub mod number;
pub mod numbers;
pub mod objects;
pub mod operators;
pub mod protocols;
pub mod sequence;
pub mod slot_tables;
pub mod values;

pub use attributes::{
    call_set_attr, del_attr, generic_getattr, generic_getattr_opt, generic_setattr, get_attr,
    has_attr_obj, invoke, invoke_ref, method_get, set_attr_obj,
};
pub use calls::{call, call_with_args};
pub use comparisons::{
    bool_eq, bool_seq_gt, bool_seq_lt, identical_or_equal, rich_compare, rich_compare_bool,
};
pub use in_place::{
    _iadd, _iand, _ifloordiv, _ilshift, _imatmul, _imod, _imul, _ior, _ipow, _irshift, _isub,
    _itruediv, _ixor,
};
pub use numbers::{
    is_true, length, length_hint, length_hint_opt, length_opt, not, try_index, try_index_opt,
    try_int,
};
pub use objects::{
    _contains, del_item, dir, format, get_item, get_iter, hash, is_instance, is_subclass, next,
    repr, set_item, str,
};
pub use operators::{
    _abs, _add, _and, _divmod, _floordiv, _invert, _lshift, _matmul, _mod, _mul, _neg, _or, _pos,
    _pow, _rshift, _sub, _truediv, _xor, binary_op, binary_op1,
};
pub use values::{int_of, new_int, new_text, text_of};
