//! The built-in classes, as data: a class's place is the number of its case.

ghost use Rattle.py_node.specs.Below.{map, length, option_map, slice_get, Some};
ghost use Rattle.std.specs.Prelude.{◌≡◌, ◌<◌};
ghost use Rattle.py_node.specs.BuiltIns.{all_built_ins, built_in_names, built_in_bases, built_in_flags, built_in_count, place_of, name_of, base_of, flags_of};

use crate::flags::PyTypeFlags;
use crate::refs::PyTypeRef;

/// A built-in class, in the order of the classes' places.
#[derive(Clone, Copy, PartialEq, Eq)]
pub enum BuiltIn {
    Object,
    TypeType,
    NoneType,
    NotImplementedType,
    Int,
    Bool,
    Str,
    Tuple,
    List,
    Dict,
    Function,
    Method,
    BuiltinFunctionOrMethod,
    BuiltinMethod,
    MethodDescriptor,
    GetSetDescriptor,
    MemberDescriptor,
    Property,
    ClassMethod,
    StaticMethod,
    Super,
    Iterator,
    Slice,
}

/// How many built-in classes there are: they are the first classes.
pub const BUILT_IN_COUNT: u64 = 23;

const FINAL: PyTypeFlags = PyTypeFlags::IMMUTABLETYPE;

const BASE: PyTypeFlags = PyTypeFlags(FINAL.0 | PyTypeFlags::BASETYPE.0);

const BASE_WITH_DICT: PyTypeFlags = PyTypeFlags(BASE.0 | PyTypeFlags::HAS_DICT.0);

const METHODS: PyTypeFlags = PyTypeFlags(FINAL.0 | PyTypeFlags::METHOD_DESCRIPTOR.0);

const METHODS_WITH_DICT: PyTypeFlags = PyTypeFlags(METHODS.0 | PyTypeFlags::HAS_DICT.0);

/// The built-in classes in order, each with its name, its base and its flags. Scripts can change none of them.
pub const BUILT_INS: [(BuiltIn, &str, Option<BuiltIn>, PyTypeFlags); 23] = [
    (BuiltIn::Object, "object", None, BASE),
    (BuiltIn::TypeType, "type", Some(BuiltIn::Object), BASE),
    (BuiltIn::NoneType, "NoneType", Some(BuiltIn::Object), FINAL),
    (
        BuiltIn::NotImplementedType,
        "NotImplementedType",
        Some(BuiltIn::Object),
        FINAL,
    ),
    (BuiltIn::Int, "int", Some(BuiltIn::Object), BASE),
    (BuiltIn::Bool, "bool", Some(BuiltIn::Int), FINAL),
    (BuiltIn::Str, "str", Some(BuiltIn::Object), BASE),
    (BuiltIn::Tuple, "tuple", Some(BuiltIn::Object), BASE),
    (BuiltIn::List, "list", Some(BuiltIn::Object), BASE),
    (BuiltIn::Dict, "dict", Some(BuiltIn::Object), BASE),
    (
        BuiltIn::Function,
        "function",
        Some(BuiltIn::Object),
        METHODS_WITH_DICT,
    ),
    (BuiltIn::Method, "method", Some(BuiltIn::Object), FINAL),
    (
        BuiltIn::BuiltinFunctionOrMethod,
        "builtin_function_or_method",
        Some(BuiltIn::Object),
        FINAL,
    ),
    (
        BuiltIn::BuiltinMethod,
        "builtin_method",
        Some(BuiltIn::Object),
        FINAL,
    ),
    (
        BuiltIn::MethodDescriptor,
        "method_descriptor",
        Some(BuiltIn::Object),
        METHODS,
    ),
    (
        BuiltIn::GetSetDescriptor,
        "getset_descriptor",
        Some(BuiltIn::Object),
        FINAL,
    ),
    (
        BuiltIn::MemberDescriptor,
        "member_descriptor",
        Some(BuiltIn::Object),
        BASE,
    ),
    (BuiltIn::Property, "property", Some(BuiltIn::Object), BASE),
    (
        BuiltIn::ClassMethod,
        "classmethod",
        Some(BuiltIn::Object),
        BASE_WITH_DICT,
    ),
    (
        BuiltIn::StaticMethod,
        "staticmethod",
        Some(BuiltIn::Object),
        BASE_WITH_DICT,
    ),
    (BuiltIn::Super, "super", Some(BuiltIn::Object), FINAL),
    (BuiltIn::Iterator, "iterator", Some(BuiltIn::Object), FINAL),
    (BuiltIn::Slice, "slice", Some(BuiltIn::Object), FINAL),
];

/// All built-in classes in order, each with its name, its base and its flags.
#[tactic(auto, unfolding(crate::specs::BuiltIns::all_built_ins, crate::specs::BuiltIns::built_in_names, crate::specs::BuiltIns::built_in_bases, crate::specs::BuiltIns::built_in_flags))]
pub fn built_ins() -> &'static [(BuiltIn, &'static str, Option<BuiltIn>, PyTypeFlags)]
    ensures classes { map (λ r. r.0) result.now ≡ all_built_ins }
    ensures names { map (λ r. r.1.now) result.now ≡ built_in_names }
    ensures bases { map (λ r. r.2) result.now ≡ built_in_bases }
    ensures flags { map (λ r. r.3.0) result.now ≡ built_in_flags }
    ensures count { length result.now ≡ built_in_count }
{
    &BUILT_INS
}

impl BuiltIn {
    /// The built-in class at a place.
    pub fn at(place: usize) -> BuiltIn
        requires { place < built_in_count }
        ensures { slice_get all_built_ins place ≡ Some result }
    {
        built_ins()[place].0
    }

    // The class's place in the order.
    #[tactic(auto, using(crate::proofs::BuiltInTable::below), unfolding(crate::specs::BuiltIns::place_of))]
    fn place(self) -> usize
        ensures value { result ≡ place_of self }
        ensures within { result < built_in_count }
    {
        self as usize
    }

    /// The class, by its place among all classes.
    pub fn class(self) -> PyTypeRef
        ensures { result.0 ≡ place_of self }
    {
        PyTypeRef(self.place() as u64)
    }

    /// The class's name.
    #[tactic(auto, unfolding(crate::specs::BuiltIns::name_of))]
    pub fn name(self) -> &'static str
        ensures { result.now ≡ name_of self }
    {
        built_ins()[self.place()].1
    }

    /// The class's base, of which only `object` has none.
    #[tactic(auto, unfolding(crate::specs::BuiltIns::base_of))]
    pub fn base(self) -> Option<PyTypeRef>
        ensures { option_map (λ c. c.0) result ≡ base_of self }
    {
        match built_ins()[self.place()].2 {
            None => None,
            Some(base) => Some(base.class()),
        }
    }

    /// The class's flags. Scripts can change none of the built-in classes.
    #[tactic(auto, unfolding(crate::specs::BuiltIns::flags_of))]
    pub fn flags(self) -> PyTypeFlags
        ensures { result.0 ≡ flags_of self }
    {
        built_ins()[self.place()].3
    }
}
