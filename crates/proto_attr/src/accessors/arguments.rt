//! The arguments that properties and `super` are initialised with.

use py_node::PyObjectRef;

/// The arguments of `property(fget, fset, fdel, doc, name)`, each where it was given.
#[derive(Clone, Copy, PartialEq, Eq, Debug)]
pub struct PropertyArgs {
    pub fget: Option<PyObjectRef>,
    pub fset: Option<PyObjectRef>,
    pub fdel: Option<PyObjectRef>,
    pub doc: Option<PyObjectRef>,
    pub name: Option<PyObjectRef>,
}

/// The arguments of `super(type, object)`, each where it was given.
#[derive(Clone, Copy, PartialEq, Eq, Debug)]
pub struct InitArgs {
    pub py_type: Option<PyObjectRef>,
    pub py_obj: Option<PyObjectRef>,
}
