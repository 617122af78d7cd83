//! The scope of a running body.

use py_node::{PyAttributes, PyObjectRef};

/// A running body: its function, and its variables.
#[derive(Drop)]
pub struct Scope {
    pub func: PyObjectRef,
    pub vars: PyAttributes,
}
