//! The definition of a native method.

ghost use Rattle.proto_attr.specs.Below.{IfOk, option_copied};
ghost use Rattle.std.specs.Prelude.{◌≡◌};
ghost use Rattle.proto_attr.specs.NativeDefs.Definitions.{definition, definition_of};

use py_node::{NativeEntry, OutOfMemory, PyMethodFlags};
use std::alloc::Global;

/// The definition of a native method: its name, what it does, how it is bound, and its text for readers, if it has one.
#[derive(Drop)]
pub struct PyMethodDef {
    pub name: String,
    pub func: NativeEntry,
    pub flags: PyMethodFlags,
    pub doc: Option<String>,
}

impl PyMethodDef {
    /// A definition of these parts, unless memory runs out.
    pub fn new_const(
        alloc: Global,
        name: &str,
        func: NativeEntry,
        flags: PyMethodFlags,
        doc: Option<&str>,
    ) -> Result<PyMethodDef, OutOfMemory>
        ensures { IfOk result (λ d. definition_of d ≡ definition name.now func flags.0 (option_copied doc.entry)) }
    {
        let name = String::from_str(alloc, name)?;
        let doc = match doc {
            None => None,
            Some(text) => Some(String::from_str(alloc, text)?),
        };
        Ok(PyMethodDef {
            name,
            func,
            flags,
            doc,
        })
    }

    /// The same: natives are entries, and none is raw.
    pub fn new_raw_const(
        alloc: Global,
        name: &str,
        func: NativeEntry,
        flags: PyMethodFlags,
        doc: Option<&str>,
    ) -> Result<PyMethodDef, OutOfMemory>
        ensures { IfOk result (λ d. definition_of d ≡ definition name.now func flags.0 (option_copied doc.entry)) }
    {
        PyMethodDef::new_const(alloc, name, func, flags, doc)
    }

    /// The same definition, unless memory runs out.
    pub fn try_clone(&self, alloc: Global) -> Result<PyMethodDef, OutOfMemory>
        ensures { IfOk result (λ d. definition_of d ≡ definition_of self.now) }
    {
        let name = String::from_str(alloc, self.name.as_str())?;
        let doc = match &self.doc {
            None => None,
            Some(text) => Some(String::from_str(alloc, text.as_str())?),
        };
        Ok(PyMethodDef {
            name,
            func: self.func,
            flags: self.flags,
            doc,
        })
    }
}
