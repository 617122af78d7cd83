//! Variables: of the running body, or else of the machine.

ghost use Rattle.class_world.specs.Below.{length, OnOk, OnErr, value_of, is_same_name};
ghost use Rattle.std.specs.Prelude.{◌≡◌, ◌<◌};
ghost use Rattle.class_world.specs.Bound.{last_value, value_in, bound_vars, bound_scopes};

use crate::scope::Scope;
use py_node::{OutOfMemory, PyAttributes, PyObjectRef, PyStrInterned};

// A variable of the last of some scopes.
pub(crate) fn last_value(scopes: &[Scope], name: PyStrInterned) -> Option<PyObjectRef>
    ensures { result ≡ last_value scopes.now name }
{
    let count = scopes.len();
    if count == 0 {
        None
    } else {
        scopes[count - 1].vars.get(name)
    }
}

// A variable of the running body, or else of the machine.
pub(crate) fn value_in(
    scopes: &[Scope],
    vars: &PyAttributes,
    name: PyStrInterned,
) -> Option<PyObjectRef>
    ensures { result ≡ value_in scopes.now vars.now name }
{
    match last_value(scopes, name) {
        Some(value) => Some(value),
        None => vars.get(name),
    }
}

// Binds a variable in the last of some scopes.
fn bind_last(
    scopes: &mut [Scope],
    name: PyStrInterned,
    value: PyObjectRef,
) -> Result<(), OutOfMemory>
    requires { 0 < length scopes.old }
    ensures ok { OnOk result (scopes.new ≡ bound_scopes scopes.old name value) }
    ensures err { OnErr result (scopes.new ≡ scopes.old) }
{
    let last = scopes.len() - 1;
    scopes[last].vars.insert(name, value)
}

// Binds a variable of the running body, or else of the machine.
pub(crate) fn bind_in(
    scopes: &mut Vec<Scope>,
    vars: &mut PyAttributes,
    name: PyStrInterned,
    value: PyObjectRef,
) -> Result<(), OutOfMemory>
    ensures vars { OnOk result (vars.new ≡ bound_vars scopes.old.items vars.old name value) }
    ensures scopes { OnOk result (scopes.new.items ≡ bound_scopes scopes.old.items name value) }
    ensures same_vars { OnErr result (vars.new ≡ vars.old) }
    ensures same_scopes { OnErr result (scopes.new.items ≡ scopes.old.items) }
{
    if scopes.is_empty() {
        vars.insert(name, value)
    } else {
        bind_last(scopes, name, value)
    }
}
