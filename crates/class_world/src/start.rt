//! The nodes of a new machine.

ghost use Rattle.class_world.specs.Below.{map, IfOk, all_built_ins, place_of};
ghost use Rattle.std.specs.Prelude.{◌≡◌};
ghost use Rattle.class_world.specs.StartNodes.{plain_node as stored, class_node as stored_class, start_nodes as the_start_nodes};

use py_node::built_in::built_ins;
use py_node::{BuiltIn, Node, OutOfMemory, Payload, PyMembers};
use std::alloc::Global;

/// The nodes of the built-in classes, and then None, NotImplemented, False and True.
#[tactic(auto, unfolding(py_node::specs::BuiltIns::place_of))]
pub(crate) fn start_nodes(alloc: Global) -> Result<Vec<Node>, OutOfMemory>
    ensures { IfOk result (λ v. v.items ≡ the_start_nodes) }
{
    let mut nodes = class_nodes(alloc)?;
    nodes.push(plain_node(alloc, BuiltIn::NoneType, Payload::Object))?;
    nodes.push(plain_node(alloc, BuiltIn::NotImplementedType, Payload::Object))?;
    nodes.push(plain_node(alloc, BuiltIn::Bool, Payload::Number(0)))?;
    nodes.push(plain_node(alloc, BuiltIn::Bool, Payload::Number(1)))?;
    Ok(nodes)
}

// The nodes of the built-in classes.
fn class_nodes(alloc: Global) -> Result<Vec<Node>, OutOfMemory>
    ensures { IfOk result (λ v. v.items ≡ map stored_class all_built_ins) }
{
    let mut nodes = Vec::new(alloc);
    for row in built_ins() {
        nodes.push(class_node(alloc, row.0))?;
    }
    Ok(nodes)
}

// The node of a built-in class.
#[tactic(auto, unfolding(py_node::specs::BuiltIns::place_of))]
fn class_node(alloc: Global, class: BuiltIn) -> Node
    ensures { result ≡ stored_class class }
{
    plain_node(alloc, BuiltIn::TypeType, Payload::Class(class.class()))
}

// An object of a built-in class that has no dict.
pub(crate) fn plain_node(alloc: Global, class: BuiltIn, payload: Payload) -> Node
    ensures { result ≡ stored (record { 0 = place_of class }) payload }
{
    Node {
        class: class.class(),
        dict: None,
        members: PyMembers::new(alloc),
        payload,
    }
}
