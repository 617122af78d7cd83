//! The objects that the own attributes of the built-in classes hold, as a new machine gets them.

ghost use Rattle.class_world.specs.Below.{fold, Some, None, IfOk, NewWrapper, OnOk, place_of, own_attrs, attr_class, ref};
ghost use Rattle.std.specs.Prelude.{◌≡◌};
ghost use Rattle.py_node.specs.declared.payload.Payload.TheVariants as stored;
ghost use Rattle.class_world.specs.StartNodes.{own_payload, own_node, with_own_node, opening_nodes as the_opening_nodes};

use crate::start::{plain_node, start_nodes};
use py_node::attr::Attr::{
    self, ClassMethod, Method, New, NoHash, Part, ReadOnly, Settable, SettablePart,
};
use py_node::attr::OwnAttr;
use py_node::built_in::built_ins;
use py_node::own_attrs::attrs_of;
use py_node::{
    Boxed, BuiltIn, GetSet, MethodDescriptor, NativeEntry, NativeFunction, Node, OutOfMemory,
    Payload, PyMethodFlags, PyObjectRef, PyStrInterned,
};
use std::alloc::Global;

/// The nodes of the built-in classes, None, NotImplemented, False and True, and then the objects that the own attributes
/// of the built-in classes hold.
#[tactic(auto, unfolding(crate::specs::StartNodes::opening_nodes))]
pub(crate) fn opening_nodes(alloc: Global) -> Result<Vec<Node>, OutOfMemory>
    ensures { IfOk result (λ v. v.items ≡ the_opening_nodes) }
{
    let mut nodes = start_nodes(alloc)?;
    for row in built_ins() {
        add_objects(&mut nodes, alloc, row.0)?;
    }
    Ok(nodes)
}

// Adds the objects of the own attributes of a class, in order.
fn add_objects(nodes: &mut Vec<Node>, alloc: Global, class: BuiltIn) -> Result<(), OutOfMemory>
    ensures { OnOk result (nodes.new.items ≡ fold (with_own_node class) nodes.old.items (own_attrs class)) }
{
    for attr in attrs_of(class) {
        add_object(nodes, alloc, class, *attr)?;
    }
    Ok(())
}

// Adds the object that an own attribute holds, unless that is None.
#[tactic(auto, unfolding(crate::specs::StartNodes::with_own_node))]
fn add_object(
    nodes: &mut Vec<Node>,
    alloc: Global,
    class: BuiltIn,
    attr: OwnAttr,
) -> Result<(), OutOfMemory>
    ensures { OnOk result (nodes.new.items ≡ with_own_node class nodes.old.items attr) }
{
    match attr.1 {
        NoHash => Ok(()),
        _ => {
            let object = object_of(alloc, class, attr.0.interned(), attr.1)?;
            nodes.push(object)?;
            Ok(())
        }
    }
}

// The object that an own attribute holds.
fn object_of(
    alloc: Global,
    class: BuiltIn,
    name: PyStrInterned,
    attr: Attr,
) -> Result<Node, OutOfMemory>
    ensures { IfOk result (λ n. n ≡ own_node class name attr) }
{
    let payload = payload_of(alloc, class, name, attr)?;
    Ok(plain_node(alloc, class_of(attr), payload))
}

// The class of the object that an own attribute holds.
fn class_of(attr: Attr) -> BuiltIn
    ensures { result ≡ attr_class attr }
{
    match attr {
        New => BuiltIn::BuiltinFunctionOrMethod,
        Method(_) | ClassMethod(_) => BuiltIn::MethodDescriptor,
        ReadOnly(_) | Settable(_) | Part(_) | SettablePart(_) => BuiltIn::GetSetDescriptor,
        NoHash => BuiltIn::NoneType,
    }
}

// What this object is.
fn payload_of(
    alloc: Global,
    class: BuiltIn,
    name: PyStrInterned,
    attr: Attr,
) -> Result<Payload, OutOfMemory>
    ensures { IfOk result (λ p. p ≡ own_payload class name attr) }
{
    match attr {
        New => maker(alloc, class, name),
        Method(entry) => descriptor(alloc, class, name, entry, PyMethodFlags::METHOD),
        ClassMethod(entry) => descriptor(alloc, class, name, entry, PyMethodFlags::CLASS),
        ReadOnly(property) => get_set(alloc, class, name, NativeEntry::Getter(property), None),
        Settable(property) => {
            let setter = NativeEntry::Setter(property);
            get_set(
                alloc,
                class,
                name,
                NativeEntry::Getter(property),
                Some(setter),
            )
        }
        Part(detail) => get_set(
            alloc,
            class,
            name,
            NativeEntry::GetterOf(class, detail),
            None,
        ),
        SettablePart(detail) => {
            let setter = NativeEntry::SetterOf(class, detail);
            get_set(
                alloc,
                class,
                name,
                NativeEntry::GetterOf(class, detail),
                Some(setter),
            )
        }
        NoHash => Ok(Payload::Object),
    }
}

// The native that makes the objects of a class.
fn maker(alloc: Global, class: BuiltIn, name: PyStrInterned) -> Result<Payload, OutOfMemory>
    ensures { IfOk result (λ p. p ≡ stored.NativeFunction (record {
      name = name;
      entry = NewWrapper;
      target = Some (ref (place_of class));
      doc = None;
    })) }
{
    let function = NativeFunction {
        name,
        entry: NativeEntry::NewWrapper,
        target: Some(PyObjectRef(class.class().0)),
        doc: None,
    };
    Ok(Payload::NativeFunction(Boxed::new(alloc, function)?))
}

// A native as a method of a class.
fn descriptor(
    alloc: Global,
    class: BuiltIn,
    name: PyStrInterned,
    entry: NativeEntry,
    flags: PyMethodFlags,
) -> Result<Payload, OutOfMemory>
    ensures { IfOk result (λ p. p ≡ stored.MethodDescriptor (record {
      class = record { 0 = place_of class };
      name = name;
      entry = entry;
      flags = flags.0;
      doc = None;
    })) }
{
    let method = MethodDescriptor {
        class: class.class(),
        name,
        entry,
        flags: flags.0,
        doc: None,
    };
    Ok(Payload::MethodDescriptor(Boxed::new(alloc, method)?))
}

// A property of the objects of a class.
fn get_set(
    alloc: Global,
    class: BuiltIn,
    name: PyStrInterned,
    getter: NativeEntry,
    setter: Option<NativeEntry>,
) -> Result<Payload, OutOfMemory>
    ensures { IfOk result (λ p. p ≡ stored.GetSet (record {
      class = record { 0 = place_of class };
      name = name;
      getter = Some getter;
      setter = setter;
    })) }
{
    let parts = GetSet {
        class: class.class(),
        name,
        getter: Some(getter),
        setter,
    };
    Ok(Payload::GetSet(Boxed::new(alloc, parts)?))
}
