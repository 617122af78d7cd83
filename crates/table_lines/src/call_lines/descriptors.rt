//! What gives attributes, made by hand: a method of a class, what wraps a callable, and a member.

use crate::call_lines::definitions::upper;
use crate::call_lines::payloads::{told_node, told_payload};
use crate::{NoValue, Table};
use class_world::{Fixed, World};
use proto_attr::accessors::{PyClassMethod, PyMethodDescriptor, PyStaticMethod};
use proto_attr::native_defs::{PyMemberDef, new_member};
use py_node::{
    BuiltIn, MemberGetter, MemberKind, MemberSetter, NativeEntry, OutOfMemory, StrNative,
};
use std::alloc::Global;

const UPPER: MemberGetter = MemberGetter::Getter(NativeEntry::OfStr(StrNative::Upper));

const NOTHING: MemberSetter = MemberSetter::Setter(None);

pub fn put(table: &mut Table, world: &mut World, alloc: Global) {
    table.put_text("PyMethodDescriptor::new", method(world));
    table.put_text("PyMethodDescriptor::bind", bound(world));
    table.put_text("PyClassMethod::new_ref", class_method(world));
    table.put_text("PyStaticMethod::new_ref", static_method(world));
    table.put("PyMemberDef::new_const", defined(alloc));
    table.put_text("native_defs::new_member", member(world));
}

fn method(world: &mut World) -> Result<String, NoValue> {
    let def = upper(world.alloc())?;
    let class = world.built_in(BuiltIn::Str);
    let method = PyMethodDescriptor::new(world, &def, class)?;
    told_payload(world, method.payload(world.alloc()))
}

fn bound(world: &mut World) -> Result<String, NoValue> {
    let def = upper(world.alloc())?;
    let class = world.built_in(BuiltIn::Str);
    let method = PyMethodDescriptor::new(world, &def, class)?;
    let none = world.fixed(Fixed::None);
    let made = method.bind(world, none);
    told_node(world, made)
}

fn class_method(world: &mut World) -> Result<String, NoValue> {
    let callable = world.built_in_node(BuiltIn::Int);
    let made = PyClassMethod::new_ref(world, callable);
    told_node(world, made)
}

fn static_method(world: &mut World) -> Result<String, NoValue> {
    let callable = world.built_in_node(BuiltIn::Int);
    let made = PyStaticMethod::new_ref(world, callable);
    told_node(world, made)
}

// A definition of a member that a native reads and that nothing sets.
fn capitals(alloc: Global) -> Result<PyMemberDef, OutOfMemory> {
    let doc = Some("in capitals");
    PyMemberDef::new_const(alloc, "capitals", MemberKind::ObjectEx, UPPER, NOTHING, doc)
}

// The name, whether the member is only read, and the text for readers.
fn defined(alloc: Global) -> Result<(String, bool, Option<String>), OutOfMemory> {
    let def = capitals(alloc)?;
    let is_only_read = def.getter == UPPER && def.setter == NOTHING;
    Ok((def.name, is_only_read, def.doc))
}

// The member of `str` of such a definition.
fn member(world: &mut World) -> Result<String, NoValue> {
    let alloc = world.alloc();
    let class = world.built_in(BuiltIn::Str);
    let def = PyMemberDef {
        name: String::from_str(alloc, "capitals")?,
        kind: MemberKind::ObjectEx,
        getter: UPPER,
        setter: NOTHING,
        doc: None,
    };
    let made = new_member(world, class, def);
    told_node(world, made)
}
