//! Definitions of native methods, and the objects that are made of them.

use crate::call_lines::payloads::{told_node, told_payload};
use crate::{NoValue, Table};
use class_world::{Fixed, World};
use proto_attr::native_defs::{PyMethodDef, extend_methods};
use py_node::{BuiltIn, NativeEntry, OutOfMemory, PyMethodFlags, StrNative};
use std::alloc::Global;

const UPPER: NativeEntry = NativeEntry::OfStr(StrNative::Upper);

pub fn put(table: &mut Table, world: &mut World, alloc: Global) {
    table.put("PyMethodDef::new_const", parts(upper(alloc)));
    table.put("PyMethodDef::new_raw_const", parts(raw(alloc)));
    match upper(alloc) {
        Ok(def) => put_made(table, world, &def),
        Err(OutOfMemory) => table.end(),
    }
}

// What is made of a definition.
fn put_made(table: &mut Table, world: &mut World, def: &PyMethodDef) {
    table.put(
        "PyMethodDef::try_clone",
        parts(def.try_clone(world.alloc())),
    );
    table.put_text("PyMethodDef::to_function", to_function(world, def));
    table.put_text("PyMethodDef::to_method", to_method(world, def));
    table.put_text("PyMethodDef::to_bound_method", to_bound_method(world, def));
    table.put_text(
        "PyMethodDef::to_proper_method",
        to_proper_method(world, def),
    );
    table.put_text(
        "PyMethodDef::to_proper_method of a static one",
        to_proper_function(world),
    );
    table.put_text("PyMethodDef::build_function", function(world, def));
    table.put_text(
        "PyMethodDef::build_bound_function",
        bound_function(world, def),
    );
    table.put_text("PyMethodDef::build_method", method(world, def));
    table.put_text("PyMethodDef::build_bound_method", bound_method(world, def));
    table.put_text("PyMethodDef::build_classmethod", class_method(world, def));
    table.put_text("PyMethodDef::build_staticmethod", static_method(world, def));
    table.put_text("native_defs::extend_methods", extended(world));
}

/// A definition of `str.upper`.
pub fn upper(alloc: Global) -> Result<PyMethodDef, OutOfMemory> {
    PyMethodDef::new_const(
        alloc,
        "upper",
        UPPER,
        PyMethodFlags::METHOD,
        Some("upper()"),
    )
}

fn raw(alloc: Global) -> Result<PyMethodDef, OutOfMemory> {
    PyMethodDef::new_raw_const(alloc, "upper", UPPER, PyMethodFlags::STATIC, None)
}

// The name, whether it does what `str.upper` does, the flags, and the text for readers.
fn parts(
    def: Result<PyMethodDef, OutOfMemory>,
) -> Result<(String, bool, u64, Option<String>), OutOfMemory> {
    let def = def?;
    Ok((def.name, def.func == UPPER, def.flags.0, def.doc))
}

fn to_function(world: &mut World, def: &PyMethodDef) -> Result<String, NoValue> {
    let made = def.to_function(world);
    told_payload(world, made)
}

fn to_method(world: &mut World, def: &PyMethodDef) -> Result<String, NoValue> {
    let class = world.built_in(BuiltIn::Str);
    let made = def.to_method(world, class);
    told_payload(world, made)
}

fn to_bound_method(world: &mut World, def: &PyMethodDef) -> Result<String, NoValue> {
    let class = world.built_in(BuiltIn::Str);
    let none = world.fixed(Fixed::None);
    let made = def.to_bound_method(world, none, class);
    told_payload(world, made)
}

fn to_proper_method(world: &mut World, def: &PyMethodDef) -> Result<String, NoValue> {
    let class = world.built_in(BuiltIn::Str);
    let made = def.to_proper_method(world, class);
    told_payload(world, made)
}

// A definition of which a flag says that it isn't bound.
fn to_proper_function(world: &mut World) -> Result<String, NoValue> {
    let def = raw(world.alloc())?;
    let class = world.built_in(BuiltIn::Str);
    let made = def.to_proper_method(world, class);
    told_payload(world, made)
}

fn function(world: &mut World, def: &PyMethodDef) -> Result<String, NoValue> {
    let made = def.build_function(world);
    told_node(world, made)
}

fn bound_function(world: &mut World, def: &PyMethodDef) -> Result<String, NoValue> {
    let none = world.fixed(Fixed::None);
    let made = def.build_bound_function(world, none);
    told_node(world, made)
}

fn method(world: &mut World, def: &PyMethodDef) -> Result<String, NoValue> {
    let class = world.built_in(BuiltIn::Str);
    let made = def.build_method(world, class);
    told_node(world, made)
}

fn bound_method(world: &mut World, def: &PyMethodDef) -> Result<String, NoValue> {
    let class = world.built_in(BuiltIn::Str);
    let none = world.fixed(Fixed::None);
    let made = def.build_bound_method(world, none, class);
    told_node(world, made)
}

fn class_method(world: &mut World, def: &PyMethodDef) -> Result<String, NoValue> {
    let class = world.built_in(BuiltIn::Str);
    let made = def.build_classmethod(world, class);
    told_node(world, made)
}

fn static_method(world: &mut World, def: &PyMethodDef) -> Result<String, NoValue> {
    let class = world.built_in(BuiltIn::Str);
    let made = def.build_staticmethod(world, class);
    told_node(world, made)
}

// The attribute that a class gets.
fn extended(world: &mut World) -> Result<String, NoValue> {
    let def = upper(world.alloc())?;
    let object = world.built_in(BuiltIn::Object);
    let class = world.new_simple_heap("A", object)?;
    extend_methods(world, class, &[def])?;
    let name = world.intern("upper")?;
    match world.own_attr(class, name) {
        None => Err(NoValue),
        Some(value) => told_node(world, Ok(value)),
    }
}
