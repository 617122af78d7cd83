//! Names, variables, objects and expressions of a world.

ghost use Rattle.std.specs.Prelude.{IfOk};
ghost use Rattle.py_node.specs.declared.built_in.BuiltIn.TheVariants.{Dict};
ghost use Rattle.class_world.specs.Sound.{Holds, Holding, IsNode};

use crate::{NoValue, Table};
use class_world::{Fixed, World};
use py_node::{
    BuiltIn, Constant, Expr, ExprRef, Known, OutOfMemory, Payload, PyDict, PyObjectRef,
    PyStrInterned, PyTypeRef,
};
use world_text::expressions::add_expr;
use world_text::show::show;

pub fn put(table: &mut Table, world: &mut World) {
    table.put_text(
        "World::new",
        show(world, world.fixed(Fixed::NotImplemented)),
    );
    put_numbers(table, world);
    table.put_text(
        "World::spelling",
        world.spelling(world.known(Known::Qualname)),
    );
    table.put_text("World::intern", interned(world));
    table.put_text("World::bind", bound(world));
    table.put_text("World::make_node", made_number(world));
    table.put_text("World::set_value_in", value_in_dict(world));
    table.put_text("world_text::show", shown_dict(world));
    table.put(
        "world_text::add_expr",
        add_expr(world, &Expr::Const(Constant::Int(33))),
    );
}

// Which numbers are those of something. The nodes of the own attributes of built-in classes are the last ones.
fn put_numbers(table: &mut Table, world: &World) {
    table.tell("World::is_node 290", &world.is_node(PyObjectRef(290)));
    table.tell("World::is_node 291", &world.is_node(PyObjectRef(291)));
    table.tell("World::is_class 22", &world.is_class(PyTypeRef(22)));
    table.tell("World::is_class 23", &world.is_class(PyTypeRef(23)));
    table.tell("World::is_name 69", &world.is_name(PyStrInterned(69)));
    table.tell("World::is_expression 0", &world.is_expression(ExprRef(0)));
}

// A text that no world knows.
fn interned(world: &mut World) -> Result<String, OutOfMemory> {
    let name = world.intern("a name")?;
    world.spelling(name)
}

// A variable that is bound to True, and its value.
fn bound(world: &mut World) -> Result<String, NoValue> {
    let name = world.intern("x")?;
    world.bind(name, world.truth(true))?;
    match world.variable(name) {
        None => Err(NoValue),
        Some(value) => Ok(show(world, value)?),
    }
}

fn made_number(world: &mut World) -> Result<String, OutOfMemory> {
    let class = world.built_in(BuiltIn::Int);
    let node = world.make_node(class, Payload::Number(33))?;
    show(world, node)
}

// A dict that has None under a name.
fn dict(world: &mut World) -> Result<PyObjectRef, OutOfMemory>
    ensures node { IfOk result (λ r. Holds world.new (IsNode r)) }
    ensures dict { IfOk result (λ r. Holds world.new (Holding r Dict)) }
{
    let class = world.built_in(BuiltIn::Dict);
    let dict = world.make_node(class, Payload::Dict(PyDict::new(world.alloc())))?;
    let name = world.known(Known::Qualname);
    let none = world.fixed(Fixed::None);
    world.set_value_in(dict, name, none)?;
    Ok(dict)
}

fn value_in_dict(world: &mut World) -> Result<String, NoValue> {
    let dict = dict(world)?;
    match world.value_in(dict, world.known(Known::Qualname)) {
        None => Err(NoValue),
        Some(value) => Ok(show(world, value)?),
    }
}

fn shown_dict(world: &mut World) -> Result<String, OutOfMemory> {
    let dict = dict(world)?;
    show(world, dict)
}
