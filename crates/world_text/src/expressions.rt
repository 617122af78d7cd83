//! Expressions go into the store: names are interned, and the parts of an expression go in first.

ghost use Rattle.world_text.specs.Below.{map, IfOk, string_bytes, TConst, literal_of, tree_of, part_of, pair_of, texts_of, Reading, Reads, plain, IsExpression, Holds, Grows};
ghost use Rattle.std.specs.Prelude.{◌≡◌};
ghost use Rattle.world_text.specs.Store.{Adds, HasName, HasNames, HasTree, HasTrees, HasPairs, HasEntries, HasForm};

use class_world::World;
use py_node::{
    CallParts, ClassParts, Constant, Expr, ExprRef, Form, FuncParts, OutOfMemory, PyStrInterned,
};

/// Puts an expression into the store, and answers its number there.
pub fn add_expr(world: &mut World, expr: &Expr) -> Result<ExprRef, OutOfMemory>
    ensures added { IfOk result (λ e. (t : Reading) → Reads t world.new → t.tree e.0 ≡ tree_of expr.now) }
    ensures same { (t : Reading) → plain t world.new ≡ plain t world.old }
    ensures reads { (t : Reading) → Reads t world.new → Reads t world.old }
    ensures grows { Grows world.old world.new }
    ensures holds { IfOk result (λ e. Holds world.new (IsExpression e)) }
{
    store(world, expr)
}

// Stores an expression after its parts.
#[cycle(store)]
fn store(world: &mut World, expr: &Expr) -> Result<ExprRef, OutOfMemory>
    ensures adds { Adds world.old world.new }
    ensures tree { IfOk result (λ e. HasTree world.new e (tree_of expr.now)) }
{
    let form = form_of(world, expr)?;
    world.add_form(form)
}

// An expression as the store has it, whose parts are stored.
#[cycle(store)]
fn form_of(world: &mut World, expr: &Expr) -> Result<Form, OutOfMemory>
    ensures adds { Adds world.old world.new }
    ensures form { IfOk result (λ f. HasForm world.new f (tree_of expr.now)) }
{
    match expr {
        Expr::Const(constant) => constant_form(world, constant),
        Expr::Name(name) => {
            let name = name_of(world, name)?;
            Ok(Form::Name(name))
        }
        Expr::Bind(name, value) => {
            let name = name_of(world, name)?;
            let value = store(world, value)?;
            Ok(Form::Bind(name, value))
        }
        Expr::Tuple(items) => {
            let items = store_each(world, items)?;
            Ok(Form::Tuple(items))
        }
        Expr::List(items) => {
            let items = store_each(world, items)?;
            Ok(Form::List(items))
        }
        Expr::Dict(pairs) => {
            let pairs = store_pairs(world, pairs)?;
            Ok(Form::Dict(pairs))
        }
        Expr::Func(func) => {
            let name = name_of(world, &func.name)?;
            let params = names_of(world, &func.params)?;
            let body = store(world, &func.body)?;
            let parts = FuncParts {
                name,
                params,
                rest: func.rest,
                body,
            };
            let boxed = Box::new(world.alloc(), parts)?;
            Ok(Form::Func(boxed))
        }
        Expr::Attr(target, name) => {
            let target = store(world, target)?;
            let name = name_of(world, name)?;
            Ok(Form::Attr(target, name))
        }
        Expr::SetAttr(set) => {
            let target = store(world, &set.object)?;
            let name = name_of(world, &set.name)?;
            let value = store(world, &set.value)?;
            Ok(Form::SetAttr(target, name, value))
        }
        Expr::DelAttr(target, name) => {
            let target = store(world, target)?;
            let name = name_of(world, name)?;
            Ok(Form::DelAttr(target, name))
        }
        Expr::Call(call) => {
            let function = store(world, &call.function)?;
            let args = store_each(world, &call.args)?;
            let keywords = store_entries(world, &call.keywords)?;
            let parts = CallParts {
                function,
                args,
                keywords,
            };
            let boxed = Box::new(world.alloc(), parts)?;
            Ok(Form::Call(boxed))
        }
        Expr::Op(word, operands) => {
            let operands = store_each(world, operands)?;
            Ok(Form::Op(*word, operands))
        }
        Expr::If(condition, then, otherwise) => {
            let condition = store(world, condition)?;
            let then = store(world, then)?;
            let otherwise = store(world, otherwise)?;
            Ok(Form::If(condition, then, otherwise))
        }
        Expr::Seq(items) => {
            let items = store_each(world, items)?;
            Ok(Form::Seq(items))
        }
        Expr::Raise(kind) => Ok(Form::Raise(*kind)),
        Expr::Class(class) => {
            let name = name_of(world, &class.name)?;
            let bases = store_each(world, &class.bases)?;
            let keywords = store_entries(world, &class.keywords)?;
            let entries = store_entries(world, &class.entries)?;
            let parts = ClassParts {
                name,
                bases,
                keywords,
                entries,
            };
            let boxed = Box::new(world.alloc(), parts)?;
            Ok(Form::Class(boxed))
        }
    }
}

// Stores expressions, in order.
#[cycle(store)]
fn store_each(world: &mut World, exprs: &Vec<Expr>) -> Result<Vec<ExprRef>, OutOfMemory>
    ensures adds { Adds world.old world.new }
    ensures trees { IfOk result (λ es. HasTrees world.new es.items (map tree_of exprs.now.items)) }
{
    let alloc = world.alloc();
    let mut stored = Vec::with_capacity(alloc, exprs.len())?;
    for expr in exprs {
        stored.push(store(world, expr)?)?;
    }
    Ok(stored)
}

// Stores keys with their values, in order.
#[cycle(store)]
fn store_pairs(
    world: &mut World,
    pairs: &Vec<(Expr, Expr)>,
) -> Result<Vec<(ExprRef, ExprRef)>, OutOfMemory>
    ensures adds { Adds world.old world.new }
    ensures pairs { IfOk result (λ ps. HasPairs world.new ps.items (map pair_of pairs.now.items)) }
{
    let alloc = world.alloc();
    let mut stored = Vec::with_capacity(alloc, pairs.len())?;
    for (key, value) in pairs {
        let key = store(world, key)?;
        let value = store(world, value)?;
        stored.push((key, value))?;
    }
    Ok(stored)
}

// Stores entries: their names with their expressions, in order.
#[cycle(store)]
fn store_entries(
    world: &mut World,
    entries: &Vec<(String, Expr)>,
) -> Result<Vec<(PyStrInterned, ExprRef)>, OutOfMemory>
    ensures adds { Adds world.old world.new }
    ensures entries { IfOk result (λ es. HasEntries world.new es.items (map part_of entries.now.items)) }
{
    let alloc = world.alloc();
    let mut stored = Vec::with_capacity(alloc, entries.len())?;
    for (name, expr) in entries {
        let name = name_of(world, name)?;
        let value = store(world, expr)?;
        stored.push((name, value))?;
    }
    Ok(stored)
}

// A constant as the store has it.
fn constant_form(world: &World, constant: &Constant) -> Result<Form, OutOfMemory>
    ensures { IfOk result (λ f. HasForm world.now f (TConst (literal_of constant.now))) }
{
    let alloc = world.alloc();
    let constant = constant.try_clone(alloc)?;
    Ok(Form::Const(constant))
}

// The name of a text.
fn name_of(world: &mut World, text: &String) -> Result<PyStrInterned, OutOfMemory>
    ensures adds { Adds world.old world.new }
    ensures name { IfOk result (λ x. HasName world.new x (string_bytes text.now)) }
{
    world.intern(text.as_str())
}

// The names of texts, in order.
fn names_of(world: &mut World, texts: &Vec<String>) -> Result<Vec<PyStrInterned>, OutOfMemory>
    ensures adds { Adds world.old world.new }
    ensures names { IfOk result (λ xs. HasNames world.new xs.items (texts_of texts.now.items)) }
{
    let alloc = world.alloc();
    let mut names = Vec::with_capacity(alloc, texts.len())?;
    for text in texts {
        names.push(name_of(world, text)?)?;
    }
    Ok(names)
}
