//! The commands that are generated: eight that make classes, and then changes of them.

ghost use Rattle.generator.specs.Below.{IfOk, OnOk, map, string_bytes, tree_of, trees_of, TName};
ghost use Rattle.std.specs.Prelude.{◌≡◌, ◌<◌, ◌^◌, if◌then◌else◌, ◌==◌};
ghost use Rattle.generator.specs.Draws.{after};
ghost use Rattle.generator.specs.Commands.{name, base, class_command, integer, object_of, sum, set, adder, change, change_command};

use crate::draws::Draws;
use py_node::{
    CallParts, ClassParts, Command, Constant, Expr, FuncParts, OutOfMemory, PyNumberBinaryOp,
    SetAttrParts, Word,
};
use std::alloc::{AllocError, Global};

/// How many classes the commands make.
pub const CLASSES: u64 = 8;

/// The command that makes class number i, with a base that is drawn of the classes before it.
#[tactic(auto, unfolding(crate::specs::Commands::class_command))]
pub fn class_command(alloc: Global, draws: &mut Draws, i: u64) -> Result<Command, OutOfMemory>
    ensures command { IfOk result (λ c. tree_of c.expr ≡ class_command draws.old i) }
    ensures draws { OnOk result (draws.new ≡ after (if i == 0 then 0 else 1) draws.old) }
{
    let bases = base(alloc, draws, i)?;
    let parts = ClassParts {
        name: name(alloc, i)?,
        bases,
        keywords: Vec::new(alloc),
        entries: Vec::new(alloc),
    };
    let class = Expr::Class(Box::new(alloc, parts)?);
    let expr = Expr::Bind(name(alloc, i)?, Box::new(alloc, class)?);
    Ok(Command { expr })
}

// The bases of class number i: the first has none.
fn base(alloc: Global, draws: &mut Draws, i: u64) -> Result<Vec<Expr>, AllocError>
    ensures base { IfOk result (λ v. trees_of (map tree_of v.items) ≡ base draws.old i) }
    ensures draws { OnOk result (draws.new ≡ after (if i == 0 then 0 else 1) draws.old) }
{
    if i == 0 {
        return Ok(Vec::new(alloc));
    }
    let base = draws.below(i);
    Ok(vec![in alloc; variable(alloc, base)?]?)
}

/// The command that does change number i, of three draws: what is done, and with which two classes.
#[tactic(auto, unfolding(crate::specs::Commands::change_command))]
pub fn change_command(alloc: Global, draws: &mut Draws, i: u64) -> Result<Command, OutOfMemory>
    requires { i < 2 ^ 63 }
    ensures command { IfOk result (λ c. tree_of c.expr ≡ change_command draws.old i) }
    ensures draws { draws.new ≡ after 3 draws.old }
{
    let kind = draws.below(4);
    let first = draws.below(CLASSES);
    let second = draws.below(CLASSES);
    let expr = change(alloc, kind, first, second, i)?;
    Ok(Command { expr })
}

// What is done with two classes.
fn change(alloc: Global, kind: u64, first: u64, second: u64, i: u64) -> Result<Expr, AllocError>
    requires { i < 2 ^ 63 }
    ensures { IfOk result (λ e. tree_of e ≡ change kind first second i) }
{
    match kind {
        0 => sum(alloc, first, second),
        1 => set(alloc, first, "__add__", adder(alloc, i)?),
        2 => {
            let bases = vec![in alloc; variable(alloc, second)?]?;
            set(alloc, first, "__bases__", Expr::Tuple(bases))
        }
        _ => set(alloc, first, "x", integer(i)),
    }
}

// Objects of two classes are added.
fn sum(alloc: Global, first: u64, second: u64) -> Result<Expr, AllocError>
    ensures { IfOk result (λ e. tree_of e ≡ sum first second) }
{
    let operands = vec![in alloc; object(alloc, first)?, object(alloc, second)?]?;
    Ok(Expr::Op(Word::Binary(PyNumberBinaryOp::Add), operands))
}

// An attribute of a class is set.
fn set(alloc: Global, class: u64, attribute: &str, value: Expr) -> Result<Expr, AllocError>
    ensures { IfOk result (λ e. tree_of e ≡ set class attribute.now (tree_of value)) }
{
    let parts = SetAttrParts {
        object: variable(alloc, class)?,
        name: String::from_str(alloc, attribute)?,
        value,
    };
    Ok(Expr::SetAttr(Box::new(alloc, parts)?))
}

// A new object of a class.
fn object(alloc: Global, class: u64) -> Result<Expr, AllocError>
    ensures { IfOk result (λ e. tree_of e ≡ object_of class) }
{
    let parts = CallParts {
        function: variable(alloc, class)?,
        args: Vec::new(alloc),
        keywords: Vec::new(alloc),
    };
    Ok(Expr::Call(Box::new(alloc, parts)?))
}

// A function of two parameters that gives i.
fn adder(alloc: Global, i: u64) -> Result<Expr, AllocError>
    requires { i < 2 ^ 63 }
    ensures { IfOk result (λ e. tree_of e ≡ adder i) }
{
    let params = vec![in alloc;
        String::from_str(alloc, "s")?,
        String::from_str(alloc, "o")?,
    ]?;
    let parts = FuncParts {
        name: String::from_str(alloc, "add")?,
        params,
        rest: false,
        body: integer(i),
    };
    Ok(Expr::Func(Box::new(alloc, parts)?))
}

// The variable that a class is bound to.
fn variable(alloc: Global, class: u64) -> Result<Expr, AllocError>
    ensures { IfOk result (λ e. tree_of e ≡ TName (name class)) }
{
    Ok(Expr::Name(name(alloc, class)?))
}

// The name of a class.
fn name(alloc: Global, class: u64) -> Result<String, AllocError>
    ensures { IfOk result (λ s. string_bytes s ≡ name class) }
{
    format!(in alloc; "K{class}")
}

fn integer(i: u64) -> Expr
    requires { i < 2 ^ 63 }
    ensures { tree_of result ≡ integer i }
{
    Expr::Const(Constant::Int(i as i64))
}
