//! Copies of expressions, commands and replies, which stand for the same trees and replies.

ghost use Rattle.py_node.specs.Below.{map, string_bytes, IfOk};
ghost use Rattle.std.specs.Prelude.{◌≡◌};
ghost use Rattle.py_node.specs.Tree.{literal_of, texts_of, tree_of, part_of, pair_of};
ghost use Rattle.py_node.specs.Replies.{reply_of, started_of, reply_answer_of};

use crate::expr::{CallParts, ClassParts, Command, Constant, Expr, FuncParts, SetAttrParts};
use crate::memory::OutOfMemory;
use crate::reply::{BodyCall, Reply, ReplyAnswer};
use std::alloc::Global;

impl Constant {
    /// The same constant, unless memory runs out.
    pub fn try_clone(&self, alloc: Global) -> Result<Constant, OutOfMemory>
        ensures { IfOk result (λ k. literal_of k ≡ literal_of self.now) }
    {
        match self {
            Constant::None => Ok(Constant::None),
            Constant::False => Ok(Constant::False),
            Constant::True => Ok(Constant::True),
            Constant::Int(value) => Ok(Constant::Int(*value)),
            Constant::Str(text) => Ok(Constant::Str(copy_text(alloc, text)?)),
        }
    }
}

impl Expr {
    /// The same expression, unless memory runs out.
    #[cycle(copy)]
    pub fn try_clone(&self, alloc: Global) -> Result<Expr, OutOfMemory>
        ensures { IfOk result (λ e. tree_of e ≡ tree_of self.now) }
    {
        match self {
            Expr::Const(constant) => Ok(Expr::Const(constant.try_clone(alloc)?)),
            Expr::Name(name) => Ok(Expr::Name(copy_text(alloc, name)?)),
            Expr::Bind(name, value) => {
                let name = copy_text(alloc, name)?;
                Ok(Expr::Bind(name, copy_box(alloc, value)?))
            }
            Expr::Tuple(items) => Ok(Expr::Tuple(copy_all(alloc, items)?)),
            Expr::List(items) => Ok(Expr::List(copy_all(alloc, items)?)),
            Expr::Dict(pairs) => Ok(Expr::Dict(copy_pairs(alloc, pairs)?)),
            Expr::Func(func) => {
                let name = copy_text(alloc, &func.name)?;
                let params = copy_texts(alloc, &func.params)?;
                let body = func.body.try_clone(alloc)?;
                let parts = FuncParts {
                    name,
                    params,
                    rest: func.rest,
                    body,
                };
                let boxed = Box::new(alloc, parts)?;
                Ok(Expr::Func(boxed))
            }
            Expr::Attr(object, name) => {
                let object = copy_box(alloc, object)?;
                Ok(Expr::Attr(object, copy_text(alloc, name)?))
            }
            Expr::SetAttr(set) => {
                let object = set.object.try_clone(alloc)?;
                let name = copy_text(alloc, &set.name)?;
                let value = set.value.try_clone(alloc)?;
                let parts = SetAttrParts {
                    object,
                    name,
                    value,
                };
                let boxed = Box::new(alloc, parts)?;
                Ok(Expr::SetAttr(boxed))
            }
            Expr::DelAttr(object, name) => {
                let object = copy_box(alloc, object)?;
                Ok(Expr::DelAttr(object, copy_text(alloc, name)?))
            }
            Expr::Call(call) => {
                let function = call.function.try_clone(alloc)?;
                let args = copy_all(alloc, &call.args)?;
                let keywords = copy_entries(alloc, &call.keywords)?;
                let parts = CallParts {
                    function,
                    args,
                    keywords,
                };
                let boxed = Box::new(alloc, parts)?;
                Ok(Expr::Call(boxed))
            }
            Expr::Op(word, operands) => Ok(Expr::Op(*word, copy_all(alloc, operands)?)),
            Expr::If(condition, then, otherwise) => {
                let condition = copy_box(alloc, condition)?;
                let then = copy_box(alloc, then)?;
                Ok(Expr::If(condition, then, copy_box(alloc, otherwise)?))
            }
            Expr::Seq(items) => Ok(Expr::Seq(copy_all(alloc, items)?)),
            Expr::Raise(kind) => Ok(Expr::Raise(*kind)),
            Expr::Class(class) => {
                let name = copy_text(alloc, &class.name)?;
                let bases = copy_all(alloc, &class.bases)?;
                let keywords = copy_entries(alloc, &class.keywords)?;
                let entries = copy_entries(alloc, &class.entries)?;
                let parts = ClassParts {
                    name,
                    bases,
                    keywords,
                    entries,
                };
                let boxed = Box::new(alloc, parts)?;
                Ok(Expr::Class(boxed))
            }
        }
    }
}

// The same expression, in a box of its own.
#[cycle(copy)]
fn copy_box(alloc: Global, expr: &Box<Expr>) -> Result<Box<Expr>, OutOfMemory>
    ensures { IfOk result (λ e. tree_of e.value ≡ tree_of expr.now.value) }
{
    let copy = expr.as_ref().try_clone(alloc)?;
    Ok(Box::new(alloc, copy)?)
}

// The same expressions, in order.
#[cycle(copy)]
fn copy_all(alloc: Global, exprs: &Vec<Expr>) -> Result<Vec<Expr>, OutOfMemory>
    ensures { IfOk result (λ es. map tree_of es.items ≡ map tree_of exprs.now.items) }
{
    let mut copies = Vec::with_capacity(alloc, exprs.len())?;
    for expr in exprs {
        copies.push(expr.try_clone(alloc)?)?;
    }
    Ok(copies)
}

// The same names with the same expressions, in order.
#[cycle(copy)]
fn copy_entries(
    alloc: Global,
    entries: &Vec<(String, Expr)>,
) -> Result<Vec<(String, Expr)>, OutOfMemory>
    ensures { IfOk result (λ es. map part_of es.items ≡ map part_of entries.now.items) }
{
    let mut copies = Vec::with_capacity(alloc, entries.len())?;
    for (name, expr) in entries {
        let name = copy_text(alloc, name)?;
        copies.push((name, expr.try_clone(alloc)?))?;
    }
    Ok(copies)
}

// The same keys with the same values, in order.
#[cycle(copy)]
fn copy_pairs(alloc: Global, pairs: &Vec<(Expr, Expr)>) -> Result<Vec<(Expr, Expr)>, OutOfMemory>
    ensures { IfOk result (λ ps. map pair_of ps.items ≡ map pair_of pairs.now.items) }
{
    let mut copies = Vec::with_capacity(alloc, pairs.len())?;
    for (key, value) in pairs {
        let key = key.try_clone(alloc)?;
        copies.push((key, value.try_clone(alloc)?))?;
    }
    Ok(copies)
}

impl Command {
    /// The same command, unless memory runs out.
    pub fn try_clone(&self, alloc: Global) -> Result<Command, OutOfMemory>
        ensures { IfOk result (λ c. tree_of c.expr ≡ tree_of self.now.expr) }
    {
        Ok(Command {
            expr: self.expr.try_clone(alloc)?,
        })
    }
}

impl BodyCall {
    /// The same call, unless memory runs out.
    pub fn try_clone(&self, alloc: Global) -> Result<BodyCall, OutOfMemory>
        ensures { IfOk result (λ c. started_of c ≡ started_of self.now) }
    {
        let name = copy_text(alloc, &self.name)?;
        let args = copy_texts(alloc, &self.args)?;
        Ok(BodyCall { name, args })
    }
}

impl ReplyAnswer {
    /// The same answer, unless memory runs out.
    pub fn try_clone(&self, alloc: Global) -> Result<ReplyAnswer, OutOfMemory>
        ensures { IfOk result (λ a. reply_answer_of a ≡ reply_answer_of self.now) }
    {
        match self {
            ReplyAnswer::Value(value, text) => {
                Ok(ReplyAnswer::Value(*value, copy_text(alloc, text)?))
            }
            ReplyAnswer::Raised(fault) => Ok(ReplyAnswer::Raised(*fault)),
            ReplyAnswer::Budget => Ok(ReplyAnswer::Budget),
        }
    }
}

impl Reply {
    /// The same reply, unless memory runs out.
    pub fn try_clone(&self, alloc: Global) -> Result<Reply, OutOfMemory>
        ensures { IfOk result (λ r. reply_of r ≡ reply_of self.now) }
    {
        let answer = self.answer.try_clone(alloc)?;
        let calls = copy_calls(alloc, &self.calls)?;
        Ok(Reply { answer, calls })
    }
}

// The same calls, in order.
fn copy_calls(alloc: Global, calls: &Vec<BodyCall>) -> Result<Vec<BodyCall>, OutOfMemory>
    ensures { IfOk result (λ cs. map started_of cs.items ≡ map started_of calls.now.items) }
{
    let mut copies = Vec::with_capacity(alloc, calls.len())?;
    for call in calls {
        copies.push(call.try_clone(alloc)?)?;
    }
    Ok(copies)
}

// The same text.
fn copy_text(alloc: Global, text: &String) -> Result<String, OutOfMemory>
    ensures { IfOk result (λ s. string_bytes s ≡ string_bytes text.now) }
{
    Ok(String::from_str(alloc, text.as_str())?)
}

// The same texts, in order.
fn copy_texts(alloc: Global, texts: &Vec<String>) -> Result<Vec<String>, OutOfMemory>
    ensures { IfOk result (λ ss. texts_of ss.items ≡ texts_of texts.now.items) }
{
    let mut copies = Vec::with_capacity(alloc, texts.len())?;
    for text in texts {
        copies.push(copy_text(alloc, text)?)?;
    }
    Ok(copies)
}
