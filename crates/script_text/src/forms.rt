//! The forms of expressions.

ghost use Rattle.script_text.specs.Below.{Some, None, Err, IfOk, map, option_and_then, option_map, string_bytes, as_str, view, items_view, TIf, TName, TRaise, TSetAttr, pair_of, texts_of, tree_of};
ghost use Rattle.std.specs.Prelude.{◌≡◌, ◌≢◌};
ghost use Rattle.script_text.specs.Forms.{all_differ, array_of, call, class, differing, entries_in, entry_of, expr_of, exprs_of, kind_named, named, pair_in, pairs_in, params_of};
ghost use Rattle.script_text.specs.FormParts.{many_tree, parts_tree, single_tree};

use crate::form_parts::{Many, Parts, Single, pair_items, parts_of};
use crate::json_text::Unread;
use crate::json_text::texts::{read_text, read_texts};
use crate::words::read_kind;
use py_node::{CallParts, ClassParts, Constant, Expr, FuncParts, SetAttrParts};
use serde_json::Value;
use std::alloc::{AllocError, Global};
use std::collections::BTreeSet;

// The parameters of a function: strings that all differ. Where the last is to take the rest of the arguments, there is
// one at least.
fn read_params(alloc: Global, rest: bool, value: &Value) -> Result<Vec<String>, Unread>
    ensures ok { IfOk result (λ v. params_of rest (view value.now) ≡ Some (texts_of v.items)) }
    ensures shape { result ≡ Err Unread.Shape → params_of rest (view value.now) ≡ None }
{
    match value {
        Value::Array(items) => {
            let names = read_names(alloc, items.as_slice())?;
            if rest && names.is_empty() {
                Err(Unread::Shape)
            } else {
                Ok(names)
            }
        }
        _ => Err(Unread::Shape),
    }
}

fn read_names(alloc: Global, items: &[Value]) -> Result<Vec<String>, Unread>
    ensures ok { IfOk result (λ v. differing (items_view items.now) ≡ Some (texts_of v.items)) }
    ensures shape { result ≡ Err Unread.Shape → differing (items_view items.now) ≡ None }
{
    let texts = read_texts(alloc, items)?;
    if is_distinct(alloc, texts.as_slice())? {
        Ok(texts)
    } else {
        Err(Unread::Shape)
    }
}

// Whether no text of a list stands twice.
fn is_distinct(alloc: Global, texts: &[String]) -> Result<bool, AllocError>
    ensures { IfOk result (λ b. b ≡ all_differ (texts_of texts.now)) }
{
    let mut later = BTreeSet::new(alloc);
    let mut i = texts.len();
    'texts: while 0 < i {
        i -= 1;
        if !later.insert(texts[i].as_str())? {
            return Ok(false);
        }
    }
    Ok(true)
}

// The expression that a value spells.
#[tactic(auto, unfolding(crate::specs::Forms::expr_of))]
#[cycle(forms)]
pub(crate) fn read_expr(alloc: Global, value: &Value) -> Result<Expr, Unread>
    ensures ok { IfOk result (λ e. expr_of (view value.now) ≡ Some (tree_of e)) }
    ensures shape { result ≡ Err Unread.Shape → expr_of (view value.now) ≡ None }
{
    match value {
        Value::Null => Ok(Expr::Const(Constant::None)),
        Value::Bool(false) => Ok(Expr::Const(Constant::False)),
        Value::Bool(true) => Ok(Expr::Const(Constant::True)),
        Value::Number(n) => match n.as_i64() {
            Some(z) => Ok(Expr::Const(Constant::Int(z))),
            None => Err(Unread::Shape),
        },
        Value::String(s) => Ok(Expr::Const(Constant::Str(s.clone()?))),
        Value::Array(items) => read_array(alloc, items.as_slice()),
        Value::Object(_) => Err(Unread::Shape),
    }
}

// What an array spells: a form, by its word.
#[cycle(forms)]
fn read_array(alloc: Global, items: &[Value]) -> Result<Expr, Unread>
    ensures ok { IfOk result (λ e. array_of (items_view items.now) ≡ Some (tree_of e)) }
    ensures shape { result ≡ Err Unread.Shape → array_of (items_view items.now) ≡ None }
{
    let parts = parts_of(items)?;
    read_parts(alloc, parts)
}

// What the parts of a form spell.
#[cycle(forms)]
fn read_parts(alloc: Global, parts: Parts<'_>) -> Result<Expr, Unread>
    ensures ok { IfOk result (λ e. parts_tree parts.entry ≡ Some (tree_of e)) }
    ensures shape { result ≡ Err Unread.Shape → parts_tree parts.entry ≡ None }
{
    match parts {
        Parts::Name(name) => read_name(alloc, name),
        Parts::Raise(word) => read_raise(word),
        Parts::Single(single, value) => {
            let expr = read_expr(alloc, value)?;
            single_of(alloc, single, expr)
        }
        Parts::SetAttr(object, name, value) => {
            let target = read_expr(alloc, object)?;
            let text = read_text(alloc, name)?;
            let expr = read_expr(alloc, value)?;
            set_attr_of(alloc, target, text, expr)
        }
        Parts::If(condition, first, second) => {
            let test = read_expr(alloc, condition)?;
            let chosen = read_expr(alloc, first)?;
            let other = read_expr(alloc, second)?;
            if_of(alloc, test, chosen, other)
        }
        Parts::Many(many, values) => {
            let exprs = read_exprs(alloc, values)?;
            many_of(many, exprs)
        }
        Parts::Dict(values) => {
            let pairs = read_pairs(alloc, values)?;
            Ok(Expr::Dict(pairs))
        }
        Parts::Call(callee, values, keyword_list) => {
            let function = read_expr(alloc, callee)?;
            let args = read_exprs(alloc, values)?;
            let keywords = read_entries(alloc, keyword_list)?;
            call_of(alloc, function, args, keywords)
        }
        Parts::Class(name, base_list, entry_list, keyword_list) => {
            let text = read_text(alloc, name)?;
            let bases = read_exprs(alloc, base_list)?;
            let entries = read_entries(alloc, entry_list)?;
            let keywords = read_entries(alloc, keyword_list)?;
            class_of(alloc, text, bases, keywords, entries)
        }
    }
}

// A name.
fn read_name(alloc: Global, name: &Value) -> Result<Expr, Unread>
    ensures ok { IfOk result (λ e. option_map TName (as_str (view name.now)) ≡ Some (tree_of e)) }
    ensures shape { result ≡ Err Unread.Shape → option_map TName (as_str (view name.now)) ≡ None }
{
    let text = read_text(alloc, name)?;
    Ok(Expr::Name(text))
}

// The kind of a fault.
fn read_raise(word: &Value) -> Result<Expr, Unread>
    ensures ok { IfOk result (λ e.
        option_map TRaise (option_and_then kind_named (as_str (view word.now))) ≡ Some (tree_of e)) }
    ensures shape { result ≡ Err Unread.Shape →
        option_map TRaise (option_and_then kind_named (as_str (view word.now))) ≡ None }
{
    let kind = read_kind(word)?;
    Ok(Expr::Raise(kind))
}

// An expression with what stands beside it.
fn single_of(alloc: Global, single: Single<'_>, expr: Expr) -> Result<Expr, Unread>
    ensures ok { IfOk result (λ e. single_tree single.entry (Some (tree_of expr)) ≡ Some (tree_of e)) }
    ensures shape { result ≡ Err Unread.Shape → single_tree single.entry (Some (tree_of expr)) ≡ None }
{
    match single {
        Single::Bind(name) => {
            let text = read_text(alloc, name)?;
            Ok(Expr::Bind(text, Box::new(alloc, expr)?))
        }
        Single::Func(rest, name, params) => {
            let text = read_text(alloc, name)?;
            let texts = read_params(alloc, rest, params)?;
            let parts = FuncParts {
                name: text,
                params: texts,
                rest,
                body: expr,
            };
            Ok(Expr::Func(Box::new(alloc, parts)?))
        }
        Single::Attr(name) => {
            let text = read_text(alloc, name)?;
            Ok(Expr::Attr(Box::new(alloc, expr)?, text))
        }
        Single::DelAttr(name) => {
            let text = read_text(alloc, name)?;
            Ok(Expr::DelAttr(Box::new(alloc, expr)?, text))
        }
    }
}

// An attribute that is set.
fn set_attr_of(alloc: Global, target: Expr, name: String, expr: Expr) -> Result<Expr, Unread>
    ensures ok { IfOk result (λ e. tree_of e ≡ TSetAttr (tree_of target) (string_bytes name) (tree_of expr)) }
    ensures shape { result ≢ Err Unread.Shape }
{
    let parts = SetAttrParts {
        object: target,
        name,
        value: expr,
    };
    Ok(Expr::SetAttr(Box::new(alloc, parts)?))
}

// A choice between two expressions.
fn if_of(alloc: Global, condition: Expr, first: Expr, second: Expr) -> Result<Expr, Unread>
    ensures ok { IfOk result (λ e. tree_of e ≡ TIf (tree_of condition) (tree_of first) (tree_of second)) }
    ensures shape { result ≢ Err Unread.Shape }
{
    Ok(Expr::If(
        Box::new(alloc, condition)?,
        Box::new(alloc, first)?,
        Box::new(alloc, second)?,
    ))
}

// Expressions one after another: those of an operation are as many as its word takes.
fn many_of(many: Many, exprs: Vec<Expr>) -> Result<Expr, Unread>
    ensures ok { IfOk result (λ e. many_tree many (Some (map tree_of exprs.items)) ≡ Some (tree_of e)) }
    ensures shape { result ≡ Err Unread.Shape → many_tree many (Some (map tree_of exprs.items)) ≡ None }
{
    match many {
        Many::Tuple => Ok(Expr::Tuple(exprs)),
        Many::List => Ok(Expr::List(exprs)),
        Many::Seq => Ok(Expr::Seq(exprs)),
        Many::Op(word, arity) => {
            if arity.allows(exprs.len()) {
                Ok(Expr::Op(word, exprs))
            } else {
                Err(Unread::Shape)
            }
        }
    }
}

// A call.
fn call_of(
    alloc: Global,
    function: Expr,
    args: Vec<Expr>,
    keywords: Vec<(String, Expr)>,
) -> Result<Expr, Unread>
    ensures ok { IfOk result (λ e.
        tree_of e ≡ call (tree_of function) (map tree_of args.items) (map named keywords.items)) }
    ensures shape { result ≢ Err Unread.Shape }
{
    let parts = CallParts {
        function,
        args,
        keywords,
    };
    Ok(Expr::Call(Box::new(alloc, parts)?))
}

// A class.
fn class_of(
    alloc: Global,
    name: String,
    bases: Vec<Expr>,
    keywords: Vec<(String, Expr)>,
    entries: Vec<(String, Expr)>,
) -> Result<Expr, Unread>
    ensures ok { IfOk result (λ e. tree_of e ≡ class (string_bytes name) (map tree_of bases.items)
        (map named entries.items) (map named keywords.items)) }
    ensures shape { result ≢ Err Unread.Shape }
{
    let parts = ClassParts {
        name,
        bases,
        keywords,
        entries,
    };
    Ok(Expr::Class(Box::new(alloc, parts)?))
}

/// The expressions that values spell.
#[tactic(auto, unfolding(crate::specs::Forms::exprs_of))]
#[cycle(forms)]
pub(crate) fn read_exprs(alloc: Global, items: &[Value]) -> Result<Vec<Expr>, Unread>
    ensures ok { IfOk result (λ v. exprs_of (items_view items.now) ≡ Some (map tree_of v.items)) }
    ensures shape { result ≡ Err Unread.Shape → exprs_of (items_view items.now) ≡ None }
{
    let mut found = Vec::with_capacity(alloc, items.len())?;
    for item in items {
        found.push(read_expr(alloc, item)?)?;
    }
    Ok(found)
}

// The pairs of a dict.
#[tactic(auto, unfolding(crate::specs::Forms::pairs_in))]
#[cycle(forms)]
fn read_pairs(alloc: Global, items: &[Value]) -> Result<Vec<(Expr, Expr)>, Unread>
    ensures ok { IfOk result (λ v. pairs_in (items_view items.now) ≡ Some (map pair_of v.items)) }
    ensures shape { result ≡ Err Unread.Shape → pairs_in (items_view items.now) ≡ None }
{
    let mut found = Vec::with_capacity(alloc, items.len())?;
    for item in items {
        found.push(read_pair(alloc, item)?)?;
    }
    Ok(found)
}

// A pair is an array of a key and a value.
#[tactic(auto, unfolding(crate::specs::Forms::pair_in, crate::specs::Forms::paired_of))]
#[cycle(forms)]
fn read_pair(alloc: Global, value: &Value) -> Result<(Expr, Expr), Unread>
    ensures ok { IfOk result (λ p. pair_in (view value.now) ≡ Some (pair_of p)) }
    ensures shape { result ≡ Err Unread.Shape → pair_in (view value.now) ≡ None }
{
    let (first, second) = pair_items(value)?;
    let key = read_expr(alloc, first)?;
    let value = read_expr(alloc, second)?;
    Ok((key, value))
}

// The entries of a list.
#[tactic(auto, unfolding(crate::specs::Forms::entries_in))]
#[cycle(forms)]
fn read_entries(alloc: Global, items: &[Value]) -> Result<Vec<(String, Expr)>, Unread>
    ensures ok { IfOk result (λ v. entries_in (items_view items.now) ≡ Some (map named v.items)) }
    ensures shape { result ≡ Err Unread.Shape → entries_in (items_view items.now) ≡ None }
{
    let mut found = Vec::with_capacity(alloc, items.len())?;
    for item in items {
        found.push(read_entry(alloc, item)?)?;
    }
    Ok(found)
}

// An entry is an array of a name and an expression.
#[tactic(auto, unfolding(crate::specs::Forms::entry_of, crate::specs::Forms::named_of))]
#[cycle(forms)]
fn read_entry(alloc: Global, value: &Value) -> Result<(String, Expr), Unread>
    ensures ok { IfOk result (λ e. entry_of (view value.now) ≡ Some (named e)) }
    ensures shape { result ≡ Err Unread.Shape → entry_of (view value.now) ≡ None }
{
    let (name, value) = pair_items(value)?;
    let text = read_text(alloc, name)?;
    let expr = read_expr(alloc, value)?;
    Ok((text, expr))
}
