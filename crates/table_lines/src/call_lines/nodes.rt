//! Names, attributes and members, and copies of what scripts and replies consist of.

use crate::Table;
use py_node::{
    BodyCall, Cause, Command, Constant, Expr, Kind, Names, OutOfMemory, PyAttributes, PyMembers,
    PyNumberBinaryOp, PyObjectRef, PyStrInterned, PyTypeFlags, Raised, Reply, ReplyAnswer, SlotId,
    Word,
};
use std::alloc::{AllocError, Global};

const NAME: PyStrInterned = PyStrInterned(5);

const VALUE: PyObjectRef = PyObjectRef(10);

const OTHER: PyObjectRef = PyObjectRef(11);

pub fn put(table: &mut Table, alloc: Global) {
    table.put("Names::intern", interned(alloc));
    table.put("PyAttributes::insert", inserted(alloc));
    table.put("PyAttributes::try_clone", copied_attributes(alloc));
    table.put("PyMembers::set", set_member(alloc));
    table.put("Constant::try_clone", copied_constant(alloc));
    table.put("Expr::try_clone", copied_expr(alloc));
    table.put("Command::try_clone", copied_command(alloc));
    table.put("BodyCall::try_clone", copied_call(alloc));
    table.put("ReplyAnswer::try_clone", copied_answer(alloc));
    table.put("Reply::try_clone", copied_reply(alloc));
    table.tell(
        "PyTypeFlags::heap_type_flags",
        &flags(PyTypeFlags::heap_type_flags()),
    );
    table.tell(
        "PyTypeFlags::of_script_class",
        &(
            flags(PyTypeFlags::of_script_class(true)),
            flags(PyTypeFlags::of_script_class(false)),
        ),
    );
    put_words(table);
}

// The words of faults that hosts alone meet, and of slots that no class of a script fills.
fn put_words(table: &mut Table) {
    for cause in [
        Cause::MemberBool,
        Cause::ReadOnly,
        Cause::NotSequence,
        Cause::NotMapping,
    ] {
        table.tell("Cause::word", &(cause.kind().word(), cause.word()));
    }
    for slot in [
        SlotId::Negative,
        SlotId::Positive,
        SlotId::Absolute,
        SlotId::Invert,
        SlotId::Boolean,
        SlotId::Concat,
        SlotId::Repeat,
        SlotId::InplaceConcat,
        SlotId::InplaceRepeat,
    ] {
        table.tell("SlotId::name", &slot.name());
    }
}

// The numbers of two texts, one of which comes twice.
fn interned(alloc: Global) -> Result<(PyStrInterned, PyStrInterned, PyStrInterned), OutOfMemory> {
    let mut names = Names::new(alloc);
    let first = names.intern("x")?;
    let second = names.intern("y")?;
    Ok((first, second, names.intern("x")?))
}

// A name that has a value, given after another name's and in place of an earlier one.
fn attributes(alloc: Global) -> Result<PyAttributes, OutOfMemory> {
    let mut attributes = PyAttributes::new(alloc);
    attributes.insert(NAME, OTHER)?;
    attributes.insert(PyStrInterned(3), OTHER)?;
    attributes.insert(NAME, VALUE)?;
    Ok(attributes)
}

// The value, and how many names have one.
fn inserted(alloc: Global) -> Result<(Option<PyObjectRef>, usize), OutOfMemory> {
    let attributes = attributes(alloc)?;
    Ok((attributes.get(NAME), attributes.len()))
}

fn copied_attributes(alloc: Global) -> Result<Option<PyObjectRef>, OutOfMemory> {
    Ok(attributes(alloc)?.try_clone(alloc)?.get(NAME))
}

fn set_member(alloc: Global) -> Result<Option<PyObjectRef>, OutOfMemory> {
    let mut members = PyMembers::with_places(alloc, 1)?;
    members.set(0, Some(VALUE));
    Ok(members.get(0))
}

fn copied_constant(alloc: Global) -> Result<Constant, OutOfMemory> {
    Constant::Str(String::from_str(alloc, "text")?).try_clone(alloc)
}

// The number that an expression is.
fn number_in(expr: &Expr) -> Option<i64> {
    match expr {
        Expr::Const(Constant::Int(number)) => Some(*number),
        _ => None,
    }
}

fn copied_expr(alloc: Global) -> Result<Option<i64>, OutOfMemory> {
    let copy = Expr::Const(Constant::Int(33)).try_clone(alloc)?;
    Ok(number_in(&copy))
}

/// The numbers of which an expression is the sum.
pub fn sum_in(expr: &Expr) -> Option<(i64, i64)> {
    match expr {
        Expr::Op(Word::Binary(PyNumberBinaryOp::Add), operands) => match operands.as_slice() {
            [a, b] => Some((number_in(a)?, number_in(b)?)),
            _ => None,
        },
        _ => None,
    }
}

fn copied_command(alloc: Global) -> Result<Option<(i64, i64)>, OutOfMemory> {
    let operands = vec![in alloc;
        Expr::Const(Constant::Int(33)),
        Expr::Const(Constant::Int(12)),
    ]?;
    let command = Command {
        expr: Expr::Op(Word::Binary(PyNumberBinaryOp::Add), operands),
    };
    Ok(sum_in(&command.try_clone(alloc)?.expr))
}

// A body that was started.
fn call(alloc: Global) -> Result<BodyCall, AllocError> {
    Ok(BodyCall {
        name: String::from_str(alloc, "f")?,
        args: Vec::new(alloc),
    })
}

fn copied_call(alloc: Global) -> Result<String, OutOfMemory> {
    Ok(call(alloc)?.try_clone(alloc)?.name)
}

const FAULT: Raised = Raised {
    kind: Kind::TypeError,
    cause: Cause::NotCallable,
};

// The fault that a command ended with.
fn fault_in(answer: &ReplyAnswer) -> Option<Raised> {
    match answer {
        ReplyAnswer::Raised(raised) => Some(*raised),
        _ => None,
    }
}

fn copied_answer(alloc: Global) -> Result<Option<Raised>, OutOfMemory> {
    let copy = ReplyAnswer::Raised(FAULT).try_clone(alloc)?;
    Ok(fault_in(&copy))
}

// The fault, and how many bodies were started.
fn copied_reply(alloc: Global) -> Result<(Option<Raised>, usize), OutOfMemory> {
    let reply = Reply {
        answer: ReplyAnswer::Raised(FAULT),
        calls: vec![in alloc; call(alloc)?]?,
    };
    let copy = reply.try_clone(alloc)?;
    Ok((fault_in(&copy.answer), copy.calls.len()))
}

// Whether a class with these flags may have subclasses, whether its objects have dicts, and whether it stays as it is.
fn flags(flags: PyTypeFlags) -> (bool, bool, bool) {
    (
        flags.has_feature(PyTypeFlags::BASETYPE),
        flags.has_feature(PyTypeFlags::HAS_DICT),
        flags.has_feature(PyTypeFlags::IMMUTABLETYPE),
    )
}
