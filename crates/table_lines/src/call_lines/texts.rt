//! Scripts as they are read, replies and classes as they are written, and bytes that come in and go out.

use crate::call_lines::nodes::sum_in;
use crate::{NoValue, Table};
use outside::read_all::read_all;
use outside::write_all::write_all;
use outside::{MemorySink, MemorySource, QuietSink, StdSink, StdSource};
use py_node::{BodyCall, Cause, Kind, OutOfMemory, PyObjectRef, Raised, Reply, ReplyAnswer};
use script_text::reply_text::class::push_class_lines;
use script_text::reply_text::escape::{escaped_string, quoted_string};
use script_text::{read_script, read_sessions, write_replies};
use std::alloc::Global;
use std::io::sink;

const HELLO: &[u8] = b"hello";

pub fn put(table: &mut Table, alloc: Global) {
    table.put("script_text::read_script", script(alloc));
    table.put("script_text::read_sessions", sessions(alloc));
    table.put_bytes("script_text::write_replies", replies(alloc));
    table.put_bytes("reply_text::push_class_lines", class_lines(alloc));
    table.put_text(
        "reply_text::escaped_string",
        escaped_string(alloc, "a\n\"\\\u{1}\u{1f}é\r\u{7f}"),
    );
    table.put_text(
        "reply_text::quoted_string",
        quoted_string(alloc, "say \"é\""),
    );
    table.put_bytes("outside::read_all", bytes_in(alloc));
    table.put_bytes(
        "outside::read_all of a StdSource",
        read_all(alloc, &mut StdSource::new(HELLO)),
    );
    table.put_bytes("outside::write_all", bytes_out(alloc));
    table.put(
        "outside::write_all to a StdSink",
        write_all(&mut StdSink::new(sink()), HELLO),
    );
    table.put_bytes("QuietSink::with_room", room(alloc));
}

// The numbers that the only command adds.
fn script(alloc: Global) -> Result<Option<(i64, i64)>, NoValue> {
    match read_script(alloc, b"[[\"op\",\"+\",33,12]]")?.as_slice() {
        [command] => Ok(sum_in(&command.expr)),
        _ => Err(NoValue),
    }
}

// How many sessions there are beside the opening.
fn sessions(alloc: Global) -> Result<usize, NoValue> {
    match read_sessions(alloc, b"[[],[1],[2,3]]")?.as_slice() {
        [_, sessions @ ..] => Ok(sessions.len()),
        [] => Err(NoValue),
    }
}

// A body that was started.
fn call(alloc: Global, name: &str, args: Vec<String>) -> Result<BodyCall, OutOfMemory> {
    let name = String::from_str(alloc, name)?;
    Ok(BodyCall { name, args })
}

// A value after two bodies were started.
fn value(alloc: Global) -> Result<Reply, OutOfMemory> {
    let object = String::from_str(alloc, "<B object>")?;
    let first = call(alloc, "add", vec![in alloc; object]?)?;
    let second = call(alloc, "loop", Vec::new(alloc))?;
    Ok(Reply {
        answer: ReplyAnswer::Value(PyObjectRef(7), String::from_str(alloc, "42")?),
        calls: vec![in alloc; first, second]?,
    })
}

// That reply, a fault, and a command that had too few units.
fn replies(alloc: Global) -> Result<Vec<u8>, OutOfMemory> {
    let fault = Raised {
        kind: Kind::TypeError,
        cause: Cause::UnsupportedOperand,
    };
    let refused = Reply {
        answer: ReplyAnswer::Raised(fault),
        calls: Vec::new(alloc),
    };
    let stopped = Reply {
        answer: ReplyAnswer::Budget,
        calls: Vec::new(alloc),
    };
    write_replies(alloc, &vec![in alloc; value(alloc)?, refused, stopped]?)
}

fn class_lines(alloc: Global) -> Result<Vec<u8>, OutOfMemory> {
    let mut out = Vec::new(alloc);
    push_class_lines(
        &mut out,
        "B\tC",
        &["B\tC", "A", "object"],
        &["__repr__", "hash!"],
    )?;
    push_class_lines(&mut out, "object", &["object"], &[])?;
    Ok(out)
}

// All that a source has, two bytes in a call.
fn bytes_in(alloc: Global) -> Result<Vec<u8>, NoValue> {
    let mut source = MemorySource::new(HELLO.to_vec(alloc)?, 2, Vec::new(alloc));
    Ok(read_all(alloc, &mut source)?)
}

// What a sink has taken, two bytes in a call.
fn bytes_out(alloc: Global) -> Result<Vec<u8>, NoValue> {
    let mut sink = MemorySink::new(alloc, 2, Vec::new(alloc));
    write_all(&mut sink, HELLO)?;
    Ok(sink.bytes().to_vec(alloc)?)
}

fn room(alloc: Global) -> Result<Vec<u8>, NoValue> {
    let mut sink = QuietSink::with_room(alloc, 5)?;
    write_all(&mut sink, HELLO)?;
    Ok(sink.bytes().to_vec(alloc)?)
}
