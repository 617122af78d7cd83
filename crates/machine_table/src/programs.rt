//! What the program does: commands that are generated, and words and scripts that are served.

use generator::commands::{change_command, class_command};
use generator::{Draws, Tally};
use outside::{MemorySink, MemorySource};
use py_node::{Expr, OutOfMemory};
use serve::Status;
use serve::top::serve;
use std::alloc::{AllocError, Global};
use std::sync::Wait;
use std::thread::Threads;
use table_lines::{NoValue, Table};

pub fn put<R: AllocGlobal + Threads + Wait + Sync>(table: &mut Table, rt: &R) {
    let alloc = rt.alloc();
    table.put("generator::class_command", class(alloc));
    table.put("generator::change_command", change(alloc));
    table.put_bytes("Tally::text", Tally::new().text(alloc));
    table.put_bytes(
        "serve::serve with run",
        served(rt, &["run", "1000"], b"[33]"),
    );
    table.put_bytes("serve::serve with gen", served(rt, &["gen", "1", "3"], b""));
    table.put_bytes(
        "serve::serve with share",
        served(rt, &["share", "1000"], b"[[33],[1]]"),
    );
}

// The name that the second class is bound to.
fn class(alloc: Global) -> Result<Option<String>, OutOfMemory> {
    match class_command(alloc, &mut Draws::new(1), 1)?.expr {
        Expr::Bind(name, _) => Ok(Some(name)),
        _ => Ok(None),
    }
}

// The attribute that the first change of another seed sets.
fn change(alloc: Global) -> Result<Option<String>, OutOfMemory> {
    match change_command(alloc, &mut Draws::new(3), 0)?.expr {
        Expr::SetAttr(set) => Ok(Some(Box::into_inner(set).name)),
        _ => Ok(None),
    }
}

// The texts as words.
fn words(alloc: Global, texts: &[&str]) -> Result<Vec<String>, AllocError> {
    let mut words = Vec::new(alloc);
    for text in texts {
        words.push(String::from_str(alloc, text)?)?;
    }
    Ok(words)
}

// What is written where all is well.
fn served<R: AllocGlobal + Threads + Wait + Sync>(
    rt: &R,
    texts: &[&str],
    script: &[u8],
) -> Result<Vec<u8>, NoValue> {
    let alloc = rt.alloc();
    let words = words(alloc, texts)?;
    let mut source = MemorySource::new(script.to_vec(alloc)?, 1, Vec::new(alloc));
    let mut sink = MemorySink::new(alloc, 1, Vec::new(alloc));
    match serve(rt, &words, &mut source, &mut sink) {
        Status::Done => Ok(sink.bytes().to_vec(alloc)?),
        _ => Err(NoValue),
    }
}
