//! Calls of the program over a source and a sink in memory that move a byte at a time.

use crate::index::Case;
use outside::{MemorySink, MemorySource};
use serve::Status;
use serve::top::serve;
use std::alloc::{AllocError, Global};
use std::sync::Wait;
use std::thread::Threads;

/// How a call ended, and what the sink has taken.
#[derive(Drop)]
pub struct Told {
    pub status: Status,
    pub taken: Vec<u8>,
}

/// A call of which one read or one write may fail.
pub fn once<R: AllocGlobal + Threads + Wait + Sync>(
    rt: &R,
    case: &Case,
    script: &[u8],
    failing_read: Option<u64>,
    failing_write: Option<u64>,
) -> Result<Told, AllocError> {
    let alloc = rt.alloc();
    let mut source = MemorySource::new(script.to_vec(alloc)?, 1, calls(alloc, failing_read)?);
    let mut sink = MemorySink::new(alloc, 1, calls(alloc, failing_write)?);
    let status = serve(rt, &case.words, &mut source, &mut sink);
    Ok(Told {
        status,
        taken: sink.bytes().to_vec(alloc)?,
    })
}

fn calls(alloc: Global, call: Option<u64>) -> Result<Vec<u64>, AllocError> {
    let mut calls = Vec::new(alloc);
    if let Some(call) = call {
        calls.push(call)?;
    }
    Ok(calls)
}

/// What is written of a call each of whose reads fails in turn, the one that would tell the end too: whether each ended as
/// it should, and how the call ends whose reads don't reach the failing one.
pub fn each_read<R: AllocGlobal + Threads + Wait + Sync>(
    rt: &R,
    case: &Case,
    script: &[u8],
) -> Result<Vec<u8>, AllocError> {
    let reads = (script.len() as u64).saturating_add(1);
    let mut is_well = true;
    for call in 0..reads {
        let told = once(rt, case, script, Some(call), None)?;
        is_well = is_well && told.status == Status::ReadFault && told.taken.is_empty();
    }
    let last = once(rt, case, script, Some(reads), None)?;
    let how = how_many(is_well);
    let word = last.status.word().unwrap_or("Done");
    let text = format!(in rt.alloc();
        "## {}\n{how} of {reads} reads fails as ReadFault with nothing written, then {word}\n",
        case.name
    )?;
    Ok(text.into_bytes())
}

/// The same of its writes: what was taken then is a front of the text.
pub fn each_write<R: AllocGlobal + Threads + Wait + Sync>(
    rt: &R,
    case: &Case,
    script: &[u8],
) -> Result<Vec<u8>, AllocError> {
    let whole = once(rt, case, script, None, None)?;
    let writes = whole.taken.len();
    let mut is_well = true;
    for call in 0..writes {
        let told = once(rt, case, script, None, Some(call as u64))?;
        is_well = is_well
            && told.status == Status::WriteFault
            && told.taken.as_slice() == &whole.taken[..call];
    }
    let how = how_many(is_well);
    let word = whole.status.word().unwrap_or("Done");
    let text = format!(in rt.alloc();
        "## {}\n{how} of {writes} writes fails as WriteFault with a front of the text, else {word}\n",
        case.name
    )?;
    Ok(text.into_bytes())
}

fn how_many(is_well: bool) -> &'static str {
    if is_well { "each" } else { "NOT each" }
}
