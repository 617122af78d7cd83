//! Runs the worked scripts: each line of the file `index` is a call of the program, over a source and a sink in memory
//! that move a byte at a time. Writes of each its name, the word for how it ended, and the text that the sink has taken.
//! The files are looked for where it runs, or in the folder that its first word names.
#![tactic(auto)]

mod calls;
mod index;

use calls::{each_read, each_write, once};
use index::{Case, Failing, case_of};
use outside::StdSink;
use outside::write_all::write_all;
use std::alloc::{AllocError, Global};
use std::process::ExitCode;
use std::sync::Wait;
use std::thread::Threads;
use std::{env, fs, io};

fn main(rt: HostRuntime) -> io::Result<ExitCode> {
    let folder = env::args(&rt)?
        .nth(1)
        .unwrap_or(String::from_str(rt.alloc(), ".")?);
    let index = fs::read_to_string(&rt, path(rt.alloc(), folder.as_str(), "index")?)?;
    let mut sink = StdSink::new(io::writer(&rt));
    for line in index.as_str().lines() {
        if let Some(case) = case_of(rt.alloc(), line)? {
            let script = fs::read(
                &rt,
                path(rt.alloc(), folder.as_str(), case.script.as_str())?,
            )?;
            if write_all(&mut sink, &told(&rt, &case, &script)?).is_err() {
                return Ok(ExitCode::from(1));
            }
        }
    }
    Ok(ExitCode::from(0))
}

fn path(alloc: Global, folder: &str, name: &str) -> Result<String, AllocError> {
    format!(in alloc; "{folder}/{name}")
}

// What is written of a call.
fn told<R: AllocGlobal + Threads + Wait + Sync>(
    rt: &R,
    case: &Case,
    script: &[u8],
) -> Result<Vec<u8>, AllocError> {
    let told = match case.failing {
        Failing::Nothing => once(rt, case, script, None, None)?,
        Failing::Read(call) => once(rt, case, script, Some(call), None)?,
        Failing::Write(call) => once(rt, case, script, None, Some(call))?,
        Failing::EachRead => return each_read(rt, case, script),
        Failing::EachWrite => return each_write(rt, case, script),
    };
    let word = told.status.word().unwrap_or("Done");
    let mut text = format!(in rt.alloc(); "## {}\n{word}\n", case.name)?.into_bytes();
    text.extend_from_slice(&told.taken)?;
    Ok(text)
}
