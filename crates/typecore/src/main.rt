//! The program: it reads a script, sessions or a hierarchy from standard input and writes what answers it.
#![tactic(auto)]

use outside::{StdSink, StdSource};
use serve::Status;
use serve::top::serve;
use std::process::ExitCode;
use std::sync::Wait;
use std::thread::Threads;
use std::{env, io};

fn main(rt: HostRuntime) -> ExitCode {
    let status = run(&rt, &rt);
    if let Some(word) = status.word() {
        // Where standard error can't be told either, the exit status still is.
        let _ = eprintln!(rt; "typecore: {word}");
    }
    ExitCode::from(status.code())
}

// Serves standard input, with a handle that may start threads and wait for them. Words that are no text are none that the program knows.
fn run<R: AllocGlobal + Threads + Wait + Sync>(rt: &HostRuntime, threads: &R) -> Status {
    match words(rt) {
        Ok(words) => {
            let mut source = StdSource::new(rt.stdin());
            let mut sink = StdSink::new(io::writer(rt));
            serve(threads, &words, &mut source, &mut sink)
        }
        Err(error) => match error.kind() {
            io::ErrorKind::OutOfMemory => Status::OutOfMemory,
            _ => Status::Usage,
        },
    }
}

// The words after the program's name.
fn words(rt: &HostRuntime) -> io::Result<Vec<String>> {
    let mut words = Vec::new(rt.alloc());
    for word in env::args(rt)?.skip(1) {
        words.push(word)?;
    }
    Ok(words)
}
