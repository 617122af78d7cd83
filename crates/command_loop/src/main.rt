//! Runs a script, and then its last command so many times more on the same machine: `bench/versus` times it. Its words
//! are `run N`, as the program's; here N is how often. The exit status is 3 where there is no such script.
#![tactic(auto)]

use outside::StdSource;
use outside::read_all::read_all;
use outside::words::{Job, Question, job_of};
use script_text::read_script;
use std::alloc::Global;
use std::process::ExitCode;
use std::{env, io};
use vm_eval::VirtualMachine;

// What each command may spend.
const UNITS: u64 = 1_000_000;

fn main(rt: HostRuntime) -> io::Result<ExitCode> {
    let mut words = Vec::new(rt.alloc());
    for word in env::args(&rt)?.skip(1) {
        words.push(word)?;
    }
    let mut source = StdSource::new(rt.stdin());
    let bytes = read_all(rt.alloc(), &mut source).unwrap_or(Vec::new(rt.alloc()));
    let times = match job_of(&words) {
        Some(Job::Answer(Question::Run(times))) => times,
        _ => 0,
    };
    match repeated(rt.alloc(), &bytes, times) {
        None => Ok(ExitCode::from(3)),
        Some(()) => {
            println!(rt; "{times} times")?;
            Ok(ExitCode::from(0))
        }
    }
}

// Runs the script that bytes spell, and its last command so many times more.
fn repeated(alloc: Global, bytes: &[u8], times: u64) -> Option<()> {
    let commands = read_script(alloc, bytes).ok()?;
    let mut vm = VirtualMachine::new(alloc).ok()?;
    vm.run(&commands, UNITS).ok()?;
    if !commands.is_empty() {
        let last = &commands[commands.len() - 1..];
        for _ in 0..times {
            vm.run(last, UNITS).ok()?;
        }
    }
    Some(())
}
