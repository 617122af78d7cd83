//! A script that is run.

ghost use Rattle.serve.specs.Below.{IfOk, Err, script_of, ScriptError as Refusal, trees_in};
ghost use Rattle.std.specs.Prelude.{◌≡◌};
ghost use Rattle.serve.specs.Headline.{IsTextOf, run_text};

use py_node::{Command, OutOfMemory};
use script_text::json_text::ScriptFault;
use script_text::{read_script, write_replies};
use std::alloc::Global;
use vm_eval::VirtualMachine;
use world_text::write_classes;

/// The text of the run of the script that bytes spell: each command has so many units.
pub fn script_text(alloc: Global, bytes: &[u8], units: u64) -> Result<Vec<u8>, ScriptFault>
    ensures text { IfOk result (λ v. IsTextOf bytes.now units v.items) }
    ensures script { (e : Refusal) → result ≡ Err (ScriptFault.Script e) → script_of bytes.now ≡ Err e }
{
    let commands = read_script(alloc, bytes)?;
    match run_text(alloc, &commands, units) {
        Ok(text) => Ok(text),
        Err(error) => Err(ScriptFault::OutOfMemory(error)),
    }
}

// The text of the replies to commands, and of the classes that they made.
fn run_text(alloc: Global, commands: &[Command], units: u64) -> Result<Vec<u8>, OutOfMemory>
    ensures { IfOk result (λ v. v.items ≡ run_text (trees_in commands.now) units) }
{
    let mut vm = VirtualMachine::new(alloc)?;
    match vm.run(commands, units) {
        Ok(replies) => {
            let mut text = write_replies(alloc, &replies)?;
            text.extend_from_slice(&write_classes(alloc, vm.world())?)?;
            Ok(text)
        }
        Err(_) => Err(OutOfMemory),
    }
}
