//! Sessions of callers who share a machine.

ghost use Rattle.serve.specs.Below.{vec_len, IfOk, Err, All, sessions_of, session_trees, ScriptError as Refusal};
ghost use Rattle.std.specs.Prelude.{◌≡◌, ◌<◌};
ghost use Rattle.serve.specs.Headline.{IsMixOf, IsMixText};

use py_node::{Command, OutOfMemory};
use script_text::json_text::ScriptFault;
use script_text::read_sessions;
use seat_lock::MOST_TURNS;
use shared_vm::OpenGate;
use shared_vm::shared_run::{share_run, write_journal};
use std::sync::Wait;
use std::thread::Threads;

// The text of a journal of the sessions that bytes spell: each of their commands has so many units.
pub(crate) fn sessions_text<R: AllocGlobal + Threads + Wait + Sync>(
    rt: &R,
    bytes: &[u8],
    units: u64,
) -> Result<Vec<u8>, ScriptFault>
    ensures text { IfOk result (λ v. IsMixOf bytes.now units v.items) }
    ensures script { (e : Refusal) → result ≡ Err (ScriptFault.Script e) → sessions_of bytes.now ≡ Err e }
{
    let sessions = read_sessions(rt.alloc(), bytes)?;
    match mix_text(rt, sessions, units) {
        Ok(text) => Ok(text),
        Err(error) => Err(ScriptFault::OutOfMemory(error)),
    }
}

// The text of the journal that comes of an opening and sessions.
fn mix_text<R: AllocGlobal + Threads + Wait + Sync>(
    rt: &R,
    sessions: Vec<Vec<Command>>,
    units: u64,
) -> Result<Vec<u8>, OutOfMemory>
    requires opening { 0 < vec_len sessions }
    requires few { vec_len sessions < MOST_TURNS }
    requires short { All (λ s. vec_len s < MOST_TURNS) sessions.items }
    ensures { IfOk result (λ v. IsMixText (session_trees sessions.items) units v.items) }
{
    let closed = share_run(rt, sessions, units, &OpenGate)?;
    write_journal(rt.alloc(), &closed)
}
