//! The text of a journal.

ghost use Rattle.shared_vm.specs.Below.{codes, IfOk, OnOk, string_bytes, decimal, end_of_line};
ghost use Rattle.std.specs.Prelude.{◌≡◌, ◌++◌};
ghost use Rattle.shared_vm.specs.Book.{IsReplay};
ghost use Rattle.shared_vm.specs.Journal.{plain_journal, plain_entry};
ghost use Rattle.shared_vm.specs.SharedRun.JournalText.{entry_lines, entries_text, journal_text};

use crate::{Closed, Entry};
use py_node::OutOfMemory;
use script_text::reply_text::write::write_replies;
use std::alloc::Global;
use std::slice;
use world_text::write_classes;

/// The text of a journal: of each entry the line of its seat and the lines of its reply, and then the lines of the
/// classes that scripts made. The machine is the one that the journal leaves.
pub fn write_journal(alloc: Global, closed: &Closed) -> Result<Vec<u8>, OutOfMemory>
    requires { IsReplay closed.now.machine (plain_journal closed.now.journal.items) }
    ensures { IfOk result (λ v. v.items ≡ journal_text (plain_journal closed.now.journal.items)) }
{
    let mut text = write_entries(alloc, &closed.journal)?;
    let classes = write_classes(alloc, closed.machine.world())?;
    text.extend_from_slice(&classes)?;
    Ok(text)
}

// The lines of the entries.
fn write_entries(alloc: Global, journal: &[Entry]) -> Result<Vec<u8>, OutOfMemory>
    ensures { IfOk result (λ v. v.items ≡ entries_text (plain_journal journal.now)) }
{
    let mut out = Vec::new(alloc);
    for entry in journal {
        push_entry(alloc, &mut out, entry)?;
    }
    Ok(out)
}

// Adds the line of an entry's seat and the lines of its reply.
fn push_entry(alloc: Global, out: &mut Vec<u8>, entry: &Entry) -> Result<(), OutOfMemory>
    ensures { OnOk result (out.new.items ≡ out.old.items ++ entry_lines (plain_entry entry.now)) }
{
    let line = seat_line(alloc, entry.seat)?;
    let reply = write_replies(alloc, slice::from_ref(&entry.reply))?;
    out.extend_from_slice(line.as_bytes())?;
    out.extend_from_slice(&reply)?;
    Ok(())
}

// The line of a seat.
fn seat_line(alloc: Global, seat: u32) -> Result<String, OutOfMemory>
    ensures { IfOk result (λ s. string_bytes s ≡ codes "seat " ++ decimal seat ++ end_of_line) }
{
    Ok(format!(in alloc; "seat {seat}\n")?)
}
