//! Writes a table of calls with their values, of the world and what stands below it (`table_lines::call_lines`).
#![tactic(auto)]

use std::io;
use std::process::ExitCode;
use table_lines::Table;

fn main(rt: HostRuntime) -> io::Result<ExitCode> {
    let mut table = Table::new(rt.alloc());
    table_lines::call_lines::put(&mut table, rt.alloc());
    let text = table.text();
    print!(rt; "{text}")?;
    let status = if table.is_ended() { 1 } else { 0 };
    Ok(ExitCode::from(status))
}
