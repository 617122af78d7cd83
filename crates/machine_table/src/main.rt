//! Writes a table of calls with their values, of the machine (`table_lines::machine_lines`) and of what the program does.
#![tactic(auto)]

mod programs;

use std::io;
use std::process::ExitCode;
use table_lines::Table;

fn main(rt: HostRuntime) -> io::Result<ExitCode> {
    let mut table = Table::new(rt.alloc());
    table_lines::machine_lines::put(&mut table, rt.alloc());
    programs::put(&mut table, &rt);
    let text = table.text();
    print!(rt; "{text}")?;
    let status = if table.is_ended() { 1 } else { 0 };
    Ok(ExitCode::from(status))
}
