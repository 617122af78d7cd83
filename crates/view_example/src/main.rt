//! Classes that are changed in one thread and looked up in others: what is published a reader sees once it was told, in a
//! thread of its own too. And while the writer goes on publishing, two readers look many times, each in a thread of its
//! own: neither is ever gone or goes back, and what they find is whole.
#![tactic(auto)]

mod beside;
mod changes;
mod rows;
mod stop;
mod told;

use beside::{Newest, look_beside};
use class_table::ClassTable;
use class_view::{ClassReader, ClassView, ClassWriter, RuledPane};
use py_node::{PyObjectRef, PyTypeRef};
use rows::{Lines, attribute_row, bases_row};
use std::alloc::Global;
use std::io;
use std::sync::Wait;
use std::thread::Threads;
use stop::Stop;

// How many readers there are.
const READERS: u32 = 3;

// What the readers found.
#[derive(Drop)]
struct Shown {
    before: Option<PyObjectRef>,
    after: Option<PyObjectRef>,
    lines: Lines,
    newest: (Newest, Newest),
}

fn main(rt: HostRuntime) -> io::Result<()> {
    let alloc = rt.alloc();
    let Ok((mut writer, readers)) = ClassView::new(&rt, alloc, READERS) else {
        return println!(rt; "no memory for the view");
    };
    let shown = show(&rt, alloc, &mut writer, readers);
    let replica = writer.end(&rt);
    match shown {
        Ok(shown) => write_shown(&rt, replica.classes(), &shown),
        Err(stop) => {
            let word = stop.word();
            println!(rt; "{word}")
        }
    }
}

// What three readers find.
fn show<R: Threads + Wait + Sync>(
    rt: &R,
    alloc: Global,
    writer: &mut ClassWriter,
    mut readers: Vec<ClassReader<RuledPane>>,
) -> Result<Shown, Stop> {
    let (Some(mut third), Some(mut second), Some(first)) = (
        readers.pop(),
        readers.pop(),
        readers.pop(),
    ) else {
        return Err(Stop::OutOfMemory);
    };
    let values = attribute_row(rt, alloc, writer, first)?;
    let mut first = values.reader;
    let lines = bases_row(rt, alloc, writer, &mut first)?;
    let newest = look_beside(rt, alloc, writer, &mut second, &mut third)?;
    Ok(Shown {
        before: values.before,
        after: values.after,
        lines,
        newest,
    })
}

fn write_shown(rt: &HostRuntime, classes: &ClassTable, shown: &Shown) -> io::Result<()> {
    print!(rt; "A.x:")?;
    write_value(rt, shown.before)?;
    print!(rt; ", then")?;
    write_value(rt, shown.after)?;
    println!(rt; "")?;
    write_line(rt, classes, &shown.lines.before)?;
    write_line(rt, classes, &shown.lines.after)?;
    write_newest(rt, shown.newest.0)?;
    write_newest(rt, shown.newest.1)
}

fn write_value(rt: &HostRuntime, value: Option<PyObjectRef>) -> io::Result<()> {
    match value {
        Some(value) => {
            let number = value.0;
            print!(rt; " {number}")
        }
        None => print!(rt; " nothing"),
    }
}

// The names of the classes of a linearisation.
fn write_line(rt: &HostRuntime, classes: &ClassTable, line: &[PyTypeRef]) -> io::Result<()> {
    print!(rt; "a linearisation:")?;
    for class in line {
        if classes.has_class(*class) {
            let name = classes.name(*class);
            print!(rt; " {name}")?;
        }
    }
    println!(rt; "")
}

fn write_newest(rt: &HostRuntime, newest: Newest) -> io::Result<()> {
    match newest {
        Ok(number) => println!(rt; "the newest class at the end: {number}"),
        Err(odd) => {
            let word = odd.word();
            println!(rt; "a reader {word}")
        }
    }
}
