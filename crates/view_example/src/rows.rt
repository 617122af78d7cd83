//! What a reader finds before changes are published, and what it finds after.

use crate::changes::{A, D, NAME_X, OBJECT, P, Q, X, append, made};
use crate::stop::Stop;
use crate::told::{find_apart, publish_and_find};
use class_table::class_log::ClassChange;
use class_view::{ClassReader, ClassWriter, RuledPane};
use py_node::{PyObjectRef, PyTypeRef};
use std::alloc::Global;
use std::sync::Wait;
use std::thread::Threads;

/// The values of an attribute that a reader found before and after, and the reader.
#[derive(Drop)]
pub struct Values {
    pub before: Option<PyObjectRef>,
    pub after: Option<PyObjectRef>,
    pub reader: ClassReader<RuledPane>,
}

/// The linearisations of a class that a reader found before and after.
#[derive(Drop)]
pub struct Lines {
    pub before: Vec<PyTypeRef>,
    pub after: Vec<PyTypeRef>,
}

/// `A` is made and gets `A.x`. A reader, in a thread of its own, finds it once it is published and the reader was told.
pub fn attribute_row<R: Threads + Wait>(
    rt: &R,
    alloc: Global,
    writer: &mut ClassWriter,
    reader: ClassReader<RuledPane>,
) -> Result<Values, Stop> {
    append(writer, &made(alloc, A, "A", &[OBJECT])?)?;
    let set = ClassChange::SetOwn {
        class: A,
        name: NAME_X,
        value: PyObjectRef(7),
    };
    append(writer, &set)?;
    let before = find_apart(rt, reader)?;
    let after = publish_and_find(rt, writer, before.reader)?;
    Ok(Values {
        before: before.value,
        after: after.value,
        reader: after.reader,
    })
}

/// `D` gets other bases. A reader finds the new linearisation once it is published and the reader was told.
pub fn bases_row<R: Wait>(
    rt: &R,
    alloc: Global,
    writer: &mut ClassWriter,
    reader: &mut ClassReader<RuledPane>,
) -> Result<Lines, Stop> {
    append(writer, &made(alloc, P, "P", &[OBJECT])?)?;
    append(writer, &made(alloc, Q, "Q", &[OBJECT])?)?;
    append(writer, &made(alloc, X, "X", &[P])?)?;
    append(writer, &made(alloc, D, "D", &[X])?)?;
    writer.publish(rt)?;
    let bases = Vec::from_slice(alloc, &[X, Q, P]).map_err(|_| Stop::OutOfMemory)?;
    append(writer, &ClassChange::SetBases { class: D, bases })?;
    let before = told_line(alloc, writer, reader)?;
    writer.publish(rt)?;
    let after = told_line(alloc, writer, reader)?;
    Ok(Lines { before, after })
}

// The linearisation of `D` that a reader finds once it was told of what is published: none where it finds no such class.
fn told_line(
    alloc: Global,
    writer: &mut ClassWriter,
    reader: &mut ClassReader<RuledPane>,
) -> Result<Vec<PyTypeRef>, Stop> {
    reader.learn(writer.tell()?);
    match reader.linearisation(D)? {
        Some(line) => Ok(line),
        None => Ok(Vec::new(alloc)),
    }
}
