//! A writer with its readers.

ghost use Rattle.class_view.specs.Below.{[], vec_len, IfOk, OnOk};
ghost use Rattle.std.specs.Prelude.{◌≡◌, ◌<◌, ◌^◌};

use crate::faults::Faults;
use crate::reader::ClassReader;
use crate::ruled::RuledPane;
use crate::writer::ClassWriter;
use py_node::OutOfMemory;
use std::alloc::Global;
use std::sync::Wait;

/// A writer of classes with its readers.
pub struct ClassView;

// Makes so many readers.
fn seat_all(
    alloc: Global,
    writer: &ClassWriter,
    row: &mut Vec<ClassReader<RuledPane>>,
    readers: u32,
) -> Result<(), OutOfMemory>
    requires { vec_len row.old ≡ 0 }
    ensures { OnOk result (vec_len row.new ≡ readers) }
{
    for _ in 0..readers {
        let pane = RuledPane::over(writer.reader()?, Faults::new(alloc)?);
        row.push(ClassReader::new(pane))?;
    }
    Ok(())
}

impl ClassView {
    /// A writer of no changes, and so many readers. Where it is refused, it may wait.
    pub fn new<R: Wait>(
        rt: &R,
        alloc: Global,
        readers: u32,
    ) -> Result<(ClassWriter, Vec<ClassReader<RuledPane>>), OutOfMemory>
        requires readers { (0 < readers) × (readers < 2 ^ 31) }
        ensures made { IfOk result (λ r. (r.0.published ≡ []) × (r.0.changes ≡ []) × (vec_len r.1 ≡ readers)) }
    {
        let mut row = Vec::with_capacity(alloc, readers as usize)?;
        let writer = ClassWriter::new(alloc, 2 * readers as usize)?;
        match seat_all(alloc, &writer, &mut row, readers) {
            Ok(()) => Ok((writer, row)),
            Err(error) => {
                drop(writer.end(rt));
                Err(error)
            }
        }
    }
}
