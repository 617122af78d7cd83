//! Readers, each in a thread of its own, beside a writer that goes on publishing.

use crate::changes::{A, append, made};
use crate::stop::Stop;
use class_table::class_log::ClassChange;
use class_view::{ClassReader, ClassWriter, Gone, RuledPane};
use py_node::{PyObjectRef, PyStrInterned, PyTypeRef};
use std::alloc::Global;
use std::sync::Wait;
use std::thread::{Threads, join};

// The numbers of the classes that the writer makes and publishes, one after the other.
const FIRST: u64 = 200;

const LAST: u64 = 399;
// How often each reader looks meanwhile.
const LOOKS: u32 = 20_000;
// The number of the name `newest`.
const NEWEST: PyStrInterned = PyStrInterned(1_001);

/// What a reader finds in no look-up.
#[derive(Clone, Copy)]
pub enum Odd {
    /// It could look no more.
    Gone,
    /// An older class is the newest than one that it found before.
    Older,
    /// The newest class isn't there.
    Missing,
}

impl From<Gone> for Odd {
    fn from(_: Gone) -> Odd {
        Odd::Gone
    }
}

impl Odd {
    /// What is told of it.
    pub fn word(self) -> &'static str {
        match self {
            Odd::Gone => "gone",
            Odd::Older => "went back",
            Odd::Missing => "missed a class",
        }
    }
}

/// The newest class that a reader found at the end, or what was odd.
pub type Newest = Result<u64, Odd>;

// The newest class that a reader finds, where it isn't older than one that it found before, and is there.
fn look(reader: &mut ClassReader<RuledPane>, before: u64) -> Newest {
    let newest = match reader.find(A, NEWEST)? {
        Some(value) => value.0,
        None => 0,
    };
    if newest < before {
        return Err(Odd::Older);
    }
    if newest != 0 && !reader.is_subclass(PyTypeRef(newest), A)? {
        return Err(Odd::Missing);
    }
    Ok(newest)
}

fn look_often(reader: &mut ClassReader<RuledPane>) -> Newest {
    let mut newest = 0;
    for _ in 0..LOOKS {
        newest = look(reader, newest)?;
    }
    Ok(newest)
}

// Makes classes below `A`, each of which is then the value of `A.newest`, and publishes each with its value at once.
fn publish_all<R: Wait>(rt: &R, alloc: Global, writer: &mut ClassWriter) -> Result<(), Stop> {
    for number in FIRST..=LAST {
        append(writer, &made(alloc, PyTypeRef(number), "C", &[A])?)?;
        let set = ClassChange::SetOwn {
            class: A,
            name: NEWEST,
            value: PyObjectRef(number),
        };
        append(writer, &set)?;
        writer.publish(rt)?;
    }
    Ok(())
}

// What a reader finds once it was told of all.
fn at_the_end(
    writer: &mut ClassWriter,
    reader: &mut ClassReader<RuledPane>,
    before: Newest,
) -> Result<Newest, Stop> {
    reader.learn(writer.tell()?);
    match before {
        Ok(newest) => Ok(look(reader, newest)),
        Err(odd) => Ok(Err(odd)),
    }
}

/// Two readers look in threads of their own while the writer publishes in this one, and once more when they were told of
/// all.
pub fn look_beside<R: Threads + Wait + Sync>(
    rt: &R,
    alloc: Global,
    writer: &mut ClassWriter,
    one: &mut ClassReader<RuledPane>,
    two: &mut ClassReader<RuledPane>,
) -> Result<(Newest, Newest), Stop> {
    let ((first, second), published) = join(
        rt,
        || join(rt, || look_often(one), || look_often(two)),
        || publish_all(rt, alloc, writer),
    );
    published?;
    Ok((
        at_the_end(writer, one, first)?,
        at_the_end(writer, two, second)?,
    ))
}
