//! What a reader finds in a thread of its own, and once it was told.

ghost use Rattle.std.specs.Prelude.{◌≡◌, List, IfOk, OnOk};
ghost use Rattle.left_right.specs.Sides.{view};
ghost use Rattle.py_node.specs.Attributes.{is_same_name};
ghost use Rattle.class_model.specs.Class.{found};
ghost use Rattle.class_table.specs.ClassLog.Change.{Change};
ghost use Rattle.class_table.specs.ClassLog.Shown.{shown};
ghost use Rattle.class_table.specs.ClassLog.Following.{BeginsWith};
ghost use Rattle.class_view.specs.Lists.{Follows};
ghost use Rattle.class_view.specs.Known.{knows_of};

use crate::changes::{A, NAME_X};
use crate::stop::Stop;
use class_view::{ClassReader, ClassWriter, Gone, RuledPane, Told};
use py_node::PyObjectRef;
use std::sync::Wait;
use std::thread::{Threads, join};

/// The value that a reader found, and the reader.
#[derive(Drop)]
pub struct Found {
    pub value: Option<PyObjectRef>,
    pub reader: ClassReader<RuledPane>,
}

// What a reader finds as the value of `A.x`: so it is after a list of changes that begins with all that it knew.
fn find(mut reader: ClassReader<RuledPane>) -> Result<Found, Gone>
    ensures { IfOk result (λ f. (list : List Change) × (f.value ≡ found is_same_name (shown list) A.0 NAME_X) ×
        Follows (knows_of reader.pane.reader) list) }
{
    let value = reader.find(A, NAME_X)?;
    Ok(Found { value, reader })
}

/// What a reader finds as the value of `A.x`, in a thread of its own.
pub fn find_apart<R: Threads>(rt: &R, reader: ClassReader<RuledPane>) -> Result<Found, Stop> {
    let (found, _) = join(rt, move || find(reader), || ());
    Ok(found?)
}

// What it finds once it has learnt what a writer told: so it is after a list of changes that begins with those.
fn learn_and_find(mut reader: ClassReader<RuledPane>, told: Told) -> Result<Found, Gone>
    ensures { IfOk result (λ f. (list : List Change) × (f.value ≡ found is_same_name (shown list) A.0 NAME_X) ×
        BeginsWith (view told.reader.place).seen list) }
{
    reader.learn(told);
    find(reader)
}

/// Publishes what is pending, and tells a reader, which then finds `A.x` in a thread of its own. What it finds is so after
/// a list of changes that begins with all that are published.
pub fn publish_and_find<R: Threads + Wait>(
    rt: &R,
    writer: &mut ClassWriter,
    reader: ClassReader<RuledPane>,
) -> Result<Found, Stop>
    ensures published { OnOk result (writer.new.published ≡ writer.old.changes) }
    ensures found { IfOk result (λ f. (list : List Change) × (f.value ≡ found is_same_name (shown list) A.0 NAME_X) ×
        BeginsWith writer.new.published list) }
{
    writer.publish(rt)?;
    let told = writer.tell()?;
    let (found, _) = join(rt, move || learn_and_find(reader, told), || ());
    Ok(found?)
}
