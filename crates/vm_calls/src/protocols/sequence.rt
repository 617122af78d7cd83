//! An object as a sequence.

ghost use Rattle.vm_calls.specs.Below.{is_some, is_ok, IfOk, IfErr, raised, SeqItem, NotSequence, slot_at, Reading, Reads, plain, IsNode, Holds};
ghost use Rattle.std.specs.Prelude.{◌≡◌};
ghost use Rattle.vm_calls.specs.OfProtocols.Views.{HasSequenceSlots};

use crate::slot_tables::PySequenceMethods;
use class_world::World;
use py_node::{Cause, PyObjectRef, Raised, SlotId};

/// An object, with a table of the slots of sequences: that of its class, or one that it was given.
#[derive(Clone, Copy)]
pub struct PySequence {
    pub obj: PyObjectRef,
    pub methods: PySequenceMethods,
}

impl PySequence {
    /// What the class of an object has in the slots of sequences: all of them are read at the first class along its
    /// linearisation that has any.
    pub fn find_methods(world: &World, o: PyObjectRef) -> PySequenceMethods
        requires { Holds world.now (IsNode o) }
        ensures { (t : Reading) → Reads t world.now → HasSequenceSlots (plain t world.now) o result }
    {
        PySequenceMethods {
            length: world.slot(o, SlotId::SeqLength),
            item: world.slot(o, SlotId::SeqItem),
            ass_item: world.slot(o, SlotId::SeqAssItem),
            contains: world.slot(o, SlotId::SeqContains),
            concat: world.slot(o, SlotId::Concat),
            repeat: world.slot(o, SlotId::Repeat),
            inplace_concat: world.slot(o, SlotId::InplaceConcat),
            inplace_repeat: world.slot(o, SlotId::InplaceRepeat),
        }
    }

    /// The view of an object with the table of its class. It may be empty.
    pub fn new(world: &World, o: PyObjectRef) -> PySequence
        requires { Holds world.now (IsNode o) }
        ensures obj { result.obj ≡ o }
        ensures methods { (t : Reading) → Reads t world.now → HasSequenceSlots (plain t world.now) o result.methods }
    {
        PySequence {
            obj: o,
            methods: PySequence::find_methods(world, o),
        }
    }

    /// The view of an object with a given table.
    pub fn with_methods(obj: PyObjectRef, methods: PySequenceMethods) -> PySequence
        ensures obj { result.obj ≡ obj }
        ensures methods { result.methods ≡ methods }
    {
        PySequence { obj, methods }
    }

    /// The view of an object with the table of its class, where that gives items.
    ///
    /// # Errors
    /// TypeError NotSequence, exactly where the class has nothing that gives an item.
    pub fn try_protocol(world: &World, o: PyObjectRef) -> Result<PySequence, Raised>
        requires { Holds world.now (IsNode o) }
        ensures item { (t : Reading) → Reads t world.now →
            is_ok result ≡ is_some (slot_at (plain t world.now) o SeqItem) }
        ensures obj { IfOk result (λ v. v.obj ≡ o) }
        ensures methods { IfOk result (λ v. (t : Reading) → Reads t world.now →
            HasSequenceSlots (plain t world.now) o v.methods) }
        ensures cause { IfErr result (λ e. e ≡ raised NotSequence) }
    {
        let view = PySequence::new(world, o);
        if view.check() {
            Ok(view)
        } else {
            Err(Raised::new(Cause::NotSequence))
        }
    }

    /// Whether the view is of a sequence: its table has what gives an item.
    pub fn check(&self) -> bool
        ensures { result ≡ is_some self.now.methods.item }
    {
        self.methods.item.is_some()
    }
}

/// The view of an object as a sequence, with the table of its class. It may be empty.
pub fn to_sequence(world: &World, o: PyObjectRef) -> PySequence
    requires { Holds world.now (IsNode o) }
    ensures obj { result.obj ≡ o }
    ensures methods { (t : Reading) → Reads t world.now → HasSequenceSlots (plain t world.now) o result.methods }
{
    PySequence::new(world, o)
}
