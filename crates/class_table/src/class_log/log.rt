//! A log of the changes of a table of classes: each change is made and noted, or neither.

ghost use Rattle.class_table.specs.Below.{[], map, length, is_some, true, false, Ok, None, option_map, IfOk, OnOk, OnErr, IsSome, is_same_name, class_at, is_class, own_of, with_class, with_class_attr, without_class_attr, with_bases, heap_class, has_dict, limit};
ghost use Rattle.std.specs.Prelude.{◌≡◌, ◌≤◌, ◌+◌, ◌*◌, ◌||◌, ◌++◌, ◌∷◌};
ghost use Rattle.class_table.specs.Descendants.{descendants};
ghost use Rattle.class_table.specs.Keys.{numbers, slot_names, table_keys};
ghost use Rattle.class_table.specs.OneBase.{refused_single, single_class, says_so};
ghost use Rattle.class_table.specs.Rebase.{told, refused_change, refused_rebase, IsToldFirst};
ghost use Rattle.class_table.specs.Settle.{line_places};
ghost use Rattle.class_table.specs.Refused.{AreThere, WithMemory, refusal, refused_attr, refused_bases, NamesNoClass};
ghost use Rattle.class_table.specs.ClassLog.Change.{Make, SetOwn, DelOwn, SetBases, change_of, made_of};
ghost use Rattle.class_table.specs.ClassLog.Logged.{IsLogged, IsGiven, made_by_script, made_single};

use crate::class_log::change::{ClassChange, copy_slots};
use crate::{ClassFault, ClassTable, Steps};
use py_node::{
    Cause, OutOfMemory, PyAttributes, PyObjectRef, PyStrInterned, PyTypeFlags, PyTypeRef,
};
use std::alloc::Global;
use std::marker::Model;
use std::sync::ledger::Ledger;

/// The changes that were made to a table of classes, in order. Contracts see the changes. Room for a change is taken
/// before it is made; where it is refused or memory runs out, the table and the log stay as they were.
#[derive(Drop)]
pub struct ClassLog {
    changes: Vec<ClassChange>,
    alloc: Global,
}

impl Model for ClassLog {
    ghost use Rattle.std.specs.Prelude.{List, map};
    ghost use Rattle.class_table.specs.ClassLog.Change.{Change, change_of};

    ghost Value = { List Change };

    ghost view = { λ l. map change_of l.changes.items };
}

impl ClassLog {
    /// A log of no changes.
    pub fn new(alloc: Global) -> ClassLog
        ensures { result ≡ [] }
    {
        ClassLog {
            changes: Vec::new(alloc),
            alloc,
        }
    }

    /// The changes, in the order in which they were made.
    pub fn changes(&self) -> &[ClassChange]
        ensures { map change_of result.now ≡ self.now }
    {
        self.changes.as_slice()
    }

    /// As `ClassTable::set_attr`.
    pub fn set_attr(
        &mut self,
        classes: &mut ClassTable,
        class: PyTypeRef,
        name: PyStrInterned,
        value: PyObjectRef,
    ) -> Result<(), ClassFault>
        requires { is_class classes.old class.0 ≡ true }
        ensures immutable { refusal result ≡ refused_attr classes.old class.0 }
        ensures set { OnOk result (classes.new ≡ with_class_attr is_same_name classes.old class.0 name value) }
        ensures noted { OnOk result (self.new ≡ self.old ++ SetOwn class.0 name value ∷ []) }
        ensures err { OnErr result (classes.new ≡ classes.old) }
        ensures unnoted { OnErr result (self.new ≡ self.old) }
        ensures law { IsLogged self.old classes.old → IsLogged self.new classes.new }
        ensures names { NamesNoClass result }
    {
        if !classes.is_heap(class) {
            return Err(ClassFault::Refused(Cause::ImmutableType));
        }
        if self.changes.reserve(1).is_err() {
            return Err(ClassFault::OutOfMemory);
        }
        match classes.set_attr(class, name, value) {
            Ok(()) => {
                self.changes
                    .push_reserved(ClassChange::SetOwn { class, name, value });
                Ok(())
            }
            Err(fault) => Err(fault),
        }
    }

    /// As `ClassTable::del_attr_direct`, but for want of memory. An attribute that wasn't there isn't noted.
    pub fn del_attr_direct(
        &mut self,
        classes: &mut ClassTable,
        class: PyTypeRef,
        name: PyStrInterned,
    ) -> Result<bool, ClassFault>
        requires { is_class classes.old class.0 ≡ true }
        ensures immutable { refusal result ≡ refused_attr classes.old class.0 }
        ensures there { IfOk result (λ b. b ≡
            is_some (own_of (λ k. is_same_name k name) (class_at classes.old class.0))) }
        ensures taken { OnOk result (classes.new ≡ without_class_attr is_same_name classes.old class.0 name) }
        ensures absent { result ≡ Ok false → classes.new ≡ classes.old }
        ensures noted { result ≡ Ok true → self.new ≡ self.old ++ DelOwn class.0 name ∷ [] }
        ensures unneeded { result ≡ Ok false → self.new ≡ self.old }
        ensures err { OnErr result (classes.new ≡ classes.old) }
        ensures unnoted { OnErr result (self.new ≡ self.old) }
        ensures law { IsLogged self.old classes.old → IsLogged self.new classes.new }
        ensures names { NamesNoClass result }
    {
        if !classes.is_heap(class) {
            return Err(ClassFault::Refused(Cause::ImmutableType));
        }
        if classes.get_direct_attr(class, name).is_none() {
            return classes.del_attr_direct(class, name);
        }
        if self.changes.reserve(1).is_err() {
            return Err(ClassFault::OutOfMemory);
        }
        match classes.del_attr_direct(class, name) {
            Ok(there) => {
                self.changes
                    .push_reserved(ClassChange::DelOwn { class, name });
                Ok(there)
            }
            Err(fault) => Err(fault),
        }
    }

    /// As `ClassTable::new_heap_slots`.
    pub fn new_heap_slots(
        &mut self,
        classes: &mut ClassTable,
        number: PyTypeRef,
        name: &str,
        bases: Vec<PyTypeRef>,
        attrs: PyAttributes,
        slots: Option<Vec<PyStrInterned>>,
    ) -> Result<PyTypeRef, ClassFault>
        requires bases { AreThere classes.old (numbers bases.items) }
        requires fresh { limit classes.old ≤ number.0 }
        ensures number { IfOk result (λ c. c ≡ number) }
        ensures added { OnOk result (classes.new ≡ with_class classes.old
            (heap_class table_keys classes.old name.now number.0 (numbers bases.items) attrs (slot_names slots))) }
        ensures noted { OnOk result (self.new ≡ self.old ++
            made_by_script classes.old number.0 name.now (numbers bases.items) attrs (slot_names slots) ∷ []) }
        ensures refused { WithMemory result (refusal result ≡ refused_bases classes.old (numbers bases.items)) }
        ensures err { OnErr result (classes.new ≡ classes.old) }
        ensures unnoted { OnErr result (self.new ≡ self.old) }
        ensures law { IsLogged self.old classes.old → IsLogged self.new classes.new }
        ensures names { NamesNoClass result }
    {
        if self.changes.reserve(1).is_err() {
            return Err(ClassFault::OutOfMemory);
        }
        let flags = PyTypeFlags::of_script_class(classes.would_have_dict(&bases, &slots));
        let Ok(change) = make(self.alloc, number, name, &bases, &attrs, &slots, flags) else {
            return Err(ClassFault::OutOfMemory);
        };
        match classes.new_heap_slots(number, name, bases, attrs, slots) {
            Ok(class) => {
                self.changes.push_reserved(change);
                Ok(class)
            }
            Err(fault) => Err(fault),
        }
    }

    /// As `ClassTable::new_single`. The change is noted with the flags from which those of the class and whether it brings
    /// a dict follow.
    pub fn new_single(
        &mut self,
        classes: &mut ClassTable,
        number: PyTypeRef,
        name: &str,
        base: PyTypeRef,
        attrs: PyAttributes,
        flags: PyTypeFlags,
        brings: bool,
        given: PyTypeFlags,
    ) -> Result<PyTypeRef, ClassFault>
        requires base { is_class classes.old base.0 ≡ true }
        requires fresh { limit classes.old ≤ number.0 }
        requires dict { says_so flags.0 ≡ (brings || has_dict classes.old base.0) }
        requires given { IsGiven given.0 flags.0 brings (has_dict classes.old base.0) }
        ensures number { IfOk result (λ c. c ≡ number) }
        ensures added { OnOk result (classes.new ≡
            with_class classes.old (single_class name.now number.0 base.0 attrs flags.0 brings)) }
        ensures noted { OnOk result (self.new ≡ self.old ++ made_single number.0 name.now base.0 attrs given.0 ∷ []) }
        ensures refused { refusal result ≡ refused_single classes.old base.0 }
        ensures err { OnErr result (classes.new ≡ classes.old) }
        ensures unnoted { OnErr result (self.new ≡ self.old) }
        ensures law { IsLogged self.old classes.old → IsLogged self.new classes.new }
        ensures names { NamesNoClass result }
    {
        classes.sound();
        if !classes.is_base(base) {
            return Err(ClassFault::Refused(Cause::NotBaseType));
        }
        if self.changes.reserve(1).is_err() {
            return Err(ClassFault::OutOfMemory);
        }
        let Ok(single) = make(self.alloc, number, name, &[base], &attrs, &None, given) else {
            return Err(ClassFault::OutOfMemory);
        };
        match classes.new_single(number, name, base, attrs, flags, brings) {
            Ok(class) => {
                self.changes.push_reserved(single);
                Ok(class)
            }
            Err(fault) => Err(fault),
        }
    }

    /// As `ClassTable::set_bases`.
    pub fn set_bases<L: Ledger>(
        &mut self,
        classes: &mut ClassTable,
        class: PyTypeRef,
        bases: Vec<PyTypeRef>,
        steps: &mut Steps<L>,
    ) -> Result<(), ClassFault>
        requires own { is_class classes.old class.0 ≡ true }
        requires there { AreThere classes.old (numbers bases.items) }
        ensures early { IsToldFirst classes.old class.0 (numbers bases.items) (told result) }
        ensures refused { WithMemory result (told result ≡ refused_rebase classes.old class.0 (numbers bases.items)) }
        ensures set { OnOk result (classes.new ≡ with_bases classes.old class.0 (numbers bases.items)) }
        ensures noted { OnOk result (self.new ≡ self.old ++ SetBases class.0 (numbers bases.items) ∷ []) }
        ensures err { OnErr result (classes.new ≡ classes.old) }
        ensures unnoted { OnErr result (self.new ≡ self.old) }
        ensures law { IsLogged self.old classes.old → IsLogged self.new classes.new }
        ensures merges { steps.old.merges ≤ steps.new.merges }
        ensures probes { steps.old.probes ≤ steps.new.probes }
        ensures few_merges { steps.new.merges ≤ steps.old.merges + length (descendants classes.old class.0) }
        ensures few_probes { steps.new.probes ≤ steps.old.probes + 70 *
            line_places (with_bases classes.old class.0 (numbers bases.items)) (descendants classes.old class.0) }
        ensures uncounted { IsSome (refused_change classes.old class.0 (numbers bases.items)) → steps.new ≡ steps.old }
    {
        if self.changes.reserve(1).is_err() {
            return out_of_memory(classes, class, &bases);
        }
        let Ok(copy) = Vec::from_slice(self.alloc, &bases) else {
            return out_of_memory(classes, class, &bases);
        };
        match classes.set_bases(class, bases, steps) {
            Ok(()) => {
                self.changes
                    .push_reserved(ClassChange::SetBases { class, bases: copy });
                Ok(())
            }
            Err(fault) => Err(fault),
        }
    }
}

// What is told of other bases where memory is short: the test that needs no order and fails, if one does.
fn out_of_memory(
    classes: &ClassTable,
    class: PyTypeRef,
    bases: &[PyTypeRef],
) -> Result<(), ClassFault>
    requires own { is_class classes.now class.0 ≡ true }
    requires there { AreThere classes.now (numbers bases.now) }
    ensures told { told result ≡ option_map (λ cause. (cause, None)) (refused_change classes.now class.0 (numbers bases.now)) }
    ensures fails { OnOk result ⊥ }
{
    match classes.may_rebase(class, bases) {
        Ok(()) => Err(ClassFault::OutOfMemory),
        Err(cause) => Err(ClassFault::Refused(cause)),
    }
}

// A class that is made, as a change.
fn make(
    alloc: Global,
    class: PyTypeRef,
    name: &str,
    bases: &[PyTypeRef],
    attrs: &PyAttributes,
    slots: &Option<Vec<PyStrInterned>>,
    flags: PyTypeFlags,
) -> Result<ClassChange, OutOfMemory>
    ensures { IfOk result (λ c. change_of c ≡ Make (made_of class name.now bases.now attrs.now slots.now flags)) }
{
    Ok(ClassChange::Make {
        class,
        name: String::from_str(alloc, name)?,
        bases: Vec::from_slice(alloc, bases)?,
        attrs: attrs.try_clone(alloc)?,
        slots: copy_slots(alloc, slots)?,
        flags,
    })
}
