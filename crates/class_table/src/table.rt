//! The table of classes.

ghost use Rattle.class_table.specs.Below.{[], true, false, length, Ok, OnOk, OnErr, IfOk, IsTrue, Some, is_some, leb, option_map, slice_get, None, IfSome, IsSome, All, EmptyBases, NotBaseType, LayoutConflict, DuplicateBase, LocalPrecedence, MroConflict, is_same_name, AreNamesDistinct, class_at, is_class, bases_of, lin, IsLeastLine, is_sub, is_heap, own_of, subclasses, limit, numbers_of, base, best_of, solid, built_ins, place_count, base_chain, IsChain, gives_dict, says_dict, has_dict, has_its_dict, heap_class, all_attributes, AreSound, entry, slot as slot_read, is_heap_at, natives_of, with_class, with_class_attr, without_class_attr, with_class_name, with_bases};
ghost use Rattle.std.specs.Prelude.{◌≡◌, ◌+◌, ◌*◌, ◌<◌, ◌≤◌, ◌↔◌};
ghost use Rattle.class_table.specs.Keys.{numbers, number_of, table_keys, slot_names};
ghost use Rattle.class_table.specs.Stored.{classes_of};
ghost use Rattle.class_table.specs.New.{IsBelow, class_of_new};
ghost use Rattle.class_table.specs.Refused.{refusal, cause_of, refused_layout, refused_bases, refused_attr, WithMemory, NeedsNoMemory, IsEarly, AreThere, NamesNoClass};
ghost use Rattle.class_table.specs.Rebase.{refused_change, refused_rebase, told, IsToldFirst};
ghost use Rattle.class_table.specs.Descendants.{descendants};
ghost use Rattle.class_table.specs.Settle.{line_places};
ghost use Rattle.class_table.specs.Causes.{LacksBase, HasLayoutConflict, HasDuplicate, BreaksOrder, HasNoLine};
ghost use Rattle.class_table.specs.Given.{AreGiven};

use crate::add::add;
use crate::cache::Cache;
use crate::chain::{BaseChain, base_of, chain};
use crate::collect::{attributes_along, map_along};
use crate::count::count_at;
use crate::fault::ClassFault;
use crate::heap::{add_heap, set_heap, take_heap};
use crate::inherit::{best_base, may_derive, only, solid_class};
use crate::place::{find, number_in, stored_at, takes};
use crate::put::put_in;
use crate::read::{own_entry, read};
use crate::rebase::rebase;
use crate::rename::rename_in;
use crate::steps::Steps;
use crate::stored::NewClass;
use crate::stored_classes::StoredClasses;
use py_node::{
    Cause, OutOfMemory, PyAttributes, PyObjectRef, PyStrInterned, PyTypeFlags, PyTypeRef,
    SlotEntry, SlotId,
};
use std::alloc::Global;
use std::marker::Model;
use std::sync::ledger::Ledger;

/// Classes, in the order of their numbers. The names of their attributes are numbers too: those that are
/// known, by which slots are read, have the numbers of `known_names`.
#[derive(Drop)]
pub struct ClassTable {
    pub(crate) classes: StoredClasses,
    // What look-ups found since the last change. Contracts don't see it.
    pub(crate) cache: Cache,
    alloc: Global,
}

impl Model for ClassTable {
    ghost use Rattle.py_node.specs.declared.refs.PyStrInterned.{PyStrInterned as Name};
    ghost use Rattle.class_model.specs.Class.{Classes};

    ghost Value = { Classes Name };

    ghost use Rattle.class_table.specs.Stored.{classes_of};
    ghost use Rattle.class_table.specs.Coherent.{IsCoherent};
    ghost use Rattle.class_table.specs.Cache.{IsCached};

    ghost view = { λ a. classes_of a.classes };

    ghost invariant = { λ a. IsCoherent a.classes × IsCached (classes_of a.classes) a.cache };
}

impl ClassTable {
    // What the table takes its memory from.
    pub(crate) fn alloc(&self) -> Global {
        self.alloc
    }

    // A table with no classes, which keeps nothing of what look-ups find.
    pub(crate) fn empty(alloc: Global) -> ClassTable
        ensures { result ≡ [] }
    {
        ClassTable {
            classes: StoredClasses::new(alloc),
            cache: Cache::without_rows(alloc),
            alloc,
        }
    }

    // Makes room for what look-ups find. It is never given back, and no more is taken.
    pub(crate) fn reserve_rows(&mut self) -> Result<(), OutOfMemory>
        ensures { self.new ≡ self.old }
    {
        self.cache = Cache::with_rows(self.alloc)?;
        Ok(())
    }

    /// The classes are sound: only the first has no base, none derives from a class that derives
    /// from it, and each has an order. In each no own attribute's name stands twice.
    pub fn sound(&self)
        ensures sound { AreSound self.now }
        ensures distinct { All (λ k. AreNamesDistinct k.attrs) self.now }
    {
        let _count = self.classes.len();
    }

    /// How many classes there are.
    pub fn len(&self) -> usize
        ensures { result ≡ length self.now }
    {
        self.classes.len()
    }

    /// The number of the class at a place.
    pub fn number_at(&self, place: usize) -> PyTypeRef
        requires { place < length self.now }
        ensures number { slice_get (numbers_of self.now) place ≡ Some result.0 }
        ensures there { is_class self.now result.0 ≡ true }
    {
        number_in(&self.classes, place)
    }

    /// Whether a number is that of a class.
    pub fn has_class(&self, class: PyTypeRef) -> bool
        ensures { result ≡ is_class self.now class.0 }
    {
        find(&self.classes, class).is_some()
    }

    /// Whether a new class can have a number: it is greater than all there.
    pub fn takes(&self, number: PyTypeRef) -> bool
        ensures { result ≡ leb (limit self.now) number.0 }
    {
        takes(&self.classes, number)
    }

    // One more class, with one base or none. Where memory runs out, the table stays as it was.
    pub(crate) fn add_class(&mut self, new: NewClass) -> Result<PyTypeRef, OutOfMemory>
        requires below { IsBelow self.old new.number.0 (numbers new.bases.items) }
        requires one { length new.bases.items ≤ 1 }
        requires fresh { limit self.old ≤ new.number.0 }
        requires dict { says_dict (Some (class_of_new new)) ≡ has_its_dict self.old (Some (class_of_new new)) }
        ensures number { IfOk result (λ c. c ≡ new.number) }
        ensures added { OnOk result (self.new ≡ with_class self.old (class_of_new new)) }
        ensures err { OnErr result (self.new ≡ self.old) }
    {
        let alloc = self.alloc;
        let best = only(&self.classes, &new.bases);
        self.cache.raise();
        match add(&mut self.classes, alloc, new, best) {
            Ok(number) => Ok(number),
            Err(ClassFault::OutOfMemory) => Err(OutOfMemory),
            Err(ClassFault::Refused(_)) => unreachable!(),
            Err(ClassFault::RefusedAt(_, _)) => unreachable!(),
        }
    }

    /// The best of some bases: the first whose solid class derives from those of all, or why they may not be
    /// bases together, whatever their order: there is none; or base by base, one may have no subclasses, or
    /// its layout conflicts with those before it.
    pub fn best_base(&self, bases: &[PyTypeRef]) -> Result<PyTypeRef, Cause>
        requires { AreThere self.now (numbers bases.now) }
        ensures best { IfOk result (λ b. best_of self.now (numbers bases.now) ≡ Some b.0) }
        ensures refused { cause_of result ≡ refused_layout self.now (numbers bases.now) }
    {
        best_base(&self.classes, bases)
    }

    /// Whether a script may make a class with these bases, or why not.
    pub fn may_derive(&self, bases: &[PyTypeRef]) -> Result<(), ClassFault>
        requires { AreThere self.now (numbers bases.now) }
        ensures early { IsEarly self.now (numbers bases.now) (refusal result) }
        ensures refused { WithMemory result (refusal result ≡ refused_bases self.now (numbers bases.now)) }
        ensures names { NamesNoClass result }
    {
        let alloc = self.alloc;
        may_derive(&self.classes, alloc, bases)
    }

    /// A class that a script makes: with the name, the bases, the attributes and what `__slots__` name, where it has
    /// some. All of these names but `__dict__` are its members. It brings its objects a dict where it has no `__slots__`
    /// or `__dict__` is among them. It is
    /// refused for the first of these causes: it has no base; base by base, one may have no subclasses or
    /// its layout conflicts with those before it; a base stands twice; the bases have no order. Where it is
    /// refused or memory runs out, the table stays as it was.
    pub fn new_heap_slots(
        &mut self,
        number: PyTypeRef,
        name: &str,
        bases: Vec<PyTypeRef>,
        attrs: PyAttributes,
        slots: Option<Vec<PyStrInterned>>,
    ) -> Result<PyTypeRef, ClassFault>
        requires bases { AreThere self.old (numbers bases.items) }
        requires fresh { limit self.old ≤ number.0 }
        ensures number { IfOk result (λ c. c ≡ number) }
        ensures added { OnOk result (self.new ≡
            with_class self.old (heap_class table_keys self.old name.now number.0 (numbers bases.items) attrs
            (slot_names slots))) }
        ensures early { IsEarly self.old (numbers bases.items) (refusal result) }
        ensures refused { WithMemory result (refusal result ≡ refused_bases self.old (numbers bases.items)) }
        ensures empty { (refusal result ≡ Some EmptyBases) ↔ (numbers bases.items ≡ []) }
        ensures base { (refusal result ≡ Some NotBaseType) ↔ LacksBase self.old (numbers bases.items) }
        ensures layout { (refusal result ≡ Some LayoutConflict) ↔ HasLayoutConflict self.old (numbers bases.items) }
        ensures duplicate { WithMemory result ((refusal result ≡ Some DuplicateBase) ↔
            HasDuplicate self.old (numbers bases.items)) }
        ensures precedence { WithMemory result ((refusal result ≡ Some LocalPrecedence) ↔
            BreaksOrder self.old (numbers bases.items)) }
        ensures conflict { WithMemory result ((refusal result ≡ Some MroConflict) ↔
            HasNoLine self.old (numbers bases.items)) }
        ensures err { OnErr result (self.new ≡ self.old) }
        ensures names { NamesNoClass result }
    {
        let alloc = self.alloc;
        self.cache.raise();
        add_heap(&mut self.classes, alloc, number, name, bases, attrs, slots)
    }

    /// Gives an own attribute of a class that a script made a value. Where it is refused or memory
    /// runs out, the table stays as it was.
    pub fn set_attr(
        &mut self,
        class: PyTypeRef,
        name: PyStrInterned,
        value: PyObjectRef,
    ) -> Result<(), ClassFault>
        requires { is_class self.old class.0 ≡ true }
        ensures immutable { refusal result ≡ refused_attr self.old class.0 }
        ensures set { OnOk result (self.new ≡ with_class_attr is_same_name self.old class.0 name value) }
        ensures err { OnErr result (self.new ≡ self.old) }
        ensures names { NamesNoClass result }
    {
        self.cache.raise();
        set_heap(&mut self.classes, class, name, value)
    }

    /// Takes an own attribute out of a class that a script made, and says whether it was there. It takes no memory. The
    /// slots of the class, and of each class that derives from it, are those that a fresh search finds.
    pub fn del_attr_direct(
        &mut self,
        class: PyTypeRef,
        name: PyStrInterned,
    ) -> Result<bool, ClassFault>
        requires { is_class self.old class.0 ≡ true }
        ensures immutable { refusal result ≡ refused_attr self.old class.0 }
        ensures memory { NeedsNoMemory result }
        ensures there { IfOk result (λ b. b ≡
            is_some (own_of (λ k. is_same_name k name) (class_at self.old class.0))) }
        ensures taken { OnOk result (self.new ≡ without_class_attr is_same_name self.old class.0 name) }
        ensures absent { result ≡ Ok false → self.new ≡ self.old }
        ensures err { OnErr result (self.new ≡ self.old) }
        ensures names { NamesNoClass result }
    {
        self.cache.raise();
        take_heap(&mut self.classes, class, name)
    }

    /// Gives a class that a script made another name. Where memory runs out, the table stays as it was.
    pub fn set_name(&mut self, class: PyTypeRef, name: &str) -> Result<(), OutOfMemory>
        requires there { is_class self.old class.0 ≡ true }
        requires heap { is_heap_at (class_at self.old class.0) ≡ true }
        ensures named { OnOk result (self.new ≡ with_class_name self.old class.0 name.now) }
        ensures err { OnErr result (self.new ≡ self.old) }
    {
        let alloc = self.alloc;
        self.cache.raise();
        rename_in(&mut self.classes, alloc, class, name)
    }

    /// Other bases for a class that a script made. They are refused for the first of these causes: no script made
    /// the class; there are none; one is the class or derives from it; base by base, one may have no subclasses or its
    /// layout conflicts with those before it; the solid class of the best of them is not that of the best base of now, or
    /// the class gives its objects a dict and would not, or the other way round; one stands twice; and then at the
    /// least-numbered class that they leave without an order while all its bases have one. Where they are refused or
    /// memory runs out, the table stays as it was. No count of merges or of probes falls; at most one merge is counted for
    /// the class and for each that derives from it, and at most 70 probes for each place of their new linearisations; and
    /// where a test fails that needs no order, nothing is counted.
    pub fn set_bases<L: Ledger>(
        &mut self,
        class: PyTypeRef,
        bases: Vec<PyTypeRef>,
        steps: &mut Steps<L>,
    ) -> Result<(), ClassFault>
        requires own { is_class self.old class.0 ≡ true }
        requires there { AreThere self.old (numbers bases.items) }
        ensures early { IsToldFirst self.old class.0 (numbers bases.items) (told result) }
        ensures refused { WithMemory result (told result ≡ refused_rebase self.old class.0 (numbers bases.items)) }
        ensures set { OnOk result (self.new ≡ with_bases self.old class.0 (numbers bases.items)) }
        ensures err { OnErr result (self.new ≡ self.old) }
        ensures merges { steps.old.merges ≤ steps.new.merges }
        ensures probes { steps.old.probes ≤ steps.new.probes }
        ensures few_merges { steps.new.merges ≤ steps.old.merges + length (descendants self.old class.0) }
        ensures few_probes { steps.new.probes ≤ steps.old.probes + 70 *
            line_places (with_bases self.old class.0 (numbers bases.items)) (descendants self.old class.0) }
        ensures uncounted { IsSome (refused_change self.old class.0 (numbers bases.items)) → steps.new ≡ steps.old }
    {
        let alloc = self.alloc;
        self.cache.raise();
        rebase(&mut self.classes, alloc, class, bases, steps)
    }

    // Gives a built-in class an own attribute, while the table is set up. What a script sets goes by
    // `set_attr`, which refuses a built-in class.
    pub(crate) fn put_attr(
        &mut self,
        class: PyTypeRef,
        name: PyStrInterned,
        value: PyObjectRef,
    ) -> Result<(), OutOfMemory>
        requires there { is_class self.old class.0 ≡ true }
        requires first { class.0 < built_ins }
        ensures set { OnOk result (self.new ≡ with_class_attr is_same_name self.old class.0 name value) }
        ensures err { OnErr result (self.new ≡ self.old) }
    {
        self.cache.raise();
        put_in(&mut self.classes, class, name, value)
    }

    /// Whether a class is another one or has it along its linearisation.
    pub fn fast_issubclass(&self, class: PyTypeRef, other: PyTypeRef) -> bool
        requires { is_class self.now class.0 ≡ true }
        ensures { result ≡ is_sub self.now class.0 other.0 }
    {
        stored_at(&self.classes, class).derives(other)
    }

    /// A slot as it is read for a class.
    pub fn slot(&self, class: PyTypeRef, slot: SlotId) -> Option<SlotEntry>
        requires { is_class self.now class.0 ≡ true }
        ensures { result ≡ slot_read table_keys natives_of self.now class.0 slot }
    {
        read(&self.classes, class, slot)
    }

    /// What a class itself has in a slot.
    pub fn own_slot(&self, class: PyTypeRef, slot: SlotId) -> Option<SlotEntry>
        requires { is_class self.now class.0 ≡ true }
        ensures { result ≡ entry table_keys natives_of self.now class.0 slot }
    {
        own_entry(&self.classes, class, slot)
    }

    /// The classes that have a class among their bases, in order.
    pub fn subclasses(&self, class: PyTypeRef) -> &[PyTypeRef]
        requires { is_class self.now class.0 ≡ true }
        ensures { numbers result.now ≡ subclasses self.now class.0 }
    {
        stored_at(&self.classes, class).subclasses()
    }

    /// The linearisation of a class: the least of its orders.
    pub fn mro(&self, class: PyTypeRef) -> &[PyTypeRef]
        requires { is_class self.now class.0 ≡ true }
        ensures line { lin self.now class.0 ≡ Some (numbers result.now) }
        ensures least { IsLeastLine self.now class.0 (numbers result.now) }
    {
        stored_at(&self.classes, class).mro()
    }

    /// The linearisation of a class, copied.
    pub fn mro_collect(&self, class: PyTypeRef) -> Result<Vec<PyTypeRef>, OutOfMemory>
        requires { is_class self.now class.0 ≡ true }
        ensures { IfOk result (λ v. lin self.now class.0 ≡ Some (numbers v.items)) }
    {
        let line = Vec::from_slice(self.alloc, self.mro(class))?;
        Ok(line)
    }

    /// What a function gives for each class along the linearisation of a class, in order.
    pub fn mro_map_collect<T: Drop, F: Fn(PyTypeRef) -> T>(
        &self,
        class: PyTypeRef,
        f: F,
    ) -> Result<Vec<T>, OutOfMemory>
        requires there { is_class self.now class.0 ≡ true }
        requires callable { F.IsAlwaysCallable f }
        ensures { IfOk result (λ v. AreGiven (F.post f) (lin self.now class.0) v.items) }
    {
        map_along(self.alloc, self.mro(class), f)
    }

    /// The attributes of a class, its own and those that it inherits. They are put together from the end of the
    /// linearisation up: a class nearer to the front replaces the value of a name and keeps its place.
    pub fn get_attributes(&self, class: PyTypeRef) -> Result<PyAttributes, OutOfMemory>
        requires { is_class self.now class.0 ≡ true }
        ensures { IfOk result (λ a. all_attributes is_same_name self.now class.0 ≡ Some a) }
    {
        attributes_along(&self.classes, self.alloc, self.mro(class))
    }

    /// The direct bases of a class, in order.
    pub fn bases(&self, class: PyTypeRef) -> &[PyTypeRef]
        requires { is_class self.now class.0 ≡ true }
        ensures { bases_of self.now class.0 ≡ Some (numbers result.now) }
    {
        stored_at(&self.classes, class).bases()
    }

    /// The best base of a class: `object` alone has none.
    pub fn base(&self, class: PyTypeRef) -> Option<PyTypeRef>
        requires { is_class self.now class.0 ≡ true }
        ensures base { number_of result ≡ base self.now class.0 }
        ensures there { IfSome result (λ b. is_class self.now b.0 ≡ true) }
        ensures root { (result ≡ None) ↔ (class.0 ≡ 0) }
    {
        base_of(&self.classes, class)
    }

    /// The class, its best base, the best base of that one, and so on, up to `object`.
    pub fn iter_base_chain(&self, class: PyTypeRef) -> BaseChain<'_>
        requires { is_class self.now class.0 ≡ true }
        ensures chain { result ≡ base_chain self.now class.0 }
        ensures whole { IsChain (base self.now) (Some class.0) result }
    {
        chain(&self.classes, class)
    }

    /// The nearest solid class of a class: itself, or that of its best base.
    pub fn solid_base(&self, class: PyTypeRef) -> PyTypeRef
        requires { is_class self.now class.0 ≡ true }
        ensures { solid self.now class.0 ≡ Some result.0 }
    {
        solid_class(&self.classes, class)
    }

    /// A class's name, with the parts before it.
    pub fn slot_name(&self, class: PyTypeRef) -> &str
        requires { is_class self.now class.0 ≡ true }
        ensures { option_map (λ k. k.name) (class_at self.now class.0) ≡ Some result.now }
    {
        stored_at(&self.classes, class).name()
    }

    /// How many places the objects of a class have: the members of the classes of its layout.
    pub fn member_count(&self, class: PyTypeRef) -> usize
        requires { is_class self.now class.0 ≡ true }
        ensures { place_count self.now class.0 ≡ Some result }
    {
        count_at(&self.classes, class)
    }

    /// A class's own attributes.
    pub fn attributes(&self, class: PyTypeRef) -> &PyAttributes
        requires { is_class self.now class.0 ≡ true }
        ensures { option_map (λ k. k.attrs) (class_at self.now class.0) ≡ Some result.now }
    {
        stored_at(&self.classes, class).attributes()
    }

    /// Whether a class was made by a script.
    pub fn is_heap(&self, class: PyTypeRef) -> bool
        requires { is_class self.now class.0 ≡ true }
        ensures { result ≡ is_heap_at (class_at self.now class.0) }
    {
        stored_at(&self.classes, class).is_heap()
    }

    /// Whether a class gives its objects a dict: it brings one, or one of its bases gives one. Its flags say so too.
    pub fn has_dict(&self, class: PyTypeRef) -> bool
        requires { is_class self.now class.0 ≡ true }
        ensures gives { result ≡ gives_dict self.now class.0 }
        ensures says { result ≡ has_dict self.now class.0 }
    {
        stored_at(&self.classes, class).has_dict()
    }

    /// The flags of a class.
    pub fn flags(&self, class: PyTypeRef) -> PyTypeFlags
        requires { is_class self.now class.0 ≡ true }
        ensures { option_map (λ k. k.flags) (class_at self.now class.0) ≡ Some result.0 }
    {
        stored_at(&self.classes, class).flags()
    }
}
