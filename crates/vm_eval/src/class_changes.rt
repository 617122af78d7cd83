//! Classes that a host makes and changes on a machine. Each call is the world's own: its refusals and what it changes are
//! those. Want of memory sets the machine's mark.

ghost use Rattle.vm_eval.specs.Below.{[], ℕ, Ok, None, Some, IfOk, OnOk, OnErr, IsSome, is_some, length, true, false, BuiltIn, TypeType, with_bases, class_at as class_numbered, own_of, best_of, descendants, numbers, slot_names, heap_class, refused_single, single_class, says_so, static_flags, line_places, refused_change, refused_rebase, told, IsToldFirst, refusal, WithMemory, IsEarly, refused_attr, NamesNoClass, SetOwn, DelOwn, made_by_script, made_single, heap_flags, SetBases, apply, without_own_attr, the_type, ref, is_text, text_keys, has_dict, with_new_class, with_own_attr, refused_heap, slot_texts, of_slots, Reading, Reads, bindings, plain, Held, AllHold, Holds, Grows, IsNode, IsName, AreNames, IsClass, IsOf, of_each, of_binding, of_class_ref};
ghost use Rattle.std.specs.Prelude.{◌≡◌, ◌+◌, ◌*◌, ◌≤◌, ◌∷◌, ◌++◌};
ghost use Rattle.class_table.specs.ClassLog.Change.{SetBases as SetBasesChange};
ghost use Rattle.vm_eval.specs.State.{MadeHeap, MarkedAs, member_texts};

use crate::machine::VirtualMachine;
use class_table::{ClassFault, Steps};
use py_node::{PyAttributes, PyObjectRef, PyStrInterned, PyTypeFlags, PyTypeRef};
use std::sync::ledger::Ledger;

impl VirtualMachine {
    /// A class that a script could make, and the node that stands for it: with the name, the bases, the attributes and what
    /// `__slots__` name, where it has some. All of these names but `__dict__` are its members, and it brings its objects a
    /// dict where it has no `__slots__` or `__dict__` is among them. Where it is refused the machine stays as it was, and
    /// where memory runs out its world does.
    pub fn new_heap_slots(
        &mut self,
        name: &str,
        bases: Vec<PyTypeRef>,
        attrs: PyAttributes,
        slots: Option<Vec<PyStrInterned>>,
        metaclass: PyTypeRef,
    ) -> Result<PyTypeRef, ClassFault>
        requires bases { AllHold self.old.world (of_each of_class_ref bases.items) }
        requires attrs { AllHold self.old.world (of_each of_binding attrs) }
        requires slots { AllHold self.old.world (of_slots slots) }
        requires metaclass { Holds self.old.world (IsClass metaclass.0) }
        requires of_classes { Holds self.old.world (IsOf metaclass.0 TypeType) }
        ensures made { OnOk result ((t : Reading) →
            MadeHeap t self.old.world self.new.world metaclass.0 name.now bases.items attrs
            (slot_texts t slots)) }
        ensures number { IfOk result (λ c. (t : Reading) → c.0 ≡ length (plain t self.old.world).nodes) }
        ensures logged { OnOk result (self.new.world.log ≡ self.old.world.log ++
            made_by_script self.old.world.classes (length self.old.world.nodes) name.now (numbers bases.items) attrs
            (slot_names slots) ∷ []) }
        ensures early { (t : Reading) →
            IsEarly (plain t self.old.world).classes (numbers bases.items) (refusal result) }
        ensures refused { (t : Reading) → Reads t self.old.world →
            WithMemory result (refusal result ≡
            refused_heap (plain t self.old.world) (numbers bases.items) (bindings t attrs)) }
        ensures err { OnErr result (self.new.world ≡ self.old.world) }
        ensures reads { (t : Reading) → Reads t self.new.world → Reads t self.old.world }
        ensures grows { Grows self.old.world self.new.world }
        ensures class { IfOk result (λ c. Holds self.new.world (IsClass c.0)) }
        ensures of { IfOk result (λ c. (d : ℕ) (b : BuiltIn) → best_of self.old.world.classes (numbers bases.items) ≡
            Some d → Holds self.old.world (IsOf d b) → Holds self.new.world (IsOf c.0 b)) }
        ensures node { IfOk result (λ c. Holds self.new.world (IsNode (ref c.0))) }
        ensures mark { MarkedAs self.old self.new result }
        ensures names { NamesNoClass result }
    {
        let class = self
            .world
            .new_heap_slots(name, bases, attrs, slots, metaclass);
        self.marked_as(class)
    }

    /// The same with members in place of `__slots__`: where there are none, the class has no `__slots__`.
    pub fn new_heap(
        &mut self,
        name: &str,
        bases: Vec<PyTypeRef>,
        attrs: PyAttributes,
        members: Vec<PyStrInterned>,
        metaclass: PyTypeRef,
    ) -> Result<PyTypeRef, ClassFault>
        requires bases { AllHold self.old.world (of_each of_class_ref bases.items) }
        requires attrs { AllHold self.old.world (of_each of_binding attrs) }
        requires members { Holds self.old.world (AreNames members.items) }
        requires metaclass { Holds self.old.world (IsClass metaclass.0) }
        requires of_classes { Holds self.old.world (IsOf metaclass.0 TypeType) }
        ensures made { OnOk result ((t : Reading) →
            MadeHeap t self.old.world self.new.world metaclass.0 name.now bases.items attrs
            (member_texts t members.items)) }
        ensures number { IfOk result (λ c. (t : Reading) → c.0 ≡ length (plain t self.old.world).nodes) }
        ensures early { (t : Reading) →
            IsEarly (plain t self.old.world).classes (numbers bases.items) (refusal result) }
        ensures refused { (t : Reading) → Reads t self.old.world →
            WithMemory result (refusal result ≡
            refused_heap (plain t self.old.world) (numbers bases.items) (bindings t attrs)) }
        ensures err { OnErr result (self.new.world ≡ self.old.world) }
        ensures reads { (t : Reading) → Reads t self.new.world → Reads t self.old.world }
        ensures grows { Grows self.old.world self.new.world }
        ensures class { IfOk result (λ c. Holds self.new.world (IsClass c.0)) }
        ensures of { IfOk result (λ c. (d : ℕ) (b : BuiltIn) → best_of self.old.world.classes (numbers bases.items) ≡
            Some d → Holds self.old.world (IsOf d b) → Holds self.new.world (IsOf c.0 b)) }
        ensures node { IfOk result (λ c. Holds self.new.world (IsNode (ref c.0))) }
        ensures mark { MarkedAs self.old self.new result }
        ensures names { NamesNoClass result }
    {
        self.new_heap_slots(name, bases, attrs, slots_of(members), metaclass)
    }

    /// Gives a class's own attribute a value. The class must be made by a script. Where it is refused
    /// the machine stays as it was, and where memory runs out its world does.
    pub fn set_attr(
        &mut self,
        class: PyTypeRef,
        name: PyStrInterned,
        value: PyObjectRef,
    ) -> Result<(), ClassFault>
        requires class { Holds self.old.world (IsClass class.0) }
        requires name { Holds self.old.world (IsName name) }
        requires value { Holds self.old.world (IsNode value) }
        ensures refused { (t : Reading) → refusal result ≡ refused_attr (plain t self.old.world).classes class.0 }
        ensures set { OnOk result ((t : Reading) → plain t self.new.world ≡
            with_own_attr (plain t self.old.world) class.0 (t.text name.0) value) }
        ensures logged { OnOk result (self.new.world.log ≡ self.old.world.log ++ SetOwn class.0 name value ∷ []) }
        ensures err { OnErr result (self.new.world ≡ self.old.world) }
        ensures reads { (t : Reading) → Reads t self.new.world → Reads t self.old.world }
        ensures grows { Grows self.old.world self.new.world }
        ensures mark { MarkedAs self.old self.new result }
        ensures names { NamesNoClass result }
    {
        let set = self.world.set_attr(class, name, value);
        self.marked_as(set)
    }

    /// A class as a script makes it, with one base and no attributes, and the node that stands for it. It is
    /// refused where the base may have no subclasses; then, and where memory runs out, the machine's world stays as it was.
    pub fn new_simple_heap(&mut self, name: &str, base: PyTypeRef) -> Result<PyTypeRef, ClassFault>
        requires base { Holds self.old.world (IsClass base.0) }
        ensures made { OnOk result ((t : Reading) → plain t self.new.world ≡ with_new_class (plain t self.old.world) the_type
            (heap_class text_keys (plain t self.old.world).classes name.now (length (plain t self.old.world).nodes)
            (base.0 ∷ []) [] None)) }
        ensures number { IfOk result (λ c. (t : Reading) → c.0 ≡ length (plain t self.old.world).nodes) }
        ensures logged { OnOk result (self.new.world.log ≡ self.old.world.log ++
            made_single (length self.old.world.nodes) name.now base.0 [] (heap_flags true) ∷ []) }
        ensures refused { (t : Reading) → refusal result ≡ refused_single (plain t self.old.world).classes base.0 }
        ensures err { OnErr result (self.new.world ≡ self.old.world) }
        ensures reads { (t : Reading) → Reads t self.new.world → Reads t self.old.world }
        ensures grows { Grows self.old.world self.new.world }
        ensures class { IfOk result (λ c. Holds self.new.world (IsClass c.0)) }
        ensures of { IfOk result (λ c. (b : BuiltIn) → Holds self.old.world (IsOf base.0 b) → Holds self.new.world (IsOf c.0 b)) }
        ensures node { IfOk result (λ c. Holds self.new.world (IsNode (ref c.0))) }
        ensures mark { MarkedAs self.old self.new result }
        ensures names { NamesNoClass result }
    {
        let class = self.world.new_simple_heap(name, base);
        self.marked_as(class)
    }

    /// A static class, which scripts can't change, and the node that stands for it: with one base and attributes,
    /// and with the flags but for what the base settles. It is refused where the base may have no subclasses;
    /// then, and where memory runs out, the machine's world stays as it was.
    pub fn new_static(
        &mut self,
        name: &str,
        base: PyTypeRef,
        attrs: PyAttributes,
        flags: PyTypeFlags,
        metaclass: PyTypeRef,
    ) -> Result<PyTypeRef, ClassFault>
        requires base { Holds self.old.world (IsClass base.0) }
        requires attrs { AllHold self.old.world (of_each of_binding attrs) }
        requires metaclass { Holds self.old.world (IsClass metaclass.0) }
        requires of_classes { Holds self.old.world (IsOf metaclass.0 TypeType) }
        ensures made { OnOk result ((t : Reading) → plain t self.new.world ≡
            with_new_class (plain t self.old.world) metaclass.0 (single_class name.now (length (plain t self.old.world).nodes)
            base.0 (bindings t attrs) (static_flags flags.0 (has_dict (plain t self.old.world) base.0)) (says_so flags.0))) }
        ensures number { IfOk result (λ c. (t : Reading) → c.0 ≡ length (plain t self.old.world).nodes) }
        ensures logged { OnOk result (self.new.world.log ≡ self.old.world.log ++
            made_single (length self.old.world.nodes) name.now base.0 attrs (static_flags flags.0 false) ∷ []) }
        ensures refused { (t : Reading) → refusal result ≡ refused_single (plain t self.old.world).classes base.0 }
        ensures err { OnErr result (self.new.world ≡ self.old.world) }
        ensures reads { (t : Reading) → Reads t self.new.world → Reads t self.old.world }
        ensures grows { Grows self.old.world self.new.world }
        ensures class { IfOk result (λ c. Holds self.new.world (IsClass c.0)) }
        ensures of { IfOk result (λ c. (b : BuiltIn) → Holds self.old.world (IsOf base.0 b) → Holds self.new.world (IsOf c.0 b)) }
        ensures node { IfOk result (λ c. Holds self.new.world (IsNode (ref c.0))) }
        ensures mark { MarkedAs self.old self.new result }
        ensures names { NamesNoClass result }
    {
        let class = self.world.new_static(name, base, attrs, flags, metaclass);
        self.marked_as(class)
    }

    /// Gives a class's own attribute a value, by the text of its name. The class must be made by a script. Where it is
    /// refused or memory runs out, only the text may have got a number.
    pub fn set_str_attr(
        &mut self,
        class: PyTypeRef,
        name: &str,
        value: PyObjectRef,
    ) -> Result<(), ClassFault>
        requires class { Holds self.old.world (IsClass class.0) }
        requires value { Holds self.old.world (IsNode value) }
        ensures refused { (t : Reading) → refusal result ≡ refused_attr (plain t self.old.world).classes class.0 }
        ensures set { OnOk result ((t : Reading) → Reads t self.new.world → plain t self.new.world ≡
            with_own_attr (plain t self.old.world) class.0 name.now value) }
        ensures same { OnErr result ((t : Reading) → plain t self.new.world ≡ plain t self.old.world) }
        ensures reads { (t : Reading) → Reads t self.new.world → Reads t self.old.world }
        ensures grows { Grows self.old.world self.new.world }
        ensures mark { MarkedAs self.old self.new result }
        ensures names { NamesNoClass result }
    {
        let set = self.world.set_str_attr(class, name, value);
        self.marked_as(set)
    }

    /// Takes an own attribute out of a class that a script made, and says whether it was there. Where it is refused, and
    /// where memory runs out, the machine's world stays as it was.
    pub fn del_attr_direct(
        &mut self,
        class: PyTypeRef,
        name: PyStrInterned,
    ) -> Result<bool, ClassFault>
        requires class { Holds self.old.world (IsClass class.0) }
        requires name { Holds self.old.world (IsName name) }
        ensures refused { (t : Reading) → refusal result ≡ refused_attr (plain t self.old.world).classes class.0 }
        ensures there { IfOk result (λ b. (t : Reading) → Reads t self.old.world → b ≡
            is_some (own_of (λ y. is_text y (t.text name.0)) (class_numbered (plain t self.old.world).classes class.0))) }
        ensures taken { OnOk result ((t : Reading) → plain t self.new.world ≡
            without_own_attr (plain t self.old.world) class.0 (t.text name.0)) }
        ensures logged { result ≡ Ok true →
            self.new.world.log ≡ self.old.world.log ++ DelOwn class.0 name ∷ [] }
        ensures absent { result ≡ Ok false → self.new.world ≡ self.old.world }
        ensures err { OnErr result (self.new.world ≡ self.old.world) }
        ensures reads { (t : Reading) → Reads t self.new.world → Reads t self.old.world }
        ensures grows { Grows self.old.world self.new.world }
        ensures mark { MarkedAs self.old self.new result }
        ensures names { NamesNoClass result }
    {
        let there = self.world.del_attr_direct(class, name);
        self.marked_as(there)
    }

    /// Gives a class other bases. The tests that need no order are told first, and also where memory is short: a script
    /// made the class; it gets bases; none of them is the class or derives from it; each may have subclasses and its
    /// layout goes with those before it; the class keeps its solid class and gives its objects a dict as before; none
    /// stands twice. Then the least-numbered class is told that would have no order while all its bases have one. Where
    /// it is refused, and where memory runs out, the machine's world stays as it was. No count of merges or of probes
    /// falls; at most one merge is counted for the class and for each that derives from it; and where a test fails that
    /// needs no order, nothing is counted.
    pub fn set_bases<L: Ledger>(
        &mut self,
        class: PyTypeRef,
        bases: Vec<PyTypeRef>,
        steps: &mut Steps<L>,
    ) -> Result<(), ClassFault>
        requires class { Holds self.old.world (IsClass class.0) }
        requires bases { AllHold self.old.world (of_each of_class_ref bases.items) }
        ensures early { (t : Reading) →
            IsToldFirst (plain t self.old.world).classes class.0 (numbers bases.items) (told result) }
        ensures refused { (t : Reading) → WithMemory result (told result ≡
            refused_rebase (plain t self.old.world).classes class.0 (numbers bases.items)) }
        ensures set { OnOk result ((t : Reading) → plain t self.new.world ≡
            apply (plain t self.old.world) (SetBases class.0 (numbers bases.items))) }
        ensures logged { OnOk result (self.new.world.log ≡ self.old.world.log ++
            SetBasesChange class.0 (numbers bases.items) ∷ []) }
        ensures err { OnErr result (self.new.world ≡ self.old.world) }
        ensures merges { steps.old.merges ≤ steps.new.merges }
        ensures probes { steps.old.probes ≤ steps.new.probes }
        ensures few_merges { steps.new.merges ≤
            steps.old.merges + length (descendants self.old.world.classes class.0) }
        ensures few_probes { steps.new.probes ≤ steps.old.probes + 70 *
            line_places (with_bases self.old.world.classes class.0 (numbers bases.items))
            (descendants self.old.world.classes class.0) }
        ensures uncounted { (t : Reading) →
            IsSome (refused_change (plain t self.old.world).classes class.0 (numbers bases.items)) →
            steps.new ≡ steps.old }
        ensures reads { (t : Reading) → Reads t self.new.world → Reads t self.old.world }
        ensures grows { Grows self.old.world self.new.world }
        ensures mark { MarkedAs self.old self.new result }
    {
        let set = self.world.set_bases(class, bases, steps);
        self.marked_as(set)
    }
}

// Members stand for `__slots__`, where there are some.
fn slots_of(members: Vec<PyStrInterned>) -> Option<Vec<PyStrInterned>>
    ensures texts { (t : Reading) → slot_texts t result ≡ member_texts t members.items }
    ensures names { (w : Held) → Holds w (AreNames members.items) → AllHold w (of_slots result) }
{
    if members.is_empty() {
        None
    } else {
        Some(members)
    }
}
