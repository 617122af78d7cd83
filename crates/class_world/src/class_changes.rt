//! What changes of a class that a script made: its name, its bases, and its own attributes.

ghost use Rattle.class_world.specs.Below.{[], true, length, OnOk, OnErr, IsSome, with_bases, class_at as class_numbered, is_heap_at, descendants, numbers, WithMemory, line_places, refused_change, refused_rebase, told, IsToldFirst, SetBases, SetName, apply, IfOk, refusal, refused_attr, NamesNoClass, SetOwn, with_own_attr, false, is_some, Ok, own_of, DelOwn, without_own_attr, is_text};
ghost use Rattle.std.specs.Prelude.{◌≡◌, ◌+◌, ◌*◌, ◌≤◌, ◌++◌, ◌∷◌, ◌<◌};
ghost use Rattle.class_table.specs.ClassLog.Change.{SetBases as SetBasesChange};
ghost use Rattle.class_world.specs.Reading.{Reading, Reads, plain};
ghost use Rattle.class_world.specs.Sound.{IsClass, Holds, AllHold, Grows, of_class_ref, of_each, IsNode, IsName};

use crate::world::World;
use class_table::{ClassFault, Steps};
use py_node::{Cause, OutOfMemory, PyObjectRef, PyStrInterned, PyTypeRef};
use std::sync::ledger::Ledger;

#[tactic(auto, unfolding(crate::specs::Reading::plain))]
impl World {
    /// Gives a class that a script made another name, of which the log tells nothing. Where memory runs out, the world stays
    /// as it was.
    pub fn set_name(&mut self, class: PyTypeRef, name: &str) -> Result<(), OutOfMemory>
        requires class { Holds self.old (IsClass class.0) }
        requires heap { is_heap_at (class_numbered self.old.classes class.0) ≡ true }
        ensures named { OnOk result ((t : Reading) → plain t self.new ≡
            apply (plain t self.old) (SetName class.0 name.now)) }
        ensures err { OnErr result (self.new ≡ self.old) }
        ensures unlogged { self.new.log ≡ self.old.log }
        ensures reads { (t : Reading) → Reads t self.new → Reads t self.old }
        ensures grows { Grows self.old self.new }
    {
        self.classes.set_name(class, name)
    }

    /// Gives a class other bases. The tests that need no order are told first, and also where memory is short: a script
    /// made the class; it gets bases; none of them is the class or derives from it; each may have subclasses and its
    /// layout goes with those before it; the class keeps its solid class and gives its
    /// objects a dict as before; none stands twice. Then the least-numbered
    /// class is told that would have no order while all its bases have one. Where it is refused, and where memory runs
    /// out, the world stays as it was. No count of merges or of probes falls; at most one merge is counted for the class
    /// and for each that derives from it; and where a test fails that needs no order, nothing is counted.
    pub fn set_bases<L: Ledger>(
        &mut self,
        class: PyTypeRef,
        bases: Vec<PyTypeRef>,
        steps: &mut Steps<L>,
    ) -> Result<(), ClassFault>
        requires class { Holds self.old (IsClass class.0) }
        requires bases { AllHold self.old (of_each of_class_ref bases.items) }
        ensures early { (t : Reading) →
            IsToldFirst (plain t self.old).classes class.0 (numbers bases.items) (told result) }
        ensures refused { (t : Reading) → WithMemory result (told result ≡
            refused_rebase (plain t self.old).classes class.0 (numbers bases.items)) }
        ensures set { OnOk result ((t : Reading) → plain t self.new ≡
            apply (plain t self.old) (SetBases class.0 (numbers bases.items))) }
        ensures logged { OnOk result (self.new.log ≡ self.old.log ++
            SetBasesChange class.0 (numbers bases.items) ∷ []) }
        ensures err { OnErr result (self.new ≡ self.old) }
        ensures merges { steps.old.merges ≤ steps.new.merges }
        ensures probes { steps.old.probes ≤ steps.new.probes }
        ensures few_merges { steps.new.merges ≤
            steps.old.merges + length (descendants self.old.classes class.0) }
        ensures few_probes { steps.new.probes ≤ steps.old.probes + 70 *
            line_places (with_bases self.old.classes class.0 (numbers bases.items))
            (descendants self.old.classes class.0) }
        ensures uncounted { (t : Reading) →
            IsSome (refused_change (plain t self.old).classes class.0 (numbers bases.items)) → steps.new ≡ steps.old }
        ensures reads { (t : Reading) → Reads t self.new → Reads t self.old }
        ensures grows { Grows self.old self.new }
    {
        self.classes.sound();
        self.log.set_bases(&mut self.classes, class, bases, steps)
    }

    /// Gives a class's own attribute a value. The class must be made by a script. Where it is refused or
    /// memory runs out, the world stays as it was.
    pub fn set_attr(
        &mut self,
        class: PyTypeRef,
        name: PyStrInterned,
        value: PyObjectRef,
    ) -> Result<(), ClassFault>
        requires class { Holds self.old (IsClass class.0) }
        requires name { Holds self.old (IsName name) }
        requires value { Holds self.old (IsNode value) }
        ensures refused { (t : Reading) → refusal result ≡ refused_attr (plain t self.old).classes class.0 }
        ensures set { OnOk result ((t : Reading) → plain t self.new ≡
            with_own_attr (plain t self.old) class.0 (t.text name.0) value) }
        ensures err { OnErr result (self.new ≡ self.old) }
        ensures reads { (t : Reading) → Reads t self.new → Reads t self.old }
        ensures grows { Grows self.old self.new }
        ensures logged { OnOk result (self.new.log ≡ self.old.log ++ SetOwn class.0 name value ∷ []) }
        ensures names { NamesNoClass result }
    {
        self.log.set_attr(&mut self.classes, class, name, value)
    }

    /// Gives a class's own attribute a value, by the text of its name. The class must be made by a script. Where it is
    /// refused or memory runs out, only the text may have got a number.
    pub fn set_str_attr(
        &mut self,
        class: PyTypeRef,
        name: &str,
        value: PyObjectRef,
    ) -> Result<(), ClassFault>
        requires class { Holds self.old (IsClass class.0) }
        requires value { Holds self.old (IsNode value) }
        ensures refused { (t : Reading) → refusal result ≡ refused_attr (plain t self.old).classes class.0 }
        ensures set { OnOk result ((t : Reading) → Reads t self.new → plain t self.new ≡
            with_own_attr (plain t self.old) class.0 name.now value) }
        ensures same { OnErr result ((t : Reading) → plain t self.new ≡ plain t self.old) }
        ensures reads { (t : Reading) → Reads t self.new → Reads t self.old }
        ensures grows { Grows self.old self.new }
        ensures names { NamesNoClass result }
    {
        if !self.class_is_heap(class) {
            return Err(ClassFault::Refused(Cause::ImmutableType));
        }
        match self.intern(name) {
            Err(_) => Err(ClassFault::OutOfMemory),
            Ok(name) => self.set_attr(class, name, value),
        }
    }

    /// Takes an own attribute out of a class that a script made, and says whether it was there. Where it is refused or
    /// memory runs out, the world stays as it was.
    pub fn del_attr_direct(
        &mut self,
        class: PyTypeRef,
        name: PyStrInterned,
    ) -> Result<bool, ClassFault>
        requires class { Holds self.old (IsClass class.0) }
        requires name { Holds self.old (IsName name) }
        ensures refused { (t : Reading) → refusal result ≡ refused_attr (plain t self.old).classes class.0 }
        ensures there { IfOk result (λ b. (t : Reading) → Reads t self.old → b ≡
            is_some (own_of (λ y. is_text y (t.text name.0)) (class_numbered (plain t self.old).classes class.0))) }
        ensures taken { OnOk result ((t : Reading) → plain t self.new ≡
            without_own_attr (plain t self.old) class.0 (t.text name.0)) }
        ensures absent { result ≡ Ok false → self.new ≡ self.old }
        ensures logged { result ≡ Ok true → self.new.log ≡ self.old.log ++ DelOwn class.0 name ∷ [] }
        ensures err { OnErr result (self.new ≡ self.old) }
        ensures reads { (t : Reading) → Reads t self.new → Reads t self.old }
        ensures grows { Grows self.old self.new }
        ensures names { NamesNoClass result }
    {
        self.log.del_attr_direct(&mut self.classes, class, name)
    }
}
