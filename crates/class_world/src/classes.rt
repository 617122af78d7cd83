//! What is read of classes.

ghost use Rattle.class_world.specs.Below.{ℕ, Some, IsTrue, IfSome, IfOk, option_map, natives_of, class_at as class_numbered, gives_dict, has_dict as class_has_dict, the_dict, found, found_past, own_of, is_sub, has_flag, all_attributes, place_count, short_name, slot as slot_read, candidates_of, goes_first, is_heap_at, list_of, ref, text_keys, slot_at, candidates_at, goes_first_at, is_text};
ghost use Rattle.std.specs.Prelude.{◌≡◌, ◌<◌};
ghost use Rattle.class_model.specs.Slot.{entry};
ghost use Rattle.plain_machine.specs.World.{class_at, has_dict};
ghost use Rattle.class_world.specs.Reading.{Reading, Reads, bindings, plain};
ghost use Rattle.class_world.specs.Sound.{IsNode, IsClass, IsOffset, Holds, AllHold, flags_at, of_binding, of_each};

use crate::world::World;
use class_table::Candidates;
use py_node::{
    OutOfMemory, PyAttributes, PyObjectRef, PyStrInterned, PyTypeFlags, PyTypeRef, SlotEntry,
    SlotId,
};

#[tactic(auto, unfolding(crate::specs::Reading::plain))]
impl World {
    /// What a class is called: all of its name where a script made it, and else the part after its last dot.
    pub fn class_name(&self, class: PyTypeRef) -> &str
        requires { Holds self.now (IsClass class.0) }
        ensures { (t : Reading) → option_map short_name (class_numbered (plain t self.now).classes class.0) ≡
            Some result.now }
    {
        self.classes.name(class)
    }

    /// The name of a class, with the parts before it.
    pub fn slot_name(&self, class: PyTypeRef) -> &str
        requires { Holds self.now (IsClass class.0) }
        ensures { (t : Reading) → option_map (λ k. k.name) (class_numbered (plain t self.now).classes class.0) ≡
            Some result.now }
    {
        self.classes.slot_name(class)
    }

    /// A slot as it is read for an object's class.
    pub fn slot(&self, node: PyObjectRef, slot: SlotId) -> Option<SlotEntry>
        requires { Holds self.now (IsNode node) }
        ensures { (t : Reading) → Reads t self.now → slot_at (plain t self.now) node slot ≡ result }
    {
        let class = self.class_of(node);
        self.class_slot(class, slot)
    }

    /// A slot as it is read for a class.
    pub fn class_slot(&self, class: PyTypeRef, slot: SlotId) -> Option<SlotEntry>
        requires { Holds self.now (IsClass class.0) }
        ensures { (t : Reading) → Reads t self.now →
            slot_read text_keys natives_of (plain t self.now).classes class.0 slot ≡ result }
    {
        self.classes.slot(class, slot)
    }

    /// What a class itself has in a slot.
    pub fn own_slot(&self, class: PyTypeRef, slot: SlotId) -> Option<SlotEntry>
        requires { Holds self.now (IsClass class.0) }
        ensures { (t : Reading) → Reads t self.now →
            entry text_keys natives_of (plain t self.now).classes class.0 slot ≡ result }
    {
        self.classes.own_slot(class, slot)
    }

    /// The candidates of an operator, for two objects.
    pub fn candidates(
        &self,
        left: SlotId,
        right: SlotId,
        a: PyObjectRef,
        b: PyObjectRef,
    ) -> Candidates
        requires a { Holds self.now (IsNode a) }
        requires b { Holds self.now (IsNode b) }
        ensures list { (t : Reading) → Reads t self.now →
            candidates_at (plain t self.now) left right (class_at (plain t self.now) a)
            (class_at (plain t self.now) b) ≡ list_of result }
        ensures first { (t : Reading) → Reads t self.now →
            goes_first_at (plain t self.now) right (class_at (plain t self.now) a)
            (class_at (plain t self.now) b) ≡ result.is_right_first }
    {
        let class_a = self.class_of(a);
        let class_b = self.class_of(b);
        self.class_candidates(left, right, class_a, class_b)
    }

    // The candidates of an operator, for two classes.
    fn class_candidates(
        &self,
        left: SlotId,
        right: SlotId,
        a: PyTypeRef,
        b: PyTypeRef,
    ) -> Candidates
        requires a { Holds self.now (IsClass a.0) }
        requires b { Holds self.now (IsClass b.0) }
        ensures list { (t : Reading) → Reads t self.now →
            candidates_of text_keys natives_of (plain t self.now).classes left right a.0 b.0 ≡ list_of result }
        ensures first { (t : Reading) → Reads t self.now →
            goes_first text_keys (plain t self.now).classes right a.0 b.0 ≡ result.is_right_first }
    {
        self.classes.candidates(left, right, a, b)
    }

    /// The value of a name, in the first class along a class's linearisation that has it.
    pub fn class_attr(&self, class: PyTypeRef, name: PyStrInterned) -> Option<PyObjectRef>
        requires { Holds self.now (IsClass class.0) }
        ensures found { (t : Reading) → Reads t self.now →
            found is_text (plain t self.now).classes class.0 (t.text name.0) ≡ result }
        ensures node { IfSome result (λ r. Holds self.now (IsNode r)) }
    {
        self.classes.get_attr(class, name)
    }

    /// Finds the value of a name along a class's linearisation, and keeps it until a class changes: whoever reads it then
    /// needs no search. It takes no memory, and nothing of the world changes.
    pub fn find_class_attr(&mut self, class: PyTypeRef, name: PyStrInterned)
        requires { Holds self.old (IsClass class.0) }
        ensures { self.new ≡ self.old }
    {
        self.classes.find_attr(class, name);
    }

    /// The same along the linearisation of an object's class.
    pub fn find_special(&mut self, node: PyObjectRef, name: PyStrInterned)
        requires { Holds self.old (IsNode node) }
        ensures { self.new ≡ self.old }
    {
        let class = self.class_of(node);
        self.find_class_attr(class, name);
    }

    /// The value of a name past the class itself.
    pub fn class_attr_past(&self, class: PyTypeRef, name: PyStrInterned) -> Option<PyObjectRef>
        requires { Holds self.now (IsClass class.0) }
        ensures found { (t : Reading) → Reads t self.now →
            found_past is_text (plain t self.now).classes class.0 (t.text name.0) ≡ result }
        ensures node { IfSome result (λ r. Holds self.now (IsNode r)) }
    {
        self.classes.get_super_attr(class, name)
    }

    /// A class's own value of a name.
    pub fn own_attr(&self, class: PyTypeRef, name: PyStrInterned) -> Option<PyObjectRef>
        requires { Holds self.now (IsClass class.0) }
        ensures found { (t : Reading) → Reads t self.now →
            own_of (λ y. is_text y (t.text name.0)) (class_numbered (plain t self.now).classes class.0) ≡ result }
        ensures node { IfSome result (λ r. Holds self.now (IsNode r)) }
    {
        self.classes.get_direct_attr(class, name)
    }

    /// A class's own attributes, in order.
    pub fn attributes(&self, class: PyTypeRef) -> &PyAttributes
        requires { Holds self.now (IsClass class.0) }
        ensures attrs { (t : Reading) →
            option_map (λ k. k.attrs) (class_numbered (plain t self.now).classes class.0) ≡
            Some (bindings t result.now) }
        ensures holds { AllHold self.now (of_each of_binding result.now) }
    {
        self.classes.attributes(class)
    }

    /// The attributes of a class, its own and those that it inherits.
    pub fn get_attributes(&self, class: PyTypeRef) -> Result<PyAttributes, OutOfMemory>
        requires { Holds self.now (IsClass class.0) }
        ensures attrs { IfOk result (λ a. (t : Reading) → Reads t self.now →
            all_attributes is_text (plain t self.now).classes class.0 ≡ Some (bindings t a)) }
        ensures holds { IfOk result (λ a. AllHold self.now (of_each of_binding a)) }
    {
        self.classes.get_attributes(class)
    }

    /// Whether a class is another one or has it along its linearisation.
    pub fn is_sub(&self, class: PyTypeRef, other: PyTypeRef) -> bool
        requires { Holds self.now (IsClass class.0) }
        ensures { (t : Reading) → is_sub (plain t self.now).classes class.0 other.0 ≡ result }
    {
        self.classes.fast_issubclass(class, other)
    }

    /// Whether a class was made by a script.
    pub fn class_is_heap(&self, class: PyTypeRef) -> bool
        requires { Holds self.now (IsClass class.0) }
        ensures reads { (t : Reading) → is_heap_at (class_numbered (plain t self.now).classes class.0) ≡ result }
        ensures held { is_heap_at (class_numbered self.now.classes class.0) ≡ result }
    {
        self.classes.is_heap(class)
    }

    /// Whether a class has a flag.
    pub fn class_flag(&self, class: PyTypeRef, flag: PyTypeFlags) -> bool
        requires { Holds self.now (IsClass class.0) }
        ensures { (t : Reading) →
            option_map (λ k. has_flag flag.0 k) (class_numbered (plain t self.now).classes class.0) ≡ Some result }
    {
        self.classes.flags(class).has_feature(flag)
    }

    /// How many places the objects of a class have: the members of the classes of its layout. Each offset below it
    /// stands for one.
    pub fn member_count(&self, class: PyTypeRef) -> usize
        requires { Holds self.now (IsClass class.0) }
        ensures count { (t : Reading) → place_count (plain t self.now).classes class.0 ≡ Some result }
        ensures offsets { (n : ℕ) → n < result → Holds self.now (IsOffset class.0 (Some n)) }
    {
        self.classes.member_count(class)
    }

    /// The object that stands for a class: it has the class's number.
    pub fn class_node(&self, class: PyTypeRef) -> PyObjectRef
        requires { Holds self.now (IsClass class.0) }
        ensures reads { result ≡ ref class.0 }
        ensures node { Holds self.now (IsNode result) }
    {
        let _classes = &self.classes;
        PyObjectRef(class.0)
    }

    /// Whether a class gives its objects a dict: it brings one, or one of its bases gives one. Its flags say so too.
    pub fn has_dict(&self, class: PyTypeRef) -> bool
        requires { Holds self.now (IsClass class.0) }
        ensures says { (t : Reading) → has_dict (plain t self.now) class.0 ≡ result }
        ensures gives { (t : Reading) → gives_dict (plain t self.now).classes class.0 ≡ result }
        ensures given { class_has_dict self.now.classes class.0 ≡ result }
        ensures dict { IsTrue result → Holds self.now (IsClass the_dict) }
    {
        self.classes.sound();
        self.classes.has_dict(class)
    }

    /// The flags of a class.
    pub fn class_flags(&self, class: PyTypeRef) -> PyTypeFlags
        requires { Holds self.now (IsClass class.0) }
        ensures { (t : Reading) → flags_at (plain t self.now).classes class.0 ≡ Some result.0 }
    {
        self.classes.flags(class)
    }
}
