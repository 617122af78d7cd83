//! Classes that are made: as scripts make them, simple ones with one base and no attributes, and static ones, which scripts can't
//! change.

ghost use Rattle.class_world.specs.Below.{ℕ, true, [], length, vec_len, vec_capacity, Some, IfOk, IfSome, OnOk, OnErr, option_or, TypeType, with_class, is_class, best_of, limit, heap_class, numbers, table_keys, slot_names, refusal, WithMemory, IsEarly, AreThere, refused_layout, refused_bases, NamesNoClass, IsLogged, made_by_script, ref, text_keys, datum_at, with_new_class, false, None, BuiltIn as Home, has_dict as class_has_dict, refused_single, single_class, says_so, static_flags, IsGiven, made_single, heap_flags, the_type};
ghost use Rattle.std.specs.Prelude.{◌≡◌, ◌<◌, ◌≤◌, ◌∷◌, ◌++◌, ◌||◌};
ghost use Rattle.class_world.specs.NewHeap.{HasClassNode, class_node, holds_text, qualified, refused_name, refused_heap, slot_texts, of_slots};
ghost use Rattle.class_world.specs.Reading.{Reading, Reads, bindings, plain};
ghost use Rattle.class_world.specs.Sound.{IsNode, IsClass, IsOf, Holds, AllHold, Grows, of_binding, of_class_ref, of_each, is_marked_heap};
ghost use Rattle.plain_machine.specs.World.{has_dict};

use crate::places::empty_places;
use crate::world::World;
use class_table::class_log::ClassLog;
use class_table::one_base::flags_of_static;
use class_table::{ClassFault, ClassTable};
use py_node::{
    BuiltIn, Cause, Known, Node, OutOfMemory, Payload, PyAttributes, PyMembers, PyObjectRef,
    PyStrInterned, PyTypeFlags, PyTypeRef,
};
use std::alloc::Global;

#[tactic(auto, unfolding(crate::specs::Reading::plain))]
impl World {
    /// A class that a script makes, and the node that stands for it: with the name, the bases, the attributes and what
    /// `__slots__` name, where it has some. All of these names but `__dict__` are its members, and it brings its objects a
    /// dict where it has no `__slots__` or `__dict__` is among them. Its objects hold what those of its best base do. A qualified name that is
    /// no text is told after all that the bases are refused for. Where it is refused or memory runs out, the
    /// world stays as it was.
    pub fn new_heap_slots(
        &mut self,
        name: &str,
        bases: Vec<PyTypeRef>,
        attrs: PyAttributes,
        slots: Option<Vec<PyStrInterned>>,
        metaclass: PyTypeRef,
    ) -> Result<PyTypeRef, ClassFault>
        requires bases { AllHold self.old (of_each of_class_ref bases.items) }
        requires attrs { AllHold self.old (of_each of_binding attrs) }
        requires slots { AllHold self.old (of_slots slots) }
        requires metaclass { Holds self.old (IsClass metaclass.0) }
        requires of_classes { Holds self.old (IsOf metaclass.0 TypeType) }
        ensures made { OnOk result ((t : Reading) → Reads t self.old → plain t self.new ≡
            with_new_class (plain t self.old) metaclass.0
            (heap_class text_keys (plain t self.old).classes name.now (length (plain t self.old).nodes)
            (numbers bases.items) (bindings t attrs) (slot_texts t slots))) }
        ensures number { IfOk result (λ c. (t : Reading) → c.0 ≡ length (plain t self.old).nodes) }
        ensures logged { OnOk result (self.new.log ≡ self.old.log ++
            made_by_script self.old.classes (length self.old.nodes) name.now (numbers bases.items) attrs
            (slot_names slots) ∷ []) }
        ensures early { (t : Reading) → IsEarly (plain t self.old).classes (numbers bases.items) (refusal result) }
        ensures refused { (t : Reading) → Reads t self.old → WithMemory result (refusal result ≡
            refused_heap (plain t self.old) (numbers bases.items) (bindings t attrs)) }
        ensures err { OnErr result (self.new ≡ self.old) }
        ensures reads { (t : Reading) → Reads t self.new → Reads t self.old }
        ensures grows { Grows self.old self.new }
        ensures class { IfOk result (λ c. Holds self.new (IsClass c.0)) }
        ensures of { IfOk result (λ c. (d : ℕ) (b : Home) → best_of self.old.classes (numbers bases.items) ≡
            Some d → Holds self.old (IsOf d b) → Holds self.new (IsOf c.0 b)) }
        ensures node { IfOk result (λ c. Holds self.new (IsNode (ref c.0))) }
        ensures names { NamesNoClass result }
    {
        match self.layout_refusal(&bases) {
            Some(cause) => return Err(ClassFault::Refused(cause)),
            None => {}
        }
        match self.name_refusal(&attrs) {
            Some(cause) => self.refuse_name(&bases, cause),
            None => self.add_heap(name, bases, attrs, slots, metaclass),
        }
    }

    /// Why a class may not have these bases, whatever their order, if it may not.
    pub fn layout_refusal(&self, bases: &[PyTypeRef]) -> Option<Cause>
        requires { AllHold self.now (of_each of_class_ref bases.now) }
        ensures { (t : Reading) → refused_layout (plain t self.now).classes (numbers bases.now) ≡ result }
    {
        match self.classes.best_base(bases) {
            Ok(_) => None,
            Err(cause) => Some(cause),
        }
    }

    // Refuses a class for its name, unless its bases are refused.
    fn refuse_name(&self, bases: &[PyTypeRef], cause: Cause) -> Result<PyTypeRef, ClassFault>
        requires { AllHold self.now (of_each of_class_ref bases.now) }
        ensures why { WithMemory result (refusal result ≡
            option_or (refused_bases self.now.classes (numbers bases.now)) (Some cause)) }
        ensures err { IfOk result (λ c. ⊥) }
        ensures names { NamesNoClass result }
    {
        match self.classes.may_derive(bases) {
            Ok(()) => Err(ClassFault::Refused(cause)),
            Err(fault) => Err(fault),
        }
    }

    // Why a class may not have these attributes, if it may not: its qualified name is no text.
    fn name_refusal(&self, attrs: &PyAttributes) -> Option<Cause>
        requires { AllHold self.now (of_each of_binding attrs.now) }
        ensures { (t : Reading) → Reads t self.now →
            refused_name (plain t self.now) (qualified (bindings t attrs.now)) ≡ result }
    {
        match self.qualified(attrs) {
            None => None,
            Some(value) => {
                if self.holds_text(value) {
                    None
                } else {
                    Some(Cause::QualnameType)
                }
            }
        }
    }

    // The qualified name that attributes give.
    fn qualified(&self, attrs: &PyAttributes) -> Option<PyObjectRef>
        requires { AllHold self.now (of_each of_binding attrs.now) }
        ensures value { (t : Reading) → Reads t self.now → qualified (bindings t attrs.now) ≡ result }
        ensures node { IfSome result (λ r. Holds self.now (IsNode r)) }
    {
        attrs.get(self.known(Known::Qualname))
    }

    // Whether an object holds a text.
    fn holds_text(&self, node: PyObjectRef) -> bool
        requires { Holds self.now (IsNode node) }
        ensures { (t : Reading) → holds_text (datum_at (plain t self.now) node) ≡ result }
    {
        match self.payload(node) {
            Payload::Text(_) => true,
            _ => false,
        }
    }

    // A class, and the node that stands for it, unless its bases are refused.
    fn add_heap(
        &mut self,
        name: &str,
        bases: Vec<PyTypeRef>,
        attrs: PyAttributes,
        slots: Option<Vec<PyStrInterned>>,
        metaclass: PyTypeRef,
    ) -> Result<PyTypeRef, ClassFault>
        requires bases { AllHold self.old (of_each of_class_ref bases.items) }
        requires attrs { AllHold self.old (of_each of_binding attrs) }
        requires slots { AllHold self.old (of_slots slots) }
        requires metaclass { Holds self.old (IsClass metaclass.0) }
        requires of_classes { Holds self.old (IsOf metaclass.0 TypeType) }
        ensures made { OnOk result ((t : Reading) → Reads t self.old → plain t self.new ≡
            with_new_class (plain t self.old) metaclass.0
            (heap_class text_keys (plain t self.old).classes name.now (length (plain t self.old).nodes)
            (numbers bases.items) (bindings t attrs) (slot_texts t slots))) }
        ensures number { IfOk result (λ c. (t : Reading) → c.0 ≡ length (plain t self.old).nodes) }
        ensures logged { OnOk result (self.new.log ≡ self.old.log ++
            made_by_script self.old.classes (length self.old.nodes) name.now (numbers bases.items) attrs
            (slot_names slots) ∷ []) }
        ensures refused { WithMemory result (refusal result ≡ refused_bases self.old.classes (numbers bases.items)) }
        ensures err { OnErr result (self.new ≡ self.old) }
        ensures reads { (t : Reading) → Reads t self.new → Reads t self.old }
        ensures grows { Grows self.old self.new }
        ensures class { IfOk result (λ c. Holds self.new (IsClass c.0)) }
        ensures of { IfOk result (λ c. (d : ℕ) (b : Home) → best_of self.old.classes (numbers bases.items) ≡
            Some d → Holds self.old (IsOf d b) → Holds self.new (IsOf c.0 b)) }
        ensures node { IfOk result (λ c. Holds self.new (IsNode (ref c.0))) }
        ensures names { NamesNoClass result }
    {
        self.classes.sound();
        let alloc = self.alloc;
        let made = heap_with_node(
            &mut self.classes,
            &mut self.log,
            &mut self.nodes,
            alloc,
            name,
            bases,
            attrs,
            slots,
            metaclass,
        );
        self.classes.sound();
        made
    }

    /// A class as a script makes it, with one base and no attributes, and the node that stands for it. It is
    /// refused where the base may have no subclasses; then, and where memory runs out, the world stays as it was.
    pub fn new_simple_heap(&mut self, name: &str, base: PyTypeRef) -> Result<PyTypeRef, ClassFault>
        requires base { Holds self.old (IsClass base.0) }
        ensures made { OnOk result ((t : Reading) → plain t self.new ≡ with_new_class (plain t self.old) the_type
            (heap_class text_keys (plain t self.old).classes name.now (length (plain t self.old).nodes) (base.0 ∷ []) [] None)) }
        ensures number { IfOk result (λ c. (t : Reading) → c.0 ≡ length (plain t self.old).nodes) }
        ensures logged { OnOk result (self.new.log ≡ self.old.log ++
            made_single (length self.old.nodes) name.now base.0 [] (heap_flags true) ∷ []) }
        ensures refused { (t : Reading) → refusal result ≡ refused_single (plain t self.old).classes base.0 }
        ensures err { OnErr result (self.new ≡ self.old) }
        ensures reads { (t : Reading) → Reads t self.new → Reads t self.old }
        ensures grows { Grows self.old self.new }
        ensures class { IfOk result (λ c. Holds self.new (IsClass c.0)) }
        ensures of { IfOk result (λ c. (b : Home) → Holds self.old (IsOf base.0 b) → Holds self.new (IsOf c.0 b)) }
        ensures node { IfOk result (λ c. Holds self.new (IsNode (ref c.0))) }
        ensures names { NamesNoClass result }
    {
        let attrs = PyAttributes::new(self.alloc());
        let metaclass = self.class_of_classes();
        let flags = PyTypeFlags::of_script_class(true);
        self.add_single(name, base, attrs, flags, true, flags, metaclass)
    }

    // The class of classes.
    #[tactic(auto, unfolding(py_node::specs::BuiltIns::place_of))]
    fn class_of_classes(&self) -> PyTypeRef
        ensures place { result.0 ≡ the_type }
        ensures class { Holds self.now (IsClass result.0) }
        ensures of { Holds self.now (IsOf result.0 TypeType) }
    {
        self.built_in(BuiltIn::TypeType)
    }

    /// A static class, which scripts can't change, and the node that stands for it: with one base and attributes,
    /// and with the flags but for what the base settles. It is logged with these flags, but that no script makes it. It is
    /// refused where the base may have no subclasses; then, and where memory runs out, the world stays as it was.
    pub fn new_static(
        &mut self,
        name: &str,
        base: PyTypeRef,
        attrs: PyAttributes,
        flags: PyTypeFlags,
        metaclass: PyTypeRef,
    ) -> Result<PyTypeRef, ClassFault>
        requires base { Holds self.old (IsClass base.0) }
        requires attrs { AllHold self.old (of_each of_binding attrs) }
        requires metaclass { Holds self.old (IsClass metaclass.0) }
        requires of_classes { Holds self.old (IsOf metaclass.0 TypeType) }
        ensures made { OnOk result ((t : Reading) → plain t self.new ≡
            with_new_class (plain t self.old) metaclass.0 (single_class name.now (length (plain t self.old).nodes)
            base.0 (bindings t attrs) (static_flags flags.0 (has_dict (plain t self.old) base.0)) (says_so flags.0))) }
        ensures number { IfOk result (λ c. (t : Reading) → c.0 ≡ length (plain t self.old).nodes) }
        ensures logged { OnOk result (self.new.log ≡ self.old.log ++
            made_single (length self.old.nodes) name.now base.0 attrs (static_flags flags.0 false) ∷ []) }
        ensures refused { (t : Reading) → refusal result ≡ refused_single (plain t self.old).classes base.0 }
        ensures err { OnErr result (self.new ≡ self.old) }
        ensures reads { (t : Reading) → Reads t self.new → Reads t self.old }
        ensures grows { Grows self.old self.new }
        ensures class { IfOk result (λ c. Holds self.new (IsClass c.0)) }
        ensures of { IfOk result (λ c. (b : Home) → Holds self.old (IsOf base.0 b) → Holds self.new (IsOf c.0 b)) }
        ensures node { IfOk result (λ c. Holds self.new (IsNode (ref c.0))) }
        ensures names { NamesNoClass result }
    {
        let brings = flags.has_feature(PyTypeFlags::HAS_DICT);
        let given = flags_of_static(flags, false);
        let flags = flags_of_static(flags, self.has_dict(base));
        self.add_single(name, base, attrs, flags, brings, given, metaclass)
    }

    // A class with one base and these flags, and the node that stands for it, unless the base may have no subclasses. It
    // is logged with the flags from which these follow.
    fn add_single(
        &mut self,
        name: &str,
        base: PyTypeRef,
        attrs: PyAttributes,
        flags: PyTypeFlags,
        brings: bool,
        given: PyTypeFlags,
        metaclass: PyTypeRef,
    ) -> Result<PyTypeRef, ClassFault>
        requires base { Holds self.old (IsClass base.0) }
        requires attrs { AllHold self.old (of_each of_binding attrs) }
        requires dict { says_so flags.0 ≡ (brings || class_has_dict self.old.classes base.0) }
        requires given { IsGiven given.0 flags.0 brings (class_has_dict self.old.classes base.0) }
        requires unmarked { is_marked_heap flags.0 ≡ false }
        requires metaclass { Holds self.old (IsClass metaclass.0) }
        requires of_classes { Holds self.old (IsOf metaclass.0 TypeType) }
        ensures made { OnOk result ((t : Reading) → plain t self.new ≡
            with_new_class (plain t self.old) metaclass.0
            (single_class name.now (length (plain t self.old).nodes) base.0 (bindings t attrs) flags.0 brings)) }
        ensures number { IfOk result (λ c. (t : Reading) → c.0 ≡ length (plain t self.old).nodes) }
        ensures logged { OnOk result (self.new.log ≡ self.old.log ++
            made_single (length self.old.nodes) name.now base.0 attrs given.0 ∷ []) }
        ensures refused { refusal result ≡ refused_single self.old.classes base.0 }
        ensures err { OnErr result (self.new ≡ self.old) }
        ensures reads { (t : Reading) → Reads t self.new → Reads t self.old }
        ensures grows { Grows self.old self.new }
        ensures class { IfOk result (λ c. Holds self.new (IsClass c.0)) }
        ensures of { IfOk result (λ c. (b : Home) → Holds self.old (IsOf base.0 b) → Holds self.new (IsOf c.0 b)) }
        ensures node { IfOk result (λ c. Holds self.new (IsNode (ref c.0))) }
        ensures names { NamesNoClass result }
    {
        self.classes.sound();
        let alloc = self.alloc;
        let made = single_with_node(
            &mut self.classes,
            &mut self.log,
            &mut self.nodes,
            alloc,
            name,
            base,
            attrs,
            flags,
            brings,
            given,
            metaclass,
        );
        self.classes.sound();
        made
    }
}

// A class, and the node that stands for it; the change is logged. Where the bases are refused or memory runs out, there
// is neither.
fn heap_with_node(
    classes: &mut ClassTable,
    log: &mut ClassLog,
    nodes: &mut Vec<Node>,
    alloc: Global,
    name: &str,
    bases: Vec<PyTypeRef>,
    attrs: PyAttributes,
    slots: Option<Vec<PyStrInterned>>,
    metaclass: PyTypeRef,
) -> Result<PyTypeRef, ClassFault>
    requires bases { AreThere classes.old (numbers bases.items) }
    requires fresh { limit classes.old ≤ length nodes.old.items }
    requires metaclass { is_class classes.old metaclass.0 ≡ true }
    ensures added { OnOk result (classes.new ≡ with_class classes.old
        (heap_class table_keys classes.old name.now (length nodes.old.items) (numbers bases.items) attrs
        (slot_names slots))) }
    ensures logged { OnOk result (log.new ≡ log.old ++
        made_by_script classes.old (length nodes.old.items) name.now (numbers bases.items) attrs (slot_names slots) ∷ []) }
    ensures law { IsLogged log.old classes.old → IsLogged log.new classes.new }
    ensures node { IfOk result (λ c. HasClassNode classes.old nodes.old.items nodes.new.items metaclass c) }
    ensures number { IfOk result (λ c. c.0 ≡ length nodes.old.items) }
    ensures refused { WithMemory result (refusal result ≡ refused_bases classes.old (numbers bases.items)) }
    ensures err { OnErr result (classes.new ≡ classes.old) }
    ensures no_node { OnErr result (nodes.new.items ≡ nodes.old.items) }
    ensures unlogged { OnErr result (log.new ≡ log.old) }
    ensures names { NamesNoClass result }
{
    let members = match empty_places(classes, alloc, metaclass) {
        Ok(members) => members,
        Err(_) => return Err(ClassFault::OutOfMemory),
    };
    match nodes.reserve(1) {
        Ok(()) => (),
        Err(_) => return Err(ClassFault::OutOfMemory),
    }
    let number = PyTypeRef(nodes.len() as u64);
    match log.new_heap_slots(classes, number, name, bases, attrs, slots) {
        Err(fault) => Err(fault),
        Ok(class) => {
            push_class_node(nodes, class, metaclass, members);
            Ok(class)
        }
    }
}

// A class with one base, and the node that stands for it; the change is logged with the flags that are given. Where the
// base may have no subclasses or memory runs out, there is neither.
fn single_with_node(
    classes: &mut ClassTable,
    log: &mut ClassLog,
    nodes: &mut Vec<Node>,
    alloc: Global,
    name: &str,
    base: PyTypeRef,
    attrs: PyAttributes,
    flags: PyTypeFlags,
    brings: bool,
    given: PyTypeFlags,
    metaclass: PyTypeRef,
) -> Result<PyTypeRef, ClassFault>
    requires base { is_class classes.old base.0 ≡ true }
    requires fresh { limit classes.old ≤ length nodes.old.items }
    requires metaclass { is_class classes.old metaclass.0 ≡ true }
    requires dict { says_so flags.0 ≡ (brings || class_has_dict classes.old base.0) }
    requires given { IsGiven given.0 flags.0 brings (class_has_dict classes.old base.0) }
    ensures added { OnOk result (classes.new ≡ with_class classes.old
        (single_class name.now (length nodes.old.items) base.0 attrs flags.0 brings)) }
    ensures logged { OnOk result (log.new ≡ log.old ++
        made_single (length nodes.old.items) name.now base.0 attrs given.0 ∷ []) }
    ensures law { IsLogged log.old classes.old → IsLogged log.new classes.new }
    ensures node { IfOk result (λ c. HasClassNode classes.old nodes.old.items nodes.new.items metaclass c) }
    ensures number { IfOk result (λ c. c.0 ≡ length nodes.old.items) }
    ensures refused { refusal result ≡ refused_single classes.old base.0 }
    ensures err { OnErr result (classes.new ≡ classes.old) }
    ensures no_node { OnErr result (nodes.new.items ≡ nodes.old.items) }
    ensures unlogged { OnErr result (log.new ≡ log.old) }
    ensures names { NamesNoClass result }
{
    if !classes.is_base(base) {
        return Err(ClassFault::Refused(Cause::NotBaseType));
    }
    let places = match empty_places(classes, alloc, metaclass) {
        Ok(places) => places,
        Err(_) => return Err(ClassFault::OutOfMemory),
    };
    match nodes.reserve(1) {
        Ok(()) => (),
        Err(_) => return Err(ClassFault::OutOfMemory),
    }
    let number = PyTypeRef(nodes.len() as u64);
    match log.new_single(classes, number, name, base, attrs, flags, brings, given) {
        Err(fault) => Err(fault),
        Ok(class) => {
            push_class_node(nodes, class, metaclass, places);
            Ok(class)
        }
    }
}

// Adds the node that stands for a class, for which a place is reserved.
fn push_class_node(
    nodes: &mut Vec<Node>,
    class: PyTypeRef,
    metaclass: PyTypeRef,
    members: PyMembers,
)
    requires { vec_len nodes.old < vec_capacity nodes.old }
    ensures { nodes.new.items ≡ nodes.old.items ++ class_node metaclass members class ∷ [] }
{
    nodes.push_reserved(Node {
        class: metaclass,
        dict: None,
        members,
        payload: Payload::Class(class),
    });
}
