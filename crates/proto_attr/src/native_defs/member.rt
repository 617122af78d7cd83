//! The definition of a member, and the object that is made of it.

ghost use Rattle.proto_attr.specs.Below.{IfOk, OnOk, OnErr, option_copied, place_of, read_offset, set_offset, with_node, next_node, Reading, Reads, datum, plain, spelled, spelled_option, IsNode, IsClass, IsName, IsOffset, Holding, Holds, AllHold, Grows, home_of, class_in, of_payload, of_option, of_name_ref};
ghost use Rattle.std.specs.Prelude.{◌≡◌};
ghost use Rattle.py_node.specs.declared.built_in.BuiltIn.TheVariants as built_in;
ghost use Rattle.proto_attr.specs.NativeDefs.Members.{as_member, member, member_of};

use class_world::World;
use py_node::{
    BuiltIn, MemberDescriptor, MemberGetter, MemberKind, MemberSetter, OutOfMemory, Payload,
    PyObjectRef, PyStrInterned, PyTypeRef,
};
use std::alloc::Global;

/// The definition of a member: its name, its kind, what reads and sets it, and its text for readers, if it has one.
#[derive(Drop)]
pub struct PyMemberDef {
    pub name: String,
    pub kind: MemberKind,
    pub getter: MemberGetter,
    pub setter: MemberSetter,
    pub doc: Option<String>,
}

impl PyMemberDef {
    /// A definition of these parts, unless memory runs out.
    pub fn new_const(
        alloc: Global,
        name: &str,
        kind: MemberKind,
        getter: MemberGetter,
        setter: MemberSetter,
        doc: Option<&str>,
    ) -> Result<PyMemberDef, OutOfMemory>
        ensures { IfOk result (λ d. member_of d ≡ member name.now kind getter setter (option_copied doc.entry)) }
    {
        let name = String::from_str(alloc, name)?;
        let doc = match doc {
            None => None,
            Some(text) => Some(String::from_str(alloc, text)?),
        };
        Ok(PyMemberDef {
            name,
            kind,
            getter,
            setter,
            doc,
        })
    }

    // The numbers of its texts.
    fn names(
        &self,
        world: &mut World,
    ) -> Result<(PyStrInterned, Option<PyStrInterned>), OutOfMemory>
        ensures name { IfOk result (λ x. (t : Reading) → Reads t world.new →
            spelled t x.0 ≡ (member_of self.now).name) }
        ensures doc { IfOk result (λ x. (t : Reading) → Reads t world.new →
            spelled_option t x.1 ≡ (member_of self.now).doc) }
        ensures holds { IfOk result (λ x. Holds world.new (IsName x.0)) }
        ensures doc_holds { IfOk result (λ x. AllHold world.new (of_option of_name_ref x.1)) }
        ensures same { (t : Reading) → plain t world.new ≡ plain t world.old }
        ensures reads { (t : Reading) → Reads t world.new → Reads t world.old }
        ensures grows { Grows world.old world.new }
    {
        let name = world.intern(self.name.as_str())?;
        match &self.doc {
            None => Ok((name, None)),
            Some(doc) => {
                let doc = world.intern(doc.as_str())?;
                Ok((name, Some(doc)))
            }
        }
    }

    // As a member of a class, whose qualified name wasn't asked for.
    fn to_member(&self, world: &mut World, class: PyTypeRef) -> Result<Payload, OutOfMemory>
        requires class { Holds world.old (IsClass class.0) }
        requires read { Holds world.old (IsOffset class.0 (read_offset self.now.getter)) }
        requires set { Holds world.old (IsOffset class.0 (set_offset self.now.setter)) }
        ensures reading { IfOk result (λ p. (t : Reading) → Reads t world.new →
            datum t p ≡ as_member (member_of self.now) class.0) }
        ensures holds { IfOk result (λ p. AllHold world.new (of_payload p)) }
        ensures home { IfOk result (λ p. home_of p ≡ built_in.MemberDescriptor) }
        ensures other { IfOk result (λ p. class_in p ≡ None) }
        ensures same { (t : Reading) → plain t world.new ≡ plain t world.old }
        ensures reads { (t : Reading) → Reads t world.new → Reads t world.old }
        ensures grows { Grows world.old world.new }
    {
        let (name, doc) = self.names(world)?;
        let member = MemberDescriptor {
            class,
            name,
            kind: self.kind,
            getter: self.getter,
            setter: self.setter,
            qualname: None,
            doc,
        };
        let boxed = Box::new(world.alloc(), member)?;
        Ok(Payload::Member(boxed))
    }
}

/// A new member of a class. An offset in its definition must be that of a place of the class's objects.
pub fn new_member(
    world: &mut World,
    class: PyTypeRef,
    def: PyMemberDef,
) -> Result<PyObjectRef, OutOfMemory>
    requires class { Holds world.old (IsClass class.0) }
    requires read { Holds world.old (IsOffset class.0 (read_offset def.getter)) }
    requires set { Holds world.old (IsOffset class.0 (set_offset def.setter)) }
    ensures made { OnOk result ((t : Reading) → Reads t world.new → plain t world.new ≡
        with_node (plain t world.old) (place_of built_in.MemberDescriptor) (as_member (member_of def) class.0)) }
    ensures number { IfOk result (λ r. (t : Reading) → r ≡
        next_node (plain t world.old) (place_of built_in.MemberDescriptor)) }
    ensures same { OnErr result ((t : Reading) → plain t world.new ≡ plain t world.old) }
    ensures reads { (t : Reading) → Reads t world.new → Reads t world.old }
    ensures grows { Grows world.old world.new }
    ensures node { IfOk result (λ r. Holds world.new (IsNode r)) }
    ensures holding { IfOk result (λ r. Holds world.new (Holding r built_in.MemberDescriptor)) }
{
    let payload = def.to_member(world, class)?;
    let home = world.built_in(BuiltIn::MemberDescriptor);
    world.make_node(home, payload)
}
