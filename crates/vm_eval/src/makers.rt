//! Objects of native definitions that a host makes on a machine. Where memory runs out, only texts may have got numbers,
//! and the machine's mark is set.

ghost use Rattle.vm_eval.specs.Below.{fold, None, Some, IfOk, OnErr, OnOk, place_of, Cause as RefusalCause, refusal, refused_attr, NamesNoClass, AClassMethod, AStaticMethod, ABuiltinMethod, read_offset, set_offset, next_node, with_node, Reading, Reads, plain, spelled, spelled_option, AllHold, Grows, Holding, Holds, IsClass, IsName, IsNode, IsOffset, of_option, of_name_ref, definition_of, as_function, as_method, as_bound_method, with_method, as_member, member_of};
ghost use Rattle.std.specs.Prelude.{◌≡◌};
ghost use Rattle.py_node.specs.declared.built_in.BuiltIn.TheVariants as built_in;
ghost use Rattle.vm_eval.specs.Makers.{Makes};
ghost use Rattle.vm_eval.specs.State.{MarkedAs, MarkedBy};

use crate::machine::VirtualMachine;
use class_table::ClassFault;
use proto_attr::accessors::{PyClassMethod, PyMethodDescriptor, PyStaticMethod};
use proto_attr::native_defs::{PyMemberDef, PyMethodDef, extend_methods, new_member};
use py_node::{OutOfMemory, PyObjectRef, PyTypeRef};

impl VirtualMachine {
    /// A new native function of a definition, which isn't bound.
    pub fn build_function(&mut self, def: &PyMethodDef) -> Result<PyObjectRef, OutOfMemory>
        ensures made { Makes self.old.world self.new.world built_in.BuiltinFunctionOrMethod
            (as_function (definition_of def.now) None) result }
        ensures node { IfOk result (λ r. Holds self.new.world (IsNode r)) }
        ensures holding { IfOk result (λ r. Holds self.new.world (Holding r built_in.BuiltinFunctionOrMethod)) }
        ensures reads { (t : Reading) → Reads t self.new.world → Reads t self.old.world }
        ensures grows { Grows self.old.world self.new.world }
        ensures mark { MarkedBy self.old self.new result }
    {
        let made = def.build_function(&mut self.world);
        self.marked(made)
    }

    /// A new native function of a definition, bound to an object.
    pub fn build_bound_function(
        &mut self,
        def: &PyMethodDef,
        obj: PyObjectRef,
    ) -> Result<PyObjectRef, OutOfMemory>
        requires obj { Holds self.old.world (IsNode obj) }
        ensures made { Makes self.old.world self.new.world built_in.BuiltinFunctionOrMethod
            (as_function (definition_of def.now) (Some obj)) result }
        ensures node { IfOk result (λ r. Holds self.new.world (IsNode r)) }
        ensures holding { IfOk result (λ r. Holds self.new.world (Holding r built_in.BuiltinFunctionOrMethod)) }
        ensures reads { (t : Reading) → Reads t self.new.world → Reads t self.old.world }
        ensures grows { Grows self.old.world self.new.world }
        ensures mark { MarkedBy self.old self.new result }
    {
        let made = def.build_bound_function(&mut self.world, obj);
        self.marked(made)
    }

    /// A new method of a class, as a definition has it.
    pub fn build_method(
        &mut self,
        def: &PyMethodDef,
        class: PyTypeRef,
    ) -> Result<PyObjectRef, OutOfMemory>
        requires class { Holds self.old.world (IsClass class.0) }
        ensures made { Makes self.old.world self.new.world built_in.MethodDescriptor
            (as_method (definition_of def.now) class.0) result }
        ensures node { IfOk result (λ r. Holds self.new.world (IsNode r)) }
        ensures holding { IfOk result (λ r. Holds self.new.world (Holding r built_in.MethodDescriptor)) }
        ensures reads { (t : Reading) → Reads t self.new.world → Reads t self.old.world }
        ensures grows { Grows self.old.world self.new.world }
        ensures mark { MarkedBy self.old self.new result }
    {
        let made = def.build_method(&mut self.world, class);
        self.marked(made)
    }

    /// A new method of a class, bound to an object.
    pub fn build_bound_method(
        &mut self,
        def: &PyMethodDef,
        obj: PyObjectRef,
        class: PyTypeRef,
    ) -> Result<PyObjectRef, OutOfMemory>
        requires obj { Holds self.old.world (IsNode obj) }
        requires class { Holds self.old.world (IsClass class.0) }
        ensures made { Makes self.old.world self.new.world built_in.BuiltinMethod
            (as_bound_method (definition_of def.now) obj class.0) result }
        ensures node { IfOk result (λ r. Holds self.new.world (IsNode r)) }
        ensures holding { IfOk result (λ r. Holds self.new.world (Holding r built_in.BuiltinMethod)) }
        ensures reads { (t : Reading) → Reads t self.new.world → Reads t self.old.world }
        ensures grows { Grows self.old.world self.new.world }
        ensures mark { MarkedBy self.old self.new result }
    {
        let made = def.build_bound_method(&mut self.world, obj, class);
        self.marked(made)
    }

    /// A new method of a class, which is called with the class.
    pub fn build_classmethod(
        &mut self,
        def: &PyMethodDef,
        class: PyTypeRef,
    ) -> Result<PyObjectRef, OutOfMemory>
        requires class { Holds self.old.world (IsClass class.0) }
        ensures made { Makes self.old.world self.new.world built_in.MethodDescriptor
            (as_method (definition_of def.now) class.0) result }
        ensures node { IfOk result (λ r. Holds self.new.world (IsNode r)) }
        ensures holding { IfOk result (λ r. Holds self.new.world (Holding r built_in.MethodDescriptor)) }
        ensures reads { (t : Reading) → Reads t self.new.world → Reads t self.old.world }
        ensures grows { Grows self.old.world self.new.world }
        ensures mark { MarkedBy self.old self.new result }
    {
        let made = def.build_classmethod(&mut self.world, class);
        self.marked(made)
    }

    /// A new static method of a class: a native function that isn't bound.
    pub fn build_staticmethod(
        &mut self,
        def: &PyMethodDef,
        class: PyTypeRef,
    ) -> Result<PyObjectRef, OutOfMemory>
        ensures made { Makes self.old.world self.new.world built_in.BuiltinFunctionOrMethod
            (as_function (definition_of def.now) None) result }
        ensures node { IfOk result (λ r. Holds self.new.world (IsNode r)) }
        ensures holding { IfOk result (λ r. Holds self.new.world (Holding r built_in.BuiltinFunctionOrMethod)) }
        ensures reads { (t : Reading) → Reads t self.new.world → Reads t self.old.world }
        ensures grows { Grows self.old.world self.new.world }
        ensures mark { MarkedBy self.old self.new result }
    {
        let made = def.build_staticmethod(&mut self.world, class);
        self.marked(made)
    }

    /// A new member of a class. An offset in its definition must be that of a place of the class's objects.
    pub fn new_member(
        &mut self,
        class: PyTypeRef,
        member: PyMemberDef,
    ) -> Result<PyObjectRef, OutOfMemory>
        requires class { Holds self.old.world (IsClass class.0) }
        requires read { Holds self.old.world (IsOffset class.0 (read_offset member.getter)) }
        requires set { Holds self.old.world (IsOffset class.0 (set_offset member.setter)) }
        ensures made { Makes self.old.world self.new.world built_in.MemberDescriptor
            (as_member (member_of member) class.0) result }
        ensures node { IfOk result (λ r. Holds self.new.world (IsNode r)) }
        ensures holding { IfOk result (λ r. Holds self.new.world (Holding r built_in.MemberDescriptor)) }
        ensures reads { (t : Reading) → Reads t self.new.world → Reads t self.old.world }
        ensures grows { Grows self.old.world self.new.world }
        ensures mark { MarkedBy self.old self.new result }
    {
        let made = new_member(&mut self.world, class, member);
        self.marked(made)
    }

    /// A new object of `classmethod` for a callable.
    pub fn new_classmethod(&mut self, callable: PyObjectRef) -> Result<PyObjectRef, OutOfMemory>
        requires callable { Holds self.old.world (IsNode callable) }
        ensures made { Makes self.old.world self.new.world built_in.ClassMethod
            (AClassMethod callable) result }
        ensures node { IfOk result (λ r. Holds self.new.world (IsNode r)) }
        ensures holding { IfOk result (λ r. Holds self.new.world (Holding r built_in.ClassMethod)) }
        ensures reads { (t : Reading) → Reads t self.new.world → Reads t self.old.world }
        ensures grows { Grows self.old.world self.new.world }
        ensures mark { MarkedBy self.old self.new result }
    {
        let made = PyClassMethod::new_ref(&mut self.world, callable);
        self.marked(made)
    }

    /// A new object of `staticmethod` for a callable.
    pub fn new_staticmethod(&mut self, callable: PyObjectRef) -> Result<PyObjectRef, OutOfMemory>
        requires callable { Holds self.old.world (IsNode callable) }
        ensures made { Makes self.old.world self.new.world built_in.StaticMethod
            (AStaticMethod callable) result }
        ensures node { IfOk result (λ r. Holds self.new.world (IsNode r)) }
        ensures holding { IfOk result (λ r. Holds self.new.world (Holding r built_in.StaticMethod)) }
        ensures reads { (t : Reading) → Reads t self.new.world → Reads t self.old.world }
        ensures grows { Grows self.old.world self.new.world }
        ensures mark { MarkedBy self.old self.new result }
    {
        let made = PyStaticMethod::new_ref(&mut self.world, callable);
        self.marked(made)
    }

    /// What a method of a class is, as a definition has it; no object is made. Where memory runs out, only texts may
    /// have got numbers.
    pub fn new_method_descriptor(
        &mut self,
        def: &PyMethodDef,
        class: PyTypeRef,
    ) -> Result<PyMethodDescriptor, OutOfMemory>
        ensures class { IfOk result (λ d. d.common.typ ≡ class) }
        ensures name { IfOk result (λ d. (t : Reading) → Reads t self.new.world →
            spelled t d.common.name ≡ (definition_of def.now).name) }
        ensures doc { IfOk result (λ d. (t : Reading) → Reads t self.new.world →
            spelled_option t d.doc ≡ (definition_of def.now).doc) }
        ensures qualname { IfOk result (λ d. d.common.qualname ≡ None) }
        ensures entry { IfOk result (λ d. d.entry ≡ def.now.func) }
        ensures flags { IfOk result (λ d. d.flags ≡ def.now.flags) }
        ensures holds { IfOk result (λ d. Holds self.new.world (IsName d.common.name)) }
        ensures doc_holds { IfOk result (λ d. AllHold self.new.world (of_option of_name_ref d.doc)) }
        ensures same { (t : Reading) → plain t self.new.world ≡ plain t self.old.world }
        ensures reads { (t : Reading) → Reads t self.new.world → Reads t self.old.world }
        ensures grows { Grows self.old.world self.new.world }
        ensures mark { MarkedBy self.old self.new result }
    {
        let made = PyMethodDescriptor::new(&mut self.world, def, class);
        self.marked(made)
    }

    /// A new method of a class that is bound to an object.
    pub fn bind_method(
        &mut self,
        method: PyMethodDescriptor,
        obj: PyObjectRef,
    ) -> Result<PyObjectRef, OutOfMemory>
        requires obj { Holds self.old.world (IsNode obj) }
        requires class { Holds self.old.world (IsClass method.common.typ.0) }
        requires name { Holds self.old.world (IsName method.common.name) }
        requires doc { AllHold self.old.world (of_option of_name_ref method.doc) }
        ensures made { OnOk result ((t : Reading) → plain t self.new.world ≡
            with_node (plain t self.old.world) (place_of built_in.BuiltinMethod) (ABuiltinMethod
            (spelled t method.common.name) method.entry obj method.common.typ.0 (spelled_option t method.doc))) }
        ensures number { IfOk result (λ r. (t : Reading) → r ≡
            next_node (plain t self.old.world) (place_of built_in.BuiltinMethod)) }
        ensures err { OnErr result (self.new.world ≡ self.old.world) }
        ensures node { IfOk result (λ r. Holds self.new.world (IsNode r)) }
        ensures holding { IfOk result (λ r. Holds self.new.world (Holding r built_in.BuiltinMethod)) }
        ensures reads { (t : Reading) → Reads t self.new.world → Reads t self.old.world }
        ensures grows { Grows self.old.world self.new.world }
        ensures mark { MarkedBy self.old self.new result }
    {
        let made = method.bind(&mut self.world, obj);
        self.marked(made)
    }

    /// Gives a class own attributes, in order: a new object of each definition, under its name. The class must be made by
    /// a script. Where memory runs out, the first of them may be there.
    pub fn extend_methods(
        &mut self,
        class: PyTypeRef,
        methods: &[PyMethodDef],
    ) -> Result<(), ClassFault>
        requires { Holds self.old.world (IsClass class.0) }
        ensures refused { (t : Reading) → refusal result ≡ refused_attr (plain t self.old.world).classes class.0 }
        ensures set { OnOk result ((t : Reading) → Reads t self.new.world → plain t self.new.world ≡
            fold (with_method class.0) (plain t self.old.world) methods.now) }
        ensures reads { (t : Reading) → Reads t self.new.world → Reads t self.old.world }
        ensures grows { Grows self.old.world self.new.world }
        ensures mark { MarkedAs self.old self.new result }
        ensures names { NamesNoClass result }
        ensures same { (cause : RefusalCause) → refusal result ≡ Some cause → self.new.world ≡ self.old.world }
    {
        let set = extend_methods(&mut self.world, class, methods);
        self.marked_as(set)
    }
}
