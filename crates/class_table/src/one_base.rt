//! Classes with one base and no members: simple ones as scripts make them, and static ones, which scripts can't change.

ghost use Rattle.class_table.specs.Below.{[], true, OnOk, OnErr, IfOk, Some, None, class_at, is_class, limit, with_class, says_dict, has_dict, heap_class};
ghost use Rattle.std.specs.Prelude.{◌≡◌, ◌≤◌, ◌||◌, ◌∷◌};
ghost use Rattle.class_table.specs.New.{class_of_new};
ghost use Rattle.class_table.specs.Keys.{table_keys};
ghost use Rattle.class_table.specs.Refused.{refusal, is_base_at, NamesNoClass};
ghost use Rattle.class_table.specs.OneBase.{refused_single, single_class, says_so, static_flags};

use crate::fault::ClassFault;
use crate::stored::NewClass;
use crate::table::ClassTable;
use py_node::{Cause, OutOfMemory, PyAttributes, PyTypeFlags, PyTypeRef};
use std::alloc::Global;

// A class with one base, named by a text.
fn single_parts(
    alloc: Global,
    number: PyTypeRef,
    name: &str,
    base: PyTypeRef,
    attrs: PyAttributes,
    flags: PyTypeFlags,
    brings: bool,
) -> Result<NewClass, OutOfMemory>
    ensures class { IfOk result (λ n.
        class_of_new n ≡ single_class name.now number.0 base.0 attrs flags.0 brings) }
    ensures number { IfOk result (λ n. n.number ≡ number) }
    ensures bases { IfOk result (λ n. n.bases.items ≡ base ∷ []) }
{
    let name = String::from_str(alloc, name)?;
    let mut bases = Vec::new(alloc);
    bases.push(base)?;
    Ok(NewClass {
        name,
        number,
        bases,
        attrs,
        members: Vec::new(alloc),
        flags,
        brings,
    })
}

/// The flags of a static class that is given some, with a base that gives its objects a dict or not: no script makes it,
/// and it gives its objects a dict where its base does.
pub fn flags_of_static(flags: PyTypeFlags, dict: bool) -> PyTypeFlags
    ensures { result.0 ≡ static_flags flags.0 dict }
{
    let flags = flags.0 & !PyTypeFlags::HEAPTYPE.0;
    if dict {
        PyTypeFlags(flags | PyTypeFlags::HAS_DICT.0)
    } else {
        PyTypeFlags(flags)
    }
}

impl ClassTable {
    /// Whether a class may have subclasses.
    pub fn is_base(&self, class: PyTypeRef) -> bool
        requires { is_class self.now class.0 ≡ true }
        ensures { result ≡ is_base_at (class_at self.now class.0) }
    {
        self.flags(class).has_feature(PyTypeFlags::BASETYPE)
    }

    /// A class with one base and these flags, unless the base may have no subclasses. The flags say that it gives its
    /// objects a dict exactly where it brings one or its base gives one. Where it is refused or memory runs out, the table
    /// stays as it was.
    pub fn new_single(
        &mut self,
        number: PyTypeRef,
        name: &str,
        base: PyTypeRef,
        attrs: PyAttributes,
        flags: PyTypeFlags,
        brings: bool,
    ) -> Result<PyTypeRef, ClassFault>
        requires base { is_class self.old base.0 ≡ true }
        requires fresh { limit self.old ≤ number.0 }
        requires dict { says_so flags.0 ≡ (brings || has_dict self.old base.0) }
        ensures number { IfOk result (λ c. c ≡ number) }
        ensures added { OnOk result (self.new ≡
            with_class self.old (single_class name.now number.0 base.0 attrs flags.0 brings)) }
        ensures refused { refusal result ≡ refused_single self.old base.0 }
        ensures err { OnErr result (self.new ≡ self.old) }
        ensures names { NamesNoClass result }
    {
        if !self.is_base(base) {
            return Err(ClassFault::Refused(Cause::NotBaseType));
        }
        match single_parts(self.alloc(), number, name, base, attrs, flags, brings) {
            Err(_) => Err(ClassFault::OutOfMemory),
            Ok(new) => match self.add_class(new) {
                Err(_) => Err(ClassFault::OutOfMemory),
                Ok(class) => Ok(class),
            },
        }
    }

    /// A class as a script makes it, with one base and no attributes. It is refused where the base may have no subclasses;
    /// then, and where memory runs out, the table stays as it was.
    pub fn new_simple_heap(
        &mut self,
        number: PyTypeRef,
        name: &str,
        base: PyTypeRef,
    ) -> Result<PyTypeRef, ClassFault>
        requires base { is_class self.old base.0 ≡ true }
        requires fresh { limit self.old ≤ number.0 }
        ensures number { IfOk result (λ c. c ≡ number) }
        ensures added { OnOk result (self.new ≡ with_class self.old
            (heap_class table_keys self.old name.now number.0 (base.0 ∷ []) [] None)) }
        ensures refused { refusal result ≡ refused_single self.old base.0 }
        ensures err { OnErr result (self.new ≡ self.old) }
        ensures names { NamesNoClass result }
    {
        let attrs = PyAttributes::new(self.alloc());
        let flags = PyTypeFlags::of_script_class(true);
        self.new_single(number, name, base, attrs, flags, true)
    }

    /// A static class, which scripts can't change: with one base and attributes, and with the flags but for what the base
    /// settles. It brings its objects a dict where these flags say so, and has no natives of its own. It is refused where
    /// the base may have no subclasses; then, and where memory runs out, the table stays as it was.
    pub fn new_static(
        &mut self,
        number: PyTypeRef,
        name: &str,
        base: PyTypeRef,
        attrs: PyAttributes,
        flags: PyTypeFlags,
    ) -> Result<PyTypeRef, ClassFault>
        requires base { is_class self.old base.0 ≡ true }
        requires fresh { limit self.old ≤ number.0 }
        ensures number { IfOk result (λ c. c ≡ number) }
        ensures added { OnOk result (self.new ≡ with_class self.old (single_class name.now number.0 base.0 attrs
            (static_flags flags.0 (has_dict self.old base.0)) (says_so flags.0))) }
        ensures refused { refusal result ≡ refused_single self.old base.0 }
        ensures err { OnErr result (self.new ≡ self.old) }
        ensures names { NamesNoClass result }
    {
        let brings = flags.has_feature(PyTypeFlags::HAS_DICT);
        let flags = flags_of_static(flags, self.has_dict(base));
        self.new_single(number, name, base, attrs, flags, brings)
    }
}
