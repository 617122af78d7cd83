//! The flags of classes and of native methods.

ghost use Rattle.py_node.specs.Below.{⊤, [], codes, bit_and};
ghost use Rattle.std.specs.Prelude.{◌+◌, ◌≡◌, ◌==◌, ◌∷◌};
ghost use Rattle.py_node.specs.BuiltIns.{heap_type, base_type, heap_flags};

use bitflags::{Flag, Flags, bitflag_items};

/// What a class is and may do.
#[derive(Clone, Copy, PartialEq, Eq, Debug)]
pub struct PyTypeFlags(pub u64);

bitflag_items! {
    impl PyTypeFlags: u64 {
        const IMMUTABLETYPE = 1 << 8;
        const HEAPTYPE = 1 << 9;
        const BASETYPE = 1 << 10;
        const METHOD_DESCRIPTOR = 1 << 17;
        const HAS_DICT = 1 << 40;
    }
}

impl Flags for PyTypeFlags {
    type Bits = u64;

    ghost exact = { ⊤ };

    ghost table = { (codes "IMMUTABLETYPE", 256) ∷ (codes "HEAPTYPE", 512) ∷ (codes "BASETYPE", 1024) ∷ (codes "METHOD_DESCRIPTOR", 131072) ∷ (codes "HAS_DICT", 1099511627776) ∷ [] };

    ghost set_of = { λ f. f.0 };

    fn flags<'a>() -> &'a [Flag<PyTypeFlags>] {
        PyTypeFlags::FLAGS
    }

    fn bits(&self) -> u64 {
        self.0
    }

    fn from_bits_retain(bits: u64) -> PyTypeFlags {
        PyTypeFlags(bits)
    }
}

impl PyTypeFlags {
    /// The flags of a class for which none are given: none.
    pub const DEFAULT: PyTypeFlags = PyTypeFlags(0);

    /// The flags of a class on the heap that may have subclasses.
    pub fn heap_type_flags() -> PyTypeFlags
        ensures { result.0 ≡ heap_type + base_type }
    {
        PyTypeFlags::HEAPTYPE.union(PyTypeFlags::BASETYPE)
    }

    /// The flags of a class that a script makes: it is on the heap and may have subclasses, and gives its objects a dict
    /// or not.
    pub fn of_script_class(dict: bool) -> PyTypeFlags
        ensures { result.0 ≡ heap_flags dict }
    {
        let flags = PyTypeFlags::heap_type_flags();
        if dict {
            flags.union(PyTypeFlags::HAS_DICT)
        } else {
            flags
        }
    }

    /// Whether all flags of `flag` are among these.
    pub fn has_feature(self, flag: PyTypeFlags) -> bool
        ensures { result ≡ (bit_and self.0 flag.0 == flag.0) }
    {
        self.contains(flag)
    }
}

impl Default for PyTypeFlags {
    fn default() -> PyTypeFlags
        ensures { result.0 ≡ 0 }
    {
        PyTypeFlags::DEFAULT
    }
}

/// How a native method is bound.
#[derive(Clone, Copy, PartialEq, Eq, Debug)]
pub struct PyMethodFlags(pub u64);

bitflag_items! {
    impl PyMethodFlags: u64 {
        const CLASS = 0x10;
        const STATIC = 0x20;
        const METHOD = 0x200;
    }
}

impl Flags for PyMethodFlags {
    type Bits = u64;

    ghost exact = { ⊤ };

    ghost table = { (codes "CLASS", 16) ∷ (codes "STATIC", 32) ∷ (codes "METHOD", 512) ∷ [] };

    ghost set_of = { λ f. f.0 };

    fn flags<'a>() -> &'a [Flag<PyMethodFlags>] {
        PyMethodFlags::FLAGS
    }

    fn bits(&self) -> u64 {
        self.0
    }

    fn from_bits_retain(bits: u64) -> PyMethodFlags {
        PyMethodFlags(bits)
    }
}

impl PyMethodFlags {
    /// No flags.
    pub const EMPTY: PyMethodFlags = PyMethodFlags(0);
}
