//! What every world has: the built-in classes, None, NotImplemented, False and True.

ghost use Rattle.std.specs.Prelude.{◌≡◌};
ghost use Rattle.class_world.specs.Below.{truth, holds_as, place_of};
ghost use Rattle.class_world.specs.Fixed.{number_of_fixed};
ghost use Rattle.class_world.specs.Sound.{IsNode, IsClass, IsOf, Holds};

use crate::world::World;
use py_node::{BuiltIn, PyObjectRef, PyTypeRef};

/// The number of None.
pub const NONE: u64 = 23;

/// The number of NotImplemented.
pub const NOT_IMPLEMENTED: u64 = 24;

/// The number of False.
pub const FALSE: u64 = 25;

/// The number of True.
pub const TRUE: u64 = 26;

/// An object that every world has.
#[derive(Clone, Copy, PartialEq, Eq, Debug)]
pub enum Fixed {
    None,
    NotImplemented,
    False,
    True,
}

impl Fixed {
    /// The object's node.
    pub fn node(self) -> PyObjectRef
        ensures { result.0 ≡ number_of_fixed self }
    {
        match self {
            Fixed::None => PyObjectRef(NONE),
            Fixed::NotImplemented => PyObjectRef(NOT_IMPLEMENTED),
            Fixed::False => PyObjectRef(FALSE),
            Fixed::True => PyObjectRef(TRUE),
        }
    }
}

#[tactic(auto, unfolding(crate::specs::Reading::plain))]
impl World {
    /// A fixed object.
    pub fn fixed(&self, object: Fixed) -> PyObjectRef
        ensures number { result.0 ≡ number_of_fixed object }
        ensures node { Holds self.now (IsNode result) }
    {
        let _nodes = &self.nodes;
        object.node()
    }

    /// True or False, as an object.
    pub fn truth(&self, value: bool) -> PyObjectRef
        ensures object { result ≡ truth value }
        ensures node { Holds self.now (IsNode result) }
    {
        self.fixed(if value { Fixed::True } else { Fixed::False })
    }

    /// A built-in class.
    pub fn built_in(&self, class: BuiltIn) -> PyTypeRef
        ensures place { result.0 ≡ place_of class }
        ensures class { Holds self.now (IsClass result.0) }
        ensures of { Holds self.now (IsOf result.0 (holds_as class)) }
    {
        let _classes = &self.classes;
        class.class()
    }

    /// The object that stands for a built-in class.
    pub fn built_in_node(&self, class: BuiltIn) -> PyObjectRef
        ensures place { result.0 ≡ place_of class }
        ensures node { Holds self.now (IsNode result) }
    {
        let _nodes = &self.nodes;
        PyObjectRef(class.class().0)
    }
}
