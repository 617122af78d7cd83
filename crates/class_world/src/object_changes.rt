//! What changes of an object that is there: its class, its dict, the class that defines a function, and the parts of a
//! property.

ghost use Rattle.class_world.specs.Below.{true, is_some, option_and_then, OnOk, OnErr, Dict, refused_class, cause_of, SetClass, SetDict, apply, dict_of, with_definer};
ghost use Rattle.std.specs.Prelude.{◌≡◌, ◌<◌};
ghost use Rattle.plain_machine.specs.World.{class_at};
ghost use Rattle.class_world.specs.Reading.{Reading, Reads, plain};
ghost use Rattle.class_world.specs.Sound.{IsNode, IsClass, Holding, Holds, Grows, with_class_ref, with_dict_ref};
ghost use Rattle.class_world.specs.Defined.{defined_function, defined_payload, defined_node, with_parts};

use crate::world::World;
use py_node::{Cause, Function, Node, Payload, PyObjectRef, PyProperty, PyTypeRef};

#[tactic(auto, unfolding(crate::specs::Reading::plain))]
impl World {
    /// Gives an object another class. Scripts must have made both classes, their solid classes must be the same, and both must
    /// give their objects a dict or neither; where
    /// it is refused, the world stays as it was.
    pub fn set_class(&mut self, object: PyObjectRef, class: PyTypeRef) -> Result<(), Cause>
        requires object { Holds self.old (IsNode object) }
        requires class { Holds self.old (IsClass class.0) }
        ensures refused { (t : Reading) → cause_of result ≡
            option_and_then (λ c. refused_class (plain t self.old).classes c class.0) (class_at (plain t self.old) object) }
        ensures set { OnOk result ((t : Reading) →
            plain t self.new ≡ apply (plain t self.old) (SetClass object class.0)) }
        ensures err { OnErr result (self.new ≡ self.old) }
        ensures reads { (t : Reading) → Reads t self.new → Reads t self.old }
        ensures grows { Grows self.old self.new }
    {
        self.classes.sound();
        let old = self.nodes[object.0 as usize].class;
        match self.classes.may_become(old, class) {
            Ok(()) => {
                set_class(&mut self.nodes[object.0 as usize], class);
                Ok(())
            }
            Err(cause) => Err(cause),
        }
    }

    /// Gives an object that has a dict another one.
    pub fn set_dict(&mut self, object: PyObjectRef, dict: PyObjectRef)
        requires object { Holds self.old (IsNode object) }
        requires had { (t : Reading) → is_some (dict_of (plain t self.old) object) ≡ true }
        requires dict { Holds self.old (IsNode dict) }
        requires holding { Holds self.old (Holding dict Dict) }
        ensures set { (t : Reading) → plain t self.new ≡ apply (plain t self.old) (SetDict object dict) }
        ensures reads { (t : Reading) → Reads t self.new → Reads t self.old }
        ensures grows { Grows self.old self.new }
    {
        self.readable();
        set_dict(&mut self.nodes[object.0 as usize], dict);
    }

    /// A function that no class defines yet is defined by this one. What is no function stays.
    pub fn set_definer(&mut self, class: PyTypeRef, func: PyObjectRef)
        requires class { Holds self.old (IsClass class.0) }
        requires func { Holds self.old (IsNode func) }
        ensures set { (t : Reading) → plain t self.new ≡ with_definer (plain t self.old) class.0 func }
        ensures reads { (t : Reading) → Reads t self.new → Reads t self.old }
        ensures grows { Grows self.old self.new }
    {
        define(&mut self.nodes[func.0 as usize], class);
    }
}

// Another class of a node.
fn set_class(node: &mut Node, class: PyTypeRef)
    ensures { node.new ≡ with_class_ref node.old class }
{
    node.class = class;
}

// Another dict of a node.
fn set_dict(node: &mut Node, dict: PyObjectRef)
    ensures { node.new ≡ with_dict_ref node.old dict }
{
    node.dict = Some(dict);
}

// The node's class and dict stay.
fn define(node: &mut Node, class: PyTypeRef)
    ensures { node.new ≡ defined_node class node.old }
{
    define_payload(&mut node.payload, class);
}

// What is no function stays.
fn define_payload(payload: &mut Payload, class: PyTypeRef)
    ensures { payload.new ≡ defined_payload class payload.old }
{
    match payload {
        Payload::Function(function) => define_function(function.as_mut(), class),
        _ => (),
    }
}

// A function that no class defines yet is defined by this one.
fn define_function(function: &mut Function, class: PyTypeRef)
    ensures { function.new ≡ defined_function class function.old }
{
    if function.class.is_none() {
        function.class = Some(class);
    }
}

/// A property gets other parts. What is no property stays.
pub(crate) fn put_parts(payload: &mut Payload, parts: PyProperty)
    ensures { payload.new ≡ with_parts parts payload.old }
{
    match payload {
        Payload::Property(own) => *own.as_mut() = parts,
        _ => (),
    }
}
