//! Objects: what is read of one, how one is made, and how what it holds is changed.

ghost use Rattle.class_world.specs.Below.{is_some, Some, None, IfOk, OnOk, OnErr, IfSome, [], suc, length, vec_len, vec_capacity, false, with_node, next_node, datum_at, ref, has_dict as class_has_dict, the_dict, Dict, Property, TypeType, AProperty, with_datum};
ghost use Rattle.std.specs.Prelude.{◌≡◌, ◌<◌, ◌∷◌, ◌++◌};
ghost use Rattle.plain_machine.specs.World.{has_dict, class_at, number_of};
ghost use Rattle.class_world.specs.Reading.{Reading, Reads, datum, plain};
ghost use Rattle.class_world.specs.Sound.{IsNode, IsClass, IsOf, Holding, HasParams, GetsDict, Holds, AllHold, Grows, home_of, class_in, params_in, of_option, of_node, of_payload, of_property, is_lasting, with_payload};
ghost use Rattle.class_world.specs.Defined.{with_parts};
ghost use Rattle.class_world.specs.Added.{IsEmptyDict, with_object, number_of_object};

use crate::object_changes::put_parts;
use crate::places::empty_places;
use crate::world::World;
use py_node::{
    BuiltIn, Node, OutOfMemory, Payload, PyDict, PyMembers, PyObjectRef, PyProperty, PyTypeRef,
};

#[tactic(auto, unfolding(crate::specs::Reading::plain))]
impl World {
    /// What a node holds.
    pub fn payload(&self, node: PyObjectRef) -> &Payload
        requires { Holds self.now (IsNode node) }
        ensures reads { (t : Reading) → datum_at (plain t self.now) node ≡ Some (datum t result.now) }
        ensures holding { Holds self.now (Holding node (home_of result.now)) }
        ensures params { IfSome (params_in result.now) (λ ps. Holds self.now (HasParams node ps)) }
        ensures holds { AllHold self.now (of_payload result.now) }
    {
        &self.nodes[node.0 as usize].payload
    }

    /// The class of an object.
    pub fn class_of(&self, node: PyObjectRef) -> PyTypeRef
        requires { Holds self.now (IsNode node) }
        ensures reads { (t : Reading) → class_at (plain t self.now) node ≡ Some result.0 }
        ensures holds { Holds self.now (IsClass result.0) }
    {
        self.nodes[node.0 as usize].class
    }

    /// The class of a class, which is a metaclass.
    pub fn metaclass(&self, node: PyObjectRef) -> PyTypeRef
        requires node { Holds self.now (IsNode node) }
        requires holding { Holds self.now (Holding node TypeType) }
        ensures reads { (t : Reading) → class_at (plain t self.now) node ≡ Some result.0 }
        ensures holds { Holds self.now (IsClass result.0) }
        ensures of { Holds self.now (IsOf result.0 TypeType) }
    {
        self.nodes[node.0 as usize].class
    }

    /// The number that a node holds, if it holds one.
    pub fn number(&self, node: PyObjectRef) -> Option<i128>
        requires { Holds self.now (IsNode node) }
        ensures { (t : Reading) → number_of (datum_at (plain t self.now) node) ≡ result }
    {
        match self.payload(node) {
            Payload::Number(z) => Some(*z),
            _ => None,
        }
    }

    /// Makes a node that is no class, after its dict where its class gives it one. It holds what the
    /// objects of its class hold. Where memory runs out, there is neither.
    pub fn make_node(
        &mut self,
        class: PyTypeRef,
        payload: Payload,
    ) -> Result<PyObjectRef, OutOfMemory>
        requires class { Holds self.old (IsClass class.0) }
        requires of { Holds self.old (IsOf class.0 (home_of payload)) }
        requires payload { AllHold self.old (of_payload payload) }
        requires other { class_in payload ≡ None }
        ensures made { OnOk result ((t : Reading) → plain t self.new ≡
            with_node (plain t self.old) class.0 (datum t payload)) }
        ensures number { IfOk result (λ r. (t : Reading) → r ≡ next_node (plain t self.old) class.0) }
        ensures err { OnErr result (self.new ≡ self.old) }
        ensures reads { (t : Reading) → Reads t self.new → Reads t self.old }
        ensures grows { Grows self.old self.new }
        ensures node { IfOk result (λ r. Holds self.new (IsNode r)) }
        ensures holding { IfOk result (λ r. Holds self.new (Holding r (home_of payload))) }
        ensures classes { self.new.classes ≡ self.old.classes }
        ensures last { IfOk result (λ r. length self.new.nodes ≡ suc r.0) }
    {
        let dict = self.new_dict(class)?;
        let members = empty_places(&self.classes, self.alloc, class)?;
        add_object(&mut self.nodes, dict, class, members, payload)
    }

    // A new dict, where a class gives its objects one.
    fn new_dict(&self, class: PyTypeRef) -> Result<Option<Node>, OutOfMemory>
        requires { Holds self.now (IsClass class.0) }
        ensures gives { IfOk result (λ o. (t : Reading) → has_dict (plain t self.now) class.0 ≡ is_some o) }
        ensures given { IfOk result (λ o. class_has_dict self.now.classes class.0 ≡ is_some o) }
        ensures empty { IfOk result (λ o. IfSome o (λ d. IsEmptyDict self.now.classes d)) }
        ensures holds { IfOk result (λ o. AllHold self.now (of_option of_node o)) }
    {
        if self.has_dict(class) {
            let dict = self.empty_dict()?;
            Ok(Some(dict))
        } else {
            Ok(None)
        }
    }

    // A dict without entries.
    fn empty_dict(&self) -> Result<Node, OutOfMemory>
        ensures empty { IfOk result (λ d. IsEmptyDict self.now.classes d) }
        ensures holds { IfOk result (λ d. AllHold self.now (of_node d)) }
    {
        let class = self.class_of_dicts();
        let members = empty_places(&self.classes, self.alloc, class)?;
        Ok(Node {
            class,
            dict: None,
            members,
            payload: Payload::Dict(PyDict::new(self.alloc)),
        })
    }

    // The class of dicts.
    #[tactic(auto, unfolding(py_node::specs::BuiltIns::place_of))]
    fn class_of_dicts(&self) -> PyTypeRef
        ensures place { result.0 ≡ the_dict }
        ensures class { Holds self.now (IsClass result.0) }
        ensures of { Holds self.now (IsOf result.0 Dict) }
        ensures none { Holds self.now (GetsDict None result.0 false) }
    {
        let _classes = &self.classes;
        self.built_in(BuiltIn::Dict)
    }

    /// Gives an object other contents of the kind that it has. A class, a function, a number and a text keep theirs.
    pub fn set_payload(&mut self, node: PyObjectRef, payload: Payload)
        requires node { Holds self.old (IsNode node) }
        requires holding { Holds self.old (Holding node (home_of payload)) }
        requires kind { is_lasting (home_of payload) ≡ false }
        requires payload { AllHold self.old (of_payload payload) }
        ensures set { (t : Reading) → plain t self.new ≡ with_datum (plain t self.old) node (datum t payload) }
        ensures reads { (t : Reading) → Reads t self.new → Reads t self.old }
        ensures grows { Grows self.old self.new }
    {
        set_payload(&mut self.nodes[node.0 as usize], payload);
    }

    /// Gives a property other parts. It takes no memory.
    pub fn set_property(&mut self, node: PyObjectRef, parts: PyProperty)
        requires node { Holds self.old (IsNode node) }
        requires holding { Holds self.old (Holding node Property) }
        requires parts { AllHold self.old (of_property parts) }
        ensures set { (t : Reading) → plain t self.new ≡ with_datum (plain t self.old) node (AProperty parts) }
        ensures reads { (t : Reading) → Reads t self.new → Reads t self.old }
        ensures grows { Grows self.old self.new }
    {
        set_parts(&mut self.nodes[node.0 as usize], parts);
    }
}

// Adds an object, after the node that is its dict, if it has one. Where memory runs out, there is
// neither.
fn add_object(
    nodes: &mut Vec<Node>,
    dict: Option<Node>,
    class: PyTypeRef,
    members: PyMembers,
    payload: Payload,
) -> Result<PyObjectRef, OutOfMemory>
    ensures added { OnOk result (nodes.new.items ≡ with_object nodes.old.items dict class members payload) }
    ensures number { IfOk result (λ r. r ≡ number_of_object nodes.old.items dict) }
    ensures err { OnErr result (nodes.new.items ≡ nodes.old.items) }
{
    nodes.reserve(2)?;
    match dict {
        None => Ok(push(nodes, class, None, members, payload)),
        Some(dict) => {
            let number = nodes.len();
            nodes.push_reserved(dict);
            Ok(push(
                nodes,
                class,
                Some(PyObjectRef(number as u64)),
                members,
                payload,
            ))
        }
    }
}

// One more node, for which there is room.
fn push(
    nodes: &mut Vec<Node>,
    class: PyTypeRef,
    dict: Option<PyObjectRef>,
    members: PyMembers,
    payload: Payload,
) -> PyObjectRef
    requires { vec_len nodes.old < vec_capacity nodes.old }
    ensures pushed { nodes.new.items ≡ nodes.old.items ++
        record { class = class; dict = dict; members = members; payload = payload } ∷ [] }
    ensures number { result ≡ ref (length nodes.old.items) }
{
    let number = nodes.len();
    nodes.push_reserved(Node {
        class,
        dict,
        members,
        payload,
    });
    PyObjectRef(number as u64)
}

// Other contents of a node, which stays of its class and keeps its dict.
fn set_payload(node: &mut Node, payload: Payload)
    ensures { node.new ≡ with_payload node.old payload }
{
    node.payload = payload;
}

// Other parts of a property.
fn set_parts(node: &mut Node, parts: PyProperty)
    ensures { node.new ≡ with_payload node.old (with_parts parts node.old.payload) }
{
    put_parts(&mut node.payload, parts);
}
