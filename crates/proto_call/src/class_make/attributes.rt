//! The attributes of a class to be, and what its creation adds to them.

ghost use Rattle.proto_call.specs.Below.{None, not, is_some, IfOk, IfSome, value_of, is_same_name, known_text, numbers, slot_texts, class_at, Reading, Reads, bindings, datum, plain, IsNode, IsName, IsClass, IsOf, home_of, class_in, Holds, AllHold, Grows, of_binding, of_each, of_payload, the_function};
ghost use Rattle.std.specs.Prelude.{◌≡◌, ◌&&◌};
ghost use Rattle.proto_call.specs.ClassMake.Say.{has_name, is_class, put, give, wrap_value, wrap, qualify, unhash, give_dict, completed, dicted};
ghost use Rattle.proto_call.specs.ClassMake.Rows.{Becomes};

use class_world::{Fixed, World};
use py_node::{
    Boxed, BuiltIn, GetSet, Known, NativeEntry, OutOfMemory, Payload, Property, PyAttributes,
    PyObjectRef, PyStrInterned, PyTypeRef,
};

/// The attributes of a class of this name: class methods where its hooks are functions, a qualified name, and no hash
/// where it compares its objects itself.
pub(crate) fn completed(
    world: &mut World,
    name: &str,
    attrs: PyAttributes,
) -> Result<PyAttributes, OutOfMemory>
    requires { AllHold world.old (of_each of_binding attrs) }
    ensures becomes { IfOk result (λ a. Becomes (λ t. completed name.now) world.old attrs world.new a) }
    ensures holds { IfOk result (λ a. AllHold world.new (of_each of_binding a)) }
    ensures reads { (t : Reading) → Reads t world.new → Reads t world.old }
    ensures grows { Grows world.old world.new }
{
    let told = wrap(world, Known::InitSubclass, attrs)?;
    let wrapped = wrap(world, Known::ClassGetitem, told)?;
    let qualified = qualify(world, name, wrapped)?;
    let unhashed = unhash(world, qualified)?;
    Ok(unhashed)
}

// A function under a name becomes a class method of it.
fn wrap(world: &mut World, name: Known, attrs: PyAttributes) -> Result<PyAttributes, OutOfMemory>
    requires { AllHold world.old (of_each of_binding attrs) }
    ensures becomes { IfOk result (λ a. Becomes (λ t. wrap (known_text name)) world.old attrs world.new a) }
    ensures holds { IfOk result (λ a. AllHold world.new (of_each of_binding a)) }
    ensures reads { (t : Reading) → Reads t world.new → Reads t world.old }
    ensures grows { Grows world.old world.new }
{
    let key = world.known(name);
    let value = attrs.get(key);
    let more = wrap_value(world, key, value, attrs)?;
    Ok(more)
}

// The same, with the value of the name.
#[tactic(auto, unfolding(crate::specs::ClassMake::Say::wrap_value))]
fn wrap_value(
    world: &mut World,
    name: PyStrInterned,
    value: Option<PyObjectRef>,
    attrs: PyAttributes,
) -> Result<PyAttributes, OutOfMemory>
    requires name { Holds world.old (IsName name) }
    requires value { IfSome value (λ r. Holds world.old (IsNode r)) }
    requires attrs { AllHold world.old (of_each of_binding attrs) }
    ensures becomes { IfOk result (λ a.
        Becomes (λ t s. wrap_value s (t.text name.0) value) world.old attrs world.new a) }
    ensures holds { IfOk result (λ a. AllHold world.new (of_each of_binding a)) }
    ensures reads { (t : Reading) → Reads t world.new → Reads t world.old }
    ensures grows { Grows world.old world.new }
{
    match value {
        None => Ok(attrs),
        Some(value) => {
            if !is_function(world, value) {
                return Ok(attrs);
            }
            let class = world.built_in(BuiltIn::ClassMethod);
            let more = put(world, name, class, Payload::ClassMethod(value), attrs)?;
            Ok(more)
        }
    }
}

// Whether an object is a function of a script.
#[tactic(auto, unfolding(py_node::specs::BuiltIns::place_of))]
fn is_function(world: &World, node: PyObjectRef) -> bool
    requires { Holds world.now (IsNode node) }
    ensures { (t : Reading) → is_class (class_at (plain t world.now) node) the_function ≡ result }
{
    let class = world.class_of(node);
    let function = world.built_in(BuiltIn::Function);
    class.0 == function.0
}

// The qualified name is the name, where none is given.
fn qualify(world: &mut World, name: &str, attrs: PyAttributes) -> Result<PyAttributes, OutOfMemory>
    requires { AllHold world.old (of_each of_binding attrs) }
    ensures becomes { IfOk result (λ a. Becomes (λ t. qualify name.now) world.old attrs world.new a) }
    ensures holds { IfOk result (λ a. AllHold world.new (of_each of_binding a)) }
    ensures reads { (t : Reading) → Reads t world.new → Reads t world.old }
    ensures grows { Grows world.old world.new }
{
    let alloc = world.alloc();
    let qualname = world.known(Known::Qualname);
    let text = String::from_str(alloc, name)?;
    let class = world.built_in(BuiltIn::Str);
    let more = give(world, qualname, class, Payload::Text(text), attrs)?;
    Ok(more)
}

// Objects that are compared by a method of their own have no hash, unless one is given.
fn unhash(world: &World, attrs: PyAttributes) -> Result<PyAttributes, OutOfMemory>
    requires { AllHold world.now (of_each of_binding attrs) }
    ensures becomes { IfOk result (λ a. Becomes (λ t. unhash) world.now attrs world.now a) }
    ensures holds { IfOk result (λ a. AllHold world.now (of_each of_binding a)) }
{
    let hash = world.known(Known::Hash);
    if !is_unhashed(&attrs, world.known(Known::Eq), hash) {
        return Ok(attrs);
    }
    let none = world.fixed(Fixed::None);
    let mut attrs = attrs;
    attrs.insert(hash, none)?;
    Ok(attrs)
}

// Whether one of two names is there without the other.
fn is_unhashed(attrs: &PyAttributes, eq: PyStrInterned, hash: PyStrInterned) -> bool
    ensures { result ≡ is_some (value_of (λ k. is_same_name k eq) attrs.now) &&
        not (is_some (value_of (λ k. is_same_name k hash) attrs.now)) }
{
    attrs.contains(eq) && !attrs.contains(hash)
}

/// The attributes with the one that reads and sets an object's dict, where a class with these bases and these `__slots__`,
/// or with none, gives its objects one.
pub(crate) fn dicted(
    world: &mut World,
    bases: &[PyTypeRef],
    slots: &Option<Vec<PyStrInterned>>,
    attrs: PyAttributes,
) -> Result<PyAttributes, OutOfMemory>
    requires { AllHold world.old (of_each of_binding attrs) }
    ensures becomes { IfOk result (λ a.
        Becomes (λ t. dicted (numbers bases.now) (slot_texts t slots.now)) world.old attrs world.new a) }
    ensures holds { IfOk result (λ a. AllHold world.new (of_each of_binding a)) }
    ensures reads { (t : Reading) → Reads t world.new → Reads t world.old }
    ensures grows { Grows world.old world.new }
{
    if !world.would_have_dict(bases, slots) {
        return Ok(attrs);
    }
    let more = give_dict(world, attrs)?;
    Ok(more)
}

// The attribute that reads and sets an object's dict.
fn give_dict(world: &mut World, attrs: PyAttributes) -> Result<PyAttributes, OutOfMemory>
    requires { AllHold world.old (of_each of_binding attrs) }
    ensures becomes { IfOk result (λ a. Becomes (λ t. give_dict) world.old attrs world.new a) }
    ensures holds { IfOk result (λ a. AllHold world.new (of_each of_binding a)) }
    ensures reads { (t : Reading) → Reads t world.new → Reads t world.old }
    ensures grows { Grows world.old world.new }
{
    let name = world.known(Known::Dict);
    let dict = GetSet {
        class: world.built_in(BuiltIn::Object),
        name,
        getter: Some(NativeEntry::Getter(Property::InstanceDict)),
        setter: Some(NativeEntry::Setter(Property::InstanceDict)),
    };
    let class = world.built_in(BuiltIn::GetSetDescriptor);
    let dict = Boxed::new(world.alloc(), dict)?;
    let more = give(world, name, class, Payload::GetSet(dict), attrs)?;
    Ok(more)
}

// A new object under a name that has no value.
#[tactic(auto, unfolding(crate::specs::ClassMake::Say::give))]
fn give(
    world: &mut World,
    name: PyStrInterned,
    class: PyTypeRef,
    payload: Payload,
    attrs: PyAttributes,
) -> Result<PyAttributes, OutOfMemory>
    requires name { Holds world.old (IsName name) }
    requires class { Holds world.old (IsClass class.0) }
    requires of { Holds world.old (IsOf class.0 (home_of payload)) }
    requires payload { AllHold world.old (of_payload payload) }
    requires other { class_in payload ≡ None }
    requires attrs { AllHold world.old (of_each of_binding attrs) }
    ensures becomes { IfOk result (λ a.
        Becomes (λ t s. give s (t.text name.0) class.0 (datum t payload)) world.old attrs world.new a) }
    ensures holds { IfOk result (λ a. AllHold world.new (of_each of_binding a)) }
    ensures reads { (t : Reading) → Reads t world.new → Reads t world.old }
    ensures grows { Grows world.old world.new }
{
    if attrs.contains(name) {
        return Ok(attrs);
    }
    let more = put(world, name, class, payload, attrs)?;
    Ok(more)
}

// A new object under a name.
#[tactic(auto, unfolding(crate::specs::ClassMake::Say::put))]
fn put(
    world: &mut World,
    name: PyStrInterned,
    class: PyTypeRef,
    payload: Payload,
    attrs: PyAttributes,
) -> Result<PyAttributes, OutOfMemory>
    requires name { Holds world.old (IsName name) }
    requires class { Holds world.old (IsClass class.0) }
    requires of { Holds world.old (IsOf class.0 (home_of payload)) }
    requires payload { AllHold world.old (of_payload payload) }
    requires other { class_in payload ≡ None }
    requires attrs { AllHold world.old (of_each of_binding attrs) }
    ensures becomes { IfOk result (λ a.
        Becomes (λ t s. put s (t.text name.0) class.0 (datum t payload)) world.old attrs world.new a) }
    ensures holds { IfOk result (λ a. AllHold world.new (of_each of_binding a)) }
    ensures reads { (t : Reading) → Reads t world.new → Reads t world.old }
    ensures grows { Grows world.old world.new }
{
    let node = world.make_node(class, payload)?;
    let mut attrs = attrs;
    attrs.insert(name, node)?;
    Ok(attrs)
}

/// Whether the attributes have a name.
pub(crate) fn has_name(world: &World, attrs: &PyAttributes, name: Known) -> bool
    ensures { (t : Reading) → Reads t world.now → has_name (bindings t attrs.now) (known_text name) ≡ result }
{
    attrs.contains(world.known(name))
}
