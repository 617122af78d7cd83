//! What is read through getters of the objects of the built-in classes other than `object` and `type`.

ghost use Rattle.py_node.specs.Stops.{Ended};
ghost use Rattle.proto_attr.specs.Below.{[], Some, Err, IfErr, IfOk, option_map, string_bytes, Said, Ends, PyObjectRef as Object, Held, Reading, Reads, bindings, datum, plain, spelled, spelled_option, EndsAs, LeavesEnd, AllHold, AreNodes, Holds, IsClass, IsName, of_name_ref, of_node_ref, of_option, of_optional, of_payload, of_property, of_start, with_own, signature_of};
ghost use Rattle.std.specs.Prelude.{◌≡◌, ◌∷◌};
ghost use Rattle.proto_attr.specs.NativeObjects.Details.{Part as Read, accessor_part, bounds_part, builtin_method_part, callable_part, class_method_part, doc_part, dotted_text, function_part, getset_part, getter_of_say, in_class_part, kept_part, looked_part, member_part, method_descriptor_part, method_part, native_function_part, native_part, part_given, part_of, property_part, signature_given, signature_part, slice_part, static_method_part, super_part, whole_text};
ghost use Rattle.proto_attr.specs.NativeObjects.DetailParts.{of_part, read_part};

use class_world::takes::one;
use class_world::{Fixed, World};
use py_node::{
    Answer, BuiltIn, Cause, Detail, FuncArgs, OutOfMemory, Payload, PyObjectRef, PyProperty,
    PySlice, PyStrInterned, PySuper, PyTypeRef, Raised, Stop,
};
use row_kit::class_names::limited_text;
use row_kit::signatures::get_text_signature_from_internal_doc;

/// A part of what an object holds.
#[derive(Clone, Copy)]
pub(crate) enum Part {
    Name(PyStrInterned),
    /// What the objects of a class have under a name, told with what the class is called.
    Dotted(PyTypeRef, PyStrInterned),
    /// The same, told with the whole name of the class.
    Whole(PyTypeRef, PyStrInterned),
    Class(PyTypeRef),
    Object(Option<PyObjectRef>),
    /// The signature that a text for readers gives for a name.
    Signature(PyStrInterned, PyStrInterned),
    /// What another task tells.
    Later,
}

/// What is read of an object of a built-in class.
pub fn getter_of_native(
    world: &mut World,
    class: BuiltIn,
    detail: Detail,
    call: FuncArgs<'_>,
) -> Result<Answer, Stop>
    requires { Holds world.old (AreNodes call.args.now) }
    ensures ends { Ended result (EndsAs (λ t u. getter_of_say u class detail call.entry.args.now (bindings t call.entry.kw.now))
        world.old world.new) }
    ensures safe { LeavesEnd world.old world.new result }
{
    let (_object, part) = own_part(world, class, detail, call.args)?;
    one(call)?;
    give_part(world, part)
}

// The first argument, with the part of it that is read, or why it is refused.
fn own_part(
    world: &World,
    class: BuiltIn,
    detail: Detail,
    args: &[PyObjectRef],
) -> Result<(PyObjectRef, Part), Raised>
    requires { Holds world.now (AreNodes args.now) }
    ensures given { IfOk result (λ p. (t : Reading) (go : Object → Read → Said) →
        with_own (part_of class detail) (plain t world.now) args.now go ≡ go p.0 (read_part t p.1)) }
    ensures refused { IfErr result (λ x. (t : Reading) (go : Object → Read → Said) →
        with_own (part_of class detail) (plain t world.now) args.now go ≡ Ends (plain t world.now) (Err x)) }
    ensures holds { IfOk result (λ p. AllHold world.now (of_part p.1)) }
{
    match args {
        [] => Err(Raised::new(Cause::ArgCount)),
        [o, ..] => match part_of(class, detail, world.payload(*o)) {
            None => Err(Raised::new(Cause::SelfType)),
            Some(part) => Ok((*o, part)),
        },
    }
}

// The part of an object of a class.
fn part_of(class: BuiltIn, detail: Detail, payload: &Payload) -> Option<Part>
    ensures part { (t : Reading) →
        part_of class detail (Some (datum t payload.now)) ≡ option_map (read_part t) result }
    ensures holds { (w : Held) → AllHold w (of_payload payload.now) → AllHold w (of_option of_part result) }
{
    match class {
        BuiltIn::Function => function_part(detail, payload),
        BuiltIn::Method => method_part(detail, payload),
        BuiltIn::BuiltinFunctionOrMethod => native_function_part(detail, payload),
        BuiltIn::BuiltinMethod => builtin_method_part(detail, payload),
        BuiltIn::MethodDescriptor => method_descriptor_part(detail, payload),
        BuiltIn::GetSetDescriptor => getset_part(detail, payload),
        BuiltIn::MemberDescriptor => member_part(detail, payload),
        BuiltIn::Property => property_part(detail, payload),
        BuiltIn::ClassMethod => class_method_part(detail, payload),
        BuiltIn::StaticMethod => static_method_part(detail, payload),
        BuiltIn::Super => super_part(detail, payload),
        BuiltIn::Slice => slice_part(detail, payload),
        _ => None,
    }
}

// The part of a function.
fn function_part(detail: Detail, payload: &Payload) -> Option<Part>
    ensures part { (t : Reading) →
        function_part detail (Some (datum t payload.now)) ≡ option_map (read_part t) result }
    ensures holds { (w : Held) → AllHold w (of_payload payload.now) → AllHold w (of_option of_part result) }
{
    match payload {
        Payload::Function(f) => match detail {
            Detail::Name => Some(Part::Name(f.name)),
            _ => None,
        },
        _ => None,
    }
}

// The part of a function that is bound to an object.
fn method_part(detail: Detail, payload: &Payload) -> Option<Part>
    ensures part { (t : Reading) →
        method_part detail (Some (datum t payload.now)) ≡ option_map (read_part t) result }
    ensures holds { (w : Held) → AllHold w (of_payload payload.now) → AllHold w (of_option of_part result) }
{
    match payload {
        Payload::Method(m) => match detail {
            Detail::BoundSelf => Some(Part::Object(Some(m.target))),
            Detail::Func => Some(Part::Object(Some(m.func))),
            _ => None,
        },
        _ => None,
    }
}

// The part of a native as a function.
fn native_function_part(detail: Detail, payload: &Payload) -> Option<Part>
    ensures part { (t : Reading) →
        native_function_part detail (Some (datum t payload.now)) ≡ option_map (read_part t) result }
    ensures holds { (w : Held) → AllHold w (of_payload payload.now) → AllHold w (of_option of_part result) }
{
    match payload {
        Payload::NativeFunction(f) => {
            let f = f.get();
            native_part(detail, f.name, f.target)
        }
        _ => None,
    }
}

// The part of a native that is bound to an object.
fn builtin_method_part(detail: Detail, payload: &Payload) -> Option<Part>
    ensures part { (t : Reading) →
        builtin_method_part detail (Some (datum t payload.now)) ≡ option_map (read_part t) result }
    ensures holds { (w : Held) → AllHold w (of_payload payload.now) → AllHold w (of_option of_part result) }
{
    match payload {
        Payload::BuiltinMethod(m) => {
            let m = m.get();
            native_part(detail, m.name, Some(m.target))
        }
        _ => None,
    }
}

// The name of a native, or what it is bound to.
fn native_part(detail: Detail, name: PyStrInterned, target: Option<PyObjectRef>) -> Option<Part>
    ensures part { (t : Reading) → native_part detail (spelled t name) target ≡ option_map (read_part t) result }
    ensures holds { (w : Held) → Holds w (IsName name) → AllHold w (of_option of_node_ref target) →
        AllHold w (of_option of_part result) }
{
    match detail {
        Detail::Name => Some(Part::Name(name)),
        Detail::BoundSelf => Some(Part::Object(target)),
        _ => None,
    }
}

// The part of a native as a method.
fn method_descriptor_part(detail: Detail, payload: &Payload) -> Option<Part>
    ensures part { (t : Reading) →
        method_descriptor_part detail (Some (datum t payload.now)) ≡ option_map (read_part t) result }
    ensures holds { (w : Held) → AllHold w (of_payload payload.now) → AllHold w (of_option of_part result) }
{
    match payload {
        Payload::MethodDescriptor(m) => {
            let m = m.get();
            match detail {
                Detail::Doc => Some(doc_part(m.doc)),
                Detail::TextSignature => Some(signature_part(m.name, m.doc)),
                detail => in_class_part(detail, m.class, m.name),
            }
        }
        _ => None,
    }
}

// The part of what reads and sets an attribute of objects.
fn getset_part(detail: Detail, payload: &Payload) -> Option<Part>
    ensures part { (t : Reading) →
        getset_part detail (Some (datum t payload.now)) ≡ option_map (read_part t) result }
    ensures holds { (w : Held) → AllHold w (of_payload payload.now) → AllHold w (of_option of_part result) }
{
    match payload {
        Payload::GetSet(g) => {
            let g = g.get();
            match detail {
                Detail::Qualname => Some(Part::Whole(g.class, g.name)),
                _ => in_class_part(detail, g.class, g.name),
            }
        }
        _ => None,
    }
}

// What stands under a name in a class.
fn in_class_part(detail: Detail, class: PyTypeRef, name: PyStrInterned) -> Option<Part>
    ensures part { (t : Reading) → in_class_part detail class.0 (spelled t name) ≡ option_map (read_part t) result }
    ensures holds { (w : Held) → Holds w (IsClass class.0) → Holds w (IsName name) →
        AllHold w (of_option of_part result) }
{
    match detail {
        Detail::Name => Some(Part::Name(name)),
        Detail::Qualname => Some(Part::Dotted(class, name)),
        Detail::Objclass => Some(Part::Class(class)),
        _ => None,
    }
}

// A text for readers, where there is one.
fn doc_part(doc: Option<PyStrInterned>) -> Part
    ensures part { (t : Reading) → doc_part (spelled_option t doc) ≡ read_part t result }
    ensures holds { (w : Held) → AllHold w (of_option of_name_ref doc) → AllHold w (of_part result) }
{
    match doc {
        None => Part::Object(None),
        Some(doc) => Part::Name(doc),
    }
}

// The signature that such a text begins with.
fn signature_part(name: PyStrInterned, doc: Option<PyStrInterned>) -> Part
    ensures part { (t : Reading) → signature_part (spelled t name) (spelled_option t doc) ≡ read_part t result }
    ensures holds { (w : Held) → Holds w (IsName name) → AllHold w (of_option of_name_ref doc) →
        AllHold w (of_part result) }
{
    match doc {
        None => Part::Object(None),
        Some(doc) => Part::Signature(name, doc),
    }
}

// The part of a member.
fn member_part(detail: Detail, payload: &Payload) -> Option<Part>
    ensures part { (t : Reading) →
        member_part detail (Some (datum t payload.now)) ≡ option_map (read_part t) result }
    ensures holds { (w : Held) → AllHold w (of_payload payload.now) → AllHold w (of_option of_part result) }
{
    match payload {
        Payload::Member(m) => match detail {
            Detail::Doc => Some(doc_part(m.doc)),
            Detail::Qualname => Some(kept_part(m.qualname)),
            _ => None,
        },
        _ => None,
    }
}

// The qualified name of a member, which is kept once it was asked for.
fn kept_part(qualname: Option<PyStrInterned>) -> Part
    ensures part { (t : Reading) → kept_part (spelled_option t qualname) ≡ read_part t result }
    ensures holds { (w : Held) → AllHold w (of_option of_name_ref qualname) → AllHold w (of_part result) }
{
    match qualname {
        None => Part::Later,
        Some(qualname) => Part::Name(qualname),
    }
}

// The part of a property.
fn property_part(detail: Detail, payload: &Payload) -> Option<Part>
    ensures part { (t : Reading) →
        property_part detail (Some (datum t payload.now)) ≡ option_map (read_part t) result }
    ensures holds { (w : Held) → AllHold w (of_payload payload.now) → AllHold w (of_option of_part result) }
{
    match payload {
        Payload::Property(p) => accessor_part(detail, **p),
        _ => None,
    }
}

// What gets, sets or deletes, and the text for readers.
fn accessor_part(detail: Detail, parts: PyProperty) -> Option<Part>
    ensures part { (t : Reading) → accessor_part detail parts ≡ option_map (read_part t) result }
    ensures holds { (w : Held) → AllHold w (of_property parts) → AllHold w (of_option of_part result) }
{
    match detail {
        Detail::Getter => Some(Part::Object(parts.fget)),
        Detail::Setter => Some(Part::Object(parts.fset)),
        Detail::Deleter => Some(Part::Object(parts.fdel)),
        Detail::Doc => Some(Part::Object(parts.doc)),
        Detail::IsAbstract => Some(Part::Later),
        _ => None,
    }
}

// The part of a class method.
fn class_method_part(detail: Detail, payload: &Payload) -> Option<Part>
    ensures part { (t : Reading) →
        class_method_part detail (Some (datum t payload.now)) ≡ option_map (read_part t) result }
    ensures holds { (w : Held) → AllHold w (of_payload payload.now) → AllHold w (of_option of_part result) }
{
    match payload {
        Payload::ClassMethod(callable) => Some(callable_part(detail, *callable)),
        _ => None,
    }
}

// The part of a static method.
fn static_method_part(detail: Detail, payload: &Payload) -> Option<Part>
    ensures part { (t : Reading) →
        static_method_part detail (Some (datum t payload.now)) ≡ option_map (read_part t) result }
    ensures holds { (w : Held) → AllHold w (of_payload payload.now) → AllHold w (of_option of_part result) }
{
    match payload {
        Payload::StaticMethod(callable) => Some(callable_part(detail, *callable)),
        _ => None,
    }
}

// The callable that is wrapped, or else what is told of it.
fn callable_part(detail: Detail, callable: PyObjectRef) -> Part
    ensures part { (t : Reading) → callable_part detail callable ≡ read_part t result }
    ensures holds { (w : Held) → AllHold w (of_node_ref callable) → AllHold w (of_part result) }
{
    match detail {
        Detail::Func | Detail::Wrapped => Part::Object(Some(callable)),
        _ => Part::Later,
    }
}

// The part of a `super`.
fn super_part(detail: Detail, payload: &Payload) -> Option<Part>
    ensures part { (t : Reading) →
        super_part detail (Some (datum t payload.now)) ≡ option_map (read_part t) result }
    ensures holds { (w : Held) → AllHold w (of_payload payload.now) → AllHold w (of_option of_part result) }
{
    match payload {
        Payload::Super(s) => looked_part(detail, *s.get()),
        _ => None,
    }
}

// The class past which it looks, and what it is bound to.
fn looked_part(detail: Detail, own: PySuper) -> Option<Part>
    ensures part { (t : Reading) → looked_part detail own.typ.0 (option_map (λ b. (b.0, b.1.0)) own.obj) ≡
        option_map (read_part t) result }
    ensures holds { (w : Held) → AllHold w (IsClass own.typ.0 ∷ of_option of_start own.obj) →
        AllHold w (of_option of_part result) }
{
    match (detail, own.obj) {
        (Detail::ThisClass, _) => Some(Part::Class(own.typ)),
        (Detail::SelfClass, None) => Some(Part::Object(None)),
        (Detail::SelfClass, Some((_, start))) => Some(Part::Class(start)),
        (Detail::BoundSelf, None) => Some(Part::Object(None)),
        (Detail::BoundSelf, Some((object, _))) => Some(Part::Object(Some(object))),
        _ => None,
    }
}

// The part of a slice.
fn slice_part(detail: Detail, payload: &Payload) -> Option<Part>
    ensures part { (t : Reading) →
        slice_part detail (Some (datum t payload.now)) ≡ option_map (read_part t) result }
    ensures holds { (w : Held) → AllHold w (of_payload payload.now) → AllHold w (of_option of_part result) }
{
    match payload {
        Payload::Slice(s) => bounds_part(detail, *s.get()),
        _ => None,
    }
}

// Where a slice begins and ends, and its step.
fn bounds_part(detail: Detail, bounds: PySlice) -> Option<Part>
    ensures part { (t : Reading) → bounds_part detail bounds ≡ option_map (read_part t) result }
    ensures holds { (w : Held) → AllHold w (of_optional (bounds.start ∷ bounds.stop ∷ bounds.step ∷ [])) →
        AllHold w (of_option of_part result) }
{
    match detail {
        Detail::Start => Some(Part::Object(bounds.start)),
        Detail::Stop => Some(Part::Object(bounds.stop)),
        Detail::Step => Some(Part::Object(bounds.step)),
        _ => None,
    }
}

// Ends with a part: a new text, an object, or None.
fn give_part(world: &mut World, part: Part) -> Result<Answer, Stop>
    requires { AllHold world.old (of_part part) }
    ensures ends { Ended result (EndsAs (λ t u. part_given u (read_part t part)) world.old world.new) }
    ensures safe { LeavesEnd world.old world.new result }
{
    match part {
        Part::Name(name) => {
            let text = world.spelling(name)?;
            limited_text(world, text)
        }
        Part::Dotted(class, name) => {
            let text = dotted(world, class, name)?;
            limited_text(world, text)
        }
        Part::Whole(class, name) => {
            let text = whole(world, class, name)?;
            limited_text(world, text)
        }
        Part::Class(class) => Ok(Answer::Value(world.class_node(class))),
        Part::Object(Some(object)) => Ok(Answer::Value(object)),
        Part::Object(None) => Ok(Answer::Value(world.fixed(Fixed::None))),
        Part::Signature(name, doc) => give_signature(world, name, doc),
        Part::Later => Err(Stop::raise(Cause::SelfType)),
    }
}

// Ends with the signature that a text for readers gives for a name, as a new text, or with None.
fn give_signature(
    world: &mut World,
    name: PyStrInterned,
    doc: PyStrInterned,
) -> Result<Answer, Stop>
    requires name { Holds world.old (IsName name) }
    requires doc { Holds world.old (IsName doc) }
    ensures ends { Ended result (EndsAs (λ t u. signature_given u (signature_of (spelled t name) (spelled t doc)))
        world.old world.new) }
    ensures safe { LeavesEnd world.old world.new result }
{
    match signature(world, name, doc)? {
        Some(text) => limited_text(world, text),
        None => Ok(Answer::Value(world.fixed(Fixed::None))),
    }
}

// The signature that a text for readers gives for a name, if it gives one.
fn signature(
    world: &World,
    name: PyStrInterned,
    doc: PyStrInterned,
) -> Result<Option<String>, OutOfMemory>
    requires name { Holds world.now (IsName name) }
    requires doc { Holds world.now (IsName doc) }
    ensures { IfOk result (λ o. (t : Reading) → Reads t world.now →
        signature_of (spelled t name) (spelled t doc) ≡ option_map string_bytes o) }
{
    let name = world.spelling(name)?;
    let doc = world.spelling(doc)?;
    match get_text_signature_from_internal_doc(name.as_str(), doc.as_str()) {
        None => Ok(None),
        Some(text) => Ok(Some(String::from_str(world.alloc(), text)?)),
    }
}

// What a class is called, and a name in it.
fn dotted(world: &World, class: PyTypeRef, name: PyStrInterned) -> Result<String, OutOfMemory>
    requires class { Holds world.now (IsClass class.0) }
    requires name { Holds world.now (IsName name) }
    ensures { IfOk result (λ s. (t : Reading) → Reads t world.now →
        string_bytes s ≡ dotted_text (plain t world.now) class.0 (spelled t name)) }
{
    let alloc = world.alloc();
    let name = world.spelling(name)?;
    let class = world.class_name(class);
    Ok(format!(in alloc; "{class}.{name}")?)
}

// The whole name of a class, and a name in it.
fn whole(world: &World, class: PyTypeRef, name: PyStrInterned) -> Result<String, OutOfMemory>
    requires class { Holds world.now (IsClass class.0) }
    requires name { Holds world.now (IsName name) }
    ensures { IfOk result (λ s. (t : Reading) → Reads t world.now →
        string_bytes s ≡ whole_text (plain t world.now) class.0 (spelled t name)) }
{
    let alloc = world.alloc();
    let name = world.spelling(name)?;
    let class = world.slot_name(class);
    Ok(format!(in alloc; "{class}.{name}")?)
}
