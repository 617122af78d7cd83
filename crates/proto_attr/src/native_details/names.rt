//! The qualified name of a member: it is kept, or its class is asked for its own.

ghost use Rattle.py_node.specs.Stops.{Ended, IfRaised};
ghost use Rattle.proto_attr.specs.Below.{ℕ, codes, Option, Ok, Err, IfErr, IfOk, string_bytes, PyObjectRef as Object, of_ended, Leaves, Reading, Reads, bindings, plain, spelled, spelled_option, EndsAs, LeavesEnd, AllHold, AreNodes, Holds, IsName, IsNode, of_member, Said, Ends, Text, with_own, datum_at, in_length};
ghost use Rattle.std.specs.Prelude.{◌≡◌, ◌++◌};
ghost use Rattle.py_node.specs.declared.built_in.BuiltIn.TheVariants as built_in;
ghost use Rattle.py_node.specs.declared.entry.NativeEntry.TheVariants as entry;
ghost use Rattle.proto_attr.specs.NativeDetails.Rows.{Does, Resumes, of_detail_kept};
ghost use Rattle.proto_attr.specs.NativeDetails.Say.{dotted, kept_name, member_name, named_by};

use crate::native_details::DetailKept;
use class_world::limits::is_within_limit;
use class_world::takes::one;
use class_world::{Fixed, World};
use py_node::{
    Answer, AttributeTask, Cause, Detail, FuncArgs, Kind, Known, MemberDescriptor, OutOfMemory,
    Payload, PyObjectRef, PyStrInterned, Raised, Step, Stop, Task, caught,
};
use row_kit::class_names::limited_text;
use row_kit::give::new_text;

/// The name that is kept, or else the class is asked.
pub(crate) fn begin_name(
    world: &mut World,
    detail: Detail,
    call: FuncArgs<'_>,
) -> Result<Step<DetailKept>, OutOfMemory>
    requires { Holds world.old (AreNodes call.args.now) }
    ensures goes { IfOk result (λ step. Does (entry.GetterOf built_in.MemberDescriptor detail) call.entry.args.now
        (λ t. bindings t call.entry.kw.now) (λ t u. member_name u call.entry.args.now (bindings t call.entry.kw.now)) world.old world.new step) }
    ensures safe { Leaves of_detail_kept world.old world.new result }
{
    let (object, member) = match own_member(world, call.args) {
        Err(raised) => return Ok(Step::End(Err(raised))),
        Ok(own) => own,
    };
    if let Err(raised) = one(call) {
        return Ok(Step::End(Err(raised)));
    }
    match member.qualname {
        Some(name) => {
            let text = world.spelling(name)?;
            let ended = caught(limited_text(world, text))?;
            Ok(Step::End(ended))
        }
        None => {
            let class = world.class_object(member.class);
            let task = AttributeTask::GetAttr(class, world.known(Known::Qualname));
            Ok(Step::Ask(Task::Attribute(task), DetailKept::AfterClass(object)))
        }
    }
}

/// The class tells its own name, by which the member has one. Where the class has none, it is None.
pub(crate) fn name_given(
    world: &mut World,
    member: PyObjectRef,
    answer: Result<Answer, Raised>,
) -> Result<Step<DetailKept>, OutOfMemory>
    requires kept { Holds world.old (IsNode member) }
    requires answer { AllHold world.old (of_ended answer) }
    ensures goes { IfOk result (λ step. Resumes (DetailKept.AfterClass member) answer world.old world.new step) }
    ensures safe { Leaves of_detail_kept world.old world.new result }
{
    match answer {
        Ok(Answer::Value(qualname)) => {
            let ended = caught(named_by(world, member, qualname))?;
            Ok(Step::End(ended))
        }
        Ok(other) => Ok(Step::End(Ok(other))),
        Err(raised) => {
            if raised.kind == Kind::AttributeError {
                Ok(Step::End(Ok(Answer::Value(world.fixed(Fixed::None)))))
            } else {
                Ok(Step::End(Err(raised)))
            }
        }
    }
}

// The name is kept, and told as a new text.
fn named_by(world: &mut World, object: PyObjectRef, qualname: PyObjectRef) -> Result<Answer, Stop>
    requires object { Holds world.old (IsNode object) }
    requires qualname { Holds world.old (IsNode qualname) }
    ensures ends { Ended result (EndsAs (λ t u. named_by u object (datum_at u object) qualname)
        world.old world.new) }
    ensures safe { LeavesEnd world.old world.new result }
{
    let member = match world.payload(object) {
        Payload::Member(member) => **member,
        _ => return Ok(Answer::Value(world.fixed(Fixed::None))),
    };
    let text = dotted(world, qualname, member.name)?;
    let name = world.intern(text.as_str())?;
    let named = MemberDescriptor {
        qualname: Some(name),
        ..member
    };
    let boxed = Box::new(world.alloc(), named)?;
    world.set_payload(object, Payload::Member(boxed));
    new_text(world, text)
}

// The text that an object is, and a name in it. It must be a text, and not too long.
fn dotted(world: &World, qualname: PyObjectRef, name: PyStrInterned) -> Result<String, Stop>
    requires qualname { Holds world.now (IsNode qualname) }
    requires name { Holds world.now (IsName name) }
    ensures text { IfOk result (λ s. (t : Reading) → Reads t world.now →
        dotted (spelled t name) (datum_at (plain t world.now) qualname) ≡ Ok (string_bytes s)) }
    ensures refused { IfRaised result (λ x. (t : Reading) → Reads t world.now →
        dotted (spelled t name) (datum_at (plain t world.now) qualname) ≡ Err x) }
{
    match world.payload(qualname) {
        Payload::Text(qualname) => {
            let text = dotted_text(world, qualname, name)?;
            Ok(in_length(text)?)
        }
        _ => Err(Stop::raise(Cause::QualnameType)),
    }
}

// A name in what a text names.
fn dotted_text(world: &World, qualname: &str, name: PyStrInterned) -> Result<String, OutOfMemory>
    requires { Holds world.now (IsName name) }
    ensures { IfOk result (λ s. (t : Reading) → Reads t world.now →
        string_bytes s ≡ qualname.now ++ codes "." ++ spelled t name) }
{
    let alloc = world.alloc();
    let name = world.spelling(name)?;
    Ok(format!(in alloc; "{qualname}.{name}")?)
}

// A text, unless it is too long.
fn in_length(text: String) -> Result<String, Raised>
    ensures text { IfOk result (λ s. in_length (string_bytes text) ≡ Ok (string_bytes s)) }
    ensures refused { IfErr result (λ x. in_length (string_bytes text) ≡ Err x) }
{
    if is_within_limit(text.len()) {
        Ok(text)
    } else {
        Err(Raised::new(Cause::TooLong))
    }
}

// The member that the first argument is, with what it holds, or why it is refused.
fn own_member(
    world: &World,
    args: &[PyObjectRef],
) -> Result<(PyObjectRef, MemberDescriptor), Raised>
    requires { Holds world.now (AreNodes args.now) }
    ensures given { IfOk result (λ p. (t : Reading) (go : Object → ℕ × Option Text → Said) →
        with_own kept_name (plain t world.now) args.now go
        ≡ go p.0 (p.1.class.0, spelled_option t p.1.qualname)) }
    ensures refused { IfErr result (λ x. (t : Reading) (go : Object → ℕ × Option Text → Said) →
        with_own kept_name (plain t world.now) args.now go ≡ Ends (plain t world.now) (Err x)) }
    ensures node { IfOk result (λ p. Holds world.now (IsNode p.0)) }
    ensures parts { IfOk result (λ p. AllHold world.now (of_member p.1)) }
{
    match args {
        [] => Err(Raised::new(Cause::ArgCount)),
        [o, ..] => match world.payload(*o) {
            Payload::Member(member) => Ok((*o, **member)),
            _ => Err(Raised::new(Cause::SelfType)),
        },
    }
}
