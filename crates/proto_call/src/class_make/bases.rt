//! The bases of a class to be, its metaclass, and its namespace.

ghost use Rattle.proto_call.specs.Below.{not, eqb, is_some, [], map, option_map, string_bytes, Err, None, Ok, Some, IfErr, IfOk, IfSome, New, TypeType, known_text, natives_of, entry, numbers, refused_layout, Asks, Chose, DoGetAttr, ToAttribute, text_keys, of_args, of_step, Leaves, Reading, Reads, bindings, plain, IsNode, AreNodes, IsClass, IsOf, Holds, AllHold, of_binding, of_class_ref, of_each, of_option};
ghost use Rattle.std.specs.Prelude.{◌≡◌, ◌&&◌, ◌∷◌};
ghost use Rattle.py_node.specs.declared.known.Known.TheVariants.{MroEntries};
ghost use Rattle.proto_call.specs.ClassMake.Say.{by_bases, by_winner, classes_of, derived, on_bases, with_namespace, winner};
ghost use Rattle.proto_call.specs.ClassMake.Rows.{Makes, of_class_kept, of_class_node};

use crate::class_make::ClassKept;
use crate::class_make::attributes::completed;
use crate::class_make::creation::{Plan, made};
use crate::class_make::make::{Body, Call};
use crate::class_make::namespace::namespace;
use class_world::World;
use py_node::task::{Args, Keywords};
use py_node::{
    AttributeTask, BuiltIn, CallTask, Cause, Known, OutOfMemory, PyAttributes, PyObjectRef,
    PyStrInterned, PyTypeRef, SlotId, Step, Task,
};

/// A new class of these bases; none stand for `object`. The first base that is no class is asked for others.
pub(crate) fn by_bases(
    world: &mut World,
    meta: PyTypeRef,
    bases: Args,
    body: Body,
    call: Call,
) -> Result<Step<ClassKept>, OutOfMemory>
    requires meta { Holds world.old (IsClass meta.0) }
    requires meta_of { Holds world.old (IsOf meta.0 TypeType) }
    requires bases { Holds world.old (AreNodes bases.items) }
    requires keys { Holds world.old (AreNodes (map (λ e. e.0) body.entries.items)) }
    requires values { Holds world.old (AreNodes (map (λ e. e.1) body.entries.items)) }
    requires rest { AllHold world.old (of_args call.args.items call.kw.items) }
    ensures goes { IfOk result (λ step. Makes call.kw.items (λ t u.
        by_bases u meta.0 (string_bytes body.name) bases.items body.entries.items call.args.items
        (bindings t call.kw.items)) world.old world.new step) }
    ensures safe { Leaves of_class_kept world.old world.new result }
{
    let alloc = world.alloc();
    if bases.is_empty() {
        let object = world.built_in(BuiltIn::Object);
        let only = vec![in alloc; object]?;
        return on_bases(world, meta, only, body, call.kw);
    }
    let classes = classes_of(world, &bases)?;
    match classes {
        Err(other) => Ok(ask_others(world, other, &call.kw)),
        Ok(classes) => {
            let winner = winner(world, meta, &bases);
            by_winner(world, meta, winner, classes, body, call)
        }
    }
}

// The classes that some objects are, or the first that is none.
fn classes_of(
    world: &World,
    nodes: &[PyObjectRef],
) -> Result<Result<Vec<PyTypeRef>, PyObjectRef>, OutOfMemory>
    requires { Holds world.now (AreNodes nodes.now) }
    ensures classes { IfOk result (λ r. IfOk r (λ cs. (t : Reading) →
        classes_of (plain t world.now) nodes.now ≡ Ok (numbers cs.items))) }
    ensures other { IfOk result (λ r. IfErr r (λ b. (t : Reading) →
        classes_of (plain t world.now) nodes.now ≡ Err b)) }
    ensures there { IfOk result (λ r. IfOk r (λ cs. AllHold world.now (of_each of_class_ref cs.items))) }
    ensures holding { IfOk result (λ r. IfOk r (λ cs. AllHold world.now (of_each of_class_node nodes.now))) }
    ensures node { IfOk result (λ r. IfErr r (λ b. Holds world.now (IsNode b))) }
{
    let mut classes = Vec::new(world.alloc());
    for node in nodes {
        match world.class_number(*node) {
            None => return Ok(Err(*node)),
            Some(class) => classes.push(class)?,
        }
    }
    Ok(Ok(classes))
}

// An object that is no class is asked for the bases that it stands for.
fn ask_others(
    world: &World,
    base: PyObjectRef,
    kw: &[(PyStrInterned, PyObjectRef)],
) -> Step<ClassKept>
    requires { Holds world.now (IsNode base) }
    ensures goes { Makes kw.now (λ t u.
        Asks u (Chose 0 ∷ []) (ToAttribute (DoGetAttr base (known_text MroEntries)))) world.now world.now result }
    ensures safe { AllHold world.now (of_step of_class_kept result) }
{
    let name = world.known(Known::MroEntries);
    let task = AttributeTask::GetAttr(base, name);
    Step::Ask(Task::Attribute(task), ClassKept::NoClass)
}

// The metaclass of a class to be: of the given one and those of the bases the one that derives from all others.
fn winner(world: &World, meta: PyTypeRef, bases: &[PyObjectRef]) -> Option<PyTypeRef>
    requires meta { Holds world.now (IsClass meta.0) }
    requires meta_of { Holds world.now (IsOf meta.0 TypeType) }
    requires bases { Holds world.now (AreNodes bases.now) }
    requires holding { AllHold world.now (of_each of_class_node bases.now) }
    ensures winner { (t : Reading) → winner (plain t world.now) meta.0 bases.now ≡ option_map (λ c. c.0) result }
    ensures class { AllHold world.now (of_option of_class_ref result) }
    ensures of { IfSome result (λ c. Holds world.now (IsOf c.0 TypeType)) }
{
    let mut class = meta;
    for base in bases {
        match derived(world, class, world.metaclass(*base)) {
            None => return None,
            Some(next) => class = next,
        }
    }
    Some(class)
}

// Of two metaclasses the one that derives from the other.
fn derived(world: &World, meta: PyTypeRef, of_base: PyTypeRef) -> Option<PyTypeRef>
    requires meta { Holds world.now (IsClass meta.0) }
    requires meta_of { Holds world.now (IsOf meta.0 TypeType) }
    requires base { Holds world.now (IsClass of_base.0) }
    requires base_of { Holds world.now (IsOf of_base.0 TypeType) }
    ensures derived { (t : Reading) → derived (plain t world.now) meta.0 (Some of_base.0) ≡
        option_map (λ c. c.0) result }
    ensures class { AllHold world.now (of_option of_class_ref result) }
    ensures of { IfSome result (λ c. Holds world.now (IsOf c.0 TypeType)) }
{
    if world.is_sub(meta, of_base) {
        Some(meta)
    } else if world.is_sub(of_base, meta) {
        Some(of_base)
    } else {
        None
    }
}

// A new class of this metaclass. Another one that makes its objects itself is asked for it.
fn by_winner(
    world: &mut World,
    meta: PyTypeRef,
    winner: Option<PyTypeRef>,
    bases: Vec<PyTypeRef>,
    body: Body,
    call: Call,
) -> Result<Step<ClassKept>, OutOfMemory>
    requires winner { AllHold world.old (of_option of_class_ref winner) }
    requires of { IfSome winner (λ c. Holds world.old (IsOf c.0 TypeType)) }
    requires bases { AllHold world.old (of_each of_class_ref bases.items) }
    requires keys { Holds world.old (AreNodes (map (λ e. e.0) body.entries.items)) }
    requires values { Holds world.old (AreNodes (map (λ e. e.1) body.entries.items)) }
    requires rest { AllHold world.old (of_args call.args.items call.kw.items) }
    ensures goes { IfOk result (λ step. Makes call.kw.items (λ t u.
        by_winner u meta.0 (option_map (λ c. c.0) winner) (string_bytes body.name)
        (numbers bases.items) body.entries.items call.args.items (bindings t call.kw.items)) world.old world.new step) }
    ensures safe { Leaves of_class_kept world.old world.new result }
{
    match winner {
        None => Ok(Step::raise(Cause::MetaclassConflict)),
        Some(class) => {
            if makes_itself(world, class, meta) {
                return Ok(Step::Ask(
                    Task::Call(CallTask::New(class, class, call.args, call.kw)),
                    ClassKept::Pass,
                ));
            }
            on_bases(world, class, bases, body, call.kw)
        }
    }
}

// Whether another metaclass than the given one makes its objects itself.
fn makes_itself(world: &World, class: PyTypeRef, meta: PyTypeRef) -> bool
    requires { Holds world.now (IsClass class.0) }
    ensures { (t : Reading) → Reads t world.now → not (eqb class.0 meta.0) &&
        is_some (entry text_keys natives_of (plain t world.now).classes class.0 New) ≡ result }
{
    class.0 != meta.0 && world.own_slot(class, SlotId::New).is_some()
}

// A new class on its bases, which must be allowed together. All keys of its namespace must be texts.
fn on_bases(
    world: &mut World,
    meta: PyTypeRef,
    bases: Vec<PyTypeRef>,
    body: Body,
    kw: Keywords,
) -> Result<Step<ClassKept>, OutOfMemory>
    requires meta { Holds world.old (IsClass meta.0) }
    requires meta_of { Holds world.old (IsOf meta.0 TypeType) }
    requires bases { AllHold world.old (of_each of_class_ref bases.items) }
    requires keys { Holds world.old (AreNodes (map (λ e. e.0) body.entries.items)) }
    requires values { Holds world.old (AreNodes (map (λ e. e.1) body.entries.items)) }
    requires kw { AllHold world.old (of_each of_binding kw.items) }
    ensures goes { IfOk result (λ step. Makes kw.items (λ t u.
        on_bases u meta.0 (string_bytes body.name) (numbers bases.items) body.entries.items (bindings t kw.items))
        world.old world.new step) }
    ensures safe { Leaves of_class_kept world.old world.new result }
{
    match world.layout_refusal(&bases) {
        Some(cause) => return Ok(Step::raise(cause)),
        None => (),
    }
    let attrs = namespace(world, &body.entries)?;
    with_namespace(world, meta, body.name, bases, attrs, kw)
}

// A new class with a namespace, all of whose keys must be texts.
fn with_namespace(
    world: &mut World,
    meta: PyTypeRef,
    name: String,
    bases: Vec<PyTypeRef>,
    attrs: Option<PyAttributes>,
    kw: Keywords,
) -> Result<Step<ClassKept>, OutOfMemory>
    requires meta { Holds world.old (IsClass meta.0) }
    requires meta_of { Holds world.old (IsOf meta.0 TypeType) }
    requires bases { AllHold world.old (of_each of_class_ref bases.items) }
    requires layout { (t : Reading) → Reads t world.old →
        refused_layout (plain t world.old).classes (numbers bases.items) ≡ None }
    requires attrs { IfSome attrs (λ a. AllHold world.old (of_each of_binding a)) }
    requires kw { AllHold world.old (of_each of_binding kw.items) }
    ensures goes { IfOk result (λ step. Makes kw.items (λ t u.
        with_namespace u meta.0 (string_bytes name) (numbers bases.items) (option_map (λ a. bindings t a) attrs)
        (bindings t kw.items)) world.old world.new step) }
    ensures safe { Leaves of_class_kept world.old world.new result }
{
    match attrs {
        None => Ok(Step::raise(Cause::NamespaceKey)),
        Some(attrs) => {
            let attrs = completed(world, name.as_str(), attrs)?;
            let plan = Plan {
                meta,
                name,
                bases,
                attrs,
            };
            made(world, plan, kw)
        }
    }
}
