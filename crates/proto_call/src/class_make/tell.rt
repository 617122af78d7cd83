//! How a class that was made is told of: to its values, and then to the classes past it.

ghost use Rattle.proto_call.specs.Below.{drop, slice_get, Ok, IfErr, IfOk, of_ended, Leaves, Reading, Reads, bindings, plain, IsClass, IsName, Holds, AllHold, of_binding, of_each, ref};
ghost use Rattle.std.specs.Prelude.{◌≡◌, ◌++◌};
ghost use Rattle.proto_call.specs.ClassMake.Say.{bind_hooks, call_hooks, init_subclass, own_values, tell};
ghost use Rattle.proto_call.specs.ClassMake.Rows.{Goes, IsOther, Resumes, of_class_kept, of_telling};

use crate::class_make::ClassKept;
use crate::class_make::hook::init_subclass;
use class_world::World;
use class_world::args::both;
use py_node::task::Keywords;
use py_node::{
    Answer, AttributeTask, BuiltIn, CallTask, Cause, Known, OutOfMemory, Payload, PyAttributes,
    PyObjectRef, PyStrInterned, PyTypeRef, Raised, Step, Task,
};
use std::alloc::Global;

/// The class that is told of, the keywords that it was made with, and names with values, from a place on.
#[derive(Drop)]
pub struct Telling {
    pub class: PyTypeRef,
    pub kw: Keywords,
    pub values: Keywords,
    pub next: usize,
}

/// Tells of a class: first all its own values that want to know their names.
pub(crate) fn tell(
    world: &mut World,
    class: PyTypeRef,
    kw: Keywords,
) -> Result<Step<ClassKept>, OutOfMemory>
    requires class { Holds world.old (IsClass class.0) }
    requires kw { AllHold world.old (of_each of_binding kw.items) }
    ensures goes { IfOk result (λ step.
        Goes (λ t u. tell u (ref class.0) (bindings t kw.items)) world.old world.new step) }
    ensures safe { Leaves of_class_kept world.old world.new result }
{
    let alloc = world.alloc();
    let values = own_values(world, class)?;
    let telling = Telling {
        class,
        kw,
        values,
        next: 0,
    };
    bind_next(world, telling, Vec::new(alloc))
}

// A class's own values, with their names.
fn own_values(world: &World, class: PyTypeRef) -> Result<Keywords, OutOfMemory>
    requires { Holds world.now (IsClass class.0) }
    ensures values { IfOk result (λ v. (t : Reading) → own_values (plain t world.now) class.0 ≡ bindings t v.items) }
    ensures holds { IfOk result (λ v. AllHold world.now (of_each of_binding v.items)) }
{
    let attrs = world.attributes(class);
    let values = copy_attributes(world.alloc(), attrs)?;
    Ok(values)
}

// The names of attributes with their values.
fn copy_attributes(alloc: Global, attrs: &PyAttributes) -> Result<Keywords, OutOfMemory>
    ensures { IfOk result (λ v. v.items ≡ attrs.now) }
{
    let mut values = Vec::new(alloc);
    for i in 0..attrs.len() {
        values.push(attrs.at(i))?;
    }
    Ok(values)
}

// Binds what the next value is told its name by. Each is looked up in its turn.
fn bind_next(
    world: &mut World,
    telling: Telling,
    hooks: Keywords,
) -> Result<Step<ClassKept>, OutOfMemory>
    requires telling { AllHold world.old (of_telling telling) }
    requires hooks { AllHold world.old (of_each of_binding hooks.items) }
    ensures goes { IfOk result (λ step. Goes (λ t u.
        bind_hooks u (bindings t (drop telling.next telling.values.items)) (λ bs.
        call_hooks u (ref telling.class.0) (bindings t hooks.items ++ bs)
        (init_subclass u (ref telling.class.0) (bindings t telling.kw.items)))) world.old world.new step) }
    ensures safe { Leaves of_class_kept world.old world.new result }
{
    let set_name = world.known(Known::SetName);
    for i in telling.next..telling.values.len() {
        let (name, value) = telling.values[i];
        match world.special(value, set_name) {
            None => (),
            Some(method) => {
                let class = world.type_object(value);
                let Telling {
                    class: of,
                    kw,
                    values,
                    next: _,
                } = telling;
                let later = Telling {
                    class: of,
                    kw,
                    values,
                    next: i + 1,
                };
                return Ok(Step::Ask(
                    Task::Attribute(AttributeTask::Bind(method, Some(value), class)),
                    ClassKept::Binding(later, hooks, name),
                ));
            }
        }
    }
    let telling = Telling {
        class: telling.class,
        kw: telling.kw,
        values: hooks,
        next: 0,
    };
    call_next(world, telling)
}

/// What a value is told its name by was bound to it.
pub(crate) fn hook_bound(
    world: &mut World,
    telling: Telling,
    hooks: Keywords,
    name: PyStrInterned,
    answer: Result<Answer, Raised>,
) -> Result<Step<ClassKept>, OutOfMemory>
    requires telling { AllHold world.old (of_telling telling) }
    requires hooks { AllHold world.old (of_each of_binding hooks.items) }
    requires name { Holds world.old (IsName name) }
    requires answer { AllHold world.old (of_ended answer) }
    ensures goes { IfOk result (λ step.
        Resumes (ClassKept.Binding telling hooks name) answer world.old world.new step) }
    ensures safe { Leaves of_class_kept world.old world.new result }
{
    match object_of(answer) {
        Ok(bound) => {
            let mut hooks = hooks;
            hooks.push((name, bound))?;
            bind_next(world, telling, hooks)
        }
        Err(other) => Ok(Step::End(other)),
    }
}

// The object that was answered, or else the answer as it is.
fn object_of(answer: Result<Answer, Raised>) -> Result<PyObjectRef, Result<Answer, Raised>>
    ensures object { IfOk result (λ r. answer ≡ Ok (Answer.Value r)) }
    ensures same { IfErr result (λ other. other ≡ answer) }
    ensures other { IfErr result (λ _. IsOther answer) }
{
    match answer {
        Ok(Answer::Value(value)) => Ok(value),
        other => Err(other),
    }
}

// Calls the next bound hook with the class and the name, a new text.
fn call_next(world: &mut World, telling: Telling) -> Result<Step<ClassKept>, OutOfMemory>
    requires { AllHold world.old (of_telling telling) }
    ensures goes { IfOk result (λ step. Goes (λ t u.
        call_hooks u (ref telling.class.0) (bindings t (drop telling.next telling.values.items))
        (init_subclass u (ref telling.class.0) (bindings t telling.kw.items))) world.old world.new step) }
    ensures safe { Leaves of_class_kept world.old world.new result }
{
    let (name, hook) = match entry_at(&telling.values, telling.next) {
        None => return init_subclass(world, telling.class, telling.kw),
        Some(entry) => entry,
    };
    let alloc = world.alloc();
    let text = world.spelling(name)?;
    let home = world.built_in(BuiltIn::Str);
    let text = world.make_node(home, Payload::Text(text))?;
    let args = both(alloc, world.class_node(telling.class), text)?;
    let later = Telling {
        class: telling.class,
        kw: telling.kw,
        values: telling.values,
        next: telling.next + 1,
    };
    Ok(Step::Ask(
        Task::Call(CallTask::Call(hook, args, Vec::new(alloc))),
        ClassKept::Calling(later),
    ))
}

// A name with its value, at a place.
fn entry_at(
    values: &[(PyStrInterned, PyObjectRef)],
    place: usize,
) -> Option<(PyStrInterned, PyObjectRef)>
    ensures { slice_get values.now place ≡ result }
{
    if place < values.len() {
        Some(values[place])
    } else {
        None
    }
}

/// A value was told its name.
pub(crate) fn hook_called(
    world: &mut World,
    telling: Telling,
    answer: Result<Answer, Raised>,
) -> Result<Step<ClassKept>, OutOfMemory>
    requires telling { AllHold world.old (of_telling telling) }
    requires answer { AllHold world.old (of_ended answer) }
    ensures goes { IfOk result (λ step. Resumes (ClassKept.Calling telling) answer world.old world.new step) }
    ensures safe { Leaves of_class_kept world.old world.new result }
{
    match answer {
        Err(_) => Ok(Step::raise(Cause::SetNameCalled)),
        Ok(_) => call_next(world, telling),
    }
}
