//! How another program uses the machine: it runs a script, hands a number to the function that the script made, makes a
//! class, gives an object of it a text and reads it back, and tells a fault by its kind and its cause.
#![tactic(auto)]

ghost use Rattle.std.specs.Prelude.{IfOk};
ghost use Rattle.class_world.specs.Sound.{AreNodes, Grows, Holds, IsNode};

mod arguments;
mod stop;

use arguments::{none, one};
use py_node::{BuiltIn, PyObjectRef};
use script_text::read_script;
use std::alloc::Global;
use std::io;
use stop::{Stop, done};
use vm_calls::{get_attr, int_of, new_int, new_text, text_of};
use vm_eval::VirtualMachine;

// What each command and each call may spend.
const UNITS: u64 = 1000;

// Binds `twice` to a function that adds its argument to itself.
const SCRIPT: &[u8] =
    br#"[["bind","twice",["func","twice",["n"],["op","+",["name","n"],["name","n"]]]]]"#;

// What three calls answered.
#[derive(Drop)]
struct Told {
    number: i128,
    label: String,
    stop: Stop,
}

fn main(rt: HostRuntime) -> io::Result<()> {
    let Ok(told) = answers(rt.alloc()) else {
        return println!(rt; "no answers");
    };
    let number = told.number;
    println!(rt; "twice 21: {number}")?;
    let label = told.label.as_str();
    println!(rt; "its label: {label}")?;
    match told.stop {
        Stop::Raised(raised) => {
            let kind = raised.kind.word();
            let cause = raised.cause.word();
            println!(rt; "twice the order: {kind} {cause}")
        }
        _ => println!(rt; "twice the order: no fault"),
    }
}

// A number and a text from the machine, and why a third call has no value.
fn answers(alloc: Global) -> Result<Told, Stop> {
    let mut vm = VirtualMachine::new(alloc)?;
    vm.run(&read_script(alloc, SCRIPT)?, UNITS)?;
    let number = new_int(&mut vm, 21)?;
    let doubled = twice(&mut vm, number)?;
    let number = int_of(&vm, doubled).ok_or(Stop::Other)?;
    let order = labelled(&mut vm, "two apples")?;
    let label = label_of(&mut vm, order)?;
    match twice(&mut vm, order) {
        Ok(_) => Err(Stop::Other),
        Err(stop) => Ok(Told {
            number,
            label,
            stop,
        }),
    }
}

// What the script's function makes of an object.
fn twice(vm: &mut VirtualMachine, object: PyObjectRef) -> Result<PyObjectRef, Stop>
    requires { Holds vm.old.world (IsNode object) }
    ensures node { IfOk result (λ r. Holds vm.new.world (IsNode r)) }
    ensures grows { Grows vm.old.world vm.new.world }
{
    let name = vm.intern("twice")?;
    let function = vm.world().variable(name).ok_or(Stop::Other)?;
    let args = one(vm.world().alloc(), object)?;
    call(vm, function, args)
}

// An object of a new class, whose attribute `label` is a text.
fn labelled(vm: &mut VirtualMachine, text: &str) -> Result<PyObjectRef, Stop>
    ensures { IfOk result (λ r. Holds vm.new.world (IsNode r)) }
{
    let base = vm.world().built_in(BuiltIn::Object);
    let class = vm.new_simple_heap("Order", base)?;
    let text = String::from_str(vm.world().alloc(), text)?;
    let label = done(new_text(vm, text)?)?;
    vm.set_str_attr(class, "label", label)?;
    let class = vm.world().class_node(class);
    let args = none(vm.world().alloc());
    call(vm, class, args)
}

// The text of an object's label.
fn label_of(vm: &mut VirtualMachine, object: PyObjectRef) -> Result<String, Stop>
    requires { Holds vm.old.world (IsNode object) }
    ensures { Grows vm.old.world vm.new.world }
{
    let name = vm.intern("label")?;
    let label = done(get_attr(vm, object, name, UNITS)?)?;
    let text = text_of(vm, label).ok_or(Stop::Other)?;
    Ok(String::from_str(vm.world().alloc(), text)?)
}

// What an object gives that is called with arguments.
#[tactic(auto, unfolding(class_world::specs::Sound::Holds))]
fn call(
    vm: &mut VirtualMachine,
    object: PyObjectRef,
    args: Vec<PyObjectRef>,
) -> Result<PyObjectRef, Stop>
    requires object { Holds vm.old.world (IsNode object) }
    requires args { Holds vm.old.world (AreNodes args.items) }
    ensures node { IfOk result (λ r. Holds vm.new.world (IsNode r)) }
    ensures grows { Grows vm.old.world vm.new.world }
{
    let keywords = Vec::new(vm.world().alloc());
    done(vm_calls::call(vm, object, args, keywords, UNITS)?)
}
