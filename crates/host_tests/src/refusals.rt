//! What hosts are refused, and merges.

ghost use Rattle.host_tests.specs.Below.{length, AllHold, of_class_ref, of_each};
ghost use Rattle.std.specs.Prelude.{◌≤◌};

use class_table::ClassFault;
use class_table::mro_merge::MroFault;
use class_table::mro_merge::laws::linearise_mro;
use class_world::{Fixed, World};
use py_node::{BuiltIn, Cause, Known, OutOfMemory, PyAttributes, PyTypeFlags, PyTypeRef};
use std::test::Fail;

// Lists whose heads stand in another order than a later list has.
#[test]
fn a_merge_is_refused(rt: HostRuntime) -> Result<(), Fail> {
    let alloc = rt.alloc();
    let first = vec![in alloc; PyTypeRef(1)]?;
    let second = vec![in alloc; PyTypeRef(2)]?;
    let both = vec![in alloc; PyTypeRef(1), PyTypeRef(2)]?;
    let refused = linearise_mro(alloc, vec![in alloc; first, second, both]?);
    assert!(rt; matches!(&refused, Err(MroFault::LocalPrecedence)));
    Ok(())
}

#[test]
fn a_static_class_is_not_set(rt: HostRuntime) -> Result<(), Fail> {
    let alloc = rt.alloc();
    let mut world = World::new(alloc)?;
    let object = world.built_in(BuiltIn::Object);
    let metaclass = world.built_in(BuiltIn::TypeType);
    let attrs = PyAttributes::new(alloc);
    let class = world.new_static("S", object, attrs, PyTypeFlags::DEFAULT, metaclass)?;
    let name = world.known(Known::Qualname);
    let none = world.fixed(Fixed::None);
    assert!(rt;
        world.set_attr(class, name, none) == Err(ClassFault::Refused(Cause::ImmutableType))
    );
    Ok(())
}

// Why a class with these bases is refused whose qualified name is an object.
fn refusal(
    world: &mut World,
    bases: Vec<PyTypeRef>,
    qualname: Fixed,
) -> Result<Option<Cause>, OutOfMemory>
    requires bases { AllHold world.old (of_each of_class_ref bases.items) }
    requires one { length bases.items ≤ 1 }
{
    let alloc = world.alloc();
    let name = world.known(Known::Qualname);
    let qualname = world.fixed(qualname);
    let mut attrs = PyAttributes::new(alloc);
    attrs.insert(name, qualname)?;
    let metaclass = world.built_in(BuiltIn::TypeType);
    match world.new_heap_slots("A", bases, attrs, None, metaclass) {
        Ok(_) => Ok(None),
        Err(ClassFault::Refused(cause)) => Ok(Some(cause)),
        Err(ClassFault::RefusedAt(_, _)) => unreachable!(),
        Err(ClassFault::OutOfMemory) => Err(OutOfMemory),
    }
}

#[test]
fn refuses_a_class_in_order(rt: HostRuntime) -> Result<(), Fail> {
    let alloc = rt.alloc();
    let mut world = World::new(alloc)?;
    let bool = world.built_in(BuiltIn::Bool);
    assert!(rt; world.new_simple_heap("A", bool) == Err(ClassFault::Refused(Cause::NotBaseType)));
    let none = Vec::new(alloc);
    assert!(rt; refusal(&mut world, none, Fixed::None)? == Some(Cause::EmptyBases));
    let bool = vec![in alloc; world.built_in(BuiltIn::Bool)]?;
    assert!(rt; refusal(&mut world, bool, Fixed::None)? == Some(Cause::NotBaseType));
    let object = vec![in alloc; world.built_in(BuiltIn::Object)]?;
    assert!(rt; refusal(&mut world, object, Fixed::None)? == Some(Cause::QualnameType));
    Ok(())
}
