//! What a reader finds of a machine that callers share.

use crate::views::look_and_close;
use script_text::read_script;
use shared_vm::viewed_vm::ViewedVm;
use std::test::Fail;

// A class is made, and an attribute of it set.
const SCRIPT: &[u8] = br#"[["bind","A",["class","A",[],[]]],["setattr",["name","A"],"x",null]]"#;

// An attribute of one class is found by the name that the machine tells, once it is published and learnt, and not before.
#[test]
fn what_is_published_is_found(rt: HostRuntime) -> Result<(), Fail> {
    let commands = read_script(rt.alloc(), SCRIPT)?;
    let (vm, seats, readers) = ViewedVm::new(&rt, rt.alloc(), 1, 1)?;
    let (seen, entries) = look_and_close(&rt, vm, seats, readers, commands);
    assert_eq!(rt; seen, Some((0, 1, false)));
    assert_eq!(rt; entries, 2);
    Ok(())
}
