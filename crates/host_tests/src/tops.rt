//! Calls whose scripts are no files of the worked ones: every front of a script, and a script of the greatest length.

use outside::{MemorySink, MemorySource};
use script_text::ScriptError;
use serve::Status;
use serve::top::serve;
use std::alloc::AllocError;
use std::sync::Wait;
use std::test::Fail;
use std::thread::Threads;

// A late attribute of a base, and a sum with an object of the class below it.
const FIRST_RUN: &str =
    r#"[["bind","A",["class","A",[],[]]],["bind","B",["class","B",[["name","A"]],[]]],["setattr",["name","A"],"__add__",["func","add",["s","o"],42]],["op","+",["call",["name","B"],[]],1]]"#;

// How the words `run 5` end, and what is written. A byte is moved in a call, and none fails.
fn served<R: AllocGlobal + Threads + Wait + Sync>(
    rt: &R,
    script: &[u8],
) -> Result<(Status, Vec<u8>), AllocError> {
    let alloc = rt.alloc();
    let mut words = Vec::new(alloc);
    words.push(String::from_str(alloc, "run")?)?;
    words.push(String::from_str(alloc, "5")?)?;
    let mut source = MemorySource::new(script.to_vec(alloc)?, 1, Vec::new(alloc));
    let mut sink = MemorySink::new(alloc, 1, Vec::new(alloc));
    let status = serve(rt, &words, &mut source, &mut sink);
    Ok((status, sink.bytes().to_vec(alloc)?))
}

#[test]
fn a_front_of_a_script_is_no_json(rt: HostRuntime) -> Result<(), Fail> {
    let script = FIRST_RUN.as_bytes();
    for length in 0..script.len() {
        let (status, written) = served(&rt, &script[..length])?;
        assert!(rt;
            status == Status::Script(ScriptError::NotJson),
            "at {length}"
        );
        assert!(rt; written.is_empty(), "at {length}");
    }
    Ok(())
}

#[test]
fn a_script_has_a_limit(rt: HostRuntime) -> Result<(), Fail> {
    for (blanks, wanted, text) in [
        (16_777_213, Status::Done, "= 1\n"),
        (16_777_214, Status::TooLarge, ""),
    ] {
        let mut script = b"[1]".to_vec(rt.alloc())?;
        script.extend_from_slice(&vec![in rt.alloc(); b' '; blanks]?)?;
        let (status, written) = served(&rt, &script)?;
        assert!(rt; status == wanted, "at {blanks}");
        assert!(rt; written.as_slice() == text.as_bytes(), "at {blanks}");
    }
    Ok(())
}
