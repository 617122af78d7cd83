//! Scripts that are refused, and some that are read.

use script_text::ScriptFault;
use script_text::read::read_script;
use std::alloc::Global;
use std::test::Fail;

// The word of the refusal, if it is one.
fn refusal(alloc: Global, bytes: &[u8]) -> &'static str {
    match read_script(alloc, bytes) {
        Ok(_) => "read",
        Err(ScriptFault::Script(error)) => error.word(),
        Err(ScriptFault::OutOfMemory(_)) => "memory",
    }
}

#[test]
fn refuses_in_order(rt: HostRuntime) -> Result<(), Fail> {
    for (text, word) in [
        ("", "NotJson"),
        ("[1", "NotJson"),
        ("1.5", "Number"),
        ("[1.5]", "Number"),
        ("[1e3]", "Number"),
        ("[-0]", "Number"),
        ("[9223372036854775808]", "Number"),
        ("{\"a\":[1.5]}", "Number"),
        ("[]", "NoCommand"),
        ("5", "Shape"),
        ("{}", "Shape"),
        ("[[\"attr\",1]]", "Shape"),
        ("[{\"a\":1.5,\"a\":1}]", "Shape"),
        ("[[\"func\",\"f\",[\"a\",\"a\"],1]]", "Shape"),
        ("[[\"class\",\"C\",1,[]]]", "Shape"),
        ("[[\"call\",1,[],[1]]]", "Shape"),
        (
            "[-9223372036854775808,\"a\",[\"func\",\"f\",[\"a\",\"b\"],null]]",
            "read",
        ),
        (
            "[[\"class\",\"C\",[1],[[\"x\",2]],[]],[\"call\",[\"name\",\"C\"],[1]]]",
            "read",
        ),
        ("[[\"setattr\",1,\"x\",[\"bind\",\"y\",true]]]", "read"),
    ] {
        assert!(rt; refusal(rt.alloc(), text.as_bytes()) == word, "{text}");
    }
    assert!(rt; refusal(rt.alloc(), b"[\"\xff\"]") == "NotJson");
    Ok(())
}
