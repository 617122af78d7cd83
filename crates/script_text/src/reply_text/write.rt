//! The lines of replies, as they are written.

ghost use Rattle.script_text.specs.Below.{map, codes, OnOk, IfOk, string_bytes, reply_of, reply_answer_of, started_of, joined, call_line, answer_line, reply_lines, replies_text};
ghost use Rattle.std.specs.Prelude.{◌≡◌, ◌++◌};

use crate::reply_text::escape::push_escaped;
use py_node::{BodyCall, OutOfMemory, Reply, ReplyAnswer};
use std::alloc::Global;

/// The text of replies, one after another.
pub fn write_replies(alloc: Global, replies: &[Reply]) -> Result<Vec<u8>, OutOfMemory>
    ensures { IfOk result (λ v. v.items ≡ replies_text (map reply_of replies.now)) }
{
    let mut out = Vec::new(alloc);
    for reply in replies {
        push_reply(&mut out, reply)?;
    }
    Ok(out)
}

// The lines of a reply: its calls, and its answer.
fn push_reply(out: &mut Vec<u8>, reply: &Reply) -> Result<(), OutOfMemory>
    ensures { OnOk result (out.new.items ≡ out.old.items ++ reply_lines (reply_of reply.now)) }
{
    for call in &reply.calls {
        push_call(out, call)?;
    }
    push_answer(out, &reply.answer)
}

// The line of a body that was started.
fn push_call(out: &mut Vec<u8>, call: &BodyCall) -> Result<(), OutOfMemory>
    ensures { OnOk result (out.new.items ≡ out.old.items ++ call_line (started_of call.now)) }
{
    out.extend_from_slice(b"call ")?;
    push_escaped(out, call.name.as_bytes())?;
    out.extend_from_slice(b"(")?;
    push_joined(out, &call.args)?;
    out.extend_from_slice(b")\n")?;
    Ok(())
}

// Texts, with a comma and a blank between them.
fn push_joined(out: &mut Vec<u8>, texts: &[String]) -> Result<(), OutOfMemory>
    ensures { OnOk result (out.new.items ≡ out.old.items ++ joined (codes ", ") (map (λ s. string_bytes s) texts.now)) }
{
    if let [first, rest @ ..] = texts {
        out.extend_from_slice(first.as_bytes())?;
        for text in rest {
            out.extend_from_slice(b", ")?;
            out.extend_from_slice(text.as_bytes())?;
        }
    }
    Ok(())
}

// The line of an answer.
fn push_answer(out: &mut Vec<u8>, answer: &ReplyAnswer) -> Result<(), OutOfMemory>
    ensures { OnOk result (out.new.items ≡ out.old.items ++ answer_line (reply_answer_of answer.now)) }
{
    match answer {
        ReplyAnswer::Value(_, text) => {
            out.extend_from_slice(b"= ")?;
            out.extend_from_slice(text.as_bytes())?;
        }
        ReplyAnswer::Raised(raised) => {
            out.extend_from_slice(b"! ")?;
            out.extend_from_slice(raised.kind.word().as_bytes())?;
            out.extend_from_slice(b" ")?;
            out.extend_from_slice(raised.cause.word().as_bytes())?;
        }
        ReplyAnswer::Budget => out.extend_from_slice(b"? Budget")?,
    }
    out.push(b'\n')?;
    Ok(())
}
