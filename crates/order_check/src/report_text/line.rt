//! The line of a class.

ghost use Rattle.order_check.specs.Below.{codes, OnOk, escaped};
ghost use Rattle.std.specs.Prelude.{◌≡◌, ◌++◌};
ghost use Rattle.order_check.specs.Hierarchy.{AreKeyed};
ghost use Rattle.order_check.specs.ReportText.ReportText.{line_word, line_told, line_text};

use crate::report_text::name::{push_name, push_names};
use crate::report_text::pairs::push_pairs;
use crate::{Entry, Line};
use py_node::OutOfMemory;
use script_text::reply_text::class::push_end;
use script_text::reply_text::escape::push_escaped;

// The line of a class: a word, the class, and what is told of it.
pub(crate) fn push_line(
    out: &mut Vec<u8>,
    entries: &[Entry],
    class: &Entry,
    line: &Line,
) -> Result<(), OutOfMemory>
    requires { AreKeyed entries.now }
    ensures { OnOk result (out.new.items ≡ out.old.items ++ line_text entries.now class.now line.now) }
{
    push_head(out, word_of(line), class.name.as_str())?;
    push_told(out, entries, line)?;
    push_end(out)
}

// The word that a line begins with.
fn word_of(line: &Line) -> &'static str
    ensures { result.now ≡ line_word line.now }
{
    match line {
        Line::Order(_) => "order",
        Line::Cycle(_) => "cycle",
        Line::Without(_) => "none",
    }
}

// Begins a line.
fn push_head(out: &mut Vec<u8>, word: &str, name: &str) -> Result<(), OutOfMemory>
    ensures { OnOk result (out.new.items ≡ out.old.items ++
        word.now ++ codes " " ++ escaped name.now ++ codes ": ") }
{
    out.extend_from_slice(word.as_bytes())?;
    out.extend_from_slice(b" ")?;
    push_escaped(out, name.as_bytes())?;
    out.extend_from_slice(b": ")?;
    Ok(())
}

// What a line tells of its class.
fn push_told(out: &mut Vec<u8>, entries: &[Entry], line: &Line) -> Result<(), OutOfMemory>
    requires { AreKeyed entries.now }
    ensures { OnOk result (out.new.items ≡ out.old.items ++ line_told entries.now line.now) }
{
    match line {
        Line::Order(keys) => push_names(out, entries, keys),
        Line::Cycle(pairs) => push_pairs(out, entries, pairs),
        Line::Without(base) => push_name(out, entries, *base),
    }
}
