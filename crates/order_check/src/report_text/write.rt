//! The lines of a report.

ghost use Rattle.order_check.specs.Below.{map, OnOk, IfOk};
ghost use Rattle.std.specs.Prelude.{◌≡◌, ◌++◌};
ghost use Rattle.order_check.specs.Hierarchy.{AreKeyed};
ghost use Rattle.order_check.specs.Report.{IsReport, AreFound};
ghost use Rattle.order_check.specs.HierarchyText.Spelled.{plain_class};
ghost use Rattle.order_check.specs.ReportText.ReportText.{lines_text, report_text};
ghost use Rattle.order_check.specs.ReportText.PlainReport.{plain_report};

use crate::report_text::line::push_line;
use crate::{Entry, Hierarchy, Line, Report};
use py_node::OutOfMemory;
use std::alloc::Global;

/// The text of a report, a line for each class but the first: `order NAME: ` and its linearisation, `none NAME: ` and the
/// first of its bases that has none, or `cycle NAME: ` and each pair of the cycle as `X < Y in LIST`. Of a right report,
/// whose cycles are those that are found, it is the one text that its plain classes give.
#[tactic(auto, unfolding(crate::specs::ReportText::ReportText::lines_text))]
pub fn write_report(
    alloc: Global,
    hierarchy: &Hierarchy,
    report: &Report,
) -> Result<Vec<u8>, OutOfMemory>
    requires { AreKeyed hierarchy.now.entries.items }
    ensures text { IfOk result (λ v. v.items ≡ report_text hierarchy.now.entries.items report.now.lines.items) }
    ensures plain { let h = hierarchy.now.entries.items in let ls = report.now.lines.items in
        IsReport h ls → AreFound h ls → IfOk result (λ v. v.items ≡ plain_report (map plain_class h)) }
{
    let mut out = Vec::new(alloc);
    let entries = hierarchy.entries.as_slice();
    if let [_, others @ ..] = entries {
        push_lines(&mut out, entries, others, &report.lines)?;
    }
    Ok(out)
}

// Each class with its line, as far as there are both.
fn push_lines(
    out: &mut Vec<u8>,
    entries: &[Entry],
    classes: &[Entry],
    lines: &[Line],
) -> Result<(), OutOfMemory>
    requires { AreKeyed entries.now }
    ensures { OnOk result (out.new.items ≡ out.old.items ++ lines_text entries.now classes.now lines.now) }
{
    for (class, line) in classes.iter().zip(lines) {
        push_line(out, entries, class, line)?;
    }
    Ok(())
}
