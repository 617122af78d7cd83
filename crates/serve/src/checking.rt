//! A hierarchy that is checked.

ghost use Rattle.serve.specs.Below.{IfOk, Err, AreKeyed, IsReport, AreFound, hierarchy_of, ScriptError as Refusal};
ghost use Rattle.std.specs.Prelude.{◌≡◌};
ghost use Rattle.serve.specs.Headline.{IsReportOf};

use order_check::hierarchy_text::read_hierarchy;
use order_check::report_text::write_report;
use order_check::{Hierarchy, Report, check, check_par};
use outside::words::Pace;
use py_node::OutOfMemory;
use script_text::json_text::ScriptFault;
use std::thread::Threads;

/// The report of the hierarchy that bytes spell.
pub fn check_text<R: AllocGlobal + Threads + Sync>(
    rt: &R,
    bytes: &[u8],
    pace: Pace,
) -> Result<Vec<u8>, ScriptFault>
    ensures text { IfOk result (λ v. IsReportOf bytes.now v.items) }
    ensures script { (e : Refusal) → result ≡ Err (ScriptFault.Script e) → hierarchy_of bytes.now ≡ Err e }
{
    let hierarchy = read_hierarchy(rt.alloc(), bytes)?;
    match report_of(rt, &hierarchy, pace) {
        Ok(report) => match write_report(rt.alloc(), &hierarchy, &report) {
            Ok(text) => Ok(text),
            Err(error) => Err(ScriptFault::OutOfMemory(error)),
        },
        Err(error) => Err(ScriptFault::OutOfMemory(error)),
    }
}

// The report of a hierarchy, whose orders are found at this pace.
fn report_of<R: AllocGlobal + Threads + Sync>(
    rt: &R,
    hierarchy: &Hierarchy,
    pace: Pace,
) -> Result<Report, OutOfMemory>
    requires { AreKeyed hierarchy.now.entries.items }
    ensures report { IfOk result (λ r. IsReport hierarchy.now.entries.items r.lines.items) }
    ensures cycles { IfOk result (λ r. AreFound hierarchy.now.entries.items r.lines.items) }
{
    match pace {
        Pace::Single => check(rt.alloc(), hierarchy),
        Pace::Parallel => check_par(rt, rt.alloc(), hierarchy),
    }
}
