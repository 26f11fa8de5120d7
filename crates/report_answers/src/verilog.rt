//! What `verilog` answers to a report: the module of a good one.
ghost use Rattle.std.specs.Prelude.{◌≡◌, ◌≤◌, IfOk, IfErr, length};
ghost use Rattle.cpog_base.specs.declared.limits.TheConstants.{LONG_INPUT_LIMIT};
ghost use Rattle.refusal_lines.specs.Stops.{IsStop};
ghost use Rattle.report_answers.specs.Checked.{IsVerilogAnswer};

use crate::reports::good_report;
use cpog_base::Status;
use netlist_verilog::write_module;
use refusal_lines::{Answer, Stop};
use std::alloc::Global;

/// The module of the report that the bytes spell, where it is good.
///
/// # Errors
///
/// The answer that refuses the text or the report, or want of memory.
pub fn answer_verilog(alloc: Global, bytes: &[u8]) -> Result<Answer, Stop>
    requires { length bytes.now ≤ LONG_INPUT_LIMIT }
    ensures ok { IfOk result (λ a. IsVerilogAnswer bytes.now a.status a.output.items) }
    ensures err { IfErr result (IsStop (IsVerilogAnswer bytes.now)) }
{
    let report = good_report(alloc, bytes)?;
    let output = write_module(alloc, report.design())?;
    Ok(Answer {
        status: Status::Ok,
        output,
    })
}
