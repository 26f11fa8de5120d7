//! What `check` answers to a report: that it is good, or the first part that fails.
ghost use Rattle.std.specs.Prelude.{◌≡◌, ◌≤◌, IfOk, IfErr, length};
ghost use Rattle.cpog_base.specs.declared.limits.TheConstants.{LONG_INPUT_LIMIT};
ghost use Rattle.refusal_lines.specs.Stops.{IsStop};
ghost use Rattle.report_answers.specs.Checked.{yes_text, IsCheckAnswer};

use crate::reports::good_report;
use cpog_base::{Memory, Status};
use refusal_lines::{Answer, Stop};
use std::alloc::Global;

/// The line that says that a report is good.
fn yes_line(alloc: Global) -> Result<Vec<u8>, Memory>
    ensures { IfOk result (λ line. line.items ≡ yes_text) }
{
    let line = format!(in alloc; "cpog: yes\n")?;
    Ok(line.into_bytes())
}

/// Whether the report that the bytes spell is good.
///
/// # Errors
///
/// The answer that refuses the text or the report, or want of memory.
pub fn answer_check(alloc: Global, bytes: &[u8]) -> Result<Answer, Stop>
    requires { length bytes.now ≤ LONG_INPUT_LIMIT }
    ensures ok { IfOk result (λ a. IsCheckAnswer bytes.now a.status a.output.items) }
    ensures err { IfErr result (IsStop (IsCheckAnswer bytes.now)) }
{
    let _good = good_report(alloc, bytes)?;
    let output = yes_line(alloc)?;
    Ok(Answer {
        status: Status::Ok,
        output,
    })
}
