//! The report that a text spells, where it is good.
ghost use Rattle.std.specs.Prelude.{◌≡◌, ◌≤◌, IfOk, IfErr, length};
ghost use Rattle.cpog_base.specs.declared.limits.TheConstants.{LONG_INPUT_LIMIT};
ghost use Rattle.cpog_base.specs.declared.status.Status.TheVariants as status;
ghost use Rattle.line_text.specs.Lines.{lines_of};
ghost use Rattle.refusal_lines.specs.Refusal.{At, Tells};
ghost use Rattle.refusal_lines.specs.Stops.{IsStop};
ghost use Rattle.report_answers.specs.Checked.{IsBadReportAnswer, IsReportRefusal};
ghost use Rattle.report_answers.specs.Reasons as reasons;
ghost use Rattle.report_judge.specs.Good.{IsGood};
ghost use Rattle.report_text.specs.Spelling.{SpellsReport};

use crate::reasons::refusal_of;
use cpog_base::Status;
use refusal_lines::{Refusal, Stop, refuse};
use report_judge::{Reason, Verdict, judge};
use report_reader::{ReportFault, read_report};
use report_text::Report;
use std::alloc::Global;

/// The report that the bytes spell.
fn report_in(alloc: Global, bytes: &[u8]) -> Result<Report, Stop>
    requires { length bytes.now ≤ LONG_INPUT_LIMIT }
    ensures spelled { IfOk result (λ r. SpellsReport r (lines_of bytes.now)) }
    ensures err { IfErr result (IsStop (At status.Text (IsBadReportAnswer bytes.now))) }
{
    match read_report(alloc, bytes) {
        Ok(report) => Ok(report),
        Err(ReportFault::BadSection(line)) => {
            Err(refuse(alloc, Status::Text, &Refusal::Text(line)))
        }
        Err(ReportFault::Memory) => Err(Stop::Memory),
    }
}

/// Tells why a report isn't good.
fn refuse_reason(alloc: Global, report: &Report, reason: Reason) -> Stop
    ensures { IsStop (Tells status.No (reasons.refusal_of report.now reason)) result }
{
    match refusal_of(alloc, report, reason) {
        Ok(refusal) => refuse(alloc, Status::No, &refusal),
        Err(_) => Stop::Memory,
    }
}

/// The report that the bytes spell, where it is good.
pub(crate) fn good_report(alloc: Global, bytes: &[u8]) -> Result<Report, Stop>
    requires { length bytes.now ≤ LONG_INPUT_LIMIT }
    ensures spelled { IfOk result (λ r. SpellsReport r (lines_of bytes.now)) }
    ensures good { IfOk result IsGood }
    ensures err { IfErr result (IsStop (IsReportRefusal bytes.now)) }
{
    let report = report_in(alloc, bytes)?;
    match judge(alloc, &report)? {
        Verdict::Yes => Ok(report),
        Verdict::No(reason) => Err(refuse_reason(alloc, &report, reason)),
    }
}
