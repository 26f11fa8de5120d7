//! What is left open between the bounds.
ghost use Rattle.std.specs.Prelude.{◌≡◌, ◌↔◌, ◌<◌, IsTrue, length, OnOk, IfErr};
ghost use Rattle.report_judge.specs.Known.{printed_lower, Attains, IsOpenBetween, OpenFollows, ReachesBudget};
ghost use Rattle.report_judge.specs.Parts.{Part};
ghost use Rattle.report_judge.specs.Steps.{IsBasis, IsFaultAt};

use crate::basis::Basis;
use crate::evidence::printed_lower;
use crate::fault::Fault;
use crate::reason::Reason;
use crate::template::{follow, is_small};
use cnf_build::OpenPart;
use proof_check::LogVerdict;
use report_text::Report;
use std::alloc::Global;

/// Whether the open part is one between the bounds. Where the bounds differ there is a gate, and so more than one bit.
pub(crate) fn is_open_between(report: &Report, basis: &Basis) -> bool
    requires basis { IsBasis report.now.scenarios basis.now }
    requires count { Attains (length report.now.encoding.gates.gates) report.now.bound }
    ensures { IsTrue result ↔ IsOpenBetween report.now.patterns report.now.bits basis.now.classes.columns (printed_lower report.now.bound) (length report.now.encoding.gates.gates) report.now.open_part }
{
    let lo = printed_lower(report.bound());
    let hi = report.encoding().gates().len();
    let classes = &basis.classes;
    let given = report.given();
    let bits = report.bits();
    match report.open_part() {
        OpenPart::Closed => lo == hi,
        OpenPart::Log {
            template,
            gates,
            ..
        } => lo < hi && (*gates == lo && is_small(*template, classes, given, bits, *gates)),
        OpenPart::Size { template, gates } => {
            lo < hi && (*gates == lo && !is_small(*template, classes, given, bits, *gates))
        }
    }
}

/// Tests that the lines of an open log follow.
pub(crate) fn check_followed(alloc: Global, report: &Report, basis: &Basis) -> Result<(), Fault>
    requires basis { IsBasis report.now.scenarios basis.now }
    requires between { IsOpenBetween report.now.patterns report.now.bits basis.now.classes.columns (printed_lower report.now.bound) (length report.now.encoding.gates.gates) report.now.open_part }
    ensures ok { OnOk result (OpenFollows report.now.patterns report.now.bits basis.now.classes.columns report.now.open_part) }
    ensures err { IfErr result (IsFaultAt report.now Part.Followed) }
{
    match report.open_part() {
        OpenPart::Closed => Ok(()),
        OpenPart::Log {
            template,
            gates,
            log,
        } => {
            let verdict = follow(
                alloc,
                *template,
                &basis.classes,
                report.given(),
                report.bits(),
                *gates,
                log,
            )?;
            match verdict {
                LogVerdict::Refuted => Ok(()),
                LogVerdict::NoEmptyClause => Ok(()),
                LogVerdict::BadLine { line, hint } => {
                    Err(Fault::Fails(Reason::OpenLine { line, hint }))
                }
            }
        }
        OpenPart::Size {
            template: _,
            gates: _,
        } => Ok(()),
    }
}

/// Whether the numbers of an open log are at least the budget.
pub(crate) fn reaches_budget(report: &Report) -> bool
    ensures { IsTrue result ↔ ReachesBudget report.now.budget report.now.open_part }
{
    match report.open_part() {
        OpenPart::Log { log, .. } => log.numbers() >= u64::from(report.budget()),
        OpenPart::Closed => true,
        OpenPart::Size {
            template: _,
            gates: _,
        } => true,
    }
}
