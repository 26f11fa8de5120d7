//! The refusal of a report that isn't good: the names of what its reason speaks of.
ghost use Rattle.std.specs.Prelude.{◌≡◌, IfOk};
ghost use Rattle.netlist_verilog.specs.Wires.{name_of};
ghost use Rattle.report_answers.specs.Reasons as reasons;

use cpog_base::{Memory, Name, Names, OpId, ScenId};
use refusal_lines::Refusal;
use report_judge::Reason;
use report_text::Report;
use std::alloc::Global;

/// The name at a place, and none past the last.
fn name_at(names: &Names, place: u8) -> &str
    ensures { result.now ≡ name_of names.now place }
{
    let place = u32::from(place);
    if place < names.len() {
        names.get(place)
    } else {
        ""
    }
}

/// The name of a scenario.
fn scenario_of(alloc: Global, report: &Report, s: ScenId) -> Result<Name, Memory>
    ensures { IfOk result (λ name. name ≡ name_of report.now.scenario_names s.0) }
{
    Name::new(alloc, name_at(report.scenario_names(), s.0))
}

/// The name of an operation.
fn operation_of(alloc: Global, report: &Report, v: OpId) -> Result<Name, Memory>
    ensures { IfOk result (λ name. name ≡ name_of report.now.names v.0) }
{
    Name::new(alloc, name_at(report.names(), v.0))
}

/// The refusal that names a reason.
pub(crate) fn refusal_of(alloc: Global, report: &Report, reason: Reason) -> Result<Refusal, Memory>
    ensures { IfOk result (λ refusal. refusal ≡ reasons.refusal_of report.now reason) }
{
    let refusal = match reason {
        Reason::Cyclic(s, v) => Refusal::NoCyclic {
            scenario: scenario_of(alloc, report, s)?,
            operation: operation_of(alloc, report, v)?,
        },
        Reason::Equal(later, earlier) => Refusal::NoEqual {
            later: scenario_of(alloc, report, later)?,
            earlier: scenario_of(alloc, report, earlier)?,
        },
        Reason::Codes(later, earlier) => Refusal::NoCodes {
            later: scenario_of(alloc, report, later)?,
            earlier: scenario_of(alloc, report, earlier)?,
        },
        Reason::Given(s) => Refusal::NoGiven(scenario_of(alloc, report, s)?),
        Reason::Operation(s, v) => Refusal::NoOperation {
            scenario: scenario_of(alloc, report, s)?,
            operation: operation_of(alloc, report, v)?,
        },
        Reason::Order(s, u, v) => Refusal::NoOrder {
            scenario: scenario_of(alloc, report, s)?,
            first: operation_of(alloc, report, u)?,
            second: operation_of(alloc, report, v)?,
        },
        Reason::Netlist => Refusal::NoNetlist,
        Reason::Count => Refusal::NoCount,
        Reason::Evidence => Refusal::NoEvidence,
        Reason::EvidenceCondition(member) => Refusal::NoEvidenceCondition(member),
        Reason::RefutationLine { line, hint } => Refusal::NoRefutationLine { line, hint },
        Reason::RefutationNoEmptyClause => Refusal::NoRefutationEmpty,
        Reason::Open => Refusal::NoOpen,
        Reason::OpenLine { line, hint } => Refusal::NoOpenLine { line, hint },
        Reason::OpenShort => Refusal::NoOpenShort,
    };
    Ok(refusal)
}
