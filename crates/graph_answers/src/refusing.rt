//! The refusals that name something: each is told by its line, at its status.
ghost use Rattle.cpog_base.specs.declared.status.Status.TheVariants as status;
ghost use Rattle.refusal_lines.specs.declared.refusal.Refusal.TheVariants as refusal;
ghost use Rattle.refusal_lines.specs.Refusal.{At, Tells};
ghost use Rattle.graph_answers.specs.Refusals.{IsNamesLine};
ghost use Rattle.refusal_lines.specs.Stops.{IsStop};

use cpog_base::{Name, Status};
use pg_normal::NameFault;
use refusal_lines::{Refusal, Stop, refuse};
use std::alloc::Global;

/// Tells a fault of names.
pub(crate) fn refuse_names(alloc: Global, fault: NameFault) -> Stop
    ensures { IsStop (At status.Names (IsNamesLine fault)) result }
{
    let refusal = match fault {
        NameFault::Duplicate { line, name } => Refusal::Duplicate { line, name },
        NameFault::UnknownGraph { line, name } => Refusal::UnknownGraph { line, name },
        NameFault::UnknownParam { line, name } => Refusal::UnknownParam { line, name },
        NameFault::Memory => return Stop::Memory,
    };
    refuse(alloc, Status::Names, &refusal)
}

/// Names the parameter that the scenario on a line leaves open.
pub(crate) fn refuse_unbound(alloc: Global, line: u32, param: &str) -> Stop
    ensures { IsStop (Tells status.Names (refusal.Unbound line param.now)) result }
{
    match Name::new(alloc, param) {
        Ok(name) => refuse(alloc, Status::Names, &Refusal::Unbound { line, name }),
        Err(_) => Stop::Memory,
    }
}

/// Names the operation that is before itself, and its scenario.
pub(crate) fn refuse_cycle(alloc: Global, scenario: &str, operation: &str) -> Stop
    ensures { IsStop (Tells status.Cyclic (refusal.Cyclic scenario.now operation.now)) result }
{
    match (Name::new(alloc, scenario), Name::new(alloc, operation)) {
        (Ok(scenario), Ok(operation)) => {
            let refusal = Refusal::Cyclic {
                scenario,
                operation,
            };
            refuse(alloc, Status::Cyclic, &refusal)
        }
        _ => Stop::Memory,
    }
}

/// Names two equal scenarios.
pub(crate) fn refuse_equal(alloc: Global, later: &str, earlier: &str) -> Stop
    ensures { IsStop (Tells status.Equal (refusal.Equal later.now earlier.now)) result }
{
    match (Name::new(alloc, later), Name::new(alloc, earlier)) {
        (Ok(later), Ok(earlier)) => refuse(
            alloc,
            Status::Equal,
            &Refusal::Equal { later, earlier },
        ),
        _ => Stop::Memory,
    }
}
