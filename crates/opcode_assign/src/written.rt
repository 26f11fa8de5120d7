//! What a writer of logs needs to know of one. That a literal has a variable above 0 is known once it is read.
ghost use Rattle.std.specs.Prelude.{◌≡◌, ◌<◌};
ghost use Rattle.std.specs.List.{AllByRecursion};
ghost use Rattle.proof_check.specs.Records.{IsLog};
ghost use Rattle.proof_check.specs.Refs.{line_of_ref};
ghost use Rattle.opcode_assign.specs.Logs.{HasVariable, has_variables};

use clause_arena::Lit;
use proof_check::{LineRef, Log};

fn read_literals(lits: &[Lit])
    ensures { AllByRecursion HasVariable lits.now }
{
    for k in 0..lits.len() {
        let _variable = lits[k].var();
    }
}

fn read_line(line: LineRef<'_>)
    ensures { has_variables (line_of_ref line.entry) }
{
    match line {
        LineRef::Add {
            id: _,
            lits,
            hints: _,
        } => read_literals(lits),
        LineRef::Del { ids: _ } => {}
    }
}

/// Reads each literal of a log.
pub(crate) fn read_log(log: &Log)
    ensures variables { AllByRecursion has_variables log.now.lines }
    ensures log { IsLog log.now }
{
    for i in 0..log.len() {
        read_line(log.line(i));
    }
}
