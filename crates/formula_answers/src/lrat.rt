//! What `lrat` answers to a formula and a log: whether the log refutes the formula.
ghost use Rattle.std.specs.Prelude.{◌≡◌, ◌≤◌, IfOk, IfErr, length};
ghost use Rattle.formula_answers.specs.Judged.{Spell, IsJoinedRefusal, IsLratAnswer, refuted_text};
ghost use Rattle.refusal_lines.specs.Stops.{IsStop};

use clause_arena::Cnf;
use cpog_base::{Counted, LONG_INPUT_LIMIT, Memory, Status, VARIABLE_LIMIT};
use dimacs_text::{CnfFault, read_joined};
use proof_check::{Log, LogVerdict, check_log};
use refusal_lines::{Answer, Refusal, Stop, refuse};
use std::alloc::Global;

/// The formula and the log that the bytes spell.
fn joined_of(alloc: Global, bytes: &[u8]) -> Result<(Cnf, Log), Stop>
    requires { length bytes.now ≤ LONG_INPUT_LIMIT }
    ensures spelled { IfOk result (λ x. Spell bytes.now x.0.variables x.0.clauses.clauses x.1.lines) }
    ensures few { IfOk result (λ x. x.0.variables ≤ VARIABLE_LIMIT) }
    ensures err { IfErr result (IsStop (IsJoinedRefusal bytes.now)) }
{
    match read_joined(alloc, bytes) {
        Ok(joined) => Ok(joined),
        Err(CnfFault::BadLine(line)) => Err(refuse(alloc, Status::Text, &Refusal::Text(line))),
        Err(CnfFault::Limit) => {
            let refusal = Refusal::Limit {
                what: Counted::Variables,
                number: VARIABLE_LIMIT,
            };
            Err(refuse(alloc, Status::Limit, &refusal))
        }
        Err(CnfFault::Memory) => Err(Stop::Memory),
    }
}

/// The line that says that a log refutes its formula.
fn refuted_line(alloc: Global) -> Result<Vec<u8>, Memory>
    ensures { IfOk result (λ line. line.items ≡ refuted_text) }
{
    let line = format!(in alloc; "cpog: refuted\n")?;
    Ok(line.into_bytes())
}

/// The answer to a formula and a log.
pub fn answer_lrat(alloc: Global, bytes: &[u8]) -> Result<Answer, Stop>
    requires { length bytes.now ≤ LONG_INPUT_LIMIT }
    ensures ok { IfOk result (λ a. IsLratAnswer bytes.now a.status a.output.items) }
    ensures err { IfErr result (IsStop (IsLratAnswer bytes.now)) }
{
    let (formula, log) = joined_of(alloc, bytes)?;
    match check_log(alloc, &formula, &log)? {
        LogVerdict::Refuted => {
            let output = refuted_line(alloc)?;
            Ok(Answer {
                status: Status::Ok,
                output,
            })
        }
        LogVerdict::NoEmptyClause => Err(refuse(alloc, Status::No, &Refusal::NoEmptyClause)),
        LogVerdict::BadLine { line, hint } => {
            let refusal = Refusal::NoLine { line, hint };
            Err(refuse(alloc, Status::No, &refusal))
        }
    }
}
