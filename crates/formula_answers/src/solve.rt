//! What `solve` answers to the text of a formula: a satisfying assignment, a log that refutes it, or one that spends the
//! budget.
ghost use Rattle.std.specs.Prelude.{◌≡◌, ◌+◌, ◌≤◌, ◌^◌, ◌++◌, ◌∷◌, [], IfOk, IfErr, OnOk, length, map, not, string_bytes};
ghost use Rattle.clause_arena.specs.Arenas.{literals};
ghost use Rattle.dimacs_text.specs.Formulas.{SpellsFormula};
ghost use Rattle.dimacs_text.specs.Logs.{lit_word};
ghost use Rattle.dimacs_text.specs.Writing.{blanked};
ghost use Rattle.text_rows.specs.Lines.{free_lines};
ghost use Rattle.formula_answers.specs.Solved as solved;
ghost use Rattle.formula_answers.specs.Solved.{true_literals, values_text, IsFormulaRefusal, IsSolveAnswer};
ghost use Rattle.refusal_lines.specs.Stops.{IsStop};
ghost use Rattle.formula_answers.specs.Written.{IsWritten, IsFindWritten};

use clause_arena::Cnf;
use cpog_base::{BUDGET_LIMIT, Counted, LONG_INPUT_LIMIT, Memory, Status, VARIABLE_LIMIT};
use dimacs_text::{CnfFault, read_cnf, write_log};
use proof_check::Log;
use refusal_lines::{Answer, Refusal, Stop, refuse};
use sat_engine::{Outcome, solve};
use std::alloc::{AllocError, Global};
use std::fmt::Write;

/// The formula that a text spells.
fn formula_of(alloc: Global, bytes: &[u8]) -> Result<Cnf, Stop>
    requires { length bytes.now ≤ LONG_INPUT_LIMIT }
    ensures spells { IfOk result (λ f. SpellsFormula (free_lines bytes.now) f.variables f.clauses.clauses) }
    ensures few { IfOk result (λ f. f.variables ≤ VARIABLE_LIMIT) }
    ensures size { IfOk result (λ f. literals f.clauses.clauses + length f.clauses.clauses ≤ 2 ^ 28) }
    ensures err { IfErr result (IsStop (IsFormulaRefusal bytes.now)) }
{
    match read_cnf(alloc, bytes) {
        Ok(formula) => Ok(formula),
        Err(CnfFault::BadLine(line)) => Err(refuse(alloc, Status::Text, &Refusal::Text(line))),
        Err(CnfFault::Limit) => {
            let refusal = Refusal::Limit {
                what: Counted::Variables,
                number: VARIABLE_LIMIT,
            };
            Err(refuse(alloc, Status::Limit, &refusal))
        }
        Err(CnfFault::Memory) => Err(Stop::Memory),
    }
}

/// Writes the literal that the value of a variable makes true, with a blank behind it.
fn put_value(out: &mut String, variable: usize, value: bool) -> Result<(), AllocError>
    ensures { OnOk result (string_bytes out.new ≡ string_bytes out.old ++ (lit_word (record { var = variable; negated = not value }) ++ 32 ∷ [])) }
{
    if value {
        write!(out, "{} ", variable)
    } else {
        write!(out, "-{} ", variable)
    }
}

/// Writes the literal of each variable, with a blank behind it.
fn put_values(out: &mut String, values: &[bool]) -> Result<(), AllocError>
    ensures { OnOk result (string_bytes out.new ≡ string_bytes out.old ++ blanked (map lit_word (true_literals 1 values.now))) }
{
    'values: for i in 0..values.len() {
        put_value(out, i + 1, values[i])?;
    }
    Ok(())
}

/// The text of a satisfying assignment.
fn values_text(alloc: Global, values: &[bool]) -> Result<Vec<u8>, Memory>
    ensures { IfOk result (λ text. text.items ≡ values_text values.now) }
{
    let mut out = String::from_str(alloc, "s SATISFIABLE\nv ")?;
    put_values(&mut out, values)?;
    out.push_str("0\n")?;
    Ok(out.into_bytes())
}

/// A line, and the text of a log behind it.
fn log_text(alloc: Global, line: &str, log: &Log) -> Result<Vec<u8>, Memory>
    ensures text { IfOk result (λ text. text.items ≡ solved.log_text line.now log.now.lines) }
    ensures written { OnOk result (IsWritten log.now.first log.now.lines) }
{
    let log = write_log(alloc, log)?;
    let mut text = format!(in alloc; "{line}\n")?.into_bytes();
    text.extend_from_slice(log.as_slice())?;
    Ok(text)
}

/// The text of what is found.
fn outcome_text(alloc: Global, outcome: &Outcome) -> Result<Vec<u8>, Memory>
    ensures text { IfOk result (λ text. text.items ≡ solved.outcome_text outcome.now) }
    ensures written { OnOk result (IsFindWritten outcome.now) }
{
    match outcome {
        Outcome::Sat(values) => values_text(alloc, values.as_slice()),
        Outcome::Refuted(log) => log_text(alloc, "s UNSATISFIABLE", log),
        Outcome::Open(log) => log_text(alloc, "s UNKNOWN", log),
    }
}

/// The answer to the text of a formula: what a search within the budget finds.
pub fn answer_solve(alloc: Global, budget: u32, bytes: &[u8]) -> Result<Answer, Stop>
    requires some_budget { 1 ≤ budget }
    requires few_budget { budget ≤ BUDGET_LIMIT }
    requires few { length bytes.now ≤ LONG_INPUT_LIMIT }
    ensures ok { IfOk result (λ a. IsSolveAnswer budget bytes.now a.status a.output.items) }
    ensures err { IfErr result (IsStop (IsSolveAnswer budget bytes.now)) }
{
    let formula = formula_of(alloc, bytes)?;
    let outcome = solve(alloc, &formula, budget)?;
    let output = outcome_text(alloc, &outcome)?;
    Ok(Answer {
        status: Status::Ok,
        output,
    })
}
