//! One attempt at a template.
ghost use Rattle.std.specs.Prelude.{◌≤◌, length, IfOk};
ghost use Rattle.std.specs.List.{All};
ghost use Rattle.clause_arena.specs.Arenas.{literals};
ghost use Rattle.gate_core.specs.Columns.{IsOpenColumn};
ghost use Rattle.gate_template.specs.Variables.{variables};
ghost use Rattle.gate_template.specs.Templates.{shape_of, template};
ghost use Rattle.cnf_build.specs.Sizes.{IsAsked};
ghost use Rattle.sat_engine.specs.Outcomes.{IsOutcomeOf};
ghost use Rattle.opcode_assign.specs.Searches.{IsAttempt};

use crate::written::read_log;
use cnf_build::{Decoded, Template, build, decision_blocks, decode, template_size};
use cpog_base::{BUDGET_LIMIT, Memory, Pattern, TEMPLATE_LIMIT};
use cpog_merge::ClassList;
use proof_check::Log;
use sat_engine::{Outcome, Preferences, solve_in_blocks};
use std::alloc::Global;

/// What an attempt at a template shows.
#[derive(Drop)]
pub(crate) enum Attempt {
    /// Codes, and as many gates as the template has, that serve the classes.
    Found(Decoded),
    /// A log that refutes the template.
    Refuted(Log),
    /// A progress log that spends the budget.
    Open(Log),
    /// The template has too many literals to be made.
    TooLarge,
}

/// What the engine finds of a template. The formula is gone when it returns, before another one is made.
fn decide(
    alloc: Global,
    kind: Template,
    classes: &ClassList,
    given: &[Pattern],
    bits: u8,
    gates: u32,
    budget: u32,
) -> Result<Outcome, Memory>
    requires asked { IsAsked given.now bits gates classes.now.columns }
    requires two { 2 ≤ length given.now }
    requires open_columns { All (IsOpenColumn (length given.now)) classes.now.columns }
    requires size { literals (template kind given.now bits gates classes.now.columns) ≤ TEMPLATE_LIMIT }
    requires some_budget { 1 ≤ budget }
    requires few_budget { budget ≤ BUDGET_LIMIT }
    ensures { IfOk result (IsOutcomeOf (length (variables (shape_of given.now bits gates classes.now.columns)))
        (template kind given.now bits gates classes.now.columns) budget) }
{
    let cnf = build(alloc, kind, classes, given, bits, gates)?;
    let blocks = decision_blocks(alloc, classes, given, bits, gates)?;
    let preferences = Preferences::of_blocks(alloc, cnf.variables, &blocks)?;
    solve_in_blocks(alloc, &cnf, budget, &preferences)
}

/// Tries the template with so many gates, with at most so many numbers in the log.
pub(crate) fn try_template(
    alloc: Global,
    kind: Template,
    classes: &ClassList,
    given: &[Pattern],
    bits: u8,
    gates: u32,
    budget: u32,
) -> Result<Attempt, Memory>
    requires asked { IsAsked given.now bits gates classes.now.columns }
    requires two { 2 ≤ length given.now }
    requires open_columns { All (IsOpenColumn (length given.now)) classes.now.columns }
    requires some_budget { 1 ≤ budget }
    requires few_budget { budget ≤ BUDGET_LIMIT }
    ensures { IfOk result (IsAttempt kind given.now bits classes.now.columns gates budget) }
{
    let size = template_size(kind, classes, given, bits, gates);
    if size.literals > u64::from(TEMPLATE_LIMIT) {
        return Ok(Attempt::TooLarge);
    }
    match decide(alloc, kind, classes, given, bits, gates, budget)? {
        Outcome::Sat(values) => {
            let decoded = decode(alloc, kind, classes, given, bits, gates, &values)?;
            Ok(Attempt::Found(decoded))
        }
        Outcome::Refuted(log) => {
            read_log(&log);
            Ok(Attempt::Refuted(log))
        }
        Outcome::Open(log) => {
            read_log(&log);
            Ok(Attempt::Open(log))
        }
    }
}
