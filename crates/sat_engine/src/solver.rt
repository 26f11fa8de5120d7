//! The entries: from a formula to what is found of it.
ghost use Rattle.std.specs.Prelude.{◌≡◌, ◌+◌, ◌<◌, ◌≤◌, ◌^◌, [], ℕ, List, length, true, false, IfOk};
ghost use Rattle.proof_check.specs.Progress.{StaysBelow};
ghost use Rattle.proof_check.specs.Following.{Refutes};
ghost use Rattle.sat_engine.specs.Steps.{IsWithin};
ghost use Rattle.clause_arena.specs.Clauses.{Clause, In};
ghost use Rattle.sat_trail.specs.Trails.{true_lits, IsTrail};
ghost use Rattle.clause_arena.specs.Arenas.{literals, clause_at};
ghost use Rattle.sat_engine.specs.Searches.{AreFilled};
ghost use Rattle.sat_engine.specs.Outcomes.{IsOutcomeOf, AreAssigned};

use crate::decisions::Decisions;
use crate::learn::refute;
use crate::load::{first_empty, load};
use crate::outcome::Outcome;
use crate::preferences::Preferences;
use crate::search::search;
use crate::units::assign_units;
use crate::verdict::Verdict;
use crate::workspace::Workspace;
use clause_arena::{Cnf, Lit};
use cpog_base::Memory;
use proof_check::Log;
use sat_trail::Trail;
use std::alloc::Global;

/// The values of all variables.
fn assignment(alloc: Global, trail: &Trail) -> Result<Vec<bool>, Memory>
    ensures { IfOk result (λ values. AreAssigned trail.now values.items trail.now.variables) }
{
    let count = trail.variables();
    let mut values = Vec::new(alloc);
    'variables: for before in 0..count {
        values.push(trail.is_true(Lit::from_var(before + 1, false)))?;
    }
    Ok(values)
}

/// The refutation of a formula whose clause with this number, from 0, is empty.
fn refuted_at_once(alloc: Global, cnf: &Cnf, id: u32) -> Result<Log, Memory>
    requires few { length cnf.now.clauses.clauses < 2 ^ 31 }
    requires is_clause { id < length cnf.now.clauses.clauses }
    requires empty { clause_at cnf.now.clauses.clauses id ≡ [] }
    ensures clauses { IfOk result (λ log. log.first ≡ length cnf.now.clauses.clauses) }
    ensures refutes { IfOk result (λ log. Refutes cnf.now.variables cnf.now.clauses.clauses log.lines) }
    ensures first { IfOk result (λ log. (budget : ℕ) → 0 < budget → StaysBelow budget log.lines) }
{
    let count = cnf.clauses.len();
    let mut log = Log::new(alloc, count);
    log.reserve(1, 1)?;
    log.push_add_reserved(count + 1, &[], &[id + 1]);
    Ok(log)
}

/// Decides a formula, with at most so many numbers in the log of an answer that is open, but for its last line.
///
/// # Errors
///
/// `Memory` where none is left.
pub fn solve(alloc: Global, cnf: &Cnf, budget: u32) -> Result<Outcome, Memory>
    requires budget { 1 ≤ budget }
    requires budget_few { budget ≤ 2 ^ 23 }
    requires variables_few { cnf.now.variables ≤ 2 ^ 24 }
    requires size { literals cnf.now.clauses.clauses + length cnf.now.clauses.clauses ≤ 2 ^ 28 }
    ensures { IfOk result (IsOutcomeOf cnf.now.variables cnf.now.clauses.clauses budget) }
{
    solve_in_blocks(alloc, cnf, budget, &Preferences::none(alloc))
}

/// Decides a formula as `solve` does, with the variables of each block before those of later blocks, and with first
/// values that are preferred.
///
/// # Errors
///
/// `Memory` where none is left.
pub fn solve_in_blocks(
    alloc: Global,
    cnf: &Cnf,
    budget: u32,
    preferences: &Preferences,
) -> Result<Outcome, Memory>
    requires budget { 1 ≤ budget }
    requires budget_few { budget ≤ 2 ^ 23 }
    requires variables_few { cnf.now.variables ≤ 2 ^ 24 }
    requires size { literals cnf.now.clauses.clauses + length cnf.now.clauses.clauses ≤ 2 ^ 28 }
    ensures { IfOk result (IsOutcomeOf cnf.now.variables cnf.now.clauses.clauses budget) }
{
    if let Some(id) = first_empty(&cnf.clauses) {
        return Ok(Outcome::Refuted(refuted_at_once(alloc, cnf, id)?));
    }
    let mut trail = Trail::new(alloc, cnf.variables)?;
    let mut known = load(alloc, &cnf.clauses, &trail)?;
    let mut order = Decisions::new(alloc, cnf.variables, preferences)?;
    let mut work = Workspace {
        seen: vec![in alloc; false; cnf.variables as usize]?,
        lits: Vec::new(alloc),
        hints: Vec::new(alloc),
    };
    if let Some(conflict) = assign_units(&known.arena, &mut trail) {
        refute(&mut known, &trail, &mut work, conflict)?;
        return Ok(Outcome::Refuted(known.log));
    }
    let verdict = search(&mut known, &mut trail, &mut work, &mut order, budget)?;
    match verdict {
        Verdict::Sat => Ok(Outcome::Sat(assignment(alloc, &trail)?)),
        Verdict::Refuted => Ok(Outcome::Refuted(known.log)),
        Verdict::Open => Ok(Outcome::Open(known.log)),
    }
}
