//! The search (Eén and Sörensson, MiniSat, 2003): propagate and decide until a clause is false; at level 0 that
//! refutes the formula, else learn a clause and go back to where it makes a literal true. It ends too where every
//! variable has a value, and where the log has as many numbers as the budget.
ghost use Rattle.std.specs.Prelude.{◌≡◌, ◌+◌, ◌<◌, ◌≤◌, ◌^◌, List, length, IfOk, MatchOption};
ghost use Rattle.proof_check.specs.Lines.{numbers};
ghost use Rattle.sat_trail.specs.Propagation.{IsFalseIn};
ghost use Rattle.watch_lists.specs.Watched.{AreRearranged};
ghost use Rattle.clause_arena.specs.Clauses.{Clause};
ghost use Rattle.sat_trail.specs.Trails.{true_lits};
ghost use Rattle.clause_arena.specs.Arenas.{clause_at};
ghost use Rattle.watch_lists.specs.Watching.{IsFit, IsFitBelow};
ghost use Rattle.sat_engine.specs.Findings.{AllQuiet};
ghost use Rattle.sat_engine.specs.Lessons.{IsClear};
ghost use Rattle.sat_engine.specs.Searches.{IsSearching, AreListed, IsLogged, IsSized, AllAssigned};
ghost use Rattle.sat_engine.specs.Verdicts.{IsVerdict};

use crate::decisions::Decisions;
use crate::known::Known;
use crate::learn::{learn, refute};
use crate::restarts::Restarts;
use crate::verdict::Verdict;
use crate::workspace::Workspace;
use cpog_base::Memory;
use sat_trail::Trail;
use watch_lists::Propagation;

/// Decides until a clause is false, or until every variable has a value.
pub fn to_conflict(known: &mut Known, trail: &mut Trail, order: &mut Decisions<'_>) -> Option<u32>
    requires searching { IsSearching known.old.arena.clauses trail.old }
    requires listed { AreListed known.old.arena.clauses known.old.watches trail.old }
    requires fit { IsFit known.old.watches known.old.arena.clauses trail.old }
    ensures variables { trail.new.variables ≡ trail.old.variables }
    ensures log { known.new.log ≡ known.old.log }
    ensures sets { AreRearranged known.old.arena.clauses known.new.arena.clauses }
    ensures searching { IsSearching known.new.arena.clauses trail.new }
    ensures listed { AreListed known.new.arena.clauses known.new.watches trail.new }
    ensures outcome { MatchOption result (AllAssigned trail.new × AllQuiet known.new.arena.clauses (true_lits trail.new.entries)) (λ id. (id < length known.new.arena.clauses) × IsFalseIn (clause_at known.new.arena.clauses id) (true_lits trail.new.entries) × IsFitBelow known.new.watches known.new.arena.clauses trail.new trail.new.level) }
{
    'decisions: loop {
        if let Propagation::Conflict(id) = known.watches.propagate(&mut known.arena, trail) {
            return Some(id);
        }
        let Some(lit) = order.next(trail) else {
            return None;
        };
        trail.decide(lit);
    }
}

/// Searches until the formula is decided or the budget is spent.
pub fn search(
    known: &mut Known,
    trail: &mut Trail,
    work: &mut Workspace,
    order: &mut Decisions<'_>,
    budget: u32,
) -> Result<Verdict, Memory>
    requires budget { budget ≤ 2 ^ 23 }
    requires unspent { numbers known.old.log.lines < budget }
    requires searching { IsSearching known.old.arena.clauses trail.old }
    requires listed { AreListed known.old.arena.clauses known.old.watches trail.old }
    requires fit { IsFit known.old.watches known.old.arena.clauses trail.old }
    requires sized { IsSized trail.old.variables known.old.arena.clauses known.old.log }
    requires flags { length work.old.seen.items ≡ trail.old.variables }
    requires clear { IsClear work.old.seen.items }
    ensures first { IfOk result (λ _. known.new.log.first ≡ known.old.log.first) }
    ensures verdict { IfOk result (λ verdict. (formula : List Clause) → IsLogged formula trail.old.variables known.old.arena.clauses known.old.log.lines → IsVerdict formula budget known.new.arena.clauses known.new.log.lines trail.old.variables trail.new verdict) }
{
    let mut restarts = Restarts::new();
    'conflicts: loop {
        let Some(conflict) = to_conflict(known, trail, order) else {
            return Ok(Verdict::Sat);
        };
        if trail.level() == 0 {
            refute(known, trail, work, conflict)?;
            return Ok(Verdict::Refuted);
        }
        learn(known, trail, work, order, conflict)?;
        if known.log.numbers() >= budget as u64 {
            return Ok(Verdict::Open);
        }
        if restarts.is_due() {
            order.release(trail, 0);
            trail.back_to(0);
        }
    }
}
