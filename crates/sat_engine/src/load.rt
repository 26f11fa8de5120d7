//! The formula's clauses come into the engine's own arena, whose literals change places. Each literal comes once, and a
//! clause that holds a variable in both signs is not attached: it is never false.
ghost use Rattle.std.specs.Prelude.{◌≡◌, ◌≢◌, ◌+◌, ◌<◌, ◌≤◌, ◌^◌, [], ℕ, List, true, false, length, IfOk, MatchOption};
ghost use Rattle.sat_engine.specs.Steps.{IsWithin};
ghost use Rattle.clause_arena.specs.Clauses.{Clause, In};
ghost use Rattle.clause_arena.specs.Arenas.{clause_at, literals};
ghost use Rattle.sat_engine.specs.Searches.{AreFilled};
ghost use Rattle.watch_lists.specs.Watching.{IsFit};
ghost use Rattle.sat_engine.specs.Copies.{IsLoaded};

use crate::attach::attach_long;
use crate::copy::copy_clause;
use crate::known::Known;
use clause_arena::ClauseArena;
use cpog_base::Memory;
use proof_check::Log;
use sat_trail::Trail;
use std::alloc::Global;
use watch_lists::Watches;

/// The first empty clause.
pub fn first_empty(formula: &ClauseArena) -> Option<u32>
    requires { length formula.now.clauses < 2 ^ 31 }
    ensures { MatchOption result (AreFilled formula.now.clauses) (λ id. (id < length formula.now.clauses) × (clause_at formula.now.clauses id ≡ [])) }
{
    'clauses: for id in 0..formula.len() {
        if formula.clause(id).len() == 0 {
            return Some(id);
        }
    }
    None
}

/// All clauses of the formula; those that hold a variable in both signs aren't attached.
pub fn load(alloc: Global, formula: &ClauseArena, trail: &Trail) -> Result<Known, Memory>
    requires size { literals formula.now.clauses + length formula.now.clauses ≤ 2 ^ 28 }
    requires within { IsWithin formula.now.clauses trail.now.variables }
    requires empty { trail.now.entries ≡ [] }
    ensures loaded { IfOk result (λ known. IsLoaded formula.now.clauses known.arena.clauses known.watches) }
    ensures fit { IfOk result (λ known. IsFit known.watches known.arena.clauses trail.now) }
    ensures log { IfOk result (λ known. (known.log.lines ≡ []) × (known.log.first ≡ length formula.now.clauses)) }
{
    let count = formula.len();
    let mut known = Known {
        arena: ClauseArena::new(alloc),
        watches: Watches::new(alloc, trail.variables())?,
        log: Log::new(alloc, count),
    };
    known.watches.reserve(count)?;
    let variables = trail.variables();
    let mut marks = vec![in alloc; 0; 2 * variables as usize + 2]?;
    let mut lits = Vec::new(alloc);
    'clauses: for id in 0..count {
        lits.clear();
        let both = copy_clause(formula.clause(id), variables, &mut marks, id + 1, &mut lits)?;
        known.arena.push(&lits)?;
        if both {
            continue 'clauses;
        }
        attach_long(&mut known.watches, &known.arena, trail, id);
    }
    Ok(known)
}
