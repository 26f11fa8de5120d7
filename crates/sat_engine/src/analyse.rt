//! From a conflict to a learnt clause (Marques-Silva and Sakallah, GRASP, 1999; Eén and Sörensson, MiniSat, 2003).
//! From the false clause backwards along the trail, each seen literal of the present level is resolved with its reason
//! until one is left: the first point of implication. The learnt clause has its complement and the seen literals of
//! lower levels. Then the seen literals of level 0 are resolved away too. The ids of the clauses that were used, from
//! the last one back to the conflict, are the hints, which lead propagation from the complements of the clause to that
//! conflict.
ghost use Rattle.std.specs.Prelude.{◌≡◌, ◌+◌, ◌<◌, ◌≤◌, ◌^◌, [], length, vec_len, reverse, ℕ, IfOk};
ghost use Rattle.sat_trail.specs.Propagation.{IsFalseIn};
ghost use Rattle.std.specs.List.{All};
ghost use Rattle.sat_engine.specs.Lessons.{Gathers, MarksOne, MarksAll, SeenAt, IsLesson, IsClear, IsPoint, IsUnmarked, IsSameAbove, Touches, AreRefuting, Analysing};
ghost use Rattle.sat_engine.specs.Searches.{AreExplained, AreFilled, AreQuietBelow};
ghost use Rattle.sat_trail.specs.Trails.{entry_at, true_lits, lit_at};
ghost use Rattle.clause_arena.specs.Clauses.{opposite, In};
ghost use Rattle.clause_arena.specs.Arenas.{clause_at};
ghost use Rattle.sat_engine.specs.Findings.{ClauseWithin, AllWithin};

use crate::workspace::Workspace;
use clause_arena::{ClauseArena, Lit};
use cpog_base::Memory;
use sat_trail::Trail;

/// Marks a literal where it is false and not yet seen, and says whether it is of the present level.
pub fn mark_one(
    lit: Lit,
    trail: &Trail,
    seen: &mut Vec<bool>,
    others: &mut Vec<Lit>,
) -> Result<u32, Memory>
    requires within { lit.var ≤ trail.now.variables }
    requires flags { vec_len seen.old ≡ trail.now.variables }
    requires gathers { Gathers trail.now seen.old.items others.old.items }
    ensures { IfOk result (λ n. MarksOne trail.now seen.old.items seen.new.items others.old.items others.new.items lit n) }
{
    let _count = trail.len();
    let var = lit.var();
    let place = var as usize - 1;
    if let Some(false) = trail.value(lit) {
        if seen[place] {
            Ok(0)
        } else if trail.level_of(var) == trail.level() {
            seen[place] = true;
            Ok(1)
        } else if trail.level_of(var) == 0 {
            seen[place] = true;
            Ok(0)
        } else {
            others.push(lit)?;
            seen[place] = true;
            Ok(0)
        }
    } else {
        Ok(0)
    }
}

/// Marks the false literals of a clause, and says how many are new at the present level.
pub fn mark(
    clause: &[Lit],
    trail: &Trail,
    seen: &mut Vec<bool>,
    others: &mut Vec<Lit>,
) -> Result<u32, Memory>
    requires within { ClauseWithin clause.now trail.now.variables }
    requires short { length clause.now < 2 ^ 32 }
    requires flags { vec_len seen.old ≡ trail.now.variables }
    requires gathers { Gathers trail.now seen.old.items others.old.items }
    ensures { IfOk result (λ n. MarksAll trail.now seen.old.items seen.new.items others.new.items clause.now n) }
{
    let mut count = 0;
    for lit in clause {
        count += mark_one(*lit, trail, seen, others)?;
    }
    Ok(count)
}

/// Resolves the seen literals of level 0 with their reasons.
pub fn resolve_zeros(arena: &ClauseArena, trail: &Trail, work: &mut Workspace) -> Result<(), Memory>
    requires few { length arena.now.clauses < 2 ^ 31 }
    requires short { (k : ℕ) → k < length arena.now.clauses → length (clause_at arena.now.clauses k) < 2 ^ 31 }
    requires within { AllWithin arena.now.clauses trail.now.variables }
    requires explained { AreExplained arena.now.clauses trail.now.entries }
    requires analysing { Analysing arena.now.clauses trail.now work.old.seen.items 0 (length trail.now.entries) work.old.lits.items (reverse work.old.hints.items) }
    ensures analysing { IfOk result (λ _. Analysing arena.now.clauses trail.now work.new.seen.items 0 0 work.new.lits.items (reverse work.new.hints.items)) }
    ensures above { IfOk result (λ _. IsSameAbove trail.now work.old.seen.items work.new.seen.items) }
{
    let _count = trail.len();
    let mut p = trail.zeros();
    'zeros: while p > 0 {
        p -= 1;
        let var = trail.lit(p).var();
        let place = var as usize - 1;
        if work.seen[place] {
            let Some(id) = trail.reason_of(var) else {
                unreachable!()
            };
            work.seen[place] = false;
            work.hints.push(id + 1)?;
            mark(arena.clause(id), trail, &mut work.seen, &mut work.lits)?;
        }
    }
    Ok(())
}

/// Walks down the present level to its last point of implication, and says where it stands.
pub fn walk(
    arena: &ClauseArena,
    trail: &Trail,
    work: &mut Workspace,
    conflict: u32,
) -> Result<u32, Memory>
    requires few { length arena.now.clauses < 2 ^ 31 }
    requires few_variables { trail.now.variables < 2 ^ 31 }
    requires short { (k : ℕ) → k < length arena.now.clauses → length (clause_at arena.now.clauses k) < 2 ^ 31 }
    requires within { AllWithin arena.now.clauses trail.now.variables }
    requires flags { length work.old.seen.items ≡ trail.now.variables }
    requires clear { IsClear work.old.seen.items }
    requires no_lits { work.old.lits.items ≡ [] }
    requires no_hints { work.old.hints.items ≡ [] }
    requires explained { AreExplained arena.now.clauses trail.now.entries }
    requires is_clause { conflict < length arena.now.clauses }
    requires is_false { IsFalseIn (clause_at arena.now.clauses conflict) (true_lits trail.now.entries) }
    requires up { 0 < trail.now.level }
    requires touches { Touches trail.now (clause_at arena.now.clauses conflict) }
    ensures place { IfOk result (λ r. r < length trail.now.entries) }
    ensures point { IfOk result (λ r. IsPoint trail.now work.new.seen.items r (opposite (entry_at trail.now.entries r).lit)) }
    ensures analysing { IfOk result (λ r. Analysing arena.now.clauses trail.now work.new.seen.items 0 (length trail.now.entries) work.new.lits.items (reverse work.new.hints.items)) }
{
    let _count = trail.len();
    work.hints.push(conflict + 1)?;
    let mut open = mark(
        arena.clause(conflict),
        trail,
        &mut work.seen,
        &mut work.lits,
    )?;
    let mut p = trail.len();
    'walk: while p > 0 {
        p -= 1;
        let var = trail.lit(p).var();
        let place = var as usize - 1;
        if work.seen[place] && trail.level_of(var) == trail.level() {
            let Some(id) = trail.reason_of(var) else {
                return Ok(p);
            };
            if open <= 1 {
                return Ok(p);
            }
            work.seen[place] = false;
            work.hints.push(id + 1)?;
            open = open - 1 + mark(arena.clause(id), trail, &mut work.seen, &mut work.lits)?;
        }
    }
    unreachable!()
}

/// Takes the marks of these literals away.
pub fn unmark(lits: &[Lit], seen: &mut Vec<bool>)
    requires within { All (λ l. l.var ≤ length seen.old.items) lits.now }
    ensures len { length seen.new.items ≡ length seen.old.items }
    ensures less { IsUnmarked seen.old.items seen.new.items lits.now }
{
    for lit in lits {
        seen[lit.var() as usize - 1] = false;
    }
}

/// What is learnt from a conflict above level 0: its literals, its hints, and the literal that it asserts.
pub fn analyse(
    arena: &ClauseArena,
    trail: &Trail,
    work: &mut Workspace,
    conflict: u32,
) -> Result<Lit, Memory>
    requires few { length arena.now.clauses < 2 ^ 31 }
    requires few_variables { trail.now.variables < 2 ^ 31 }
    requires short { (k : ℕ) → k < length arena.now.clauses → length (clause_at arena.now.clauses k) < 2 ^ 31 }
    requires within { AllWithin arena.now.clauses trail.now.variables }
    requires filled { AreFilled arena.now.clauses }
    requires flags { length work.old.seen.items ≡ trail.now.variables }
    requires clear { IsClear work.old.seen.items }
    requires explained { AreExplained arena.now.clauses trail.now.entries }
    requires quiet { AreQuietBelow arena.now.clauses trail.now.entries trail.now.level }
    requires is_clause { conflict < length arena.now.clauses }
    requires is_false { IsFalseIn (clause_at arena.now.clauses conflict) (true_lits trail.now.entries) }
    requires up { 0 < trail.now.level }
    ensures lesson { IfOk result (λ x. IsLesson arena.now.clauses trail.now x work.new.lits.items work.new.hints.items) }
    ensures first { IfOk result (λ x. lit_at work.new.lits.items 0 ≡ x) }
    ensures flags { IfOk result (λ _. length work.new.seen.items ≡ trail.now.variables) }
    ensures clear { IfOk result (λ _. IsClear work.new.seen.items) }
{
    let _count = trail.len();
    work.lits.clear();
    work.hints.clear();
    let place = walk(arena, trail, work, conflict)?;
    resolve_zeros(arena, trail, work)?;
    let asserting = trail.lit(place).negated();
    work.lits.push(asserting)?;
    unmark(&work.lits, &mut work.seen);
    let last = work.lits.len() - 1;
    work.lits.swap(0, last);
    work.hints.reverse();
    Ok(asserting)
}

/// The hints of the empty line, from a conflict at level 0.
pub fn analyse_ground(
    arena: &ClauseArena,
    trail: &Trail,
    work: &mut Workspace,
    conflict: u32,
) -> Result<(), Memory>
    requires few { length arena.now.clauses < 2 ^ 31 }
    requires short { (k : ℕ) → k < length arena.now.clauses → length (clause_at arena.now.clauses k) < 2 ^ 31 }
    requires within { AllWithin arena.now.clauses trail.now.variables }
    requires flags { length work.old.seen.items ≡ trail.now.variables }
    requires clear { IsClear work.old.seen.items }
    requires explained { AreExplained arena.now.clauses trail.now.entries }
    requires is_clause { conflict < length arena.now.clauses }
    requires is_false { IsFalseIn (clause_at arena.now.clauses conflict) (true_lits trail.now.entries) }
    requires ground { trail.now.level ≡ 0 }
    ensures { IfOk result (λ _. AreRefuting arena.now.clauses work.new.hints.items) }
{
    let _count = trail.len();
    work.lits.clear();
    work.hints.clear();
    work.hints.push(conflict + 1)?;
    mark(
        arena.clause(conflict),
        trail,
        &mut work.seen,
        &mut work.lits,
    )?;
    resolve_zeros(arena, trail, work)?;
    work.hints.reverse();
    Ok(())
}
