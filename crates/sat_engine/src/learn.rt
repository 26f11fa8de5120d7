//! From a conflict to one more known clause, or to the empty line that ends a refutation. All memory that a conflict
//! takes is asked for before the first change, so where it is refused the log and the clauses agree as before.
ghost use Rattle.std.specs.Prelude.{◌≡◌, ◌≢◌, ◌+◌, ◌<◌, ◌≤◌, ◌^◌, [], ◌∷◌, ◌++◌, ℕ, List, length, vec_len, vec_capacity, max, IfOk};
ghost use Rattle.proof_check.specs.Following.{Refutes};
ghost use Rattle.proof_check.specs.Lines.{Line, Add, numbers, numbers_of};
ghost use Rattle.sat_trail.specs.Propagation.{IsFalseIn};
ghost use Rattle.clause_arena.specs.Clauses.{Lit, Clause, In, HasEachVariableOnce};
ghost use Rattle.sat_trail.specs.Trails.{true_lits, IsAssigned, lit_at};
ghost use Rattle.clause_arena.specs.Arenas.{clause_at};
ghost use Rattle.watch_lists.specs.Watching.{IsFit, IsFitBelow};
ghost use Rattle.sat_engine.specs.Lessons.{IsClear, IsFalseBetween, AreRefuting};
ghost use Rattle.sat_engine.specs.Searches.{IsSearching, AreListed, IsLogged, IsJump, IsSized, IsSameSet, IsOfLevel};

use crate::analyse::{analyse, analyse_ground};
use crate::attach::attach_long;
use crate::decisions::Decisions;
use crate::known::Known;
use crate::workspace::Workspace;
use clause_arena::Lit;
use cpog_base::Memory;
use sat_trail::Trail;

fn higher(a: u32, b: u32) -> u32
    ensures { result ≡ max a b }
{
    if a < b { b } else { a }
}

/// The highest level of the literals but the asserting one, or 0.
pub fn jump_level(trail: &Trail, lits: &[Lit], asserting: Lit) -> u32
    requires up { 0 < trail.now.level }
    requires once { HasEachVariableOnce lits.now }
    requires holds { In asserting lits.now }
    requires lower { (m : Lit) → In m lits.now → m ≢ asserting → IsFalseBetween trail.now.entries trail.now.level m }
    ensures { IsJump trail.now asserting lits.now result }
{
    let mut jump = 0;
    for lit in lits {
        if lit.var() != asserting.var() {
            jump = higher(jump, trail.level_of(lit.var()));
        }
    }
    jump
}

/// Puts a literal of this level second, where there is one but the first.
pub fn put_second(trail: &Trail, lits: &mut Vec<Lit>, level: u32)
    requires assigned { (i : ℕ) → i < length lits.old.items → IsAssigned trail.now.entries (lit_at lits.old.items i).var }
    requires once { HasEachVariableOnce lits.old.items }
    ensures same { IsSameSet lits.old.items lits.new.items }
    ensures once { HasEachVariableOnce lits.new.items }
    ensures len { length lits.new.items ≡ length lits.old.items }
    ensures first { lit_at lits.new.items 0 ≡ lit_at lits.old.items 0 }
    ensures second { (i : ℕ) → 0 < i → i < length lits.old.items → IsOfLevel trail.now level (lit_at lits.old.items i) → IsOfLevel trail.now level (lit_at lits.new.items 1) }
{
    'places: for place in 1..lits.len() {
        if trail.level_of(lits[place].var()) == level {
            lits.swap(1, place);
            return;
        }
    }
}

/// Learns from a conflict above level 0, goes back, and makes the asserted literal true.
pub fn learn(
    known: &mut Known,
    trail: &mut Trail,
    work: &mut Workspace,
    order: &mut Decisions<'_>,
    conflict: u32,
) -> Result<(), Memory>
    requires searching { IsSearching known.old.arena.clauses trail.old }
    requires listed { AreListed known.old.arena.clauses known.old.watches trail.old }
    requires fit { IsFitBelow known.old.watches known.old.arena.clauses trail.old trail.old.level }
    requires sized { IsSized trail.old.variables known.old.arena.clauses known.old.log }
    requires flags { length work.old.seen.items ≡ trail.old.variables }
    requires clear { IsClear work.old.seen.items }
    requires is_clause { conflict < length known.old.arena.clauses }
    requires is_false { IsFalseIn (clause_at known.old.arena.clauses conflict) (true_lits trail.old.entries) }
    requires up { 0 < trail.old.level }
    ensures variables { trail.new.variables ≡ trail.old.variables }
    ensures searching { IfOk result (λ _. IsSearching known.new.arena.clauses trail.new) }
    ensures listed { IfOk result (λ _. AreListed known.new.arena.clauses known.new.watches trail.new) }
    ensures fit { IfOk result (λ _. IsFit known.new.watches known.new.arena.clauses trail.new) }
    ensures flags { IfOk result (λ _. length work.new.seen.items ≡ trail.old.variables) }
    ensures clear { IfOk result (λ _. IsClear work.new.seen.items) }
    ensures clauses { IfOk result (λ _. known.new.arena.clauses ≡ known.old.arena.clauses ++ work.new.lits.items ∷ []) }
    ensures line { IfOk result (λ _. known.new.log.lines ≡ known.old.log.lines ++ (Add (length known.old.arena.clauses + 1) work.new.lits.items work.new.hints.items) ∷ []) }
    ensures first { IfOk result (λ _. known.new.log.first ≡ known.old.log.first) }
    ensures short { IfOk result (λ _. length work.new.lits.items + length work.new.hints.items ≤ trail.old.variables + 1) }
    ensures some { IfOk result (λ _. 0 < length work.new.hints.items) }
    ensures logged { IfOk result (λ _. (formula : List Clause) → IsLogged formula trail.old.variables known.old.arena.clauses known.old.log.lines → IsLogged formula trail.old.variables known.new.arena.clauses known.new.log.lines) }
{
    let _count = trail.len();
    let asserting = analyse(&known.arena, trail, work, conflict)?;
    let jump = jump_level(trail, &work.lits, asserting);
    put_second(trail, &mut work.lits, jump);
    // All memory that this conflict takes is taken here, so nothing is refused between the log and the arena.
    let id = known.arena.len();
    let literals = work.lits.len() as u32;
    let hints = work.hints.len() as u32;
    known.arena.reserve(1, literals)?;
    known.watches.reserve(id + 1)?;
    known.log.reserve(1, literals + hints)?;
    order.reward(&known.arena, &work.hints);
    order.release(trail, jump);
    trail.back_to(jump);
    known.log.push_add_reserved(id + 1, &work.lits, &work.hints);
    known.arena.push_reserved(&work.lits);
    trail.assign(asserting, Some(id));
    attach_long(&mut known.watches, &known.arena, trail, id);
    Ok(())
}

/// Adds the empty line, from a conflict at level 0.
pub fn refute(
    known: &mut Known,
    trail: &Trail,
    work: &mut Workspace,
    conflict: u32,
) -> Result<(), Memory>
    requires searching { IsSearching known.old.arena.clauses trail.now }
    requires sized { IsSized trail.now.variables known.old.arena.clauses known.old.log }
    requires flags { length work.old.seen.items ≡ trail.now.variables }
    requires clear { IsClear work.old.seen.items }
    requires is_clause { conflict < length known.old.arena.clauses }
    requires is_false { IsFalseIn (clause_at known.old.arena.clauses conflict) (true_lits trail.now.entries) }
    requires ground { trail.now.level ≡ 0 }
    ensures line { IfOk result (λ _. known.new.log.lines ≡ known.old.log.lines ++ (Add (length known.old.arena.clauses + 1) [] work.new.hints.items) ∷ []) }
    ensures first { IfOk result (λ _. known.new.log.first ≡ known.old.log.first) }
    ensures refutes { IfOk result (λ _. (formula : List Clause) → IsLogged formula trail.now.variables known.old.arena.clauses known.old.log.lines → Refutes trail.now.variables formula known.new.log.lines) }
{
    let _count = trail.len();
    analyse_ground(&known.arena, trail, work, conflict)?;
    let id = known.arena.len();
    let hints = work.hints.len() as u32;
    known.log.reserve(1, hints)?;
    known.log.push_add_reserved(id + 1, &[], &work.hints);
    Ok(())
}
