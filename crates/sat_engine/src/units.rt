//! The clauses of one literal, which are not attached: their literals are true from level 0 on.
ghost use Rattle.std.specs.Prelude.{◌≡◌, ◌<◌, ◌≤◌, ◌^◌, ℕ, true, false, length, MatchOption};
ghost use Rattle.sat_trail.specs.Propagation.{IsFalseIn};
ghost use Rattle.clause_arena.specs.Clauses.{Lit, In};
ghost use Rattle.clause_arena.specs.Arenas.{clause_at};
ghost use Rattle.sat_trail.specs.Trails.{true_lits, IsTrueBy};
ghost use Rattle.watch_lists.specs.Watching.{Watching, IsFit};
ghost use Rattle.sat_engine.specs.Searches.{IsSearching};
ghost use Rattle.sat_engine.specs.Units.{AreUnitsTrue};

use clause_arena::ClauseArena;
use sat_trail::Trail;

/// Makes a clause's literal true where it is its only one, and says whether that is false.
pub fn assign_unit(arena: &ClauseArena, trail: &mut Trail, id: u32) -> bool
    requires searching { IsSearching arena.now.clauses trail.old }
    requires ground { trail.old.level ≡ 0 }
    requires clause { id < length arena.now.clauses }
    ensures variables { trail.new.variables ≡ trail.old.variables }
    ensures ground { trail.new.level ≡ 0 }
    ensures searching { IsSearching arena.now.clauses trail.new }
    ensures fit { (w : Watching) → IsFit w arena.now.clauses trail.old → IsFit w arena.now.clauses trail.new }
    ensures more { (l : Lit) → IsTrueBy trail.old.entries 0 l → IsTrueBy trail.new.entries 0 l }
    ensures yes { result ≡ true → IsFalseIn (clause_at arena.now.clauses id) (true_lits trail.new.entries) }
    ensures no { result ≡ false → length (clause_at arena.now.clauses id) ≡ 1 → (l : Lit) × In l (clause_at arena.now.clauses id) × IsTrueBy trail.new.entries 0 l }
{
    let _count = trail.len();
    let clause = arena.clause(id);
    if clause.len() != 1 {
        return false;
    }
    let lit = clause[0];
    if trail.is_true(lit) {
        return false;
    }
    if trail.is_false(lit) {
        return true;
    }
    trail.assign(lit, Some(id));
    false
}

/// Makes their literals true, each by its own clause, and says which one is false, if one is.
pub fn assign_units(arena: &ClauseArena, trail: &mut Trail) -> Option<u32>
    requires few { length arena.now.clauses < 2 ^ 31 }
    requires searching { IsSearching arena.now.clauses trail.old }
    requires ground { trail.old.level ≡ 0 }
    ensures variables { trail.new.variables ≡ trail.old.variables }
    ensures ground { trail.new.level ≡ 0 }
    ensures searching { IsSearching arena.now.clauses trail.new }
    ensures fit { (w : Watching) → IsFit w arena.now.clauses trail.old → IsFit w arena.now.clauses trail.new }
    ensures outcome { MatchOption result (AreUnitsTrue arena.now.clauses trail.new) (λ id. (id < length arena.now.clauses) × IsFalseIn (clause_at arena.now.clauses id) (true_lits trail.new.entries)) }
{
    'clauses: for id in 0..arena.len() {
        if assign_unit(arena, trail, id) {
            return Some(id);
        }
    }
    None
}
