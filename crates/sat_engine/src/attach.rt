//! Clauses come under watch.
ghost use Rattle.std.specs.Prelude.{◌≡◌, ◌≢◌, ◌<◌, ◌≤◌, ◌^◌, ℕ, None, IsSome, length};
ghost use Rattle.sat_trail.specs.Trails.{lit_at};
ghost use Rattle.clause_arena.specs.Clauses.{HasEachVariableOnce};
ghost use Rattle.clause_arena.specs.Arenas.{clause_at};
ghost use Rattle.watch_lists.specs.Watched.{IsCovered};
ghost use Rattle.watch_lists.specs.Watching.{listed, reserved, IsFit};

use clause_arena::ClauseArena;
use sat_trail::Trail;
use watch_lists::Watches;

/// Attaches a clause that has two literals at least.
pub fn attach_long(watches: &mut Watches, arena: &ClauseArena, trail: &Trail, id: u32)
    requires fit { IsFit watches.old arena.now.clauses trail.now }
    requires place { id < reserved watches.old }
    requires free { listed watches.old id ≡ None }
    requires clause { id < length arena.now.clauses }
    requires once { HasEachVariableOnce (clause_at arena.now.clauses id) }
    requires first_covers { 1 < length (clause_at arena.now.clauses id) → IsCovered trail.now.entries trail.now.given (lit_at (clause_at arena.now.clauses id) 0) (lit_at (clause_at arena.now.clauses id) 1) }
    requires second_covers { 1 < length (clause_at arena.now.clauses id) → IsCovered trail.now.entries trail.now.given (lit_at (clause_at arena.now.clauses id) 1) (lit_at (clause_at arena.now.clauses id) 0) }
    ensures fit { IsFit watches.new arena.now.clauses trail.now }
    ensures places { reserved watches.new ≡ reserved watches.old }
    ensures long { 1 < length (clause_at arena.now.clauses id) → IsSome (listed watches.new id) }
    ensures others { (k : ℕ) → k ≢ id → listed watches.new k ≡ listed watches.old k }
{
    if arena.clause(id).len() <= 1 {
        return;
    }
    watches.attach(arena, trail, id);
}
