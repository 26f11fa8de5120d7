//! Two watched literals (Moskewicz, Madigan, Zhao, Zhang and Malik, Chaff, DAC 2001; Eén and Sörensson, MiniSat, SAT
//! 2003). Each attached clause is listed under its first two literals. Where one of them becomes false, the clause is
//! looked at: it stays where the other one is true, else a literal that isn't false takes the false one's place, else
//! the other one is made true or the clause is false throughout. Taking literals back changes no list.
//!
//! The lists are linked, so a watch moves without memory: `links` has first one head for each literal, at its code, and
//! then two nodes for each place. A node keeps the next one and the other watched literal of its clause. In `next`, 0
//! is the end of a list and 1 says that the node stands in none; no node has these numbers, as variables count from 1.
ghost use Rattle.std.specs.Prelude.{◌≡◌, ◌≢◌, ℕ, ◌+◌, ◌<◌, ◌≤◌, ◌^◌, length, IfOk, OnOk, OnErr};
ghost use Rattle.clause_arena.specs.Clauses.{HasEachVariableOnce};
ghost use Rattle.clause_arena.specs.Arenas.{clause_at};
ghost use Rattle.sat_trail.specs.Trails.{IsTrail, lit_at};
ghost use Rattle.watch_lists.specs.Watched.{IsCovered, AreRearranged};
ghost use Rattle.watch_lists.specs.Watching.{listed, reserved, IsFit, ArePending, AreSameAttached, IsGrown, IsOutcome};

use crate::link::Link;
use crate::links::link_clause;
use crate::propagation::Propagation;
use crate::visit::run;
use clause_arena::{ClauseArena, Lit};
use cpog_base::Memory;
use sat_trail::Trail;
use std::alloc::Global;
use std::marker::Model;

/// The watches of the clauses of one arena. Contracts see the number of variables, and for each reserved place the two
/// literals under which its clause is listed, where it is attached.
#[derive(Drop)]
pub struct Watches {
    links: Vec<Link>,
    heads: u32,
}

impl Model for Watches {
    ghost use Rattle.watch_lists.specs.Watching as watching;

    ghost Value = { watching.Watching };

    ghost view = { λ a. watching.view_of a.heads a.links.items };

    ghost invariant = { λ a. watching.AreKept a.heads a.links.items };
}

impl Watches {
    /// Lists for this many variables, with no clause attached. `Memory` also for 2 ^ 30 variables and more.
    pub fn new(alloc: Global, variables: u32) -> Result<Watches, Memory>
        ensures { IfOk result (λ w. (w.variables ≡ variables) × ((k : ℕ) → listed w k ≡ None)) }
    {
        if variables >= 1 << 30 {
            return Err(Memory);
        }
        let heads = 2 * variables + 2;
        let no_literal = Lit::from_var(1, false);
        let mut links = Vec::with_capacity(alloc, heads as usize)?;
        'heads: for _ in 0..heads {
            links.push_reserved(Link {
                next: 0,
                other: no_literal,
            });
        }
        Ok(Watches { links, heads })
    }

    /// Makes the places of all clauses with numbers below this one, so that they can be attached without memory.
    /// `Memory` also where heads and nodes would be 2 ^ 32 and more; then all is as before.
    pub fn reserve(&mut self, clauses: u32) -> Result<(), Memory>
        ensures variables { self.new.variables ≡ self.old.variables }
        ensures listed { (k : ℕ) → listed self.new k ≡ listed self.old k }
        ensures reserved { OnOk result (clauses ≤ reserved self.new) }
        ensures more { reserved self.old ≤ reserved self.new }
        ensures err { OnErr result (self.new ≡ self.old) }
    {
        let wanted = self.heads as usize + 2 * clauses as usize;
        if wanted >= 1 << 32 {
            return Err(Memory);
        }
        let there = self.links.len();
        if wanted <= there {
            return Ok(());
        }
        let no_literal = Lit::from_var(1, false);
        let more = wanted - there;
        self.links.reserve(more)?;
        'places: for _ in 0..more {
            self.links.push_reserved(Link {
                next: 1,
                other: no_literal,
            });
        }
        Ok(())
    }

    /// Watches the first two literals of a clause, which cover each other already. It takes no memory.
    pub fn attach(&mut self, arena: &ClauseArena, trail: &Trail, id: u32)
        requires fit { IsFit self.old arena.now.clauses trail.now }
        requires place { id < reserved self.old }
        requires free { listed self.old id ≡ None }
        requires clause { id < length arena.now.clauses }
        requires two { 2 ≤ length (clause_at arena.now.clauses id) }
        requires once { HasEachVariableOnce (clause_at arena.now.clauses id) }
        requires first_covers { IsCovered trail.now.entries trail.now.given (lit_at (clause_at arena.now.clauses id) 0) (lit_at (clause_at arena.now.clauses id) 1) }
        requires second_covers { IsCovered trail.now.entries trail.now.given (lit_at (clause_at arena.now.clauses id) 1) (lit_at (clause_at arena.now.clauses id) 0) }
        ensures fit { IsFit self.new arena.now.clauses trail.now }
        ensures places { reserved self.new ≡ reserved self.old }
        ensures attached { listed self.new id ≡ Some (lit_at (clause_at arena.now.clauses id) 0, lit_at (clause_at arena.now.clauses id) 1) }
        ensures others { (k : ℕ) → k ≢ id → listed self.new k ≡ listed self.old k }
    {
        // These calls tell the proof that the trail is one, and that no code is below 2.
        let _valid = trail.len();
        let clause = arena.clause(id);
        let first = clause[0];
        let second = clause[1];
        let _first = first.code();
        let _second = second.code();
        link_clause(&mut self.links, self.heads + 2 * id, first, second);
    }

    /// Makes true what the attached clauses force, until nothing is forced or a clause is false throughout. It takes no
    /// memory. The clauses keep their literals as sets; what becomes true has an attached clause as its reason.
    pub fn propagate(&mut self, arena: &mut ClauseArena, trail: &mut Trail) -> Propagation
        requires fit { IsFit self.old arena.old.clauses trail.old }
        requires pending { ArePending trail.old }
        ensures attached { AreSameAttached self.old self.new }
        ensures sets { AreRearranged arena.old.clauses arena.new.clauses }
        ensures grown { IsGrown self.old arena.old.clauses trail.old trail.new }
        ensures valid { IsTrail trail.new }
        ensures outcome { IsOutcome self.new arena.new.clauses trail.new result }
    {
        // This call tells the proof that the trail is one.
        let _valid = trail.len();
        run(&mut self.links, self.heads, arena, trail)
    }
}
