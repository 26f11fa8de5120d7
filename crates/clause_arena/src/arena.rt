//! Clauses one after another in one vector of literals, and beside it where each of them lies. A clause is lent from
//! there, and never copied.

ghost use Rattle.std.specs.Prelude.{◌≡◌, ◌+◌, ◌<◌, ◌≤◌, ◌++◌, [], ◌∷◌, length, OnOk, OnErr, IfOk, slice_set};
ghost use Rattle.std.specs.List.{swap};
ghost use Rattle.clause_arena.specs.Arenas.{clause_at, literals};

use crate::lit::Lit;
use crate::span::Span;
use cpog_base::Memory;
use std::alloc::Global;
use std::marker::Model;

// How many clauses, and how many literals, there are at most: one less than a u32 counts, so that the number after
// the last clause is a u32 too.
const MOST: usize = 4294967294;

/// Clauses with places from 0. Contracts see the list of them, and beside it how many more clauses and literals there
/// is room for.
#[derive(Drop)]
pub struct ClauseArena {
    literals: Vec<Lit>,
    spans: Vec<Span>,
}

impl Model for ClauseArena {
    ghost use Rattle.std.specs.Prelude.{vec_len, vec_capacity};
    ghost use Rattle.clause_arena.specs.Arenas as arenas;

    ghost Value = { arenas.Arena };

    ghost view = { λ a. record { clauses = arenas.parts a.literals.items a.spans.items; spare_clauses = arenas.spare (vec_capacity a.spans) (vec_len a.spans); spare_literals = arenas.spare (vec_capacity a.literals) (vec_len a.literals) } };

    ghost invariant = { λ a. arenas.IsLaidOut a.literals.items a.spans.items };
}

impl ClauseArena {
    /// No clause yet.
    pub fn new(alloc: Global) -> ClauseArena
        ensures { result.clauses ≡ [] }
    {
        ClauseArena {
            literals: Vec::new(alloc),
            spans: Vec::new(alloc),
        }
    }

    /// How many clauses there are.
    pub fn len(&self) -> u32
        ensures len { result ≡ length self.now.clauses }
        ensures few { length self.now.clauses < 4294967295 }
        ensures few_literals { literals self.now.clauses < 4294967295 }
    {
        self.spans.len() as u32
    }

    /// How many literals the clauses have together.
    pub fn literal_count(&self) -> usize
        ensures { result ≡ literals self.now.clauses }
    {
        let _spans = &self.spans;
        self.literals.len()
    }

    /// The clause at a place.
    pub fn clause(&self, id: u32) -> &[Lit]
        requires { id < length self.now.clauses }
        ensures { result.now ≡ clause_at self.now.clauses id }
    {
        let span = self.spans[id as usize];
        &self.literals[span.start as usize..span.end as usize]
    }

    /// The clause at a place, whose literals may change places.
    pub fn clause_mut(&mut self, id: u32) -> ClauseMut<'_>
        requires { id < length self.old.clauses }
        ensures same_reference { result.arena.ghost_name ≡ self.entry.ghost_name }
        ensures now { result.arena.now ≡ self.old }
        ensures place { result.id ≡ id }
    {
        ClauseMut { arena: self, id }
    }

    /// Adds a clause, and says its place.
    ///
    /// # Errors
    ///
    /// `Memory` where none is left, and where there would be more clauses or literals than 4294967294.
    pub fn push(&mut self, lits: &[Lit]) -> Result<u32, Memory>
        ensures ok { OnOk result (self.new.clauses ≡ self.old.clauses ++ lits.now ∷ []) }
        ensures place { IfOk result (λ id. id ≡ length self.old.clauses) }
        ensures err { OnErr result (self.new.clauses ≡ self.old.clauses) }
    {
        let start = self.literals.len();
        if self.spans.len() >= MOST || lits.len() > MOST - start {
            return Err(Memory);
        }
        let id = self.spans.len() as u32;
        self.spans.reserve(1)?;
        self.literals.extend_from_slice(lits)?;
        let start = start as u32;
        let end = self.literals.len() as u32;
        self.spans.push_reserved(Span { start, end });
        Ok(id)
    }

    /// Makes room for so many more clauses, and so many literals in them.
    ///
    /// # Errors
    ///
    /// `Memory` where none is left, and where there would be more clauses or literals than 4294967294.
    pub fn reserve(&mut self, clauses: u32, lits: u32) -> Result<(), Memory>
        ensures same { self.new.clauses ≡ self.old.clauses }
        ensures clauses { OnOk result (clauses ≤ self.new.spare_clauses) }
        ensures literals { OnOk result (lits ≤ self.new.spare_literals) }
    {
        let clauses = clauses as usize;
        let lits = lits as usize;
        if clauses > MOST - self.spans.len() || lits > MOST - self.literals.len() {
            return Err(Memory);
        }
        self.spans.reserve(clauses)?;
        self.literals.reserve(lits)?;
        Ok(())
    }

    /// Adds a clause where there is room for it, and says its place.
    pub fn push_reserved(&mut self, lits: &[Lit]) -> u32
        requires room_clauses { 1 ≤ self.old.spare_clauses }
        requires room_literals { length lits.now ≤ self.old.spare_literals }
        ensures pushed { self.new.clauses ≡ self.old.clauses ++ lits.now ∷ [] }
        ensures place { result ≡ length self.old.clauses }
        ensures spare_clauses { self.new.spare_clauses + 1 ≡ self.old.spare_clauses }
        ensures spare_literals { self.new.spare_literals + length lits.now ≡ self.old.spare_literals }
    {
        let id = self.spans.len() as u32;
        let start = self.literals.len() as u32;
        for lit in lits {
            self.literals.push_reserved(*lit);
        }
        let end = self.literals.len() as u32;
        self.spans.push_reserved(Span { start, end });
        id
    }

    fn exchange(&mut self, id: u32, i: usize, j: usize)
        requires valid { id < length self.old.clauses }
        requires first { i < length (clause_at self.old.clauses id) }
        requires second { j < length (clause_at self.old.clauses id) }
        ensures clauses { self.new.clauses ≡ slice_set self.old.clauses id (swap (clause_at self.old.clauses id) i j) }
        ensures spare_clauses { self.new.spare_clauses ≡ self.old.spare_clauses }
        ensures spare_literals { self.new.spare_literals ≡ self.old.spare_literals }
    {
        let start = self.spans[id as usize].start as usize;
        let first = self.literals[start + i];
        let second = self.literals[start + j];
        self.literals[start + i] = second;
        self.literals[start + j] = first;
    }
}

/// One clause of an arena, whose literals may change places.
#[derive(Drop)]
pub struct ClauseMut<'a> {
    arena: &'a mut ClauseArena,
    id: u32,
}

impl ClauseMut<'_> {
    /// Its literals.
    pub fn lits(&self) -> &[Lit]
        requires { self.now.id < length self.now.arena.now.clauses }
        ensures { result.now ≡ clause_at self.now.arena.now.clauses self.now.id }
    {
        self.arena.clause(self.id)
    }

    /// Exchanges the literals at two places of it. Each other clause stays.
    pub fn swap(&mut self, i: usize, j: usize)
        requires valid { self.old.id < length self.old.arena.now.clauses }
        requires first { i < length (clause_at self.old.arena.now.clauses self.old.id) }
        requires second { j < length (clause_at self.old.arena.now.clauses self.old.id) }
        ensures same_reference { self.new.arena.ghost_name ≡ self.old.arena.ghost_name }
        ensures same_place { self.new.id ≡ self.old.id }
        ensures clauses { self.new.arena.now.clauses ≡ slice_set self.old.arena.now.clauses self.old.id (swap (clause_at self.old.arena.now.clauses self.old.id) i j) }
        ensures spare_clauses { self.new.arena.now.spare_clauses ≡ self.old.arena.now.spare_clauses }
        ensures spare_literals { self.new.arena.now.spare_literals ≡ self.old.arena.now.spare_literals }
    {
        self.arena.exchange(self.id, i, j);
    }
}
