//! Logs. All literals lie in one vector, all hints and deleted ids in another, and a third says where each line ends, so
//! a line takes twelve bytes beside its numbers.
ghost use Rattle.std.specs.Prelude.{◌≡◌, ◌+◌, ◌<◌, ◌≤◌, [], ◌∷◌, ◌++◌, length, OnOk, OnErr, MatchOption, ℕ, IsTrue, false, vec_len, vec_capacity};
ghost use Rattle.proof_check.specs.Lines.{numbers, numbers_of, last_id, ArePositive, line_at, is_add_of};
ghost use Rattle.proof_check.specs.Lines.Line.{Add, Del};
ghost use Rattle.proof_check.specs.Records.{IsLog, record_at, record_before, start, AreRising};
ghost use Rattle.proof_check.specs.Refs.{line_of_ref};

use crate::record::Record;
use clause_arena::Lit;
use cpog_base::Memory;
use std::alloc::Global;
use std::marker::Model;

// How many lines, and how many literals, hints and deleted ids together, there are at most: one less than a u32 counts,
// so that the number after the last one is a u32 too.
const MOST: usize = 4294967294;

/// A line of a log, lent: a clause that is added under an id, with the ids of the clauses that it follows from in the order in
/// which these are used, or ids of clauses that are used no more.
#[derive(Clone, Copy)]
pub enum LineRef<'a> {
    Add {
        id: u32,
        lits: &'a [Lit],
        hints: &'a [u32],
    },
    Del {
        ids: &'a [u32],
    },
}

/// The log of a solver, which only grows: earlier lines never change. Contracts see the list of its lines, the number of
/// clauses above which its ids begin, and how many more lines and numbers there is room for.
#[derive(Drop)]
pub struct Log {
    clauses: u32,
    literals: Vec<Lit>,
    hints: Vec<u32>,
    records: Vec<Record>,
}

impl Model for Log {
    ghost use Rattle.std.specs.Prelude.{vec_len, vec_capacity};
    ghost use Rattle.clause_arena.specs.Arenas.{spare};
    ghost use Rattle.proof_check.specs.Records as stored;

    ghost Value = { stored.LogState };

    ghost view = { λ a. record { first = a.clauses; lines = stored.lines_from a.literals.items a.hints.items (stored.start a.clauses) a.records.items; spare_lines = spare (vec_capacity a.records) (vec_len a.records); spare_numbers = stored.free_numbers (vec_capacity a.literals) (vec_len a.literals) (vec_capacity a.hints) (vec_len a.hints) } };

    ghost invariant = { λ a. stored.IsStored a.clauses a.literals.items a.hints.items a.records.items };
}

/// The record before a place.
fn before(clauses: u32, records: &[Record], i: usize) -> Record
    requires { i ≤ length records.now }
    ensures { result ≡ record_before (start clauses) records.now i }
{
    if i == 0 {
        Record {
            id: clauses,
            lits_end: 0,
            hints_end: 0,
        }
    } else {
        records[i - 1]
    }
}

impl Log {
    /// No line yet, over a formula of so many clauses.
    pub fn new(alloc: Global, clauses: u32) -> Log
        ensures lines { result.lines ≡ [] }
        ensures first { result.first ≡ clauses }
    {
        Log {
            clauses,
            literals: Vec::new(alloc),
            hints: Vec::new(alloc),
            records: Vec::new(alloc),
        }
    }

    /// How many lines there are.
    pub fn len(&self) -> u32
        ensures len { result ≡ length self.now.lines }
        ensures log { IsLog self.now }
    {
        self.records.len() as u32
    }

    /// How many literals and hints the additions have, and ids the deletions.
    pub fn numbers(&self) -> u64
        ensures { result ≡ numbers self.now.lines }
    {
        self.literals.len() as u64 + self.hints.len() as u64
    }

    /// The line at a place, from 0.
    pub fn line(&self, i: u32) -> LineRef<'_>
        requires { i < length self.now.lines }
        ensures is { line_of_ref result ≡ line_at self.now.lines i }
        ensures few { numbers_of (line_of_ref result) < 4294967295 }
        ensures log { IsLog self.now }
    {
        let before = before(self.clauses, &self.records, i as usize);
        let here = self.records[i as usize];
        let hints = &self.hints[before.hints_end as usize..here.hints_end as usize];
        if before.id < here.id {
            LineRef::Add {
                id: here.id,
                lits: &self.literals[before.lits_end as usize..here.lits_end as usize],
                hints,
            }
        } else {
            LineRef::Del { ids: hints }
        }
    }

    /// Makes room for so many more lines, and for so many literals, hints and deleted ids in them.
    ///
    /// # Errors
    ///
    /// `Memory` where none is left, and where there would be more lines or numbers than 4294967294.
    pub fn reserve(&mut self, lines: u32, numbers: u32) -> Result<(), Memory>
        ensures first { self.new.first ≡ self.old.first }
        ensures same { self.new.lines ≡ self.old.lines }
        ensures lines { OnOk result (lines ≤ self.new.spare_lines) }
        ensures numbers { OnOk result (numbers ≤ self.new.spare_numbers) }
    {
        let lines = lines as usize;
        let numbers = numbers as usize;
        let used = self.literals.len() + self.hints.len();
        if lines > MOST - self.records.len() || numbers > MOST - used {
            return Err(Memory);
        }
        self.records.reserve(lines)?;
        self.literals.reserve(numbers)?;
        self.hints.reserve(numbers)?;
        Ok(())
    }

    /// Adds an addition where there is room for it. Its id is above the number of clauses and above all earlier ids.
    pub fn push_add_reserved(&mut self, id: u32, lits: &[Lit], hints: &[u32])
        requires above { last_id self.old.first self.old.lines < id }
        requires positive { ArePositive hints.now }
        requires room_lines { 1 ≤ self.old.spare_lines }
        requires room_numbers { length lits.now + length hints.now ≤ self.old.spare_numbers }
        ensures first { self.new.first ≡ self.old.first }
        ensures pushed { self.new.lines ≡ self.old.lines ++ Add id lits.now hints.now ∷ [] }
        ensures spare_lines { self.new.spare_lines + 1 ≡ self.old.spare_lines }
        ensures spare_numbers { self.old.spare_numbers ≤ self.new.spare_numbers + (length lits.now + length hints.now) }
    {
        append(&mut self.literals, lits);
        append(&mut self.hints, hints);
        let lits_end = self.literals.len() as u32;
        let hints_end = self.hints.len() as u32;
        self.records.push_reserved(Record {
            id,
            lits_end,
            hints_end,
        });
    }

    /// Adds an addition. Its id is above the number of clauses and above all earlier ids.
    ///
    /// # Errors
    ///
    /// `Memory` where none is left, and where there would be more lines or numbers than 4294967294.
    pub fn push_add(&mut self, id: u32, lits: &[Lit], hints: &[u32]) -> Result<(), Memory>
        requires above { last_id self.old.first self.old.lines < id }
        requires positive { ArePositive hints.now }
        ensures first { self.new.first ≡ self.old.first }
        ensures ok { OnOk result (self.new.lines ≡ self.old.lines ++ Add id lits.now hints.now ∷ []) }
        ensures err { OnErr result (self.new.lines ≡ self.old.lines) }
    {
        if lits.len() > MOST || hints.len() > MOST - lits.len() {
            return Err(Memory);
        }
        self.reserve(1, (lits.len() + hints.len()) as u32)?;
        self.push_add_reserved(id, lits, hints);
        Ok(())
    }

    /// Adds a deletion.
    ///
    /// # Errors
    ///
    /// `Memory` where none is left, and where there would be more lines or numbers than 4294967294.
    pub fn push_del(&mut self, ids: &[u32]) -> Result<(), Memory>
        requires positive { ArePositive ids.now }
        ensures first { self.new.first ≡ self.old.first }
        ensures ok { OnOk result (self.new.lines ≡ self.old.lines ++ Del ids.now ∷ []) }
        ensures err { OnErr result (self.new.lines ≡ self.old.lines) }
    {
        let count = self.records.len();
        let used = self.literals.len() + self.hints.len();
        if count >= MOST || ids.len() > MOST - used {
            return Err(Memory);
        }
        self.records.reserve(1)?;
        self.hints.extend_from_slice(ids)?;
        let before = before(self.clauses, &self.records, count);
        let hints_end = self.hints.len() as u32;
        self.records.push_reserved(Record {
            id: before.id,
            lits_end: before.lits_end,
            hints_end,
        });
        Ok(())
    }

    /// The place of the addition with this id.
    pub fn place(&self, id: u32) -> Option<u32>
        ensures { MatchOption result ((k : ℕ) → is_add_of id (line_at self.now.lines k) ≡ false) (λ k. (k < length self.now.lines) × IsTrue (is_add_of id (line_at self.now.lines k))) }
    {
        place_of(self.clauses, &self.records, id)
    }

    /// The same, looked for at one place first, so that a good guess costs one look and not a search.
    #[inline(always)]
    pub fn place_near(&self, id: u32, guess: u32) -> Option<u32>
        ensures { MatchOption result ((k : ℕ) → is_add_of id (line_at self.now.lines k) ≡ false) (λ k. (k < length self.now.lines) × IsTrue (is_add_of id (line_at self.now.lines k))) }
    {
        let i = guess as usize;
        if i < self.records.len()
            && self.records[i].id == id
            && before(self.clauses, &self.records, i).id < id
        {
            Some(guess)
        } else {
            self.place(id)
        }
    }
}

/// The place of the record that ends the addition with this id.
fn place_of(clauses: u32, records: &[Record], id: u32) -> Option<u32>
    requires few { length records.now < 4294967295 }
    requires rise { AreRising records.now }
    ensures { MatchOption result ((k : ℕ) → k < length records.now → (record_before (start clauses) records.now k).id < id → (record_at records.now k).id ≡ id → ⊥) (λ k. (k < length records.now) × ((record_before (start clauses) records.now k).id < id) × ((record_at records.now k).id ≡ id)) }
{
    let mut low = 0;
    let mut high = records.len();
    while low < high {
        let middle = low + (high - low) / 2;
        if records[middle].id < id {
            low = middle + 1;
        } else {
            high = middle;
        }
    }
    if low < records.len() && records[low].id == id && before(clauses, records, low).id < id {
        Some(low as u32)
    } else {
        None
    }
}

/// Adds items where there is room.
fn append<T: Copy>(items: &mut Vec<T>, more: &[T])
    requires { vec_len items.old + length more.now ≤ vec_capacity items.old }
    ensures items { items.new.items ≡ items.old.items ++ more.now }
    ensures len { vec_len items.new ≡ vec_len items.old + length more.now }
    ensures capacity { vec_capacity items.old ≤ vec_capacity items.new }
{
    match items.extend_from_slice(more) {
        Ok(()) => {}
        Err(_) => unreachable!(),
    }
}
