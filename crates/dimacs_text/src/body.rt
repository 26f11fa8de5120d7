//! The clauses of a formula as far as they were read.
ghost use Rattle.std.specs.Prelude.{◌≡◌, ◌<◌, ◌≤◌, ◌↔◌, ℕ, [], List, IsTrue, IfOk, MatchOption, length};
ghost use Rattle.clause_arena.specs.Clauses.{Clause};
ghost use Rattle.dimacs_text.specs.Streams.{with_clause, with_literal};
ghost use Rattle.dimacs_text.specs.Keeping.{Holds, IsFor, IsFitting, count_of};

use clause_arena::{ClauseArena, Lit};
use cpog_base::{Memory, VARIABLE_LIMIT};
use std::alloc::Global;

/// Whole clauses, and the literals of an open one. Where the formula has more variables than are taken, they are
/// counted and not kept, so that its text is still judged to its end.
#[derive(Drop)]
pub enum Body {
    Kept {
        clauses: ClauseArena,
        open: Vec<Lit>,
    },
    Counted {
        clauses: u64,
        is_open: bool,
    },
}

impl Body {
    /// No clause yet, of a formula of so many variables.
    pub fn new(alloc: Global, variables: u64) -> Body
        ensures holds { Holds result [] [] }
        ensures kind { IsFor variables result }
    {
        if variables <= VARIABLE_LIMIT as u64 {
            Body::Kept {
                clauses: ClauseArena::new(alloc),
                open: Vec::new(alloc),
            }
        } else {
            Body::Counted {
                clauses: 0,
                is_open: false,
            }
        }
    }

    /// How many clauses are whole.
    #[inline(always)]
    pub fn count(&self) -> u64
        ensures { result ≡ count_of self.now }
    {
        match self {
            Body::Kept { clauses, .. } => clauses.len() as u64,
            Body::Counted { clauses, .. } => *clauses,
        }
    }

    /// Whether so many clauses are whole, and none is open.
    pub fn is_whole(&self, count: u64) -> bool
        ensures { (ds : List Clause) (os : Clause) → Holds self.now ds os → IsTrue result ↔ ((length ds ≡ count) × (os ≡ [])) }
    {
        match self {
            Body::Kept { clauses, open } => clauses.len() as u64 == count && open.is_empty(),
            Body::Counted { clauses, is_open } => *clauses == count && !*is_open,
        }
    }

    /// Takes a literal, or with 0 the end of a clause.
    ///
    /// # Errors
    ///
    /// `Memory` where none is left.
    #[inline(always)]
    pub fn take(&mut self, n: u64, negated: bool) -> Result<(), Memory>
        requires fits { IsFitting n self.old }
        requires few { count_of self.old < 18446744073709551615 }
        ensures taken { IfOk result (λ _. (ds : List Clause) (os : Clause) → Holds self.old ds os → Holds self.new (with_clause n ds os) (with_literal n negated os)) }
        ensures kind { IfOk result (λ _. (variables : ℕ) → IsFor variables self.old → IsFor variables self.new) }
    {
        match self {
            Body::Kept { clauses, open } => {
                if n == 0 {
                    let _place = clauses.push(open)?;
                    open.clear();
                } else {
                    open.push(Lit::from_var(n as u32, negated))?;
                }
            }
            Body::Counted { clauses, is_open } => {
                if n == 0 {
                    *clauses += 1;
                }
                *is_open = n != 0;
            }
        }
        Ok(())
    }

    /// The clauses that were kept; none where they were counted.
    pub fn into_clauses(self) -> Option<ClauseArena>
        ensures { (variables : ℕ) (ds : List Clause) (os : Clause) → IsFor variables self → Holds self ds os → MatchOption result (VARIABLE_LIMIT < variables) (λ c. (variables ≤ VARIABLE_LIMIT) × (c.clauses ≡ ds)) }
    {
        match self {
            Body::Kept { clauses, .. } => Some(clauses),
            Body::Counted { .. } => None,
        }
    }
}
