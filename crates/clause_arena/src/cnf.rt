//! Formulas.
ghost use Rattle.std.specs.Prelude.{IsTrue};
ghost use Rattle.clause_arena.specs.Formulas.{are_within};

use crate::arena::ClauseArena;

/// A formula in conjunctive normal form: so many variables, and clauses each of whose literals has a variable from 1 to
/// that number.
#[derive(Drop)]
pub struct Cnf {
    pub variables: u32,
    pub clauses: ClauseArena,
    ghost within: { IsTrue (are_within variables clauses.clauses) },
}
