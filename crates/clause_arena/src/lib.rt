//! Literals, clauses in one vector of literals, and formulas.
//!
//! Contracts see an arena as a list of lists of literals, and beside it the room that is left. A clause is lent, its
//! literals are swapped in place, and each other clause stays. Where room was made before, a clause is added without
//! taking memory; where memory is refused, the clauses are as before. A formula keeps that each literal speaks of one
//! of its variables. The crate knows no engine, checker or text. Below it stands `cpog_base`, for want of memory.
#![tactic(auto)]

mod arena;
mod cnf;
mod lit;
mod span;

pub use arena::{ClauseArena, ClauseMut};
pub use cnf::Cnf;
pub use lit::Lit;

#[cfg(test)]
mod tests;
