//! The trail of a search by clauses learnt: the literals that are true, in the order in which they became so, each with
//! its level and the clause that made it true. Literals and clauses of `clause_arena` stand below. Each call is
//! promised as a change of one list of entries; going back removes exactly the entries above a level, and after `new`
//! no call takes memory.
#![tactic(auto)]

mod info;
mod trail;
mod value;

pub use trail::Trail;

#[cfg(test)]
mod tests;
