//! Two watched literals: unit propagation that looks at a clause only where one of two of its literals became false.
//! Clauses of `clause_arena` and the trail of `sat_trail` stand below. `propagate` is promised to end with no attached
//! clause that is false or has one literal left, or at one that is false throughout; what it made true has reasons;
//! each clause stays the same set. It allocates nothing, and going back touches no watch.
#![tactic(auto)]

mod link;
mod links;
mod propagation;
mod step;
mod visit;
mod watches;

pub use propagation::Propagation;
pub use watches::Watches;

#[cfg(test)]
mod tests;
