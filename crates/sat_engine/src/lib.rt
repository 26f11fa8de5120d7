//! A solver that learns clauses: search with two watched literals down to a conflict, a learnt clause from each
//! conflict, and a log that shows every learnt clause.
//!
//! Clauses of `clause_arena`, the trail of `sat_trail`, the propagation of `watch_lists` and the type and the
//! definitions of `proof_check`'s logs stand below; nothing here calls the checker. `solve` is promised over the
//! formula as it is handed in: an assignment that satisfies it, or a log that refutes it, or, where the budget of
//! numbers is spent, a progress log, each line of which tells unit propagation something new; and over few variables a
//! great budget is never spent. How the next decision is chosen, and when the search starts again, stands in no
//! clause.
#![tactic(auto)]

mod analyse;
mod attach;
mod copy;
mod decisions;
mod known;
mod learn;
mod load;
mod outcome;
mod preferences;
mod restarts;
mod search;
mod solver;
mod units;
mod verdict;
mod workspace;

pub use outcome::Outcome;
pub use preferences::Preferences;
pub use solver::{solve, solve_in_blocks};

#[cfg(test)]
mod tests;
