//! What is answered to the text of a formula: whether the log behind it refutes it, or what a search finds.
//!
//! The answers are promised to be those that the definitions of this crate allow for the bytes read: a refutation that
//! is accepted or found leaves no solution, an assignment satisfies each clause, and each line of an open log tells
//! propagation something new. Below it stand the readers and writers of formulas and logs, the checker, and the engine.
#![tactic(auto)]

mod lrat;
mod solve;

pub use lrat::answer_lrat;
pub use solve::answer_solve;
