//! The clauses that the search knows, and the log that shows the learnt ones.
use clause_arena::ClauseArena;
use proof_check::Log;
use watch_lists::Watches;

/// Clause number k, from 0, has the id k + 1 in the log: first the formula's clauses, then the learnt ones. Only the
/// attached clauses propagate.
#[derive(Drop)]
pub struct Known {
    pub arena: ClauseArena,
    pub watches: Watches,
    pub log: Log,
}
