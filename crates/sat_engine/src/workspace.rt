//! What an analysis works in. It is kept between conflicts, so that memory is taken only where a line is longer than
//! all before it.
use clause_arena::Lit;

/// Which variables are seen, variable v at place v - 1; the literals of the line that is learnt; and its hints.
#[derive(Drop)]
pub struct Workspace {
    pub seen: Vec<bool>,
    pub lits: Vec<Lit>,
    pub hints: Vec<u32>,
}
