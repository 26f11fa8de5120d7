//! A place in a list of watches.
use clause_arena::Lit;

/// The node that follows, and the other watched literal of the same clause.
#[derive(Clone, Copy)]
pub struct Link {
    pub next: u32,
    pub other: Lit,
}
