//! What propagation came to.

/// Nothing more is forced, or the clause with this number is false throughout.
#[derive(Clone, Copy)]
pub enum Propagation {
    Done,
    Conflict(u32),
}
