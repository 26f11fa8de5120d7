//! What became of one node.

/// It stays in its list, or went to another one, or its clause is false throughout.
#[derive(Clone, Copy)]
pub enum Step {
    Kept,
    Moved,
    Conflict(u32),
}
