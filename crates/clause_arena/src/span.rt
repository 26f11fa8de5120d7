/// Where a clause lies among the literals: from a place on, and up to another.
#[derive(Clone, Copy)]
pub struct Span {
    pub start: u32,
    pub end: u32,
}
