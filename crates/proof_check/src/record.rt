/// A line's id, and where it ends among the literals and the hints. A deletion has the id of the line before it.
#[derive(Clone, Copy)]
pub struct Record {
    pub id: u32,
    pub lits_end: u32,
    pub hints_end: u32,
}
