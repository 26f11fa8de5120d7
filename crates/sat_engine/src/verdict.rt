//! How a search ends.

/// Every variable has a value and no clause is false; or the log has an empty line; or the budget is spent.
#[derive(Clone, Copy)]
pub enum Verdict {
    Sat,
    Refuted,
    Open,
}
