//! What is found of a formula.
use proof_check::Log;

/// A satisfying assignment, place i for variable i + 1; or a log that refutes the formula; or a progress log of the
/// formula that spends the budget.
#[derive(Drop)]
pub enum Outcome {
    Sat(Vec<bool>),
    Refuted(Log),
    Open(Log),
}
