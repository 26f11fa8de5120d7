use cpog_base::{OpId, ScenId};

/// The first part of a report that fails.
#[derive(Clone, Copy, Debug, PartialEq, Eq)]
pub enum Reason {
    /// The first scenario that has an operation before itself, and its least such operation.
    Cyclic(ScenId, OpId),
    /// The least scenario that is equal to an earlier one, and the first that it is equal to.
    Equal(ScenId, ScenId),
    /// The least scenario that has an earlier one's code, and the first that has it.
    Codes(ScenId, ScenId),
    /// The first scenario whose code hasn't its given bits.
    Given(ScenId),
    /// The first scenario that its code doesn't leave, and its first operation that tells it.
    Operation(ScenId, OpId),
    /// The same where its operations are left: its first pair that tells it, by the first operation and then the second.
    Order(ScenId, OpId, OpId),
    /// The module isn't that of the names, gates and conditions.
    Netlist,
    /// The greater bound isn't the number of gates, or the lower one isn't less.
    Count,
    /// The evidence doesn't speak of the lower bound.
    Evidence,
    /// The first member of a count, from 1, that isn't open or isn't incompatible with each earlier one.
    EvidenceCondition(u32),
    /// The first line of a refutation, from 1, that doesn't follow, and its hint.
    RefutationLine { line: u32, hint: u32 },
    /// All lines of a refutation follow, and none is empty.
    RefutationNoEmptyClause,
    /// The open part isn't one between the bounds.
    Open,
    /// The first line of an open log, from 1, that doesn't follow, and its hint.
    OpenLine { line: u32, hint: u32 },
    /// An open log has fewer numbers than the budget.
    OpenShort,
}

/// Whether a report is good, or the first of its parts that fails.
#[derive(Clone, Copy, Debug, PartialEq, Eq)]
pub enum Verdict {
    Yes,
    No(Reason),
}
