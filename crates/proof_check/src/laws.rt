//! Laws: what is true of following, whoever checks it.
ghost use Rattle.proof_check.specs.Laws.{VerdictsExclude, OneFirstHint, RefutationsLeaveNone};

/// A line for which a first hint breaks the rule doesn't follow, so each verdict comes exactly where its cause stands.
pub fn verdicts_exclude()
    ensures { VerdictsExclude }
{}

/// There is one first hint that breaks the rule.
pub fn one_first_hint()
    ensures { OneFirstHint }
{}

/// A refutation leaves no assignment.
pub fn refutations_leave_none()
    ensures { RefutationsLeaveNone }
{}
