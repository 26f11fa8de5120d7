//! What is promised of evidence.

ghost use Rattle.cnf_build.specs.Laws.{EvidenceBounds};

/// Evidence for a number shows that no encoding that keeps the given bits has fewer gates: a count by the law
/// `count_bounds` of `cpog_merge`, and a refutation by `refuted_templates_bound` of `gate_template`.
pub fn evidence_bounds()
    ensures { EvidenceBounds }
{}
