//! Codes that differ, and that have their given bits.
ghost use Rattle.std.specs.Prelude.{◌≡◌, ◌≢◌, ◌<◌, ◌≤◌, ℕ, length, MatchOption};
ghost use Rattle.std.specs.List.{AllPairs};
ghost use Rattle.cpog_defs.specs.Codes.{KeepGivenBits};
ghost use Rattle.report_judge.specs.Codes.{HaveOneCode, IsFirstSame, IsFirstLost};

use cpog_base::{Pattern, SCENARIO_LIMIT, ScenId};

/// The first place before this one that has its code.
fn first_same_before(codes: &[u8], later: usize) -> Option<ScenId>
    requires few { length codes.now ≤ SCENARIO_LIMIT }
    requires within { later < length codes.now }
    ensures { MatchOption result ((j : ℕ) → HaveOneCode codes.now later j → ⊥) (λ s. HaveOneCode codes.now later s.0 × ((j : ℕ) → j < s.0 → HaveOneCode codes.now later j → ⊥)) }
{
    for earlier in 0..later {
        if codes[earlier] == codes[later] {
            return Some(ScenId(earlier as u8));
        }
    }
    None
}

/// The least place that has an earlier one's code, and the first that has it, in this order.
pub(crate) fn first_same(codes: &[u8]) -> Option<(ScenId, ScenId)>
    requires { length codes.now ≤ SCENARIO_LIMIT }
    ensures { MatchOption result (AllPairs (λ a b. a ≢ b) codes.now) (λ p. IsFirstSame codes.now p.0.0 p.1.0) }
{
    for later in 0..codes.len() {
        if let Some(earlier) = first_same_before(codes, later) {
            return Some((ScenId(later as u8), earlier));
        }
    }
    None
}

/// The first place whose code hasn't the given bits of its pattern.
pub(crate) fn first_lost(patterns: &[Pattern], codes: &[u8]) -> Option<ScenId>
    requires few { length codes.now ≤ SCENARIO_LIMIT }
    requires one_each { length patterns.now ≡ length codes.now }
    ensures { MatchOption result (KeepGivenBits patterns.now codes.now) (λ s. IsFirstLost patterns.now codes.now s.0) }
{
    for s in 0..codes.len() {
        if !patterns[s].agrees(codes[s]) {
            return Some(ScenId(s as u8));
        }
    }
    None
}
