//! Whether an addition follows.
ghost use Rattle.std.specs.Prelude.{◌≡◌, ◌+◌, ◌*◌, ◌<◌, ◌≤◌, ◌^◌, ℕ, MatchOption, length, slice_index_or};
ghost use Rattle.proof_check.specs.Lines.Line.{Add};
ghost use Rattle.proof_check.specs.Records.{IsLog};
ghost use Rattle.proof_check.specs.Following.{IsProper, HintsLead, Breaks};
ghost use Rattle.proof_check.specs.Marks.{IsTable};
ghost use Rattle.proof_check.specs.Lives.{live_by, FlaggedWithin};

use crate::live::live_clause;
use crate::log::Log;
use crate::marks::{all_false, mark_clause, unit_of};
use crate::near::Near;
use clause_arena::{Cnf, Lit};

/// The first hint of an addition that breaks the rule, or 0 for a cause that lies in no hint.
pub fn add_break(
    formula: &Cnf,
    log: &Log,
    clauses_live: &[bool],
    lines_live: &[bool],
    near: &Near,
    marks: &mut Vec<u32>,
    stamp: u32,
    id: u32,
    lits: &[Lit],
    hints: &[u32],
) -> Option<u32>
    requires log { IsLog log.now }
    requires clauses { length clauses_live.now ≡ length formula.now.clauses.clauses }
    requires lines { length lines_live.now ≡ length log.now.lines }
    requires within { FlaggedWithin formula.now.variables log.now.lines lines_live.now }
    requires size { length marks.old.items ≡ 2 * formula.now.variables + 2 }
    requires fresh { (k : ℕ) → slice_index_or marks.old.items k 0 < stamp }
    requires few { length hints.now < 4294967295 }
    ensures table { IsTable formula.now.variables marks.new.items stamp }
    ensures verdict { MatchOption result (IsProper formula.now.variables (length formula.now.clauses.clauses) id lits.now hints.now × HintsLead (live_by formula.now.clauses.clauses log.now.lines clauses_live.now lines_live.now) lits.now hints.now) (λ h. Breaks formula.now.variables (length formula.now.clauses.clauses) (live_by formula.now.clauses.clauses log.now.lines clauses_live.now lines_live.now) (Add id lits.now hints.now) h) }
{
    if hints.is_empty() || id <= formula.clauses.len() {
        return Some(0);
    }
    if !mark_clause(marks, stamp, formula.variables, lits) {
        return Some(0);
    }
    let last = hints.len() - 1;
    for i in 0..last {
        let hint = hints[i];
        let Some(clause) = live_clause(
            formula,
            log,
            clauses_live,
            lines_live,
            near.guess(hint),
            hint,
        ) else {
            return Some(i as u32 + 1);
        };
        let Some(unit) = unit_of(marks, stamp, formula.variables, clause) else {
            return Some(i as u32 + 1);
        };
        marks[unit.negated().code() as usize] = stamp;
    }
    let hint = hints[last];
    let Some(clause) = live_clause(
        formula,
        log,
        clauses_live,
        lines_live,
        near.guess(hint),
        hint,
    ) else {
        return Some(last as u32 + 1);
    };
    if all_false(marks, stamp, formula.variables, clause) {
        None
    } else {
        Some(last as u32 + 1)
    }
}
