//! The check of a whole log, line by line.
ghost use Rattle.std.specs.Prelude.{◌≡◌, ◌<◌, length, IfOk};
ghost use Rattle.proof_check.specs.Lines.{line_at, is_empty_add};
ghost use Rattle.proof_check.specs.Verdicts.{IsLogVerdict};

use crate::log::{LineRef, Log};
use crate::scratch::{Scratch, check_line};
use crate::verdict::{LineVerdict, LogVerdict};
use clause_arena::Cnf;
use cpog_base::Memory;
use std::alloc::Global;

/// Whether a log refutes a formula; if not, its first line that doesn't follow.
///
/// # Errors
///
/// `Memory` where none is left.
pub fn check_log(alloc: Global, formula: &Cnf, log: &Log) -> Result<LogVerdict, Memory>
    ensures { IfOk result (λ v. IsLogVerdict formula.now.variables formula.now.clauses.clauses log.now.lines v) }
{
    let mut scratch = Scratch::new(alloc, formula, log)?;
    let mut has_empty = false;
    for index in 0..log.len() {
        match check_line(formula, log, &mut scratch, index) {
            LineVerdict::Refused(hint) => {
                return Ok(LogVerdict::BadLine {
                    line: index + 1,
                    hint,
                });
            }
            LineVerdict::Follows => {}
        }
        has_empty = has_empty || is_empty_addition(log, index);
    }
    if has_empty {
        Ok(LogVerdict::Refuted)
    } else {
        Ok(LogVerdict::NoEmptyClause)
    }
}

fn is_empty_addition(log: &Log, index: u32) -> bool
    requires { index < length log.now.lines }
    ensures { result ≡ is_empty_add (line_at log.now.lines index) }
{
    match log.line(index) {
        LineRef::Add { lits, .. } => lits.is_empty(),
        LineRef::Del { .. } => false,
    }
}
