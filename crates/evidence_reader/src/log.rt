//! The lines of a log up to its end: one blank between words, no comment and no blank line.
ghost use Rattle.std.specs.Prelude.{◌≡◌, ◌∷◌, ◌++◌, [], true, None, Some, MatchOption, IfOk};
ghost use Rattle.std.specs.Bool.{MatchBool};
ghost use Rattle.cpog_base.specs.declared.limits.TheConstants.{VARIABLE_LIMIT};
ghost use Rattle.proof_check.specs.Lines.{Line, last_id};
ghost use Rattle.dimacs_text.specs.Logs.{id_after};
ghost use Rattle.dimacs_text.specs.Keeping.{IsLitsFor, IsKept};
ghost use Rattle.report_text.specs.Spelling.{IsSingleSpaced};
ghost use Rattle.line_rows.specs.Reading.{Gives};
ghost use Rattle.evidence_reader.specs.LogLines.{log_line_in};
ghost use Rattle.evidence_reader.specs.Spacing as spacing;
ghost use Rattle.evidence_reader.specs.Shown.{log_at};

use cpog_base::{Memory, VARIABLE_LIMIT};
use dimacs_text::{Entry, LineLits, read_entry};
use line_rows::{Cursor, ReadError};
use proof_check::Log;
use std::alloc::Global;

/// Whether one blank stands between each two words of the line, and none at its ends.
fn is_single_spaced(line: &[u8]) -> bool
    ensures { MatchBool result (IsSingleSpaced line.now) (IsSingleSpaced line.now → ⊥) }
{
    if line.is_empty() {
        return true;
    }
    is_tight(line)
}

/// Whether no blank stands behind another or at an end, and no tab anywhere.
fn is_tight(line: &[u8]) -> bool
    ensures { result ≡ spacing.is_tight true line.now }
{
    let mut after_blank = true;
    let mut rest = line;
    while let [first, others @ ..] = rest {
        if *first == b'\t' {
            return false;
        }
        let is_blank = *first == b' ';
        if is_blank && after_blank {
            return false;
        }
        after_blank = is_blank;
        rest = others;
    }
    !after_blank
}

/// Reads a line into the log: the id of the last addition behind it, or none where the line is none of a log.
fn push_line(
    log: &mut Log,
    line: &[u8],
    last: u64,
    lits: &mut LineLits,
    hints: &mut Vec<u32>,
) -> Result<Option<u64>, Memory>
    requires kind { IsLitsFor VARIABLE_LIMIT lits.old }
    requires kept { IsKept lits.old }
    requires last { last_id log.old.first log.old.lines ≡ last }
    ensures kind { IfOk result (λ _. IsLitsFor VARIABLE_LIMIT lits.new) }
    ensures kept { IfOk result (λ _. IsKept lits.new) }
    ensures step { IfOk result (λ o. MatchOption o (log_line_in VARIABLE_LIMIT last line.now ≡ None) (λ next. (e : Line) × (log_line_in VARIABLE_LIMIT last line.now ≡ Some e) × (log.new.lines ≡ log.old.lines ++ e ∷ []) × (next ≡ id_after last e) × (last_id log.new.first log.new.lines ≡ next))) }
{
    if !is_single_spaced(line) {
        return Ok(None);
    }
    match read_entry(line, VARIABLE_LIMIT as u64, last, lits, hints)? {
        Entry::Bad => Ok(None),
        Entry::Add(id) => {
            log.push_add(id, lits.as_slice(), hints)?;
            Ok(Some(id as u64))
        }
        Entry::Del => {
            log.push_del(hints)?;
            Ok(Some(last))
        }
    }
}

/// The log that the next lines spell up to its end. The ids of its additions rise from 0.
pub fn log_rows(alloc: Global, cursor: &mut Cursor<'_>) -> Result<Log, ReadError>
    ensures { Gives (λ log. (log.lines, cursor.new)) result (log_at cursor.old) }
{
    let mut log = Log::new(alloc, 0);
    let mut lits = LineLits::Kept(Vec::new(alloc));
    let mut hints = Vec::new(alloc);
    let mut last = 0u64;
    'lines: loop {
        let line = match cursor.line() {
            Ok(line) => line,
            Err(fault) => return Err(fault),
        };
        if line == b"end".as_slice() {
            return Ok(log);
        }
        let Ok(step) = push_line(&mut log, line, last, &mut lits, &mut hints) else {
            return Err(ReadError::Memory);
        };
        let Some(next) = step else {
            return Err(cursor.bad());
        };
        last = next;
    }
}
