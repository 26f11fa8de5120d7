//! The text of a log: a line for each addition and each deletion, with free spacing, comments and blank lines.
ghost use Rattle.std.specs.Prelude.{◌≡◌, ◌+◌, ◌<◌, ◌≤◌, ◌^◌, ◌∷◌, ◌++◌, [], ℕ, Bool, true, false, MatchOption, IfOk, IfErr, length, map, List};
ghost use Rattle.std.specs.Fmt.{decimal};
ghost use Rattle.text_rows.specs.Words.{tokens};
ghost use Rattle.dimacs_text.specs.Logs.{ended, lit_word, LitsWithin, AreIds, SpellsLine};
ghost use Rattle.dimacs_text.specs.Keeping.{HoldsLits, IsLitsFor, IsKept};
ghost use Rattle.dimacs_text.specs.Entries.{IsEntry};
ghost use Rattle.text_rows.specs.Lines.{free_lines};
ghost use Rattle.dimacs_text.specs.LogTexts.{StepBad, StepTo, IsLogRead, IsLogJudged};
ghost use Rattle.dimacs_text.specs.Logs as logs;
ghost use Rattle.clause_arena.specs.Clauses.{Clause};
ghost use Rattle.proof_check.specs.Lines.{Line, last_id};

use crate::line_lits::LineLits;
use cpog_base::{LONG_INPUT_LIMIT, Memory, VARIABLE_LIMIT};
use proof_check::Log;
use std::alloc::Global;
use text_rows::{after_word, is_blank, next_free_line, number, signed};

/// What is wrong with the text of a log.
#[derive(Clone, Copy, Debug, PartialEq, Eq)]
pub enum LogFault {
    /// The number of the first bad line, from 1.
    BadLine(u32),
    Memory,
}

/// What a line of a log is, beside its literals and its hints or deleted ids, which stay in buffers.
#[derive(Clone, Copy)]
pub enum Entry {
    /// An addition with this id.
    Add(u32),
    /// A deletion.
    Del,
    /// Neither.
    Bad,
}

/// The ids up to `0`, and what follows it.
fn read_ids<'a>(words: &'a [u8], ids: &mut Vec<u32>) -> Result<Option<&'a [u8]>, Memory>
    ensures { IfOk result (λ o. MatchOption o ((ns : List ℕ) (ws : List (List ℕ)) → AreIds ns → tokens words.now ≡ ended (map decimal ns) ++ ws → ⊥) (λ x. AreIds ids.new.items × (tokens words.now ≡ ended (map decimal ids.new.items) ++ tokens x.now))) }
{
    ids.clear();
    let mut rest = words;
    while let Some((n, after)) = number(rest) {
        rest = after;
        if n == 0 {
            return Ok(Some(rest));
        }
        if n > u32::MAX as u64 {
            return Ok(None);
        }
        ids.push(n as u32)?;
    }
    Ok(None)
}

/// The literals up to `0`, and what follows it.
fn read_lits<'a>(
    words: &'a [u8],
    variables: u64,
    lits: &mut LineLits,
) -> Result<Option<&'a [u8]>, Memory>
    requires small { variables < 10000000000 }
    requires kind { IsLitsFor variables lits.old }
    ensures kind { IfOk result (λ _. IsLitsFor variables lits.new) }
    ensures kept { IfOk result (λ _. IsKept lits.old → IsKept lits.new) }
    ensures read { IfOk result (λ o. MatchOption o ((ls : Clause) (ws : List (List ℕ)) → LitsWithin variables ls → tokens words.now ≡ ended (map lit_word ls) ++ ws → ⊥) (λ x. (ls : Clause) × HoldsLits lits.new ls × LitsWithin variables ls × (tokens words.now ≡ ended (map lit_word ls) ++ tokens x.now))) }
{
    lits.clear();
    let mut rest = words;
    while let Some((negated, n, after)) = signed(rest) {
        rest = after;
        if n == 0 {
            return Ok(Some(rest));
        }
        if n > variables {
            return Ok(None);
        }
        lits.take(n, negated)?;
    }
    Ok(None)
}

/// What a line of a log is, behind additions of which the last has this id.
pub fn read_entry(
    line: &[u8],
    variables: u64,
    last: u64,
    lits: &mut LineLits,
    hints: &mut Vec<u32>,
) -> Result<Entry, Memory>
    requires small { variables < 10000000000 }
    requires kind { IsLitsFor variables lits.old }
    ensures kind { IfOk result (λ _. IsLitsFor variables lits.new) }
    ensures kept { IfOk result (λ _. IsKept lits.old → IsKept lits.new) }
    ensures entry { IfOk result (IsEntry variables last (tokens line.now) lits.new hints.new.items) }
{
    let Some((id, rest)) = number(line) else {
        return Ok(Entry::Bad);
    };
    if id == 0 {
        return Ok(Entry::Bad);
    }
    if id > u32::MAX as u64 {
        return Ok(Entry::Bad);
    }
    if let Some(words) = after_word(rest, b"d") {
        let Some(end) = read_ids(words, hints)? else {
            return Ok(Entry::Bad);
        };
        if !is_blank(end) {
            return Ok(Entry::Bad);
        }
        return Ok(Entry::Del);
    }
    if id <= last {
        return Ok(Entry::Bad);
    }
    let Some(words) = read_lits(rest, variables, lits)? else {
        return Ok(Entry::Bad);
    };
    let Some(end) = read_ids(words, hints)? else {
        return Ok(Entry::Bad);
    };
    if !is_blank(end) {
        return Ok(Entry::Bad);
    }
    Ok(Entry::Add(id as u32))
}

/// Whether a line is a comment or blank.
pub fn is_passed(line: &[u8]) -> bool
    ensures { result ≡ logs.is_passed line.now }
{
    if let [b'c', ..] = line {
        return true;
    }
    is_blank(line)
}

/// Reads a line into the log: the id of the last addition behind it, or none where the line may not stand.
fn read_line(
    log: &mut Log,
    line: &[u8],
    variables: u64,
    last: u64,
    lits: &mut LineLits,
    hints: &mut Vec<u32>,
) -> Result<Option<u64>, Memory>
    requires small { variables < 10000000000 }
    requires kind { IsLitsFor variables lits.old }
    requires kept { IsKept lits.old }
    requires last { last_id log.old.first log.old.lines ≡ last }
    ensures kind { IfOk result (λ _. IsLitsFor variables lits.new) }
    ensures kept { IfOk result (λ _. IsKept lits.new) }
    ensures first { log.new.first ≡ log.old.first }
    ensures step { IfOk result (λ o. MatchOption o (StepBad variables last line.now) (λ next. StepTo variables last line.now log.old.lines log.new.lines next × (last_id log.new.first log.new.lines ≡ next))) }
{
    if is_passed(line) {
        return Ok(Some(last));
    }
    match read_entry(line, variables, last, lits, hints)? {
        Entry::Bad => Ok(None),
        Entry::Add(id) => {
            log.push_add(id, lits.as_slice(), hints)?;
            Ok(Some(id as u64))
        }
        Entry::Del => {
            log.push_del(hints)?;
            Ok(Some(last))
        }
    }
}

/// A log, behind so many lines of another text.
pub fn read_log_after(
    alloc: Global,
    bytes: &[u8],
    variables: u32,
    clauses: u32,
    before: u32,
) -> Result<Log, LogFault>
    requires size { length bytes.now + before ≤ LONG_INPUT_LIMIT }
    requires small { variables ≤ VARIABLE_LIMIT }
    ensures { IsLogRead variables clauses (free_lines bytes.now) before result }
{
    let mut log = Log::new(alloc, clauses);
    let mut lits = LineLits::Kept(Vec::new(alloc));
    let mut hints = Vec::new(alloc);
    let mut rest = bytes;
    let mut number = before;
    let mut last = clauses as u64;
    while let Some((line, after)) = next_free_line(rest) {
        rest = after;
        number += 1;
        let Ok(step) = read_line(
            &mut log,
            line,
            variables as u64,
            last,
            &mut lits,
            &mut hints,
        ) else {
            return Err(LogFault::Memory);
        };
        let Some(next) = step else {
            return Err(LogFault::BadLine(number));
        };
        last = next;
    }
    Ok(log)
}

/// Passes over a line of a log: the id of the last addition behind it, or none where the line may not stand.
fn judge_line(
    line: &[u8],
    variables: u64,
    last: u64,
    lits: &mut LineLits,
    hints: &mut Vec<u32>,
) -> Result<Option<u64>, Memory>
    requires small { variables < 10000000000 }
    requires kind { IsLitsFor variables lits.old }
    ensures kind { IfOk result (λ _. IsLitsFor variables lits.new) }
    ensures step { IfOk result (λ o. MatchOption o (StepBad variables last line.now) (λ next. (old : List Line) → (new : List Line) × StepTo variables last line.now old new next)) }
{
    if is_passed(line) {
        return Ok(Some(last));
    }
    match read_entry(line, variables, last, lits, hints)? {
        Entry::Bad => Ok(None),
        Entry::Add(id) => Ok(Some(id as u64)),
        Entry::Del => Ok(Some(last)),
    }
}

/// Whether the lines are those of a log of a formula with so many variables and clauses; if not, the first bad one. The
/// log is not kept.
pub fn judge_log(
    alloc: Global,
    bytes: &[u8],
    variables: u64,
    clauses: u64,
    before: u32,
) -> Result<(), LogFault>
    requires size { length bytes.now + before ≤ LONG_INPUT_LIMIT }
    requires small { variables < 10000000000 }
    ensures { IsLogJudged variables clauses (free_lines bytes.now) before result }
{
    let mut lits = LineLits::Passed;
    let mut hints = Vec::new(alloc);
    let mut rest = bytes;
    let mut number = before;
    let mut last = clauses;
    while let Some((line, after)) = next_free_line(rest) {
        rest = after;
        number += 1;
        let Ok(step) = judge_line(line, variables, last, &mut lits, &mut hints) else {
            return Err(LogFault::Memory);
        };
        let Some(next) = step else {
            return Err(LogFault::BadLine(number));
        };
        last = next;
    }
    Ok(())
}

/// The log that a text of lines has, of a formula with so many variables and clauses, after the proof format LRAT.
///
/// # Errors
///
/// `BadLine` with the first bad line of the text, and `Memory` where none is left.
pub fn read_log(alloc: Global, bytes: &[u8], variables: u32, clauses: u32) -> Result<Log, LogFault>
    requires size { length bytes.now ≤ LONG_INPUT_LIMIT }
    requires small { variables ≤ VARIABLE_LIMIT }
    ensures { IsLogRead variables clauses (free_lines bytes.now) 0 result }
{
    read_log_after(alloc, bytes, variables, clauses, 0)
}
