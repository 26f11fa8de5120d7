//! The text of a formula: comments, the `p` line, and the numbers of its clauses, wherever lines end. Behind the line
//! `lrat` a log may stand.
ghost use Rattle.std.specs.Prelude.{◌≡◌, ◌+◌, ◌*◌, ◌<◌, ◌≤◌, ◌==◌, [], ℕ, IfOk, IfSome, MatchOption, length, slice_index};
ghost use Rattle.clause_arena.specs.Arenas.{literals};
ghost use Rattle.text_rows.specs.Lines.{free_lines};
ghost use Rattle.text_rows.specs.Words.{tokens};
ghost use Rattle.dimacs_text.specs.Formulas.{body_words, header_words};
ghost use Rattle.dimacs_text.specs.Keeping.{Holds, IsFor, IsTaken};
ghost use Rattle.dimacs_text.specs.Bodies.{IsBodyRead};
ghost use Rattle.dimacs_text.specs.CnfTexts.{IsFrontRead, IsCnfRead, fault_of, IsJudgedFault, IsJoinedRead};

use crate::body::Body;
use crate::log::{LogFault, is_passed, judge_log, read_log_after};
use clause_arena::Cnf;
use cpog_base::{LONG_INPUT_LIMIT, Memory};
use proof_check::Log;
use std::alloc::Global;
use text_rows::{after_word, is_blank, next_free_line, number, signed};

/// What is wrong with the text of a formula.
#[derive(Clone, Copy, Debug, PartialEq, Eq)]
pub enum CnfFault {
    /// The number of the first bad line, from 1.
    BadLine(u32),
    /// The text is good, and has more variables than are taken.
    Limit,
    Memory,
}

/// The numbers of the `p` line.
#[derive(Clone, Copy)]
pub struct Header {
    pub variables: u64,
    pub clauses: u64,
}

/// What stands up to the `p` line, what follows it, and how many lines were read.
#[derive(Clone, Copy)]
pub struct Front<'a> {
    pub header: Header,
    pub rest: &'a [u8],
    pub lines: u32,
}

/// Where the lines of the clauses end: what follows the line `lrat`, if that ends them, and how many lines were read.
#[derive(Clone, Copy)]
pub struct BodyEnd<'a> {
    pub rest: Option<&'a [u8]>,
    pub lines: u32,
}

fn read_header(line: &[u8]) -> Option<Header>
    ensures { MatchOption result ((v n : ℕ) → v < 10000000000 → n < 10000000000 → tokens line.now ≡ header_words v n → ⊥) (λ x. (x.variables < 10000000000) × (x.clauses < 10000000000) × (tokens line.now ≡ header_words x.variables x.clauses)) }
{
    let Some(rest) = after_word(line, b"p") else {
        return None;
    };
    let Some(words) = after_word(rest, b"cnf") else {
        return None;
    };
    let Some((variables, after)) = number(words) else {
        return None;
    };
    let Some((clauses, end)) = number(after) else {
        return None;
    };
    if !is_blank(end) {
        return None;
    }
    Some(Header { variables, clauses })
}

/// The lines up to the `p` line.
fn read_front(bytes: &[u8]) -> Result<Front<'_>, CnfFault>
    requires { length bytes.now ≤ LONG_INPUT_LIMIT }
    ensures front { IsFrontRead (free_lines bytes.now) result }
    ensures lines { IfOk result (λ x. length x.rest.now + x.lines ≤ length bytes.now) }
{
    let mut rest = bytes;
    let mut lines: u32 = 0;
    while let Some((line, after)) = next_free_line(rest) {
        rest = after;
        lines += 1;
        if is_passed(line) {
            continue;
        }
        let Some(header) = read_header(line) else {
            return Err(CnfFault::BadLine(lines));
        };
        return Ok(Front {
            header,
            rest,
            lines,
        });
    }
    Err(CnfFault::BadLine(lines + 1))
}

/// The numbers of a line; whether each may stand.
fn read_numbers(line: &[u8], header: Header, body: &mut Body) -> Result<bool, Memory>
    requires small { header.variables < 10000000000 }
    requires few { header.clauses < 10000000000 }
    requires kind { IsFor header.variables body.old }
    ensures kind { IfOk result (λ _. IsFor header.variables body.new) }
    ensures taken { IfOk result (IsTaken header.variables header.clauses body.old body.new (tokens line.now)) }
{
    let mut rest = line;
    while let Some((negated, n, after)) = signed(rest) {
        rest = after;
        if n > header.variables {
            return Ok(false);
        }
        if body.count() >= header.clauses {
            return Ok(false);
        }
        body.take(n, negated)?;
    }
    Ok(is_blank(rest))
}

fn is_comment(line: &[u8]) -> bool
    ensures { result ≡ (slice_index line.now 0 == 99) }
{
    match line {
        [b'c', ..] => true,
        _ => false,
    }
}

/// A line behind the `p` line; whether it may stand.
fn take_line(line: &[u8], header: Header, body: &mut Body) -> Result<bool, Memory>
    requires small { header.variables < 10000000000 }
    requires few { header.clauses < 10000000000 }
    requires kind { IsFor header.variables body.old }
    ensures kind { IfOk result (λ _. IsFor header.variables body.new) }
    ensures taken { IfOk result (IsTaken header.variables header.clauses body.old body.new (body_words line.now)) }
{
    if is_comment(line) {
        return Ok(true);
    }
    read_numbers(line, header, body)
}

/// The lines up to the line `lrat` or the end.
fn read_body<'a>(
    bytes: &'a [u8],
    before: u32,
    header: Header,
    body: &mut Body,
) -> Result<BodyEnd<'a>, CnfFault>
    requires size { length bytes.now + before ≤ LONG_INPUT_LIMIT }
    requires small { header.variables < 10000000000 }
    requires few { header.clauses < 10000000000 }
    requires kind { IsFor header.variables body.old }
    requires nothing { Holds body.old [] [] }
    ensures kind { IfOk result (λ _. IsFor header.variables body.new) }
    ensures body { IsBodyRead header.variables header.clauses before (free_lines bytes.now) body.new result }
    ensures lines { IfOk result (λ x. x.lines ≤ LONG_INPUT_LIMIT) }
    ensures rest { IfOk result (λ x. IfSome x.rest (λ r. length r.now + x.lines ≤ LONG_INPUT_LIMIT)) }
{
    let mut rest = bytes;
    let mut lines = before;
    while let Some((line, after)) = next_free_line(rest) {
        rest = after;
        lines += 1;
        if line == b"lrat".as_slice() {
            return Ok(BodyEnd {
                rest: Some(rest),
                lines,
            });
        }
        let Ok(taken) = take_line(line, header, body) else {
            return Err(CnfFault::Memory);
        };
        if !taken {
            return Err(CnfFault::BadLine(lines));
        }
    }
    Ok(BodyEnd { rest: None, lines })
}

/// The formula that a text in DIMACS CNF has.
///
/// # Errors
///
/// `BadLine` with the first bad line of the text, `Limit` where it is good and has more than 16777216 variables, and
/// `Memory` where none is left.
pub fn read_cnf(alloc: Global, bytes: &[u8]) -> Result<Cnf, CnfFault>
    requires { length bytes.now ≤ LONG_INPUT_LIMIT }
    ensures read { IsCnfRead (free_lines bytes.now) result }
    ensures size { IfOk result (λ formula. 2 * (length formula.clauses.clauses + literals formula.clauses.clauses) ≤ length bytes.now) }
{
    let front = match read_front(bytes) {
        Ok(front) => front,
        Err(fault) => return Err(fault),
    };
    let mut body = Body::new(alloc, front.header.variables);
    let end = match read_body(front.rest, front.lines, front.header, &mut body) {
        Ok(end) => end,
        Err(fault) => return Err(fault),
    };
    match end.rest {
        Some(_) => return Err(CnfFault::BadLine(end.lines)),
        None => {}
    }
    if !body.is_whole(front.header.clauses) {
        return Err(CnfFault::BadLine(end.lines + 1));
    }
    match body.into_clauses() {
        Some(clauses) => Ok(Cnf {
            variables: front.header.variables as u32,
            clauses,
        }),
        None => Err(CnfFault::Limit),
    }
}

/// A fault of the log, as one of the whole text.
fn joined_fault(fault: LogFault) -> CnfFault
    ensures { result ≡ fault_of fault }
{
    match fault {
        LogFault::BadLine(line) => CnfFault::BadLine(line),
        LogFault::Memory => CnfFault::Memory,
    }
}

/// What is wrong with a text whose formula has too many variables: the first bad line of its log, or else the limit.
fn judged_fault(alloc: Global, rest: &[u8], header: Header, lines: u32) -> CnfFault
    requires size { length rest.now + lines ≤ LONG_INPUT_LIMIT }
    requires small { header.variables < 10000000000 }
    ensures { IsJudgedFault header.variables header.clauses (free_lines rest.now) lines result }
{
    match judge_log(alloc, rest, header.variables, header.clauses, lines) {
        Ok(()) => CnfFault::Limit,
        Err(fault) => joined_fault(fault),
    }
}

/// A formula, and behind the line `lrat` the log of a refutation of it, as `cpog lrat` reads them. Lines are counted
/// over the whole text.
///
/// # Errors
///
/// `BadLine` with the first bad line of the text, `Limit` where it is good and the formula has more than 16777216
/// variables, and `Memory` where none is left.
pub fn read_joined(alloc: Global, bytes: &[u8]) -> Result<(Cnf, Log), CnfFault>
    requires { length bytes.now ≤ LONG_INPUT_LIMIT }
    ensures { IsJoinedRead (free_lines bytes.now) result }
{
    let front = match read_front(bytes) {
        Ok(front) => front,
        Err(fault) => return Err(fault),
    };
    let mut body = Body::new(alloc, front.header.variables);
    let end = match read_body(front.rest, front.lines, front.header, &mut body) {
        Ok(end) => end,
        Err(fault) => return Err(fault),
    };
    let rest = match end.rest {
        Some(rest) => rest,
        None => return Err(CnfFault::BadLine(end.lines + 1)),
    };
    if !body.is_whole(front.header.clauses) {
        return Err(CnfFault::BadLine(end.lines));
    }
    let clauses = match body.into_clauses() {
        Some(clauses) => clauses,
        None => return Err(judged_fault(alloc, rest, front.header, end.lines)),
    };
    let variables = front.header.variables as u32;
    let count = clauses.len();
    match read_log_after(alloc, rest, variables, count, end.lines) {
        Ok(log) => Ok((Cnf { variables, clauses }, log)),
        Err(fault) => Err(joined_fault(fault)),
    }
}
