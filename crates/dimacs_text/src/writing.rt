//! The texts of formulas and logs, written into one buffer.
ghost use Rattle.std.specs.Prelude.{◌≡◌, ◌<◌, ◌++◌, ◌∷◌, [], ℕ, length, map, OnOk, IfOk, string_bytes};
ghost use Rattle.std.specs.List.{AllByRecursion};
ghost use Rattle.std.specs.Fmt.{decimal};
ghost use Rattle.line_text.specs.Lines.{text_of};
ghost use Rattle.text_rows.specs.Lines.{free_lines, IsUnbroken};
ghost use Rattle.text_rows.specs.Words.{spaced};
ghost use Rattle.proof_check.specs.Records.{IsLog};
ghost use Rattle.proof_check.specs.Refs.{line_of_ref};
ghost use Rattle.dimacs_text.specs.Logs.{lit_word, id_after, IsLitWithin, LitsWithin, SpellsLog};
ghost use Rattle.dimacs_text.specs.Formulas.{clause_words, SpellsFormula};
ghost use Rattle.dimacs_text.specs.Writing.{blanked, formula_lines, written_words, log_lines, LineFits, line_within, LinesWithin};

use clause_arena::{ClauseArena, Cnf, Lit};
use cpog_base::Memory;
use proof_check::{LineRef, Log};
use std::alloc::{AllocError, Global};
use std::fmt::Write;

fn put_lit(out: &mut String, lit: Lit) -> Result<(), AllocError>
    ensures text { OnOk result (string_bytes out.new ≡ string_bytes out.old ++ (lit_word lit ++ 32 ∷ [])) }
    ensures within { IsLitWithin 2147483647 lit }
{
    if lit.is_negated() {
        write!(out, "-{} ", lit.var())
    } else {
        write!(out, "{} ", lit.var())
    }
}

/// Writes each literal with a blank behind it.
fn put_lits(out: &mut String, lits: &[Lit]) -> Result<(), AllocError>
    ensures text { OnOk result (string_bytes out.new ≡ string_bytes out.old ++ blanked (map lit_word lits.now)) }
    ensures within { OnOk result (LitsWithin 2147483647 lits.now) }
{
    'lits: for i in 0..lits.len() {
        put_lit(out, lits[i])?;
    }
    Ok(())
}

/// Writes each id with a blank behind it.
fn put_ids(out: &mut String, ids: &[u32]) -> Result<(), AllocError>
    ensures text { OnOk result (string_bytes out.new ≡ string_bytes out.old ++ blanked (map decimal ids.now)) }
    ensures fit { AllByRecursion (λ n. n < 4294967296) ids.now }
{
    'ids: for i in 0..ids.len() {
        write!(out, "{} ", ids[i])?;
    }
    Ok(())
}

fn put_clause(out: &mut String, lits: &[Lit]) -> Result<(), AllocError>
    ensures { OnOk result (string_bytes out.new ≡ string_bytes out.old ++ (spaced (clause_words lits.now) ++ 10 ∷ [])) }
{
    put_lits(out, lits)?;
    out.push_str("0\n")?;
    Ok(())
}

fn formula_text(
    alloc: Global,
    comment: &str,
    variables: u32,
    clauses: &ClauseArena,
) -> Result<String, AllocError>
    ensures text { IfOk result (λ text. string_bytes text ≡ text_of (formula_lines comment.now variables clauses.now.clauses)) }
    ensures few_variables { variables < 4294967296 }
    ensures few { length clauses.now.clauses < 4294967295 }
{
    let mut out = String::new(alloc);
    let count = clauses.len();
    write!(out, "c {}\np cnf {} {}\n", comment, variables, count)?;
    'clauses: for id in 0..count {
        put_clause(&mut out, clauses.clause(id))?;
    }
    Ok(out)
}

/// The text of a formula in DIMACS CNF: a line of comment, the `p` line, and a line for each clause.
///
/// # Errors
///
/// `Memory` where none is left.
pub fn write_cnf(alloc: Global, comment: &str, cnf: &Cnf) -> Result<Vec<u8>, Memory>
    requires { IsUnbroken comment.now }
    ensures text { IfOk result (λ text. text.items ≡ text_of (formula_lines comment.now cnf.now.variables cnf.now.clauses.clauses)) }
    ensures spells { IfOk result (λ text. SpellsFormula (free_lines text.items) cnf.now.variables cnf.now.clauses.clauses) }
{
    let text = formula_text(alloc, comment, cnf.variables, &cnf.clauses)?;
    Ok(text.into_bytes())
}

/// Writes a line, and says which id of an addition was written last.
fn put_line(out: &mut String, last: u32, line: LineRef<'_>) -> Result<u32, AllocError>
    ensures text { OnOk result (string_bytes out.new ≡ string_bytes out.old ++ (spaced (written_words last (line_of_ref line.entry)) ++ 10 ∷ [])) }
    ensures last { IfOk result (λ next. next ≡ id_after last (line_of_ref line.entry)) }
    ensures fits { OnOk result (LineFits (line_of_ref line.entry)) }
    ensures within { OnOk result (line_within 2147483647 (line_of_ref line.entry)) }
{
    match line {
        LineRef::Add { id, lits, hints } => {
            write!(out, "{} ", id)?;
            put_lits(out, lits)?;
            out.push_str("0 ")?;
            put_ids(out, hints)?;
            out.push_str("0\n")?;
            Ok(id)
        }
        LineRef::Del { ids } => {
            write!(out, "{} d ", last)?;
            put_ids(out, ids)?;
            out.push_str("0\n")?;
            Ok(last)
        }
    }
}

/// Writes the lines of a log, as `append_log` says.
fn put_lines(out: &mut String, log: &Log) -> Result<(), Memory>
    ensures text { OnOk result (string_bytes out.new ≡ string_bytes out.old ++ text_of (log_lines log.now.lines)) }
    ensures fits { OnOk result (AllByRecursion LineFits log.now.lines) }
    ensures within { OnOk result (LinesWithin 2147483647 log.now.lines) }
    ensures log { IsLog log.now }
{
    let mut last: u32 = 1;
    'lines: for i in 0..log.len() {
        last = put_line(out, last, log.line(i))?;
    }
    Ok(())
}

/// This text with the lines of a log behind it, in one buffer. A deletion has the id of the addition before it, or 1
/// where there is none. After `Memory` the text is given up.
///
/// # Errors
///
/// `Memory` where none is left.
pub fn append_log(mut text: String, log: &Log) -> Result<String, Memory>
    ensures text { IfOk result (λ whole. string_bytes whole ≡ string_bytes text ++ text_of (log_lines log.now.lines)) }
    ensures fits { OnOk result (AllByRecursion LineFits log.now.lines) }
    ensures within { OnOk result (LinesWithin 2147483647 log.now.lines) }
    ensures log { OnOk result (IsLog log.now) }
{
    put_lines(&mut text, log)?;
    Ok(text)
}

/// The text of a log, a line for each of its lines. A deletion has the id of the addition before it, or 1 where there
/// is none.
///
/// # Errors
///
/// `Memory` where none is left.
pub fn write_log(alloc: Global, log: &Log) -> Result<Vec<u8>, Memory>
    ensures text { IfOk result (λ text. text.items ≡ text_of (log_lines log.now.lines)) }
    ensures lines { IfOk result (λ text. free_lines text.items ≡ log_lines log.now.lines) }
    ensures within { OnOk result (LinesWithin 2147483647 log.now.lines) }
    ensures spells { IfOk result (λ text. (variables : ℕ) → variables < 10000000000 → LinesWithin variables log.now.lines → SpellsLog variables log.now.first (free_lines text.items) log.now.lines) }
{
    let text = append_log(String::new(alloc), log)?;
    Ok(text.into_bytes())
}
