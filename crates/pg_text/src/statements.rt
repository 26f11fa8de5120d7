//! A line is blank, a comment, or one statement.
ghost use Rattle.std.specs.Prelude.{◌≡◌, ◌+◌, ◌-◌, ◌^◌, ◌<◌, ◌≤◌, ◌∷◌, List, ℕ, Bool, [], length, MatchOption, IfSome, IfOk, IfErr, OnOk};
ghost use Rattle.pg_text.specs.declared.sign.Fixed.TheVariants as words;
ghost use Rattle.pg_text.specs.Faults.{IsDue};
ghost use Rattle.pg_text.specs.Reading.{Lacks};
ghost use Rattle.pg_text.specs.ReadingLines.{ReadsCommas, NoCommas, ReadsWith, NoWith, ReadsDefinition, NoDefinition, ReadsSentence, NoSentence, ReadsLine, NoLine};
ghost use Rattle.pg_text.specs.Tokens.{word as word_token, BeginsWithAll};
ghost use Rattle.pg_text.specs.Sentences.{name_tokens, bind_tokens, left_tokens};

use crate::expressions::expression_at;
use crate::fault::LineFault;
use crate::sign::{Fixed, Sign};
use crate::statement::{Bindings, NameList, Statement};
use crate::tokens::{after_sign, after_word, bit_at, is_ended, name_at};
use cpog_base::{NESTING_LIMIT, Name, Names};
use pg_algebra::Expr;
use std::alloc::Global;

/// The names at the front with commas between them, and what follows.
fn names_at<'a>(alloc: Global, bytes: &'a [u8]) -> Result<(Vec<Name>, &'a [u8]), LineFault>
    ensures found { IfOk result (λ p. ReadsCommas name_tokens bytes.now p.0.items p.1.now) }
    ensures err { IfErr result (IsDue (NoCommas name_tokens bytes.now)) }
{
    let mut names = Vec::new(alloc);
    let mut left = bytes;
    'names: loop {
        let Some((name, after)) = name_at(left) else {
            return Err(LineFault::Bad);
        };
        names.push(Name::new(alloc, name)?)?;
        match after_sign(after, Sign::Comma) {
            Some(rest) => left = rest,
            None => return Ok((names, after)),
        }
    }
}

/// The name before the `=` that follows it, and what follows.
fn left_at(bytes: &[u8]) -> Option<(&str, &[u8])>
    ensures cases { MatchOption result ((w rest : List ℕ) → BeginsWithAll bytes.now (left_tokens w) rest → ⊥) (λ p. BeginsWithAll bytes.now (left_tokens p.0.now) p.1.now) }
    ensures shorter { IfSome result (λ p. length p.1.now < length bytes.now) }
{
    let (name, after) = name_at(bytes)?;
    let rest = after_sign(after, Sign::Equals)?;
    Some((name, rest))
}

/// The parameter and its bit at the front, and what follows.
fn binding_at(bytes: &[u8]) -> Option<(&str, bool, &[u8])>
    ensures cases { MatchOption result ((w : List ℕ) (b : Bool) (rest : List ℕ) → BeginsWithAll bytes.now (bind_tokens (w, b)) rest → ⊥) (λ p. BeginsWithAll bytes.now (bind_tokens (p.0.now, p.1)) p.2.now) }
    ensures shorter { IfSome result (λ p. length p.2.now < length bytes.now) }
{
    let (name, after) = left_at(bytes)?;
    let (bit, rest) = bit_at(after)?;
    Some((name, bit, rest))
}

/// The bindings at the front with commas between them, and what follows.
fn bindings_at<'a>(
    alloc: Global,
    bytes: &'a [u8],
) -> Result<(Vec<(Name, bool)>, &'a [u8]), LineFault>
    ensures found { IfOk result (λ p. ReadsCommas bind_tokens bytes.now p.0.items p.1.now) }
    ensures err { IfErr result (IsDue (NoCommas bind_tokens bytes.now)) }
{
    let mut bindings = Vec::new(alloc);
    let mut left = bytes;
    'bindings: loop {
        let Some((name, bit, after)) = binding_at(left) else {
            return Err(LineFault::Bad);
        };
        let name = Name::new(alloc, name)?;
        bindings.push((name, bit))?;
        match after_sign(after, Sign::Comma) {
            Some(rest) => left = rest,
            None => return Ok((bindings, after)),
        }
    }
}

/// The bindings behind `with`, or none where that does not come next, and what follows.
fn with_at<'a>(alloc: Global, bytes: &'a [u8]) -> Result<(Vec<(Name, bool)>, &'a [u8]), LineFault>
    ensures found { IfOk result (λ p. ReadsWith bytes.now p.0.items p.1.now) }
    ensures err { IfErr result (IsDue (NoWith bytes.now)) }
{
    let Some(after) = after_word(bytes, Fixed::With) else {
        return Ok((Vec::new(alloc), bytes));
    };
    let (bindings, rest) = bindings_at(alloc, after)?;
    Ok((bindings, rest))
}

/// The name and the expression of a definition, and what follows.
fn definition_at<'a>(
    alloc: Global,
    operations: &mut Names,
    bytes: &'a [u8],
) -> Result<(Name, Expr, &'a [u8]), LineFault>
    requires { length operations.old + length bytes.now < 2 ^ 32 - 1 }
    ensures found { IfOk result (λ p. ReadsDefinition operations.old bytes.now p.0 p.1 operations.new p.2.now) }
    ensures numbers { IfOk result (λ p. length operations.new ≤ length operations.old + length bytes.now) }
    ensures err { IfErr result (IsDue (NoDefinition bytes.now)) }
{
    let Some((name, after)) = left_at(bytes) else {
        return Err(LineFault::Bad);
    };
    let name = Name::new(alloc, name)?;
    let (expr, rest) = expression_at(alloc, operations, after, NESTING_LIMIT)?;
    Ok((name, expr, rest))
}

/// The parameters of a line, where `params` begins it.
fn params_line(alloc: Global, line: &[u8]) -> Result<Option<Statement>, LineFault>
    ensures found { IfOk result (λ o. MatchOption o (Lacks (word_token words.Params) line.now) (λ s. (names : List (List ℕ)) → ReadsSentence names line.now s names)) }
    ensures err { IfErr result (IsDue (NoSentence line.now)) }
{
    let Some(after) = after_word(line, Fixed::Params) else {
        return Ok(None);
    };
    let (names, rest) = names_at(alloc, after)?;
    if !is_ended(rest) {
        return Err(LineFault::Bad);
    }
    let names = NameList::new(names);
    Ok(Some(Statement::Params { names }))
}

/// The graph of a line, where `graph` begins it.
fn graph_line(
    alloc: Global,
    operations: &mut Names,
    line: &[u8],
) -> Result<Option<Statement>, LineFault>
    requires { length operations.old + length line.now < 2 ^ 32 - 1 }
    ensures found { IfOk result (λ o. MatchOption o (Lacks (word_token words.Graph) line.now × (operations.new ≡ operations.old)) (λ s. ReadsSentence operations.old line.now s operations.new)) }
    ensures numbers { OnOk result (length operations.new ≤ length operations.old + length line.now) }
    ensures err { IfErr result (IsDue (NoSentence line.now)) }
{
    let Some(after) = after_word(line, Fixed::Graph) else {
        return Ok(None);
    };
    let (name, expr, rest) = definition_at(alloc, operations, after)?;
    if !is_ended(rest) {
        return Err(LineFault::Bad);
    }
    Ok(Some(Statement::Graph { name, expr }))
}

/// The scenario of a line, where `scenario` begins it.
fn scenario_line(
    alloc: Global,
    operations: &mut Names,
    line: &[u8],
) -> Result<Option<Statement>, LineFault>
    requires { length operations.old + length line.now < 2 ^ 32 - 1 }
    ensures found { IfOk result (λ o. MatchOption o (Lacks (word_token words.Scenario) line.now × (operations.new ≡ operations.old)) (λ s. ReadsSentence operations.old line.now s operations.new)) }
    ensures numbers { OnOk result (length operations.new ≤ length operations.old + length line.now) }
    ensures err { IfErr result (IsDue (NoSentence line.now)) }
{
    let Some(after) = after_word(line, Fixed::Scenario) else {
        return Ok(None);
    };
    let (name, expr, left) = definition_at(alloc, operations, after)?;
    let (bindings, rest) = with_at(alloc, left)?;
    if !is_ended(rest) {
        return Err(LineFault::Bad);
    }
    let bindings = Bindings::new(bindings);
    Ok(Some(Statement::Scenario {
        name,
        expr,
        bindings,
    }))
}

/// The statement of a line that isn't blank.
fn statement_at(alloc: Global, operations: &mut Names, line: &[u8]) -> Result<Statement, LineFault>
    requires { length operations.old + length line.now < 2 ^ 32 - 1 }
    ensures found { IfOk result (λ s. ReadsSentence operations.old line.now s operations.new) }
    ensures numbers { OnOk result (length operations.new ≤ length operations.old + length line.now) }
    ensures err { IfErr result (IsDue (NoSentence line.now)) }
{
    if let Some(scenario) = scenario_line(alloc, operations, line)? {
        return Ok(scenario);
    }
    if let Some(graph) = graph_line(alloc, operations, line)? {
        return Ok(graph);
    }
    if let Some(params) = params_line(alloc, line)? {
        return Ok(params);
    }
    Err(LineFault::Bad)
}

/// The statement of a line, if it has one. Operations that are new get the next numbers.
pub(crate) fn read_line(
    alloc: Global,
    operations: &mut Names,
    line: &[u8],
) -> Result<Option<Statement>, LineFault>
    requires { length operations.old + length line.now < 2 ^ 32 - 1 }
    ensures found { IfOk result (λ s. ReadsLine operations.old line.now s operations.new) }
    ensures numbers { OnOk result (length operations.new ≤ length operations.old + length line.now) }
    ensures err { IfErr result (IsDue (NoLine line.now)) }
{
    if is_ended(line) {
        return Ok(None);
    }
    let statement = statement_at(alloc, operations, line)?;
    Ok(Some(statement))
}
